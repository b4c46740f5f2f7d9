// One call made of the bench and of the second simulator, with the same bytes, network, state or buffer, and everything that comes back
// compared. What is proved of it is that every call is safe and ends.
#![tactic(auto)]

pub mod both;
pub mod tables;
