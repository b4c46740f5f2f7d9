// The bench's network and state beside the second simulator's, number by number, and a tally of what was compared. What is proved of it is
// that every call is safe and ends, and what the few clauses say that stand here.
#![tactic(auto)]

pub mod networks;
pub mod states;
pub mod tally;
