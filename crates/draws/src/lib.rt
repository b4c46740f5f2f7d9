// What the trials are made of, drawn from a seed: valid plans, plans to be laid out, and one thing wrong in a plan's bytes or in a list's.
// What is proved of it is that every call is safe and ends, and what the few clauses say that stand here.
#![tactic(auto)]

pub mod bytes;
pub mod damage;
pub mod dice;
pub mod plans;
pub mod unfilled;
