// The second simulator's plan reader, and the memories that it and `second` work on. Like `second`, it shares nothing with any proved crate.
//
//   rows::Plan                  a network: a number by row and place
//   sheets::World               a state: a number by sheet and pair of nodes
//   named::Names                a row, a sheet or another thing by itself or by its number
//   read_plan                   bytes to a network: refusals 1 to 10
//   read_records, unjoined      refusals 1 to 5 of the records alone, and check 10 alone
//   answers::Answer             what any of these says, in numbers
#![tactic(auto)]

pub mod answers;
pub mod bytes;
mod checks;
pub mod named;
pub mod nodes;
mod reading;
pub mod rows;
pub mod sheets;

pub use checks::unjoined;
pub use reading::{read_plan, read_records};
