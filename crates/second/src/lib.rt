// A second simulator of document 01, written from the document alone, to hold the proved bench
// against. It shares no code and no definition with any proved crate, and keeps what it knows in
// another shape: whatever belongs to a direction of a link or to a node is a cell of a 64 x 64 sheet,
// found by the numbers of the two nodes, and no list of directions is kept. What is proved of it is
// that every call is safe and ends, for every argument. That it is right is for a comparison to show.
//
// The caller lends two memories: a network, `second_plan::rows::Plan`, and a state,
// `second_plan::sheets::World`. Both may hold anything. Plans are read by `second_plan::read_plan`.
// They stay two parameters in every function: the one is only read and the other changed, and a
// struct of both would be made anew at each call.
//
//   network_outside             whether 17 applies to a network
//   state_outside               whether 17 applies to a network or to a state of it
//   start                       the start state: refusal 17
//   table                       the lockstep table: refusals 17, 20 and 21
//   act                         the action at a place of a byte string: refusals 11 to 16 and 18
//   single_action               a single action handed in: the same, and 17
//   run_actions                 a list of actions: the same, and 17
//
// To hand in a network or a state, fill the memory and change what is to be wrong. In a network an
// entry past the nodes or the links is a later place of the row. In a state, an entry past the nodes
// is a cell of a node's sheet that no node has: (p, p) with p not below the node count, or any
// (p, q) with p other than q. An entry past the links is a cell of a direction's sheet whose two
// nodes have no link, as (p, p) always is.
#![tactic(auto)]

mod action;
mod lists;
mod needs;
mod ranges;
mod rounds;
mod taking;

pub use lists::{act, run_actions, single_action};
pub use ranges::{network_outside, state_outside};
pub use rounds::{start, table};
