// The second simulator lays out the clusters of a plan. Like `second_plan`, whose reader and memory it uses, it shares nothing with any
// proved crate.
//
//   layout    bytes and a depth in, the plan laid out in a lent buffer: refusals 1 to 5, 10, 22 and 23
#![tactic(auto)]

mod claiming;
mod flags;
mod paths;
mod writing;

use crate::claiming::{claim_all, enter_parents};
use crate::flags::enter_flags;
use crate::writing::write;
use second_plan::answers::{Refusal, Refused};
use second_plan::rows::{MOST_NODES, Plan};
use second_plan::{read_records, unjoined};

// The plan's parents and flags become those of its layout.
fn lay_out(plan: &mut Plan, depth: usize) {
    let paths = claim_all(plan, depth);
    enter_parents(plan, &paths);
    enter_flags(plan, &paths);
}

// "Refusals, in order: 1 to 5 as before, 10, then 22 depth above 63, 23 buffer shorter than the plan, both with place 0". Where nothing is
// refused, the plan's length.
pub fn layout(bytes: &[u8], depth: usize, out: &mut [u8]) -> Result<usize, Refused> {
    let mut plan = Plan::zeros();
    let size = read_records(&mut plan, bytes)?;
    unjoined(&plan)?;
    if depth >= MOST_NODES {
        return Err(Refusal::TooDeep.at(0));
    }
    if out.len() < size {
        return Err(Refusal::NoRoomForPlan.at(0));
    }
    lay_out(&mut plan, depth);
    write(&plan, &mut out[..size]);
    Ok(size)
}
