// Actions in a byte string, one of them and a list of them.

ghost use Rattle.std.specs.Prelude.{◌≤◌};

use crate::action::Action;
use crate::ranges::state_outside;
use crate::taking::take;
use second_plan::answers::{Ran, Refusal, Refused, Stopped};
use second_plan::bytes::after;
use second_plan::rows::Plan;
use second_plan::sheets::World;

// Takes the action at `at`, or refuses it by 11 to 16 or 18.
fn take_at(plan: &Plan, world: &mut World, bytes: &[u8], at: usize) -> Result<Action, Refusal> {
    let action = Action::read(bytes.get(at..).unwrap_or(&[]))?;
    take(plan, world, action)?;
    Ok(action)
}

// The action at `at`: refusals 11 to 16 and 18. It does not ask whether 17 applies.
pub fn act(plan: &Plan, world: &mut World, bytes: &[u8], at: usize) -> Result<(), Refusal> {
    take_at(plan, world, bytes, at).map(|_| ())
}

// "A single action handed in": how long it is. Every refusal has place 0, and bytes after it are
// not read.
pub fn single_action(plan: &Plan, world: &mut World, bytes: &[u8]) -> Result<usize, Refused> {
    if state_outside(plan, world) {
        return Err(Refusal::Outside.at(0));
    }
    take_at(plan, world, bytes, 0)
        .map(|action| 1 + action.body())
        .map_err(|refusal| refusal.at(0))
}

// "A list of actions stops at the first refusal and answers its number, its place and how many
// were taken; the state is that after those taken."
pub fn run_actions(plan: &Plan, world: &mut World, bytes: &[u8]) -> Result<Ran, Stopped> {
    let mut place = 0;
    let mut taken = 0;
    if state_outside(plan, world) {
        return Err(Stopped {
            refusal: Refusal::Outside,
            place,
            taken,
        });
    }

    // a `while`, since each action says where the next one starts
    while place < bytes.len() {
        let action = take_at(plan, world, bytes, place).map_err(|refusal| Stopped {
            refusal,
            place,
            taken,
        })?;
        place = after(place, action.body(), bytes.len());
        taken += 1;
    }
    Ok(Ran { place, taken })
}
