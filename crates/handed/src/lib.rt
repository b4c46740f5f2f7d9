// Networks and states as a caller may hand them in: with one entry changed, so that a clause of 17 applies; networks that no plan gives and
// 17 lets pass; states that no run comes to, with queues full or at odds with the counts. What is proved of it is that every call is safe
// and ends.
#![tactic(auto)]

pub mod networks;
pub mod states;

ghost use Rattle.std.specs.Prelude.{◌+◌, ◌<◌};

use draws::dice::Dice;

// A number of at least x, and below `end` if x is.
fn at_least(dice: &mut Dice, x: usize, end: usize) -> usize
    ensures { x < end → result < end }
{
    x + dice.below(end.saturating_sub(x))
}

// 0 or a number above x.
fn none_or_above(dice: &mut Dice, x: usize, end: usize) -> usize
    requires { x < end }
    ensures { x + 1 < end → result < end }
{
    if dice.once_in(2) {
        0
    } else {
        at_least(dice, x + 1, end)
    }
}
