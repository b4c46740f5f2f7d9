// Actions from bytes, one after the other, with no copy of a state or a network in between.
ghost use Rattle.std.specs.Prelude.{◌≡◌, suc, length};
ghost use Rattle.std.specs.Result.{result_unwrap_or};
ghost use Rattle.answers.specs.Numbers.{answer_of};
ghost use Rattle.synchronizer.specs.Entry.{acted, ran, act_in, list_from};

use crate::State;
use crate::wires::Wires;
use actions::read;
use answers::Refusal;

// Where a list stopped, and why: the place, and how many were taken.
#[derive(Clone, Copy)]
pub struct Ended {
    pub outcome: Result<(), Refusal>,
    pub place: usize,
    pub taken: usize,
}

impl State {
    // The record at a place, and how many bytes it has.
    pub(crate) fn turn(&mut self, wires: &Wires, bytes: &[u8], at: usize) -> Result<usize, Refusal>
        ensures { acted (answer_of result) (result_unwrap_or result 0) self.new ≡ act_in wires.now self.old bytes.now at }
    {
        let act = read(bytes, at)?;
        self.take(wires, act.kind, act.p, act.q)?;
        Ok(act.width)
    }

    // One record after the other, up to the first refusal. A `while`: how far on the next one stands is what a turn says.
    pub(crate) fn go_through(&mut self, wires: &Wires, bytes: &[u8]) -> Ended
        ensures { ran (answer_of result.outcome) result.place result.taken self.new ≡ list_from (suc (length bytes.now)) wires.now self.old bytes.now 0 0 }
    {
        let mut ended = Ended {
            outcome: Ok(()),
            place: 0,
            taken: 0,
        };
        while ended.place < bytes.len() {
            match self.turn(wires, bytes, ended.place) {
                Ok(width) => ended.place += width,
                Err(refusal) => {
                    ended.outcome = Err(refusal);
                    return ended;
                }
            }
            ended.taken += 1;
        }
        ended
    }
}
