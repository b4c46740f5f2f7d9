// Plans laid out by the bench and by the second simulator, from the same bytes, at the same depth and in the same buffer, and everything that
// comes back compared. What is proved of it is that every call is safe and ends.
#![tactic(auto)]

use compare::tally::{Tally, Trials, answer_of};
use draws::bytes::{ByteString, Bytes};
use draws::dice::Dice;
use draws::plans::{Plan, ROOM, Wish};
use second_plan::answers::Answer;
use std::io::Stdout;
use std::{array, io};

const SEED: u64 = 588;

const PLANS: usize = 3000;

// A plan to be laid out: the bytes handed over, how many of them are the plan's, and what stands in the buffer before.
#[derive(Drop)]
struct Case {
    bytes: Bytes<ROOM>,
    length: usize,
    before: [u8; ROOM],
}

impl Case {
    // Any plan with or without bytes behind it, in a buffer of any bytes.
    fn drawn(dice: &mut Dice) -> Case {
        let wish = Wish::any(dice);
        let Plan { mut bytes, .. } = Plan::unfilled(dice, wish);
        let length = bytes.len();
        bytes.extend_any(dice);
        let before = array::from_fn(|_| dice.byte());
        Case {
            bytes,
            length,
            before,
        }
    }

    // A layout in a buffer of so many bytes, on the second side to a depth of its own.
    fn try_apart(&self, tally: &mut Tally, room: usize, depth: usize, theirs: usize) {
        let size = room.min(ROOM);
        let (mut bench, mut second) = (self.before, self.before);
        let laid = answer_of(layout::layout(self.bytes.as_slice(), depth, &mut bench[..size]));
        let other = Answer::from(second_layout::layout(
            self.bytes.as_slice(),
            theirs,
            &mut second[..size],
        ));
        tally.same_answer("layout's answer", laid.number, other.number);
        tally.same("layout's place", laid.place, other.place);
        tally.same_list("laid byte", &bench, &second);
    }

    fn try_layout(&self, tally: &mut Tally, room: usize, depth: usize) {
        self.try_apart(tally, room, depth, depth);
    }

    // To every depth, and to the first that is too deep: in a buffer with just enough room, and in one that is short by one.
    fn try_depths(&self, tally: &mut Tally) {
        for depth in 0..65 {
            self.try_layout(tally, self.length, depth);
            // Of no bytes there is nothing to be short of: all the room.
            self.try_layout(tally, self.length.wrapping_sub(1), depth);
        }
    }

    // To any depth in a buffer with one byte more, with many more and with none; and too deep by far.
    fn try_rooms(&self, trials: &mut Trials) {
        let depth = trials.dice.below(64);
        let far = far_depth(&mut trials.dice);
        let tally = &mut trials.tally;
        self.try_layout(tally, self.length.saturating_add(1), depth);
        self.try_layout(tally, ROOM, depth);
        self.try_layout(tally, 0, depth);
        self.try_layout(tally, ROOM, far);
    }

    // What the bench lays out is a plan that the second simulator accepts, whatever stands behind it.
    fn try_reading(&self, trials: &mut Trials) {
        let mut out = self.before;
        let depth = trials.dice.below(64);
        let Ok(length) = layout::layout(self.bytes.as_slice(), depth, &mut out) else {
            return;
        };
        let mut plan = second_plan::rows::Plan::zeros();
        let read = Answer::from(second_plan::read_plan(&mut plan, &out));
        let tally = &mut trials.tally;
        tally.same("laid plan's answer", 0, usize::from(read.number));
        tally.same("laid plan's length", length, read.place);
    }
}

// Too deep by far, and in its low bits a depth that is not.
fn far_depth(dice: &mut Dice) -> usize {
    let depth = dice.below(64);
    if dice.once_in(2) {
        256 + depth
    } else {
        depth.wrapping_sub(64)
    }
}

// Drawn plans, and what came of them.
pub fn try_drawn(out: Stdout) -> io::Result<()> {
    let mut trials = Trials::new(SEED, out);
    for _ in 0..PLANS {
        trials.tally.begin();
        let case = Case::drawn(&mut trials.dice);
        case.try_depths(&mut trials.tally);
        case.try_rooms(&mut trials);
        case.try_reading(&mut trials);
    }
    trials.tally.report_layouts()
}

// The ring 0-1 0-2 1-5 2-3 3-4 4-5, where at depth 3 node 4 is claimed by 5 and not by 3: 5 was claimed earlier.
const RING: [u8; 58] = [
    1, 0, 1, 2, 0, 0, 0, 0, 2, 1, 0, 0, 0, 2, 2, 0, 0, 0, 2, 3, 0, 0, 0, 2, 4, 0, 0, 0, 2, 5, 0, 0,
    0, 3, 0, 1, 0, 3, 0, 2, 0, 3, 1, 5, 0, 3, 2, 3, 0, 3, 3, 4, 0, 3, 4, 5, 0, 0,
];

// A layout for which the second simulator is asked to go one step deeper.
fn plant(tally: &mut Tally, depth: usize) {
    let mut bytes = Bytes::new();
    bytes.extend(&RING);
    let case = Case {
        bytes,
        length: RING.len(),
        before: [7; ROOM],
    };
    tally.begin();
    case.try_apart(tally, ROOM, depth, depth.saturating_add(1));
}

// Differences that have to be found and counted: of a written byte alone, and of the answer, the place and a written byte.
pub fn try_planted(out: Stdout) -> io::Result<()> {
    let mut tally = Tally::new(out);
    plant(&mut tally, 2);
    plant(&mut tally, 63);
    tally.report_planted()
}
