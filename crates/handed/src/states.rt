// States with one entry changed, and states that no run comes to.
use crate::{at_least, none_or_above};
use compare::states::{Holds, blank, directions_of, number, set_number, used_by};
use compare::tally::Clause;
use draws::dice::Dice;
use network::Network;
use second_plan::sheets::{Kind, Message, Place, Sheet};
use synchronizer::State;

// A way to spoil a state.
#[derive(Clone, Copy, Debug, PartialEq, Eq)]
enum Way {
    CountHigh,
    QueueLong,
    NoSort,
    AckWithLoad,
    SecondSort,
    SecondLoad,
    Past,
}

impl Way {
    const ALL: [Way; 7] = [
        Way::CountHigh,
        Way::QueueLong,
        Way::NoSort,
        Way::AckWithLoad,
        Way::SecondSort,
        Way::SecondLoad,
        Way::Past,
    ];

    // One entry of a state changed, after one message was made to wait on a direction; the clause that then applies.
    fn spoil<H: Holds>(self, state: &mut H, dice: &mut Dice, net: &Network) -> Clause {
        let d = dice.below(directions_of(net));
        let some = dice.below(255) + 1;
        let sort = if self == Way::AckWithLoad {
            Message::Ack
        } else {
            Message::Packet
        };
        one_waits(state, d, sort);
        match self {
            Way::CountHigh => count_high(state, dice, net),
            Way::QueueLong => set_number(state, Sheet::Queued, d, dice.below(253) + 3),
            Way::NoSort => set_number(
                state,
                Sheet::Sort(Place::First),
                d,
                none_or_above(dice, 2, 256),
            ),
            Way::AckWithLoad => set_number(state, Sheet::Load(Place::First), d, some),
            Way::SecondSort => set_number(state, Sheet::Sort(Place::Second), d, some),
            Way::SecondLoad => set_number(state, Sheet::Load(Place::Second), d, some),
            Way::Past => number_past(state, dice, net),
        }
        self.clause()
    }

    fn clause(self) -> Clause {
        match self {
            Way::CountHigh => Clause::Counts,
            Way::QueueLong => Clause::Queues,
            Way::NoSort | Way::AckWithLoad => Clause::Messages,
            Way::SecondSort | Way::SecondLoad | Way::Past => Clause::Past,
        }
    }
}

// One message waits on direction d.
fn one_waits<H: Holds>(state: &mut H, d: usize, sort: Message) {
    let sort = usize::from(sort.number());
    set_number(state, Sheet::Queued, d, 1);
    set_number(state, Sheet::Sort(Place::First), d, sort);
    set_number(state, Sheet::Sort(Place::Second), d, 0);
    set_number(state, Sheet::Load(Place::First), d, 0);
    set_number(state, Sheet::Load(Place::Second), d, 0);
}

// "a count is above rounds"
fn count_high<H: Holds>(state: &mut H, dice: &mut Dice, net: &Network) {
    let sheet = Sheet::Count(Kind::ALL[dice.below(Kind::ALL.len())]);
    let x = dice.below(used_by(net, sheet).min(256));
    let above = net.rounds.saturating_add(dice.below(3) as u16 + 1);
    set_number(state, sheet, x, usize::from(above));
}

// "an entry past the node or link count .. is not 0"
fn number_past<H: Holds>(state: &mut H, dice: &mut Dice, net: &Network) {
    let sheet = Sheet::ALL[dice.below(Sheet::ALL.len())];
    let end = if sheet == Sheet::Value { 64 } else { 256 };
    let x = at_least(dice, used_by(net, sheet), end);
    if x < end {
        set_number(state, sheet, x, dice.below(255) + 1);
    }
}

fn any_sort(dice: &mut Dice, waits: bool) -> u16 {
    if waits { dice.below(2) as u16 + 1 } else { 0 }
}

fn any_load(dice: &mut Dice, sort: u16) -> u16 {
    if sort == Message::Packet.number() {
        dice.word()
    } else {
        0
    }
}

// A number that place x of a sheet may hold, after those of the sheets before it. Sheet and place change at each call, and a struct of them would be
// made for it alone.
fn any_number(dice: &mut Dice, state: &State, rounds: u16, sheet: Sheet, x: usize) -> u16 {
    let waiting = usize::from(number(state, Sheet::Queued, x));
    match sheet {
        Sheet::Count(_) => dice.below(usize::from(rounds) + 1) as u16,
        Sheet::Queued => dice.below(3) as u16,
        Sheet::Sort(place) => any_sort(dice, waiting > place as usize),
        Sheet::Load(place) => any_load(dice, number(state, Sheet::Sort(place), x)),
        Sheet::Slot(_) | Sheet::Value => dice.word(),
    }
}

// Any state of a network that 17 lets pass.
pub fn any_state(dice: &mut Dice, net: &Network) -> State {
    let mut state = blank();
    for sheet in Sheet::ALL {
        for x in 0..256 {
            if x < used_by(net, sheet) {
                let to = any_number(dice, &state, net.rounds, sheet, x);
                set_number(&mut state, sheet, x, usize::from(to));
            }
        }
    }
    state
}

// One entry of a state, or of the list of its numbers, changed in one of so many ways, past the last of which all change what stands past the
// counts; the clause that then applies.
pub fn spoil_state<H: Holds>(state: &mut H, dice: &mut Dice, net: &Network, way: usize) -> Clause {
    let way = Way::ALL.get(way).copied().unwrap_or(Way::Past);
    way.spoil(state, dice, net)
}

// Any state of a network with one entry changed, each way in its turn, and the clause that then applies.
pub fn spoilt_state(dice: &mut Dice, net: &Network, turn: usize) -> (State, Clause) {
    let mut state = any_state(dice, net);
    let clause = spoil_state(&mut state, dice, net, turn % Way::ALL.len());
    (state, clause)
}
