// The bench's state, number by number, and each number's cell in the second simulator's memory.
//
// A number is called by its sheet, one of the second simulator's, and by its place x in it: a node, a direction of a link (2l from a to b of
// link l, 2l + 1 from b to a), or one past them.
ghost use Rattle.std.specs.Prelude.{◌<◌, ◌≤◌, ◌+◌, length};

use crate::networks::word;
use crate::tally::Tally;
use network::Network;
use queue::Queues;
use second_plan::named::Names;
pub use second_plan::sheets::of_directions;
use second_plan::sheets::{FIRST, Kind, Parity, Place, SHEET, Sheet, World};
use std::array;
use synchronizer::State;

// How many numbers a state has.
pub const NUMBERS: usize = 6976;

// The lists of a state one after the other. A state itself has only a byte for a queue's length or a message's sort, and a cell of these may hold
// more.
pub type Numbers = [u16; NUMBERS];

// Where each of the lists starts.
const LENS: usize = 5120;

const SORTS: usize = 5376;

const LOADS: usize = 5888;

const SLOTS: usize = 6400;

const VALUES: usize = 6912;

// Where a count stands, and where the first or the second of the two numbers that a direction has in a list.
fn count_at(kind: Kind, x: u8) -> usize {
    (usize::from(kind.number()) - FIRST) * 256 + usize::from(x)
}

fn half_at(x: u8, is_second: bool) -> usize
    ensures { result < 512 }
{
    usize::from(x) * 2 + usize::from(is_second)
}

// The sheet and the place that a number is called by, if there may be such a number.
fn called<S: Names<Sheet>>(sheet: S, x: usize) -> Option<(Sheet, u8)> {
    Some((sheet.named()?, u8::try_from(x).ok()?))
}

fn put<T: Copy>(list: &mut [T], at: usize, x: T) {
    if let Some(place) = list.get_mut(at) {
        *place = x;
    }
}

// What holds the numbers of a state: the state itself, or the list of them. A number that is not there reads as 0, and a write to it is none.
pub trait Holds {
    fn at(&self, sheet: Sheet, x: u8) -> u16;

    fn set(&mut self, sheet: Sheet, x: u8, to: u16);
}

// A place of one byte keeps the low one.
impl Holds for State {
    fn at(&self, sheet: Sheet, x: u8) -> u16 {
        let queues = &self.queues;
        let found = match sheet {
            Sheet::Count(kind) => self.counts.get(count_at(kind, x)).copied(),
            Sheet::Queued => queues.lens.get(usize::from(x)).map(|len| u16::from(*len)),
            Sheet::Sort(place) => queues
                .sorts
                .get(half_at(x, place == Place::Second))
                .map(|sort| u16::from(*sort)),
            Sheet::Load(place) => queues
                .loads
                .get(half_at(x, place == Place::Second))
                .copied(),
            Sheet::Slot(parity) => self.slots.get(half_at(x, parity == Parity::Odd)).copied(),
            Sheet::Value => self.values.get(usize::from(x)).copied(),
        };
        found.unwrap_or(0)
    }

    fn set(&mut self, sheet: Sheet, x: u8, to: u16) {
        let [_, low] = to.to_be_bytes();
        let queues = &mut self.queues;
        match sheet {
            Sheet::Count(kind) => put(&mut self.counts, count_at(kind, x), to),
            Sheet::Queued => put(&mut queues.lens, usize::from(x), low),
            Sheet::Sort(place) => put(&mut queues.sorts, half_at(x, place == Place::Second), low),
            Sheet::Load(place) => put(&mut queues.loads, half_at(x, place == Place::Second), to),
            Sheet::Slot(parity) => put(&mut self.slots, half_at(x, parity == Parity::Odd), to),
            Sheet::Value => put(&mut self.values, usize::from(x), to),
        }
    }
}

impl Holds for Numbers {
    fn at(&self, sheet: Sheet, x: u8) -> u16 {
        self.get(index_of(sheet, x)).copied().unwrap_or(0)
    }

    fn set(&mut self, sheet: Sheet, x: u8, to: u16) {
        put(self, index_of(sheet, x), to);
    }
}

// 0 where no sheet is called so, or it has no such place.
pub fn number<H: Holds, S: Names<Sheet>>(numbers: &H, sheet: S, x: usize) -> u16 {
    match called(sheet, x) {
        Some((sheet, x)) => numbers.at(sheet, x),
        None => 0,
    }
}

// What is written keeps the two low bytes.
pub fn set_number<H: Holds, S: Names<Sheet>>(numbers: &mut H, sheet: S, x: usize, to: usize) {
    if let Some((sheet, x)) = called(sheet, x) {
        numbers.set(sheet, x, word(to));
    }
}

// "all zeros"
pub fn blank() -> State {
    State {
        counts: [0; 5120],
        queues: Queues::EMPTY,
        slots: [0; 512],
        values: [0; 64],
    }
}

// Where a number stands among the lists; past their end for a value that is not there.
fn index_of(sheet: Sheet, x: u8) -> usize {
    match sheet {
        Sheet::Count(kind) => count_at(kind, x),
        Sheet::Queued => LENS + usize::from(x),
        Sheet::Sort(place) => SORTS + half_at(x, place == Place::Second),
        Sheet::Load(place) => LOADS + half_at(x, place == Place::Second),
        Sheet::Slot(parity) => SLOTS + half_at(x, parity == Parity::Odd),
        Sheet::Value => VALUES + usize::from(x),
    }
}

// A list among the numbers, from a place on.
fn pour(numbers: &mut Numbers, at: usize, list: &[u16])
    requires { at + length list.now ≤ 6976 }
{
    numbers[at..at + list.len()].copy_from_slice(list);
}

// The lists of a state one after the other.
fn numbers_of(state: &State) -> Numbers {
    let mut numbers = [0; NUMBERS];
    pour(&mut numbers, 0, &state.counts);
    pour(&mut numbers, LENS, &state.queues.lens.map(u16::from));
    pour(&mut numbers, SORTS, &state.queues.sorts.map(u16::from));
    pour(&mut numbers, LOADS, &state.queues.loads);
    pour(&mut numbers, SLOTS, &state.slots);
    pour(&mut numbers, VALUES, &state.values);
    numbers
}

fn are_linked(net: &Network, p: usize, q: usize) -> bool {
    net.neighbours
        .get(p)
        .is_some_and(|set| (*set >> (q % 64)) % 2 == 1)
}

// For each direction its pair of nodes, 64 p + q from p to q; those past the links have pairs that no link joins.
#[derive(Clone, Copy, Debug, PartialEq, Eq)]
pub struct Pairs {
    pub codes: [u16; 256],
}

impl Pairs {
    pub fn of(net: &Network) -> Pairs {
        let mut codes: [u16; 256] = array::from_fn(|d| {
            let (a, b) = (net.lowers[d / 2] % 64, net.uppers[d / 2] % 64);
            let (p, q) = if d % 2 == 0 { (a, b) } else { (b, a) };
            u16::from(p) * 64 + u16::from(q)
        });
        let free = (0..SHEET).filter(|i| !are_linked(net, i / 64, i % 64));
        let past = &mut codes[directions_of(net)..];
        for (code, i) in past.iter_mut().zip(free) {
            *code = word(i);
        }
        Pairs { codes }
    }

    // The pair of direction d; past the last one nodes 0 and 0.
    pub fn pair(&self, d: usize) -> (u8, u8) {
        let code = self.codes.get(d).copied().unwrap_or(0);
        ((code / 64 % 256) as u8, (code % 64) as u8)
    }

    // The cell of place x of a sheet. A node's is (x, x), and one past all nodes has one beside it.
    fn cell(&self, sheet: Sheet, x: u8) -> (usize, usize) {
        if sheet.is_of_directions() {
            let (p, q) = self.pair(usize::from(x));
            (usize::from(p), usize::from(q))
        } else {
            let x = usize::from(x);
            (x % 64, (x + x / 64) % 64)
        }
    }
}

// How many directions the links have.
pub fn directions_of(net: &Network) -> usize
    ensures { result ≤ 256 }
{
    net.links % 129 * 2
}

// How many nodes or directions a sheet has; as many as nodes where no sheet is called so.
pub fn used_by<S: Names<Sheet>>(net: &Network, sheet: S) -> usize {
    if of_directions(sheet) {
        directions_of(net)
    } else {
        net.nodes
    }
}

// Every number of a state in its cell.
pub fn world_of(net: &Network, state: &State) -> World {
    let pairs = Pairs::of(net);
    let mut world = World::zeros();
    for sheet in Sheet::ALL {
        for x in 0..=u8::MAX {
            let (p, q) = pairs.cell(sheet, x);
            world.set_cell(sheet, p, q, state.at(sheet, x));
        }
    }
    world
}

// Every number in its place of a state's lists.
fn numbers_in(net: &Network, world: &World) -> Numbers {
    let pairs = Pairs::of(net);
    let mut numbers = [0; NUMBERS];
    for sheet in Sheet::ALL {
        for x in 0..=u8::MAX {
            let (p, q) = pairs.cell(sheet, x);
            numbers.set(sheet, x, world.cell(sheet, p, q));
        }
    }
    numbers
}

// The bench's state is the second simulator's.
pub fn same_state(tally: &mut Tally, net: &Network, state: &State, world: &World) {
    tally.same_list("state entry", &numbers_of(state), &numbers_in(net, world));
}
