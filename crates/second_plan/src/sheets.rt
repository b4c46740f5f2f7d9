// The memory of a state: a pile of sheets, each with a cell for every ordered pair of nodes. What belongs to a direction p to q stands in
// the cell (p, q), what belongs to a node p in the cell (p, p). A sheet or a cell that is not there reads as 0, and a store to it is no store.

ghost use Rattle.std.specs.Prelude.{◌≡◌, ◌<◌, ◌≤◌, IsSome, None};

use crate::answers::Refusal;
use crate::named::{Names, numbered};
use crate::rows::MOST_NODES;

pub const KINDS: usize = 20;

pub const SHEETS: usize = 28;

// How many cells a sheet has.
pub const SHEET: usize = MOST_NODES * MOST_NODES;

// The number of the first kind of action and of its sheet.
pub const FIRST: usize = 16;

// The kinds of action, with their numbers.
#[derive(Clone, Copy, Debug, PartialEq, Eq)]
pub enum Kind {
    Output = 16,
    PacketSent = 17,
    PacketDelivered = 18,
    AckSent = 19,
    AckDelivered = 20,
    NodeOk = 21,
    SubtreeOkSent = 22,
    SubtreeOkDelivered = 23,
    ClusterOk = 24,
    DownSent = 25,
    DownDelivered = 26,
    PreferredSent = 27,
    PreferredDelivered = 28,
    UpSent = 29,
    UpDelivered = 30,
    ClusterGo = 31,
    SubtreeGoSent = 32,
    SubtreeGoDelivered = 33,
    Go = 34,
    Input = 35,
}

impl Kind {
    // By number, from 16 on.
    pub const ALL: [Kind; KINDS] = [
        Kind::Output,
        Kind::PacketSent,
        Kind::PacketDelivered,
        Kind::AckSent,
        Kind::AckDelivered,
        Kind::NodeOk,
        Kind::SubtreeOkSent,
        Kind::SubtreeOkDelivered,
        Kind::ClusterOk,
        Kind::DownSent,
        Kind::DownDelivered,
        Kind::PreferredSent,
        Kind::PreferredDelivered,
        Kind::UpSent,
        Kind::UpDelivered,
        Kind::ClusterGo,
        Kind::SubtreeGoSent,
        Kind::SubtreeGoDelivered,
        Kind::Go,
        Kind::Input,
    ];

    pub fn number(self) -> u8
        ensures from { 16 ≤ result }
        ensures below { result < 36 }
    {
        self as u8
    }

    // "one or two node numbers": whether an action of the kind is of a direction of a link and has two. The others are of nodes.
    pub fn is_of_directions(self) -> bool {
        matches!(
            self,
            Kind::PacketSent
                | Kind::PacketDelivered
                | Kind::AckSent
                | Kind::AckDelivered
                | Kind::PreferredSent
                | Kind::PreferredDelivered
        )
    }
}

impl TryFrom<u8> for Kind {
    type Error = Refusal;

    fn try_from(number: u8) -> Result<Kind, Refusal> {
        numbered(&Kind::ALL, FIRST, usize::from(number)).ok_or(Refusal::UnknownAction)
    }
}

// A place in the queue of a direction.
#[derive(Clone, Copy, Debug, PartialEq, Eq)]
pub enum Place {
    First,
    Second,
}

// Of which rounds a slot is.
#[derive(Clone, Copy, Debug, PartialEq, Eq)]
pub enum Parity {
    Even,
    Odd,
}

impl Parity {
    // Of round i.
    pub fn of(i: usize) -> Parity {
        if i % 2 == 0 {
            Parity::Even
        } else {
            Parity::Odd
        }
    }
}

// The sorts of a waiting message.
#[derive(Clone, Copy, Debug, PartialEq, Eq)]
pub enum Message {
    Packet = 1,
    Ack = 2,
}

impl Message {
    pub fn number(self) -> u16 {
        self as u16
    }
}

#[derive(Clone, Copy, Debug, PartialEq, Eq)]
pub enum Sheet {
    // How often the actions of a kind were taken.
    Count(Kind),

    // How many messages wait on a direction, and of each its sort and the value that it carries.
    Queued,
    Sort(Place),
    Load(Place),

    // The last packet heard on a direction.
    Slot(Parity),

    // The value of a node.
    Value,
}

impl Sheet {
    // By number, from 16 on.
    pub const ALL: [Sheet; SHEETS] = [
        Sheet::Count(Kind::Output),
        Sheet::Count(Kind::PacketSent),
        Sheet::Count(Kind::PacketDelivered),
        Sheet::Count(Kind::AckSent),
        Sheet::Count(Kind::AckDelivered),
        Sheet::Count(Kind::NodeOk),
        Sheet::Count(Kind::SubtreeOkSent),
        Sheet::Count(Kind::SubtreeOkDelivered),
        Sheet::Count(Kind::ClusterOk),
        Sheet::Count(Kind::DownSent),
        Sheet::Count(Kind::DownDelivered),
        Sheet::Count(Kind::PreferredSent),
        Sheet::Count(Kind::PreferredDelivered),
        Sheet::Count(Kind::UpSent),
        Sheet::Count(Kind::UpDelivered),
        Sheet::Count(Kind::ClusterGo),
        Sheet::Count(Kind::SubtreeGoSent),
        Sheet::Count(Kind::SubtreeGoDelivered),
        Sheet::Count(Kind::Go),
        Sheet::Count(Kind::Input),
        Sheet::Queued,
        Sheet::Sort(Place::First),
        Sheet::Sort(Place::Second),
        Sheet::Load(Place::First),
        Sheet::Load(Place::Second),
        Sheet::Slot(Parity::Even),
        Sheet::Slot(Parity::Odd),
        Sheet::Value,
    ];

    // Its place in the pile: those of counts first, by the numbers of their kinds.
    fn index(self) -> usize
        ensures { result < 28 }
    {
        match self {
            Sheet::Count(kind) => usize::from(kind.number()) - FIRST,
            Sheet::Queued => 20,
            Sheet::Sort(Place::First) => 21,
            Sheet::Sort(Place::Second) => 22,
            Sheet::Load(Place::First) => 23,
            Sheet::Load(Place::Second) => 24,
            Sheet::Slot(Parity::Even) => 25,
            Sheet::Slot(Parity::Odd) => 26,
            Sheet::Value => 27,
        }
    }

    // Whether what it holds belongs to the directions of links. The other sheets belong to nodes.
    pub fn is_of_directions(self) -> bool {
        match self {
            Sheet::Count(kind) => kind.is_of_directions(),
            Sheet::Value => false,
            _ => true,
        }
    }
}

// A kind of action names the sheet of its counts.
impl Names<Sheet> for Kind {
    fn named(self) -> Option<Sheet> {
        Some(Sheet::Count(self))
    }
}

impl Names<Sheet> for usize {
    fn named(self) -> Option<Sheet>
        ensures there { 16 ≤ self → self < 44 → IsSome result }
        ensures none_below { self < 16 → result ≡ None }
        ensures none { 44 ≤ self → result ≡ None }
    {
        numbered(&Sheet::ALL, FIRST, self)
    }
}

// Whether what a sheet holds belongs to the directions of links; not where no sheet is called so.
pub fn of_directions<S: Names<Sheet>>(sheet: S) -> bool {
    sheet.named().is_some_and(Sheet::is_of_directions)
}

// Of each sheet row after row.
#[derive(Clone, Copy, Debug, PartialEq, Eq)]
pub struct World {
    sheets: [[u16; SHEET]; SHEETS],
}

impl World {
    // "all zeros"
    pub fn zeros() -> World {
        World {
            sheets: [[0; SHEET]; SHEETS],
        }
    }

    // The number in the cell (p, q) of a sheet.
    pub fn cell<S: Names<Sheet>>(&self, sheet: S, p: usize, q: usize) -> u16 {
        match sheet.named() {
            Some(sheet) if p < MOST_NODES && q < MOST_NODES => {
                self.sheets[sheet.index()][p * MOST_NODES + q]
            }
            _ => 0,
        }
    }

    pub fn set_cell<S: Names<Sheet>>(&mut self, sheet: S, p: usize, q: usize, x: u16) {
        if let Some(sheet) = sheet.named()
            && p < MOST_NODES
            && q < MOST_NODES
        {
            self.sheets[sheet.index()][p * MOST_NODES + q] = x;
        }
    }

    // The same of a cell, where it is added or compared: on the sheet of a kind, how often an action was taken.
    pub fn count<S: Names<Sheet>>(&self, sheet: S, p: usize, q: usize) -> usize
        ensures { result < 65536 }
    {
        usize::from(self.cell(sheet, p, q))
    }

    // One more in a cell. Nothing that is raised is at 65,535: it was found below something else.
    pub fn raise(&mut self, sheet: Sheet, p: usize, q: usize) {
        let more = self.cell(sheet, p, q).saturating_add(1);
        self.set_cell(sheet, p, q, more);
    }

    // One less in a cell.
    pub fn lower(&mut self, sheet: Sheet, p: usize, q: usize) {
        let less = self.cell(sheet, p, q).saturating_sub(1);
        self.set_cell(sheet, p, q, less);
    }
}
