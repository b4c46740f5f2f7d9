// The memory of a network: rows of numbers. A row or a place that is not there reads as 0, and a store to it is no store.

ghost use Rattle.std.specs.Prelude.{◌≡◌, ◌<◌, ◌≤◌, IsSome, None};

use crate::named::{Names, numbered};

pub const MOST_NODES: usize = 64;

pub const MOST_LINKS: usize = 128;

pub const MOST_ROUNDS: usize = 10000;

pub const ROWS: usize = 9;

// How many numbers a network has: rows with a place for each link.
pub const PLAN: usize = ROWS * MOST_LINKS;

// The rows, each with room for a set of 64 yes-or-no marks in a place.
#[derive(Clone, Copy, Debug, PartialEq, Eq)]
pub enum Row {
    // Single numbers.
    Head,

    // A number for each node: its parent, its start value, and its three sets.
    Parent,
    Start,
    Neighbours,
    Children,
    Preferred,

    // A number for each link: its ends a and b, and its flag.
    Low,
    High,
    Flag,
}

impl Row {
    // By number.
    pub const ALL: [Row; ROWS] = [
        Row::Head,
        Row::Parent,
        Row::Start,
        Row::Neighbours,
        Row::Children,
        Row::Preferred,
        Row::Low,
        Row::High,
        Row::Flag,
    ];

    pub fn number(self) -> usize
        ensures { result < 9 }
    {
        self as usize
    }
}

impl Names<Row> for usize {
    fn named(self) -> Option<Row>
        ensures there { self < 9 → IsSome result }
        ensures none { 9 ≤ self → result ≡ None }
    {
        numbered(&Row::ALL, 0, self)
    }
}

// The single numbers, by their places.
#[derive(Clone, Copy, Debug, PartialEq, Eq)]
pub enum Head {
    Nodes,
    Links,
    Rounds,
}

#[derive(Clone, Copy, Debug, PartialEq, Eq)]
pub struct Plan {
    rows: [[usize; MOST_LINKS]; ROWS],
}

impl Plan {
    // "a network of zeros"
    pub fn zeros() -> Plan {
        Plan {
            rows: [[0; MOST_LINKS]; ROWS],
        }
    }

    // The number at place i of a row.
    pub fn entry<R: Names<Row>>(&self, row: R, i: usize) -> usize {
        match row.named() {
            Some(row) if i < MOST_LINKS => self.rows[row.number()][i],
            _ => 0,
        }
    }

    pub fn set_entry<R: Names<Row>>(&mut self, row: R, i: usize, x: usize) {
        if let Some(row) = row.named()
            && i < MOST_LINKS
        {
            self.rows[row.number()][i] = x;
        }
    }

    pub fn head(&self, which: Head) -> usize {
        self.entry(Row::Head, which as usize)
    }

    pub fn set_head(&mut self, which: Head, x: usize) {
        self.set_entry(Row::Head, which as usize, x);
    }

    pub fn nodes(&self) -> usize {
        self.head(Head::Nodes)
    }

    pub fn links(&self) -> usize {
        self.head(Head::Links)
    }

    pub fn rounds(&self) -> usize {
        self.head(Head::Rounds)
    }

    // How many places of a row are in use.
    pub fn used(&self, row: Row) -> usize {
        match row {
            Row::Head => 3,
            Row::Low | Row::High | Row::Flag => self.links(),
            _ => self.nodes(),
        }
    }

    // A row of zeros.
    pub fn clear(&mut self, row: Row) {
        self.rows[row.number()] = [0; MOST_LINKS];
    }

    // The ends a and b of link l.
    pub fn ends(&self, l: usize) -> (usize, usize) {
        (self.entry(Row::Low, l), self.entry(Row::High, l))
    }

    // Number i of them all, row after row.
    pub fn number(&self, i: usize) -> usize {
        match Row::ALL.get(i / MOST_LINKS) {
            Some(&row) => self.entry(row, i % MOST_LINKS),
            None => 0,
        }
    }
}
