// What a network says of its nodes. The sets of one kind, one below the other, are a matrix with a
// mark for every ordered pair of nodes, and that is how links and children are looked up.

use crate::rows::{MOST_LINKS, MOST_NODES, Plan, Row};

// A set of nodes: a mark for each. "A number above 63 is in no set, and adding it changes nothing."
#[derive(Clone, Copy, Debug, PartialEq, Eq)]
pub struct Set(usize);

impl Set {
    pub const EMPTY: Set = Set(0);

    pub fn has(self, q: usize) -> bool {
        q < MOST_NODES && (self.0 >> q) % 2 == 1
    }

    pub fn with(self, q: usize) -> Set {
        if q < MOST_NODES {
            Set(self.0 | (1 << q))
        } else {
            self
        }
    }
}

impl From<usize> for Set {
    fn from(marks: usize) -> Set {
        Set(marks)
    }
}

impl From<Set> for usize {
    fn from(set: Set) -> usize {
        set.0
    }
}

impl Plan {
    // Whether the set of p in a row has q: its neighbour, child or preferred neighbour.
    pub fn marked(&self, row: Row, p: usize, q: usize) -> bool {
        Set::from(self.entry(row, p)).has(q)
    }

    // Puts q into the set of p.
    fn mark(&mut self, row: Row, p: usize, q: usize) {
        let set = Set::from(self.entry(row, p)).with(q);
        self.set_entry(row, p, usize::from(set));
    }

    // "A node that names itself as parent is a root"
    pub fn is_root(&self, p: usize) -> bool {
        self.entry(Row::Parent, p) == p
    }

    // How many clusters a network has: one for each root.
    pub fn clusters(&self) -> usize {
        (0..self.nodes().min(MOST_NODES))
            .filter(|&p| self.is_root(p))
            .count()
    }

    // Keeps the sets that the lists give beside them, where no sets were before.
    pub fn enter_sets(&mut self) {
        for l in 0..self.links().min(MOST_LINKS) {
            self.mark_link(l);
        }
        for q in 0..self.nodes().min(MOST_LINKS) {
            self.mark_child(q);
        }
    }

    // Marks the ends of link l in each other's sets: every link makes neighbours, and a preferred one preferred neighbours too.
    fn mark_link(&mut self, l: usize) {
        let (a, b) = self.ends(l);
        self.mark(Row::Neighbours, a, b);
        self.mark(Row::Neighbours, b, a);
        if self.entry(Row::Flag, l) > 0 {
            self.mark(Row::Preferred, a, b);
            self.mark(Row::Preferred, b, a);
        }
    }

    // "A node's children are the other nodes that name it as parent."
    fn mark_child(&mut self, q: usize) {
        let parent = self.entry(Row::Parent, q);
        if parent != q {
            self.mark(Row::Children, parent, q);
        }
    }
}
