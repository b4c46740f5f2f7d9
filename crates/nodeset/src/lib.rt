// A set of node numbers: "64 yes-or-no marks, and its size is a count of them. An empty set, a set with one more node, and
// membership are the set's own facts. A number above 63 is in no set, and adding it changes nothing." (document 01)
#![tactic(auto)]

ghost use Rattle.std.specs.Prelude.{◌≡◌, ℕ, ◌<◌, ◌^◌};
ghost use Rattle.std.specs.Iterator.{at_most};
ghost use Rattle.nodeset.specs.Marks.{member, inserted, removed, size_of, lowest_of};
ghost use Rattle.nodeset.specs.Walks.{takes_lowest};

use std::marker::Model;

#[derive(Clone, Copy, Debug, PartialEq, Eq)]
pub struct NodeSet {
    // public, and the set goes by value: one `u64`, as docs/DECISIONS.md has it
    pub marks: u64,
}

impl NodeSet {
    pub const EMPTY: NodeSet = NodeSet { marks: 0 };

    pub fn contains(self, node: usize) -> bool
        ensures { result ≡ member self.marks node }
    {
        node < 64 && (self.marks >> node) % 2 == 1
    }

    // The set with one more node.
    pub fn insert(self, node: usize) -> NodeSet
        ensures { result.marks ≡ inserted self.marks node }
    {
        if 64 <= node {
            return self;
        }
        NodeSet {
            marks: self.marks | (1 << node),
        }
    }

    // The set without this node.
    pub fn remove(self, node: usize) -> NodeSet
        ensures { result.marks ≡ removed self.marks node }
    {
        if !self.contains(node) {
            return self;
        }
        NodeSet {
            marks: self.marks - (1 << node),
        }
    }

    pub fn size(self) -> u32
        ensures { result ≡ size_of self.marks }
    {
        self.marks.count_ones()
    }

    // The lowest member, and 64 where there is none: a number and no Option, as its clause has `lowest_of`.
    pub fn lowest(self) -> u32
        ensures { result ≡ lowest_of self.marks }
    {
        self.marks.trailing_zeros()
    }

    // The set without its lowest member: one mask, and no look at the member.
    pub fn without_lowest(self) -> NodeSet
        ensures { result.marks ≡ removed self.marks (lowest_of self.marks) }
    {
        NodeSet {
            marks: self.marks & self.marks.wrapping_sub(1),
        }
    }

    // The members one by one, the lowest first.
    pub fn members(self) -> Walk
        ensures { result ≡ self.marks }
    {
        Walk { left: self }
    }
}

// A walk over the members of a set, the lowest first. Proofs see it as the marks of those that are left.
#[derive(Drop)]
pub struct Walk {
    left: NodeSet,
}

impl Model for Walk {
    ghost Value = { ℕ };

    ghost view = { λ walk. walk.left.marks };

    ghost invariant = { λ walk. walk.left.marks < 2 ^ 64 };
}

impl Iterator for Walk {
    type Item = usize;

    ghost next_gives = { takes_lowest };

    ghost remaining = { λ left. at_most (size_of left) };

    fn next(&mut self) -> Option<usize> {
        if self.left == NodeSet::EMPTY {
            return None;
        }
        let lowest = self.left.lowest() as usize;
        self.left = self.left.without_lowest();
        Some(lowest)
    }
}
