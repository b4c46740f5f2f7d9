// What an action looks up in the network: which direction a message from p to q takes, p's parent, and p's sets. The table of directions is
// filled once from the list of links.
ghost use Rattle.std.specs.Prelude.{◌≡◌, true, ◌↔◌, ◌<◌, ◌≤◌, IsTrue, get_or};
ghost use Rattle.nodeset.specs.Marks.{member};
ghost use Rattle.network.specs.Valid.{valid_network};
ghost use Rattle.actions.specs.Table.{knows_by, may_go_by};
ghost use Rattle.synchronizer.specs.Wires.{Wires as Tables, Below64, wires, wires_of, joined, lanes_of, lane_in, is_root};

use actions::{Counter, knows, may_go};
use network::Network;
use nodeset::NodeSet;
use std::marker::Model;

// The network's own tables, and beside them the direction from p to q at 64 p + q. Every parent of a node in use has a place in the tables. Copied and
// not lent: each contract below would reach them through the network, and is about the tables.
#[derive(Drop)]
pub(crate) struct Wires {
    nodes: usize,
    rounds: u16,
    parents: [u8; 64],
    lanes: [u8; 4096],
    neighbours: [u64; 64],
    children: [u64; 64],
    preferred: [u64; 64],
}

impl Model for Wires {
    ghost Value = { Tables };

    ghost view = { λ w. wires w.nodes w.rounds w.parents w.lanes w.neighbours w.children w.preferred };

    ghost invariant = { λ w. (w.nodes ≤ 64) × Below64 w.parents w.nodes };
}

// Link l from a to b: direction 2 l, and 2 l + 1 back. A node has six digits, so that `|` puts one behind the other.
fn join(lanes: &mut [u8; 4096], a: u8, b: u8, l: u8)
    requires { (a < 64) × (b < 64) × (l < 128) }
    ensures { lanes.new ≡ joined lanes.old a b l }
{
    let low = a as usize;
    let high = b as usize;
    lanes[(low * 64) | high] = l * 2;
    lanes[(high * 64) | low] = l * 2 + 1;
}

// Lists and their count, as the definition has them.
fn lanes_of(lowers: &[u8; 128], uppers: &[u8; 128], links: usize) -> [u8; 4096]
    requires { (links ≤ 128) × Below64 lowers.now links × Below64 uppers.now links }
    ensures { result ≡ lanes_of lowers.now uppers.now links }
{
    let mut lanes = [0u8; 4096];
    for l in 0..links {
        join(&mut lanes, lowers[l], uppers[l], l as u8);
    }
    lanes
}

// A node is a plain number, and `p < 64` stands in each contract: with a type of its own each clause, as `get_or self.now.parents p 0`, would say
// `p.number`, and each member of a set would have to become one.
impl Wires {
    // Of a network within its ranges.
    pub(crate) fn of(net: &Network) -> Wires
        requires { valid_network net.now ≡ true }
        ensures { result ≡ wires_of net.now }
    {
        let lanes = lanes_of(&net.lowers, &net.uppers, net.links);
        Wires {
            nodes: net.nodes,
            rounds: net.rounds,
            parents: net.parents,
            lanes,
            neighbours: net.neighbours,
            children: net.children,
            preferred: net.preferred,
        }
    }

    // A node in use: it has a place in the tables, and so does its parent.
    pub(crate) fn has(&self, p: u8) -> bool
        ensures used { IsTrue result ↔ p < self.now.nodes }
        ensures place { self.now.nodes ≤ 64 }
    {
        (p as usize) < self.nodes
    }

    pub(crate) fn rounds(&self) -> u16
        ensures { result ≡ self.now.rounds }
    {
        self.rounds
    }

    pub(crate) fn lane(&self, p: u8, q: u8) -> u8
        requires { (p < 64) × (q < 64) }
        ensures { result ≡ lane_in self.now.lanes p q }
    {
        self.lanes[(p as usize) * 64 + q as usize]
    }

    pub(crate) fn neighbours(&self, p: u8) -> NodeSet
        requires { p < 64 }
        ensures { result.marks ≡ get_or self.now.neighbours p 0 }
    {
        NodeSet {
            marks: self.neighbours[p as usize],
        }
    }

    pub(crate) fn children(&self, p: u8) -> NodeSet
        requires { p < 64 }
        ensures { result.marks ≡ get_or self.now.children p 0 }
    {
        NodeSet {
            marks: self.children[p as usize],
        }
    }

    pub(crate) fn preferred(&self, p: u8) -> NodeSet
        requires { p < 64 }
        ensures { result.marks ≡ get_or self.now.preferred p 0 }
    {
        NodeSet {
            marks: self.preferred[p as usize],
        }
    }

    // "A link" joins p and q.
    pub(crate) fn near(&self, p: u8, q: u8) -> bool
        requires { p < 64 }
        ensures { result ≡ member (get_or self.now.neighbours p 0) q }
    {
        self.neighbours(p).contains(q as usize)
    }

    // And it is preferred.
    pub(crate) fn prefers(&self, p: u8, q: u8) -> bool
        requires { p < 64 }
        ensures { result ≡ member (get_or self.now.preferred p 0) q }
    {
        self.preferred(p).contains(q as usize)
    }

    // "A node that names itself as parent is a root."
    #[tactic(auto, unfolding(crate::specs::Wires::is_root))]
    pub(crate) fn is_root(&self, p: u8) -> bool
        requires { p < 64 }
        ensures { result ≡ is_root self.now.parents p }
    {
        self.parents[p as usize] == p
    }

    fn parent(&self, p: u8) -> u8
        requires { p < self.now.nodes }
        ensures is { result ≡ get_or self.now.parents p 0 }
        ensures place { result < 64 }
    {
        self.parents[p as usize]
    }

    // The count that says that p knows.
    pub(crate) fn knows(&self, p: u8) -> Counter
        requires { p < 64 }
        ensures { result ≡ knows_by (is_root self.now.parents p) p }
    {
        knows(self.is_root(p), p)
    }

    // The count that says that p may go.
    pub(crate) fn may_go(&self, p: u8) -> Counter
        requires { p < 64 }
        ensures { result ≡ may_go_by (is_root self.now.parents p) p }
    {
        may_go(self.is_root(p), p)
    }

    pub(crate) fn parent_knows(&self, p: u8) -> Counter
        requires { p < self.now.nodes }
        ensures { result ≡ knows_by (is_root self.now.parents (get_or self.now.parents p 0)) (get_or self.now.parents p 0) }
    {
        self.knows(self.parent(p))
    }

    pub(crate) fn parent_may_go(&self, p: u8) -> Counter
        requires { p < self.now.nodes }
        ensures { result ≡ may_go_by (is_root self.now.parents (get_or self.now.parents p 0)) (get_or self.now.parents p 0) }
    {
        self.may_go(self.parent(p))
    }
}
