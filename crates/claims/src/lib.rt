// Who claims whom when the clusters are laid out from the links: "take the lowest unclaimed node as a root, claim unclaimed nodes breadth first
// down to that depth (who was claimed earlier claims first, each its lowest neighbours first), and repeat." (document 02, W4)
#![tactic(auto)]

ghost use Rattle.std.specs.Prelude.{◌≡◌, ◌<◌, ◌≤◌, min, true};
ghost use Rattle.nodeset.specs.Marks.{member};
ghost use Rattle.claims.specs.Claiming.{put, all_nodes, nobody, rooted, claims_all, step, parents_of};
ghost use Rattle.claims.specs.Sound.{nodes_of};

use nodeset::NodeSet;
use std::marker::Model;

// The claims so far, in lists as the definitions have them, and in fixed memory.
#[derive(Drop)]
struct Claiming {
    // how many nodes are claimed, and who is not
    count: usize,
    unclaimed: NodeSet,
    // the nodes in the order in which they are claimed: the queue of those who claim
    order: [u8; 64],
    // for each claimed node who claimed it, itself where it is a root, and how deep it lies below its root
    by: [u8; 64],
    deep: [u8; 64],
}

// Proofs see the claims as the record of these fields, and know that they are sound, so that no index is out of range.
impl Model for Claiming {
    ghost use Rattle.claims.specs.Claiming.{Claiming};

    ghost Value = { Claiming };

    ghost use Rattle.claims.specs.Sound.{seen, Sound};

    ghost view = { seen };

    ghost invariant = { λ s. Sound (seen s) };
}

fn all_nodes(nodes: usize) -> NodeSet
    ensures { result.marks ≡ all_nodes nodes }
{
    (0..nodes).fold(NodeSet::EMPTY, NodeSet::insert)
}

impl Claiming {
    // None of these nodes is claimed.
    fn nobody(nodes: usize) -> Claiming
        requires { nodes ≤ 64 }
        ensures { result ≡ nobody nodes }
    {
        Claiming {
            count: 0,
            unclaimed: all_nodes(nodes),
            order: [0; 64],
            by: [0; 64],
            deep: [0; 64],
        }
    }

    // x claims a node that nobody has claimed, which then lies `deep` deep.
    fn put(&mut self, x: u8, node: u8, deep: u8)
        requires { member self.old.unclaimed.marks node ≡ true }
        ensures { self.new ≡ put x node deep self.old }
    {
        let at = node as usize;
        self.order[self.count] = node;
        self.by[at] = x;
        self.deep[at] = deep;
        self.count += 1;
        self.unclaimed = self.unclaimed.remove(at);
    }

    // "take the lowest unclaimed node as a root", where no i-th node is claimed yet.
    fn take_root(&mut self, i: usize)
        requires { i < nodes_of self.old }
        ensures rooted { self.new ≡ rooted i self.old }
        ensures few { nodes_of self.old ≤ 64 }
    {
        if self.count <= i {
            let root = self.unclaimed.lowest() as u8;
            self.put(root, root, 0);
        }
    }

    // x claims those of its neighbours that are unclaimed, "its lowest neighbours first".
    fn claim_each(&mut self, neighbours: u64, x: u8, deep: u8)
        ensures { self.new ≡ claims_all neighbours x deep self.old }
    {
        let left = NodeSet {
            marks: neighbours & self.unclaimed.marks,
        };
        for node in left.members() {
            self.put(x, node as u8, deep);
        }
    }

    // Where nobody is in turn a root is taken; then the i-th claimed node claims "down to that depth".
    fn step(&mut self, sets: &[u64; 64], depth: u8, i: usize)
        requires { i < nodes_of self.old }
        ensures { self.new ≡ step sets.now depth i self.old }
    {
        self.take_root(i);
        let x = self.order[i];
        let deep = self.deep[x as usize];
        if deep < depth {
            self.claim_each(sets[x as usize], x, deep + 1);
        }
    }
}

// For each node of a network with these neighbour sets the node that claims it, itself where it is a root; 0 in the places past the nodes. The sets and
// their count, as `parents_of` has them.
pub fn parents(sets: &[u64; 64], nodes: usize, depth: u8) -> [u8; 64]
    ensures { result ≡ parents_of sets.now (min nodes 64) depth }
{
    let count = nodes.min(64);
    let mut claims = Claiming::nobody(count);
    for i in 0..count {
        claims.step(sets, depth, i);
    }
    claims.by
}
