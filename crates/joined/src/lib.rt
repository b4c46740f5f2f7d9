// Whether all nodes are joined through links: check 10 of a plan. The walk starts at node 0 and keeps two sets, the nodes reached and the nodes
// still to visit, lowest number first; it assumes nothing of the checks before it.
#![tactic(auto)]

ghost use Rattle.std.specs.Prelude.{◌≡◌};
ghost use Rattle.nodeset.specs.Marks.{lowest_of};
ghost use Rattle.links.specs.Breach.{place_in};
ghost use Rattle.links.specs.Links.{nodes_of, links_of};
ghost use Rattle.joined.specs.Joined.{joined_marks, first_unjoined};
ghost use Rattle.joined.specs.Walk.{met_of, crossed_of, visited_of, taken_of};

use network::Network;
use nodeset::NodeSet;

// The nodes reached so far, and those of them that are still to visit.
#[derive(Clone, Copy)]
struct Walk {
    reached: NodeSet,
    todo: NodeSet,
}

impl Walk {
    // q is met: a node that was not reached yet is marked in both sets.
    #[tactic(auto, using(laws::proofs::Choice::picks), unfolding(crate::specs::Walk::met_of))]
    fn meet(self, nodes: usize, q: u8) -> Walk
        ensures { result ≡ met_of nodes q self }
    {
        let at = q as usize;
        if nodes <= at || self.reached.contains(at) {
            return self;
        }
        Walk {
            reached: self.reached.insert(at),
            todo: self.todo.insert(at),
        }
    }

    // The other end of a link (a, b) of p is met.
    #[tactic(auto, using(laws::proofs::Choice::picks), unfolding(crate::specs::Walk::crossed_of))]
    fn cross(self, nodes: usize, p: u8, a: u8, b: u8) -> Walk
        ensures { result ≡ crossed_of nodes p a b self }
    {
        if a == p {
            self.meet(nodes, b)
        } else if b == p {
            self.meet(nodes, a)
        } else {
            self
        }
    }

    // The other end of every link of p is met.
    fn visit(self, net: &Network, p: u8) -> Walk
        ensures { result ≡ visited_of net.now.lowers net.now.uppers (links_of net.now) (nodes_of net.now) p self }
    {
        let nodes = net.nodes.min(64);
        (0..net.links.min(128)).fold(self, |walk, l| {
            walk.cross(nodes, p, net.lowers[l], net.uppers[l])
        })
    }

    // The next to visit: "lowest number first".
    fn next(self) -> u32
        ensures { result ≡ lowest_of self.todo.marks }
    {
        self.todo.lowest()
    }

    // p is no longer to visit.
    fn taken(self, p: u8) -> Walk
        ensures { result ≡ taken_of p self }
    {
        Walk {
            todo: self.todo.remove(p as usize),
            ..self
        }
    }
}

// The nodes that are joined to node 0. A `while`, since each turn changes the set that the next one takes its node from.
fn joined_nodes(net: &Network) -> NodeSet
    ensures { result.marks ≡ joined_marks net.now.lowers net.now.uppers (links_of net.now) (nodes_of net.now) }
{
    let first = NodeSet::EMPTY.insert(0);
    let mut walk = Walk {
        reached: first,
        todo: first,
    };
    while 0 < walk.todo.marks {
        let p = walk.next() as u8;
        walk = walk.taken(p).visit(net, p);
    }
    walk.reached
}

// 10: the lowest node that is not joined to node 0 through links.
pub fn first_unjoined(net: Network) -> Option<usize>
    ensures { result ≡ place_in (nodes_of net) (first_unjoined net) }
{
    let joined = joined_nodes(&net);
    (0..net.nodes.min(64)).find(|&p| !joined.contains(p))
}
