// The tree of parents: checks 6 and 7 of a plan, and the root that a node's parents lead to.
#![tactic(auto)]

ghost use Rattle.std.specs.Prelude.{◌≡◌, length, min};
ghost use Rattle.links.specs.Breach.{place_in};
ghost use Rattle.links.specs.Links.{nodes_of, links_of};
ghost use Rattle.tree.specs.Climb.{parent_in, root_from};
ghost use Rattle.tree.specs.Checks.{untied, first_untied, first_lost};

use links::has_link;
use network::Network;

// "recursion up the parents with steps left falling from the node count, answering the root or none" (document 01). The test for the
// root stands before the test for no steps left.
fn follow(parents: &[u8], p: u8, left: usize) -> Option<u8>
    ensures { result ≡ root_from (parent_in parents.now) (length parents.now) left p }
{
    let parent = *parents.get(p as usize)?;
    if parent == p {
        return Some(p);
    }
    follow(parents, parent, left.checked_sub(1)?)
}

// The root that the parents of p lead to. The list may claim any number of nodes, of which 64 are there to read; a list and its count, since
// `root_table` has parents that stand in no network.
pub fn root_in(parents: &[u8; 64], nodes: usize, p: u8) -> Option<u8>
    ensures { result ≡ root_from (parent_in parents.now) (min nodes 64) (min nodes 64) p }
{
    let used = &parents[..nodes.min(64)];
    follow(used, p, used.len())
}

// 7: the lowest node whose parents never reach a root.
pub fn first_lost(net: Network) -> Option<usize>
    ensures { result ≡ place_in (nodes_of net) (first_lost net) }
{
    (0..net.nodes.min(64)).find(|&p| root_in(&net.parents, net.nodes, p as u8).is_none())
}

// The node p is no root, and its parent is no node or has no link to it.
#[tactic(auto, using(laws::proofs::Choice::picks), unfolding(crate::specs::Checks::untied))]
fn is_untied(net: &Network, p: u8, parent: u8) -> bool
    ensures { result ≡ untied net.now.lowers net.now.uppers (links_of net.now) (nodes_of net.now) p parent }
{
    parent != p && (net.nodes.min(64) <= parent as usize || !has_link(net, p, parent))
}

// 6: the lowest node that is no root and whose parent is not below the node count or has no link to it.
pub fn first_untied(net: Network) -> Option<usize>
    ensures { result ≡ place_in (nodes_of net) (first_untied net) }
{
    (0..net.nodes.min(64)).find(|&p| is_untied(&net, p as u8, net.parents[p]))
}
