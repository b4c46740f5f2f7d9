// The clusters of a plan: checks 8 and 9, and how many clusters there are. A cluster is told by its root, so both checks go by the table of
// the roots of all nodes.
#![tactic(auto)]

ghost use Rattle.std.specs.Prelude.{◌≡◌, ◌<◌, min};
ghost use Rattle.links.specs.Breach.{place_in};
ghost use Rattle.links.specs.Links.{links_of};
ghost use Rattle.tree.specs.Climb.{parent_in, root_from, root_number};
ghost use Rattle.clusters.specs.Clusters.{roots_of, root_table, root_at, cluster_at, inside, first_inside, chosen, preferred_between, not_one, first_not_one, cluster_count};

use links::joins;
use network::Network;
use std::array::from_fn;
use tree::root_in;

// The root that the parents of p lead to; 64 where there is none. Of the 64 places most are no nodes in a small plan, and nothing is looked up for these.
#[tactic(auto, using(crate::proofs::Roots::past_nodes))]
fn root_number(parents: &[u8; 64], nodes: usize, p: u8) -> u8
    ensures { result ≡ root_number (root_from (parent_in parents.now) (min nodes 64) (min nodes 64) p) }
{
    if nodes <= p as usize {
        return 64;
    }
    root_in(parents, nodes, p).unwrap_or(64)
}

// The table of the roots of all nodes; 64, which is no node's number, where there is none: a number and no Option, as the definitions `roots_of` and
// `root_at` have it, which checks 8 and 9 stand on. A list of parents and its count, and no network: the layout asks for the roots of parents that
// stand in none yet.
pub fn root_table(parents: &[u8; 64], nodes: usize) -> [u8; 64]
    ensures { result ≡ roots_of parents.now (min nodes 64) }
{
    from_fn(|p| root_number(parents, nodes, p as u8))
}

// The root of a node by the table; 64 for a number that has no entry.
#[tactic(auto, using(laws::proofs::Choice::picks), unfolding(crate::specs::Clusters::root_at))]
pub fn root_at(roots: &[u8; 64], node: u8) -> u8
    ensures { result ≡ root_at roots.now node }
{
    roots.get(node as usize).copied().unwrap_or(64)
}

// A network and the roots of its nodes.
#[derive(Drop)]
struct Clusters<'a> {
    net: &'a Network,
    roots: [u8; 64],
}

impl<'a> Clusters<'a> {
    fn of(net: &'a Network) -> Clusters<'a>
        ensures lent { result.net.now ≡ net.now }
        ensures rooted { result.roots ≡ root_table net.now }
    {
        Clusters {
            net,
            roots: root_table(&net.parents, net.nodes),
        }
    }

    // The cluster of link l's lower end, by its root.
    fn lower(&self, l: usize) -> u8
        requires { l < 128 }
        ensures { result ≡ cluster_at self.now.roots self.now.net.now.lowers l }
    {
        root_at(&self.roots, self.net.lowers[l])
    }

    fn upper(&self, l: usize) -> u8
        requires { l < 128 }
        ensures { result ≡ cluster_at self.now.roots self.now.net.now.uppers l }
    {
        root_at(&self.roots, self.net.uppers[l])
    }

    // Link l is preferred and lies inside a cluster. Here and below the flag is asked first: few links are preferred, and of the others nobody looks up
    // the roots.
    #[tactic(auto, using(laws::proofs::Choice::picks), unfolding(crate::specs::Clusters::inside))]
    fn is_inside(&self, l: usize) -> bool
        requires { l < 128 }
        ensures { result ≡ inside self.now.roots self.now.net.now.lowers self.now.net.now.uppers self.now.net.now.flags l }
    {
        0 < self.net.flags[l] && self.lower(l) == self.upper(l)
    }

    // Link l is preferred and joins the clusters x and y.
    #[tactic(auto, using(laws::proofs::Choice::picks), unfolding(crate::specs::Clusters::chosen))]
    fn is_chosen(&self, l: usize, x: u8, y: u8) -> bool
        requires { l < 128 }
        ensures { result ≡ chosen self.now.roots self.now.net.now.lowers self.now.net.now.uppers self.now.net.now.flags l x y }
    {
        0 < self.net.flags[l] && joins(self.lower(l), self.upper(l), x, y)
    }

    // How many links are preferred and join the clusters x and y.
    fn chosen_between(&self, x: u8, y: u8) -> usize
        ensures { result ≡ preferred_between self.now.roots self.now.net.now.lowers self.now.net.now.uppers self.now.net.now.flags (links_of self.now.net.now) x y }
    {
        (0..self.net.links.min(128))
            .filter(|&l| self.is_chosen(l, x, y))
            .count()
    }

    // The clusters x and y are two, and have none or several.
    #[tactic(auto, using(laws::proofs::Choice::picks), unfolding(crate::specs::Clusters::not_one))]
    fn has_not_one(&self, x: u8, y: u8) -> bool
        ensures { result ≡ not_one self.now.roots self.now.net.now.lowers self.now.net.now.uppers self.now.net.now.flags (links_of self.now.net.now) x y }
    {
        x != y && self.chosen_between(x, y) != 1
    }
}

// 8: the first preferred link inside a cluster.
pub fn first_inside(net: Network) -> Option<usize>
    ensures { result ≡ place_in (links_of net) (first_inside net) }
{
    let clusters = Clusters::of(&net);
    (0..net.links.min(128)).find(|&l| clusters.is_inside(l))
}

// 9: the first link that joins two clusters with none or several preferred.
pub fn first_not_one(net: Network) -> Option<usize>
    ensures { result ≡ place_in (links_of net) (first_not_one net) }
{
    let clusters = Clusters::of(&net);
    (0..net.links.min(128)).find(|&l| clusters.has_not_one(clusters.lower(l), clusters.upper(l)))
}

// "Clusters is the number of roots."
pub fn count(net: Network) -> usize
    ensures { result ≡ cluster_count net }
{
    (0..net.nodes.min(64))
        .filter(|&p| net.parents[p] == p as u8)
        .count()
}
