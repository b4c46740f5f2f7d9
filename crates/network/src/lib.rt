// The network by value: nodes with parents and start values, links with flags, and the sets that they give each node. And the network
// half of answer 17, over any value of the struct.
#![tactic(auto)]

ghost use Rattle.std.specs.Prelude.{◌≡◌, ◌≤◌, min, ltb, eqb, get_or, length};
ghost use Rattle.laws.specs.Choice.{both};
ghost use Rattle.laws.specs.Below.{all_below, list_below};
ghost use Rattle.network.specs.Sets.{added, linked, adopted, neighbours_of, preferred_of, children_of, with_sets};
ghost use Rattle.network.specs.Zeros.{zero_network};
ghost use Rattle.network.specs.Valid.{within_limits, node_fits, rises, link_fits, link_stands, agrees, valid_network};

use nodeset::NodeSet;

// Arrays with counts beside them, and flags as numbers: what the theorems of specs/ (`Clauses`, `link_set`) say of a network they say of these lists of
// numbers, and nothing here is on a heap.
#[derive(Clone, Copy)]
pub struct Network {
    pub nodes: usize,
    pub links: usize,
    pub rounds: u16,
    // for each node its parent, itself where it is a root, and its start value
    pub parents: [u8; 64],
    pub starts: [u16; 64],
    // for each link its ends a < b, and its flag: 0 ordinary, 1 preferred
    pub lowers: [u8; 128],
    pub uppers: [u8; 128],
    pub flags: [u8; 128],
    // for each node the sets that the lists give: marks of a NodeSet
    pub neighbours: [u64; 64],
    pub children: [u64; 64],
    pub preferred: [u64; 64],
}

// "a network of zeros", for what is refused
#[tactic(auto, unfolding(crate::specs::Zeros::zero_network))]
pub fn zeros() -> Network
    ensures { result ≡ zero_network }
{
    Network {
        nodes: 0,
        links: 0,
        rounds: 0,
        parents: [0; 64],
        starts: [0; 64],
        lowers: [0; 128],
        uppers: [0; 128],
        flags: [0; 128],
        neighbours: [0; 64],
        children: [0; 64],
        preferred: [0; 64],
    }
}

// q as one more member of p's set
fn add(sets: &mut [u64; 64], p: u8, q: u8)
    ensures { sets.new ≡ added sets.old p q }
{
    let at = usize::from(p);
    if at < 64 {
        sets[at] = NodeSet { marks: sets[at] }.insert(usize::from(q)).marks;
    }
}

// one link in both tables: each end among the other's neighbours and, where the flag says so, among its preferred neighbours. Above 63 no
// node has a set, and none takes it in: the ends are looked at once, for all four. The ends and the flag by themselves, as `linked` has them.
fn link(neighbours: &mut [u64; 64], preferred: &mut [u64; 64], a: u8, b: u8, flag: u8)
    ensures { (neighbours.new ≡ linked neighbours.old a b flag 0) × (preferred.new ≡ linked preferred.old a b flag 1) }
{
    if a < 64 && b < 64 {
        add(neighbours, a, b);
        add(neighbours, b, a);
        if 0 < flag {
            add(preferred, a, b);
            add(preferred, b, a);
        }
    }
}

// q as a child of p, unless q is p: a root is not its own child
fn adopt(sets: &mut [u64; 64], p: u8, q: u8)
    ensures { sets.new ≡ adopted sets.old p q }
{
    if p != q {
        add(sets, p, q);
    }
}

// "links in strictly rising order of (a, b)"
pub fn pair_rises(a: u8, b: u8, c: u8, d: u8) -> bool
    ensures { result ≡ rises a b c d }
{
    (a, b) < (c, d)
}

fn link_fits(nodes: u8, a: u8, b: u8, flag: u8) -> bool
    ensures { result ≡ link_fits nodes a b flag }
{
    a < b && b < nodes && flag < 2
}

// What is wrong of the parents of the nodes in use: 0 where each fits. The loops over the lists gather their faults into one number and never stop, so
// that they go many entries at a time; and the entries in use and those past them are gone through apart, so that no entry is asked on which side of
// the count it is.
fn parent_faults(nodes: u8, parents: &[u8]) -> u16
    ensures { eqb result 0 ≡ all_below (λ p. ltb (get_or parents.now p 0) nodes) (length parents.now) }
{
    parents
        .iter()
        .fold(0, |faults, parent| faults | u16::from(nodes <= *parent))
}

// Gathered, too: `==` stops at the first difference, and takes three times the instructions where there is none.
fn agree(kept: &[u64; 64], given: &[u64; 64]) -> bool
    ensures { result ≡ agrees kept.now (λ p. get_or given.now p 0) }
{
    let faults = kept
        .iter()
        .zip(given)
        .fold(0, |faults, (kept, given)| faults | (*kept ^ *given));
    faults == 0
}

impl Network {
    // The network with the sets that its lists give.
    pub fn with_sets(self) -> Network
        ensures { result ≡ with_sets self }
    {
        let (neighbours, preferred) = self.link_sets();
        Network {
            neighbours,
            children: self.child_sets(),
            preferred,
            ..self
        }
    }

    // Within the ranges of answer 17.
    pub fn valid(self) -> bool
        ensures { result ≡ valid_network self }
    {
        self.within_limits() && self.nodes_fit() && self.links_stand() && self.sets_agree()
    }

    // both tables of sets over the list of links, in one pass
    fn link_sets(&self) -> ([u64; 64], [u64; 64])
        ensures { (result.0 ≡ list_below (neighbours_of self.now) 64) × (result.1 ≡ list_below (preferred_of self.now) 64) }
    {
        let mut neighbours = [0; 64];
        let mut preferred = [0; 64];
        for l in 0..self.links.min(128) {
            link(
                &mut neighbours,
                &mut preferred,
                self.lowers[l],
                self.uppers[l],
                self.flags[l],
            );
        }
        (neighbours, preferred)
    }

    fn child_sets(&self) -> [u64; 64]
        ensures { result ≡ list_below (children_of self.now) 64 }
    {
        let mut sets = [0; 64];
        for (q, parent) in self.parents[..self.nodes.min(64)].iter().enumerate() {
            adopt(&mut sets, *parent, q as u8);
        }
        sets
    }

    fn within_limits(&self) -> bool
        ensures { result ≡ within_limits self.now.nodes self.now.links self.now.rounds }
    {
        (1..=64).contains(&self.nodes) && self.links <= 128 && (1..=10000).contains(&self.rounds)
    }

    // The parents of the nodes in use fit, and past them no node has an entry. The limits are no invariant of the struct, since `valid` is asked of any
    // value of it: what stands behind `within_limits` asks for them.
    fn nodes_fit(&self) -> bool
        requires { self.now.nodes ≤ 64 }
        ensures { result ≡ all_below (λ p. node_fits self.now.nodes p (get_or self.now.parents p 0) (get_or self.now.starts p 0)) 64 }
    {
        let mut faults = parent_faults(self.nodes as u8, &self.parents[..self.nodes]);
        for p in self.nodes..64 {
            faults |= u16::from(self.parents[p]) | self.starts[p];
        }
        faults == 0
    }

    // What is wrong of the links in use. Every link that fits rises above (0, 0), so the first needs no rule of its own.
    fn link_faults(&self) -> u8
        requires { (self.now.nodes ≤ 64) × (self.now.links ≤ 128) }
        ensures { eqb result 0 ≡ all_below (link_stands self.now.nodes self.now.links self.now.lowers self.now.uppers self.now.flags) self.now.links }
    {
        let nodes = self.nodes as u8;
        let mut faults = 0;
        let mut a = 0;
        let mut b = 0;
        for l in 0..self.links {
            let c = self.lowers[l];
            let d = self.uppers[l];
            let stands = link_fits(nodes, c, d, self.flags[l]) && pair_rises(a, b, c, d);
            faults |= u8::from(!stands);
            a = c;
            b = d;
        }
        faults
    }

    // The links in use stand, and past them nothing does.
    fn links_stand(&self) -> bool
        requires { (self.now.nodes ≤ 64) × (self.now.links ≤ 128) }
        ensures { result ≡ all_below (link_stands self.now.nodes self.now.links self.now.lowers self.now.uppers self.now.flags) 128 }
    {
        let mut faults = self.link_faults();
        for l in self.links..128 {
            faults |= self.lowers[l] | (self.uppers[l] | self.flags[l]);
        }
        faults == 0
    }

    // The sets kept are those that the lists give.
    fn sets_agree(&self) -> bool
        ensures { result ≡ both (agrees self.now.neighbours (neighbours_of self.now)) (both (agrees self.now.children (children_of self.now)) (agrees self.now.preferred (preferred_of self.now))) }
    {
        let (neighbours, preferred) = self.link_sets();
        agree(&self.neighbours, &neighbours)
            && agree(&self.children, &self.child_sets())
            && agree(&self.preferred, &preferred)
    }
}
