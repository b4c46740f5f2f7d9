// Plans that are accepted: a tree of wires over shuffled node numbers, cut into clusters, then more wires, and one preferred link for each
// two joined clusters.
ghost use Rattle.std.specs.Prelude.{◌≡◌, ◌<◌, ◌≤◌, IfSome, ⊤};

// `ByteString` is named by its path: brought in, its `get` would stand before the `get` of an array.
use crate::bytes::{self, Bytes};
use crate::dice::Dice;
use std::alloc::AllocError;
use std::array;

// Room for the bytes of every plan, and for what damage adds.
pub const ROOM: usize = 1024;

pub const MOST_NODES: usize = 64;

// What joins a and b, where a is below b, stands at 64 a + b.
const PAIRS: usize = MOST_NODES * MOST_NODES;

// What a tree of wires looks like: each node hangs on the one before it, on the first, or on any before it.
#[derive(Clone, Copy, Debug, PartialEq, Eq)]
pub enum Shape {
    Chain,
    Star,
    Tree,
}

// How the nodes of the tree are numbered.
#[derive(Clone, Copy, Debug, PartialEq, Eq)]
pub enum Order {
    AsCounted,
    Backwards,
    Shuffled,
}

// What joins two nodes.
#[derive(Clone, Copy, Debug, PartialEq, Eq)]
enum Wire {
    Ordinary,
    Preferred,
}

// What is asked of a plan. One node in `cut` is a root besides the first; none where that is 0.
#[derive(Clone, Copy)]
pub struct Wish {
    pub nodes: usize,
    pub links: usize,
    pub rounds: u16,
    pub shape: Shape,
    pub cut: usize,
    pub order: Order,
    ghost few: { nodes ≤ 64 },
}

// The bytes of a plan, in a room of its own or in any other, and how many nodes it was drawn with.
#[derive(Copy, Drop)]
pub struct Plan<B = Bytes<ROOM>> {
    pub bytes: B,
    pub nodes: usize,
    ghost few: { nodes ≤ 64 },
}

// A plan before it is written down: each node's parent, and what joins each two.
#[derive(Drop)]
struct Sketch {
    parents: [u8; MOST_NODES],
    wires: [Option<Wire>; PAIRS],
}

// Written out, since the derive makes none for a struct that has a ghost field and a parameter.
impl<B: Copy> Clone for Plan<B> {
    ghost is_clone = { λ plan copy. copy ≡ plan };

    ghost is_infallible = { λ _. ⊤ };

    fn clone(&self) -> Result<Plan<B>, AllocError> {
        Ok(*self)
    }
}

impl From<usize> for Shape {
    fn from(number: usize) -> Shape {
        match number {
            0 => Shape::Chain,
            1 => Shape::Star,
            _ => Shape::Tree,
        }
    }
}

impl From<usize> for Order {
    fn from(number: usize) -> Order {
        match number {
            1 => Order::Backwards,
            2 => Order::Shuffled,
            _ => Order::AsCounted,
        }
    }
}

impl Shape {
    // On which node before it the p-th hangs.
    fn above(self, dice: &mut Dice, p: usize) -> usize {
        match self {
            Shape::Chain => p.saturating_sub(1),
            Shape::Tree if p > 0 => dice.below(p),
            Shape::Star | Shape::Tree => 0,
        }
    }
}

impl Order {
    // The numbers of so many nodes.
    fn names(self, dice: &mut Dice, nodes: usize) -> [u8; MOST_NODES]
        requires { nodes ≤ 64 }
    {
        let mut names: [u8; MOST_NODES] = array::from_fn(|p| p as u8);
        match self {
            Order::AsCounted => {}
            Order::Backwards => names[..nodes].reverse(),
            Order::Shuffled => dice.shuffle(&mut names[..nodes]),
        }
        names
    }
}

impl Wish {
    // Any numbers: more than 64 nodes count as 64, and of the rounds the low two bytes count.
    pub fn of<S: Into<Shape>, O: Into<Order>>(
        nodes: usize,
        links: usize,
        rounds: usize,
        shape: S,
        cut: usize,
        order: O,
    ) -> Wish
        ensures { nodes ≤ 64 → result.nodes ≡ nodes }
    {
        Wish {
            nodes: nodes.min(MOST_NODES),
            links,
            rounds: (rounds & 0xffff) as u16,
            shape: shape.into(),
            cut,
            order: order.into(),
        }
    }

    // Most plans are small; some have any size, and some the largest. Half of all are trees; a fifth are numbered backwards, and a fifth
    // shuffled.
    pub fn any(dice: &mut Dice) -> Wish {
        let nodes = match dice.below(10) {
            0 => MOST_NODES,
            1 => dice.below(MOST_NODES) + 1,
            _ => dice.below(10) + 1,
        };
        let links = match dice.below(3) {
            0 => 0,
            1 => 128,
            _ => nodes + dice.below(nodes),
        };
        let rounds = dice.below(3) + 1;
        let shape = dice.below(4);
        let cut = dice.below(6);
        let order = dice.below(5);
        Wish::of(nodes, links, rounds, shape, cut, order)
    }
}

// Where the wire between two nodes stands.
fn pair_of(p: u8, q: u8) -> Option<usize>
    ensures { IfSome result (λ i. i < 4096) }
{
    let (low, high) = (usize::from(p.min(q)), usize::from(p.max(q)));
    if low < high && high < MOST_NODES {
        Some(low * MOST_NODES + high)
    } else {
        None
    }
}

impl Sketch {
    fn new() -> Sketch {
        Sketch {
            parents: [0; MOST_NODES],
            wires: [None; PAIRS],
        }
    }

    // Whether a wire between two nodes is a new one.
    fn join(&mut self, p: u8, q: u8) -> bool {
        let Some(pair) = pair_of(p, q) else {
            return false;
        };
        let is_new = self.wires[pair].is_none();
        if is_new {
            self.wires[pair] = Some(Wire::Ordinary);
        }
        is_new
    }

    // A node hangs on another, and belongs to its cluster or is a root.
    fn hang(&mut self, own: u8, up: u8, is_root: bool) {
        self.join(up, own);
        if let Some(parent) = self.parents.get_mut(usize::from(own)) {
            *parent = if is_root { own } else { up };
        }
    }

    fn hang_all(&mut self, dice: &mut Dice, wish: Wish) {
        let names = wish.order.names(dice, wish.nodes);
        for (p, own) in names.iter().take(wish.nodes).enumerate() {
            let up = names.get(wish.shape.above(dice, p)).copied().unwrap_or(0);
            let is_root = dice.once_in(wish.cut);
            self.hang(*own, up, is_root);
        }
    }

    // More wires between any two nodes, until there are as many as asked for or luck is out.
    fn join_more(&mut self, dice: &mut Dice, wish: Wish) {
        let Some(mut have) = wish.nodes.checked_sub(1) else {
            return;
        };
        for _ in 0..PAIRS {
            if wish.links <= have {
                return;
            }
            let p = dice.below(wish.nodes) as u8;
            let q = dice.below(wish.nodes) as u8;
            have += usize::from(self.join(p, q));
        }
    }

    fn parent(&self, p: u8) -> u8 {
        self.parents.get(usize::from(p)).copied().unwrap_or(0)
    }

    // The root that the parents of p lead to.
    fn root_of(&self, p: usize) -> u8
        requires { p < 64 }
    {
        (0..MOST_NODES).fold(p as u8, |at, _| self.parent(at))
    }

    // "For each two clusters with any link between them, exactly one of these links is preferred": the first from any pair on.
    fn prefer_all(&mut self, dice: &mut Dice) {
        let mut chosen = [false; PAIRS];
        let first = dice.below(PAIRS);
        for i in 0..PAIRS {
            self.prefer(&mut chosen, (first + i) % PAIRS);
        }
    }

    // Prefers the wire of a pair if it joins two clusters that no preferred one joins yet.
    fn prefer(&mut self, chosen: &mut [bool; PAIRS], pair: usize)
        requires { pair < 4096 }
    {
        if self.wires[pair].is_none() {
            return;
        }
        let p = self.root_of(pair / MOST_NODES);
        let q = self.root_of(pair % MOST_NODES);
        if let Some(clusters) = pair_of(p, q)
            && !chosen[clusters]
        {
            chosen[clusters] = true;
            self.wires[pair] = Some(Wire::Preferred);
        }
    }

    fn write_nodes<B: bytes::ByteString>(&self, dice: &mut Dice, plan: &mut Plan<B>) {
        for p in 0..plan.nodes as u8 {
            let [high, low] = start_value(dice).to_be_bytes();
            plan.bytes.extend(&[2, p, self.parent(p), high, low]);
        }
    }

    fn write_links<B: bytes::ByteString>(&self, plan: &mut Plan<B>) {
        for (pair, wire) in self.wires.iter().enumerate() {
            if let Some(sort) = wire {
                let a = (pair / MOST_NODES) as u8;
                let b = (pair % MOST_NODES) as u8;
                plan.bytes
                    .extend(&[3, a, b, u8::from(*sort == Wire::Preferred)]);
            }
        }
    }
}

// A start value: any, the least or the most.
fn start_value(dice: &mut Dice) -> u16 {
    match dice.below(8) {
        0 => 0,
        1 => u16::MAX,
        _ => dice.word(),
    }
}

impl Plan {
    // A plan as asked for, in a room of its own.
    pub fn drawn(dice: &mut Dice, wish: Wish) -> Plan {
        Plan::drawn_in(dice, wish, Bytes::new())
    }
}

impl<B: bytes::ByteString> Plan<B> {
    // The plan of these bytes and so many nodes; more than 64 count as 64.
    pub fn of(bytes: B, nodes: usize) -> Plan<B>
        ensures { nodes ≤ 64 → result.nodes ≡ nodes }
    {
        let nodes = nodes.min(MOST_NODES);
        Plan { bytes, nodes }
    }

    // A plan as asked for, in this string, in place of what was there.
    pub fn drawn_in(dice: &mut Dice, wish: Wish, bytes: B) -> Plan<B> {
        let mut sketch = Sketch::new();
        sketch.hang_all(dice, wish);
        sketch.join_more(dice, wish);
        sketch.prefer_all(dice);
        let mut plan = Plan::of(bytes, wish.nodes);
        plan.bytes.truncate(0);
        let [high, low] = wish.rounds.to_be_bytes();
        plan.bytes.extend(&[1, high, low]);
        sketch.write_nodes(dice, &mut plan);
        sketch.write_links(&mut plan);
        plan.bytes.push(0);
        plan
    }
}
