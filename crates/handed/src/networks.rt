// Networks with one entry changed, and networks that no plan gives.
use crate::{at_least, none_or_above};
use compare::networks::{network_of, plan_of};
use compare::tally::Clause;
use draws::dice::Dice;
use network::Network;
use second_plan::rows::{Head, MOST_LINKS, MOST_NODES, Plan, Row};

// A way to spoil a network.
#[derive(Clone, Copy, Debug, PartialEq, Eq)]
enum Way {
    Head(Head),
    Mark(Row),
    EqualEnds,
    FallingLink,
    Flag,
    End,
    Parent,
    Past,
}

impl Way {
    // In their turn; what stands past the counts comes up twice.
    const ALL: [Way; 13] = [
        Way::Head(Head::Nodes),
        Way::Head(Head::Links),
        Way::Head(Head::Rounds),
        Way::Mark(Row::Neighbours),
        Way::Mark(Row::Children),
        Way::Mark(Row::Preferred),
        Way::EqualEnds,
        Way::FallingLink,
        Way::Flag,
        Way::End,
        Way::Parent,
        Way::Past,
        Way::Past,
    ];

    // One entry of a network changed; the clause that it breaks.
    fn spoil(self, plan: &mut Plan, dice: &mut Dice) -> Clause {
        let (nodes, links) = (plan.nodes(), plan.links());
        let p = dice.below(nodes);
        let l = dice.below(links);
        let no_node = at_least(dice, nodes, 256);
        match self {
            Way::Head(which) => spoil_head(plan, dice, which),
            Way::Mark(row) => turn_mark(plan, dice, row, p),
            Way::EqualEnds => close_link(plan, l),
            Way::FallingLink => lower_link(plan, at_least(dice, 1, links)),
            Way::Flag => spoil_end(plan, Row::Flag, l, dice.below(254) + 2),
            Way::End => spoil_end(plan, Row::High, l, no_node),
            Way::Parent => spoil_end(plan, Row::Parent, p, no_node),
            Way::Past => fill_past(plan, dice),
        }
    }
}

// The first ways of them all change no list.
const OF_NO_LIST: usize = 6;

// "nodes, links or rounds are outside their limits"
fn spoil_head(plan: &mut Plan, dice: &mut Dice, which: Head) -> Clause {
    let x = match which {
        Head::Nodes => none_or_above(dice, 64, 256),
        Head::Links => at_least(dice, 129, 512),
        Head::Rounds => none_or_above(dice, 10000, 65536),
    };
    plan.set_head(which, x);
    Clause::Limits
}

// A mark of a set turned: "a neighbour or child set, or any other derived fact, .. differs from what the list gives".
fn turn_mark(plan: &mut Plan, dice: &mut Dice, row: Row, p: usize) -> Clause {
    let set = plan.entry(row, p) ^ (1 << dice.below(64));
    plan.set_entry(row, p, set);
    Clause::Derived
}

// "a link has a not below b"
fn close_link(plan: &mut Plan, l: usize) -> Clause {
    let (_, b) = plan.ends(l);
    plan.set_entry(Row::Low, l, b);
    Clause::Rising
}

// "links do not rise strictly": link l, which is not the first, falls below the one before it or becomes (0, 1).
fn lower_link(plan: &mut Plan, l: usize) -> Clause {
    let (before, _) = plan.ends(l.saturating_sub(1));
    if before > 0 {
        plan.set_entry(Row::Low, l, before - 1);
    } else {
        plan.set_entry(Row::High, l, 1);
    }
    Clause::Rising
}

// A flag above 1, or a node that is not there: "a parent, end or flag is out of range".
fn spoil_end(plan: &mut Plan, row: Row, i: usize, to: usize) -> Clause {
    plan.set_entry(row, i, to);
    Clause::Ends
}

// "an entry past the node or link count .. is not 0"
fn fill_past(plan: &mut Plan, dice: &mut Dice) -> Clause {
    let row = Row::ALL[dice.below(8) + 1];
    let i = match row {
        Row::Low | Row::High | Row::Flag => at_least(dice, plan.links(), 128),
        _ => at_least(dice, plan.nodes(), 64),
    };
    plan.set_entry(row, i, dice.below(255) + 1);
    Clause::Past
}

// One entry of a network changed in one of so many ways, past the last of which all change what stands past the counts; the clause that it
// breaks. A list is changed only where there are two links.
pub fn spoil_network(plan: &mut Plan, dice: &mut Dice, way: usize) -> Clause {
    let wanted = if plan.links() < 2 {
        way % OF_NO_LIST
    } else {
        way
    };
    let way = Way::ALL.get(wanted).copied().unwrap_or(Way::Past);
    way.spoil(plan, dice)
}

// The network of a plan that was spoilt in that way. Of a changed list the sets are made again half the time, so that nothing but the list is
// wrong.
pub fn network_from(plan: &Plan, dice: &mut Dice, way: usize) -> Network {
    let spoilt = network_of(plan);
    if way >= OF_NO_LIST && dice.once_in(2) {
        spoilt.with_sets()
    } else {
        spoilt
    }
}

// A network with one entry changed, each way in its turn, and the clause that applies.
pub fn spoilt_network(dice: &mut Dice, net: &Network, turn: usize) -> (Network, Clause) {
    let way = turn % Way::ALL.len();
    let mut plan = plan_of(net);
    let clause = spoil_network(&mut plan, dice, way);
    (network_from(&plan, dice, way), clause)
}

// A network that 17 lets pass, though its parents may run in rings and its preferred links join what they like.
pub fn loose_network(dice: &mut Dice, net: &Network) -> Network {
    let mut loose = *net;
    let nodes = net.nodes.min(MOST_NODES);
    // One loop for both lists, so that the draws keep their order.
    for i in 0..MOST_LINKS {
        if i < nodes {
            loose.parents[i] = dice.below(nodes) as u8;
        }
        if i < net.links {
            loose.flags[i] = dice.below(2) as u8;
        }
    }
    loose.with_sets()
}
