// The bench's network, number by number, in the shape of the second simulator's memory, and back.
use crate::tally::Tally;
use network::Network;
use second_plan::rows::{Head, PLAN, Plan, Row};
use std::array;

// A narrower number keeps the low bytes, which `try_from` would refuse.
fn byte(x: usize) -> u8 {
    (x % 256) as u8
}

pub(crate) fn word(x: usize) -> u16 {
    (x % 65536) as u16
}

fn draw_row(plan: &mut Plan, row: Row, numbers: &[usize]) {
    for (i, x) in numbers.iter().enumerate() {
        plan.set_entry(row, i, *x);
    }
}

// Every number of a network.
pub fn plan_of(net: &Network) -> Plan {
    let mut plan = Plan::zeros();
    plan.set_head(Head::Nodes, net.nodes);
    plan.set_head(Head::Links, net.links);
    plan.set_head(Head::Rounds, usize::from(net.rounds));
    draw_row(&mut plan, Row::Parent, &net.parents.map(usize::from));
    draw_row(&mut plan, Row::Start, &net.starts.map(usize::from));
    draw_row(&mut plan, Row::Low, &net.lowers.map(usize::from));
    draw_row(&mut plan, Row::High, &net.uppers.map(usize::from));
    draw_row(&mut plan, Row::Flag, &net.flags.map(usize::from));
    draw_row(
        &mut plan,
        Row::Neighbours,
        &net.neighbours.map(|set| set as usize),
    );
    draw_row(
        &mut plan,
        Row::Children,
        &net.children.map(|set| set as usize),
    );
    draw_row(
        &mut plan,
        Row::Preferred,
        &net.preferred.map(|set| set as usize),
    );
    plan
}

// The network of these numbers.
pub fn network_of(plan: &Plan) -> Network {
    Network {
        nodes: plan.nodes(),
        links: plan.links(),
        rounds: word(plan.rounds()),
        parents: array::from_fn(|p| byte(plan.entry(Row::Parent, p))),
        starts: array::from_fn(|p| word(plan.entry(Row::Start, p))),
        lowers: array::from_fn(|l| byte(plan.entry(Row::Low, l))),
        uppers: array::from_fn(|l| byte(plan.entry(Row::High, l))),
        flags: array::from_fn(|l| byte(plan.entry(Row::Flag, l))),
        neighbours: array::from_fn(|p| plan.entry(Row::Neighbours, p) as u64),
        children: array::from_fn(|p| plan.entry(Row::Children, p) as u64),
        preferred: array::from_fn(|p| plan.entry(Row::Preferred, p) as u64),
    }
}

// The bench's network is the second simulator's.
pub fn same_network(tally: &mut Tally, net: &Network, theirs: &Plan) {
    let ours = plan_of(net);
    let bench: [usize; PLAN] = array::from_fn(|i| ours.number(i));
    let second: [usize; PLAN] = array::from_fn(|i| theirs.number(i));
    tally.same_list("network entry", &bench, &second);
}
