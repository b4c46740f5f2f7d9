// When an action is taken. "Let i be that count plus one", and to have X "means X's count is at
// least i": so each row of the table asks that the action's own count be below some other counts,
// and the least of these decides.

use crate::action::Action;
use second_plan::rows::{MOST_NODES, Plan, Row};
use second_plan::sheets::{Kind, World};

// How often p took an action that is of one kind for a root and of another for other nodes.
fn count_by_rank(plan: &Plan, world: &World, p: usize, of_root: Kind, of_other: Kind) -> usize {
    let kind = if plan.is_root(p) { of_root } else { of_other };
    world.count(kind, p, p)
}

// "A root knows by 24, another node by 26."
fn knows(plan: &Plan, world: &World, p: usize) -> usize {
    count_by_rank(plan, world, p, Kind::ClusterOk, Kind::DownDelivered)
}

// "A root may go by 31, another by 33."
fn may_go(plan: &Plan, world: &World, p: usize) -> usize {
    count_by_rank(plan, world, p, Kind::ClusterGo, Kind::SubtreeGoDelivered)
}

// The need that a row of the table names first. For output it is "inputs of p at least i - 1", so
// its own count has to be below the inputs and one more. A delivery needs "sent", and input go.
fn first_need(plan: &Plan, world: &World, action: Action) -> usize {
    let Action { kind, p, q } = action;
    match kind {
        Kind::Output => world.count(Kind::Input, p, p) + 1,
        Kind::PacketSent | Kind::NodeOk => world.count(Kind::Output, p, p),
        Kind::PacketDelivered => world.count(Kind::PacketSent, p, q),
        Kind::AckSent => world.count(Kind::PacketDelivered, q, p),
        Kind::AckDelivered => world.count(Kind::AckSent, p, q),
        Kind::SubtreeOkSent | Kind::ClusterOk => world.count(Kind::NodeOk, p, p),
        Kind::SubtreeOkDelivered => world.count(Kind::SubtreeOkSent, p, q),
        Kind::DownSent => knows(plan, world, plan.entry(Row::Parent, p)),
        Kind::DownDelivered => world.count(Kind::DownSent, p, q),
        Kind::PreferredSent | Kind::UpSent | Kind::ClusterGo => knows(plan, world, p),
        Kind::PreferredDelivered => world.count(Kind::PreferredSent, p, q),
        Kind::UpDelivered => world.count(Kind::UpSent, p, q),
        Kind::SubtreeGoSent => may_go(plan, world, plan.entry(Row::Parent, p)),
        Kind::SubtreeGoDelivered => world.count(Kind::SubtreeGoSent, p, q),
        Kind::Go => may_go(plan, world, p),
        Kind::Input => world.count(Kind::Go, p, q),
    }
}

// The least of a count and those of a kind to p from each node whose set in a row has p.
fn least_from_marked(
    plan: &Plan,
    world: &World,
    row: Row,
    kind: Kind,
    p: usize,
    least: usize,
) -> usize {
    (0..MOST_NODES)
        .filter(|&q| plan.marked(row, q, p))
        .map(|q| world.count(kind, q, p))
        .fold(least, usize::min)
}

// The least of a count and those of a kind at each child of p.
fn least_of_children(plan: &Plan, world: &World, kind: Kind, p: usize, least: usize) -> usize {
    (0..MOST_NODES)
        .filter(|&q| plan.marked(Row::Children, p, q))
        .map(|q| world.count(kind, q, q))
        .fold(least, usize::min)
}

// The least count among the needs of an action: the first, and those with the words "every" and "each".
pub(crate) fn least_need(plan: &Plan, world: &World, action: Action) -> usize {
    let p = action.p;
    let first = first_need(plan, world, action);
    match action.kind {
        // "ack delivered from every neighbour"
        Kind::NodeOk => {
            least_from_marked(plan, world, Row::Neighbours, Kind::AckDelivered, p, first)
        }

        // "subtree ok delivered from every child"
        Kind::SubtreeOkSent | Kind::ClusterOk => {
            least_of_children(plan, world, Kind::SubtreeOkDelivered, p, first)
        }

        // "up delivered from every child", "preferred word delivered to p on each of its preferred links"
        Kind::UpSent | Kind::ClusterGo => {
            let least = least_of_children(plan, world, Kind::UpDelivered, p, first);
            least_from_marked(
                plan,
                world,
                Row::Preferred,
                Kind::PreferredDelivered,
                p,
                least,
            )
        }
        _ => first,
    }
}
