// Answer 17: a handed-in network or state outside the ranges. Both memories are walked whole, so
// that what stands past the nodes, past the links or past a queue's length is seen too.

use second_plan::rows::{MOST_LINKS, MOST_NODES, MOST_ROUNDS, Plan, Row};
use second_plan::sheets::{Message, Place, Sheet, World};

// "nodes, links or rounds are outside their limits"
fn head_outside(plan: &Plan) -> bool {
    let nodes = plan.nodes();
    let rounds = plan.rounds();
    nodes == 0
        || nodes > MOST_NODES
        || plan.links() > MOST_LINKS
        || rounds == 0
        || rounds > MOST_ROUNDS
}

// "a link has a not below b, or links do not rise strictly"
fn link_outside(plan: &Plan, l: usize) -> bool {
    let (a, b) = plan.ends(l);
    a >= b || (l > 0 && plan.ends(l - 1) >= (a, b))
}

// "a link end or parent is not below the node count, or a flag is above 1"; "a neighbour or child
// set, or any other derived fact, kept beside the list differs from what the list gives". A start
// value is of two bytes, and an entry has room for more.
fn entry_outside(plan: &Plan, derived: &Plan, row: Row, i: usize) -> bool {
    let x = plan.entry(row, i);
    match row {
        Row::Parent | Row::High => x >= plan.nodes(),
        Row::Start => x > usize::from(u16::MAX),
        Row::Neighbours | Row::Children | Row::Preferred => x != derived.entry(row, i),
        Row::Low => link_outside(plan, i),
        Row::Head | Row::Flag => x > 1,
    }
}

// "an entry past the node or link count .. is not 0"
fn wrong_entry(plan: &Plan, derived: &Plan, row: Row, i: usize) -> bool {
    if i < plan.used(row) {
        entry_outside(plan, derived, row, i)
    } else {
        plan.entry(row, i) > 0
    }
}

// In any row but that of the limits.
fn any_wrong_entry(plan: &Plan, derived: &Plan) -> bool {
    Row::ALL.iter().skip(1).any(|&row| (0..MOST_LINKS).any(|i| wrong_entry(plan, derived, row, i)))
}

// The network with the sets that its lists give.
fn derived_from(plan: &Plan) -> Plan {
    let mut derived = *plan;
    derived.clear(Row::Neighbours);
    derived.clear(Row::Children);
    derived.clear(Row::Preferred);
    derived.enter_sets();
    derived
}

// Whether 17 applies to a network.
pub fn network_outside(plan: &Plan) -> bool {
    head_outside(plan) || any_wrong_entry(plan, &derived_from(plan))
}

// Whether the network has the direction or the node that a cell is for.
fn in_use(plan: &Plan, sheet: Sheet, p: usize, q: usize) -> bool {
    if sheet.is_of_directions() {
        plan.marked(Row::Neighbours, p, q)
    } else {
        p == q && p < plan.nodes()
    }
}

// "a waiting message is neither packet nor ack, or is an ack with a value; an entry .. past a
// queue's length, is not 0"
fn message_outside(waits: bool, sort: u16, load: u16) -> bool {
    if !waits {
        return sort > 0 || load > 0;
    }
    if sort == Message::Ack.number() {
        load > 0
    } else {
        sort != Message::Packet.number()
    }
}

// Whether a place of the queue p to q holds what it may not.
fn place_outside(world: &World, place: Place, p: usize, q: usize) -> bool {
    let waiting = world.cell(Sheet::Queued, p, q);
    let waits = match place {
        Place::First => waiting > 0,
        Place::Second => waiting > 1,
    };
    let sort = world.cell(Sheet::Sort(place), p, q);
    message_outside(waits, sort, world.cell(Sheet::Load(place), p, q))
}

// A load is looked at beside its sort. Slots and values have every number of two bytes.
fn cell_outside(plan: &Plan, world: &World, sheet: Sheet, p: usize, q: usize) -> bool {
    match sheet {
        Sheet::Count(kind) => world.count(kind, p, q) > plan.rounds(),
        Sheet::Queued => world.cell(sheet, p, q) > 2,
        Sheet::Sort(place) => place_outside(world, place, p, q),
        Sheet::Load(_) | Sheet::Slot(_) | Sheet::Value => false,
    }
}

fn wrong_cell(plan: &Plan, world: &World, sheet: Sheet, p: usize, q: usize) -> bool {
    if in_use(plan, sheet, p, q) {
        cell_outside(plan, world, sheet, p, q)
    } else {
        world.cell(sheet, p, q) > 0
    }
}

fn any_wrong_cell(plan: &Plan, world: &World) -> bool {
    Sheet::ALL.iter().any(|&sheet| {
        (0..MOST_NODES).any(|p| (0..MOST_NODES).any(|q| wrong_cell(plan, world, sheet, p, q)))
    })
}

// Whether 17 applies to a network or to a state of it.
pub fn state_outside(plan: &Plan, world: &World) -> bool {
    network_outside(plan) || any_wrong_cell(plan, world)
}
