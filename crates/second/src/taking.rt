// One action: its refusals in their order, and what it does.

use crate::action::Action;
use crate::needs::least_need;
use crate::rounds::input;
use second_plan::answers::Refusal;
use second_plan::rows::{Plan, Row};
use second_plan::sheets::{Kind, Message, Parity, Place, Sheet, World};

// "no such link, link not preferred (27, 28), a root where a parent is needed, no root for 24, 31"
fn misplaced(plan: &Plan, action: Action) -> bool {
    let Action { kind, p, q } = action;
    match kind {
        Kind::PacketSent | Kind::PacketDelivered | Kind::AckSent | Kind::AckDelivered => {
            !plan.marked(Row::Neighbours, p, q)
        }
        Kind::PreferredSent | Kind::PreferredDelivered => !plan.marked(Row::Preferred, p, q),
        Kind::ClusterOk | Kind::ClusterGo => !plan.is_root(p),
        Kind::Output | Kind::NodeOk | Kind::Go | Kind::Input => false,
        _ => plan.is_root(p),
    }
}

// How many messages wait on p to q.
fn waiting(world: &World, p: usize, q: usize) -> u16 {
    world.cell(Sheet::Queued, p, q)
}

// Whether a message of a sort is first on p to q.
fn is_first(world: &World, message: Message, p: usize, q: usize) -> bool {
    waiting(world, p, q) > 0 && world.cell(Sheet::Sort(Place::First), p, q) == message.number()
}

// "a packet is first on p to q", "an ack is first on p to q"; and 18 for "kind 17 or 19 with two
// messages already queued".
fn refuse_for_queue(world: &World, action: Action) -> Result<(), Refusal> {
    let Action { kind, p, q } = action;
    match kind {
        Kind::PacketDelivered if !is_first(world, Message::Packet, p, q) => {
            Err(Refusal::NeedMissing)
        }
        Kind::AckDelivered if !is_first(world, Message::Ack, p, q) => Err(Refusal::NeedMissing),
        Kind::PacketSent | Kind::AckSent if waiting(world, p, q) >= 2 => Err(Refusal::QueueFull),
        _ => Ok(()),
    }
}

// The first of the refusals 13 to 16 and 18 that applies: 15 is "output after the last round", 16
// a count that is short.
fn refuse(plan: &Plan, world: &World, action: Action) -> Result<(), Refusal> {
    let Action { kind, p, q } = action;
    if p >= plan.nodes() || q >= plan.nodes() {
        return Err(Refusal::NoSuchNode);
    }
    if misplaced(plan, action) {
        return Err(Refusal::NoSuchAction);
    }
    let done = world.count(kind, p, q);
    if kind == Kind::Output && done >= plan.rounds() {
        return Err(Refusal::LastRoundOver);
    }
    if done >= least_need(plan, world, action) {
        return Err(Refusal::NeedMissing);
    }
    refuse_for_queue(world, action)
}

// A message joins the queue p to q, which has room for it. A cell is told by its sheet and two nodes, here and in `move_cell`.
fn enqueue(world: &mut World, p: usize, q: usize, message: Message, load: u16) {
    let free = if waiting(world, p, q) == 0 {
        Place::First
    } else {
        Place::Second
    };
    world.set_cell(Sheet::Sort(free), p, q, message.number());
    world.set_cell(Sheet::Load(free), p, q, load);
    world.raise(Sheet::Queued, p, q);
}

fn move_cell(world: &mut World, from: Sheet, to: Sheet, p: usize, q: usize) {
    let x = world.cell(from, p, q);
    world.set_cell(to, p, q, x);
    world.set_cell(from, p, q, 0);
}

// Takes the first message away: the second moves up, and its cells are cleared.
fn dequeue(world: &mut World, p: usize, q: usize) {
    move_cell(
        world,
        Sheet::Sort(Place::Second),
        Sheet::Sort(Place::First),
        p,
        q,
    );
    move_cell(
        world,
        Sheet::Load(Place::Second),
        Sheet::Load(Place::First),
        p,
        q,
    );
    world.lower(Sheet::Queued, p, q);
}

// What a taken action does besides being counted; i is its count.
fn effect(plan: &Plan, world: &mut World, action: Action, i: usize) {
    let Action { kind, p, q } = action;
    let slot = Parity::of(i);
    match kind {
        Kind::PacketSent => {
            let value = world.cell(Sheet::Value, p, p);
            enqueue(world, p, q, Message::Packet, value);
        }
        Kind::PacketDelivered => {
            let load = world.cell(Sheet::Load(Place::First), p, q);
            world.set_cell(Sheet::Slot(slot), p, q, load);
            dequeue(world, p, q);
        }
        Kind::AckSent => enqueue(world, p, q, Message::Ack, 0),
        Kind::AckDelivered => dequeue(world, p, q),
        Kind::Input => input(plan, world, slot, p),
        _ => {}
    }
}

// Takes an action, or refuses it by 13 to 16 or 18.
pub(crate) fn take(plan: &Plan, world: &mut World, action: Action) -> Result<(), Refusal> {
    refuse(plan, world, action)?;
    let Action { kind, p, q } = action;
    world.raise(Sheet::Count(kind), p, q);
    let i = world.count(kind, p, q);
    effect(plan, world, action, i);
    Ok(())
}
