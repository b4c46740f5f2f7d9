// The value of a round, the start state and the lockstep table.

ghost use Rattle.std.specs.Prelude.{◌*◌, ◌<◌, ◌≤◌};

use crate::ranges::network_outside;
use second_plan::answers::Refusal;
use second_plan::rows::{MOST_NODES, Plan, Row};
use second_plan::sheets::{Parity, Sheet, World};
use std::cmp::Ordering;

// A number of two bytes. A larger one is no start value and no mean.
fn narrow(x: usize) -> u16 {
    u16::try_from(x).unwrap_or(u16::MAX)
}

// "round to the nearest whole number, a half going to the even one": of the two whole numbers beside
// the quotient the one that is less far from the sum, taken count times.
fn nearest(sum: usize, count: usize) -> usize
    requires { (0 < count) × (count ≤ 65) × (sum ≤ 65535 * 65) }
{
    let below = sum / count;
    let above = below + 1;
    let reached = below * count;
    let too_low = sum - reached;
    let too_high = reached + count - sum;
    match too_low.cmp(&too_high) {
        Ordering::Less => below,
        Ordering::Greater => above,
        Ordering::Equal => below + below % 2,
    }
}

// How many neighbours p has.
fn neighbours(plan: &Plan, p: usize) -> usize
    ensures { result ≤ 64 }
{
    (0..MOST_NODES)
        .filter(|&q| plan.marked(Row::Neighbours, p, q))
        .count()
}

// "(own value + the values in the slots .. from each neighbour) divided by (1 + number of
// neighbours)"
fn mean(plan: &Plan, world: &World, slot: Parity, p: usize) -> u16 {
    let mut sum = usize::from(world.cell(Sheet::Value, p, p));

    // a loop, since the proof that a chain's `sum` fits did not close
    for q in 0..MOST_NODES {
        if plan.marked(Row::Neighbours, q, p) {
            sum += usize::from(world.cell(Sheet::Slot(slot), q, p));
        }
    }
    narrow(nearest(sum, 1 + neighbours(plan, p)))
}

// "Input i of p sets its value to" the mean over the slots of i's parity.
pub(crate) fn input(plan: &Plan, world: &mut World, slot: Parity, p: usize) {
    let next = mean(plan, world, slot, p);
    world.set_cell(Sheet::Value, p, p, next);
}

fn enter_start_values(plan: &Plan, world: &mut World) {
    for p in 0..MOST_NODES {
        world.set_cell(Sheet::Value, p, p, narrow(plan.entry(Row::Start, p)));
    }
}

// "In the start state all counts and slots are 0, queues are empty and values are the plan's."
// "a start state refused by 17 is all zeros"
pub fn start(plan: &Plan, world: &mut World) -> Result<(), Refusal> {
    *world = World::zeros();
    if network_outside(plan) {
        return Err(Refusal::Outside);
    }
    enter_start_values(plan, world);
    Ok(())
}

// Every node's value goes to every other, whether or not they are linked.
fn tell_all(world: &mut World) {
    for p in 0..MOST_NODES {
        let value = world.cell(Sheet::Value, p, p);
        for q in 0..MOST_NODES {
            world.set_cell(Sheet::Slot(Parity::Even), p, q, value);
        }
    }
}

fn input_all(plan: &Plan, world: &mut World) {
    for p in 0..MOST_NODES {
        input(plan, world, Parity::Even, p);
    }
}

// "The lockstep table of k rounds does this for all nodes at once, k times, from the start values."
fn lockstep(plan: &Plan, world: &mut World, rounds: usize) {
    for _ in 0..rounds {
        tell_all(world);
        input_all(plan, world);
    }
}

fn hand_out(world: &World, out: &mut [u16]) {
    for (p, value) in out.iter_mut().enumerate() {
        *value = world.cell(Sheet::Value, p, p);
    }
}

// The lockstep table of some rounds in a lent buffer: refusals 17, 20 and 21. "Table entries past
// the node count are not written."
pub fn table(plan: &Plan, rounds: usize, out: &mut [u16]) -> Result<(), Refusal> {
    let mut world = World::zeros();
    start(plan, &mut world)?;
    if rounds > plan.rounds() {
        return Err(Refusal::TooManyRounds);
    }
    let nodes = plan.nodes();
    if out.len() < nodes {
        return Err(Refusal::BufferShort);
    }
    lockstep(plan, &mut world, rounds);
    hand_out(&world, &mut out[..nodes]);
    Ok(())
}
