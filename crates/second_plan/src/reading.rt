// Reading a plan: "one kind 1, then nodes numbered 0, 1, 2.. in order, then links in strictly
// rising order of (a, b), none before the first node, then kind 0". The records are judged first,
// with nothing kept but how many nodes and links there were. In a plan without fault each record
// then stands at a known place, from which it is entered.

ghost use Rattle.std.specs.Prelude.{◌≤◌, ◌<◌};

use crate::answers::{Refusal, Refused};
use crate::bytes::*;
use crate::checks::whole_plan;
use crate::rows::{Head, MOST_LINKS, MOST_NODES, MOST_ROUNDS, Plan, Row};

// How many nodes and links there were.
#[derive(Clone, Copy)]
struct Seen {
    nodes: usize,
    links: usize,
}

// Each of the following refuses a record at `at` for the first of 3, 4 and 5 that it deserves after
// what was seen.

fn judge_end(seen: Seen) -> Result<(), Refusal> {
    if seen.nodes == 0 {
        return Err(Refusal::OutOfOrder);
    }
    Ok(())
}

fn judge_rounds(at: usize, rounds: usize) -> Result<(), Refusal> {
    if at > 0 {
        return Err(Refusal::OutOfOrder);
    }
    if rounds == 0 || rounds > MOST_ROUNDS {
        return Err(Refusal::OutOfRange);
    }
    Ok(())
}

fn judge_node(at: usize, seen: Seen, p: usize) -> Result<(), Refusal> {
    if at == 0 || seen.links > 0 || p != seen.nodes {
        return Err(Refusal::OutOfOrder);
    }
    if seen.nodes >= MOST_NODES {
        return Err(Refusal::TooMany);
    }
    Ok(())
}

// The ends of the link at `at`.
fn ends(bytes: &[u8], at: usize) -> (usize, usize) {
    (
        usize::from(byte(bytes, at, 1)),
        usize::from(byte(bytes, at, 2)),
    )
}

// Whether the link at `at` may come there: the first one after a node, any other above the link
// in the four bytes before it.
fn follows(bytes: &[u8], at: usize, seen: Seen) -> bool {
    if seen.links == 0 {
        return seen.nodes > 0;
    }
    at.checked_sub(LINK_SIZE)
        .is_some_and(|last| ends(bytes, last) < ends(bytes, at))
}

fn judge_link(bytes: &[u8], at: usize, seen: Seen) -> Result<(), Refusal> {
    let (a, b) = ends(bytes, at);
    if !follows(bytes, at, seen) {
        return Err(Refusal::OutOfOrder);
    }
    if seen.links >= MOST_LINKS {
        return Err(Refusal::TooMany);
    }
    if a >= b || b >= seen.nodes || byte(bytes, at, 3) > 1 {
        return Err(Refusal::OutOfRange);
    }
    Ok(())
}

// The kind of the record at `at`, or the first fault, 1 to 5, that it has.
fn judge_record(bytes: &[u8], at: usize, seen: Seen) -> Result<RecordKind, Refusal> {
    let kind = RecordKind::try_from(byte(bytes, at, 0))?;
    if cut_short(bytes, at, kind.body()) {
        return Err(Refusal::CutRecord);
    }
    let first = byte(bytes, at, 1);
    match kind {
        RecordKind::End => judge_end(seen),
        RecordKind::Rounds => judge_rounds(at, two_bytes(first, byte(bytes, at, 2))),
        RecordKind::Node => judge_node(at, seen, usize::from(first)),
        RecordKind::Link => judge_link(bytes, at, seen),
    }?;
    Ok(kind)
}

// Record by record from the start, up to kind 0 or the first fault: what was seen, and the place
// after kind 0.
fn judge(bytes: &[u8]) -> Result<(Seen, usize), Refused> {
    let mut at = 0;
    let mut seen = Seen { nodes: 0, links: 0 };

    // a `while`, since each record says where the next one starts
    while at < bytes.len() {
        let kind = judge_record(bytes, at, seen).map_err(|refusal| refusal.at(at))?;
        match kind {
            RecordKind::End => return Ok((seen, at + END_SIZE)),
            RecordKind::Rounds => {}
            RecordKind::Node => seen.nodes += 1,
            RecordKind::Link => seen.links += 1,
        }
        at = after(at, kind.body(), bytes.len());
    }
    Err(Refusal::OutOfOrder.at(at))
}

// Node p stands after the rounds and p other nodes.
fn enter_node(plan: &mut Plan, bytes: &[u8], p: usize)
    requires { p < 64 }
{
    let at = ROUNDS_SIZE + NODE_SIZE * p;
    plan.set_entry(Row::Parent, p, usize::from(byte(bytes, at, 2)));
    plan.set_entry(
        Row::Start,
        p,
        two_bytes(byte(bytes, at, 3), byte(bytes, at, 4)),
    );
}

// Link l stands after the rounds, so many nodes and l other links.
fn enter_link(plan: &mut Plan, bytes: &[u8], nodes: usize, l: usize)
    requires { (nodes ≤ 64) × (l < 128) }
{
    let at = ROUNDS_SIZE + NODE_SIZE * nodes + LINK_SIZE * l;
    let (a, b) = ends(bytes, at);
    plan.set_entry(Row::Low, l, a);
    plan.set_entry(Row::High, l, b);
    plan.set_entry(Row::Flag, l, usize::from(byte(bytes, at, 3)));
}

// Enters the records of a plan without fault.
fn enter(plan: &mut Plan, bytes: &[u8], seen: Seen) {
    let nodes = seen.nodes.min(MOST_NODES);
    let links = seen.links.min(MOST_LINKS);
    plan.set_head(Head::Nodes, nodes);
    plan.set_head(Head::Links, links);
    plan.set_head(
        Head::Rounds,
        two_bytes(byte(bytes, 0, 1), byte(bytes, 0, 2)),
    );
    for p in 0..nodes {
        enter_node(plan, bytes, p);
    }
    for l in 0..links {
        enter_link(plan, bytes, nodes, l);
    }
}

// Reads the records of the plan at the start of a byte string, and looks at no more than rules 1 to
// 5: the plan's length, or a refusal of these.
pub fn read_records(plan: &mut Plan, bytes: &[u8]) -> Result<usize, Refused> {
    *plan = Plan::zeros();
    let (seen, size) = judge(bytes)?;
    enter(plan, bytes, seen);
    Ok(size)
}

// Reads the plan at the start of a byte string: its length, or a refusal of 1 to 10. "A refused
// plan hands back a network of zeros."
pub fn read_plan(plan: &mut Plan, bytes: &[u8]) -> Result<usize, Refused> {
    let size = read_records(plan, bytes)?;
    plan.enter_sets();
    let whole = whole_plan(plan);
    if whole.is_err() {
        *plan = Plan::zeros();
    }
    whole.map(|()| size)
}
