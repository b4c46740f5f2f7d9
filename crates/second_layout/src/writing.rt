// A plan in bytes, each told from its place: "one kind 1, then nodes numbered 0, 1, 2.. in order, then links .., then kind 0".
use second_plan::bytes::{LINK_SIZE, NODE_SIZE, ROUNDS_SIZE, RecordKind};
use second_plan::rows::{Plan, Row};

// The high byte and the low one of a number of two bytes.
fn two_bytes(x: usize) -> [u8; 2] {
    let [.., high, low] = x.to_be_bytes();
    [high, low]
}

fn low_byte(x: usize) -> u8 {
    let [_, low] = two_bytes(x);
    low
}

fn rounds_record(plan: &Plan) -> [u8; ROUNDS_SIZE] {
    let [high, low] = two_bytes(plan.rounds());
    [RecordKind::Rounds.number(), high, low]
}

fn node_record(plan: &Plan, p: usize) -> [u8; NODE_SIZE] {
    let [high, low] = two_bytes(plan.entry(Row::Start, p));
    [
        RecordKind::Node.number(),
        low_byte(p),
        low_byte(plan.entry(Row::Parent, p)),
        high,
        low,
    ]
}

fn link_record(plan: &Plan, l: usize) -> [u8; LINK_SIZE] {
    let (a, b) = plan.ends(l);
    [
        RecordKind::Link.number(),
        low_byte(a),
        low_byte(b),
        low_byte(plan.entry(Row::Flag, l)),
    ]
}

// The byte at so many bytes from the first link on.
fn byte_from_links(plan: &Plan, i: usize) -> u8 {
    let l = i / LINK_SIZE;
    if l < plan.links() {
        link_record(plan, l)[i % LINK_SIZE]
    } else {
        RecordKind::End.number()
    }
}

// The byte at so many bytes from the first node on.
fn byte_from_nodes(plan: &Plan, i: usize) -> u8 {
    let nodes = plan.nodes();
    let p = i / NODE_SIZE;
    if p < nodes {
        node_record(plan, p)[i % NODE_SIZE]
    } else {
        byte_from_links(plan, i - nodes * NODE_SIZE)
    }
}

fn byte_at(plan: &Plan, i: usize) -> u8 {
    if i < ROUNDS_SIZE {
        rounds_record(plan)[i]
    } else {
        byte_from_nodes(plan, i - ROUNDS_SIZE)
    }
}

// The first bytes of the plan, as many as there is room for.
pub(crate) fn write(plan: &Plan, out: &mut [u8]) {
    for (i, b) in out.iter_mut().enumerate() {
        *b = byte_at(plan, i);
    }
}
