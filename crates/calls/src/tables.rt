// Lockstep tables from both sides, in buffers that hold something before.
use compare::networks::plan_of;
use compare::tally::Trials;
use network::Network;
use second_plan::answers::Answer;
use std::array;

const ROOM: usize = 80;

// A table of so many rounds in a buffer of so many entries.
pub fn try_table(trials: &mut Trials, net: &Network, rounds: u16, room: usize) {
    let dice = &mut trials.dice;
    let mut ours: [u16; ROOM] = array::from_fn(|_| dice.word());
    let mut theirs = ours;
    let size = room.min(ROOM);
    let bench = lockstep::table(*net, rounds, &mut ours[..size]);
    let second = Answer::from(second::table(
        &plan_of(net),
        usize::from(rounds),
        &mut theirs[..size],
    ));
    let bench = bench.map_or_else(|refusal| refusal.number(), |()| 0);
    trials
        .tally
        .same_answer("table's answer", bench, second.number);
    trials.tally.same_list("table entry", &ours, &theirs);
}

// Tables of no rounds, of the plan's and of one more; in buffers with room, with just enough, and short by one.
pub fn try_tables(trials: &mut Trials, net: &Network) {
    let (nodes, rounds) = (net.nodes, net.rounds);
    if rounds > 40 {
        return;
    }
    let more = rounds + 1;
    let some = trials.dice.below(8) as u16;
    let short = nodes.saturating_sub(1);
    let longer = nodes.saturating_add(1);
    try_table(trials, net, 0, ROOM);
    try_table(trials, net, rounds, nodes);
    try_table(trials, net, more, nodes);
    try_table(trials, net, rounds, short);
    try_table(trials, net, some, longer);
    try_table(trials, net, more, short);
}
