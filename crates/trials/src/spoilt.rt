// Networks and states that a caller hands in, spoilt in every way that 17 names or only odd, tried on both sides.
use answers::Refusal;
use calls::both::{Action, try_act, try_list, try_method, try_start};
use calls::tables::try_table;
use compare::tally::{Clause, Tally, Trials};
use handed::networks::{loose_network, spoilt_network};
use handed::states::{any_state, spoilt_state};
use network::Network;
use runs::{any_action, try_run};
use synchronizer::State;

// A network and a state of which 17 is to be said: what each call is handed, and the clause.
fn try_handed(tally: &mut Tally, net: &Network, state: &State, action: &Action, clause: Clause) {
    try_act(tally, net, state, action);
    try_act(tally, net, state, &[]);
    try_method(tally, net, state, action);
    let ran = try_list(tally, net, state, action);
    if ran.answer == Refusal::NotInRange.number() {
        tally.count_clause(clause);
    }
}

// A network with one entry changed, handed in to everything that takes one.
pub(crate) fn try_spoilt_network(trials: &mut Trials, net: &Network, turn: usize) {
    let (spoilt, clause) = spoilt_network(&mut trials.dice, net, turn);
    let state = State::start(*net).state;
    let action = any_action(&mut trials.dice, net.nodes);
    try_table(trials, &spoilt, 1, 64);
    try_start(&mut trials.tally, &spoilt);
    try_handed(&mut trials.tally, &spoilt, &state, &action, clause);
}

// A state with one entry changed, of a network that has links.
pub(crate) fn try_spoilt_state(trials: &mut Trials, net: &Network, turn: usize) {
    if net.links == 0 {
        return;
    }
    let (state, clause) = spoilt_state(&mut trials.dice, net, turn);
    let action = any_action(&mut trials.dice, net.nodes);
    try_handed(&mut trials.tally, net, &state, &action, clause);
}

// Any state of a network, or of one that is only odd: all its actions once, and some single ones.
pub(crate) fn try_any_state(trials: &mut Trials, net: &Network) {
    let net = if trials.dice.once_in(2) {
        *net
    } else {
        loose_network(&mut trials.dice, net)
    };
    let state = any_state(&mut trials.dice, &net);
    try_run(trials, &net, &state, 1);
}
