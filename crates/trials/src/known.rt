// The trials of document 01 that are not in the small proved set, each with its known end.
use crate::reading::try_plan;
use calls::both::try_list;
use compare::tally::{Tally, Trials, answer_of};
use draws::plans::{Order, Plan, Shape, Wish};
use network::Network;
use second_plan::sheets::Kind;
use synchronizer::State;

// "Plan P: path 0-1-2, one cluster, root 1, values 0, 10, 5."
const P: [u8; 27] = [
    1, 0, 1, 2, 0, 1, 0, 0, 2, 1, 1, 0, 10, 2, 2, 1, 0, 5, 3, 0, 1, 0, 3, 1, 2, 0, 0,
];

// A plan whose answer and place are known.
fn known_plan(tally: &mut Tally, plan: &Plan, number: usize, place: usize) {
    tally.begin();
    let read = try_plan(tally, plan.bytes.as_slice());
    let answer = answer_of(read.map(|plan| plan.taken));
    tally.same("known answer", usize::from(answer.number), number);
    tally.same("known place", answer.place, place);
}

// "Rounds 10,000 taken; 0 and 10,001 refused by 5."
fn known_rounds(trials: &mut Trials, rounds: u16, number: usize, place: usize) {
    let wish = Wish {
        nodes: 1,
        links: 0,
        rounds,
        shape: Shape::Tree,
        cut: 0,
        order: Order::AsCounted,
    };
    let plan = Plan::drawn(&mut trials.dice, wish);
    known_plan(&mut trials.tally, &plan, number, place);
}

// "64 nodes taken, 65 refused by 4. 128 links taken, 129 refused by 4."
fn known_sizes(trials: &mut Trials) {
    let wish = Wish {
        nodes: 64,
        links: 128,
        rounds: 1,
        shape: Shape::Tree,
        cut: 8,
        order: Order::Shuffled,
    };
    let plan = Plan::drawn(&mut trials.dice, wish);
    known_plan(&mut trials.tally, &plan, 0, 836);
    let mut longer = plan;
    longer.add_node(&mut trials.dice);
    known_plan(&mut trials.tally, &longer, 4, 323);
    let mut longest = plan;
    longest.add_link(&mut trials.dice);
    known_plan(&mut trials.tally, &longest, 4, 835);
}

// An action on P's start state whose answer is known: kind, node and answer, as document 01 lists them.
fn known_action(tally: &mut Tally, net: &Network, kind: Kind, p: u8, number: usize) {
    tally.begin();
    let state = State::start(*net).state;
    let ran = try_list(tally, net, &state, &[kind.number(), p]);
    tally.same("known answer", usize::from(ran.answer), number);
}

// "P: .. Subtree ok by node 1: 14. Cluster ok by node 0: 14."
fn known_actions(tally: &mut Tally) {
    // Were P refused, a network of zeros would answer 17 to both, so that the refusal is told.
    let net = try_plan(tally, &P).map_or(network::zeros(), |plan| plan.network);
    known_action(tally, &net, Kind::SubtreeOkSent, 1, 14);
    known_action(tally, &net, Kind::ClusterOk, 0, 14);
}

pub(crate) fn try_known(trials: &mut Trials) {
    known_actions(&mut trials.tally);
    known_rounds(trials, 10000, 0, 9);
    known_rounds(trials, 0, 5, 0);
    known_rounds(trials, 10001, 5, 0);
    known_sizes(trials);
}
