// A plan read by both sides, and what comes back compared.
use answers::Refused;
use compare::networks::same_network;
use compare::tally::{Tally, answer_of};
use records::Plan;
use second_plan::answers::Answer;

pub(crate) fn try_plan(tally: &mut Tally, bytes: &[u8]) -> Result<Plan, Refused> {
    let mut theirs = second_plan::rows::Plan::zeros();
    let read = plan::read_plan(bytes);
    let bench = answer_of(read.map(|plan| plan.taken));
    let second = Answer::from(second_plan::read_plan(&mut theirs, bytes));
    tally.same_answer("plan's answer", bench.number, second.number);
    tally.same("plan's place", bench.place, second.place);
    // "a network of zeros" is what a refused plan gives.
    let net = read.map_or(network::zeros(), |plan| plan.network);
    same_network(tally, &net, &theirs);
    read
}
