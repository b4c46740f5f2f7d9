// Differences that are planted, one for each way in which the trials compare. A comparison that can never find anything would not find its own,
// and the number that is printed would be another.
use compare::networks::{plan_of, same_network};
use compare::states::{blank, same_state, world_of};
use compare::tally::Tally;
use second_plan::rows::Row;
use second_plan::sheets::Sheet;
use std::io;
use std::io::Stdout;

// The last flag of a network of zeros.
fn plant_in_network(tally: &mut Tally) {
    tally.begin();
    let net = network::zeros();
    let mut plan = plan_of(&net);
    plan.set_entry(Row::Flag, 127, 1);
    same_network(tally, &net, &plan);
}

// The last value of a state of zeros.
fn plant_in_state(tally: &mut Tally) {
    tally.begin();
    let (net, state) = (network::zeros(), blank());
    let mut world = world_of(&net, &state);
    world.set_cell(Sheet::Value, 63, 63, 1);
    same_state(tally, &net, &state, &world);
}

// The last entry of a table, an answer, and a number.
fn plant_in_numbers(tally: &mut Tally) {
    tally.begin();
    tally.same_list("table entry", &[200u16, 200], &[200, 201]);
    tally.begin();
    tally.same_answer("answer", 0, 16);
    tally.begin();
    tally.same("place", 2, 3);
}

pub(crate) fn try_planted(out: Stdout) -> io::Result<()> {
    let mut tally = Tally::new(out);
    plant_in_network(&mut tally);
    plant_in_state(&mut tally);
    plant_in_numbers(&mut tally);
    tally.report_planted()
}
