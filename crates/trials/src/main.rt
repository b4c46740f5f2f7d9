// Trials of the bench against the second simulator. Each side gets the same bytes, networks, states and buffers, and every answer, place,
// count, value, state and buffer that comes back is compared. What is tried is drawn from a seed, so that every run tries the same.
#![tactic(auto)]

mod known;
mod planted;
mod reading;
mod spoilt;

use crate::reading::try_plan;
use calls::both::try_start;
use calls::tables::try_tables;
use compare::tally::Trials;
use draws::dice::Dice;
use draws::plans::{Plan, Wish};
use network::Network;
use std::io;

const SEED: u64 = 588;

const TRIALS: usize = 3000;

// Whole runs of small networks, runs broken off of any.
fn try_runs(trials: &mut Trials, net: &Network) {
    let sweeps = trials.dice.below(8);
    if net.nodes > 8 {
        let state = try_start(&mut trials.tally, net);
        runs::try_run(trials, net, &state, sweeps);
    } else {
        runs::try_whole_run(trials, net);
    }
}

// Something of an accepted plan, by the number of the trial, so that each way of spoiling comes up.
fn try_accepted(trials: &mut Trials, net: &Network, t: usize) {
    match t % 10 {
        0 | 1 => try_runs(trials, net),
        2 => spoilt::try_spoilt_network(trials, net, t / 10),
        3 => spoilt::try_spoilt_state(trials, net, t / 10),
        4 => spoilt::try_any_state(trials, net),
        _ => try_tables(trials, net),
    }
}

// Any plan, or one thing wrong in one.
fn any_plan(dice: &mut Dice, damaged: bool) -> Plan {
    let wish = Wish::any(dice);
    let mut plan = Plan::drawn(dice, wish);
    if damaged {
        plan.damage(dice);
    }
    plan
}

// Four plans of ten are damaged; the others have to be accepted.
fn trial(trials: &mut Trials, t: usize) {
    let damaged = t % 10 > 5;
    let plan = any_plan(&mut trials.dice, damaged);
    match try_plan(&mut trials.tally, plan.bytes.as_slice()) {
        Ok(accepted) => try_accepted(trials, &accepted.network, t),
        Err(_) if damaged => {}
        Err(refused) => {
            let number = usize::from(refused.refusal.number());
            trials.tally.same("known answer", number, 0);
        }
    }
}

fn main(rt: HostRuntime) -> io::Result<()> {
    planted::try_planted(rt.stdout())?;
    let mut trials = Trials::new(SEED, rt.stdout());
    known::try_known(&mut trials);
    for t in 0..TRIALS {
        trials.tally.begin();
        trial(&mut trials, t);
    }
    trials.tally.report()?;
    layouts::try_drawn(rt.stdout())?;
    layouts::try_planted(rt.stdout())
}
