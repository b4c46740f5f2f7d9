// The lines of a report on a page. Each function answers the place behind what it wrote. A plan that was read has 64 nodes at most; a network is any
// value of its struct, so what goes over its nodes asks for that.
ghost use Rattle.std.specs.Prelude.{◌+◌, ◌*◌, ◌^◌, ◌<◌, ◌≤◌, length};
ghost use Rattle.clusters.specs.Clusters.{cluster_count};
ghost use Rattle.text.specs.Put.{Put};
ghost use Rattle.report.specs.Lines.{plan_line, node_line_of, node_lines, taken_line, end_line};
ghost use Rattle.report.specs.Report.{run_text};

use actions::{Counter, Kind};
use network::Network;
use synchronizer::{Ran, State};
use text::line;

fn plan_line(page: &mut [u8], at: usize, net: &Network) -> usize
    ensures put { Put page.old at (plan_line net.now.nodes net.now.links (cluster_count net.now) net.now.rounds) result page.new }
    ensures short { length (plan_line net.now.nodes net.now.links (cluster_count net.now) net.now.rounds) ≤ 89 }
{
    let clusters = clusters::count(*net) as u64;
    let numbers = [
        net.nodes as u64,
        net.links as u64,
        clusters,
        net.rounds as u64,
    ];
    line(page, at, b"plan", &numbers)
}

// A node's line: its number, outputs, inputs, value.
fn node_line(page: &mut [u8], at: usize, p: usize, state: &State) -> usize
    requires { p < 64 }
    ensures put { Put page.old at (node_line_of state.now.counts state.now.values p) result page.new }
    ensures short { length (node_line_of state.now.counts state.now.values p) ≤ 29 }
{
    let outputs = state.counts[actions::cell(Counter(Kind::Output, p as u8))];
    let inputs = state.counts[actions::cell(Counter(Kind::Input, p as u8))];
    let numbers = [
        p as u64,
        outputs as u64,
        inputs as u64,
        state.values[p] as u64,
    ];
    line(page, at, b"node", &numbers)
}

fn taken_line(page: &mut [u8], at: usize, taken: usize) -> usize
    ensures { Put page.old at (taken_line taken) result page.new }
{
    line(page, at, b"taken", &[taken as u64])
}

pub(crate) fn end_line(page: &mut [u8], at: usize, number: u8, place: usize) -> usize
    ensures { Put page.old at (end_line number place) result page.new }
{
    line(page, at, b"end", &[number as u64, place as u64])
}

fn node_lines(page: &mut [u8], at: usize, nodes: usize, state: &State) -> usize
    requires { nodes ≤ 64 }
    ensures put { Put page.old at (node_lines state.now.counts state.now.values nodes) result page.new }
    ensures short { length (node_lines state.now.counts state.now.values nodes) ≤ 29 * nodes }
{
    let mut place = at;
    for p in 0..nodes {
        place = node_line(page, place, p, state);
    }
    place
}

// The report of a run: the plan, its nodes, how many actions were taken, and where the list ended, which begins at `from`.
pub(crate) fn run_lines(page: &mut [u8], net: &Network, from: usize, ran: &Ran) -> usize
    requires nodes { net.now.nodes ≤ 64 }
    requires place { from + ran.now.place < 2 ^ 64 }
    ensures put { Put page.old 0 (run_text net.now from ran.now) result page.new }
    ensures short { length (run_text net.now from ran.now) ≤ 2048 }
{
    let planned = plan_line(page, 0, net);
    let listed = node_lines(page, planned, net.nodes, &ran.state);
    let counted = taken_line(page, listed, ran.taken);
    end_line(page, counted, ran.answer, from + ran.place)
}
