// The lockstep table: every node takes the mean of its own and its neighbours' values, all at once, round after round.
#![tactic(auto)]

ghost use Rattle.std.specs.Prelude.{◌≡◌, ◌+◌, ◌*◌, ◌≤◌, ◌<◌, length, get_or};
ghost use Rattle.answers.specs.Numbers.{answer_of};
ghost use Rattle.laws.specs.Below.{over_below};
ghost use Rattle.laws.specs.Mean.{share_of, rule_of};
ghost use Rattle.nodeset.specs.Marks.{size_of, sum_in};
ghost use Rattle.lockstep.specs.Rule.{mean_of};
ghost use Rattle.lockstep.specs.Rounds.{round_by, lockstep_of};
ghost use Rattle.lockstep.specs.Table.{table_number, table_of};

use answers::Refusal;
use network::Network;
use nodeset::NodeSet;

// One share of the sum, "to the nearest whole number, a half going to the even one": the rule's only division. At most 65,535 for each of the count
// keeps it a u16.
fn share(sum: u32, count: u32) -> u16
    requires { (0 < count) × (count ≤ 65) × (sum ≤ 65535 * count) }
    ensures { result ≡ share_of sum count }
{
    let whole = sum / count;
    let rest = sum % count;
    let twice = 2 * rest;
    let share = if count < twice {
        whole + 1
    } else if twice == count {
        whole + whole % 2
    } else {
        whole
    };
    share as u16
}

// The sum of what was heard from the members of the set: at most 65,535 for each.
fn sum_in(set: NodeSet, heard: &[u16; 64]) -> u32
    ensures { (result ≡ sum_in (λ q. get_or heard.now q 0) set.marks) × (result ≤ 65535 * size_of set.marks) }
{
    set.members().map(|q| u32::from(heard[q])).sum()
}

// The new value of a node: "(own value + the values .. from each neighbour) divided by (1 + number of neighbours)", rounded by `share`.
// `heard` is by node number; what stands there for others than the members of the set does not matter.
pub fn mean(set: NodeSet, own: u16, heard: &[u16; 64]) -> u16
    ensures { result ≡ mean_of set.marks own heard.now }
{
    let sum = u32::from(own) + sum_in(set, heard);
    let count = 1 + set.size();
    share(sum, count)
}

// One round: every node's new value, all from the values before it. That there are 64 nodes at most is what `valid` told `table`; a network is any
// value of its struct, and has no such fact of its own.
fn round(net: &Network, values: &[u16; 64]) -> [u16; 64]
    requires { net.now.nodes ≤ 64 }
    ensures { result ≡ round_by rule_of net.now.neighbours net.now.nodes values.now }
{
    let mut next = *values;
    for p in 0..net.nodes {
        let neighbours = NodeSet {
            marks: net.neighbours[p],
        };
        next[p] = mean(neighbours, values[p], values);
    }
    next
}

// The nodes' values after so many rounds.
fn values_after(net: &Network, rounds: u16) -> [u16; 64]
    requires { net.now.nodes ≤ 64 }
    ensures { result ≡ lockstep_of net.now rounds }
{
    let mut values = net.starts;
    for _ in 0..rounds {
        values = round(net, &values);
    }
    values
}

// The nodes' values into the buffer. "Table entries past the node count are not written."
fn fill(values: &[u16; 64], nodes: usize, out: &mut [u16])
    requires { (nodes ≤ 64) × (nodes ≤ length out.old) }
    ensures { out.new ≡ over_below (λ p. get_or values.now p 0) nodes out.old }
{
    out[..nodes].copy_from_slice(&values[..nodes]);
}

// The answer to a table of so many rounds, in a buffer of so many entries.
fn answer(net: &Network, rounds: u16, room: usize) -> Result<(), Refusal>
    ensures { answer_of result ≡ table_number net.now rounds room }
{
    if !net.valid() {
        Err(Refusal::NotInRange)
    } else if net.rounds < rounds {
        Err(Refusal::MoreRoundsThanPlanned)
    } else if room < net.nodes {
        Err(Refusal::BufferTooShort)
    } else {
        Ok(())
    }
}

// The lockstep table of so many rounds: each node's value, in the first entries of the buffer. A refused table writes nothing.
pub fn table(net: Network, rounds: u16, out: &mut [u16]) -> Result<(), Refusal>
    ensures table { (answer_of result ≡ table_number net rounds (length out.old)) × (out.new ≡ table_of net rounds out.old) }
    ensures long { length net.starts ≡ 64 }
{
    let answered = answer(&net, rounds, out.len());
    if let Ok(()) = answered {
        let values = values_after(&net, rounds);
        fill(&values, net.nodes, out);
    }
    answered
}
