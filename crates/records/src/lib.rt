// A plan's bytes, record by record: a cursor that reads one record, rules 1 to 5, and the lists of the network that the records give.
#![tactic(auto)]

ghost use Rattle.std.specs.Prelude.{◌≡◌, ◌<◌, ◌≤◌};
ghost use Rattle.answers.specs.Numbers.{answer_of};
ghost use Rattle.records.specs.Planned.{planned_of, handed_of};
ghost use Rattle.records.specs.Record.{found_at, read_at};
ghost use Rattle.records.specs.Rules.{rounds_rule, node_rule, link_rule, end_rule, follows_of, rule_of};
ghost use Rattle.records.specs.Reader.{node_added, link_added, HasRoom, add_of, lists_of};

use answers::{Refusal, Refused};
use network::{Network, pair_rises, zeros};

// A record of a plan, by its kind: 0, 1, 2 and 3.
#[derive(Clone, Copy, Debug, PartialEq, Eq)]
pub enum Record {
    End,
    Rounds(u16),
    Node { number: u8, parent: u8, start: u16 },
    Link { a: u8, b: u8, flag: u8 },
}

#[derive(Clone, Copy)]
pub struct Cursor {
    pub at: usize,
}

// A plan that has been read: how many bytes it takes, and its network.
#[derive(Clone, Copy)]
pub struct Plan {
    pub taken: usize,
    pub network: Network,
}

impl Cursor {
    // The record at the cursor, and the cursor past it. "Every record is one byte of kind, then a body whose length the kind fixes"; "Two-byte
    // numbers have the high byte first".
    pub fn read(self, bytes: &[u8]) -> Result<(Record, Cursor), Refused>
        ensures { result ≡ found_at bytes.now self.at (read_at bytes.now self.at) }
    {
        let place = self.at;
        let [kind, body @ ..] = &bytes[place.min(bytes.len())..] else {
            return Err(Refused {
                refusal: Refusal::OutOfOrder,
                place: bytes.len(),
            });
        };
        match (*kind, body) {
            (0, _) => Ok((Record::End, Cursor { at: place + 1 })),
            (1, &[high, low, ..]) => {
                let rounds = u16::from_be_bytes([high, low]);
                Ok((Record::Rounds(rounds), Cursor { at: place + 3 }))
            }
            (2, &[number, parent, high, low, ..]) => {
                let start = u16::from_be_bytes([high, low]);
                let node = Record::Node {
                    number,
                    parent,
                    start,
                };
                Ok((node, Cursor { at: place + 5 }))
            }
            (3, &[a, b, flag, ..]) => Ok((Record::Link { a, b, flag }, Cursor { at: place + 4 })),
            (0..=3, _) => Err(Refused {
                refusal: Refusal::CutShort,
                place,
            }),
            _ => Err(Refused {
                refusal: Refusal::KindUnknown,
                place,
            }),
        }
    }
}

// The link (a, b) stands above the last one, if there is one: "compared as written before any range is looked at".
#[tactic(auto, using(laws::proofs::Choice::picks), unfolding(crate::specs::Rules::follows_of))]
fn follows(net: &Network, a: u8, b: u8) -> bool
    requires { net.now.links ≤ 128 }
    ensures { result ≡ follows_of net.now a b }
{
    match net.links {
        0 => true,
        links => pair_rises(net.lowers[links - 1], net.uppers[links - 1], a, b),
    }
}

#[tactic(auto, using(laws::proofs::Choice::picks), unfolding(crate::specs::Rules::rounds_rule))]
fn rounds_rule(rounds: u16, v: u16) -> Result<(), Refusal>
    ensures { answer_of result ≡ rounds_rule rounds v }
{
    if 0 < rounds {
        return Err(Refusal::OutOfOrder);
    }
    if v == 0 || 10000 < v {
        return Err(Refusal::OutOfRange);
    }
    Ok(())
}

#[tactic(auto, using(laws::proofs::Choice::picks), unfolding(crate::specs::Rules::node_rule))]
fn node_rule(net: &Network, number: u8) -> Result<(), Refusal>
    ensures { answer_of result ≡ node_rule net.now.rounds net.now.nodes net.now.links number }
{
    if net.rounds == 0 || 0 < net.links || number as usize != net.nodes {
        return Err(Refusal::OutOfOrder);
    }
    if 64 <= net.nodes {
        return Err(Refusal::TooMany);
    }
    Ok(())
}

// The ends and the flag by themselves, as the definition has them.
#[tactic(auto, using(laws::proofs::Choice::picks), unfolding(crate::specs::Rules::link_rule))]
fn link_rule(net: &Network, follows: bool, a: u8, b: u8, flag: u8) -> Result<(), Refusal>
    ensures { answer_of result ≡ link_rule net.now.nodes net.now.links follows a b flag }
{
    if net.nodes == 0 || !follows {
        return Err(Refusal::OutOfOrder);
    }
    if 128 <= net.links {
        return Err(Refusal::TooMany);
    }
    if a < b && (b as usize) < net.nodes && flag < 2 {
        Ok(())
    } else {
        Err(Refusal::OutOfRange)
    }
}

#[tactic(auto, using(laws::proofs::Choice::picks), unfolding(crate::specs::Rules::end_rule))]
fn end_rule(nodes: usize) -> Result<(), Refusal>
    ensures { answer_of result ≡ end_rule nodes }
{
    match nodes {
        0 => Err(Refusal::OutOfOrder),
        _ => Ok(()),
    }
}

// The lowest of 3, 4 and 5 that a record breaks after the records of the network.
fn rule(net: &Network, rec: Record) -> Result<(), Refusal>
    requires { net.now.links ≤ 128 }
    ensures { answer_of result ≡ rule_of net.now rec }
{
    match rec {
        Record::End => end_rule(net.nodes),
        Record::Rounds(v) => rounds_rule(net.rounds, v),
        Record::Node { number, .. } => node_rule(net, number),
        Record::Link { a, b, flag } => link_rule(net, follows(net, a, b), a, b, flag),
    }
}

#[tactic(auto, unfolding(crate::specs::Reader::node_added))]
fn add_node(net: &mut Network, parent: u8, start: u16)
    requires { net.old.nodes < 64 }
    ensures { net.new ≡ node_added net.old parent start }
{
    let n = net.nodes;
    net.parents[n] = parent;
    net.starts[n] = start;
    net.nodes += 1;
}

#[tactic(auto, unfolding(crate::specs::Reader::link_added))]
fn add_link(net: &mut Network, a: u8, b: u8, flag: u8)
    requires { net.old.links < 128 }
    ensures { net.new ≡ link_added net.old a b flag }
{
    let l = net.links;
    net.lowers[l] = a;
    net.uppers[l] = b;
    net.flags[l] = flag;
    net.links += 1;
}

// One more record in the network's lists.
#[tactic(auto, unfolding(crate::specs::Reader::rounds_added))]
fn add(net: &mut Network, rec: Record)
    requires { HasRoom net.old rec }
    ensures { net.new ≡ add_of net.old rec }
{
    match rec {
        Record::End => {}
        Record::Rounds(v) => net.rounds = v,
        Record::Node { parent, start, .. } => add_node(net, parent, start),
        Record::Link { a, b, flag } => add_link(net, a, b, flag),
    }
}

// The records of a plan, from the first to kind 0 or to the first fault: 1 to 5. The sets of an accepted plan's network are still empty.
pub fn read_lists(bytes: &[u8]) -> Result<Plan, Refused>
    ensures { planned_of result ≡ lists_of bytes.now }
{
    let mut network = zeros();
    let taken = read_lists_into(bytes, &mut network)?;
    Ok(Plan { taken, network })
}

// The same into a network that is lent: "A refused plan hands back a network of zeros". The lists grow apart from it, and are put into it at kind 0.
pub fn read_lists_into(bytes: &[u8], network: &mut Network) -> Result<usize, Refused>
    ensures { handed_of result network.new ≡ lists_of bytes.now }
{
    *network = zeros();
    let mut lists = zeros();
    let mut cursor = Cursor { at: 0 };
    loop {
        let (rec, next) = cursor.read(bytes)?;
        if let Err(refusal) = rule(&lists, rec) {
            let place = cursor.at;
            return Err(Refused { refusal, place });
        }
        if rec == Record::End {
            *network = lists;
            return Ok(next.at);
        }
        add(&mut lists, rec);
        cursor = next;
    }
}
