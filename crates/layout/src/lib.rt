// "Lay out the clusters from the wire list": a plan whose parents and flags nobody filled in, and a depth, in; the same plan with its clusters laid
// out, in a lent buffer. (document 02, W4)
#![tactic(auto)]

ghost use Rattle.std.specs.Prelude.{◌≡◌, ℕ, ◌+◌, ◌*◌, ◌<◌, length};
ghost use Rattle.laws.specs.Lists.{Bytes};
ghost use Rattle.links.specs.Links.{links_of};
ghost use Rattle.layout.specs.Laid.{laid_of};
ghost use Rattle.layout.specs.Layout.{with_fields, flag_by, met_with, first_flags, Clustered, LaysOut, laid_over, layout_of, laid_in};

use answers::{Refusal, Refused, none_at};
use clusters::{root_at, root_table};
use joined::first_unjoined;
use network::Network;
use nodeset::NodeSet;
use records::{Plan, read_lists};

// "depth above 63"
const DEEPEST: usize = 63;

// A plan's bytes: kind 1 takes 3, a node 5 with its parent behind kind and number, a link 4 with its flag last.
const NODES_AT: usize = 3;

const NODE_WIDTH: usize = 5;

const PARENT_AT: usize = 2;

const LINK_WIDTH: usize = 4;

const FLAG_AT: usize = 3;

// The flag of a link between the clusters x and y: 1 if it is the first between these two. `met` has for each cluster those that a link before
// this one joins to it, as marks, which `flag_by` goes by.
fn flag(met: &mut [u64; 64], x: u8, y: u8) -> u8
    requires { (x < 64) × (y < 64) }
    ensures { (result ≡ flag_by met.old x y) × (met.new ≡ met_with met.old x y) }
{
    let (from, to) = (x as usize, y as usize);
    let known = NodeSet { marks: met[from] };
    if x == y || known.contains(to) {
        return 0;
    }
    met[from] = known.insert(to).marks;
    met[to] = NodeSet { marks: met[to] }.insert(from).marks;
    1
}

// "The preferred link of two joined clusters is the first in the list", in one pass over the links.
fn first_flags(roots: &[u8; 64], net: &Network) -> [u8; 128]
    requires { Clustered roots.now net.now.lowers net.now.uppers (links_of net.now) }
    ensures { result ≡ first_flags roots.now net.now.lowers net.now.uppers (links_of net.now) }
{
    let mut met = [0u64; 64];
    let mut flags = [0u8; 128];
    for l in 0..net.links.min(128) {
        let x = root_at(roots, net.lowers[l]);
        let y = root_at(roots, net.uppers[l]);
        flags[l] = flag(&mut met, x, y);
    }
    flags
}

// One field of each of the records that stand `width` bytes apart, from place `at` on.
fn put_fields(fields: &[u8], at: usize, width: usize, out: &mut [u8])
    requires { (k : ℕ) → k < length fields.now → at + width * k < length out.old }
    ensures { out.new ≡ with_fields fields.now (length fields.now) at width out.old }
{
    for (k, field) in fields.iter().enumerate() {
        out[at + width * k] = *field;
    }
}

// Byte by byte, and not by `copy_from_slice`, which calls `memmove`: what links the library has to bring memcpy and memset alone.
fn copy(bytes: &[u8], out: &mut [u8])
    requires { length out.old ≡ length bytes.now }
    ensures { out.new ≡ bytes.now }
{
    for (at, byte) in bytes.iter().enumerate() {
        out[at] = *byte;
    }
}

// The plan with its network's parents and flags laid out anew.
fn lay(bytes: &[u8], plan: Plan, depth: u8, out: &mut [u8])
    requires { LaysOut bytes.now plan.taken plan.network depth (length out.old) }
    ensures { out.new ≡ laid_over bytes.now plan.taken plan.network depth out.old }
{
    let Plan { taken, network } = plan;
    let nodes = network.nodes.min(64);
    let links = network.links.min(128);
    let parents = claims::parents(&network.neighbours, nodes, depth);
    let flags = first_flags(&root_table(&parents, nodes), &network);
    let flags_at = NODES_AT + NODE_WIDTH * nodes + FLAG_AT;
    copy(&bytes[..taken], &mut out[..taken]);
    put_fields(&parents[..nodes], NODES_AT + PARENT_AT, NODE_WIDTH, out);
    put_fields(&flags[..links], flags_at, LINK_WIDTH, out);
}

// Any bytes, any depth, any buffer: how many bytes were written, which is the plan's length, and the buffer begins with the plan laid out; or 1 to 5
// as the plan reader, 10, 22, 23, in this order, and nothing is written.
pub fn layout(bytes: &[u8], depth: usize, out: &mut [u8]) -> Result<usize, Refused>
    ensures answer { laid_of result ≡ layout_of bytes.now depth (length out.old) }
    ensures written { out.new ≡ laid_in bytes.now depth out.old }
    ensures small { Bytes bytes.now }
{
    let Plan { taken, network } = read_lists(bytes)?;
    let network = network.with_sets();
    none_at(first_unjoined(network), Refusal::Unjoined)?;
    let place = 0;
    if DEEPEST < depth {
        let refusal = Refusal::TooDeep;
        return Err(Refused { refusal, place });
    }
    if out.len() < taken {
        let refusal = Refusal::NoRoom;
        return Err(Refused { refusal, place });
    }
    lay(bytes, Plan { taken, network }, depth as u8, out);
    Ok(taken)
}
