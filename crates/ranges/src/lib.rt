// The state half of answer 17, over the arrays of any state. Each row and each list is gone through once from end to end, with what is wrong of each entry gathered
// into one number by `fold`, and not by `all`, which stops at the first: so that the loops go many entries at a time. Each `fold` is a function of
// its own, and its contract the same fold over the lists; `proofs/Gathered.antt` says once what such a number being 0 means.
#![tactic(auto)]

ghost use Rattle.std.specs.Prelude.{◌≡◌, ◌-◌, ◌/◌, ◌%◌, bit_or, length, get_or, zip};
ghost use Rattle.std.specs.List.{fold, list_all};
ghost use Rattle.laws.specs.Choice.{if_lt, if_eq};
ghost use Rattle.laws.specs.Below.{list_below};
ghost use Rattle.ranges.specs.Fits.{row_within, counts_fit, lengths_fit, sort_fault, sorts_fit, load_fault, loads_fit, rest_fits, state_fits};

use queue::{ACK, PACKET, Queues};

// The most that each place of a row may hold: only the places in use are written.
fn limits(used: usize, most: u16) -> [u16; 256]
    ensures { result ≡ list_below (λ x. if_lt x used most 0) 256 }
{
    let mut limits = [0; 256];
    limits[..used.min(256)].fill(most);
    limits
}

// By how much each count is above the most that it may be.
fn excess(row: &[u16], limits: &[u16]) -> u16
    ensures { result ≡ fold (λ f p. bit_or f (p.0 - p.1)) 0 (zip row.now limits.now) }
{
    row.iter()
        .zip(limits)
        .fold(0, |faults, (n, most)| faults | n.saturating_sub(*most))
}

// A kind with one node number in its body has a count for each node, one with two a count for each direction. The branch stands outside the loop:
// behind a choice of the limits the entries would be gone through one at a time.
fn kind_fits(row: &[u16; 256], body: u8, nodes: &[u16; 256], lanes: &[u16; 256]) -> bool
    ensures { result ≡ row_within row.now (if_eq body 1 nodes.now lanes.now) }
{
    if body == 1 {
        excess(row, nodes) == 0
    } else {
        excess(row, lanes) == 0
    }
}

fn rows_fit(rows: &[[u16; 256]], bodies: &[u8], nodes: &[u16; 256], lanes: &[u16; 256]) -> bool
    ensures { result ≡ list_all (λ p. row_within p.0 (if_eq p.1 1 nodes.now lanes.now)) (zip rows.now bodies.now) }
{
    rows.iter()
        .zip(bodies)
        .all(|(row, body)| kind_fits(row, *body, nodes, lanes))
}

// "a count is above rounds"; past the node or link count it is 0.
fn counts_fit(nodes: u8, links: u8, rounds: u16, counts: &[u16; 5120]) -> bool
    ensures { result ≡ counts_fit nodes links rounds counts.now }
{
    let of_nodes = limits(nodes as usize, rounds);
    let of_lanes = limits((links as usize) * 2, rounds);
    let bodies = actions::bodies();
    let (rows, _) = counts.as_chunks::<256>();
    rows_fit(rows, &bodies, &of_nodes, &of_lanes)
}

fn length_faults(lens: &[u8], most: u8) -> u8
    ensures { result ≡ fold (λ f len. bit_or f (len - most)) 0 lens.now }
{
    lens.iter()
        .fold(0, |faults, len| faults | len.saturating_sub(most))
}

// "a queue is said to hold more than two"; past the link count it holds none.
fn lengths_fit(links: u8, lens: &[u8; 256]) -> bool
    ensures { result ≡ lengths_fit links lens.now }
{
    let (in_use, rest) = lens.split_at(((links as usize) * 2).min(256));
    length_faults(in_use, 2) | length_faults(rest, 0) == 0
}

// For each place of each queue whether it holds a message, in the order of the sorts, so that these are gone through many at a time.
fn places(lens: &[u8; 256]) -> [u8; 512]
    ensures { result ≡ list_below (λ e. if_lt (e % 2) (get_or lens.now (e / 2) 0) 1 0) 512 }
{
    let mut places = [0; 512];
    for (d, len) in lens.iter().enumerate() {
        places[d * 2] = u8::from(0 < *len);
        places[d * 2 + 1] = u8::from(1 < *len);
    }
    places
}

// What is wrong of a sort at a place that holds a message, and at one that does not.
#[tactic(auto, using(laws::proofs::Choice::picks), unfolding(crate::specs::Fits::sort_fault))]
fn sort_fault(held: u8, sort: u8) -> u8
    ensures { result ≡ sort_fault held sort }
{
    if held == 0 {
        sort
    } else if sort == PACKET || sort == ACK {
        0
    } else {
        1
    }
}

fn sort_faults(places: &[u8], sorts: &[u8]) -> u8
    ensures { result ≡ fold (λ f p. bit_or f (sort_fault p.0 p.1)) 0 (zip places.now sorts.now) }
{
    places.iter().zip(sorts).fold(0, |faults, (held, sort)| faults | sort_fault(*held, *sort))
}

fn sorts_fit(lens: &[u8; 256], sorts: &[u8; 512]) -> bool
    ensures { result ≡ sorts_fit lens.now sorts.now }
{
    sort_faults(&places(lens), sorts) == 0
}

// Beside a packet any value stands; beside anything else none.
#[tactic(auto, using(laws::proofs::Choice::picks), unfolding(crate::specs::Fits::load_fault))]
fn load_fault(sort: u8, load: u16) -> u16
    ensures { result ≡ load_fault sort load }
{
    if sort == PACKET { 0 } else { load }
}

// Beside `sort_faults`, and not one function over any fault: its contract would speak of what a closure may return, and say less plainly what a
// line of code says here.
fn load_faults(sorts: &[u8], loads: &[u16]) -> u16
    ensures { result ≡ fold (λ f p. bit_or f (load_fault p.0 p.1)) 0 (zip sorts.now loads.now) }
{
    sorts.iter().zip(loads).fold(0, |faults, (sort, load)| faults | load_fault(*sort, *load))
}

fn loads_fit(sorts: &[u8; 512], loads: &[u16; 512]) -> bool
    ensures { result ≡ loads_fit sorts.now loads.now }
{
    load_faults(sorts, loads) == 0
}

fn rest_faults(rest: &[u16]) -> u16
    ensures { result ≡ fold bit_or 0 rest.now }
{
    rest.iter().fold(0, |faults, x| faults | *x)
}

// Nothing stands past the entries in use.
fn rest_fits(xs: &[u16], used: usize) -> bool
    ensures { result ≡ rest_fits used xs.now (length xs.now) }
{
    rest_faults(&xs[used.min(xs.len())..]) == 0
}

// The arrays of a state, for a network of so many nodes, links and rounds. Seven parameters, as the definition has them: `State` stands in
// synchronizer, above this crate.
#[tactic(auto, using(laws::proofs::Choice::picks), unfolding(crate::specs::Fits::state_fits, laws::specs::Choice::both, laws::specs::Choice::if_b))]
pub fn state_fits(
    nodes: u8,
    links: u8,
    rounds: u16,
    counts: &[u16; 5120],
    queues: &Queues,
    slots: &[u16; 512],
    values: &[u16; 64],
) -> bool
    ensures { result ≡ state_fits nodes links rounds counts.now queues.now.lens queues.now.sorts queues.now.loads slots.now values.now }
{
    counts_fit(nodes, links, rounds, counts)
        && lengths_fit(links, &queues.lens)
        && sorts_fit(&queues.lens, &queues.sorts)
        && loads_fit(&queues.sorts, &queues.loads)
        && rest_fits(slots, (links as usize) * 4)
        && rest_fits(values, nodes as usize)
}
