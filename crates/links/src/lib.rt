// The list of links of a network: which two nodes a link joins, and whether some link joins two nodes. What the whole-plan checks
// 6, 9 and 10 say of links is said here.
#![tactic(auto)]

ghost use Rattle.std.specs.Prelude.{◌≡◌};
ghost use Rattle.links.specs.Links.{links_of, joins, has_link};

use network::Network;

// a and b are p and q, in whichever order.
#[tactic(auto, using(laws::proofs::Choice::picks), unfolding(crate::specs::Links::joins, crate::specs::Links::pair_is))]
pub fn joins(a: u8, b: u8, p: u8, q: u8) -> bool
    ensures { result ≡ joins a b p q }
{
    (a, b) == (p, q) || (a, b) == (q, p)
}

// Some link joins p and q. The list may claim any number of links, of which 128 are there to read.
pub fn has_link(net: &Network, p: u8, q: u8) -> bool
    ensures { result ≡ has_link net.now.lowers net.now.uppers (links_of net.now) p q }
{
    (0..net.links.min(128)).any(|l| joins(net.lowers[l], net.uppers[l], p, q))
}
