// What the counts of a state say: how often each action was taken, and whether a word has come for the round that is next.
#![tactic(auto)]

ghost use Rattle.std.specs.Prelude.{◌≡◌, true, ◌<◌, ltb};
ghost use Rattle.actions.specs.Kinds.{count_in};
ghost use Rattle.counts.specs.Counts.{children_have};

use actions::{Counter, Kind};
use nodeset::NodeSet;

// A count that is below another can rise: what `<` alone does not tell its caller.
pub fn below(n: u16, has: u16) -> bool
    ensures { (result ≡ ltb n has) × (result ≡ true → n < 65535) }
{
    n < has
}

// The count is above n.
pub fn above(counts: &[u16; 5120], n: u16, c: Counter) -> bool
    ensures { result ≡ ltb n (count_in counts.now c) }
{
    n < counts[actions::cell(c)]
}

// The word came from every child in the set.
pub fn children_have(counts: &[u16; 5120], word: Kind, n: u16, set: NodeSet) -> bool
    ensures { result ≡ children_have counts.now word n set.marks }
{
    set.members()
        .all(|c| above(counts, n, Counter(word, c as u8)))
}
