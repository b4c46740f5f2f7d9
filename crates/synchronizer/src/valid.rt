// Answer 17 over any value of the struct, and the start state.
ghost use Rattle.std.specs.Prelude.{◌≡◌};
ghost use Rattle.synchronizer.specs.Entry.{in_range};
ghost use Rattle.synchronizer.specs.Start.{fresh_with, start_of};

use crate::{Done, State};
use answers::Refusal;
use network::Network;
use queue::Queues;
use ranges::state_fits;

// "all counts and slots are 0, queues are empty"
#[tactic(auto, unfolding(crate::specs::Start::fresh_with))]
fn fresh(values: [u16; 64]) -> State
    ensures { result ≡ fresh_with values }
{
    State {
        counts: [0; 5120],
        queues: Queues::EMPTY,
        slots: [0; 512],
        values,
    }
}

impl State {
    // Not 17: the network and the state are within their ranges.
    #[tactic(auto, using(laws::proofs::Choice::picks, network::proofs::Valid::valid_limits), unfolding(crate::specs::Entry::in_range, crate::specs::Valid::valid_state))]
    pub(crate) fn in_range(&self, net: &Network) -> bool
        ensures { result ≡ in_range net.now self.now }
    {
        net.valid()
            && state_fits(
                net.nodes as u8,
                net.links as u8,
                net.rounds,
                &self.counts,
                &self.queues,
                &self.slots,
                &self.values,
            )
    }

    #[tactic(auto, using(laws::proofs::Choice::picks), unfolding(crate::specs::Start::start_of))]
    // The start state: "values are the plan's"; "a start state refused by 17 is all zeros".
    pub fn start(net: Network) -> Done
        ensures { result ≡ start_of net }
    {
        if net.valid() {
            return Done {
                state: fresh(net.starts),
                answer: 0,
            };
        }
        Done {
            state: fresh([0; 64]),
            answer: Refusal::NotInRange.number(),
        }
    }
}
