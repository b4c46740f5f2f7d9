// What an entry point asks: 17 first, then over the wires that the network gives.
ghost use Rattle.std.specs.Prelude.{◌≡◌};
ghost use Rattle.std.specs.Result.{result_unwrap_or};
ghost use Rattle.answers.specs.Numbers.{answer_of};
ghost use Rattle.synchronizer.specs.Entry.{done, acted, ran, done_of, act_of, list_of};

use crate::State;
use crate::runner::Ended;
use crate::wires::Wires;
use actions::Kind;
use answers::Refusal;
use network::Network;

impl State {
    // An action by its kind.
    pub(crate) fn by_kind(&mut self, net: &Network, kind: Kind, p: u8, q: u8) -> Result<(), Refusal>
        ensures { done (answer_of result) self.new ≡ done_of net.now self.old kind p q }
    {
        if !self.in_range(net) {
            return Err(Refusal::NotInRange);
        }
        self.take(&Wires::of(net), kind, p, q)
    }

    // One action from bytes, and how many it has.
    pub(crate) fn by_record(&mut self, net: &Network, bytes: &[u8]) -> Result<usize, Refusal>
        ensures { acted (answer_of result) (result_unwrap_or result 0) self.new ≡ act_of net.now self.old bytes.now }
    {
        if !self.in_range(net) {
            return Err(Refusal::NotInRange);
        }
        self.turn(&Wires::of(net), bytes, 0)
    }

    // A list of actions from bytes.
    pub(crate) fn by_list(&mut self, net: &Network, bytes: &[u8]) -> Ended
        ensures { ran (answer_of result.outcome) result.place result.taken self.new ≡ list_of net.now self.old bytes.now }
    {
        if !self.in_range(net) {
            let outcome = Err(Refusal::NotInRange);
            return Ended {
                outcome,
                place: 0,
                taken: 0,
            };
        }
        self.go_through(&Wires::of(net), bytes)
    }
}
