// What an action that is taken changes, besides its count.
ghost use Rattle.std.specs.Prelude.{◌≡◌, ◌<◌, get_or};
ghost use Rattle.answers.specs.Numbers.{answer_of};
ghost use Rattle.queue.specs.Queue.{slot_at};
ghost use Rattle.synchronizer.specs.Wires.{lane_in};
ghost use Rattle.synchronizer.specs.After.{mean_heard, effect_in};
ghost use Rattle.synchronizer.specs.Entry.{done, done_in};

use crate::State;
use crate::wires::Wires;
use actions::{Counter, Does, Kind, cell, does_of};
use answers::Refusal;
use lockstep::mean;
use queue::Message;

impl State {
    // The packet of round i's parity that p heard last from q.
    fn last_heard(&self, wires: &Wires, q: u8, p: u8, i: u16) -> u16
        requires { (q < 64) × (p < 64) }
        ensures { result ≡ get_or self.now.slots (slot_at (lane_in wires.now.lanes q p) i) 0 }
    {
        let d = wires.lane(q, p) as usize;
        self.slots[d * 2 + (i % 2) as usize]
    }

    // "(own value + the values in the slots of i's parity from each neighbour) divided by (1 + number of neighbours)", to the nearest whole number
    fn mean_heard(&self, wires: &Wires, p: u8, i: u16) -> u16
        requires { p < 64 }
        ensures { result ≡ mean_heard wires.now.lanes self.now.slots (get_or wires.now.neighbours p 0) p (get_or self.now.values p 0) i }
    {
        let set = wires.neighbours(p);
        let mut heard = [0u16; 64];
        for q in set.members() {
            heard[q] = self.last_heard(wires, q as u8, p, i);
        }
        mean(set, self.values[p as usize], &heard)
    }

    // d is the direction from p to q, and the action is taken the i-th time: each by itself, as `effect_in` has them.
    fn effect(&mut self, wires: &Wires, does: Does, p: u8, d: u8, i: u16)
        requires { p < 64 }
        ensures { self.new ≡ effect_in wires.now does p d i self.old }
    {
        let x = p as usize;
        match does {
            Does::Starts | Does::Counts => {}
            Does::SendsPacket => self.queues.send(d, Message::Packet(self.values[x])),
            Does::SendsAck => self.queues.send(d, Message::Ack),
            Does::TakesPacket => self.queues.deliver(&mut self.slots, d, i),
            Does::TakesAck => self.queues.pop(d),
            Does::Means => self.values[x] = self.mean_heard(wires, p, i),
        }
    }

    // An action: where it is taken the state after it, else the state as it is and the refusal.
    pub(crate) fn take(&mut self, wires: &Wires, kind: Kind, p: u8, q: u8) -> Result<(), Refusal>
        ensures { done (answer_of result) self.new ≡ done_in wires.now self.old kind p q }
    {
        let sub = self.test(wires, kind, p, q)?;
        let own = cell(Counter(kind, sub));
        let i = self.counts[own] + 1;
        self.counts[own] = i;
        self.effect(wires, does_of(kind), p, sub, i);
        Ok(())
    }
}
