// "Each direction of a link is one queue, first in first out, shared by packets and acks, with room for two." Direction d has the places 2 d
// and 2 d + 1 of the arrays of sorts and loads.
#![tactic(auto)]

ghost use Rattle.std.specs.Prelude.{◌≡◌, get_or};
ghost use Rattle.answers.specs.Numbers.{answer_of};
ghost use Rattle.queue.specs.Queue.{head_of, packet_first, ack_first, room_answer, sort_of, load_of, pushed, popped, heard_in};

use answers::Refusal;

// The sorts of a waiting message stay bytes in the arrays: a state that is handed in may hold any byte there, and is told from a sound one.
pub const PACKET: u8 = 1;

pub const ACK: u8 = 2;

// A message that joins a queue: a packet carries a value.
#[derive(Clone, Copy, Debug, PartialEq, Eq)]
pub enum Message {
    Packet(u16),
    Ack,
}

impl Message {
    fn sort(self) -> u8
        ensures { result ≡ sort_of self }
    {
        match self {
            Message::Packet(_) => PACKET,
            Message::Ack => ACK,
        }
    }

    fn load(self) -> u16
        ensures { result ≡ load_of self }
    {
        match self {
            Message::Packet(value) => value,
            Message::Ack => 0,
        }
    }
}

// The first message of a queue.
#[derive(Clone, Copy, Debug, PartialEq, Eq)]
pub enum Head {
    Packet(u16),
    Ack,
    Empty,
}

// The queues of all directions: how many wait, and for each of the two places the sort (0 none, 1 packet, 2 ack) and the value carried.
#[derive(Clone, Copy)]
pub struct Queues {
    pub lens: [u8; 256],
    pub sorts: [u8; 512],
    pub loads: [u16; 512],
}

impl Queues {
    pub const EMPTY: Queues = Queues {
        lens: [0; 256],
        sorts: [0; 512],
        loads: [0; 512],
    };

    #[tactic(auto, using(laws::proofs::Choice::picks), unfolding(crate::specs::Queue::head_of))]
    pub fn first(&self, d: u8) -> Head
        ensures { result ≡ head_of self.now.lens self.now.sorts self.now.loads d }
    {
        let i = d as usize;
        let at = i * 2;
        if self.lens[i] == 0 {
            return Head::Empty;
        }
        match self.sorts[at] {
            PACKET => Head::Packet(self.loads[at]),
            ACK => Head::Ack,
            _ => Head::Empty,
        }
    }

    // Beside `ack_first`, each by a `let .. else` of its own: the form that document 01 names for a delivery whose message is of the other sort.
    #[tactic(auto, unfolding(crate::specs::Queue::packet_first))]
    pub fn packet_first(&self, d: u8) -> Result<(), Refusal>
        ensures { answer_of result ≡ packet_first (head_of self.now.lens self.now.sorts self.now.loads d) }
    {
        let Head::Packet(_) = self.first(d) else {
            return Err(Refusal::NeedMissing);
        };
        Ok(())
    }

    #[tactic(auto, unfolding(crate::specs::Queue::ack_first))]
    pub fn ack_first(&self, d: u8) -> Result<(), Refusal>
        ensures { answer_of result ≡ ack_first (head_of self.now.lens self.now.sorts self.now.loads d) }
    {
        let Head::Ack = self.first(d) else {
            return Err(Refusal::NeedMissing);
        };
        Ok(())
    }

    // Two messages fill a queue.
    #[tactic(auto, using(laws::proofs::Choice::picks), unfolding(crate::specs::Queue::room_answer))]
    pub fn room(&self, d: u8) -> Result<(), Refusal>
        ensures { answer_of result ≡ room_answer (get_or self.now.lens d 0) }
    {
        if self.lens[d as usize] < 2 {
            Ok(())
        } else {
            Err(Refusal::QueueFull)
        }
    }

    // One more entry at the end of the queue: a byte for its sort, since its contract takes every byte.
    #[tactic(auto, using(laws::proofs::Choice::picks), unfolding(crate::specs::Queue::pushed))]
    pub fn push(&mut self, d: u8, sort: u8, load: u16)
        ensures { self.new ≡ pushed self.old d sort load }
    {
        let i = d as usize;
        let n = self.lens[i];
        if n < 2 {
            let at = i * 2 + n as usize;
            self.lens[i] = n + 1;
            self.sorts[at] = sort;
            self.loads[at] = load;
        }
    }

    // One more message at the end of the queue.
    pub fn send(&mut self, d: u8, message: Message)
        ensures { self.new ≡ pushed self.old d (sort_of message) (load_of message) }
    {
        self.push(d, message.sort(), message.load());
    }

    // The first message leaves, the second moves up, and its place is cleared.
    #[tactic(auto, using(laws::proofs::Choice::picks), unfolding(crate::specs::Queue::popped, crate::specs::Queue::moved_up))]
    pub fn pop(&mut self, d: u8)
        ensures { self.new ≡ popped self.old d }
    {
        let i = d as usize;
        let at = i * 2;
        let n = self.lens[i];
        if 0 < n {
            self.lens[i] = n - 1;
            self.sorts[at] = self.sorts[at + 1];
            self.sorts[at + 1] = 0;
            self.loads[at] = self.loads[at + 1];
            self.loads[at + 1] = 0;
        }
    }

    // "Delivery i puts it in the slot of i's parity": the first message leaves, and the value of a packet is the last one heard of an odd or of
    // an even round.
    #[tactic(auto, unfolding(crate::specs::Queue::heard_in))]
    pub fn deliver(&mut self, slots: &mut [u16; 512], d: u8, i: u16)
        ensures left { self.new ≡ popped self.old d }
        ensures heard { slots.new ≡ heard_in slots.old (head_of self.old.lens self.old.sorts self.old.loads d) d i }
    {
        let head = self.first(d);
        self.pop(d);
        let Head::Packet(value) = head else {
            return;
        };
        slots[(d as usize) * 2 + (i % 2) as usize] = value;
    }
}
