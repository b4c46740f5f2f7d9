// The synchronizer: a state by value, its start, the state half of answer 17, the twenty actions, one action from bytes and a list of them.
#![tactic(auto)]

mod effect;
mod entry;
mod runner;
mod test;
mod valid;
mod wires;

ghost use Rattle.std.specs.Prelude.{◌≡◌};
ghost use Rattle.answers.specs.Numbers.{answer_of};
ghost use Rattle.actions.specs.declared.Kind.TheVariants.{Output, PacketSent, PacketDelivered, AckSent, AckDelivered, Ok, SubtreeOkSent, SubtreeOkDelivered, ClusterOk, DownSent, DownDelivered, PreferredSent, PreferredDelivered, UpSent, UpDelivered, ClusterGo, SubtreeGoSent, SubtreeGoDelivered, Go, Input};
ghost use Rattle.synchronizer.specs.Entry.{done_of, act_of, list_of};
ghost use Rattle.synchronizer.specs.Valid.{Sized};

use actions::Kind;
use answers::Refusal;
use network::Network;
use queue::Queues;

// What the bench holds between actions.
#[derive(Clone, Copy)]
pub struct State {
    // how often each action was taken: a row of 256 for each kind, by node or by direction
    pub counts: [u16; 5120],
    // the messages that wait, by direction
    pub queues: Queues,
    // for each direction the last packet heard of an even and of an odd round
    pub slots: [u16; 512],
    // each node's value
    pub values: [u16; 64],
}

// An action's answer, and the state that follows it: a number and no Result, since a refusal hands the state back too, and `Judged` of guarantees/
// speaks of `answer`. The state stands first: no byte is left over between the two, and a state that is handed
// on is copied as one.
#[derive(Clone, Copy)]
pub struct Done {
    pub state: State,
    pub answer: u8,
}

// One action from bytes: with answer 0 the place is the bytes read.
#[derive(Clone, Copy)]
pub struct Acted {
    pub answer: u8,
    pub place: usize,
    pub state: State,
}

// A list of actions: where it stopped, and how many were taken.
#[derive(Clone, Copy)]
pub struct Ran {
    pub answer: u8,
    pub place: usize,
    pub taken: usize,
    pub state: State,
}

// 0 for what is taken, else the number of its refusal.
fn number<T: Copy>(outcome: Result<T, Refusal>) -> u8
    ensures { result ≡ answer_of outcome }
{
    match outcome {
        Ok(_) => 0,
        Err(refusal) => refusal.number(),
    }
}

impl State {
    // An action by its kind: the answer, and the state after it.
    fn action(mut self, net: Network, kind: Kind, p: u8, q: u8) -> Done
        ensures answer { result ≡ done_of net self kind p q }
        ensures sized { Sized self }
    {
        let answer = number(self.by_kind(&net, kind, p, q));
        Done {
            state: self,
            answer,
        }
    }

    // Document 01 fixes the twenty methods, each by its name, with a state handed in and handed back.

    // 16, "i ≤ rounds; inputs of p at least i − 1".
    pub fn output(self, net: Network, p: u8) -> Done
        ensures answer { result ≡ done_of net self Output p p }
        ensures sized { Sized self }
    {
        self.action(net, Kind::Output, p, p)
    }

    // 17, "p has output".
    pub fn packet_sent(self, net: Network, p: u8, q: u8) -> Done
        ensures answer { result ≡ done_of net self PacketSent p q }
        ensures sized { Sized self }
    {
        self.action(net, Kind::PacketSent, p, q)
    }

    // 18, "sent; a packet is first on p to q".
    pub fn packet_delivered(self, net: Network, p: u8, q: u8) -> Done
        ensures answer { result ≡ done_of net self PacketDelivered p q }
        ensures sized { Sized self }
    {
        self.action(net, Kind::PacketDelivered, p, q)
    }

    // 19, "packet q to p delivered".
    pub fn ack_sent(self, net: Network, p: u8, q: u8) -> Done
        ensures answer { result ≡ done_of net self AckSent p q }
        ensures sized { Sized self }
    {
        self.action(net, Kind::AckSent, p, q)
    }

    // 20, "sent; an ack is first on p to q".
    pub fn ack_delivered(self, net: Network, p: u8, q: u8) -> Done
        ensures answer { result ≡ done_of net self AckDelivered p q }
        ensures sized { Sized self }
    {
        self.action(net, Kind::AckDelivered, p, q)
    }

    // 21, "output; ack delivered from every neighbour".
    pub fn ok(self, net: Network, p: u8) -> Done
        ensures answer { result ≡ done_of net self Ok p p }
        ensures sized { Sized self }
    {
        self.action(net, Kind::Ok, p, p)
    }

    // 22, to p's parent: "p has ok, and subtree ok delivered from every child".
    pub fn subtree_ok_sent(self, net: Network, p: u8) -> Done
        ensures answer { result ≡ done_of net self SubtreeOkSent p p }
        ensures sized { Sized self }
    {
        self.action(net, Kind::SubtreeOkSent, p, p)
    }

    // 23, "sent".
    pub fn subtree_ok_delivered(self, net: Network, p: u8) -> Done
        ensures answer { result ≡ done_of net self SubtreeOkDelivered p p }
        ensures sized { Sized self }
    {
        self.action(net, Kind::SubtreeOkDelivered, p, p)
    }

    // 24, by a root: "same needs as 22".
    pub fn cluster_ok(self, net: Network, p: u8) -> Done
        ensures answer { result ≡ done_of net self ClusterOk p p }
        ensures sized { Sized self }
    {
        self.action(net, Kind::ClusterOk, p, p)
    }

    // 25, to p by its parent: "parent knows".
    pub fn down_sent(self, net: Network, p: u8) -> Done
        ensures answer { result ≡ done_of net self DownSent p p }
        ensures sized { Sized self }
    {
        self.action(net, Kind::DownSent, p, p)
    }

    // 26, "sent".
    pub fn down_delivered(self, net: Network, p: u8) -> Done
        ensures answer { result ≡ done_of net self DownDelivered p p }
        ensures sized { Sized self }
    {
        self.action(net, Kind::DownDelivered, p, p)
    }

    // 27, "p knows".
    pub fn preferred_sent(self, net: Network, p: u8, q: u8) -> Done
        ensures answer { result ≡ done_of net self PreferredSent p q }
        ensures sized { Sized self }
    {
        self.action(net, Kind::PreferredSent, p, q)
    }

    // 28, "sent".
    pub fn preferred_delivered(self, net: Network, p: u8, q: u8) -> Done
        ensures answer { result ≡ done_of net self PreferredDelivered p q }
        ensures sized { Sized self }
    {
        self.action(net, Kind::PreferredDelivered, p, q)
    }

    // 29, to p's parent: "p knows, up delivered from every child, preferred word delivered to p on each of its preferred links".
    pub fn up_sent(self, net: Network, p: u8) -> Done
        ensures answer { result ≡ done_of net self UpSent p p }
        ensures sized { Sized self }
    {
        self.action(net, Kind::UpSent, p, p)
    }

    // 30, "sent".
    pub fn up_delivered(self, net: Network, p: u8) -> Done
        ensures answer { result ≡ done_of net self UpDelivered p p }
        ensures sized { Sized self }
    {
        self.action(net, Kind::UpDelivered, p, p)
    }

    // 31, by a root: "same needs as 29".
    pub fn cluster_go(self, net: Network, p: u8) -> Done
        ensures answer { result ≡ done_of net self ClusterGo p p }
        ensures sized { Sized self }
    {
        self.action(net, Kind::ClusterGo, p, p)
    }

    // 32, to p by its parent: "parent may go".
    pub fn subtree_go_sent(self, net: Network, p: u8) -> Done
        ensures answer { result ≡ done_of net self SubtreeGoSent p p }
        ensures sized { Sized self }
    {
        self.action(net, Kind::SubtreeGoSent, p, p)
    }

    // 33, "sent".
    pub fn subtree_go_delivered(self, net: Network, p: u8) -> Done
        ensures answer { result ≡ done_of net self SubtreeGoDelivered p p }
        ensures sized { Sized self }
    {
        self.action(net, Kind::SubtreeGoDelivered, p, p)
    }

    // 34, "p may go".
    pub fn go(self, net: Network, p: u8) -> Done
        ensures answer { result ≡ done_of net self Go p p }
        ensures sized { Sized self }
    {
        self.action(net, Kind::Go, p, p)
    }

    // 35, "p has go".
    pub fn input(self, net: Network, p: u8) -> Done
        ensures answer { result ≡ done_of net self Input p p }
        ensures sized { Sized self }
    {
        self.action(net, Kind::Input, p, p)
    }

    // One action from bytes: 17, then the record's answer. Bytes after the record are not read.
    pub fn act(mut self, net: Network, bytes: &[u8]) -> Acted
        ensures answer { result ≡ act_of net self bytes.now }
        ensures sized { Sized self }
    {
        let read = self.by_record(&net, bytes);
        Acted {
            answer: number(read),
            place: read.unwrap_or(0),
            state: self,
        }
    }

    // A list of actions from bytes: 17 once, then one record after the other up to the first refusal. A turn reaches the state where it stands.
    pub fn run(mut self, net: Network, bytes: &[u8]) -> Ran
        ensures answer { result ≡ list_of net self bytes.now }
        ensures sized { Sized self }
    {
        let ended = self.by_list(&net, bytes);
        Ran {
            answer: number(ended.outcome),
            place: ended.place,
            taken: ended.taken,
            state: self,
        }
    }
}
