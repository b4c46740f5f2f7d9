// The test: which answer an action gets. Nothing here changes a state.
ghost use Rattle.std.specs.Prelude.{◌≡◌, true, ◌<◌, IfOk, get_or};
ghost use Rattle.laws.specs.Choice.{if_b, both};
ghost use Rattle.answers.specs.Numbers.{answer_of};
ghost use Rattle.actions.specs.Kinds.{count, count_in};
ghost use Rattle.actions.specs.Table.{own_of};
ghost use Rattle.actions.specs.declared.Kind.TheVariants.{Output, AckDelivered, SubtreeOkDelivered, UpDelivered, PreferredDelivered, Input};
ghost use Rattle.queue.specs.Queue.{head_of, packet_first, ack_first, room_answer};
ghost use Rattle.counts.specs.Counts.{children_have};
ghost use Rattle.synchronizer.specs.Wires.{lane_in, is_root};
ghost use Rattle.synchronizer.specs.Answer.{stands_in, count_answer, senders_have};
ghost use Rattle.synchronizer.specs.Shown.{Shows, RowShows, TestShows};

use crate::State;
use crate::wires::Wires;
use actions::Kind::{
    AckDelivered, AckSent, ClusterGo, ClusterOk, DownDelivered, DownSent, Go, Input, Output,
    PacketDelivered, PacketSent, PreferredDelivered, PreferredSent, SubtreeGoDelivered,
    SubtreeGoSent, SubtreeOkDelivered, SubtreeOkSent, UpDelivered, UpSent,
};
use actions::Place::{Child, Link, Node, PreferredLink, Root};
use actions::{Counter, Kind, Place, cell, own_of};
use answers::Refusal;
use counts::{above, below, children_have};
use nodeset::NodeSet;

// An action that is asked for, and of what.
#[derive(Clone, Copy)]
pub struct Asked<'a> {
    state: &'a State,
    wires: &'a Wires,
    kind: Kind,
    p: u8,
    q: u8,
    // both have a place in the tables
    ghost seated: { (p < 64) × (q < 64) },
}

// 16 where a word is missing.
#[tactic(auto, using(laws::proofs::Choice::picks))]
fn unless(told: bool) -> Result<(), Refusal>
    ensures { answer_of result ≡ if_b told 0 16 }
{
    if told {
        Ok(())
    } else {
        Err(Refusal::NeedMissing)
    }
}

impl Asked<'_> {
    // 14 where not: the nodes stand as the row asks.
    #[tactic(auto, unfolding(crate::specs::Answer::stands_in))]
    fn stands(&self, place: Place) -> bool
        ensures { result ≡ stands_in place (get_or self.now.wires.now.neighbours self.now.p 0) (get_or self.now.wires.now.preferred self.now.p 0) self.now.q (is_root self.now.wires.now.parents self.now.p) }
    {
        match place {
            Node => true,
            Link => self.wires.near(self.p, self.q),
            PreferredLink => self.wires.prefers(self.p, self.q),
            Child => !self.wires.is_root(self.p),
            Root => self.wires.is_root(self.p),
        }
    }

    // A count at p, one along the direction from p to q, and one along the direction back.
    fn at(&self, kind: Kind) -> Counter
        ensures { result ≡ count kind self.now.p }
    {
        Counter(kind, self.p)
    }

    fn along(&self, kind: Kind) -> Counter
        ensures { result ≡ count kind (lane_in self.now.wires.now.lanes self.now.p self.now.q) }
    {
        Counter(kind, self.lane())
    }

    fn back(&self, kind: Kind) -> Counter
        ensures { result ≡ count kind (lane_in self.now.wires.now.lanes self.now.q self.now.p) }
    {
        Counter(kind, self.wires.lane(self.q, self.p))
    }

    // The direction from p to q, and what its queue says.
    fn lane(&self) -> u8
        ensures { result ≡ lane_in self.now.wires.now.lanes self.now.p self.now.q }
    {
        self.wires.lane(self.p, self.q)
    }

    fn room(&self) -> Result<(), Refusal>
        ensures { answer_of result ≡ room_answer (get_or self.now.state.now.queues.lens (lane_in self.now.wires.now.lanes self.now.p self.now.q) 0) }
    {
        self.state.queues.room(self.lane())
    }

    fn packet_first(&self) -> Result<(), Refusal>
        ensures { answer_of result ≡ packet_first (head_of self.now.state.now.queues.lens self.now.state.now.queues.sorts self.now.state.now.queues.loads (lane_in self.now.wires.now.lanes self.now.p self.now.q)) }
    {
        self.state.queues.packet_first(self.lane())
    }

    fn ack_first(&self) -> Result<(), Refusal>
        ensures { answer_of result ≡ ack_first (head_of self.now.state.now.queues.lens self.now.state.now.queues.sorts self.now.state.now.queues.loads (lane_in self.now.wires.now.lanes self.now.p self.now.q)) }
    {
        self.state.queues.ack_first(self.lane())
    }

    // How often p took the action: it is about to take it once more.
    fn taken(&self) -> u16
        ensures { result ≡ count_in self.now.state.now.counts (count self.now.kind self.now.p) }
    {
        self.state.counts[cell(self.at(self.kind))]
    }

    // The word came to p from every node in the set.
    fn senders_have(&self, word: Kind, set: NodeSet) -> bool
        ensures { result ≡ senders_have self.now.state.now.counts self.now.wires.now.lanes word self.now.p (count_in self.now.state.now.counts (count self.now.kind self.now.p)) set.marks }
    {
        let (counts, n) = (&self.state.counts, self.taken());
        set.members().all(|q| above(counts, n, Counter(word, self.wires.lane(q as u8, self.p))))
    }

    // The word came to p from every child.
    fn children_have(&self, word: Kind) -> bool
        ensures { result ≡ children_have self.now.state.now.counts word (count_in self.now.state.now.counts (count self.now.kind self.now.p)) (get_or self.now.wires.now.children self.now.p 0) }
    {
        let set = self.wires.children(self.p);
        children_have(&self.state.counts, word, self.taken(), set)
    }

    // "Ack delivered from every neighbour."
    fn acks_told(&self) -> Result<(), Refusal>
        ensures { answer_of result ≡ if_b (senders_have self.now.state.now.counts self.now.wires.now.lanes AckDelivered self.now.p (count_in self.now.state.now.counts (count self.now.kind self.now.p)) (get_or self.now.wires.now.neighbours self.now.p 0)) 0 16 }
    {
        unless(self.senders_have(AckDelivered, self.wires.neighbours(self.p)))
    }

    // "Subtree ok delivered from every child."
    fn oks_told(&self) -> Result<(), Refusal>
        ensures { answer_of result ≡ if_b (children_have self.now.state.now.counts SubtreeOkDelivered (count_in self.now.state.now.counts (count self.now.kind self.now.p)) (get_or self.now.wires.now.children self.now.p 0)) 0 16 }
    {
        unless(self.children_have(SubtreeOkDelivered))
    }

    // "Up delivered from every child, preferred word delivered to p on each of its preferred links."
    fn ups_told(&self) -> Result<(), Refusal>
        ensures { answer_of result ≡ if_b (both (children_have self.now.state.now.counts UpDelivered (count_in self.now.state.now.counts (count self.now.kind self.now.p)) (get_or self.now.wires.now.children self.now.p 0)) (senders_have self.now.state.now.counts self.now.wires.now.lanes PreferredDelivered self.now.p (count_in self.now.state.now.counts (count self.now.kind self.now.p)) (get_or self.now.wires.now.preferred self.now.p 0))) 0 16 }
    {
        let links = self.wires.preferred(self.p);
        unless(self.children_have(UpDelivered) && self.senders_have(PreferredDelivered, links))
    }

    // "i ≤ rounds; inputs of p at least i − 1"
    #[tactic(auto, using(laws::proofs::Choice::picks), unfolding(crate::specs::Answer::count_answer))]
    fn may_begin(&self) -> Result<u8, Refusal>
        ensures { Shows self.now.state.now.counts Output self.now.p (count_answer true self.now.wires.now.rounds (count_in self.now.state.now.counts (count Output self.now.p)) (count_in self.now.state.now.counts (count Input self.now.p))) result }
    {
        let outputs = self.state.counts[cell(self.at(Output))];
        let inputs = self.state.counts[cell(self.at(Input))];
        if !below(outputs, self.wires.rounds()) {
            return Err(Refusal::LastRoundOver);
        }
        if inputs < outputs {
            return Err(Refusal::NeedMissing);
        }
        Ok(self.p)
    }

    // A row of the table: 14 where the nodes do not stand as it asks, 16 where the count needed is short, then what the rest of it says.
    // A hint: so each row branches by itself, with no second look at what it came to.
    #[inline(always)]
    fn row(&self, place: Place, need: Counter, rest: Result<(), Refusal>) -> Result<u8, Refusal>
        ensures { RowShows self.now.state.now.counts self.now.kind (own_of place self.now.kind self.now.p (lane_in self.now.wires.now.lanes self.now.p self.now.q)).1 (stands_in place (get_or self.now.wires.now.neighbours self.now.p 0) (get_or self.now.wires.now.preferred self.now.p 0) self.now.q (is_root self.now.wires.now.parents self.now.p)) need (answer_of rest) result }
    {
        if !self.stands(place) {
            return Err(Refusal::NoSuchLink);
        }
        let counts = &self.state.counts;
        let own = own_of(place, self.kind, self.p, self.lane());
        if !below(counts[cell(own)], counts[cell(need)]) {
            return Err(Refusal::NeedMissing);
        }
        rest?;
        Ok(own.1)
    }

    // Document 01's table, row by row, of nodes that are there.
    fn answer(&self) -> Result<u8, Refusal>
        requires { (self.now.p < self.now.wires.now.nodes) × (self.now.q < self.now.wires.now.nodes) }
        ensures { TestShows self.now.wires.now self.now.state.now self.now.kind self.now.p self.now.q result }
    {
        match self.kind {
            Output => self.may_begin(),
            PacketSent => self.row(Link, self.at(Output), self.room()),
            PacketDelivered => self.row(Link, self.along(PacketSent), self.packet_first()),
            AckSent => self.row(Link, self.back(PacketDelivered), self.room()),
            AckDelivered => self.row(Link, self.along(AckSent), self.ack_first()),
            Kind::Ok => self.row(Node, self.at(Output), self.acks_told()),
            SubtreeOkSent => self.row(Child, self.at(Kind::Ok), self.oks_told()),
            SubtreeOkDelivered => self.row(Child, self.at(SubtreeOkSent), Ok(())),
            ClusterOk => self.row(Root, self.at(Kind::Ok), self.oks_told()),
            DownSent => self.row(Child, self.wires.parent_knows(self.p), Ok(())),
            DownDelivered => self.row(Child, self.at(DownSent), Ok(())),
            PreferredSent => self.row(PreferredLink, self.wires.knows(self.p), Ok(())),
            PreferredDelivered => self.row(PreferredLink, self.along(PreferredSent), Ok(())),
            UpSent => self.row(Child, self.wires.knows(self.p), self.ups_told()),
            UpDelivered => self.row(Child, self.at(UpSent), Ok(())),
            ClusterGo => self.row(Root, self.wires.knows(self.p), self.ups_told()),
            SubtreeGoSent => self.row(Child, self.wires.parent_may_go(self.p), Ok(())),
            SubtreeGoDelivered => self.row(Child, self.at(SubtreeGoSent), Ok(())),
            Go => self.row(Node, self.wires.may_go(self.p), Ok(())),
            Input => self.row(Node, self.at(Go), Ok(())),
        }
    }
}

impl State {
    // The answer to an action; and of one that may be taken, at which node or direction its own count stands.
    pub(crate) fn test(&self, wires: &Wires, kind: Kind, p: u8, q: u8) -> Result<u8, Refusal>
        ensures answer { TestShows wires.now self.now kind p q result }
        ensures place { IfOk result (λ _. p < 64) }
    {
        if !wires.has(p) || !wires.has(q) {
            return Err(Refusal::NoSuchNode);
        }
        Asked {
            state: self,
            wires,
            kind,
            p,
            q,
        }
        .answer()
    }
}
