// One thing wrong in the bytes of a plan: a byte, a record, or what a record says. Some damage leaves a plan that is accepted all the same. A draw
// chooses by `match` on its number: an enum of the ways would name each of them twice and say no more.
ghost use Rattle.std.specs.Prelude.{◌≤◌};

use crate::bytes::ByteString;
use crate::dice::Dice;
use crate::plans::Plan;

// More links than these are not drawn from.
const MOST_LINKS: usize = 256;

// Where node p stands.
pub(crate) fn node_at(p: u8) -> usize
    ensures { result ≤ 1278 }
{
    3 + usize::from(p) * 5
}

impl<B: ByteString> Plan<B> {
    // Where link l stands; the end of the plan is where the link after the last would.
    pub(crate) fn link_at(&self, l: usize) -> usize
        requires { l ≤ 1024 }
        ensures { result ≤ 5374 }
    {
        node_at(self.nodes as u8) + l * 4
    }

    // How many links there are, or the most.
    pub(crate) fn links(&self) -> usize
        ensures { result ≤ 256 }
    {
        let size = self.bytes.bytes().len();
        (size.saturating_sub(self.link_at(0) + 1) / 4).min(MOST_LINKS)
    }

    // Where a record stands: the rounds, the nodes, the links, the end.
    fn record_at(&self, r: usize) -> usize
        requires { r ≤ 1024 }
        ensures { result ≤ 5374 }
    {
        match r.checked_sub(1) {
            None => 0,
            Some(p) if p < self.nodes => node_at(p as u8),
            Some(p) => self.link_at(p - self.nodes),
        }
    }

    pub(crate) fn any_link_at(&self, dice: &mut Dice) -> usize
        ensures { result ≤ 5374 }
    {
        self.link_at(dice.below(self.links()))
    }

    fn remove_record(&mut self, dice: &mut Dice) {
        let r = dice.below(self.links() + self.nodes + 2);
        let at = self.record_at(r);
        let next = self.record_at(r + 1);
        self.bytes.remove(at, next.saturating_sub(at));
    }

    fn exchange_links(&mut self, dice: &mut Dice) {
        let at = self.any_link_at(dice);
        let other = self.any_link_at(dice);
        self.bytes.exchange(at, other, 4);
    }

    // A node gets another parent, which may be no node.
    fn change_parent(&mut self, dice: &mut Dice) {
        let at = node_at(dice.below(self.nodes) as u8);
        let parent = dice.below(self.nodes + 1) as u8;
        self.bytes.set(at + 2, parent);
    }

    // One end of a link becomes the parent of the other, and a ring may close.
    fn turn_parent(&mut self, dice: &mut Dice) {
        let at = self.any_link_at(dice);
        let low = self.bytes.get(at + 1);
        let high = self.bytes.get(at + 2);
        if dice.once_in(2) {
            self.bytes.set(node_at(low) + 2, high);
        } else {
            self.bytes.set(node_at(high) + 2, low);
        }
    }

    fn change_flag(&mut self, dice: &mut Dice) {
        let at = self.any_link_at(dice);
        let flag = (dice.below(8) / 3) as u8;
        self.bytes.set(at + 3, flag);
    }

    // An end of a link becomes another node, or one that is not there.
    fn change_end(&mut self, dice: &mut Dice) {
        let at = self.any_link_at(dice);
        let end = at + 1 + dice.below(2);
        let node = dice.below(self.nodes + 1) as u8;
        self.bytes.set(end, node);
    }

    // None, the most, one more, and others that are too many.
    fn change_rounds(&mut self, dice: &mut Dice) {
        let rounds = match dice.below(4) {
            0 => 0,
            1 => 10000,
            2 => 10001,
            _ => dice.word(),
        };
        let [high, low] = rounds.to_be_bytes();
        self.bytes.set(1, high);
        self.bytes.set(2, low);
    }

    // A node more after the last: a root, or one whose parent is the node before it.
    pub fn add_node(&mut self, dice: &mut Dice) {
        let parent = (self.nodes as u8).wrapping_sub(dice.below(2) as u8);
        let at = self.link_at(0);
        self.bytes.insert(at, &[2, self.nodes as u8, parent, 0, 7]);
    }

    // A link more after the last, above it.
    pub fn add_link(&mut self, dice: &mut Dice) {
        let flag = dice.below(2) as u8;
        let high = dice.byte();
        let low = (self.nodes as u8).wrapping_sub(1);
        let at = self.bytes.bytes().len().saturating_sub(1);
        self.bytes.insert(at, &[3, low, high, flag]);
    }

    // Damage to whole records.
    fn damage_records(&mut self, dice: &mut Dice) {
        match dice.below(4) {
            0 => self.remove_record(dice),
            1 => self.add_node(dice),
            2 => self.add_link(dice),
            _ => self.exchange_links(dice),
        }
    }

    // Damage to what a record says.
    fn damage_fields(&mut self, dice: &mut Dice) {
        match dice.below(6) {
            0 => self.change_parent(dice),
            1 => self.turn_parent(dice),
            2 => self.change_end(dice),
            3 => self.change_rounds(dice),
            _ => self.change_flag(dice),
        }
    }

    // One thing wrong in a plan.
    pub fn damage(&mut self, dice: &mut Dice) {
        match dice.below(4) {
            0 => self.bytes.damage(dice),
            1 => self.damage_records(dice),
            _ => self.damage_fields(dice),
        }
    }
}
