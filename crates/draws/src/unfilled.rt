// Plans as they are handed over to be laid out: parents and flags that nobody filled in, and bytes behind the plan's end.
use crate::bytes::{ByteString, Bytes};
use crate::damage::node_at;
use crate::dice::Dice;
use crate::plans::{Plan, Wish};

impl Plan {
    // A plan with any parents and flags, in a room of its own.
    pub fn unfilled(dice: &mut Dice, wish: Wish) -> Plan {
        Plan::unfilled_in(dice, wish, Bytes::new())
    }
}

impl<B: ByteString> Plan<B> {
    // A plan with any parents and flags; of eight one is damaged, one has lost links and one may have a wrong flag. It stands in this string,
    // in place of what was there.
    pub fn unfilled_in(dice: &mut Dice, wish: Wish, bytes: B) -> Plan<B> {
        let mut plan = Plan::drawn_in(dice, wish, bytes);
        plan.any_parents(dice);
        plan.any_flags(dice);
        match dice.below(8) {
            0 => plan.damage(dice),
            1 => plan.cut_wires(dice),
            2 => plan.wrong_flag(dice),
            _ => {}
        }
        plan
    }

    // Any byte for each parent.
    fn any_parents(&mut self, dice: &mut Dice) {
        for p in 0..self.nodes as u8 {
            self.bytes.set(node_at(p) + 2, dice.byte());
        }
    }

    // Each flag 0 or 1.
    fn any_flags(&mut self, dice: &mut Dice) {
        for l in 0..self.links() {
            let flag = dice.below(2) as u8;
            let at = self.link_at(l);
            self.bytes.set(at + 3, flag);
        }
    }

    // A few links are taken out, and a node may have none left.
    fn cut_wires(&mut self, dice: &mut Dice) {
        for _ in 0..dice.below(4) + 1 {
            if self.links() > 0 {
                let at = self.any_link_at(dice);
                self.bytes.remove(at, 4);
            }
        }
    }

    // A flag above 1, if there is a link.
    fn wrong_flag(&mut self, dice: &mut Dice) {
        let at = self.any_link_at(dice);
        let flag = dice.below(254) as u8 + 2;
        self.bytes.set(at + 3, flag);
    }
}
