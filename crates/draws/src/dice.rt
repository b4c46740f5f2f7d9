// Numbers drawn from a seed: the same draws on every machine and in every run.
ghost use Rattle.std.specs.Prelude.{◌≡◌, ◌<◌};

#[derive(Drop)]
pub struct Dice {
    state: u64,
}

impl Dice {
    pub fn new(seed: u64) -> Dice {
        Dice { state: seed }
    }

    // The next draw, by xorshift: three shifts that lead through every number of 64 bits but 0.
    pub fn roll(&mut self) -> u64 {
        self.state ^= self.state << 13;
        self.state ^= self.state >> 7;
        self.state ^= self.state << 17;
        self.state
    }

    // A draw below n; 0 where n is 0.
    pub fn below(&mut self, n: usize) -> usize
        ensures none { n ≡ 0 → result ≡ 0 }
        ensures below { 0 < n → result < n }
    {
        let drawn = (self.roll() >> 20) as usize;
        drawn.checked_rem(n).unwrap_or(0)
    }

    // Any byte.
    pub fn byte(&mut self) -> u8 {
        self.below(256) as u8
    }

    // Any number of two bytes.
    pub fn word(&mut self) -> u16 {
        self.below(65536) as u16
    }

    // True once in n draws; never where n is 0.
    pub fn once_in(&mut self, n: usize) -> bool {
        n > 0 && self.below(n) == 0
    }

    // The same elements in any order.
    pub fn shuffle<T>(&mut self, xs: &mut [T]) {
        for i in 0..xs.len() {
            let j = self.below(i + 1);
            xs.swap(i, j);
        }
    }
}
