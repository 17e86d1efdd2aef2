// Numbers from a seed (xorshift), so that a history is the same wherever it runs.
ghost use Rattle.std.specs.Prelude.{◌<◌};

#[derive(Clone, Copy)]
pub struct Random {
    state: u64,
}

impl Random {
    // The state is never 0.
    pub fn new(seed: u64) -> Random {
        Random {
            state: seed.wrapping_mul(0x9E37_79B9_7F4A_7C15) | 1,
        }
    }

    // The next state.
    fn step(&mut self) -> u64 {
        self.state ^= self.state << 13;
        self.state ^= self.state >> 7;
        self.state ^= self.state << 17;
        self.state
    }

    // Another run of numbers, from the next state.
    pub fn branch(&mut self) -> Random {
        Random::new(self.step())
    }

    // A number below n, or 0 where there is none.
    pub fn below(&mut self, n: usize) -> usize
        ensures { 0 < n → result < n }
    {
        if n == 0 {
            return 0;
        }
        (self.step() >> 16) as usize % n
    }

    // True once in so many times.
    pub fn once_in(&mut self, n: usize) -> bool {
        self.below(n) == 0
    }

    // A name below n.
    pub fn name(&mut self, n: usize) -> u16 {
        u16::try_from(self.below(n)).unwrap_or(0)
    }

    // The code of a type, void with it or not.
    pub fn code(&mut self, types: usize) -> u8 {
        u8::try_from(self.below(types))
            .unwrap_or(0)
            .saturating_add(1)
    }
}
