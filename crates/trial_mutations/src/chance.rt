//! Random numbers.

ghost use Rattle.std.specs.Prelude.{◌<◌};

/// Random numbers, the same ones for the same seed: a 64-bit xorshift generator.
#[derive(Drop)]
pub struct Chance {
    state: u64,
}

impl Chance {
    /// The numbers of a seed.
    pub fn new(seed: u64) -> Chance {
        // From 0 only 0 would follow.
        Chance { state: seed.max(1) }
    }

    /// The next number.
    pub fn next(&mut self) -> u64 {
        let mut next = self.state;
        next ^= next << 13;
        next ^= next >> 7;
        next ^= next << 17;
        self.state = next;
        next
    }

    /// The next number below this one, which isn't 0.
    pub fn below(&mut self, bound: usize) -> usize
        requires { 0 < bound }
        ensures { result < bound }
    {
        let next = self.next() >> 8;
        (next % bound as u64) as usize
    }
}
