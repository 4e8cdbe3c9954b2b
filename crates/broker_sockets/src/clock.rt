//! Clocks, which tell the moments of turns.

/// What tells the moment now.
///
/// `tells` relates a clock before a call to the moment that it answers and to the clock after it, where an
/// implementation knows that.
pub trait Clock {
    ghost use Rattle.std.specs.Prelude.{ℕ};

    ghost tells: { Self → ℕ → Self → Type 0 };

    /// The moment now, in milliseconds since the beginning of 1970.
    fn now(&mut self) -> u64
        ensures { tells self.old result self.new };
}
