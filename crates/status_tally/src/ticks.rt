//! How long turns take.

ghost use Rattle.std.specs.Prelude.{◌≡◌};
ghost use Rattle.status_tally.specs.Ticks.{longest_by, no_ticks, pause_by, ticked};

/// When the last tick came, and the longest time between two ticks since a total was noted.
#[derive(Clone, Copy, Debug, PartialEq, Eq)]
pub struct Ticks {
    /// In milliseconds; 0 before the first.
    pub last: u64,
    pub longest: u64,
}

impl Ticks {
    /// None has come.
    pub(crate) fn new() -> Ticks
        ensures { result ≡ no_ticks }
    {
        Ticks {
            last: 0,
            longest: 0,
        }
    }

    /// How long ago the last one was.
    fn pause_by(self, at: u64) -> u64
        ensures { result ≡ pause_by at self }
    {
        if self.last == 0 {
            0
        } else {
            at.saturating_sub(self.last)
        }
    }

    /// The longest time, with one that comes at this moment.
    pub(crate) fn longest_by(self, at: u64) -> u64
        ensures { result ≡ longest_by at self }
    {
        self.longest.max(self.pause_by(at))
    }

    /// After one at this moment, where a total was noted or wasn't.
    pub(crate) fn ticked(self, at: u64, noted: bool) -> Ticks
        ensures { result ≡ ticked at noted self }
    {
        let longest = if noted { 0 } else { self.longest_by(at) };
        Ticks { last: at, longest }
    }
}
