//! How much a turn reads from a client's socket.
ghost use Rattle.std.specs.Prelude.{◌≡◌, ◌≤◌, None, Some};
ghost use Rattle.broker_turns.specs.Pace.{is_long, paced};

/// The most bytes that a turn reads from a socket.
pub(crate) const MOST_READ: usize = 65536;

/// It never reads fewer, and grows by so many.
const LEAST: usize = 512;

/// A turn that took more milliseconds is a long one.
const LONG: u64 = 100;

/// How many bytes a turn reads from a client's socket at most, by how long the turns before it took: half as many after each long turn, but not
/// fewer than 512, and 512 more after each other one, but not more than 65,536.
#[derive(Clone, Copy, Debug)]
pub struct Pace {
    most: usize,
    /// When the last turn began.
    last: Option<u64>,
    ghost least: { 512 ≤ most },
    ghost greatest: { most ≤ 65536 },
}

impl Pace {
    /// No turn was made yet.
    pub fn new() -> Self
        ensures most { result.most ≡ 65536 }
        ensures last { result.last ≡ None }
    {
        Pace {
            most: MOST_READ,
            last: None,
        }
    }

    /// Whether a turn that begins now comes after a long one.
    fn is_long(&self, at: u64) -> bool
        ensures { result ≡ is_long self.now.last at }
    {
        match self.last {
            Some(last) => at.saturating_sub(last) > LONG,
            None => false,
        }
    }

    /// A turn begins. It answers how many bytes that one reads from a client's socket at most.
    pub fn begin(&mut self, at: u64) -> usize
        ensures next { self.new.most ≡ paced (is_long self.old.last at) self.old.most }
        ensures last { self.new.last ≡ Some at }
        ensures most { result ≡ self.new.most }
        ensures least { 512 ≤ result }
        ensures greatest { result ≤ 65536 }
    {
        let most = if self.is_long(at) {
            (self.most / 2).max(LEAST)
        } else {
            (self.most + LEAST).min(MOST_READ)
        };
        *self = Pace {
            most,
            last: Some(at),
        };
        most
    }
}
