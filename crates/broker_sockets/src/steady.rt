//! A clock that goes on evenly, whatever becomes of the system's clock and however long the program stood still.
ghost use Rattle.std.specs.Prelude.{◌≡◌, ◌*◌, ◌+◌, ◌/◌, ◌-◌, ◌^◌, min, None};
ghost use Rattle.std.specs.Duration.{as_nanos};
ghost use Rattle.broker_sockets.specs.Steady.{bounded, counted, quarters_after};

use crate::clock::Clock;
use mqtt_fields::NUMBERS_END;
use std::time::{self, Duration};

/// What the two clocks of the system tell, in milliseconds.
#[derive(Clone, Copy, Debug, PartialEq, Eq)]
pub struct Times {
    /// Since the beginning of 1970, by the clock that may be set.
    pub system: u64,
    /// Since some beginning, by the clock that nobody sets.
    pub monotonic: u64,
}

/// What tells both at once.
///
/// `reads` relates the clocks before a call to what they tell and to the clocks after it, where an implementation knows
/// that; of the system's clocks it says nothing.
pub trait Clocks {
    ghost use Rattle.broker_sockets.specs.declared.steady.Times.{Times};

    ghost reads: { Self → Times → Self → Type 0 };

    /// What both tell now.
    fn read(&mut self) -> Times
        ensures { reads self.old result self.new };
}

/// The clocks of the system. Where one can't be read it tells what it told last, at first 0.
#[derive(Drop)]
pub struct RealClocks<'a, C: time::Clock> {
    clock: &'a C,
    last: Times,
}

impl<'a, C: time::Clock> RealClocks<'a, C> {
    /// The clocks that the runtime gives leave to read.
    pub fn new(clock: &'a C) -> Self {
        let last = Times {
            system: 0,
            monotonic: 0,
        };
        RealClocks { clock, last }
    }
}

/// Whole milliseconds, at most as many as a moment can be.
fn milliseconds(time: Duration) -> u64
    ensures { result ≡ min (as_nanos time / 1_000_000) (2 ^ 64 - 1) }
{
    time.as_millis().min(u128::from(u64::MAX)) as u64
}

impl<'a, C: time::Clock> Clocks for RealClocks<'a, C> {
    ghost reads = { λ _ _ _. Unit {0} };

    fn read(&mut self) -> Times {
        if let Ok(since) = self.clock.since_1970() {
            self.last.system = milliseconds(since);
        }
        if let Ok(since) = self.clock.monotonic() {
            self.last.monotonic = milliseconds(since);
        }
        self.last
    }
}

/// The last moment that is told, in milliseconds since the beginning of 1970.
const LATEST: u64 = NUMBERS_END - 1;

/// The most milliseconds that count between two calls.
const MOST_COUNTED: u64 = 1000;

/// What is kept of the last call.
#[derive(Clone, Copy, Debug)]
struct Kept {
    /// The moment, in quarters of a millisecond since the beginning of 1970.
    quarters: u64,
    /// What the monotonic clock told.
    monotonic: u64,
}

/// The last quarter of a millisecond that the system's clock tells.
fn end_of(system: u64) -> u64
    ensures { result ≡ bounded system * 4 + 3 }
{
    system.min(LATEST) * 4 + 3
}

impl Kept {
    /// The moment of a call that comes next, in quarters of a millisecond.
    fn after(&self, times: Times) -> u64
        ensures { result ≡ quarters_after self.now.quarters times.system (counted self.now.monotonic times.monotonic) }
    {
        let end = end_of(times.system);
        let passed = times
            .monotonic
            .saturating_sub(self.monotonic)
            .min(MOST_COUNTED);
        if self.quarters <= end {
            self.quarters.saturating_add(passed * 5).min(end)
        } else {
            self.quarters.saturating_add(passed * 4)
        }
    }
}

/// A clock whose moments begin with the system's and never fall. Between two calls they go on by at most five quarters of what the
/// monotonic clock says has passed, of which at most a second counts; so a program that stood still comes up to the system's clock
/// over many calls. They are never ahead of the system's clock unless that was set back: then they go on as fast as the monotonic clock
/// until the system's has come up.
#[derive(Drop)]
pub struct SteadyClock<C> {
    clocks: C,
    kept: Option<Kept>,
}

impl<C> SteadyClock<C> {
    /// A clock that hasn't been asked yet, over these two.
    pub fn new(clocks: C) -> Self
        ensures clocks { result.clocks ≡ clocks }
        ensures fresh { result.kept ≡ None }
    {
        SteadyClock { clocks, kept: None }
    }
}

impl<C: Clocks> Clock for SteadyClock<C> {
    ghost use Rattle.broker_sockets.specs.Steady.{Tells};

    ghost tells = { Tells C.reads };

    fn now(&mut self) -> u64 {
        let times = self.clocks.read();
        let quarters = match &self.kept {
            Some(kept) => kept.after(times),
            None => end_of(times.system),
        };
        self.kept = Some(Kept {
            quarters,
            monotonic: times.monotonic,
        });
        quarters / 4
    }
}
