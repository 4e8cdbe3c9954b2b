//! What went through in the last ten seconds.

ghost use Rattle.std.specs.Prelude.{◌≡◌, [], IfOk};
ghost use Rattle.status_tally.specs.Windows.{base, is_due, less, longest_of, noted, with_mark};

use circular_buffer::HeapCircularBuffer;
use status_figures::Traffic;
use std::alloc::{AllocError, Global};
use std::marker::Model;

/// So many totals are kept.
const KEPT: usize = 11;

/// In milliseconds, how far apart they are at least.
const APART: u64 = 1000;

/// For so many milliseconds a total counts.
const RECENT: u64 = 10_000;

/// Nothing has gone through.
pub(crate) const NOTHING: Traffic = Traffic {
    opened: 0,
    bytes_received: 0,
    packets_sent: 0,
    bytes_sent: 0,
    frames_received: 0,
    frame_bytes_received: 0,
    frames_sent: 0,
    frame_bytes_sent: 0,
};

/// What had gone through at a moment, and the longest time between two ticks since the mark before.
#[derive(Clone, Copy, Debug, PartialEq, Eq)]
pub struct Mark {
    pub at: u64,
    pub total: Traffic,
    pub longest: u64,
}

/// The last totals, the oldest first, one a second.
#[derive(Drop)]
pub(crate) struct Window {
    marks: HeapCircularBuffer<Mark>,
}

impl Model for Window {
    ghost use Rattle.std.specs.Prelude.{◌≡◌, List};
    ghost use Rattle.status_tally.specs.declared.window.Mark.{Mark};

    ghost Value = { List Mark };

    ghost view = { λ w. w.marks.items };

    ghost invariant = { λ w. w.marks.capacity ≡ 11 };
}

/// What has gone through since.
pub(crate) fn less(total: Traffic, before: Traffic) -> Traffic
    ensures { result ≡ less total before }
{
    Traffic {
        opened: total.opened.saturating_sub(before.opened),
        bytes_received: total.bytes_received.saturating_sub(before.bytes_received),
        packets_sent: total.packets_sent.saturating_sub(before.packets_sent),
        bytes_sent: total.bytes_sent.saturating_sub(before.bytes_sent),
        frames_received: total.frames_received.saturating_sub(before.frames_received),
        frame_bytes_received: total
            .frame_bytes_received
            .saturating_sub(before.frame_bytes_received),
        frames_sent: total.frames_sent.saturating_sub(before.frames_sent),
        frame_bytes_sent: total
            .frame_bytes_sent
            .saturating_sub(before.frame_bytes_sent),
    }
}

/// The longer of a time and that of a mark, where it is at most ten seconds away.
fn with_mark(at: u64, longest: u64, mark: &Mark) -> u64
    ensures { result ≡ with_mark at longest mark.now }
{
    if mark.at.abs_diff(at) <= RECENT {
        longest.max(mark.longest)
    } else {
        longest
    }
}

/// The longest of these, if it is longer than this.
fn longest_in(marks: &[Mark], at: u64, from: u64) -> u64
    ensures { result ≡ longest_of at from marks.now }
{
    let mut longest = from;
    for mark in marks {
        longest = with_mark(at, longest, mark);
    }
    longest
}

impl Window {
    /// No totals.
    pub(crate) fn new(alloc: Global) -> Result<Window, AllocError>
        ensures { IfOk result (λ window. window ≡ []) }
    {
        let marks = HeapCircularBuffer::with_capacity(alloc, KEPT)?;
        Ok(Window { marks })
    }

    /// Whether a total is to be noted: the last one is a second away, or there is none.
    pub(crate) fn is_due(&self, at: u64) -> bool
        ensures { result ≡ is_due at self.now }
    {
        match self.marks.back() {
            Some(mark) => APART <= mark.at.abs_diff(at),
            None => true,
        }
    }

    /// Notes what has gone through by this moment, and the longest time between two ticks, once a second.
    pub(crate) fn note(&mut self, at: u64, total: Traffic, longest: u64)
        ensures { self.new ≡ noted at total longest self.old }
    {
        if self.is_due(at) {
            let _ = self.marks.push_back(Mark { at, total, longest });
        }
    }

    /// The longest time between two ticks that is noted with a total that is at most ten seconds away, if it is longer than this.
    #[tactic(auto, using(crate::proofs::Longest::longest_both))]
    pub(crate) fn longest(&self, at: u64, from: u64) -> u64
        ensures { result ≡ longest_of at from self.now }
    {
        let (first, second) = self.marks.as_slices();
        longest_in(second, at, longest_in(first, at, from))
    }

    /// What had gone through by the oldest of the totals that is at most ten seconds away, and nothing where none is.
    pub(crate) fn base(&self, at: u64) -> Traffic
        ensures { result ≡ base at self.now }
    {
        for index in 0..self.marks.len() {
            match self.marks.get(index) {
                Some(mark) => {
                    if mark.at.abs_diff(at) <= RECENT {
                        return mark.total;
                    }
                }
                None => {}
            }
        }
        NOTHING
    }
}
