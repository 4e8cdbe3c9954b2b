//! A disk that counts the calls of it, and may refuse one.
ghost use Rattle.std.specs.Prelude.{◌≡◌, ◌+◌, ◌&&◌, not, false};
ghost use Rattle.sqlite_disk.specs.Disk.{CountsFault};
ghost use Rattle.sqlite_disk.specs.Refusal.{finds_no_room};

use sqlite_disk::{Crash, Disk, Tally};
use std::io;

/// A disk that counts the calls of it, and may refuse one.
#[derive(Drop)]
pub struct CountedDisk<D: Disk> {
    inner: D,
    calls: u64,
    refusal: Option<u64>,
    refused: u64,
    sync_refused: bool,
}

impl<D: Disk> CountedDisk<D> {
    /// With `Some(n)` the call after the first n is refused.
    pub fn new(inner: D, refusal: Option<u64>) -> CountedDisk<D> {
        CountedDisk {
            inner,
            calls: 0,
            refusal,
            refused: 0,
            sync_refused: false,
        }
    }

    pub fn inner(&self) -> &D {
        &self.inner
    }

    /// How many calls were made of it, with those that failed.
    pub fn calls(&self) -> u64 {
        self.calls
    }
}

impl<D: Crash> CountedDisk<D> {
    /// A stop of the machine.
    pub fn crash(&mut self) {
        self.inner.crash();
    }
}

fn spend(calls: &mut u64, refusal: Option<u64>, refused: &mut u64) -> io::Result<()>
    ensures faults { CountsFault result refused.old refused.new }
    ensures kind { finds_no_room result ≡ false }
{
    let before = *calls;
    *calls = before.saturating_add(1);
    if refusal == Some(before) {
        *refused = refused.saturating_add(1);
        return Err(io::Error::other("the call is refused"));
    }
    Ok(())
}

impl<D: Disk> Disk for CountedDisk<D> {
    ghost seen = { λ d. D.Disk.seen d.inner };

    ghost may_leave = { λ d. D.Disk.may_leave d.inner };

    ghost is_usable = { λ d. D.Disk.is_usable d.inner && not d.sync_refused };

    ghost faults = { λ d. D.Disk.faults d.inner + d.refused };

    ghost tally_of = { λ d. D.Disk.tally_of d.inner };

    ghost is_rotten = { λ d. D.Disk.is_rotten d.inner };

    ghost key_of = { λ d. D.Disk.key_of d.inner };

    ghost is_clean = { λ d. D.Disk.is_clean d.inner };

    ghost is_fair = { λ d. D.Disk.is_fair d.inner };

    ghost fair_if_clean = { λ d. D.Disk.fair_if_clean d.inner };

    ghost seen_may_stay = { λ d. D.Disk.seen_may_stay d.inner };

    ghost is_mixing = { λ d. D.Disk.is_mixing d.inner };

    fn mixes(&self) -> bool {
        self.inner.mixes()
    }

    fn key(&self) -> u64 {
        self.inner.key()
    }

    fn tally(&self) -> Tally {
        self.inner.tally()
    }

    fn may_be_used(&self) -> bool {
        self.inner.may_be_used() && !self.sync_refused
    }

    fn len(&mut self) -> io::Result<usize> {
        spend(&mut self.calls, self.refusal, &mut self.refused)?;
        self.inner.len()
    }

    fn read_at(&mut self, at: usize, buf: &mut [u8]) -> io::Result<()> {
        spend(&mut self.calls, self.refusal, &mut self.refused)?;
        self.inner.read_at(at, buf)
    }

    fn read_checked(&mut self, key: u64, want: u64, at: usize, buf: &mut [u8]) -> io::Result<()> {
        spend(&mut self.calls, self.refusal, &mut self.refused)?;
        self.inner.read_checked(key, want, at, buf)
    }

    fn write_at(&mut self, at: usize, bytes: &[u8]) -> io::Result<()> {
        spend(&mut self.calls, self.refusal, &mut self.refused)?;
        self.inner.write_at(at, bytes)
    }

    fn set_len(&mut self, len: usize) -> io::Result<()> {
        spend(&mut self.calls, self.refusal, &mut self.refused)?;
        self.inner.set_len(len)
    }

    fn sync(&mut self) -> io::Result<()> {
        if let Err(error) = spend(&mut self.calls, self.refusal, &mut self.refused) {
            self.sync_refused = true;
            return Err(error);
        }
        self.inner.sync()
    }
}
