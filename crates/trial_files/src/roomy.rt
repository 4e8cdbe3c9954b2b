//! A file in memory with room from the start.
ghost use Rattle.std.specs.Prelude.{◌≡◌, true, false, length, is_ok, refl, OnOk};
ghost use Rattle.sqlite_disk.specs.Disk.{CountsFault, Cut, Holds, Torn};
ghost use Rattle.sqlite_disk.specs.Refusal.{finds_no_room};

use sqlite_disk::{Disk, Tally, digest_of};
use std::alloc::{AllocError, Global};
use std::io;

/// A file in memory with room from the start: while it fits, no call asks for memory. What is written is there at once, and nothing
/// of it is lost.
#[derive(Drop)]
pub struct RoomyFile {
    bytes: Vec<u8>,
    faults: u64,
}

/// How many bytes have room.
const ROOM: usize = 131_072;

impl RoomyFile {
    /// An empty file.
    pub fn new(alloc: Global) -> Result<RoomyFile, AllocError> {
        let bytes = Vec::with_capacity(alloc, ROOM)?;
        Ok(RoomyFile { bytes, faults: 0 })
    }
}

/// The answer of a call that may want memory, which is a failed call.
fn answered(outcome: Result<(), AllocError>, faults: &mut u64) -> io::Result<()>
    ensures same { is_ok result ≡ is_ok outcome }
    ensures faults { CountsFault result faults.old faults.new }
    ensures kind { finds_no_room result ≡ false }
{
    match outcome {
        Ok(()) => Ok(()),
        Err(_) => {
            *faults = faults.saturating_add(1);
            Err(io::Error::from(io::ErrorKind::OutOfMemory))
        }
    }
}

/// Makes the file so long; what is new is 0.
fn set_length(bytes: &mut Vec<u8>, size: usize) -> Result<(), AllocError>
    ensures length { OnOk result (length bytes.new.items ≡ size) }
    ensures others { Cut size bytes.old.items bytes.new.items }
{
    bytes.resize(size, 0)
}

/// Puts a piece at this offset.
fn put(bytes: &mut Vec<u8>, at: usize, piece: &[u8]) -> Result<(), AllocError>
    ensures written { OnOk result (Holds bytes.new.items at piece.now) }
    ensures others { Torn at (length piece.now) bytes.old.items bytes.new.items }
{
    let Some(end) = at.checked_add(piece.len()) else {
        return Err(AllocError);
    };
    if bytes.len() < end {
        set_length(bytes, end)?;
    }
    bytes[at..end].copy_from_slice(piece);
    Ok(())
}

impl Disk for RoomyFile {
    ghost seen = { λ f. f.bytes.items };

    ghost may_leave = { λ f c. c ≡ f.bytes.items };

    ghost is_usable = { λ _. true };

    ghost faults = { λ f. f.faults };

    ghost tally_of = { λ _. record { caught = 0; refused = 0 } };

    ghost is_clean = { λ _. true };

    ghost key_of = { λ _. 0 };

    ghost is_fair = { λ _ _. true };

    ghost fair_if_clean = { λ _ _ _. refl };

    ghost seen_may_stay = { λ _. refl };

    fn mixes(&self) -> bool {
        false
    }

    fn key(&self) -> u64 {
        0
    }

    fn tally(&self) -> Tally {
        Tally {
            caught: 0,
            refused: 0,
        }
    }

    fn may_be_used(&self) -> bool {
        true
    }

    fn len(&mut self) -> io::Result<usize> {
        Ok(self.bytes.len())
    }

    fn read_at(&mut self, at: usize, buf: &mut [u8]) -> io::Result<()> {
        let length = self.bytes.len();
        if at > length || buf.len() > length - at {
            return Err(io::ErrorKind::UnexpectedEof.into());
        }
        buf.copy_from_slice(&self.bytes[at..at + buf.len()]);
        Ok(())
    }

    fn read_checked(&mut self, key: u64, want: u64, at: usize, buf: &mut [u8]) -> io::Result<()> {
        self.read_at(at, buf)?;
        if digest_of(key, buf) == want {
            return Ok(());
        }
        self.faults = self.faults.saturating_add(1);
        Err(io::ErrorKind::InvalidData.into())
    }

    fn write_at(&mut self, at: usize, bytes: &[u8]) -> io::Result<()> {
        answered(put(&mut self.bytes, at, bytes), &mut self.faults)
    }

    fn set_len(&mut self, len: usize) -> io::Result<()> {
        answered(set_length(&mut self.bytes, len), &mut self.faults)
    }

    fn sync(&mut self) -> io::Result<()> {
        Ok(())
    }
}
