//! What a store of rows is.
ghost use Rattle.std.specs.Prelude.{◌≡◌, ◌≢◌, ◌⊎◌, ◌<◌, ◌^◌, ◌-◌, ℕ, [], Ok, Err, map, OnOk, OnErr, IfOk};
ghost use Rattle.std.specs.FinMap.{entries};
ghost use Rattle.row_store.specs.declared.store.RowFault.TheVariants.{NoMemory as OutOfMemory};
ghost use Rattle.row_store.specs.Rows.{Content, entry_of, after_all};

use crate::row::{Change, Row};
use std::alloc::AllocError;

/// Why rows weren't changed or loaded.
#[derive(Clone, Copy, Debug, PartialEq, Eq)]
pub enum RowFault {
    /// An allocation was refused.
    NoMemory = 1,
    /// The disk failed or refused.
    Device,
    /// What is stored isn't rows.
    BadRow,
}

impl From<AllocError> for RowFault {
    ghost from_gives = { λ _ e. e ≡ OutOfMemory };

    fn from(_fault: AllocError) -> RowFault {
        RowFault::NoMemory
    }
}

/// A map from keys to bytes that is changed whole: all changes are made, or none.
///
/// After a fault it holds what it held, unless the disk has shut it. Then it holds nothing more, and
/// what it is opened with again is the content before the changes or after them.
pub trait RowStore {
    /// What it holds.
    ghost content: { Self → Content };

    /// So far the disk has returned what was written, and nobody else has written it.
    ghost is_clean: { Self → Type 0 };

    /// No failure of the disk has shut it.
    ghost is_open: { Self → Type 0 };

    /// A crash at this moment may leave this content.
    ghost may_leave: { Self → Content → Type 0 };

    /// How often a call has failed for another cause than memory.
    ghost failed: { Self → ℕ };

    /// How often a call has failed for another cause than memory. It stays at 2^64 - 1.
    fn failures(&self) -> u64
        ensures { result ≡ failed self.now };

    /// Makes all the changes, one after the other, or none. No changes take no memory and ask nothing
    /// of a disk.
    fn apply(&mut self, changes: &[Change]) -> Result<(), RowFault>
        ensures nothing { changes.now ≡ [] → (result ≡ Ok tt) × (self.new ≡ self.old) }
        ensures ok { is_clean self.new → is_open self.old
            → OnOk result (is_open self.new × (content self.new ≡ after_all (content self.old) changes.now)) }
        ensures err { is_clean self.new → is_open self.new → OnErr result (content self.new ≡ content self.old) }
        // A crash after the call leaves the content before it or after it; on `Ok`, by `settled`, after it.
        ensures crash { is_clean self.new → is_open self.old → (c : Content) → may_leave self.new c
            → (c ≡ content self.old) ⊎ (c ≡ after_all (content self.old) changes.now) }
        ensures device { result ≡ Err RowFault.Device
            → (failed self.old < failed self.new) ⊎ (failed self.new ≡ 2 ^ 64 - 1) }
        ensures counts { result ≢ Err RowFault.Device → failed self.new ≡ failed self.old }
        ensures rows { result ≢ Err RowFault.BadRow }
        // What is clean was so before, and what is open was.
        ensures was_clean { is_clean self.new → is_clean self.old }
        ensures was_open { is_clean self.new → is_open self.new → is_open self.old };

    /// The rows, in the order of their keys.
    fn load(&mut self) -> Result<Vec<Row>, RowFault>
        ensures ok { is_clean self.new → is_open self.old
            → IfOk result (λ rows. map entry_of rows.items ≡ entries (content self.old)) }
        ensures same { is_clean self.new → is_open self.new → content self.new ≡ content self.old }
        ensures crash { is_clean self.new → is_open self.old → (c : Content) → may_leave self.new c → c ≡ content self.old }
        ensures device { result ≡ Err RowFault.Device
            → (failed self.old < failed self.new) ⊎ (failed self.new ≡ 2 ^ 64 - 1) }
        ensures counts { result ≢ Err RowFault.Device → failed self.new ≡ failed self.old }
        // Only a disk that returns what wasn't written has other rows.
        ensures rows { is_clean self.new → is_open self.old → result ≢ Err RowFault.BadRow }
        ensures stays_open { is_clean self.new → is_open self.old → OnOk result (is_open self.new) }
        ensures was_clean { is_clean self.new → is_clean self.old }
        ensures was_open { is_clean self.new → is_open self.new → is_open self.old };

    /// While it is open, a crash leaves what it holds.
    ghost settled: { (s : Self) (c : Content) → is_open s → may_leave s c → c ≡ content s };
}
