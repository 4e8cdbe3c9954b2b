//! Rows in memory of which one call is refused, as a failed disk refuses it; tests bring them.

ghost use Rattle.std.specs.Prelude.{◌≡◌, ◌⊎◌, ◌<◌, ◌^◌, ◌-◌, true, false, ⊤};

use row_store::{Change, MemoryRows, Row, RowFault, RowStore};

/// The rows, how many calls are still answered before the one that is refused (with 0 none is), and how often rows were to be changed.
#[derive(Drop)]
pub struct RefusingRows {
    rows: MemoryRows,
    left: u64,
    failures: u64,
    writes: u64,
}

impl RefusingRows {
    /// These rows; the call of this number is refused, counted from 1, and with 0 none is.
    pub fn new(rows: MemoryRows, refused: u64) -> RefusingRows {
        RefusingRows {
            rows,
            left: refused,
            failures: 0,
            writes: 0,
        }
    }

    /// How often rows were to be changed.
    pub fn writes(&self) -> u64 {
        self.writes
    }

    /// Whether this call is refused, which is then counted.
    fn refuses(&mut self) -> bool
        ensures same { self.new.rows ≡ self.old.rows }
        ensures counted { result ≡ true → (self.old.failures < self.new.failures) ⊎ (self.new.failures ≡ 2 ^ 64 - 1) }
        ensures kept { result ≡ false → self.new.failures ≡ self.old.failures }
    {
        let refuses = self.left == 1;
        self.left = self.left.saturating_sub(1);
        if refuses {
            self.failures = self.failures.saturating_add(1);
        }
        refuses
    }
}

impl RowStore for RefusingRows {
    ghost content = { λ r. r.rows };

    ghost is_clean = { λ _. ⊤ };

    ghost is_open = { λ _. ⊤ };

    ghost may_leave = { λ r c. c ≡ r.rows };

    ghost failed = { λ r. r.failures };

    fn failures(&self) -> u64 {
        self.failures
    }

    fn apply(&mut self, changes: &[Change]) -> Result<(), RowFault> {
        if changes.is_empty() {
            return Ok(());
        }
        self.writes = self.writes.saturating_add(1);
        if self.refuses() {
            return Err(RowFault::Device);
        }
        match self.rows.apply(changes) {
            Ok(()) => Ok(()),
            Err(_) => Err(RowFault::NoMemory),
        }
    }

    fn load(&mut self) -> Result<Vec<Row>, RowFault> {
        if self.refuses() {
            return Err(RowFault::Device);
        }
        match self.rows.load() {
            Ok(rows) => Ok(rows),
            Err(_) => Err(RowFault::NoMemory),
        }
    }

    ghost settled = { λ s c up left. left };
}
