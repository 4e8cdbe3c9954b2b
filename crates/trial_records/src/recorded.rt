//! Rows in a database, as runs play them of which an allocation is refused.

ghost use Rattle.std.specs.Prelude.{◌≡◌, ◌-◌, ◌^◌};
ghost use Rattle.std.specs.FinMap.{empty};

use crate::database::{Database, change, reopen, rows_in};
use crate::nodes::Rows;
use row_store::{Change, Row, RowFault, RowStore};
use sqlite::Files;
use std::alloc::Global;
use trial_files::RoomyFile;

/// Rows in a database over two files in memory, each with room from the start, so that no write to them asks for memory. Nothing is
/// promised of them.
pub struct RecordedRows {
    alloc: Global,
    database: Database<RoomyFile>,
}

// It is written out, so that a caller does not prove again how each part is dropped.
impl Drop for RecordedRows {
    fn drop(self) {
        let RecordedRows {
            alloc: _,
            database: _database,
        } = self;
    }
}

impl RecordedRows {
    /// Rows in a database that isn't opened, over files that are empty.
    pub fn closed(alloc: Global) -> Result<RecordedRows, RowFault> {
        let files = Files {
            log: RoomyFile::new(alloc)?,
            db: RoomyFile::new(alloc)?,
        };
        let database = Database::Closed(files);
        Ok(RecordedRows { alloc, database })
    }

    /// Opens the database from its files, also where it is open. After a fault it is closed.
    pub fn open(&mut self) -> Result<(), RowFault> {
        reopen(self.alloc, &mut self.database)
    }
}

impl Rows for RecordedRows {
    fn none(alloc: Global) -> Option<RecordedRows> {
        let mut rows = RecordedRows::closed(alloc).ok()?;
        rows.open().ok()?;
        Some(rows)
    }

    fn open_again(&mut self) -> bool {
        self.open().is_ok()
    }
}

impl RowStore for RecordedRows {
    ghost content = { λ _. empty };

    ghost is_clean = { λ _. ⊥ };

    ghost is_open = { λ _. ⊥ };

    ghost may_leave = { λ _ _. ⊥ };

    ghost failed = { λ _. 2 ^ 64 - 1 };

    fn failures(&self) -> u64 {
        u64::MAX
    }

    fn apply(&mut self, changes: &[Change]) -> Result<(), RowFault> {
        if changes.is_empty() {
            return Ok(());
        }
        change(&mut self.database, changes)
    }

    fn load(&mut self) -> Result<Vec<Row>, RowFault> {
        rows_in(&mut self.database)
    }

    ghost settled = { λ _ _ up _. absurd up };
}
