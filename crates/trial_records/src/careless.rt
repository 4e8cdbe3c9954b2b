//! Rows whose changes are made one by one, and so not whole: want of memory amid them has to be found.

ghost use Rattle.std.specs.Prelude.{◌≡◌, ⊤};

use crate::nodes::Rows;
use row_store::{Change, MemoryRows, Row, RowFault, RowStore};
use std::alloc::Global;

/// Rows of which nothing is promised.
#[derive(Drop)]
pub struct CarelessRows {
    rows: MemoryRows,
}

impl Rows for CarelessRows {
    fn none(alloc: Global) -> Option<CarelessRows> {
        let rows = MemoryRows::new(alloc);
        Some(CarelessRows { rows })
    }

    fn open_again(&mut self) -> bool {
        true
    }
}

impl RowStore for CarelessRows {
    ghost content = { λ r. r.rows };

    ghost is_clean = { λ _. ⊥ };

    ghost is_open = { λ _. ⊤ };

    ghost may_leave = { λ r c. c ≡ r.rows };

    ghost failed = { λ _. 0 };

    fn failures(&self) -> u64 {
        0
    }

    fn apply(&mut self, changes: &[Change]) -> Result<(), RowFault> {
        if changes.is_empty() {
            return Ok(());
        }
        for change in changes.chunks(1) {
            if self.rows.apply(change).is_err() {
                return Err(RowFault::NoMemory);
            }
        }
        Ok(())
    }

    fn load(&mut self) -> Result<Vec<Row>, RowFault> {
        match self.rows.load() {
            Ok(rows) => Ok(rows),
            Err(_) => Err(RowFault::NoMemory),
        }
    }

    ghost settled = { λ s c up left. left };
}
