//! A database that is opened.

use crate::RecordedRows;
use row_store::{Change, Row, RowFault, RowStore};
use std::alloc::Global;
use trial_refusals::{Call, Changing, Fault, Trial, try_changing};

/// A database that is to be opened.
#[derive(Clone, Copy)]
pub enum Database {
    /// Its files are empty.
    New,
    /// It has a row.
    Filled,
}

pub const DATABASES: [Database; 2] = [Database::New, Database::Filled];

impl Database {
    pub fn name(self) -> &'static str {
        match self {
            Database::New => "a new database is opened",
            Database::Filled => "a database with a row is opened",
        }
    }
}

/// The rows of a database, and how many they are.
#[derive(Drop)]
struct Opening {
    rows: RecordedRows,
    count: usize,
}

fn put(alloc: Global) -> Result<Change, RowFault> {
    let owner = Vec::from_slice(alloc, b"t")?;
    let place = Vec::new(alloc);
    let value = Vec::from_slice(alloc, b"x")?;
    Ok(Change::Put(Row {
        kind: 5,
        owner,
        place,
        value,
    }))
}

/// Puts a row.
fn fill(alloc: Global, rows: &mut RecordedRows) -> Result<(), RowFault> {
    let change = put(alloc)?;
    rows.open()?;
    let changes = [change];
    let filled = rows.apply(&changes);
    drop(changes);
    filled
}

fn opening_of(alloc: Global, database: Database) -> Result<Opening, RowFault> {
    let mut rows = RecordedRows::closed(alloc)?;
    let (filled, count) = match database {
        Database::New => (Ok(()), 0),
        Database::Filled => (fill(alloc, &mut rows), 1),
    };
    let opening = Opening { rows, count };
    match filled {
        Ok(()) => Ok(opening),
        Err(fault) => Err(fault),
    }
}

impl Changing for Opening {
    fn make(&mut self, _alloc: Global) -> Result<(), Fault> {
        match self.rows.open() {
            Ok(()) => Ok(()),
            Err(fault) => Err(Fault::from(fault)),
        }
    }

    fn is_as_before(&mut self) -> bool {
        self.rows.open().is_ok() && self.is_made()
    }

    fn is_made(&mut self) -> bool {
        match self.rows.load() {
            Ok(rows) => rows.len() == self.count,
            Err(_) => false,
        }
    }
}

impl Call for Database {
    fn attempt(&self, alloc: Global, number: usize) -> Trial {
        let mut opening = match opening_of(alloc, *self) {
            Ok(opening) => opening,
            Err(fault) => return Err(Fault::from(fault).into()),
        };
        let tried = try_changing(alloc, number, &mut opening);
        drop(opening);
        tried
    }
}
