//! A database over two files, which may be closed.
ghost use Rattle.std.specs.Prelude.{◌≡◌, ◌≢◌, Err};

use row_store::{Change, Row, RowFault, RowStore};
use session_records::SqlRows;
use sqlite::{Connection, FileStore, Files};
use sqlite_disk::Disk;
use std::alloc::Global;
use std::mem;
use trial_files::{adopted, files_of, left, opened};

/// A database over two files.
#[derive(Drop)]
pub enum Database<D: Disk> {
    Closed(Files<D>),
    Open(SqlRows<FileStore<D>>),
    /// It is taken out.
    Gone,
}

/// The files as they are: the log stays.
fn files_in<D: Disk + Drop>(database: Database<D>) -> Option<Files<D>> {
    match database {
        Database::Closed(files) => Some(files),
        Database::Open(rows) => Some(files_of(left(rows.into_connection(), false))),
        Database::Gone => None,
    }
}

fn taken<D: Disk + Drop>(conn: Connection<FileStore<D>>) -> (Database<D>, Result<(), RowFault>) {
    match adopted(conn) {
        Ok(rows) => (Database::Open(rows), Ok(())),
        Err((fault, conn)) => (Database::Closed(files_of(left(conn, false))), Err(fault)),
    }
}

fn opened_over<D: Disk + Drop>(
    alloc: Global,
    files: Files<D>,
) -> (Database<D>, Result<(), RowFault>) {
    match opened(alloc, files, 1) {
        Ok(conn) => taken(conn),
        Err((fault, files)) => (Database::Closed(files), Err(fault)),
    }
}

/// Opens the database again from its files, as they are. Where that can't be done it is closed.
pub fn reopen<D: Disk + Drop>(alloc: Global, database: &mut Database<D>) -> Result<(), RowFault> {
    let Some(files) = files_in(mem::replace(database, Database::Gone)) else {
        return Err(RowFault::Device);
    };
    let (found, outcome) = opened_over(alloc, files);
    *database = found;
    outcome
}

/// Changes the rows of an open database.
pub fn change<D: Disk + Drop>(
    database: &mut Database<D>,
    changes: &[Change],
) -> Result<(), RowFault>
    ensures { result ≢ Err RowFault.BadRow }
{
    match database {
        Database::Open(rows) => rows.apply(changes),
        _ => Err(RowFault::Device),
    }
}

/// The rows of an open database.
pub fn rows_in<D: Disk + Drop>(database: &mut Database<D>) -> Result<Vec<Row>, RowFault> {
    match database {
        Database::Open(rows) => rows.load(),
        _ => Err(RowFault::Device),
    }
}
