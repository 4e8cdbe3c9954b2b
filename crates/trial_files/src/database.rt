//! A database of rows over two files, from opening to closing.
//!
//! The functions have no clause and hold for each store or each disk, so that no proof goes into one.

use row_store::RowFault;
use session_records::SqlRows;
use sqlite::{Alter, Connection, Error, ErrorCode, FileStore, Files, Options};
use sqlite_disk::Disk;
use std::alloc::Global;

// A commit first copies the log into the database file, once that log holds four pages.
fn options(seed: u64) -> Options {
    Options {
        checkpoint_frames: 4,
        ..Options::new(seed)
    }
}

fn fault_of(error: &Error) -> RowFault {
    match error {
        Error::SqliteFailure(ErrorCode::OutOfMemory) => RowFault::NoMemory,
        _ => RowFault::Device,
    }
}

/// A connection to a database on these files. A fault gives them back.
pub fn opened<D: Disk + Drop>(
    alloc: Global,
    files: Files<D>,
    seed: u64,
) -> Result<Connection<FileStore<D>>, (RowFault, Files<D>)> {
    if !files.may_be_used() {
        return Err((RowFault::Device, files));
    }
    match Connection::open_files(alloc, files, options(seed)) {
        Ok(conn) => Ok(conn),
        Err((error, left)) => Err((fault_of(&error), left.into_files())),
    }
}

/// The rows of a database that is in no transaction.
pub fn adopted<S: Alter + Drop>(
    conn: Connection<S>,
) -> Result<SqlRows<S>, (RowFault, Connection<S>)> {
    if conn.is_autocommit() {
        SqlRows::adopt(conn)
    } else {
        Err((RowFault::Device, conn))
    }
}

/// A connection that is to be closed, or the store of one that is not.
pub type Left<S> = Result<Connection<S>, S>;

/// The connection to a database, or its store.
pub fn left<S: Alter + Drop>(conn: Connection<S>, closes: bool) -> Left<S> {
    if closes {
        Ok(conn)
    } else {
        Err(conn.into_store())
    }
}

/// The files, after the log was copied into the database file where the connection is closed, unless that failed.
pub fn files_of<D: Disk + Drop>(left: Left<FileStore<D>>) -> Files<D> {
    match left {
        Ok(conn) => closed(conn),
        Err(store) => files_in(store),
    }
}

fn files_in<D: Disk + Drop>(store: FileStore<D>) -> Files<D> {
    store.close()
}

fn closed<D: Disk + Drop>(conn: Connection<FileStore<D>>) -> Files<D> {
    match conn.close_files() {
        Ok(files) => files,
        Err((_, store)) => files_in(store),
    }
}
