//! Files in memory of which one stops, or refuses a call.

use crate::counted::CountedDisk;
use sqlite_disk::{Disk, Files, Fuse, Memory};
use std::alloc::{AllocError, Global};
use std::io;

/// A file in memory that may stop after so many calls, or refuse one.
pub type StoppingFile = CountedDisk<Fuse<Memory>>;

/// What befalls one of the files after so many calls of it.
#[derive(Clone, Copy)]
pub struct Trouble {
    pub is_of_log: bool,
    /// No later call is answered either.
    pub is_stop: bool,
    pub calls: u64,
}

// A disk with these bytes, all of them synced, which stops after so many calls.
fn disk(alloc: Global, bytes: &[u8], stop: u64) -> io::Result<Fuse<Memory>> {
    let mut memory = Memory::new(alloc);
    memory.write_at(0, bytes)?;
    memory.sync()?;
    Ok(Fuse::new(memory, stop))
}

fn file(alloc: Global, bytes: &[u8], trouble: Option<Trouble>) -> io::Result<StoppingFile> {
    let (stop, refusal) = match trouble {
        None => (u64::MAX, None),
        Some(trouble) if trouble.is_stop => (trouble.calls, None),
        Some(trouble) => (u64::MAX, Some(trouble.calls)),
    };
    Ok(CountedDisk::new(disk(alloc, bytes, stop)?, refusal))
}

/// A log and a database file with these bytes, all of them synced.
pub fn stopping_files(
    alloc: Global,
    (log, db): (&[u8], &[u8]),
    trouble: Option<Trouble>,
) -> io::Result<Files<StoppingFile>> {
    let (of_log, of_db) = match trouble {
        Some(it) if it.is_of_log => (trouble, None),
        _ => (None, trouble),
    };
    Ok(Files {
        log: file(alloc, log, of_log)?,
        db: file(alloc, db, of_db)?,
    })
}

/// How many calls were made of the log, and of the database file.
pub fn calls_of(files: &Files<StoppingFile>) -> (u64, u64) {
    (files.log.calls(), files.db.calls())
}

/// All that was written to a file, and what of it was synced; the file has only that then.
pub fn leavings(alloc: Global, file: &mut StoppingFile) -> Result<[Vec<u8>; 2], AllocError> {
    let written = Vec::from_slice(alloc, file.inner().inner().bytes())?;
    file.crash();
    let synced = Vec::from_slice(alloc, file.inner().inner().bytes())?;
    Ok([written, synced])
}
