//! The file of a new database.

use std::alloc::Global;
use std::fs::{self, File, OpenOptions};
use std::io::{self, Write};
use std::os::unix::fs::OpenOptionsExt;

/// How many bytes a page of a new database has. A statement lays out a page of zeros for each that it changes, so small ones are quick.
const PAGE: usize = 1024;

/// Who may read and write a new database: its owner alone. Its log gets the same mode.
const OWNER_ALONE: u32 = 0o600;

/// What the one page of an empty database begins with; what follows is 0 (SQLite's file format, 1.3 and 1.6).
const BEGINNING: &[u8] = b"SQLite format 3\0\x04\0\x02\x02\0\x40\x20\x20\
    \0\0\0\x01\0\0\0\x01\0\0\0\0\0\0\0\0\
    \0\0\0\x01\0\0\0\x04\0\0\0\0\0\0\0\0\0\0\0\x01\
    \0\0\0\0\0\0\0\0\0\0\0\0\0\0\0\0\0\0\0\0\0\0\0\0\0\0\0\0\0\0\0\0\
    \0\0\0\x01\0\x2e\x76\x88\x0d\0\0\0\0\x04\0\0";

/// The page of an empty database.
fn empty_page(alloc: Global) -> io::Result<Vec<u8>> {
    let mut page = Vec::from_slice(alloc, BEGINNING)?;
    page.resize(PAGE, 0)?;
    Ok(page)
}

/// A new file at a path where there is none.
fn make(rt: &HostRuntime, path: &str) -> io::Result<File> {
    OpenOptions::new()
        .write(true)
        .create_new(true)
        .mode(OWNER_ALONE)
        .open(rt, path)
}

fn write_new(rt: &HostRuntime, path: &str, page: &[u8]) -> io::Result<()> {
    let mut file = make(rt, path)?;
    file.write_all(page)?;
    file.sync_all()
}

/// Takes away the file that an earlier call left, which was stopped.
fn clear(rt: &HostRuntime, path: &str, page: &[u8]) -> io::Result<()> {
    match fs::read(rt, path) {
        Ok(left) if left.as_slice() == page => fs::remove_file(rt, path),
        _ => Ok(()),
    }
}

/// Puts the page of an empty database at a path where there is none; at any moment it is there whole or not at all.
fn begin_whole(rt: &HostRuntime, path: &str) -> io::Result<()> {
    let page = empty_page(rt.alloc())?;
    let new = format!(in rt.alloc(); "{path}-new")?;
    clear(rt, new.as_str(), &page)?;
    if fs::exists(rt, path)? {
        return Ok(());
    }
    write_new(rt, new.as_str(), &page)?;
    let linked = fs::hard_link(rt, new.as_str(), path);
    fs::remove_file(rt, new.as_str())?;
    linked
}

/// Puts the file of an empty database at a path where there is none, which its owner alone may read and write. Where its page can't be put
/// there, an empty file is, which is an empty database too: whoever opens it writes larger pages.
pub(crate) fn begin(rt: &HostRuntime, path: &str) {
    if begin_whole(rt, path).is_err() {
        let _ = make(rt, path);
    }
}
