//! The files of a database, which no program that runs has open.

use cli_stops::{Found, answer_of};
use os::RangeLock;
use std::fs::{self, File};
use std::io::{self, ErrorKind, Read};
use std::os::fd::AsRawFd;

/// Where sqlite locks a file: its pending, reserved and shared locks.
const LOCKED: u64 = 1 << 30;

/// How many bytes it locks there.
const LOCKED_BYTES: u64 = 512;

/// The bytes of a database's file and of its log.
#[derive(Drop)]
pub struct Copied {
    pub database: Vec<u8>,
    pub log: Vec<u8>,
}

/// Whether another program has the file locked. If not, it is locked for reading until it is closed.
fn is_locked(file: &File) -> bool {
    os::try_lock_range(file.as_raw_fd(), RangeLock::Shared, LOCKED, LOCKED_BYTES) != 0
}

/// The bytes of a file.
fn read(rt: &HostRuntime, file: &mut File) -> io::Result<Vec<u8>> {
    let mut bytes = Vec::new(rt.alloc());
    file.read_to_end(&mut bytes)?;
    Ok(bytes)
}

/// The bytes of a log, which may be lacking.
fn read_log(rt: &HostRuntime, path: &str) -> io::Result<Option<Vec<u8>>> {
    let mut log = match fs::open(rt, path) {
        Ok(log) => log,
        Err(error) if error.kind() == ErrorKind::NotFound => {
            return Ok(Some(Vec::new(rt.alloc())));
        }
        Err(error) => return Err(error),
    };
    if is_locked(&log) {
        return Ok(None);
    }
    let bytes = read(rt, &mut log)?;
    Ok(Some(bytes))
}

/// Both files, or nothing where a program that runs has one of them locked. No program can lock the database's while the log is read,
/// which lies beside the file to which the path leads.
fn read_both(rt: &HostRuntime, path: &str) -> io::Result<Option<Copied>> {
    let real = fs::canonicalize(rt, path)?;
    let mut file = fs::open(rt, real.as_str())?;
    if is_locked(&file) {
        return Ok(None);
    }
    let log = format!(in rt.alloc(); "{}-wal", real.as_str())?;
    let Some(log) = read_log(rt, log.as_str())? else {
        return Ok(None);
    };
    let database = read(rt, &mut file)?;
    Ok(Some(Copied { database, log }))
}

/// The files of the database at a path, or what is found in their place.
pub fn read_files(rt: &HostRuntime, path: &str) -> Result<Copied, Found> {
    match read_both(rt, path) {
        Ok(Some(files)) => Ok(files),
        Ok(None) => Err(Found::Locked),
        Err(error) => Err(Found::Answered(answer_of(&error))),
    }
}
