//! Whether a disk takes anything more.

use cli_stops::{Answer, Found, answer_of};
use std::alloc::Global;
use std::fs::{self, File, OpenOptions};
use std::io::{self, Write};
use std::os::unix::fs::OpenOptionsExt;

/// How many bytes are tried: about what a turn of a node writes.
const TRIED: usize = 65536;

fn write_zeros(alloc: Global, mut file: File) -> io::Result<()> {
    let mut zeros = Vec::new(alloc);
    zeros.resize(TRIED, 0)?;
    file.write_all(&zeros)?;
    file.sync_all()
}

/// Writes a file beside the one at a path, and takes it away again.
fn write_beside(rt: &HostRuntime, path: &str) -> io::Result<()> {
    let beside = format!(in rt.alloc(); "{path}-try")?;
    let file = OpenOptions::new()
        .write(true)
        .create_new(true)
        .mode(0o600)
        .open(rt, beside.as_str())?;
    let written = write_zeros(rt.alloc(), file);
    fs::remove_file(rt, beside.as_str())?;
    written
}

/// What is found where the files of the database at a path couldn't be written: that the disk is full or can only be read, where it
/// takes no file beside them for that, and else that it failed.
pub fn unwritten(rt: &HostRuntime, path: &str) -> Found {
    let Err(error) = write_beside(rt, path) else {
        return Found::Failed;
    };
    match answer_of(&error) {
        Answer::NoRoom => Found::Answered(Answer::NoRoom),
        Answer::ReadOnly => Found::Answered(Answer::ReadOnly),
        _ => Found::Failed,
    }
}
