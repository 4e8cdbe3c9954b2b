//! Files that are read whole.

use broker_script::LONGEST_FILE;
use cli_stops::{Cause, Ending, Found, Stop, answer_of, script_fault};
use std::fs;
use std::io::{self, Read};

/// The bytes of a file; of one with more than `most` only the first ones, and one too many.
pub fn read_file(rt: &HostRuntime, path: &str, most: usize) -> io::Result<Vec<u8>> {
    let mut bytes = Vec::new(rt.alloc());
    let mut file = fs::open(rt, path)?.take((most as u64).saturating_add(1));
    file.read_to_end(&mut bytes)?;
    Ok(bytes)
}

/// The script in a file. One that is too long comes with one byte too many.
pub fn read_script(rt: &HostRuntime, path: &str) -> Result<Vec<u8>, Ending> {
    match read_file(rt, path, LONGEST_FILE) {
        Ok(script) => Ok(script),
        Err(error) => {
            let answer = answer_of(&error);
            Err(Ending {
                stop: Stop::Script(script_fault(answer)),
                cause: Cause::reading(rt.alloc(), path, Found::Answered(answer)),
            })
        }
    }
}
