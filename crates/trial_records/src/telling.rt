//! What is told of the runs of a script of which allocations are refused.

use crate::failure::Failure;
use crate::run::read_run;
use crate::trial::{Played, sweep};
use std::alloc::Global;
use std::fs;
use std::io::{self, Read};

fn read_file(rt: &HostRuntime, path: &str) -> io::Result<Vec<u8>> {
    let mut bytes = Vec::new(rt.alloc());
    let mut file = fs::open(rt, path)?;
    file.read_to_end(&mut bytes)?;
    Ok(bytes)
}

/// How many allocations of the run of a script were refused.
fn refused<P: Played + Drop>(
    alloc: Global,
    script: &[u8],
    goes_on: bool,
) -> Result<usize, Failure> {
    let run = read_run(alloc, script, goes_on)?;
    let refused = sweep::<P>(alloc, &run);
    drop(run);
    refused
}

/// Refuses each allocation of the run of the script at a path in turn, and tells in a line what came of it; the name is that of what
/// plays it. Where its nodes go on after want of memory, that has to be found. Whether it is as it should be; a fault is that of reading
/// the script or of writing the line.
pub fn tell<P: Played + Drop>(
    rt: &HostRuntime,
    path: &str,
    name: &str,
    goes_on: bool,
) -> io::Result<bool> {
    let script = read_file(rt, path)?;
    match refused::<P>(rt.alloc(), &script, goes_on) {
        Ok(refused) => {
            println!(rt; "{path}, {name}: {refused} refused")?;
            Ok(true)
        }
        Err(failure) => {
            let text = failure.text();
            println!(rt; "{path}, {name}: FAILED: {text}")?;
            Ok(false)
        }
    }
}
