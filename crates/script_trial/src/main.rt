//! A trial of a script before any proof: with the words `play SCRIPT` it plays the script in that file as `broker play` plays it.
#![tactic(auto)]

use broker_script::LONGEST_FILE;
use script_runs::run_text;
use std::fs;
use std::io::{self, Read};
use std::process::ExitCode;

fn main(rt: HostRuntime) -> io::Result<ExitCode> {
    let alloc = rt.alloc();
    let mut words = std::env::args(&rt)?.skip(2);
    let Some(path) = words.next() else {
        return Ok(ExitCode::from(2));
    };
    let mut script = Vec::new(alloc);
    let mut file = fs::open(&rt, path.as_str())?.take((LONGEST_FILE as u64).saturating_add(1));
    file.read_to_end(&mut script)?;
    let status = run_text(alloc, script.as_slice(), &mut rt.stdout(), &mut rt.stderr());
    Ok(ExitCode::from(status))
}
