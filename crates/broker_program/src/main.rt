//! The program: its command line, and what each command runs.
#![tactic(auto)]

mod limits;
mod run;

use crate::run::run_task;
use broker_command::task_of;
use cli_stops::{Ending, RunFault, Stop};
use std::io::{self, ErrorKind};
use std::process::ExitCode;

/// The words after the program's name. `Stop::Run` says that memory ran out, `Stop::CommandLine` that one isn't text.
fn words(rt: &HostRuntime) -> Result<Vec<String>, Stop> {
    match std::env::args(rt) {
        Ok(args) => Ok(args.skip(1).collect(rt.alloc())?),
        Err(error) if error.kind() == ErrorKind::OutOfMemory => Err(Stop::Run(RunFault::NoMemory)),
        Err(_) => {
            let text = "error: a word of the command line isn't text";
            Err(Stop::CommandLine(String::from_str(rt.alloc(), text)?))
        }
    }
}

/// Runs what the words ask for.
fn run_words(rt: &HostRuntime) -> Result<(), Ending> {
    let words = words(rt)?;
    let task = task_of(rt.alloc(), &words)?;
    run_task(rt, task)
}

fn main(rt: HostRuntime) -> io::Result<ExitCode> {
    let status = match run_words(&rt) {
        Ok(()) => 0,
        Err(ending) => ending.tell(&mut rt.stdout(), &mut rt.stderr()),
    };
    Ok(ExitCode::from(status))
}
