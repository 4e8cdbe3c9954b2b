//! How fast a node and a session are, on the machine it runs on: one line for each figure of the parts that are named as
//! arguments (`idle`, `lanes`, `passing`, `session`, `ships`, `subscriptions`).
#![tactic(auto)]

mod bytes;
mod idle;
mod lanes;
mod passing;
mod server;
mod sessions;
mod ships;
mod subscriptions;

use bench_clock::Failure;
use std::io;
use std::process::ExitCode;

fn run(rt: &HostRuntime, part: &str) -> Result<(), Failure> {
    match part {
        "idle" => idle::run(rt),
        "lanes" => lanes::run(rt),
        "passing" => passing::run(rt),
        "session" => sessions::run(rt),
        "ships" => ships::run(rt),
        "subscriptions" => subscriptions::run(rt),
        _ => Err(Failure::Part),
    }
}

fn run_all(rt: &HostRuntime) -> Result<(), Failure> {
    for part in std::env::args(rt)?.skip(1) {
        run(rt, part.as_str())?;
    }
    Ok(())
}

fn main(rt: HostRuntime) -> io::Result<ExitCode> {
    match run_all(&rt) {
        Ok(()) => Ok(ExitCode::SUCCESS),
        Err(failure) => {
            rt.eprintln(failure.text())?;
            Ok(ExitCode::from(1))
        }
    }
}
