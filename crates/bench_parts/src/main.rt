//! How long the parts take that a broker runs most, on the machine it runs on: one line for each
//! figure of the parts that are named as arguments (`contexts`, `store`, `codec`, `wide`, `groups`,
//! `wear:COUNT` for so many pairs of a Subscribe and a Remove, and `rounds` for the rounds of acknowledge, next and offer that a session
//! with a full queue and all identifiers in use makes in a second).
#![tactic(auto)]

mod codec;
mod contexts;
mod groups;
mod rounds;
mod stores;
mod wear;
mod wide;

use bench_clock::Failure;
use std::io;
use std::process::ExitCode;

fn run_wear(rt: &HostRuntime, count: &str) -> Result<(), Failure> {
    let Ok(count) = count.parse::<u64>() else {
        return Err(Failure::Part);
    };
    wear::run(rt, count)
}

fn run(rt: &HostRuntime, part: &str) -> Result<(), Failure> {
    if let Some(count) = part.strip_prefix("wear:") {
        return run_wear(rt, count);
    }
    match part {
        "contexts" => contexts::run(rt),
        "store" => stores::run(rt),
        "codec" => codec::run(rt),
        "wide" => wide::run(rt),
        "groups" => groups::run(rt),
        "rounds" => rounds::run(rt),
        _ => Err(Failure::Part),
    }
}

fn run_all(rt: &HostRuntime) -> Result<(), Failure> {
    for part in std::env::args(rt)?.skip(1) {
        run(rt, part.as_str())?;
    }
    Ok(())
}

fn main(rt: HostRuntime) -> io::Result<ExitCode> {
    match run_all(&rt) {
        Ok(()) => Ok(ExitCode::SUCCESS),
        Err(failure) => {
            rt.eprintln(failure.text())?;
            Ok(ExitCode::from(1))
        }
    }
}
