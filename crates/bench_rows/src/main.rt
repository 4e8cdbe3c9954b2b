//! How many rows a second a store of rows takes, one by one and a thousand at once, and how long it is to load: over memory, where
//! an argument is `memory`, and over a database, where one is `file`, followed by the path of a database that isn't there yet; and how
//! many messages of a broker it takes, where one is `turns` or `runs`, followed by such a path: in turns of a hundred clients with one
//! message each, or of ten with sixteen each.
#![tactic(auto)]

mod measure;

use crate::measure::{
    JOINING, PASSING, RUNS, SINGLE, Turns, fill_and_load, load_again, make_turns,
};
use bench_clock::Failure;
use row_database::{Wary, open_rows};
use row_store::MemoryRows;
use std::io;
use std::process::ExitCode;

fn memory(rt: &HostRuntime) -> Result<(), Failure> {
    let mut rows = MemoryRows::new(rt.alloc());
    fill_and_load(rt, &mut rows, 20_000)
}

fn file(rt: &HostRuntime, path: &str) -> Result<(), Failure> {
    let Ok(mut rows) = open_rows(rt, path, Wary) else {
        return Err(Failure::Outside);
    };
    fill_and_load(rt, &mut rows, 1_000)
}

fn file_again(rt: &HostRuntime, path: &str) -> Result<(), Failure> {
    let Ok(mut rows) = open_rows(rt, path, Wary) else {
        return Err(Failure::Outside);
    };
    load_again(rt, &mut rows)
}

fn turns(rt: &HostRuntime, path: &str, turns: Turns) -> Result<(), Failure> {
    let Ok(mut rows) = open_rows(rt, path, Wary) else {
        return Err(Failure::Outside);
    };
    make_turns(rt, &mut rows, turns)
}

fn run(rt: &HostRuntime) -> Result<(), Failure> {
    let mut words = std::env::args(rt)?.skip(1);
    while let Some(word) = words.next() {
        match word.as_str() {
            "memory" => memory(rt)?,
            "file" => {
                let path = words.next().ok_or(Failure::Part)?;
                file(rt, path.as_str())?;
                file_again(rt, path.as_str())?;
            }
            "turns" => {
                let path = words.next().ok_or(Failure::Part)?;
                turns(rt, path.as_str(), SINGLE)?;
            }
            "runs" => {
                let path = words.next().ok_or(Failure::Part)?;
                turns(rt, path.as_str(), RUNS)?;
            }
            "joining" => {
                let path = words.next().ok_or(Failure::Part)?;
                turns(rt, path.as_str(), JOINING)?;
            }
            "passing" => {
                let path = words.next().ok_or(Failure::Part)?;
                turns(rt, path.as_str(), PASSING)?;
            }
            _ => return Err(Failure::Part),
        }
    }
    Ok(())
}

fn main(rt: HostRuntime) -> io::Result<ExitCode> {
    match run(&rt) {
        Ok(()) => Ok(ExitCode::SUCCESS),
        Err(failure) => {
            rt.eprintln(failure.text())?;
            Ok(ExitCode::from(1))
        }
    }
}
