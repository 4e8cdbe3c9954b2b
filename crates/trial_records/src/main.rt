//! Runs of scripts, and databases and nodes that are opened, of which each allocation is refused in turn: over nodes with their rows in memory,
//! over a cluster, and over nodes with their rows in a database. `examples/refuse.c` refuses them; where nothing does, each is made once.
//!
//!   trial_records [--careless-rows | --careless-nodes] SCRIPT..
//!   trial_records SCRIPT.. --records SCRIPT..
//!
//! plays each of these scripts: those behind `--records` over nodes with a database, once databases were opened, and nodes from rows that no
//! script leaves. With `--careless-rows` the changes of a step are made one by one, and with `--careless-nodes` a node goes on after want of
//! memory: both have to be found.
#![tactic(auto)]

mod careless;
mod clusters;
mod database;
mod failure;
mod nodes;
mod notes;
mod openings;
mod recorded;
mod recovery;
mod run;
mod telling;
mod trial;
mod waking;

use crate::careless::CarelessRows;
use crate::clusters::Together;
use crate::nodes::Nodes;
use crate::openings::DATABASES;
use crate::recorded::RecordedRows;
use crate::telling::tell;
use crate::waking::NODES_LEFT;
use row_store::MemoryRows;
use std::io;
use std::process::ExitCode;
use trial_refusals::{Call, sweep};

/// What plays the runs.
#[derive(Clone, Copy, PartialEq, Eq)]
enum Player {
    Nodes,
    Cluster,
    Records,
    CarelessRows,
    CarelessNodes,
}

impl Player {
    fn name(self) -> &'static str {
        match self {
            Player::Nodes => "nodes",
            Player::Cluster => "a cluster",
            Player::Records => "nodes with a database",
            Player::CarelessRows => "nodes whose changes are made one by one",
            Player::CarelessNodes => "nodes that go on",
        }
    }
}

/// Tells of the run of a script. Whether it is as it should be.
fn tell_of(rt: &HostRuntime, player: Player, path: &str) -> io::Result<bool> {
    let name = player.name();
    match player {
        Player::Nodes => tell::<Nodes<MemoryRows>>(rt, path, name, false),
        Player::Cluster => tell::<Together>(rt, path, name, false),
        Player::Records => tell::<Nodes<RecordedRows>>(rt, path, name, false),
        Player::CarelessRows => tell::<Nodes<CarelessRows>>(rt, path, name, false),
        Player::CarelessNodes => tell::<Nodes<MemoryRows>>(rt, path, name, true),
    }
}

/// Tells of the run of each of these scripts.
fn tell_all(rt: &HostRuntime, players: &[Player], paths: &[String]) -> io::Result<bool> {
    let mut are_right = true;
    for path in paths {
        for player in players {
            are_right = tell_of(rt, *player, path.as_str())? && are_right;
        }
    }
    Ok(are_right)
}

/// Tells of an opening of this name. Whether it is as it should be.
fn tell_opening<C: Call>(rt: &HostRuntime, name: &str, opening: &C) -> io::Result<bool> {
    match sweep(rt.alloc(), opening) {
        Ok(refused) => {
            println!(rt; "{name}: {refused} refused")?;
            Ok(true)
        }
        Err(failure) => {
            let text = failure.text();
            println!(rt; "{name}: FAILED: {text}")?;
            Ok(false)
        }
    }
}

fn tell_openings(rt: &HostRuntime) -> io::Result<bool> {
    let mut are_right = true;
    for database in DATABASES {
        are_right = tell_opening(rt, database.name(), &database)? && are_right;
    }
    for (name, node) in NODES_LEFT {
        are_right = tell_opening(rt, name, &node)? && are_right;
    }
    Ok(are_right)
}

/// Tells of databases and nodes that are opened, and of the run of each of the scripts that stand behind the first word.
fn tell_records(rt: &HostRuntime, words: &[String]) -> io::Result<bool> {
    match words {
        [_records, paths @ ..] => {
            let are_opened = tell_openings(rt)?;
            Ok(tell_all(rt, &[Player::Records], paths)? && are_opened)
        }
        [] => Ok(true),
    }
}

/// Tells of what the words of the command line ask for.
fn told(rt: &HostRuntime, words: &[String]) -> io::Result<bool> {
    match words {
        [first, paths @ ..] if first.as_str() == "--careless-rows" => {
            tell_all(rt, &[Player::CarelessRows], paths)
        }
        [first, paths @ ..] if first.as_str() == "--careless-nodes" => {
            tell_all(rt, &[Player::CarelessNodes], paths)
        }
        _ => {
            let count = words
                .iter()
                .position(|word| word.as_str() == "--records")
                .unwrap_or(words.len());
            let (paths, records) = words.split_at(count);
            let are_right = tell_all(rt, &[Player::Nodes, Player::Cluster], paths)?;
            Ok(tell_records(rt, records)? && are_right)
        }
    }
}

fn main(rt: HostRuntime) -> io::Result<ExitCode> {
    let words: Vec<String> = std::env::args(&rt)?.skip(1).collect(rt.alloc())?;
    if told(&rt, &words)? {
        Ok(ExitCode::SUCCESS)
    } else {
        Ok(ExitCode::FAILURE)
    }
}
