//! Rows of a node that is down, from which something is dropped.

ghost use Rattle.std.specs.Prelude.{◌<◌, length, IfOk};
ghost use Rattle.row_drops.specs.Dropping.{IsInside};

use crate::checking::{ended, print_text};
use crate::disk::unwritten;
use crate::dropped::dropped_text;
use crate::figures::figures_of;
use crate::found::{found_of_flaw, found_of_open};
use crate::rows::refused;
use cli_files::read_configuration;
use cli_stops::{Cause, Ending, Found, RunFault, Stop, answer_of};
use home_table::HomeTable;
use row_database::{OpenFault, Wary, open_rows};
use row_drops::{Target, drop_in};
use row_store::{Change, Row, RowFault, RowStore};
use std::alloc::Global;
use std::fs;
use std::io::Write;

/// What is to be dropped of which node: one of the last three.
#[derive(Clone, Copy, Debug)]
pub struct Asked<'a> {
    /// The path of the configuration.
    pub configuration: &'a str,
    /// The node's name in it.
    pub node: &'a str,
    /// The path of the node's database.
    pub database: &'a str,
    /// The client whose session is dropped.
    pub session: Option<&'a str>,
    /// The client whose queue is dropped.
    pub queue: Option<&'a str>,
    /// The name of the node for which nothing is to wait.
    pub lane: Option<&'a str>,
}

/// The end of a run whose database isn't opened.
fn unopened(rt: &HostRuntime, path: &str, fault: OpenFault) -> Ending {
    let found = match fault {
        OpenFault::Refused => refused(rt, path),
        OpenFault::Device => unwritten(rt, path),
        _ => found_of_open(fault, Found::Failed),
    };
    ended(Cause::opening(rt.alloc(), path, found))
}

/// The version of the rows of a node: 0 where they say none.
fn version_of(rows: &[Row]) -> u16 {
    match rows {
        [first, ..] => match first.value.as_slice() {
            [high, low, ..] => u16::from(*high) * 256 + u16::from(*low),
            _ => 0,
        },
        [] => 0,
    }
}

/// Why rows aren't those of node `id` of `nodes` nodes in the version of today.
fn flaw_in<R: RowStore>(alloc: Global, rows: &mut R, id: u16, nodes: u16) -> Found {
    let Ok(loaded) = rows.load() else {
        return Found::Failed;
    };
    if loaded.is_empty() {
        return Found::NoRows;
    }
    match figures_of(alloc, &loaded, id, nodes) {
        Ok(_) => Found::OtherVersion(version_of(&loaded)),
        Err(flaw) => found_of_flaw(flaw),
    }
}

/// What is found where nothing was dropped.
fn found_by<R: RowStore>(
    rt: &HostRuntime,
    rows: &mut R,
    fault: RowFault,
    place: (u16, u16),
    path: &str,
) -> Found {
    let (id, nodes) = place;
    match fault {
        RowFault::NoMemory => Found::NoMemory,
        RowFault::Device => unwritten(rt, path),
        RowFault::BadRow => flaw_in(rt.alloc(), rows, id, nodes),
    }
}

/// The number of the node for which nothing is to wait.
fn lane_to(rt: &HostRuntime, homes: &HomeTable, name: &str) -> Result<Target, Ending>
    ensures { IfOk result (λ target. IsInside target (length homes.now.nodes)) }
{
    match homes.find(name) {
        Some(node) if node < homes.nodes() => Ok(Target::Lane(node)),
        _ => Err(unasked(
            rt,
            "error: --lane has a name that the configuration doesn't have",
        )),
    }
}

/// The end of a run that isn't told what to drop.
fn unasked(rt: &HostRuntime, text: &str) -> Ending {
    match String::from_str(rt.alloc(), text) {
        Ok(text) => Ending::from(Stop::CommandLine(text)),
        Err(_) => Ending::from(Stop::Run(RunFault::NoMemory)),
    }
}

/// A client by its identifier.
fn client_of(rt: &HostRuntime, client: &str) -> Result<String, Ending> {
    match String::from_str(rt.alloc(), client) {
        Ok(client) => Ok(client),
        Err(_) => Err(Ending::from(Stop::Run(RunFault::NoMemory))),
    }
}

/// What is to be dropped.
fn target_of(rt: &HostRuntime, homes: &HomeTable, asked: &Asked<'_>) -> Result<Target, Ending>
    ensures { IfOk result (λ target. IsInside target (length homes.now.nodes)) }
{
    match (asked.session, asked.queue, asked.lane) {
        (Some(client), None, None) => Ok(Target::Session(client_of(rt, client)?)),
        (None, Some(client), None) => Ok(Target::Queue(client_of(rt, client)?)),
        (None, None, Some(name)) => lane_to(rt, homes, name),
        _ => Err(unasked(rt, "error: drop takes one of --session, --queue and --lane")),
    }
}

/// Prints what was dropped.
fn print<W: Write>(rt: &HostRuntime, changes: &[Change], out: &mut W) -> Result<(), Ending> {
    match dropped_text(rt.alloc(), changes) {
        Ok(text) => print_text(&text, out),
        Err(_) => Err(Ending::from(Stop::Run(RunFault::NoMemory))),
    }
}

/// Drops what is asked for from the rows of a node that is down, all at once or nothing, and prints how many sessions and messages that were. No database is made.
pub fn drop_rows<W: Write>(rt: &HostRuntime, asked: Asked<'_>, out: &mut W) -> Result<(), Ending> {
    let (homes, id) = read_configuration(rt, asked.configuration, asked.node)?;
    let target = target_of(rt, &homes, &asked)?;
    let path = asked.database;
    if let Err(error) = fs::metadata(rt, path) {
        let found = Found::Answered(answer_of(&error));
        return Err(ended(Cause::opening(rt.alloc(), path, found)));
    }
    let mut rows = match open_rows(rt, path, Wary) {
        Ok(rows) => rows,
        Err(fault) => return Err(unopened(rt, path, fault)),
    };
    match drop_in(rt.alloc(), &mut rows, id, homes.nodes(), &target) {
        Ok(changes) => print(rt, &changes, out),
        Err(fault) => {
            let found = found_by(rt, &mut rows, fault, (id, homes.nodes()), path);
            Err(ended(Cause::keeping(rt.alloc(), path, found)))
        }
    }
}
