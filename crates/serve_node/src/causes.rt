//! What lies behind the end of a run: an address that the system refused, or what the rows and the disk answer once more.

ghost use Rattle.std.specs.Prelude.{◌<◌, length};

use crate::telling::Refused;
use cli_reports::{found_of_open, held, refused, unwritten};
use cli_stops::{Answer, Cause, Ending, Found, RunFault, Stop, Tried, answer_of, rows_fault};
use home_table::HomeTable;
use node_server::ListenAt;
use row_database::OpenFault;
use std::alloc::Global;
use std::net::SocketAddr;

/// The end of a run whose database at a path isn't opened; the system is asked about the path where it refused it, and about the disk where that failed.
pub(crate) fn unopened(rt: &HostRuntime, path: &str, fault: OpenFault) -> Ending {
    let found = match fault {
        OpenFault::Refused => refused(rt, path),
        OpenFault::Device => unwritten(rt, path),
        _ => found_of_open(fault, Found::Failed),
    };
    Ending {
        stop: Stop::Run(rows_fault(&found)),
        cause: Cause::opening(rt.alloc(), path, found),
    }
}

/// What is found of rows from which a node isn't opened, or which couldn't be changed.
fn cause_of_rows(rt: &HostRuntime, path: &str, id: u16, nodes: u16) -> Option<Cause> {
    let cause = match held(rt, path, id, nodes) {
        Ok(_) => return Cause::keeping(rt.alloc(), path, unwritten(rt, path)),
        Err(cause) => cause?,
    };
    match &cause.found {
        Found::NoRows => Cause::keeping(rt.alloc(), path, unwritten(rt, path)),
        _ => Some(cause),
    }
}

/// What the program asked of the system for a node: its database, where it was to wait for clients and for other nodes, where its status was to be told, if anywhere,
/// and which of these addresses was refused.
#[derive(Clone, Copy, Debug)]
pub(crate) struct Asked<'a> {
    pub database: &'a str,
    pub at: ListenAt<'a>,
    pub status: Option<&'a str>,
    pub refused: Option<Refused>,
}

/// What is found where the node was to wait at an address; nothing where that wasn't refused.
fn found_at(address: &str, refused: Option<Refused>) -> Option<Found> {
    let Ok(place) = address.parse::<SocketAddr>() else {
        return Some(Found::NoAddress);
    };
    match refused {
        Some(refused) if refused.address == place => Some(Found::Answered(refused.answer)),
        _ => None,
    }
}

/// The first bridge of another node that isn't an IP address with a port.
fn unfound_bridge(alloc: Global, homes: &HomeTable) -> Option<Cause> {
    for number in 0..homes.nodes() {
        let bridge = homes.bridge(number);
        if bridge.parse::<SocketAddr>().is_err() {
            return Cause::finding(alloc, bridge, Found::NoAddress);
        }
    }
    None
}

/// What is found of the addresses of a node and of its status, and of the bridges of the others.
fn cause_of_sockets(alloc: Global, homes: &HomeTable, id: u16, asked: &Asked<'_>) -> Option<Cause>
    requires { id < length homes.now.nodes }
{
    let address = asked.at.clients.unwrap_or(homes.reference(id));
    let bridge = asked.at.nodes.unwrap_or(homes.bridge(id));
    if let Some(found) = found_at(address, asked.refused) {
        return Cause::waiting(alloc, address, found);
    }
    if let Some(found) = found_at(bridge, asked.refused) {
        return Cause::waiting(alloc, bridge, found);
    }
    if let Some(cause) = unfound_bridge(alloc, homes) {
        return Some(cause);
    }
    let status = asked.status?;
    let found = found_at(status, asked.refused)?;
    Cause::waiting(alloc, status, found)
}

/// What lies behind the end of a run of the node.
pub(crate) fn cause_of(
    rt: &HostRuntime,
    stop: &Stop,
    homes: &HomeTable,
    id: u16,
    asked: &Asked<'_>,
) -> Option<Cause>
    requires { id < length homes.now.nodes }
{
    match stop {
        Stop::Run(RunFault::Rows) => cause_of_rows(rt, asked.database, id, homes.nodes()),
        Stop::Run(RunFault::OlderTable(newest)) => {
            let found = Found::OlderTable(*newest, homes.version());
            Cause::keeping(rt.alloc(), asked.database, found)
        }
        Stop::Run(RunFault::Socket) => cause_of_sockets(rt.alloc(), homes, id, asked),
        Stop::Run(RunFault::Output) => Some(Cause {
            tried: Tried::Printing,
            found: Found::Answered(Answer::Unnumbered),
        }),
        _ => None,
    }
}
