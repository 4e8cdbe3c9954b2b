//! What the rows of a node that is down hold, told to whoever asks.

ghost use Rattle.std.specs.Prelude.{◌<◌, length};

use crate::{Figures, held, report};
use cli_files::read_configuration;
use cli_stops::{Cause, Ending, Found, RunFault, Stop, Tried, answer_of, rows_fault};
use home_table::HomeTable;
use std::io::Write;

/// Prints a text.
pub(crate) fn print_text<W: Write>(text: &String, out: &mut W) -> Result<(), Ending> {
    match out.write_all(text.as_bytes()) {
        Ok(()) => Ok(()),
        Err(error) => Err(Ending {
            stop: Stop::Run(RunFault::Output),
            cause: Some(Cause {
                tried: Tried::Printing,
                found: Found::Answered(answer_of(&error)),
            }),
        }),
    }
}

/// Prints the text of the figures.
fn print<W: Write>(
    rt: &HostRuntime,
    out: &mut W,
    node: &str,
    id: u16,
    figures: &Figures,
) -> Result<(), Ending> {
    let Ok(text) = report(rt.alloc(), node, id, figures) else {
        return Err(Ending::from(Stop::Run(RunFault::NoMemory)));
    };
    print_text(&text, out)
}

/// What ends a check of the rows in the database at a path, where the node has made a subscription under a later version than the table's.
fn older(rt: &HostRuntime, path: &str, figures: &Figures, homes: &HomeTable) -> Option<Ending> {
    let newest = figures.newest;
    let version = homes.version();
    if newest <= version {
        return None;
    }
    Some(Ending {
        stop: Stop::Run(RunFault::OlderTable(newest)),
        cause: Cause::keeping(rt.alloc(), path, Found::OlderTable(newest, version)),
    })
}

/// The end of a run whose rows in the database at a path can't be had, or can't be changed.
pub(crate) fn ended(cause: Option<Cause>) -> Ending {
    let fault = match &cause {
        Some(cause) => rows_fault(&cause.found),
        None => RunFault::NoMemory,
    };
    Ending {
        stop: Stop::Run(fault),
        cause,
    }
}

/// Prints what the rows of the named node of a configuration hold, which are in the database at a path. The node is down, and no file is
/// made or changed. A table from which the node wouldn't be opened ends it as its start.
pub fn check<W: Write>(
    rt: &HostRuntime,
    configuration: &str,
    node: &str,
    database: &str,
    out: &mut W,
) -> Result<(), Ending> {
    let (homes, id) = read_configuration(rt, configuration, node)?;
    match held(rt, database, id, homes.nodes()) {
        Ok(figures) => match older(rt, database, &figures, &homes) {
            Some(ending) => Err(ending),
            None => print(rt, out, node, id, &figures),
        },
        Err(cause) => Err(ended(cause)),
    }
}
