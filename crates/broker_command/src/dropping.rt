//! The command that drops something of a node that is down.

ghost use Rattle.std.specs.Prelude.{◌≡◌, false, IfOk, IfSome};
ghost use Rattle.clap.specs.Words.{app_of, found_of, rows_of};
ghost use Rattle.clap.specs.declared.builder.command.Command.TheViews.{out-Command as fields_of};
ghost use Rattle.broker_command.specs.Line.{dropping, IsDrop};

use crate::addresses::address_option;
use crate::line::{node_words, text_of};
use crate::task::{AskedDrop, Task};
use clap::{ArgMatches, Command};
use std::alloc::{AllocError, Global};

/// The command's words.
pub(crate) fn drop_command<'a>(alloc: Global) -> Result<Command<'a>, AllocError>
    ensures { IfOk result (λ c. (app_of c ≡ dropping) × ((fields_of c).has_globals ≡ false)) }
{
    let about = "Drops one of these from the rows of a node that is down, and tells what went";
    let session = "Ends the session of this client: it is over once the node is started";
    let queue = "Drops the messages that wait in the queue of this client";
    let lane = "Drops the messages that wait for the node of this name";
    node_words(alloc, "drop", about)?
        .arg(address_option(alloc, "session", "CLIENT", session))?
        .arg(address_option(alloc, "queue", "CLIENT", queue))?
        .arg(address_option(alloc, "lane", "NODE", lane))
}

/// What the command asks for.
pub(crate) fn drop_task(alloc: Global, found: &ArgMatches<'_>) -> Result<Option<Task>, AllocError>
    ensures { IfOk result (λ task. IfSome task (IsDrop (rows_of (found_of found.now)))) }
{
    let (Some(configuration), Some(node), Some(database)) = (
        found.get_str("CONFIG"),
        found.get_str("NODE"),
        found.get_str("DATABASE"),
    ) else {
        return Ok(None);
    };
    let configuration = String::from_str(alloc, configuration)?;
    let node = String::from_str(alloc, node)?;
    let database = String::from_str(alloc, database)?;
    let session = text_of(alloc, found, "session")?;
    let queue = text_of(alloc, found, "queue")?;
    let lane = text_of(alloc, found, "lane")?;
    Ok(Some(Task::DropRows(AskedDrop {
        configuration,
        node,
        database,
        session,
        queue,
        lane,
    })))
}
