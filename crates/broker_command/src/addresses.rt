//! The options that name addresses.

ghost use Rattle.std.specs.Prelude.{◌≡◌, codes, false, IfOk};
ghost use Rattle.clap.specs.Words.{app_of, found_of, rows_of, rule_of};
ghost use Rattle.clap.specs.declared.builder.command.Command.TheViews.{out-Command as fields_of};
ghost use Rattle.broker_command.specs.Line.{IsFlag, address_rule, anywhere_rule, with_addresses};

use crate::line::optional;
use clap::{Arg, ArgAction, ArgMatches, Command};
use std::alloc::{AllocError, Global};

/// An option of this name that may be there, with a text of this kind.
pub(crate) fn address_option<'a>(
    alloc: Global,
    name: &'a str,
    value: &'a str,
    help: &'a str,
) -> Arg<'a>
    ensures rule { rule_of result ≡ address_rule name.entry.now }
    ensures local { result.global ≡ false }
{
    optional(alloc, name)
        .long(name)
        .value_name(value)
        .help(help)
}

fn anywhere_option<'a>(alloc: Global) -> Arg<'a>
    ensures rule { rule_of result ≡ anywhere_rule }
    ensures local { result.global ≡ false }
{
    Arg::new(alloc, "bridge-from-anywhere")
        .long("bridge-from-anywhere")
        .action(ArgAction::SetTrue)
        .help(
            "Takes links of other nodes from any IP address, and not from those of the bridges in CONFIG alone",
        )
}

/// Whether links of other nodes are taken from any address.
pub(crate) fn is_from_anywhere(found: &ArgMatches<'_>) -> bool
    ensures { IsFlag (rows_of (found_of found.now)) (codes "bridge-from-anywhere") result }
{
    found.get_flag("bridge-from-anywhere")
}

/// The options that say where the status is told, where the node waits, and from where links may come.
pub(crate) fn with_addresses<'a>(
    alloc: Global,
    command: Command<'a>,
) -> Result<Command<'a>, AllocError>
    ensures { IfOk result (λ c. (app_of c ≡ with_addresses (app_of command.entry))
        × ((fields_of command.entry).has_globals ≡ false → (fields_of c).has_globals ≡ false)) }
{
    let status = "Tells over HTTP at an IP address with a port how the node is";
    let hosts = "Tells it by these names of hosts too, with commas between them";
    let clients = "Waits there for clients, at an IP address with a port";
    let bridge = "Waits there for other nodes, at an IP address with a port";
    command
        .arg(address_option(alloc, "status", "ADDRESS", status))?
        .arg(address_option(alloc, "status-host", "NAMES", hosts))?
        .arg(address_option(alloc, "listen", "ADDRESS", clients))?
        .arg(address_option(alloc, "bridge-listen", "ADDRESS", bridge))?
        .arg(anywhere_option(alloc))
}
