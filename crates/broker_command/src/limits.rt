//! The options that limit what clients send.

ghost use Rattle.std.specs.Prelude.{◌≡◌, codes, false, IfOk, IfSome};
ghost use Rattle.clap.specs.Words.{app_of, found_of, rows_of, rule_of};
ghost use Rattle.clap.specs.declared.builder.command.Command.TheViews.{out-Command as fields_of};
ghost use Rattle.broker_command.specs.Line.{AreLimits, IsFlag, careful_rule, number_rule, with_limits};

use crate::line::{number_of, numbered, optional};
use crate::task::AskedLimits;
use clap::{Arg, ArgAction, ArgMatches, Command};
use std::alloc::{AllocError, Global};

/// An option of this name that may be there, with a number.
fn number_option<'a>(alloc: Global, name: &'a str, value: &'a str, help: &'a str) -> Arg<'a>
    ensures rule { rule_of result ≡ number_rule name.entry.now }
    ensures local { result.global ≡ false }
{
    let option = optional(alloc, name)
        .long(name)
        .value_name(value)
        .help(help);
    numbered(option)
}

fn careful_option<'a>(alloc: Global) -> Arg<'a>
    ensures rule { rule_of result ≡ careful_rule }
    ensures local { result.global ≡ false }
{
    Arg::new(alloc, "careful")
        .long("careful")
        .action(ArgAction::SetTrue)
        .help("Sets each limit that isn't given to one for strangers")
}

/// The options that limit what clients send.
pub(crate) fn with_limits<'a>(
    alloc: Global,
    command: Command<'a>,
) -> Result<Command<'a>, AllocError>
    ensures { IfOk result (λ c. (app_of c ≡ with_limits (app_of command.entry))
        × ((fields_of command.entry).has_globals ≡ false → (fields_of c).has_globals ≡ false)) }
{
    let memory = "How much memory the program may hold; above it nothing new is taken";
    let packet = "How many bytes a packet may have";
    let filters = "How many filters a SUBSCRIBE may have";
    let levels = "How many levels a topic and a filter may have";
    let properties = "How many user properties a PUBLISH may have";
    let expiry = "How long a session may last that nobody is connected to";
    command
        .arg(number_option(alloc, "most-memory", "MEGABYTES", memory))?
        .arg(number_option(alloc, "longest-packet", "BYTES", packet))?
        .arg(number_option(alloc, "most-filters", "N", filters))?
        .arg(number_option(alloc, "most-levels", "N", levels))?
        .arg(number_option(alloc, "most-properties", "N", properties))?
        .arg(number_option(alloc, "longest-expiry", "SECONDS", expiry))?
        .arg(careful_option(alloc))
}

/// Whether the limits that aren't given are those for strangers.
fn is_careful(found: &ArgMatches<'_>) -> bool
    ensures { IsFlag (rows_of (found_of found.now)) (codes "careful") result }
{
    found.get_flag("careful")
}

/// The limits that the words ask for; nothing where an option is given anything but a number.
pub(crate) fn limits_of(found: &ArgMatches<'_>) -> Option<AskedLimits>
    ensures { IfSome result (AreLimits (rows_of (found_of found.now))) }
{
    Some(AskedLimits {
        most_memory: number_of(found, "most-memory")?,
        longest_packet: number_of(found, "longest-packet")?,
        most_filters: number_of(found, "most-filters")?,
        most_levels: number_of(found, "most-levels")?,
        most_properties: number_of(found, "most-properties")?,
        longest_expiry: number_of(found, "longest-expiry")?,
        careful: is_careful(found),
    })
}
