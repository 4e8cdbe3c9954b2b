//! The options that say who may come.

ghost use Rattle.std.specs.Prelude.{◌≡◌, codes, false, IfOk};
ghost use Rattle.clap.specs.Words.{app_of, found_of, rows_of, rule_of};
ghost use Rattle.clap.specs.declared.builder.command.Command.TheViews.{out-Command as fields_of};
ghost use Rattle.broker_command.specs.Line.{AreUsers, IsFlag, anonymous_rule, file_rule, with_users};

use crate::line::{optional, text_of};
use crate::task::AskedUsers;
use clap::{Arg, ArgAction, ArgMatches, Command};
use std::alloc::{AllocError, Global};

/// An option of this name that may be there, with a file.
fn file_option<'a>(alloc: Global, name: &'a str, help: &'a str) -> Arg<'a>
    ensures rule { rule_of result ≡ file_rule name.entry.now }
    ensures local { result.global ≡ false }
{
    optional(alloc, name)
        .long(name)
        .value_name("FILE")
        .help(help)
}

fn anonymous_option<'a>(alloc: Global) -> Arg<'a>
    ensures rule { rule_of result ≡ anonymous_rule }
    ensures local { result.global ≡ false }
{
    Arg::new(alloc, "anonymous")
        .long("anonymous")
        .action(ArgAction::SetTrue)
        .help("Lets in clients without a user name too, where there are users")
}

/// The options that say who may come, and what each may do.
pub(crate) fn with_users<'a>(alloc: Global, command: Command<'a>) -> Result<Command<'a>, AllocError>
    ensures { IfOk result (λ c. (app_of c ≡ with_users (app_of command.entry))
        × ((fields_of command.entry).has_globals ≡ false → (fields_of c).has_globals ≡ false)) }
{
    let users = "Lets in those alone whose user name and password the file has";
    let permissions = "Lets each user do what the rules of the file give it";
    command
        .arg(file_option(alloc, "users", users))?
        .arg(file_option(alloc, "permissions", permissions))?
        .arg(anonymous_option(alloc))
}

/// Whether clients without a user name are let in.
fn is_anonymous(found: &ArgMatches<'_>) -> bool
    ensures { IsFlag (rows_of (found_of found.now)) (codes "anonymous") result }
{
    found.get_flag("anonymous")
}

/// Who may come, as the words say.
pub(crate) fn users_of(alloc: Global, found: &ArgMatches<'_>) -> Result<AskedUsers, AllocError>
    ensures { IfOk result (AreUsers (rows_of (found_of found.now))) }
{
    Ok(AskedUsers {
        users: text_of(alloc, found, "users")?,
        permissions: text_of(alloc, found, "permissions")?,
        anonymous: is_anonymous(found),
    })
}
