//! The files of users and of permissions that a node is started with.

ghost use Rattle.std.specs.Prelude.{◌≡◌, ◌++◌, codes, is_some, IfOk, IfSome};
ghost use Rattle.std.specs.Option.{option_copied};
ghost use Rattle.std.specs.String.{string_bytes};
ghost use Rattle.cli_files.specs.Users.{AreAsked, AreRead};
ghost use Rattle.door_users.specs.Files.{AreOfFiles, rights_of};
ghost use Rattle.door_users.specs.Flaws.{fault_text};
ghost use Rattle.door_users.specs.declared.fault.FileFault.TheVariants.{Line};

use crate::file::read_file;
use broker_script::LONGEST_FILE;
use cli_stops::{Found, Stop, answer_of};
use door_users::{AccessFault, FileAccess, FileFault, LineFlaw};
use std::alloc::{AllocError, Global};
use std::fmt::Display;
use std::str;

/// The end of a program that can't take what it was given under a name, for this reason.
pub(crate) fn refused<D: Display>(alloc: Global, name: &str, why: &D) -> Stop {
    match format!(in alloc; "broker: {name}: {why}") {
        Ok(text) => Stop::CommandLine(text),
        Err(error) => Stop::from(error),
    }
}

/// The words for a line with a flaw of the file at a path.
fn line_text(alloc: Global, path: &str, number: u64, flaw: LineFlaw) -> Result<String, AllocError>
    ensures { IfOk result (λ text. string_bytes text ≡ codes "broker: " ++ (path.now ++ (codes ": " ++ fault_text (Line number flaw)))) }
{
    let fault = FileFault::Line(number, flaw);
    format!(in alloc; "broker: {path}: {fault}")
}

/// The end of a program of which a file has a line with a flaw.
fn flawed(alloc: Global, path: &str, number: u64, flaw: LineFlaw) -> Stop {
    match line_text(alloc, path, number, flaw) {
        Ok(text) => Stop::CommandLine(text),
        Err(error) => Stop::from(error),
    }
}

/// The bytes of a file.
fn bytes_of(rt: &HostRuntime, path: &str) -> Result<Vec<u8>, Stop> {
    match read_file(rt, path, LONGEST_FILE) {
        Ok(bytes) => {
            if bytes.len() > LONGEST_FILE {
                return Err(refused(rt.alloc(), path, &Found::TooLong(LONGEST_FILE as u64)));
            }
            Ok(bytes)
        }
        Err(error) => Err(refused(rt.alloc(), path, &answer_of(&error))),
    }
}

/// The text that the bytes of a file are.
fn text_of<'a>(alloc: Global, path: &str, bytes: &'a [u8]) -> Result<&'a str, Stop> {
    match str::from_utf8(bytes) {
        Ok(text) => Ok(text),
        Err(_) => Err(refused(alloc, path, &Found::NotText)),
    }
}

/// The paths of a file of users and of a file of permissions, or of nothing where there is none.
#[derive(Clone, Copy, Debug)]
struct Paths<'a> {
    users: &'a str,
    permissions: &'a str,
}

/// Who may come and what each may do, by the text of a file of users and, if there is one, of a file of permissions. `Stop::CommandLine` names the file and
/// its first line with a flaw, and what is wrong with it.
fn access_in(
    alloc: Global,
    paths: Paths<'_>,
    users: &str,
    permissions: Option<&str>,
    anonymous: bool,
) -> Result<FileAccess, Stop>
    ensures { IfOk result (λ access. AreOfFiles users.now (option_copied permissions.entry) anonymous (rights_of access)) }
{
    match FileAccess::read(alloc, users, permissions, anonymous) {
        Ok(access) => Ok(access),
        Err(AccessFault::NoMemory) => Err(Stop::from(AllocError)),
        Err(AccessFault::Users(number, flaw)) => Err(flawed(alloc, paths.users, number, flaw)),
        Err(AccessFault::Permissions(number, flaw)) => {
            Err(flawed(alloc, paths.permissions, number, flaw))
        }
    }
}

/// Who may come, by the file of users at a path, and what each may do, by the file of permissions at another one; without that all.
fn access_at(
    rt: &HostRuntime,
    users: &str,
    permissions: Option<&str>,
    anonymous: bool,
) -> Result<FileAccess, Stop>
    ensures { IfOk result (λ access. AreRead (option_copied permissions.entry) anonymous (rights_of access)) }
{
    let alloc = rt.alloc();
    let paths = Paths {
        users,
        permissions: permissions.unwrap_or(""),
    };
    let bytes = bytes_of(rt, users)?;
    let text = text_of(alloc, users, &bytes)?;
    match permissions {
        None => access_in(alloc, paths, text, None, anonymous),
        Some(path) => {
            let rules = bytes_of(rt, path)?;
            let rules = text_of(alloc, path, &rules)?;
            access_in(alloc, paths, text, Some(rules), anonymous)
        }
    }
}

/// Who may come and what each may do, by the files at these paths; nothing where there is no file of users. `Stop::CommandLine` names a file that can't be
/// read, or its first line with a flaw and what is wrong with it; and an option that is given without a file of users.
pub fn read_access(
    rt: &HostRuntime,
    users: Option<&str>,
    permissions: Option<&str>,
    anonymous: bool,
) -> Result<Option<FileAccess>, Stop>
    ensures asked { IfOk result (λ access. AreAsked (option_copied users.entry) (option_copied permissions.entry) anonymous (is_some access)) }
    ensures rights { IfOk result (λ access. IfSome access (λ a. AreRead (option_copied permissions.entry) anonymous (rights_of a))) }
{
    let why = "it is for users: give --users too";
    match users {
        Some(path) => Ok(Some(access_at(rt, path, permissions, anonymous)?)),
        None if permissions.is_some() => Err(refused(rt.alloc(), "--permissions", &why)),
        None if anonymous => Err(refused(rt.alloc(), "--anonymous", &why)),
        None => Ok(None),
    }
}
