//! What the system answered to a call on a file or a socket.

ghost use Rattle.std.specs.Prelude.{◌≡◌, Some};
ghost use Rattle.std.specs.IoError.{error_kind, raw_os_error};
ghost use Rattle.cli_stops.specs.Answers.{answer_in, answer_text, numbered_in};

use std::fmt;
use std::io::{Error, ErrorKind};

/// What the system answered to a call on a file or a socket. Its `Display` is the words for it.
#[derive(Clone, Copy, Debug, PartialEq, Eq)]
pub enum Answer {
    /// Nothing is at the path.
    NotThere,
    /// The program may not do that.
    Denied,
    /// A folder is at the path.
    IsFolder,
    /// A part of the path that has to be a folder is none.
    NoFolder,
    /// The address is taken.
    InUse,
    /// The address is none of this machine.
    Elsewhere,
    /// There is no room for more, on the disk or in the owner's share of it.
    NoRoom,
    /// What is there can't be changed.
    ReadOnly,
    /// Memory ran out.
    NoMemory,
    /// Another answer of the system, by its number.
    Number(u32),
    /// A failure to which the system gave no number.
    Unnumbered,
}

impl fmt::Display for Answer {
    ghost output = { λ answer. Some (answer_text answer) };

    fn fmt<W: fmt::Write>(&self, f: &mut fmt::Formatter<W>) -> fmt::Result {
        match self {
            Answer::NotThere => write!(f, "no such file or folder"),
            Answer::Denied => write!(f, "permission denied"),
            Answer::IsFolder => write!(f, "it is a folder"),
            Answer::NoFolder => write!(f, "a part of the path is no folder"),
            Answer::InUse => write!(f, "the address is in use"),
            Answer::Elsewhere => write!(f, "the address is none of this machine"),
            Answer::NoRoom => write!(f, "no space is left"),
            Answer::ReadOnly => write!(f, "it can only be read"),
            Answer::NoMemory => write!(f, "memory ran out"),
            Answer::Number(number) => write!(f, "system error {number}"),
            Answer::Unnumbered => write!(f, "it failed"),
        }
    }
}

/// The answer with a number, where there is one.
fn numbered(number: Option<i32>) -> Answer
    ensures { result ≡ numbered_in number }
{
    match number {
        Some(number) => Answer::Number(number.unsigned_abs()),
        None => Answer::Unnumbered,
    }
}

/// What an error of the system answers.
pub fn answer_of(error: &Error) -> Answer
    ensures { result ≡ answer_in (error_kind error.now) (raw_os_error error.now) }
{
    match error.kind() {
        ErrorKind::NotFound => Answer::NotThere,
        ErrorKind::PermissionDenied => Answer::Denied,
        ErrorKind::IsADirectory => Answer::IsFolder,
        ErrorKind::NotADirectory => Answer::NoFolder,
        ErrorKind::AddrInUse => Answer::InUse,
        ErrorKind::AddrNotAvailable => Answer::Elsewhere,
        ErrorKind::StorageFull | ErrorKind::QuotaExceeded => Answer::NoRoom,
        ErrorKind::ReadOnlyFilesystem => Answer::ReadOnly,
        ErrorKind::OutOfMemory => Answer::NoMemory,
        _ => numbered(error.raw_os_error()),
    }
}
