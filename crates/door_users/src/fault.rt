//! Why a file of users or of rules can't be read.

ghost use Rattle.std.specs.Prelude.{◌≡◌, Some};
ghost use Rattle.door_users.specs.Flaws.{fault_text, flaw_text};
ghost use Rattle.door_users.specs.declared.fault.AccessFault.TheVariants as access;
ghost use Rattle.door_users.specs.declared.fault.Unread.TheVariants as unread;

use mqtt_fields::NoMemory;
use std::alloc::{AllocError, AllocFailed};
use std::fmt;

/// What is wrong with a line.
#[derive(Clone, Copy, Debug, PartialEq, Eq)]
pub enum LineFlaw {
    /// The user name is empty.
    NoName,
    /// The user name is longer than 65,535 bytes, or has U+0000.
    BadName,
    /// The user name stands in an earlier line too.
    NameTwice,
    /// After the colon doesn't stand `$7$`, iterations, `$`, a salt, `$` and a hash.
    NotPbkdf2,
    /// The iterations aren't a number from 1 to 100,000, without zeros before it.
    BadIterations,
    /// The salt isn't base64.
    BadSalt,
    /// The hash isn't base64 of 64 bytes.
    BadHash,
    /// The line doesn't begin with `user`, `topic`, `pattern` or `client`.
    UnknownWord,
    /// There is no filter.
    NoFilter,
    /// Before the filter stands another word than `read`, `write`, `readwrite` or `deny`.
    BadAccess,
    /// The filter isn't a topic filter, or it is a shared one.
    BadFilter,
    /// A level of a pattern has a `%` and is neither `%u` nor `%c`.
    BadPlace,
    /// There is no client identifier.
    NoIdentifier,
    /// The client identifier is longer than 65,535 bytes, or has U+0000, or a `*` stands before its end.
    BadIdentifier,
    /// A client identifier begins with `%u` before the first user.
    NoUser,
}

/// Why a line can't be read.
#[derive(Clone, Copy, Debug, PartialEq, Eq)]
pub enum Unread {
    NoMemory,
    Flaw(LineFlaw),
}

/// Why a file can't be read: want of memory, or its first line with a flaw, by its number from 1.
#[derive(Clone, Copy, Debug, PartialEq, Eq)]
pub enum FileFault {
    NoMemory,
    Line(u64, LineFlaw),
}

/// Why the two files can't be taken: want of memory, or the first line with a flaw of one of them, by its number from 1.
#[derive(Clone, Copy, Debug, PartialEq, Eq)]
pub enum AccessFault {
    NoMemory,
    Users(u64, LineFlaw),
    Permissions(u64, LineFlaw),
}

/// What is wrong, in words.
impl fmt::Display for LineFlaw {
    ghost output = { λ flaw. Some (flaw_text flaw) };

    fn fmt<W: fmt::Write>(&self, f: &mut fmt::Formatter<W>) -> fmt::Result {
        match self {
            LineFlaw::NoName => write!(f, "there is no user name"),
            LineFlaw::BadName => write!(f, "the user name has more than 65,535 bytes, or U+0000"),
            LineFlaw::NameTwice => write!(f, "the user name stands in an earlier line too"),
            LineFlaw::NotPbkdf2 => write!(f, "after the user name and a colon does not stand $7$"),
            LineFlaw::BadIterations => write!(f, "the iterations are no number from 1 to 100,000"),
            LineFlaw::BadSalt => write!(f, "the salt is not base64"),
            LineFlaw::BadHash => write!(f, "the hash is not base64 of 64 bytes"),
            LineFlaw::UnknownWord => write!(
                f,
                "it begins with none of user, topic, pattern and client"
            ),
            LineFlaw::NoFilter => write!(f, "there is no filter"),
            LineFlaw::BadAccess => write!(
                f,
                "before the filter stands none of read, write, readwrite and deny"
            ),
            LineFlaw::BadFilter => write!(f, "the filter is no topic filter, or a shared one"),
            LineFlaw::BadPlace => write!(f, "a level with % is neither %u nor %c"),
            LineFlaw::NoIdentifier => write!(f, "there is no client identifier"),
            LineFlaw::BadIdentifier => write!(
                f,
                "the client identifier has more than 65,535 bytes, or U+0000, or * before its end"
            ),
            LineFlaw::NoUser => write!(f, "%u stands before the first user"),
        }
    }
}

/// The line with a flaw, and what is wrong with it.
impl fmt::Display for FileFault {
    ghost output = { λ fault. Some (fault_text fault) };

    fn fmt<W: fmt::Write>(&self, f: &mut fmt::Formatter<W>) -> fmt::Result {
        match self {
            FileFault::NoMemory => write!(f, "memory ran out"),
            FileFault::Line(number, flaw) => write!(f, "line {number}: {flaw}"),
        }
    }
}

impl From<NoMemory> for Unread {
    ghost from_gives = { λ _ e. e ≡ unread.NoMemory };

    fn from(_e: NoMemory) -> Unread {
        Unread::NoMemory
    }
}

impl From<AllocError> for Unread {
    ghost from_gives = { λ _ e. e ≡ unread.NoMemory };

    fn from(_e: AllocError) -> Unread {
        Unread::NoMemory
    }
}

impl<T: Drop> From<AllocFailed<T>> for Unread {
    ghost from_gives = { λ _ e. e ≡ unread.NoMemory };

    fn from(_e: AllocFailed<T>) -> Unread {
        Unread::NoMemory
    }
}

impl From<NoMemory> for AccessFault {
    ghost from_gives = { λ _ e. e ≡ access.NoMemory };

    fn from(_e: NoMemory) -> AccessFault {
        AccessFault::NoMemory
    }
}
