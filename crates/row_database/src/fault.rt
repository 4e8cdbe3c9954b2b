//! Why a database isn't opened.

ghost use Rattle.std.specs.Prelude.{◌≡◌};
ghost use Rattle.row_database.specs.Opening.{fault_of_error, fault_of_rows};

use row_store::RowFault;
use sqlite::{Error, ErrorCode};

/// Why a database isn't opened.
#[derive(Clone, Copy, Debug, PartialEq, Eq)]
pub enum OpenFault {
    /// An allocation was refused.
    NoMemory,
    /// A program that runs has it open.
    Locked,
    /// The system refused one of its files.
    Refused,
    /// The files are no database, or damaged.
    NoDatabase,
    /// It has anything but the table of rows, or rows of the journal's kind that are no journal.
    Foreign,
    /// The disk failed.
    Device,
}

/// What a fault of the database's files is.
pub(crate) fn fault_of_error(error: &Error) -> OpenFault
    ensures { result ≡ fault_of_error error.now }
{
    match error {
        Error::SqliteFailure(ErrorCode::OutOfMemory) => OpenFault::NoMemory,
        Error::SqliteFailure(ErrorCode::DatabaseBusy) => OpenFault::Locked,
        Error::SqliteFailure(ErrorCode::CannotOpen) => OpenFault::Refused,
        Error::SqliteFailure(ErrorCode::NotADatabase | ErrorCode::DatabaseCorrupt) =>
            OpenFault::NoDatabase,
        _ => OpenFault::Device,
    }
}

/// What a fault of its rows is.
pub(crate) fn fault_of_rows(fault: RowFault) -> OpenFault
    ensures { result ≡ fault_of_rows fault }
{
    match fault {
        RowFault::NoMemory => OpenFault::NoMemory,
        RowFault::BadRow => OpenFault::Foreign,
        RowFault::Device => OpenFault::Device,
    }
}
