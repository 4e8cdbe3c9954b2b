//! What ends a run.

ghost use Rattle.std.specs.Prelude.{◌≡◌, Some};
ghost use Rattle.cli_stops.specs.Stops.{run_name, tables_fault};

use home_table::TableFault;
use std::fmt;
use thiserror::Error;

/// Why a run ended before its end. Its `Display` is its name.
#[derive(Clone, Copy, Debug, PartialEq, Eq, Error)]
pub enum RunFault {
    /// Memory ran out.
    NoMemory,
    /// The cluster's tables of homes don't fit together.
    BadTables,
    /// The cluster has no such node.
    UnknownNode,
    /// No frame has that number yet.
    UnknownFrame,
    /// Memory had run out before.
    Spent,
    /// The rows of a node can't be opened, read or written.
    Rows,
    /// The table of homes is older than the one of this version, under which the node has made a subscription.
    OlderTable(u32),
    /// A moment or a number of 2^62 or more would be needed.
    NumbersAtEnd,
    /// A node had stopped before.
    Stopped,
    /// What was sent through a socket didn't come in time.
    Turns,
    /// An address can't be bound, or a socket failed.
    Socket,
    /// The output was refused.
    Output,
}

impl fmt::Display for RunFault {
    ghost output = { λ fault. Some (run_name fault) };

    fn fmt<W: fmt::Write>(&self, f: &mut fmt::Formatter<W>) -> fmt::Result {
        match self {
            RunFault::NoMemory => write!(f, "NoMemory"),
            RunFault::BadTables => write!(f, "BadTables"),
            RunFault::UnknownNode => write!(f, "UnknownNode"),
            RunFault::UnknownFrame => write!(f, "UnknownFrame"),
            RunFault::Spent => write!(f, "Spent"),
            RunFault::Rows => write!(f, "Rows"),
            RunFault::OlderTable(_) => write!(f, "OlderTable"),
            RunFault::NumbersAtEnd => write!(f, "NumbersAtEnd"),
            RunFault::Stopped => write!(f, "Stopped"),
            RunFault::Turns => write!(f, "Turns"),
            RunFault::Socket => write!(f, "Socket"),
            RunFault::Output => write!(f, "Output"),
        }
    }
}

/// The tables of homes that a script's lines make.
impl From<TableFault> for RunFault {
    ghost from_gives = { λ fault run. run ≡ tables_fault fault };

    fn from(fault: TableFault) -> RunFault {
        match fault {
            TableFault::NoMemory => RunFault::NoMemory,
            _ => RunFault::BadTables,
        }
    }
}
