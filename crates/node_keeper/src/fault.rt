//! Why an event isn't taken.

ghost use Rattle.std.specs.Prelude.{◌≡◌, Some};
ghost use Rattle.node_keeper.specs.Names.{keeper_fault_name, keeper_fault};

use node_work::NodeFault;
use row_store::RowFault;
use std::fmt;

/// Why an event isn't taken, or a node isn't opened.
#[derive(Clone, Copy, Debug, PartialEq, Eq)]
pub enum KeeperFault {
    /// A growth was refused; the node has stopped.
    NoMemory,
    /// The rows weren't written or read; the node has stopped.
    Rows(RowFault),
    /// A number that is needed can't be had; the node has stopped.
    NumbersAtEnd,
    /// The node had stopped before, and is to be opened from its rows.
    Stopped,
}

impl From<NodeFault> for KeeperFault {
    ghost from_gives = { λ e f. f ≡ keeper_fault e };

    fn from(fault: NodeFault) -> Self {
        match fault {
            NodeFault::NoMemory => KeeperFault::NoMemory,
            NodeFault::NumbersAtEnd => KeeperFault::NumbersAtEnd,
            NodeFault::Stopped => KeeperFault::Stopped,
        }
    }
}

impl fmt::Display for KeeperFault {
    ghost output = { λ fault. Some (keeper_fault_name fault) };

    fn fmt<W: fmt::Write>(&self, f: &mut fmt::Formatter<W>) -> fmt::Result {
        match self {
            KeeperFault::NoMemory => write!(f, "NoMemory"),
            KeeperFault::Rows(_) => write!(f, "Rows"),
            KeeperFault::NumbersAtEnd => write!(f, "NumbersAtEnd"),
            KeeperFault::Stopped => write!(f, "Stopped"),
        }
    }
}
