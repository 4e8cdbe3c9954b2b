//! Why a node stops.

ghost use Rattle.std.specs.Prelude.{◌≡◌, Some};
ghost use Rattle.node_work.specs.Held.Calling.{fault_of};
ghost use Rattle.node_work.specs.Names.{node_fault_name, node_fault};
ghost use Rattle.node_work.specs.declared.fault.NodeFault.TheVariants as faults;

use mqtt_fields::NoMemory;
use mqtt_sessions::SessionFault;
use replica_store::StoreFault;
use std::alloc::{AllocError, AllocFailed};
use std::fmt;

/// Why a node stops. After each it answers `Stopped`, until it is opened again.
#[derive(Clone, Copy, Debug, PartialEq, Eq)]
pub enum NodeFault {
    /// A growth was refused.
    NoMemory,
    /// A moment or a number of 2^62 or more would be needed.
    NumbersAtEnd,
    /// The node had stopped before.
    Stopped,
}

impl From<AllocError> for NodeFault {
    ghost from_gives = { λ _ f. f ≡ faults.NoMemory };

    fn from(_error: AllocError) -> Self {
        NodeFault::NoMemory
    }
}

impl<T: Drop> From<AllocFailed<T>> for NodeFault {
    ghost from_gives = { λ _ f. f ≡ faults.NoMemory };

    fn from(_error: AllocFailed<T>) -> Self {
        NodeFault::NoMemory
    }
}

impl From<NoMemory> for NodeFault {
    ghost from_gives = { λ _ f. f ≡ faults.NoMemory };

    fn from(_error: NoMemory) -> Self {
        NodeFault::NoMemory
    }
}

impl From<StoreFault> for NodeFault {
    ghost from_gives = { λ e f. f ≡ node_fault e };

    fn from(fault: StoreFault) -> Self {
        match fault {
            StoreFault::NumbersAtEnd => NodeFault::NumbersAtEnd,
            // `BadRow` is for stores that are read from rows.
            StoreFault::NoMemory | StoreFault::BadRow => NodeFault::NoMemory,
        }
    }
}

impl From<SessionFault> for NodeFault {
    ghost from_gives = { λ e f. f ≡ fault_of e };

    fn from(fault: SessionFault) -> Self {
        match fault {
            SessionFault::NumbersAtEnd => NodeFault::NumbersAtEnd,
            // A node keeps no session that is spent, and `BadRow` is for sessions that are read from rows.
            SessionFault::NoMemory | SessionFault::Spent | SessionFault::BadRow => {
                NodeFault::NoMemory
            }
        }
    }
}

impl fmt::Display for NodeFault {
    ghost output = { λ fault. Some (node_fault_name fault) };

    fn fmt<W: fmt::Write>(&self, f: &mut fmt::Formatter<W>) -> fmt::Result {
        match self {
            NodeFault::NoMemory => write!(f, "NoMemory"),
            NodeFault::NumbersAtEnd => write!(f, "NumbersAtEnd"),
            NodeFault::Stopped => write!(f, "Stopped"),
        }
    }
}
