//! Why a step isn't played.

ghost use Rattle.std.specs.Prelude.{◌≡◌, Some};
ghost use Rattle.cluster_play.specs.Names.{play_fault_name};
ghost use Rattle.cluster_play.specs.declared.fault.PlayFault.TheVariants as faults;

use mqtt_fields::NoMemory;
use std::alloc::{AllocError, AllocFailed};
use std::fmt;

/// Why a step isn't played.
#[derive(Clone, Copy, Debug, PartialEq, Eq)]
pub enum PlayFault {
    /// The tables of homes: there is none or more than 64, or one has another number of nodes than there
    /// are tables.
    BadTables,
    /// The cluster has no such node; the step changed nothing.
    UnknownNode,
    /// No frame has that number yet; the step changed nothing.
    UnknownFrame,
    /// A growth was refused; from now on the cluster answers `Spent`.
    NoMemory,
    /// Memory had run out before.
    Spent,
}

impl fmt::Display for PlayFault {
    ghost output = { λ fault. Some (play_fault_name fault) };

    fn fmt<W: fmt::Write>(&self, f: &mut fmt::Formatter<W>) -> fmt::Result {
        match self {
            PlayFault::BadTables => write!(f, "BadTables"),
            PlayFault::UnknownNode => write!(f, "UnknownNode"),
            PlayFault::UnknownFrame => write!(f, "UnknownFrame"),
            PlayFault::NoMemory => write!(f, "NoMemory"),
            PlayFault::Spent => write!(f, "Spent"),
        }
    }
}

impl From<AllocError> for PlayFault {
    ghost from_gives = { λ _ f. f ≡ faults.NoMemory };

    fn from(_error: AllocError) -> Self {
        PlayFault::NoMemory
    }
}

impl<T: Drop> From<AllocFailed<T>> for PlayFault {
    ghost from_gives = { λ _ f. f ≡ faults.NoMemory };

    fn from(_error: AllocFailed<T>) -> Self {
        PlayFault::NoMemory
    }
}

impl From<NoMemory> for PlayFault {
    ghost from_gives = { λ _ f. f ≡ faults.NoMemory };

    fn from(_error: NoMemory) -> Self {
        PlayFault::NoMemory
    }
}
