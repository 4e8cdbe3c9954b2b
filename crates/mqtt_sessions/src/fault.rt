//! Why a session goes on no more.

ghost use Rattle.std.specs.Prelude.{◌≡◌};
ghost use Rattle.mqtt_sessions.specs.declared.fault.SessionFault.TheVariants as faults;

use mqtt_fields::NoMemory;
use std::alloc::{AllocError, AllocFailed};

/// Why a call didn't answer. After each but `BadRow` the session answers `Spent`.
#[derive(Clone, Copy, Debug, PartialEq, Eq)]
pub enum SessionFault {
    /// A growth was refused.
    NoMemory,
    /// A place or an order of release of 2^62 would be needed.
    NumbersAtEnd,
    /// The session had a fault before.
    Spent,
    /// The rows aren't those of a session.
    BadRow,
}

impl From<AllocError> for SessionFault {
    ghost from_gives = { λ _ f. f ≡ faults.NoMemory };

    fn from(_error: AllocError) -> Self {
        SessionFault::NoMemory
    }
}

impl<T: Drop> From<AllocFailed<T>> for SessionFault {
    ghost from_gives = { λ _ f. f ≡ faults.NoMemory };

    fn from(_error: AllocFailed<T>) -> Self {
        SessionFault::NoMemory
    }
}

impl From<NoMemory> for SessionFault {
    ghost from_gives = { λ _ f. f ≡ faults.NoMemory };

    fn from(_error: NoMemory) -> Self {
        SessionFault::NoMemory
    }
}
