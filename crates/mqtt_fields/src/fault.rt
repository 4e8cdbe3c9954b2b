//! Why a field can't be read, or written.

ghost use Rattle.std.specs.Prelude.{◌≡◌};
ghost use Rattle.mqtt_fields.specs.declared.fault.FieldFault.TheVariants as faults;

use std::alloc::{AllocError, AllocFailed};

/// An allocation was refused. Whatever answers this has changed nothing.
#[derive(Clone, Copy, Debug, PartialEq, Eq)]
pub struct NoMemory;

impl From<AllocError> for NoMemory {
    fn from(_e: AllocError) -> NoMemory {
        NoMemory
    }
}

impl<T: Drop> From<AllocFailed<T>> for NoMemory {
    fn from(_e: AllocFailed<T>) -> NoMemory {
        NoMemory
    }
}

/// The first fault from the left in the bytes of a field.
#[derive(Clone, Copy, Debug, PartialEq, Eq)]
pub enum FieldFault {
    /// The input ends inside the field.
    Short = 1,
    /// The bytes spell no value of the field.
    Malformed = 2,
    /// A property that may stand once stands twice.
    Repeated = 3,
    /// A property stands where it may not.
    NotHere = 4,
    /// An allocation was refused.
    NoMemory = 5,
}

impl From<AllocError> for FieldFault {
    ghost from_gives = { λ _ e. e ≡ faults.NoMemory };

    fn from(_e: AllocError) -> FieldFault {
        FieldFault::NoMemory
    }
}

impl<T: Drop> From<AllocFailed<T>> for FieldFault {
    ghost from_gives = { λ _ e. e ≡ faults.NoMemory };

    fn from(_e: AllocFailed<T>) -> FieldFault {
        FieldFault::NoMemory
    }
}

impl From<NoMemory> for FieldFault {
    ghost from_gives = { λ _ e. e ≡ faults.NoMemory };

    fn from(_e: NoMemory) -> FieldFault {
        FieldFault::NoMemory
    }
}
