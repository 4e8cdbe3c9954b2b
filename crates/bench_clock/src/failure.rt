//! Why there is no figure.
ghost use Rattle.std.specs.Prelude.{◌≡◌, true, OnOk};

use mqtt_fields::NoMemory;
use std::alloc::{AllocError, AllocFailed};
use std::io;

/// Why there is no figure.
#[derive(Clone, Copy)]
pub enum Failure {
    /// The clock, or the output.
    Outside,
    Memory,
    /// An answer was not the one that belongs to the input.
    Answer,
    /// No part has this name.
    Part,
}

impl Failure {
    pub fn text(self) -> &'static str {
        match self {
            Failure::Outside => "no clock, or no output",
            Failure::Memory => "no memory",
            Failure::Answer => "a wrong answer",
            Failure::Part => "no part of this name",
        }
    }
}

impl From<io::Error> for Failure {
    fn from(_error: io::Error) -> Failure {
        Failure::Outside
    }
}

impl From<AllocError> for Failure {
    fn from(_error: AllocError) -> Failure {
        Failure::Memory
    }
}

impl<T: Drop> From<AllocFailed<T>> for Failure {
    fn from(_error: AllocFailed<T>) -> Failure {
        Failure::Memory
    }
}

impl From<NoMemory> for Failure {
    fn from(_error: NoMemory) -> Failure {
        Failure::Memory
    }
}

/// A wrong answer, unless this holds.
pub fn ensure(holds: bool) -> Result<(), Failure>
    ensures { OnOk result (holds ≡ true) }
{
    if holds { Ok(()) } else { Err(Failure::Answer) }
}
