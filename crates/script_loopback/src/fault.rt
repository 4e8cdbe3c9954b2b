//! Why bytes don't pass.

use std::alloc::{AllocError, AllocFailed};

/// Why bytes don't pass, or a connection isn't made.
#[derive(Clone, Copy, Debug, PartialEq, Eq)]
pub enum WireFault {
    /// Memory ran out.
    NoMemory,
    /// An address can't be bound, nothing listens for the node, or a socket failed.
    Socket,
    /// It wasn't done after 1,000,000 turns.
    Turns,
}

/// Want of memory.
impl From<AllocError> for WireFault {
    ghost use Rattle.std.specs.Prelude.{◌≡◌};
    ghost use Rattle.script_loopback.specs.declared.fault.WireFault.TheVariants.{NoMemory};

    ghost from_gives = { λ _ fault. fault ≡ NoMemory };

    fn from(_: AllocError) -> WireFault {
        WireFault::NoMemory
    }
}

/// Want of memory.
impl<T: Drop> From<AllocFailed<T>> for WireFault {
    ghost use Rattle.std.specs.Prelude.{◌≡◌};
    ghost use Rattle.script_loopback.specs.declared.fault.WireFault.TheVariants.{NoMemory};

    ghost from_gives = { λ _ fault. fault ≡ NoMemory };

    fn from(_: AllocFailed<T>) -> WireFault {
        WireFault::NoMemory
    }
}
