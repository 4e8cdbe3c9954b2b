//! Why a store could not change or be made.
ghost use Rattle.std.specs.Prelude.{◌≡◌};
ghost use Rattle.replica_store.specs.declared.fault.StoreFault.TheVariants.{NoMemory as OutOfMemory};

use mqtt_fields::NoMemory;

/// Why a store could not change or be made. Whatever answers one has changed nothing.
#[derive(Clone, Copy, Debug, PartialEq, Eq)]
pub enum StoreFault {
    /// A number or a count of 2^62 would be needed.
    NumbersAtEnd = 1,
    /// An allocation was refused.
    NoMemory,
    /// The rows aren't those of a store.
    BadRow,
}

impl From<NoMemory> for StoreFault {
    ghost from_gives = { λ _ e. e ≡ OutOfMemory };

    fn from(_fault: NoMemory) -> StoreFault {
        StoreFault::NoMemory
    }
}
