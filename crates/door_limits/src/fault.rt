//! Why a door stops.
use std::alloc::AllocError;

/// Why nothing came of an event.
#[derive(Debug, Drop)]
pub enum LimitedFault<F> {
    /// There was no memory to keep what is known of connections.
    NoMemory,
    /// The handler inside gave this fault.
    Inside(F),
}

impl<F> From<AllocError> for LimitedFault<F> {
    ghost use Rattle.std.specs.Prelude.{◌≡◌};
    ghost use Rattle.door_limits.specs.declared.fault.LimitedFault.TheVariants.{NoMemory};

    ghost from_gives = { λ _ fault. fault ≡ NoMemory };

    fn from(_: AllocError) -> Self {
        LimitedFault::NoMemory
    }
}
