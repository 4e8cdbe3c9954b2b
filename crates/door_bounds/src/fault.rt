//! Why an event isn't answered.
use mqtt_fields::NoMemory;
use std::alloc::AllocError;

/// Why nothing came of an event.
#[derive(Debug, Drop)]
pub enum BoundedFault<F> {
    /// There was no memory to keep what came, or for what is told or sent in its place.
    NoMemory,
    /// The handler inside gave this fault.
    Inside(F),
}

impl<F> From<NoMemory> for BoundedFault<F> {
    ghost use Rattle.std.specs.Prelude.{◌≡◌};
    ghost use Rattle.door_bounds.specs.declared.fault.BoundedFault.TheVariants as faults;

    ghost from_gives = { λ _ fault. fault ≡ faults.NoMemory };

    fn from(_: NoMemory) -> Self {
        BoundedFault::NoMemory
    }
}

impl<F> From<AllocError> for BoundedFault<F> {
    ghost use Rattle.std.specs.Prelude.{◌≡◌};
    ghost use Rattle.door_bounds.specs.declared.fault.BoundedFault.TheVariants as faults;

    ghost from_gives = { λ _ fault. fault ≡ faults.NoMemory };

    fn from(_: AllocError) -> Self {
        BoundedFault::NoMemory
    }
}
