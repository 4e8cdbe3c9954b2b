//! Why an event isn't answered.
use mqtt_fields::NoMemory;
use std::alloc::AllocError;

/// Why nothing came of an event.
#[derive(Debug, Drop)]
pub enum GuardFault<F> {
    /// There was no memory to keep what came, or for what is told or sent in its place.
    NoMemory,
    /// The handler inside gave this fault.
    Inside(F),
}

impl<F> From<NoMemory> for GuardFault<F> {
    ghost use Rattle.std.specs.Prelude.{◌≡◌};
    ghost use Rattle.door_guard.specs.declared.fault.GuardFault.TheVariants as faults;

    ghost from_gives = { λ _ fault. fault ≡ faults.NoMemory };

    fn from(_: NoMemory) -> Self {
        GuardFault::NoMemory
    }
}

impl<F> From<AllocError> for GuardFault<F> {
    ghost use Rattle.std.specs.Prelude.{◌≡◌};
    ghost use Rattle.door_guard.specs.declared.fault.GuardFault.TheVariants as faults;

    ghost from_gives = { λ _ fault. fault ≡ faults.NoMemory };

    fn from(_: AllocError) -> Self {
        GuardFault::NoMemory
    }
}
