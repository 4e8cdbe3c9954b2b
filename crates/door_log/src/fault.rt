//! Why a door stops.
use mqtt_fields::NoMemory;

/// Why nothing came of an event.
#[derive(Debug, Drop)]
pub enum LoggedFault<F> {
    /// There was no memory to keep what is known, or the lines that are due.
    NoMemory,
    /// The handler inside gave this fault.
    Inside(F),
}

impl<F> From<NoMemory> for LoggedFault<F> {
    ghost use Rattle.std.specs.Prelude.{◌≡◌};
    ghost use Rattle.door_log.specs.declared.fault.LoggedFault.TheVariants as faults;

    ghost from_gives = { λ _ fault. fault ≡ faults.NoMemory };

    fn from(_: NoMemory) -> Self {
        LoggedFault::NoMemory
    }
}
