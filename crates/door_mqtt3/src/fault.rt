//! Why an event isn't answered.
use mqtt_fields::NoMemory;

/// Why nothing came of an event.
#[derive(Debug, Drop)]
pub enum Mqtt3Fault<F> {
    /// There was no memory to keep what came, or for what is told or sent in its place.
    NoMemory,
    /// The handler inside gave this fault.
    Inside(F),
}

impl<F> From<NoMemory> for Mqtt3Fault<F> {
    ghost use Rattle.std.specs.Prelude.{◌≡◌};
    ghost use Rattle.door_mqtt3.specs.declared.fault.Mqtt3Fault.TheVariants as faults;

    ghost from_gives = { λ _ fault. fault ≡ faults.NoMemory };

    fn from(_: NoMemory) -> Self {
        Mqtt3Fault::NoMemory
    }
}
