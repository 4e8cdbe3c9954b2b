//! Why a packet could not be read.

ghost use Rattle.std.specs.Prelude.{◌≡◌};
ghost use Rattle.mqtt_packets.specs.declared.fault.PacketFault.TheVariants as faults;
ghost use Rattle.mqtt_packets.specs.Reading.{packet_fault};

use mqtt_fields::{FieldFault, NoMemory};
use std::alloc::{AllocError, AllocFailed};

/// Why bytes are no packet.
#[derive(Clone, Copy, Debug, PartialEq, Eq)]
pub enum PacketFault {
    /// The bytes can't be parsed (MQTT 5.0, 1.2).
    Malformed = 1,
    /// They can be parsed, and the standard forbids what they say.
    ProtocolError = 2,
    /// The packet is longer than its framer takes.
    TooLarge = 3,
    /// A CONNECT of another protocol or version than MQTT 5.
    WrongVersion = 4,
    /// Memory ran out; nothing is said of the bytes.
    NoMemory = 5,
}

impl From<NoMemory> for PacketFault {
    ghost from_gives = { λ _ e. e ≡ faults.NoMemory };

    fn from(_e: NoMemory) -> PacketFault {
        PacketFault::NoMemory
    }
}

impl From<AllocError> for PacketFault {
    ghost from_gives = { λ _ e. e ≡ faults.NoMemory };

    fn from(_e: AllocError) -> PacketFault {
        PacketFault::NoMemory
    }
}

impl<T: Drop> From<AllocFailed<T>> for PacketFault {
    ghost from_gives = { λ _ e. e ≡ faults.NoMemory };

    fn from(_e: AllocFailed<T>) -> PacketFault {
        PacketFault::NoMemory
    }
}

impl From<FieldFault> for PacketFault {
    ghost from_gives = { λ f e. e ≡ packet_fault f };

    fn from(f: FieldFault) -> PacketFault {
        match f {
            FieldFault::Short | FieldFault::Malformed | FieldFault::NotHere => {
                PacketFault::Malformed
            }
            FieldFault::Repeated => PacketFault::ProtocolError,
            FieldFault::NoMemory => PacketFault::NoMemory,
        }
    }
}
