//! The packet in front of some bytes.

ghost use Rattle.std.specs.Prelude.{IfOk};
ghost use Rattle.door_bounds.specs.Front.{IsFront};

use mqtt_fields::NoMemory;
use mqtt_packets::{Packet, PacketFault, read_packet};
use std::alloc::Global;

/// The packet in front, and how many bytes it takes, if there is one that can be read.
#[tactic(auto, using(crate::proofs::Fronts::front_given, crate::proofs::Fronts::front_fails))]
pub(crate) fn front_packet(alloc: Global, bytes: &[u8]) -> Result<Option<(Packet, usize)>, NoMemory>
    ensures { IfOk result (λ o. IsFront bytes.now o) }
{
    match read_packet(alloc, bytes) {
        Ok(front) => Ok(front),
        Err(fault) => {
            if fault == PacketFault::NoMemory {
                return Err(NoMemory);
            }
            Ok(None)
        }
    }
}
