//! SUBACK and UNSUBACK.

ghost use Rattle.std.specs.Prelude.{◌≡◌, ◌++◌, IfOk, OnOk, IsErrOf, IsOk, OnErr, vec_len, vec_capacity, length, ◌+◌, ◌<◌, ◌≤◌};
ghost use Rattle.mqtt_packets.specs.Memory.{list_start};
ghost use Rattle.mqtt_packets.specs.Reading.{Gives};
ghost use Rattle.mqtt_packets.specs.Measure.{Measures};
ghost use Rattle.mqtt_packets.specs.Reasons.{is_valid_reasons, reasons};

use crate::bytes::Bytes;
use crate::fault::PacketFault;
use crate::field::{put_properties, take_properties, take_u16};
use crate::measure::{BODY_LIMIT, block_len, within};
use crate::values::are_valid;
use mqtt_fields::{NoMemory, Place, Properties};
use std::alloc::Global;

/// The answer to a SUBSCRIBE or an UNSUBSCRIBE: a reason for each filter (MQTT 5.0, 3.9, 3.11).
#[derive(Drop)]
pub struct Reasons {
    pub identifier: u16,
    pub properties: Properties,
    pub reasons: Bytes,
}

impl Reasons {
    fn is_valid(&self) -> bool
        ensures { result ≡ is_valid_reasons self.now }
    {
        self.identifier != 0
            && are_valid(self.properties.as_slice())
            && !self.reasons.as_slice().is_empty()
    }

    #[tactic(auto, using(crate::proofs::MemoryLaws::list_read), unfolding(crate::specs::Reasons::reasons))]
    pub(crate) fn of(alloc: Global, place: Place, bytes: &[u8]) -> Result<Reasons, PacketFault>
        ensures exact { Gives (λ x. x) result ((reasons place).of bytes.now) }
        ensures no_memory { IsErrOf result PacketFault.NoMemory → IsOk (list_start place bytes.now) }
    {
        let (identifier, rest) = take_u16(bytes)?;
        let (properties, rest) = take_properties(alloc, place, rest)?;
        let reasons = Reasons {
            identifier,
            properties,
            reasons: Bytes::from_slice(alloc, rest)?,
        };
        if !reasons.is_valid() {
            return Err(PacketFault::ProtocolError);
        }
        Ok(reasons)
    }

    #[tactic(auto, unfolding(crate::specs::Reasons::reasons))]
    pub(crate) fn write(&self, place: Place, out: &mut Vec<u8>) -> Result<(), NoMemory>
        requires { (reasons place).Fits self.now }
        ensures ok { OnOk result (out.new.items ≡ out.old.items ++ (reasons place).bytes self.now) }
        ensures full { OnErr result (vec_capacity out.old < vec_len out.old + length ((reasons place).bytes self.now)) }
        ensures capacity { vec_capacity out.old ≤ vec_capacity out.new }
    {
        out.extend_from_slice(&self.identifier.to_be_bytes())?;
        put_properties(place, &self.properties, out)?;
        out.extend_from_slice(self.reasons.as_slice())?;
        Ok(())
    }

    /// How many bytes the body takes.
    #[tactic(auto, unfolding(crate::specs::Reasons::reasons))]
    pub(crate) fn len(&self, place: Place) -> Option<usize>
        ensures { Measures (reasons place) self.now result }
    {
        let _identifier = self.identifier;
        let codes = self.reasons.as_slice();
        if !self.is_valid() {
            return None;
        }
        let n = block_len(place, &self.properties)?;
        if codes.len() >= BODY_LIMIT {
            return None;
        }
        within(2 + n + codes.len())
    }

    /// A packet equal to this one.
    pub fn copy(&self, alloc: Global) -> Result<Reasons, NoMemory>
        ensures { IfOk result (λ x. x ≡ self.now) }
    {
        Ok(Reasons {
            identifier: self.identifier,
            properties: self.properties.copy(alloc)?,
            reasons: self.reasons.copy(alloc)?,
        })
    }
}
