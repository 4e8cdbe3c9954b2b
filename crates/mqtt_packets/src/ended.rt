//! DISCONNECT and AUTH.

ghost use Rattle.std.specs.Prelude.{◌≡◌, ◌++◌, IfOk, OnOk, IsErrOf, IsOk, OnErr, vec_len, vec_capacity, length, ◌+◌, ◌<◌, ◌≤◌};
ghost use Rattle.mqtt_packets.specs.Memory.{reason_start};
ghost use Rattle.mqtt_packets.specs.Reading.{Gives};
ghost use Rattle.mqtt_packets.specs.Measure.{Measures};
ghost use Rattle.mqtt_packets.specs.Ended.{is_valid_ended, ended};

use crate::ack::{put_reason, reason_len, reason_of};
use crate::fault::PacketFault;
use crate::values::are_valid;
use mqtt_fields::{NoMemory, Place, Properties};
use std::alloc::Global;

/// A DISCONNECT or an AUTH (MQTT 5.0, 3.14, 3.15).
#[derive(Drop)]
pub struct Ended {
    pub reason: u8,
    pub properties: Properties,
}

impl Ended {
    #[tactic(auto, unfolding(crate::specs::Ended::ended))]
    pub(crate) fn of(alloc: Global, place: Place, bytes: &[u8]) -> Result<Ended, PacketFault>
        ensures exact { Gives (λ x. x) result ((ended place).of bytes.now) }
        ensures no_memory { IsErrOf result PacketFault.NoMemory → IsOk (reason_start place bytes.now) }
    {
        let (reason, properties) = reason_of(alloc, place, bytes)?;
        if !are_valid(properties.as_slice()) {
            return Err(PacketFault::ProtocolError);
        }
        Ok(Ended { reason, properties })
    }

    #[tactic(auto, unfolding(crate::specs::Ended::ended))]
    pub(crate) fn write(&self, place: Place, out: &mut Vec<u8>) -> Result<(), NoMemory>
        requires { (ended place).Fits self.now }
        ensures ok { OnOk result (out.new.items ≡ out.old.items ++ (ended place).bytes self.now) }
        ensures full { OnErr result (vec_capacity out.old < vec_len out.old + length ((ended place).bytes self.now)) }
        ensures capacity { vec_capacity out.old ≤ vec_capacity out.new }
    {
        put_reason(place, self.reason, &self.properties, out)
    }

    /// How many bytes the body takes.
    #[tactic(auto, unfolding(crate::specs::Ended::ended))]
    pub(crate) fn len(&self, place: Place) -> Option<usize>
        ensures { Measures (ended place) self.now result }
    {
        if !are_valid(self.properties.as_slice()) {
            return None;
        }
        reason_len(place, self.reason, &self.properties)
    }

    /// A packet equal to this one.
    pub fn copy(&self, alloc: Global) -> Result<Ended, NoMemory>
        ensures { IfOk result (λ x. x ≡ self.now) }
    {
        Ok(Ended {
            reason: self.reason,
            properties: self.properties.copy(alloc)?,
        })
    }
}
