//! CONNACK.

ghost use Rattle.std.specs.Prelude.{◌≡◌, ◌++◌, IfOk, OnOk, IsErrOf, IsOk, OnErr, vec_len, vec_capacity, length, ◌+◌, ◌<◌, ◌≤◌};
ghost use Rattle.mqtt_packets.specs.Memory.{connack_start};
ghost use Rattle.mqtt_packets.specs.Reading.{Gives, field_at};
ghost use Rattle.mqtt_packets.specs.Measure.{Measures};
ghost use Rattle.mqtt_packets.specs.Connack.{session_flag, connack};

use crate::fault::PacketFault;
use crate::field::{put_properties, take_properties, take_u8};
use crate::head::bit;
use crate::measure::{block_len, within};
use crate::values::are_valid;
use mqtt_fields::{NoMemory, Place, Properties};
use std::alloc::Global;

/// The answer to a CONNECT (MQTT 5.0, 3.2).
#[derive(Drop)]
pub struct Connack {
    pub session_present: bool,
    pub reason: u8,
    pub properties: Properties,
}

fn take_session_flag(bytes: &[u8]) -> Result<(u8, &[u8]), PacketFault>
    ensures exact { Gives (λ x. (x.0, x.1.now)) result (field_at session_flag bytes.now) }
    ensures no_memory { IsErrOf result PacketFault.NoMemory → ⊥ }
{
    let (flags, rest) = take_u8(bytes)?;
    if flags >= 2 {
        return Err(PacketFault::Malformed);
    }
    Ok((flags, rest))
}

impl Connack {
    #[tactic(auto, unfolding(crate::specs::Connack::connack))]
    pub(crate) fn of(alloc: Global, bytes: &[u8]) -> Result<Connack, PacketFault>
        ensures exact { Gives (λ x. x) result (connack.of bytes.now) }
        ensures no_memory { IsErrOf result PacketFault.NoMemory → IsOk (connack_start bytes.now) }
    {
        let (flags, rest) = take_session_flag(bytes)?;
        let (reason, rest) = take_u8(rest)?;
        let (properties, rest) = take_properties(alloc, Place::Connack, rest)?;
        if !rest.is_empty() {
            return Err(PacketFault::Malformed);
        }
        if !are_valid(properties.as_slice()) {
            return Err(PacketFault::ProtocolError);
        }
        Ok(Connack {
            session_present: flags == 1,
            reason,
            properties,
        })
    }

    #[tactic(auto, unfolding(crate::specs::Connack::connack))]
    pub(crate) fn write(&self, out: &mut Vec<u8>) -> Result<(), NoMemory>
        requires { connack.Fits self.now }
        ensures ok { OnOk result (out.new.items ≡ out.old.items ++ connack.bytes self.now) }
        ensures full { OnErr result (vec_capacity out.old < vec_len out.old + length (connack.bytes self.now)) }
        ensures capacity { vec_capacity out.old ≤ vec_capacity out.new }
    {
        out.push(bit(self.session_present))?;
        out.push(self.reason)?;
        put_properties(Place::Connack, &self.properties, out)
    }

    /// How many bytes the body takes.
    #[tactic(auto, using(crate::proofs::KindLaws::connack_own), unfolding(crate::specs::Connack::connack))]
    pub(crate) fn len(&self) -> Option<usize>
        ensures { Measures connack self.now result }
    {
        let _reason = self.reason;
        if !are_valid(self.properties.as_slice()) {
            return None;
        }
        let n = block_len(Place::Connack, &self.properties)?;
        within(2 + n)
    }

    /// A packet equal to this one.
    pub fn copy(&self, alloc: Global) -> Result<Connack, NoMemory>
        ensures { IfOk result (λ x. x ≡ self.now) }
    {
        Ok(Connack {
            session_present: self.session_present,
            reason: self.reason,
            properties: self.properties.copy(alloc)?,
        })
    }
}
