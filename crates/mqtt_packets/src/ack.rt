//! PUBACK, PUBREC, PUBREL and PUBCOMP.

ghost use Rattle.std.specs.Prelude.{◌≡◌, ◌++◌, IfOk, OnOk, IsErrOf, IsOk, OnErr, vec_len, vec_capacity, length, ◌+◌, ◌<◌, ◌≤◌};
ghost use Rattle.mqtt_packets.specs.Memory.{reason_start, ack_start};
ghost use Rattle.mqtt_packets.specs.Reading.{Gives};
ghost use Rattle.mqtt_packets.specs.Measure.{Measures};
ghost use Rattle.mqtt_packets.specs.Ack.{reason, is_valid_ack, ack};

use crate::fault::PacketFault;
use crate::field::{put_properties, take_properties, take_u8, take_u16};
use crate::measure::{block_len, within};
use crate::values::are_valid;
use mqtt_fields::{NoMemory, Place, Properties};
use std::alloc::Global;

/// An acknowledgement of a PUBLISH or of another acknowledgement (MQTT 5.0, 3.4 to 3.7).
#[derive(Drop)]
pub struct Ack {
    pub identifier: u16,
    pub reason: u8,
    pub properties: Properties,
}

/// A reason and properties, which may both be left out from the right.
#[tactic(auto, unfolding(crate::specs::Ack::reason))]
pub(crate) fn reason_of(
    alloc: Global,
    place: Place,
    bytes: &[u8],
) -> Result<(u8, Properties), PacketFault>
    ensures exact { Gives (λ x. x) result ((reason place).of bytes.now) }
    ensures no_memory { IsErrOf result PacketFault.NoMemory → IsOk (reason_start place bytes.now) }
{
    if bytes.is_empty() {
        return Ok((0, Properties::new(alloc)));
    }
    let (reason, rest) = take_u8(bytes)?;
    if rest.is_empty() {
        return Ok((reason, Properties::new(alloc)));
    }
    let (properties, rest) = take_properties(alloc, place, rest)?;
    if !rest.is_empty() {
        return Err(PacketFault::Malformed);
    }
    Ok((reason, properties))
}

/// Appends a reason and properties, leaving out what may be left out.
#[tactic(auto, unfolding(crate::specs::Ack::reason))]
pub(crate) fn put_reason(
    place: Place,
    code: u8,
    ps: &Properties,
    out: &mut Vec<u8>,
) -> Result<(), NoMemory>
    requires { (reason place).Fits (code, ps.now) }
    ensures ok { OnOk result (out.new.items ≡ out.old.items ++ (reason place).bytes (code, ps.now)) }
    ensures full { OnErr result (vec_capacity out.old < vec_len out.old + length ((reason place).bytes (code, ps.now))) }
    ensures capacity { vec_capacity out.old ≤ vec_capacity out.new }
{
    if ps.as_slice().is_empty() {
        if code != 0 {
            out.push(code)?;
        }
        return Ok(());
    }
    out.push(code)?;
    put_properties(place, ps, out)
}

/// How many bytes a reason and properties take.
#[tactic(auto, unfolding(crate::specs::Ack::reason))]
pub(crate) fn reason_len(place: Place, code: u8, ps: &Properties) -> Option<usize>
    ensures { Measures (reason place) (code, ps.now) result }
{
    let n = block_len(place, ps)?;
    if !ps.as_slice().is_empty() {
        within(1 + n)
    } else if code != 0 {
        Some(1)
    } else {
        Some(0)
    }
}

impl Ack {
    fn is_valid(&self) -> bool
        ensures { result ≡ is_valid_ack self.now }
    {
        self.identifier != 0 && are_valid(self.properties.as_slice())
    }

    #[tactic(auto, unfolding(crate::specs::Ack::ack))]
    pub(crate) fn of(alloc: Global, place: Place, bytes: &[u8]) -> Result<Ack, PacketFault>
        ensures exact { Gives (λ x. x) result ((ack place).of bytes.now) }
        ensures no_memory { IsErrOf result PacketFault.NoMemory → IsOk (ack_start place bytes.now) }
    {
        let (identifier, rest) = take_u16(bytes)?;
        let (reason, properties) = reason_of(alloc, place, rest)?;
        let ack = Ack {
            identifier,
            reason,
            properties,
        };
        if !ack.is_valid() {
            return Err(PacketFault::ProtocolError);
        }
        Ok(ack)
    }

    #[tactic(auto, unfolding(crate::specs::Ack::ack))]
    pub(crate) fn write(&self, place: Place, out: &mut Vec<u8>) -> Result<(), NoMemory>
        requires { (ack place).Fits self.now }
        ensures ok { OnOk result (out.new.items ≡ out.old.items ++ (ack place).bytes self.now) }
        ensures full { OnErr result (vec_capacity out.old < vec_len out.old + length ((ack place).bytes self.now)) }
        ensures capacity { vec_capacity out.old ≤ vec_capacity out.new }
    {
        out.extend_from_slice(&self.identifier.to_be_bytes())?;
        put_reason(place, self.reason, &self.properties, out)
    }

    /// How many bytes the body takes.
    #[tactic(auto, unfolding(crate::specs::Ack::ack))]
    pub(crate) fn len(&self, place: Place) -> Option<usize>
        ensures { Measures (ack place) self.now result }
    {
        let _identifier = self.identifier;
        if !self.is_valid() {
            return None;
        }
        let n = reason_len(place, self.reason, &self.properties)?;
        within(2 + n)
    }

    /// An acknowledgement equal to this one.
    pub fn copy(&self, alloc: Global) -> Result<Ack, NoMemory>
        ensures { IfOk result (λ x. x ≡ self.now) }
    {
        Ok(Ack {
            identifier: self.identifier,
            reason: self.reason,
            properties: self.properties.copy(alloc)?,
        })
    }
}
