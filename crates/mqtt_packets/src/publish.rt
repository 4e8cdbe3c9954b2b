//! PUBLISH.

ghost use Rattle.std.specs.Prelude.{◌≡◌, ◌++◌, IfOk, OnOk, IsErrOf, IsOk, OnErr, vec_len, vec_capacity, length, ◌+◌, ◌<◌, ◌≤◌};
ghost use Rattle.mqtt_fields.specs.Numbers.{text};
ghost use Rattle.mqtt_packets.specs.Reading.{Gives, field_at};
ghost use Rattle.mqtt_packets.specs.Measure.{Measures};
ghost use Rattle.mqtt_packets.specs.Publish.{flags_of, is_valid_publish, publish};

use crate::bytes::Bytes;
use crate::fault::PacketFault;
use crate::field::{put_properties, take_properties, take_text, take_u16};
use crate::head::{PublishFlags, is_at_most_once};
use crate::measure::{BODY_LIMIT, block_len, text_len, within};
use crate::values::{are_valid, has};
use mqtt_fields::identifier::TOPIC_ALIAS;
use mqtt_fields::{NoMemory, Place, Properties, Qos, Text};
use std::alloc::Global;

/// A message on its way (MQTT 5.0, 3.3).
#[derive(Drop)]
pub struct Publish {
    pub dup: bool,
    pub qos: Qos,
    pub retain: bool,
    pub topic: Text,
    /// 0 at QoS 0, where none is sent.
    pub identifier: u16,
    pub properties: Properties,
    pub payload: Bytes,
}

impl Publish {
    fn is_valid(&self) -> bool
        ensures { result ≡ is_valid_publish self.now }
    {
        let properties = self.properties.as_slice();
        (is_at_most_once(self.qos) || self.identifier != 0)
            && are_valid(properties)
            && (!self.topic.as_str().is_empty() || has(TOPIC_ALIAS, properties))
    }

    #[tactic(auto, unfolding(crate::specs::Publish::publish))]
    pub(crate) fn of(
        alloc: Global,
        flags: PublishFlags,
        bytes: &[u8],
    ) -> Result<Publish, PacketFault>
        ensures exact { Gives (λ x. x) result ((publish flags).of bytes.now) }
        ensures no_memory { IsErrOf result PacketFault.NoMemory → IsOk (field_at text bytes.now) }
    {
        let (topic, rest) = take_text(alloc, bytes)?;
        let (identifier, rest) = if is_at_most_once(flags.qos) {
            (0, rest)
        } else {
            take_u16(rest)?
        };
        let (properties, rest) = take_properties(alloc, Place::Publish, rest)?;
        let publish = Publish {
            dup: flags.dup,
            qos: flags.qos,
            retain: flags.retain,
            topic,
            identifier,
            properties,
            payload: Bytes::from_slice(alloc, rest)?,
        };
        if !publish.is_valid() {
            return Err(PacketFault::ProtocolError);
        }
        Ok(publish)
    }

    /// What the first byte says.
    pub(crate) fn flags(&self) -> PublishFlags
        ensures { result ≡ flags_of self.now }
    {
        PublishFlags {
            dup: self.dup,
            qos: self.qos,
            retain: self.retain,
        }
    }

    #[tactic(auto, unfolding(crate::specs::Publish::publish))]
    pub(crate) fn write(&self, out: &mut Vec<u8>) -> Result<(), NoMemory>
        requires { (publish (flags_of self.now)).Fits self.now }
        ensures ok { OnOk result (out.new.items ≡ out.old.items ++ (publish (flags_of self.now)).bytes self.now) }
        ensures full { OnErr result (vec_capacity out.old < vec_len out.old + length ((publish (flags_of self.now)).bytes self.now)) }
        ensures capacity { vec_capacity out.old ≤ vec_capacity out.new }
    {
        self.topic.write(out)?;
        if !is_at_most_once(self.qos) {
            out.extend_from_slice(&self.identifier.to_be_bytes())?;
        }
        put_properties(Place::Publish, &self.properties, out)?;
        out.extend_from_slice(self.payload.as_slice())?;
        Ok(())
    }

    /// How many bytes the body takes.
    #[tactic(auto, unfolding(crate::specs::Publish::publish))]
    pub(crate) fn len(&self) -> Option<usize>
        ensures { Measures (publish (flags_of self.now)) self.now result }
    {
        let payload = self.payload.as_slice();
        let identifier = self.identifier;
        if !self.is_valid() {
            return None;
        }
        let topic = text_len(&self.topic);
        let n = block_len(Place::Publish, &self.properties)?;
        if payload.len() >= BODY_LIMIT {
            return None;
        }
        if !is_at_most_once(self.qos) {
            within(topic + 2 + n + payload.len())
        } else if identifier != 0 {
            None
        } else {
            within(topic + n + payload.len())
        }
    }

    /// A packet equal to this one.
    pub fn copy(&self, alloc: Global) -> Result<Publish, NoMemory>
        ensures { IfOk result (λ x. x ≡ self.now) }
    {
        Ok(Publish {
            dup: self.dup,
            qos: self.qos,
            retain: self.retain,
            topic: self.topic.copy(alloc)?,
            identifier: self.identifier,
            properties: self.properties.copy(alloc)?,
            payload: self.payload.copy(alloc)?,
        })
    }
}
