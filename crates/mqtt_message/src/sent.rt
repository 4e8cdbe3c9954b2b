//! The PUBLISH by which a delivery is sent.

ghost use Rattle.std.specs.Prelude.{◌≡◌, ◌+◌, ◌*◌, ◌<◌, ◌≤◌, ◌^◌, ◌++◌, length, map, IfOk};
ghost use Rattle.mqtt_fields.specs.Block.{properties_bytes};
ghost use Rattle.mqtt_message.specs.Sent.{interval_property, identifier_property, identifier_len, sent_properties, sent, IsBodyLength, IsSentLength};

use crate::delivery::Delivery;
use crate::properties::MessageProperties;
use mqtt_fields::identifier::{MESSAGE_EXPIRY_INTERVAL, SUBSCRIPTION_IDENTIFIER};
use mqtt_fields::{NoMemory, Place, Properties, Property, Qos, Value, properties_len, vbi_len};
use mqtt_packets::{Bytes, Publish};
use std::alloc::Global;

/// How many bytes a message's properties take.
#[tactic(auto, unfolding(mqtt_fields::specs::Block::properties))]
fn own_len(ps: &MessageProperties) -> usize
    ensures exact { result ≡ length (properties_bytes ps.now) }
    ensures small { result < 2 ^ 28 }
{
    properties_len(Place::Publish, ps.as_slice()).unwrap()
}

/// How many bytes the properties of these Subscription Identifiers take.
fn identifiers_len(identifiers: &[u32]) -> usize
    requires { length identifiers.now < 2 ^ 16 }
    ensures exact { result ≡ length (properties_bytes (map identifier_property identifiers.now)) }
    ensures small { result ≤ 5 * length identifiers.now }
{
    let mut total = 0;
    for n in identifiers {
        total += 1 + vbi_len(*n);
    }
    total
}

/// How many bytes a Packet Identifier takes.
fn identifier_len(qos: Qos) -> usize
    ensures { result ≡ identifier_len qos }
{
    match qos {
        Qos::AtMostOnce => 0,
        _ => 2,
    }
}

/// The properties, and this Message Expiry Interval if there is one.
fn with_interval(mut properties: Properties, left: Option<u32>) -> Result<Properties, NoMemory>
    ensures { IfOk result (λ ps. ps ≡ properties ++ interval_property left) }
{
    if let Some(seconds) = left {
        properties.push(Property {
            id: MESSAGE_EXPIRY_INTERVAL,
            value: Value::Four(seconds),
        })?;
    }
    Ok(properties)
}

impl Delivery {
    /// How many bytes the properties of its PUBLISH take.
    fn properties_len(&self, now: u64) -> usize
        ensures exact { result ≡ length (properties_bytes (sent_properties self.now now)) }
        ensures small { result < 2 ^ 28 + 2 ^ 19 }
    {
        let interval = if self.message.message().remaining(now).is_some() {
            5
        } else {
            0
        };
        own_len(&self.message.message().properties)
            + interval
            + identifiers_len(self.identifiers.as_slice())
    }

    /// The properties of its PUBLISH: the message's own, then the Message Expiry Interval that is left, then
    /// the Subscription Identifiers.
    pub(crate) fn sent_properties(&self, alloc: Global, now: u64) -> Result<Properties, NoMemory>
        ensures { IfOk result (λ ps. ps ≡ sent_properties self.now now) }
    {
        let own = self.message.message().properties.to_properties(alloc)?;
        let mut properties = with_interval(own, self.message.message().remaining(now))?;
        for n in self.identifiers.as_slice() {
            properties.push(Property {
                id: SUBSCRIPTION_IDENTIFIER,
                value: Value::Vbi(*n),
            })?;
        }
        Ok(properties)
    }

    /// The PUBLISH that sends it now, with this DUP flag and Packet Identifier (0 at QoS 0).
    pub fn publish(
        &self,
        alloc: Global,
        now: u64,
        dup: bool,
        identifier: u16,
    ) -> Result<Publish, NoMemory>
        ensures { IfOk result (λ p. p ≡ sent self.now now dup identifier) }
    {
        let message = self.message.message();
        Ok(Publish {
            dup,
            qos: self.qos,
            retain: self.retain,
            topic: message.topic.as_text().copy(alloc)?,
            identifier,
            properties: self.sent_properties(alloc, now)?,
            payload: Bytes::from_slice(alloc, message.payload.as_slice())?,
        })
    }

    /// The length of what follows Remaining Length in the PUBLISH that sends it now: topic, Packet Identifier,
    /// properties with their length, and payload.
    pub(crate) fn body_len(&self, now: u64) -> usize
        ensures exact { IsBodyLength self.now now result }
        ensures small { result < 2 ^ 30 }
    {
        let message = self.message.message();
        let properties = self.properties_len(now);
        2 + message.topic.as_str().len()
            + identifier_len(self.qos)
            + vbi_len(properties as u32)
            + properties
            + message.payload.as_slice().len()
    }

    /// The length of the PUBLISH that sends it now: the message's own properties, then the Message Expiry
    /// Interval that is left, then the Subscription Identifiers.
    pub fn packet_length(&self, now: u64) -> u64
        ensures { IsSentLength self.now now result }
    {
        let body = self.body_len(now);
        (1 + vbi_len(body as u32) + body) as u64
    }
}
