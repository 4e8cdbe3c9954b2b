//! The properties that belong to a message.

ghost use Rattle.std.specs.Prelude.{◌≡◌, ◌≢◌, ◌+◌, ◌<◌, ◌≤◌, ◌++◌, ◌&&◌, List, [], ℕ, length, vec_len, vec_capacity, IfOk, OnOk, OnErr};
ghost use Rattle.std.specs.List.{list_all};
ghost use Rattle.mqtt_fields.specs.declared.value.Property.{Property};
ghost use Rattle.mqtt_fields.specs.declared.table.Place.TheVariants as places;
ghost use Rattle.mqtt_packets.specs.Values.{has_no_wildcard, is_valid_property};
ghost use Rattle.mqtt_fields.specs.Reading.{Gives};
ghost use Rattle.mqtt_message.specs.Parts.{own_properties};
ghost use Rattle.mqtt_message.specs.OwnProperties.{is_own_id, is_own, own, is_allowed_own, AreOwn, IsAllowed};

use crate::field::plain_fault;
use mqtt_fields::identifier::{
    CONTENT_TYPE, CORRELATION_DATA, MAXIMUM_PACKET_SIZE, PAYLOAD_FORMAT_INDICATOR, RECEIVE_MAXIMUM,
    RESPONSE_TOPIC, SUBSCRIPTION_IDENTIFIER, USER_PROPERTY,
};
use mqtt_fields::{
    FieldFault, NoMemory, Place, Properties, Property, Value, properties_of, write_properties,
};
use std::alloc::Global;
use std::marker::Model;

/// The properties of a message, in order: Payload Format Indicator, Content Type, Response Topic,
/// Correlation Data and User Properties (MQTT 5.0, 3.3.2.3). Contracts see the list.
#[derive(Drop)]
pub struct MessageProperties {
    items: Properties,
}

impl Model for MessageProperties {
    ghost Value = { List Property };

    ghost view = { λ p. p.items };

    ghost invariant = { λ p. AreOwn p.items };
}

fn is_own(id: u8) -> bool
    ensures { result ≡ is_own_id id }
{
    matches!(
        id,
        PAYLOAD_FORMAT_INDICATOR | CONTENT_TYPE | RESPONSE_TOPIC | CORRELATION_DATA | USER_PROPERTY
    )
}

/// Those of the properties that belong to the message.
fn own_of(alloc: Global, all: &Properties) -> Result<Properties, NoMemory>
    ensures { IfOk result (λ ps. ps ≡ own all.now) }
{
    let mut kept = Properties::new(alloc);
    for p in all.as_slice() {
        if is_own(p.id) {
            kept.push(p.copy(alloc)?)?;
        }
    }
    Ok(kept)
}

fn has_no_wildcard(text: &[u8]) -> bool
    ensures { result ≡ has_no_wildcard text.now }
{
    text.iter().all(|b| *b != b'+' && *b != b'#')
}

/// Whether the standard allows the value in a packet.
pub(crate) fn is_valid(p: &Property) -> bool
    ensures { result ≡ is_valid_property p.now }
{
    match &p.value {
        Value::Byte(n) => *n < 2,
        Value::Two(n) => !(p.id == RECEIVE_MAXIMUM && *n == 0),
        Value::Four(n) => !(p.id == MAXIMUM_PACKET_SIZE && *n == 0),
        Value::Vbi(n) => !(p.id == SUBSCRIPTION_IDENTIFIER && *n == 0),
        Value::Text(t) => p.id != RESPONSE_TOPIC || has_no_wildcard(t.as_str().as_bytes()),
        _ => true,
    }
}

fn are_allowed(ps: &[Property]) -> bool
    ensures { result ≡ list_all is_allowed_own ps.now }
{
    ps.iter().all(|p| is_own(p.id) && is_valid(p))
}

impl MessageProperties {
    /// Those of a PUBLISH's properties that belong to the message, in order.
    pub fn of_publish(alloc: Global, all: &Properties) -> Result<MessageProperties, NoMemory>
        requires { IsAllowed places.Publish all.now }
        ensures { IfOk result (λ ps. ps ≡ own all.now) }
    {
        let items = own_of(alloc, all)?;
        Ok(MessageProperties { items })
    }

    /// Those of a will's properties that belong to the message, in order.
    pub fn of_will(alloc: Global, all: &Properties) -> Result<MessageProperties, NoMemory>
        requires { IsAllowed places.Will all.now }
        ensures { IfOk result (λ ps. ps ≡ own all.now) }
    {
        let items = own_of(alloc, all)?;
        Ok(MessageProperties { items })
    }

    /// The properties.
    pub fn as_slice(&self) -> &[Property]
        ensures same { result.now ≡ self.now }
        ensures own { AreOwn self.now }
    {
        self.items.as_slice()
    }

    /// The same properties, to which others may be added.
    pub(crate) fn to_properties(&self, alloc: Global) -> Result<Properties, NoMemory>
        ensures { IfOk result (λ ps. ps ≡ self.now) }
    {
        self.items.copy(alloc)
    }

    /// A block of a message's properties at the front, and the bytes after it.
    #[tactic(auto, unfolding(crate::specs::Parts::own_properties))]
    pub(crate) fn at(alloc: Global, bytes: &[u8]) -> Result<(MessageProperties, &[u8]), FieldFault>
        ensures { Gives (λ x. (x.0, x.1.now)) result (own_properties.at bytes.now) }
    {
        match properties_of(alloc, Place::Publish, bytes) {
            Err(fault) => Err(plain_fault(fault)),
            Ok((items, rest)) => {
                if !are_allowed(items.as_slice()) {
                    return Err(FieldFault::Malformed);
                }
                Ok((MessageProperties { items }, rest))
            }
        }
    }

    /// Appends the block of the properties.
    #[tactic(auto, unfolding(crate::specs::Parts::own_properties))]
    pub(crate) fn write(&self, out: &mut Vec<u8>) -> Result<(), NoMemory>
        ensures ok { OnOk result (out.new.items ≡ out.old.items ++ own_properties.bytes self.now) }
        ensures err { OnErr result (out.new.items ≡ out.old.items) }
        ensures full { OnErr result (vec_capacity out.old
            < vec_len out.old + length (own_properties.bytes self.now)) }
        ensures capacity { vec_capacity out.old ≤ vec_capacity out.new }
    {
        write_properties(&self.items, out)
    }

    /// Properties equal to these. None take no memory.
    pub fn copy(&self, alloc: Global) -> Result<MessageProperties, NoMemory>
        ensures ok { IfOk result (λ ps. ps ≡ self.now) }
        ensures err { OnErr result (self.now ≢ []) }
    {
        if self.items.is_empty() {
            let items = Properties::new(alloc);
            return Ok(MessageProperties { items });
        }
        let items = self.items.copy(alloc)?;
        Ok(MessageProperties { items })
    }
}
