//! A PUBLISH of MQTT 5.0 without its properties, by where its parts stand.

ghost use Rattle.std.specs.Prelude.{◌≡◌, ◌++◌, IfOk, MatchOption, OnOk};
ghost use Rattle.mqtt_fields.specs.declared.table.Place.TheVariants as places;
ghost use Rattle.mqtt_fields.specs.Block.{properties};
ghost use Rattle.mqtt_fields.specs.Identifier.{topic_alias};
ghost use Rattle.mqtt_packets.specs.Reading.{Gives, field_at};
ghost use Rattle.mqtt_packets.specs.Values.{has};
ghost use Rattle.mqtt3_packets.specs.Cut.{IsMadeOf, IsPassed, is_valid_with, parts_at};
ghost use Rattle.mqtt3_packets.specs.Written.{framed};

use crate::front::{body_at, take_identifier, take_topic};
use crate::publish::PublishFlags;
use mqtt_fields::identifier::TOPIC_ALIAS;
use mqtt_fields::{NoMemory, Place, Properties, Property, Vbi, read_properties, vbi_len};
use mqtt_packets::{PacketFault, are_valid};
use std::alloc::Global;

/// Whether there is a Topic Alias.
fn has_alias(properties: &[Property]) -> bool
    ensures { result ≡ has topic_alias properties.now }
{
    properties.iter().any(|p| p.id == TOPIC_ALIAS)
}

/// Whether a PUBLISH may have these fields.
fn is_valid(flags: PublishFlags, topic: &[u8], identifier: u16, properties: &[Property]) -> bool
    ensures { result ≡ is_valid_with flags topic.now identifier properties.now }
{
    (!flags.has_identifier() || identifier != 0)
        && are_valid(properties)
        && (!topic.is_empty() || has_alias(properties))
}

#[tactic(auto, using(mqtt_packets::proofs::Lifts::lifted))]
fn take_properties(alloc: Global, bytes: &[u8]) -> Result<(Properties, &[u8]), PacketFault>
    ensures { Gives (λ x. (x.0, x.1.now)) result (field_at (properties places.Publish) bytes.now) }
{
    let (properties, used) = read_properties(alloc, Place::Publish, bytes)?;
    Ok((properties, &bytes[used..]))
}

/// What stands before the properties of a PUBLISH with these flags of which this is the body, and its payload.
#[tactic(auto, unfolding(crate::specs::Cut::parts_at))]
fn parts_of(alloc: Global, flags: PublishFlags, bytes: &[u8]) -> Result<(&[u8], &[u8]), PacketFault>
    ensures { Gives (λ x. (x.0.now, x.1.now)) result (parts_at flags bytes.now) }
{
    let (topic, rest) = take_topic(bytes)?;
    let (identifier, rest) = take_identifier(flags, rest)?;
    let (properties, payload) = take_properties(alloc, rest)?;
    if !is_valid(flags, topic, identifier, properties.as_slice()) {
        return Err(PacketFault::ProtocolError);
    }
    Ok((&bytes[..bytes.len() - rest.len()], payload))
}

/// The same parts, of which what is sent is made.
fn cut_of(alloc: Global, flags: PublishFlags, bytes: &[u8]) -> Result<(&[u8], &[u8]), PacketFault>
    ensures { IfOk result (λ x. IsMadeOf flags bytes.now x.0.now x.1.now) }
{
    match parts_of(alloc, flags, bytes) {
        Ok((front, payload)) => Ok((front, payload)),
        Err(fault) => Err(fault),
    }
}

/// Appends a packet whose body is these bytes and then those, which none has that is longer than a packet can be.
fn put_parts(first: u8, front: &[u8], payload: &[u8], out: &mut Vec<u8>) -> Result<(), NoMemory>
    ensures { OnOk result (out.new.items ≡ out.old.items ++ framed first (front.now ++ payload.now)) }
{
    let len = front.len() + payload.len();
    if len > 268_435_455 {
        return Ok(());
    }
    out.reserve(1 + vbi_len(len as u32) + len)?;
    out.push(first)?;
    Vbi::write(len as u32, out)?;
    out.extend_from_slice(front)?;
    out.extend_from_slice(payload)?;
    Ok(())
}

/// Appends what tells a client of an earlier version of the PUBLISH of MQTT 5.0 in front of these bytes, and answers how many of them it takes. Its topic
/// and its payload are copied once, and its properties are left out.
///
/// `None`, and nothing is appended, where another packet stands there or none that is whole and right, and where memory runs out for the properties.
pub fn write_publish_at(
    alloc: Global,
    bytes: &[u8],
    out: &mut Vec<u8>,
) -> Result<Option<usize>, NoMemory>
    ensures { IfOk result (λ o. MatchOption o (out.new.items ≡ out.old.items) (λ used. IsPassed bytes.now used out.old.items out.new.items)) }
{
    let Some((flags, body, rest)) = body_at(bytes) else {
        return Ok(None);
    };
    match cut_of(alloc, flags, body) {
        Ok((front, payload)) => {
            put_parts(flags.byte(), front, payload, out)?;
            Ok(Some(bytes.len() - rest.len()))
        }
        Err(_) => Ok(None),
    }
}
