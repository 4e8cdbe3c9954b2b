//! A PUBLISH that is looked at where it lies.

ghost use Rattle.std.specs.Prelude.{◌≡◌, ◌==◌, not, true, Ok, IfSome};
ghost use Rattle.std.specs.Int.{w16};
ghost use Rattle.std.specs.List.{list_all};
ghost use Rattle.mqtt_fields.specs.Identifier.{topic_alias};
ghost use Rattle.mqtt_fields.specs.Numbers.{is_text, number, text};
ghost use Rattle.mqtt_packets.specs.Head.{is_at_most_once};
ghost use Rattle.mqtt_packets.specs.Publish.{flags_of as flags_in, is_valid_publish, publish};
ghost use Rattle.mqtt_packets.specs.Reading.{field_at};
ghost use Rattle.mqtt_packets.specs.Stream.{packet_at};
ghost use Rattle.mqtt_packets.specs.Values.{has};
ghost use Rattle.door_packets.specs.Front.{IsIdentifier, IsPublish, IsPublishHead};

use mqtt_fields::identifier::TOPIC_ALIAS;
use mqtt_fields::{Place, Properties, Property, Qos, properties_of, run_at, u16_at, vbi_at};
use mqtt_packets::{Publish, are_valid};
use std::alloc::Global;
use std::marker::Model;

/// What the first byte of a PUBLISH says beside its type (MQTT 5.0, 3.3.1).
#[derive(Clone, Copy, Debug, PartialEq, Eq)]
struct Flags {
    dup: bool,
    qos: Qos,
    retain: bool,
}

/// A PUBLISH whose topic and payload lie where they came. Contracts see the packet.
#[derive(Drop)]
pub(crate) struct PublishView<'a> {
    pub(crate) dup: bool,
    pub(crate) qos: Qos,
    pub(crate) retain: bool,
    pub(crate) topic: &'a str,
    pub(crate) identifier: u16,
    pub(crate) properties: Properties,
    pub(crate) payload: &'a [u8],
}

impl<'a> Model for PublishView<'a> {
    ghost use Rattle.mqtt_packets.specs.declared.publish.Publish.{Publish};

    ghost Value = { Publish };

    ghost view = { λ p. record {
      dup = p.dup;
      qos = p.qos;
      retain = p.retain;
      topic = p.topic.now;
      identifier = p.identifier;
      properties = p.properties;
      payload = p.payload.now;
    } };
}

fn is_at_most_once(qos: Qos) -> bool
    ensures { result ≡ is_at_most_once qos }
{
    match qos {
        Qos::AtMostOnce => true,
        _ => false,
    }
}

/// What this first byte says, if it is that of a PUBLISH.
#[tactic(auto, unfolding(mqtt_packets::specs::Head::head_at, mqtt_packets::specs::Packet::head_of))]
fn flags_of(first: u8) -> Option<Flags>
    ensures { IfSome result (λ f. IsPublishHead first f.dup f.qos f.retain) }
{
    let (dup, qos, retain) = match first {
        0x30 => (false, Qos::AtMostOnce, false),
        0x31 => (false, Qos::AtMostOnce, true),
        0x32 => (false, Qos::AtLeastOnce, false),
        0x33 => (false, Qos::AtLeastOnce, true),
        0x34 => (false, Qos::ExactlyOnce, false),
        0x35 => (false, Qos::ExactlyOnce, true),
        0x3a => (true, Qos::AtLeastOnce, false),
        0x3b => (true, Qos::AtLeastOnce, true),
        0x3c => (true, Qos::ExactlyOnce, false),
        0x3d => (true, Qos::ExactlyOnce, true),
        _ => return None,
    };
    Some(Flags { dup, qos, retain })
}

fn has_no_zero(bytes: &[u8]) -> bool
    ensures { result ≡ list_all (λ b. not (b == 0)) bytes.now }
{
    bytes.iter().all(|b| *b != 0)
}

/// The bytes as a string, if they are one.
#[tactic(auto, using(mqtt_fields::proofs::TextLaws::texts))]
fn string_in(bytes: &[u8]) -> Option<&str>
    ensures { IfSome result (λ s. (s.now ≡ bytes.now) × (is_text bytes.now ≡ true)) }
{
    match str::from_utf8(bytes) {
        Ok(s) => { if has_no_zero(bytes) { Some(s) } else { None } }
        Err(_) => None,
    }
}

/// The string in front, and what follows it.
fn text_in(bytes: &[u8]) -> Option<(&str, &[u8])>
    ensures { IfSome result (λ x. field_at text bytes.now ≡ Ok (x.0.now, x.1.now)) }
{
    let Ok((len, rest)) = u16_at(bytes) else {
        return None;
    };
    let Ok((run, rest)) = run_at(len as usize, rest) else {
        return None;
    };
    let text = string_in(run)?;
    Some((text, rest))
}

fn has_alias(properties: &[Property]) -> bool
    ensures { result ≡ has topic_alias properties.now }
{
    properties.iter().any(|p| p.id == TOPIC_ALIAS)
}

impl<'a> PublishView<'a> {
    fn is_valid(&self) -> bool
        ensures { result ≡ is_valid_publish self.now }
    {
        let properties = self.properties.as_slice();
        (is_at_most_once(self.qos) || self.identifier != 0)
            && are_valid(properties)
            && (!self.topic.is_empty() || has_alias(properties))
    }
}

fn number_in(bytes: &[u8]) -> Option<(u16, &[u8])>
    ensures { IfSome result (λ x. (number w16).at bytes.now ≡ Ok (x.0, x.1.now)) }
{
    match u16_at(bytes) {
        Ok(numbered) => Some(numbered),
        Err(_) => None,
    }
}

/// The identifier in front, and what follows it; 0 at QoS 0, where none stands there.
fn identifier_in(qos: Qos, bytes: &[u8]) -> Option<(u16, &[u8])>
    ensures { IfSome result (λ x. IsIdentifier qos bytes.now x.0 x.1.now) }
{
    match qos {
        Qos::AtMostOnce => Some((0, bytes)),
        Qos::AtLeastOnce => number_in(bytes),
        Qos::ExactlyOnce => number_in(bytes),
    }
}

/// The PUBLISH with these flags, whose body is all of the bytes.
fn body_in(alloc: Global, first: u8, flags: Flags, bytes: &[u8]) -> Option<PublishView<'_>>
    requires { IsPublishHead first flags.dup flags.qos flags.retain }
    ensures { IfSome result (λ p. IsPublishHead first p.dup p.qos p.retain × ((publish (flags_in p)).of bytes.now ≡ Ok p)) }
{
    let (topic, rest) = text_in(bytes)?;
    let (identifier, rest) = identifier_in(flags.qos, rest)?;
    let Ok((properties, payload)) = properties_of(alloc, Place::Publish, rest) else {
        return None;
    };
    let view = PublishView {
        dup: flags.dup,
        qos: flags.qos,
        retain: flags.retain,
        topic,
        identifier,
        properties,
        payload,
    };
    if view.is_valid() { Some(view) } else { None }
}

/// The PUBLISH in front. None where none is, and where it can't be read without more memory.
#[tactic(auto, using(crate::proofs::Views::publish_here))]
pub(crate) fn publish_in(alloc: Global, bytes: &[u8]) -> Option<PublishView<'_>>
    ensures { IfSome result (λ p. IsPublish p (packet_at bytes.now)) }
{
    match bytes {
        [] => None,
        [first, rest @ ..] => {
            let flags = flags_of(*first)?;
            let Ok((len, rest)) = vbi_at(rest) else {
                return None;
            };
            let Ok((body, _)) = run_at(len as usize, rest) else {
                return None;
            };
            let view = body_in(alloc, *first, flags, body)?;
            Some(view)
        }
    }
}
