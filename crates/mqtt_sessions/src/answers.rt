//! The packets by which a server answers its client, and their lengths.

ghost use Rattle.std.specs.Prelude.{◌≡◌, ◌<◌, ◌≤◌, ◌^◌, Bool, List, [], ℕ, IfOk, length};
ghost use Rattle.mqtt_fields.specs.Numbers.{IsText};
ghost use Rattle.mqtt_packets.specs.Written.{HasSpelling};
ghost use Rattle.mqtt_sessions.specs.Answers as specs;
ghost use Rattle.mqtt_sessions.specs.Lengths.{IsMeasured, ack_length, assigned_length, list_length};

use crate::aliases::TOPIC_ALIAS_MAXIMUM;
use mqtt_fields::{
    LONGEST_PACKET, MOST_EXCHANGES, NoMemory, Properties, Property, Text, Value, identifier,
    vbi_len,
};
use mqtt_packets::{Ack, Bytes, Connack, Ended, Packet, Reasons, reason};
use std::alloc::Global;

/// How many exchanges a client may have open, as CONNACK tells it (MQTT 5.0, 3.2.2.3.3).
const RECEIVE_MAXIMUM: u16 = MOST_EXCHANGES as u16;

/// The longest packet that a client may send, as CONNACK tells it (MQTT 5.0, 3.2.2.3.6).
const MAXIMUM_PACKET_SIZE: u32 = LONGEST_PACKET as u32;

/// A packet and its length in bytes.
#[derive(Drop)]
pub(crate) struct Measured {
    pub(crate) packet: Packet,
    pub(crate) length: u64,
}

pub(crate) fn ack(alloc: Global, id: u16, code: u8) -> Ack
    ensures { result ≡ specs.ack id code }
{
    Ack {
        identifier: id,
        reason: code,
        properties: Properties::new(alloc),
    }
}

/// The length of an acknowledgement of any kind with this code.
fn ack_length(code: u8) -> u64
    ensures { result ≡ ack_length code }
{
    if code == reason::SUCCESS { 4 } else { 5 }
}

pub(crate) fn puback(alloc: Global, id: u16, code: u8) -> Measured
    ensures packet { result.packet ≡ specs.puback id code }
    ensures measured { IsMeasured result }
{
    Measured {
        packet: Packet::Puback(ack(alloc, id, code)),
        length: ack_length(code),
    }
}

pub(crate) fn pubrec(alloc: Global, id: u16, code: u8) -> Measured
    ensures packet { result.packet ≡ specs.pubrec id code }
    ensures measured { IsMeasured result }
{
    Measured {
        packet: Packet::Pubrec(ack(alloc, id, code)),
        length: ack_length(code),
    }
}

pub(crate) fn pubrel(alloc: Global, id: u16, code: u8) -> Measured
    ensures packet { result.packet ≡ specs.pubrel id code }
    ensures measured { IsMeasured result }
{
    Measured {
        packet: Packet::Pubrel(ack(alloc, id, code)),
        length: ack_length(code),
    }
}

pub(crate) fn pubcomp(alloc: Global, id: u16, code: u8) -> Measured
    ensures packet { result.packet ≡ specs.pubcomp id code }
    ensures measured { IsMeasured result }
{
    Measured {
        packet: Packet::Pubcomp(ack(alloc, id, code)),
        length: ack_length(code),
    }
}

/// The length of a SUBACK or an UNSUBACK with so many codes. More than 268,435,460 have no length that a client takes.
fn list_length(count: usize) -> u64
    ensures { result ≡ list_length count }
{
    if count > 268_435_460 {
        return count as u64;
    }
    let body = 3 + count;
    (1 + vbi_len(body as u32) + body) as u64
}

/// Whether a client takes a SUBACK or an UNSUBACK with so many codes.
pub(crate) fn list_fits(limit: u64, count: usize) -> bool
    requires { limit ≤ 268435460 }
    ensures suback { (id : ℕ) (codes : List ℕ) → length codes ≡ count → result ≡ specs.fits limit (specs.suback id codes) }
    ensures unsuback { (id : ℕ) (codes : List ℕ) → length codes ≡ count → result ≡ specs.fits limit (specs.unsuback id codes) }
{
    list_length(count) <= limit
}

fn reasons(alloc: Global, id: u16, codes: Vec<u8>) -> Reasons
    ensures { result ≡ record { identifier = id; properties = []; reasons = codes.items } }
{
    Reasons {
        identifier: id,
        properties: Properties::new(alloc),
        reasons: Bytes::new(codes),
    }
}

pub(crate) fn suback(alloc: Global, id: u16, codes: Vec<u8>) -> Measured
    ensures packet { result.packet ≡ specs.suback id codes.items }
    ensures measured { IsMeasured result }
{
    let length = list_length(codes.as_slice().len());
    Measured {
        packet: Packet::Suback(reasons(alloc, id, codes)),
        length,
    }
}

pub(crate) fn unsuback(alloc: Global, id: u16, codes: Vec<u8>) -> Measured
    ensures packet { result.packet ≡ specs.unsuback id codes.items }
    ensures measured { IsMeasured result }
{
    let length = list_length(codes.as_slice().len());
    Measured {
        packet: Packet::Unsuback(reasons(alloc, id, codes)),
        length,
    }
}

pub(crate) fn pingresp() -> Measured
    ensures packet { result.packet ≡ Packet.Pingresp }
    ensures measured { IsMeasured result }
{
    Measured {
        packet: Packet::Pingresp,
        length: 2,
    }
}

/// Whether a server's DISCONNECT with a code that isn't 0 fits.
pub(crate) fn disconnect_fits(limit: u64, code: u8) -> bool
    requires { 0 < code }
    ensures { result ≡ specs.fits limit (specs.disconnect code) }
{
    limit >= 3
}

/// The properties of a CONNACK that accepts, in which a client that gave no identifier is told its own.
fn connack_properties(
    alloc: Global,
    present: bool,
    given: &Text,
    client: &Text,
) -> Result<Connack, NoMemory>
    ensures { IfOk result (λ c. Packet.Connack c ≡ specs.connack present given.now client.now) }
{
    let mut properties = Properties::new(alloc);
    if given.as_str().is_empty() {
        properties.push(Property {
            id: identifier::ASSIGNED_CLIENT_IDENTIFIER,
            value: Value::Text(client.copy(alloc)?),
        })?;
    }
    properties.push(Property {
        id: identifier::RECEIVE_MAXIMUM,
        value: Value::Two(RECEIVE_MAXIMUM),
    })?;
    properties.push(Property {
        id: identifier::TOPIC_ALIAS_MAXIMUM,
        value: Value::Two(TOPIC_ALIAS_MAXIMUM),
    })?;
    properties.push(Property {
        id: identifier::MAXIMUM_PACKET_SIZE,
        value: Value::Four(MAXIMUM_PACKET_SIZE),
    })?;
    Ok(Connack {
        session_present: present,
        reason: reason::SUCCESS,
        properties,
    })
}

/// What an Assigned Client Identifier adds to the properties of a CONNACK.
fn assigned_length(given: &Text, client: &Text) -> usize
    ensures exact { result ≡ assigned_length given.now client.now }
    ensures small { result < 2 ^ 17 }
    ensures text { IsText client.now }
{
    let assigned = client.as_str();
    if given.as_str().is_empty() {
        3 + assigned.len()
    } else {
        0
    }
}

/// Whether a client takes the CONNACK that accepts it.
pub(crate) fn connack_fits(limit: u64, given: &Text, client: &Text) -> bool
    ensures { (present : Bool) → result ≡ specs.fits limit (specs.connack present given.now client.now) }
{
    let properties = 11 + assigned_length(given, client);
    let body = 2 + vbi_len(properties as u32) + properties;
    (1 + vbi_len(body as u32) + body) as u64 <= limit
}

/// CONNACK to a client that is accepted (MQTT 5.0, 3.2).
pub(crate) fn connack(
    alloc: Global,
    present: bool,
    given: &Text,
    client: &Text,
) -> Result<Packet, NoMemory>
    ensures packet { IfOk result (λ p. p ≡ specs.connack present given.now client.now) }
    ensures spelled { IfOk result HasSpelling }
{
    let _length = assigned_length(given, client);
    let connack = connack_properties(alloc, present, given, client)?;
    Ok(Packet::Connack(connack))
}
