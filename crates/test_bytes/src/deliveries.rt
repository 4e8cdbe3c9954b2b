//! Examples of deliveries (MQTT 5.0, 3.3): their bytes, and the PUBLISH that sends them.

use crate::messages::moment_of;
use crate::packets::spell;
use crate::words::{bytes_of, halves, said, word_of};
use mqtt_fields::{FieldFault, NoMemory, Qos};
use mqtt_message::{Delivery, Identifiers, Message, SharedMessage};
use mqtt_packets::Packet;
use std::alloc::Global;

/// The Subscription Identifiers of words.
fn identifiers_of(alloc: Global, words: &str) -> Option<Identifiers> {
    let mut numbers = Vec::new(alloc);
    for word in words.split_whitespace() {
        numbers.push(word.parse::<u32>().ok()?).ok()?;
    }
    Identifiers::of(numbers)
}

/// The bytes of a copy of the delivery.
fn written(alloc: Global, delivery: &Delivery) -> Result<Vec<u8>, NoMemory> {
    let mut out = Vec::new(alloc);
    let copy = delivery.copy(alloc)?;
    let result = copy.write(&mut out);
    drop(copy);
    result?;
    Ok(out)
}

/// The bytes of the delivery of a message.
fn made_of(
    alloc: Global,
    message: Message,
    qos: Qos,
    retain: bool,
    identifiers: Identifiers,
) -> Result<String, NoMemory> {
    let delivery = Delivery {
        message: SharedMessage::new(alloc, message)?,
        qos,
        retain,
        identifiers,
    };
    let out = written(alloc, &delivery);
    drop(delivery);
    word_of(alloc, &out?)
}

/// The bytes of the delivery of a message, by the message's bytes, QoS, RETAIN and Subscription Identifiers.
pub fn made(alloc: Global, words: &str) -> Result<String, NoMemory> {
    let (word, words) = halves(words);
    let (qos, words) = halves(words);
    let (retain, words) = halves(words);
    let (Some(bytes), Some(qos), Some(identifiers)) = (
        bytes_of(alloc, word),
        Qos::of(qos.parse::<u8>().unwrap_or(u8::MAX)),
        identifiers_of(alloc, words),
    ) else {
        return said(alloc, "not a message, its QoS, RETAIN and identifiers");
    };
    match Message::read(alloc, &bytes) {
        Ok((message, _)) => made_of(alloc, message, qos, retain == "1", identifiers),
        Err(fault) => Ok(format!(in alloc; "{fault:?}")?),
    }
}

/// Whether each shorter part at the front is Short.
fn parts_are_short(alloc: Global, bytes: &[u8]) -> bool {
    for len in 0..bytes.len() {
        if Delivery::read(alloc, &bytes[..len]).err() != Some(FieldFault::Short) {
            return false;
        }
    }
    true
}

/// What a delivery says beside its message.
fn told(alloc: Global, delivery: &Delivery) -> Result<String, NoMemory> {
    let qos = delivery.qos.number();
    let retain = if delivery.retain { ", retained" } else { "" };
    let mut text = format!(in alloc; "QoS {qos}{retain}, identifiers")?;
    for number in delivery.identifiers.as_slice() {
        let word = format!(in alloc; " {number}")?;
        text.push_str(word.as_str())?;
    }
    Ok(text)
}

/// What the delivery that these bytes spell says, where a copy is written so, and each part of it is Short.
fn told_whole(alloc: Global, delivery: &Delivery, bytes: &[u8]) -> Result<String, NoMemory> {
    let out = written(alloc, delivery)?;
    if out.as_slice() != bytes {
        return said(alloc, "written otherwise");
    }
    if !parts_are_short(alloc, bytes) {
        return said(alloc, "not Short in part");
    }
    told(alloc, delivery)
}

/// What the delivery that takes all of the bytes says beside its message, or the name of the fault.
pub fn delivery(alloc: Global, bytes: &[u8]) -> Result<String, NoMemory> {
    match Delivery::read(alloc, bytes) {
        Ok((delivery, used)) => {
            let text = if used == bytes.len() {
                told_whole(alloc, &delivery, bytes)
            } else {
                said(alloc, "bytes left over")
            };
            drop(delivery);
            text
        }
        Err(fault) => Ok(format!(in alloc; "{fault:?}")?),
    }
}

/// The bytes of the PUBLISH that sends a delivery, and its length, where it is the same as a packet, as bytes and in
/// number.
fn sent_of(
    alloc: Global,
    delivery: &Delivery,
    now: u64,
    dup: bool,
    identifier: u16,
) -> Result<String, NoMemory> {
    let packet = Packet::Publish(delivery.publish(alloc, now, dup, identifier)?);
    let mut out = Vec::new(alloc);
    let spelled = spell(alloc, &packet, &mut out);
    let sound = packet.is_sound();
    drop(packet);
    spelled?;
    if !sound {
        return said(alloc, "no spelling");
    }
    let bytes = delivery.publish_bytes(alloc, now, dup, identifier)?;
    if bytes.as_slice() != out.as_slice() {
        return said(alloc, "written otherwise");
    }
    let length = delivery.packet_length(now);
    let word = word_of(alloc, &bytes)?;
    Ok(format!(in alloc; "{word} {length}")?)
}

/// The bytes of the PUBLISH that sends a delivery, and its length, by the delivery's bytes, the moment, DUP and the
/// Packet Identifier.
pub fn sent(alloc: Global, words: &str) -> Result<String, NoMemory> {
    let (word, words) = halves(words);
    let (now, words) = halves(words);
    let (dup, identifier) = halves(words);
    let (Some(bytes), Some(now), Ok(identifier)) = (
        bytes_of(alloc, word),
        moment_of(now),
        identifier.parse::<u16>(),
    ) else {
        return said(alloc, "not a delivery, a moment, DUP and an identifier");
    };
    match Delivery::read(alloc, &bytes) {
        Ok((delivery, _)) => {
            let text = sent_of(alloc, &delivery, now, dup == "1", identifier);
            drop(delivery);
            text
        }
        Err(fault) => Ok(format!(in alloc; "{fault:?}")?),
    }
}
