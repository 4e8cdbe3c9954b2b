//! Examples of messages (MQTT 5.0, 3.1.3.2 and 3.3): what is accepted, its bytes, when it expires and when it falls due.

ghost use Rattle.std.specs.Prelude.{◌<◌, ◌^◌, IfSome};

use crate::words::{bytes_of, halves, said, word_of};
use mqtt_fields::{FieldFault, NUMBERS_END, NoMemory, Text};
use mqtt_message::{Message, due};
use mqtt_packets::{Packet, read_packet};
use std::alloc::Global;

/// The moment of a word.
pub fn moment_of(word: &str) -> Option<u64>
    ensures { IfSome result (λ now. now < 2 ^ 62) }
{
    let now = word.parse::<u64>().ok()?;
    if now < NUMBERS_END { Some(now) } else { None }
}

/// The message of a PUBLISH, or of the will of a CONNECT, if it can be accepted.
fn message_of(
    alloc: Global,
    packet: &Packet,
    publisher: &Text,
    now: u64,
) -> Result<Option<Message>, NoMemory>
    requires { now < 2 ^ 62 }
{
    match packet {
        Packet::Publish(publish) if Message::can_accept(publish) => {
            let message = Message::accept(alloc, publish, publisher, now)?;
            Ok(Some(message))
        }
        Packet::Connect(connect) => match &connect.will {
            Some(will) if Message::can_accept_will(will) => {
                let message = Message::accept_will(alloc, will, publisher, now)?;
                Ok(Some(message))
            }
            _ => Ok(None),
        },
        _ => Ok(None),
    }
}

/// The bytes of a copy of the message.
fn written(alloc: Global, message: &Message) -> Result<Vec<u8>, NoMemory> {
    let mut out = Vec::new(alloc);
    let copy = message.copy(alloc)?;
    let result = copy.write(&mut out);
    drop(copy);
    result?;
    Ok(out)
}

/// The bytes of the message of a packet, its PUBLISH or its CONNECT's will, that is accepted from this
/// client now.
fn accepted_of(alloc: Global, packet: &Packet, client: &Text, now: u64) -> Result<String, NoMemory>
    requires { now < 2 ^ 62 }
{
    let Some(message) = message_of(alloc, packet, client, now)? else {
        return said(alloc, "not acceptable");
    };
    let out = written(alloc, &message);
    drop(message);
    word_of(alloc, &out?)
}

/// The bytes of the message of a packet, a PUBLISH or a CONNECT with a will, that is accepted from a client
/// at a moment.
pub fn accepted(alloc: Global, words: &str) -> Result<String, NoMemory> {
    let (word, words) = halves(words);
    let (client, now) = halves(words);
    let (Some(bytes), Ok(client), Some(now)) = (
        bytes_of(alloc, word),
        Text::new(alloc, client),
        moment_of(now),
    ) else {
        return said(alloc, "not a packet, a client and a moment");
    };
    match read_packet(alloc, &bytes) {
        Ok(Some((packet, _))) => {
            let text = accepted_of(alloc, &packet, &client, now);
            drop(packet);
            text
        }
        _ => said(alloc, "no packet"),
    }
}

/// Whether each shorter part at the front is Short.
fn parts_are_short(alloc: Global, bytes: &[u8]) -> bool {
    for len in 0..bytes.len() {
        if Message::read(alloc, &bytes[..len]).err() != Some(FieldFault::Short) {
            return false;
        }
    }
    true
}

/// What a message says.
fn told(alloc: Global, message: &Message) -> Result<String, NoMemory> {
    let payload = word_of(alloc, message.payload.as_slice())?;
    let topic = message.topic.as_str();
    let publisher = message.publisher.as_str();
    let qos = message.qos.number();
    let retain = if message.retain { ", retained" } else { "" };
    let text = format!(in alloc; "{payload} to {topic} from {publisher} at QoS {qos}{retain}")?;
    match message.deadline {
        Some(deadline) => Ok(format!(in alloc; "{text} until {deadline}")?),
        None => Ok(text),
    }
}

/// What the message that these bytes spell says, where a copy is written so, and each part of it is Short.
fn told_whole(alloc: Global, message: &Message, bytes: &[u8]) -> Result<String, NoMemory> {
    let out = written(alloc, message)?;
    if out.as_slice() != bytes {
        return said(alloc, "written otherwise");
    }
    if !parts_are_short(alloc, bytes) {
        return said(alloc, "not Short in part");
    }
    told(alloc, message)
}

/// What the message that takes all of the bytes says, or the name of the fault.
pub fn message(alloc: Global, bytes: &[u8]) -> Result<String, NoMemory> {
    match Message::read(alloc, bytes) {
        Ok((message, used)) => {
            let text = if used == bytes.len() {
                told_whole(alloc, &message, bytes)
            } else {
                said(alloc, "bytes left over")
            };
            drop(message);
            text
        }
        Err(fault) => Ok(format!(in alloc; "{fault:?}")?),
    }
}

/// Whether a message is alive at a moment, and the interval that is left.
fn expiry_at(alloc: Global, message: &Message, now: u64) -> Result<String, NoMemory> {
    let alive = if message.alive(now) { "alive" } else { "over" };
    match message.remaining(now) {
        Some(seconds) => Ok(format!(in alloc; "{alive} {seconds}")?),
        None => Ok(format!(in alloc; "{alive} without end")?),
    }
}

/// Whether the message of these bytes is `alive` or `over` at a moment, and the seconds that are left.
pub fn expiry(alloc: Global, words: &str) -> Result<String, NoMemory> {
    let (word, now) = halves(words);
    let (Some(bytes), Some(now)) = (bytes_of(alloc, word), moment_of(now)) else {
        return said(alloc, "not a message and a moment");
    };
    match Message::read(alloc, &bytes) {
        Ok((message, _)) => {
            let text = expiry_at(alloc, &message, now);
            drop(message);
            text
        }
        Err(fault) => Ok(format!(in alloc; "{fault:?}")?),
    }
}

/// When the will of a CONNECT falls due.
fn due_of(alloc: Global, packet: &Packet, closed: u64, expiry: u32) -> Result<String, NoMemory>
    requires { closed < 2 ^ 62 }
{
    match packet {
        Packet::Connect(connect) => match &connect.will {
            Some(will) => {
                let moment = due(will, closed, expiry);
                Ok(format!(in alloc; "{moment}")?)
            }
            None => said(alloc, "no will"),
        },
        _ => said(alloc, "no CONNECT"),
    }
}

/// When the will of a CONNECT falls due whose connection closed at a moment, with a Session Expiry Interval.
pub fn due_at(alloc: Global, words: &str) -> Result<String, NoMemory> {
    let (word, words) = halves(words);
    let (closed, expiry) = halves(words);
    let (Some(bytes), Some(closed), Ok(expiry)) = (
        bytes_of(alloc, word),
        moment_of(closed),
        expiry.parse::<u32>(),
    ) else {
        return said(alloc, "not a CONNECT, a moment and an interval");
    };
    match read_packet(alloc, &bytes) {
        Ok(Some((packet, _))) => {
            let text = due_of(alloc, &packet, closed, expiry);
            drop(packet);
            text
        }
        _ => said(alloc, "no packet"),
    }
}
