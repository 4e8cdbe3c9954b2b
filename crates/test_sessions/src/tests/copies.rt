//! Copies of messages.

ghost use Rattle.std.specs.Prelude.{◌≡◌};

use mqtt_fields::Qos;
use mqtt_message::{Delivery, Identifiers, Message, SharedMessage};
use std::alloc::Global;
use std::process::Abort;

/// The bytes of a message to `t` from `c`, with this payload, that expires at this moment.
fn message_bytes(
    rt: &impl Abort,
    alloc: Global,
    payload: &str,
    qos: Qos,
    expires: Option<u64>,
) -> Vec<u8> {
    let mut bytes = Vec::from_slice(alloc, b"\x00\x01t\x00\x00\x00").expect(rt, "memory");
    bytes.push((payload.len() % 256) as u8).expect(rt, "memory");
    bytes
        .extend_from_slice(payload.as_bytes())
        .expect(rt, "memory");
    bytes.push(0).expect(rt, "memory");
    bytes.push(qos.number()).expect(rt, "memory");
    bytes
        .extend_from_slice(b"\x00\x00\x01c")
        .expect(rt, "memory");
    match expires {
        Some(moment) => {
            bytes.push(1).expect(rt, "memory");
            bytes
                .extend_from_slice(&moment.to_be_bytes())
                .expect(rt, "memory");
        }
        None => bytes.push(0).expect(rt, "memory"),
    }
    bytes
}

/// Such a message.
pub fn message(
    rt: &impl Abort,
    alloc: Global,
    payload: &str,
    qos: Qos,
    expires: Option<u64>,
) -> SharedMessage {
    let bytes = message_bytes(rt, alloc, payload, qos, expires);
    let (message, _) = Message::read(alloc, &bytes).ok().expect(rt, "a message");
    SharedMessage::new(alloc, message).expect(rt, "memory")
}

/// A copy of a message for a client.
pub fn copy_of(rt: &impl Abort, alloc: Global, message: &SharedMessage, qos: Qos) -> Delivery
    ensures { result.qos ≡ qos }
{
    Delivery {
        message: message.copy().expect(rt, "memory"),
        qos,
        retain: false,
        identifiers: Identifiers::of(Vec::new(alloc)).expect(rt, "identifiers"),
    }
}
