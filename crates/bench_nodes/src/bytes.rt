//! The packets that clients send, as bytes.

use bench_clock::Failure;
use std::alloc::Global;

/// PINGREQ.
pub const PINGREQ: [u8; 2] = [0xc0, 0];

/// PUBLISH with QoS 0 of `x` to `t`.
pub const PUBLISH_0: [u8; 7] = [0x30, 5, 0, 1, 0x74, 0, 0x78];

/// PUBLISH with QoS 1 and the identifier 7 of `x` to `t`.
pub const PUBLISH_1: [u8; 9] = [0x32, 7, 0, 1, 0x74, 0, 7, 0, 0x78];

/// CONNECT before the Client Identifier: Clean Start, a Keep Alive of 65,535 seconds and a Session Expiry Interval of a day.
const CONNECT: [u8; 16] = [
    0, 4, 0x4d, 0x51, 0x54, 0x54, 5, 2, 0xff, 0xff, 5, 0x11, 0, 1, 0x51, 0x80,
];

/// SUBSCRIBE before the filters: the identifier 1, and no properties.
const SUBSCRIBE: [u8; 3] = [0, 1, 0];

/// The longest remainder of a packet that is written here: its length takes two bytes.
const LONGEST: usize = 16_383;

// The length of what comes after it.
fn push_length(out: &mut Vec<u8>, len: usize) -> Result<(), Failure> {
    if len > LONGEST {
        return Err(Failure::Answer);
    }
    if len < 128 {
        return Ok(out.push(len as u8)?);
    }
    out.push((len % 128 + 128) as u8)?;
    Ok(out.push((len / 128) as u8)?)
}

fn packet(alloc: Global, first: u8, rest: &[u8]) -> Result<Vec<u8>, Failure> {
    let mut out = Vec::new(alloc);
    out.push(first)?;
    push_length(&mut out, rest.len())?;
    out.extend_from_slice(rest)?;
    Ok(out)
}

// A text of fewer than 256 bytes, after its length.
fn push_text(out: &mut Vec<u8>, text: &str) -> Result<(), Failure> {
    out.push(0)?;
    out.push((text.len() % 256) as u8)?;
    Ok(out.extend_from_slice(text.as_bytes())?)
}

/// CONNECT of a client.
pub fn connect(alloc: Global, client: &str) -> Result<Vec<u8>, Failure> {
    let mut rest = Vec::from_slice(alloc, &CONNECT)?;
    push_text(&mut rest, client)?;
    packet(alloc, 0x10, &rest)
}

/// What a SUBSCRIBE has before its filters.
pub fn no_filters(alloc: Global) -> Result<Vec<u8>, Failure> {
    Ok(Vec::from_slice(alloc, &SUBSCRIBE)?)
}

/// Adds a filter, with options that are no more than a QoS.
pub fn push_filter(rest: &mut Vec<u8>, filter: &str, qos: u8) -> Result<(), Failure> {
    push_text(rest, filter)?;
    Ok(rest.push(qos)?)
}

/// SUBSCRIBE to the filters that were added.
pub fn subscribe(alloc: Global, rest: &[u8]) -> Result<Vec<u8>, Failure> {
    packet(alloc, 0x82, rest)
}

/// The PUBACK of a copy with QoS 1, whose topic has one byte.
pub fn puback(copy: &[u8]) -> Result<[u8; 4], Failure> {
    if copy.len() < 7 {
        return Err(Failure::Answer);
    }
    Ok([0x40, 2, copy[5], copy[6]])
}

/// PUBLISH with QoS 0 and RETAIN of `x` to a topic.
pub fn retain(alloc: Global, topic: &str) -> Result<Vec<u8>, Failure> {
    let mut rest = Vec::new(alloc);
    push_text(&mut rest, topic)?;
    rest.extend_from_slice(&[0, 0x78])?;
    packet(alloc, 0x31, &rest)
}

/// PUBLISH with QoS 0 of nothing to a topic.
pub fn publish(alloc: Global, topic: &str) -> Result<Vec<u8>, Failure> {
    let mut rest = Vec::new(alloc);
    push_text(&mut rest, topic)?;
    rest.push(0)?;
    packet(alloc, 0x30, &rest)
}
