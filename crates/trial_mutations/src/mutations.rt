//! Streams of packets with changed bytes.

ghost use Rattle.std.specs.Prelude.{◌<◌, length};

use crate::chance::Chance;
use std::alloc::{AllocError, Global};

/// How many packets a stream has at most before it is changed, beside a CONNECT in front.
const PACKETS: usize = 4;

/// How often it is changed at most.
const CHANGES: usize = 2;

/// A change takes fewer bytes than this.
const BYTES: usize = 4;

fn joined(alloc: Global, parts: [&[u8]; 3]) -> Result<Vec<u8>, AllocError> {
    let mut bytes = Vec::new(alloc);
    for part in parts {
        bytes.extend_from_slice(part)?;
    }
    Ok(bytes)
}

/// Some bytes at a place are changed, left out, said again, or others put in front of them.
fn mutated(alloc: Global, chance: &mut Chance, bytes: &[u8]) -> Result<Vec<u8>, AllocError> {
    let from = chance.below(bytes.len() + 1);
    let (front, rest) = bytes.split_at(from);
    let (some, back) = rest.split_at(chance.below(BYTES).min(rest.len()));
    let noise = chance.next().to_be_bytes();
    match chance.below(4) {
        0 => joined(alloc, [front, &noise[..some.len()], back]),
        1 => joined(alloc, [front, b"", back]),
        2 => joined(alloc, [front, some, rest]),
        _ => joined(alloc, [front, &noise[..chance.below(BYTES)], rest]),
    }
}

/// Mostly a CONNECT, and some packets, one after another.
fn picked(alloc: Global, chance: &mut Chance, packets: &[Vec<u8>]) -> Result<Vec<u8>, AllocError>
    requires { 0 < length packets.now }
{
    let mut bytes = Vec::new(alloc);
    if chance.below(4) > 0 {
        bytes.extend_from_slice(&packets[0])?;
    }
    for _ in 0..chance.below(PACKETS + 1) {
        let place = chance.below(packets.len());
        bytes.extend_from_slice(&packets[place])?;
    }
    Ok(bytes)
}

/// A stream of some of these packets, of which the first is a CONNECT.
pub fn stream(
    alloc: Global,
    chance: &mut Chance,
    packets: &[Vec<u8>],
) -> Result<Vec<u8>, AllocError>
    requires { 0 < length packets.now }
{
    let mut bytes = picked(alloc, chance, packets)?;
    for _ in 0..chance.below(CHANGES + 1) {
        bytes = mutated(alloc, chance, &bytes)?;
    }
    Ok(bytes)
}
