//! Examples of streams of packets, cut into pieces.

ghost use Rattle.std.specs.Prelude.{◌≤◌, length};

use crate::packets::spell;
use crate::words::{bytes_of, halves, said, word_of};
use mqtt_fields::NoMemory;
use mqtt_packets::Framer;
use std::alloc::Global;

/// What a framer gives of the pieces, after its limit in bytes: for each piece the shortest spellings
/// of its packets, `.` for none, and the name of its fault; then what is held and its first byte.
pub fn stream(alloc: Global, words: &str) -> Result<String, NoMemory> {
    let (limit, pieces) = halves(words);
    let mut framer = Framer::new(alloc, limit.parse::<usize>().unwrap_or(0));
    let mut answer = String::new(alloc);
    for piece in pieces.split(' ') {
        let told = fed(alloc, &mut framer, piece)?;
        answer.push_str(told.as_str())?;
        answer.push(' ')?;
    }
    let held = word_of(alloc, framer.rest())?;
    match framer.first() {
        Some(byte) => Ok(format!(in alloc; "{answer}holds {held} from {byte}")?),
        None => Ok(format!(in alloc; "{answer}holds nothing")?),
    }
}

/// What a framer gives of one piece.
fn fed(alloc: Global, framer: &mut Framer, piece: &str) -> Result<String, NoMemory> {
    let Some(bytes) = bytes_of(alloc, piece) else {
        return said(alloc, "not hexadecimal");
    };
    let fed = match framer.feed(&bytes) {
        Ok(fed) => fed,
        Err(fault) => return Ok(format!(in alloc; "{fault:?}")?),
    };
    let mut out = Vec::new(alloc);
    for packet in fed.packets.as_slice() {
        spell(alloc, packet, &mut out)?;
    }
    let packets = word_of(alloc, &out)?;
    match fed.fault {
        Some(fault) if out.is_empty() => Ok(format!(in alloc; "{fault:?}")?),
        Some(fault) => Ok(format!(in alloc; "{packets} {fault:?}")?),
        None if out.is_empty() => said(alloc, "."),
        None => Ok(packets),
    }
}

/// Appends the packets of a piece.
fn take(
    alloc: Global,
    framer: &mut Framer,
    piece: &[u8],
    out: &mut Vec<u8>,
) -> Result<(), NoMemory> {
    let Ok(fed) = framer.feed(piece) else {
        return Err(NoMemory);
    };
    for packet in fed.packets.as_slice() {
        spell(alloc, packet, out)?;
    }
    Ok(())
}

/// Whether the stream, cut in two here, gives the packets that it spells.
fn is_whole_cut(alloc: Global, bytes: &[u8], place: usize) -> Result<bool, NoMemory>
    requires { place ≤ length bytes.now }
{
    let (front, back) = bytes.split_at(place);
    let mut framer = Framer::new(alloc, 1024);
    let mut out = Vec::new(alloc);
    take(alloc, &mut framer, front, &mut out)?;
    take(alloc, &mut framer, back, &mut out)?;
    Ok(out.as_slice() == bytes && framer.rest().is_empty())
}

/// Whether the stream, cut after each byte, gives the packets that it spells.
fn is_whole_by_bytes(alloc: Global, bytes: &[u8]) -> Result<bool, NoMemory> {
    let mut framer = Framer::new(alloc, 1024);
    let mut out = Vec::new(alloc);
    for byte in bytes {
        take(alloc, &mut framer, &[*byte], &mut out)?;
    }
    Ok(out.as_slice() == bytes && framer.rest().is_empty())
}

/// `whole` where the stream, cut in two anywhere and cut after each byte, gives the packets that the
/// stream spells in their shortest forms, or the place of a cut where it doesn't.
pub fn cuts(alloc: Global, bytes: &[u8]) -> Result<String, NoMemory> {
    for place in 0..bytes.len() {
        if !is_whole_cut(alloc, bytes, place)? {
            return Ok(format!(in alloc; "{place}")?);
        }
    }
    if is_whole_by_bytes(alloc, bytes)? {
        said(alloc, "whole")
    } else {
        said(alloc, "each byte")
    }
}
