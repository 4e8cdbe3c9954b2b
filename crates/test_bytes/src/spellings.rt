//! Examples of the spellings of packets: whole, in parts, cut and changed.

use crate::cuts::cuts;
use crate::packets::{packet, spell};
use crate::words::{said, word_of};
use mqtt_fields::NoMemory;
use mqtt_packets::{Packet, PacketFault, read_packet};
use std::alloc::Global;

/// The shortest spelling of the packet that all of the bytes are read as; none where they aren't one.
fn spelled_again(alloc: Global, bytes: &[u8]) -> Result<Vec<u8>, NoMemory> {
    let mut out = Vec::new(alloc);
    if let Ok(Some((packet, used))) = read_packet(alloc, bytes) {
        let spelled = spell(alloc, &packet, &mut out);
        drop(packet);
        spelled?;
        if used != bytes.len() {
            out.clear();
        }
    }
    Ok(out)
}

/// Whether the packet's shortest spelling takes at most so many bytes, and is read as that packet.
fn is_kept(alloc: Global, packet: &Packet, used: usize) -> Result<bool, NoMemory> {
    let mut out = Vec::new(alloc);
    spell(alloc, packet, &mut out)?;
    let again = spelled_again(alloc, &out)?;
    Ok(!out.is_empty() && out.len() <= used && again.as_slice() == out.as_slice())
}

/// Whether the bytes wait, have a fault that bytes can have, or begin with a packet that is kept.
fn is_answered(alloc: Global, bytes: &[u8]) -> Result<bool, NoMemory> {
    match read_packet(alloc, bytes) {
        Ok(Some((packet, used))) => {
            let kept = is_kept(alloc, &packet, used);
            drop(packet);
            kept
        }
        Ok(None) => Ok(true),
        Err(fault) => Ok(matches!(
            fault,
            PacketFault::Malformed | PacketFault::ProtocolError | PacketFault::WrongVersion
        )),
    }
}

/// Another byte in this place with which the bytes aren't answered.
fn other_byte(alloc: Global, bytes: &[u8], place: usize) -> Result<Option<u8>, NoMemory> {
    let mut changed = Vec::from_slice(alloc, bytes)?;
    for byte in 0..=255 {
        if let Some(old) = changed.get_mut(place) {
            *old = byte;
        }
        if !is_answered(alloc, &changed)? {
            return Ok(Some(byte));
        }
    }
    Ok(None)
}

/// The place of a byte, and another byte there with which the bytes aren't answered.
fn other_change(alloc: Global, bytes: &[u8]) -> Result<Option<(usize, u8)>, NoMemory> {
    for place in 0..bytes.len() {
        if let Some(byte) = other_byte(alloc, bytes, place)? {
            return Ok(Some((place, byte)));
        }
    }
    Ok(None)
}

/// `answered` where with any one byte changed the bytes wait, have a named fault, or begin with a packet whose shortest spelling is read as
/// that packet.
pub fn changed(alloc: Global, bytes: &[u8]) -> Result<String, NoMemory> {
    match other_change(alloc, bytes)? {
        Some((place, byte)) => Ok(format!(in alloc; "not answered with {byte:02x} at {place}")?),
        None => said(alloc, "answered"),
    }
}

/// `itself` where the bytes are the shortest spelling of the packet that they are read as, each shorter part
/// of them waits, a framer hands that packet over wherever they are cut, and with any one byte changed they are
/// answered (`changed`).
pub fn spelling(alloc: Global, bytes: &[u8]) -> Result<String, NoMemory> {
    let told = packet(alloc, bytes)?;
    let word = word_of(alloc, bytes)?;
    if told.as_str() != word.as_str() {
        return Ok(told);
    }
    let cut = cuts(alloc, bytes)?;
    if cut.as_str() != "whole" {
        return Ok(format!(in alloc; "not whole, cut at {cut}")?);
    }
    let told = changed(alloc, bytes)?;
    if told.as_str() == "answered" {
        said(alloc, "itself")
    } else {
        Ok(told)
    }
}
