//! Examples of packets (MQTT 5.0, chapters 2 and 3): what bytes are read as.

use crate::words::{said, word_of};
use mqtt_fields::NoMemory;
use mqtt_packets::{Packet, PacketFault, read_packet, write_packet};
use std::alloc::Global;

/// Appends the shortest spelling of a copy of the packet.
pub fn spell(alloc: Global, packet: &Packet, out: &mut Vec<u8>) -> Result<(), NoMemory> {
    let copy = packet.copy(alloc)?;
    if copy.is_sound() {
        write_packet(alloc, &copy, out)?;
    }
    Ok(())
}

/// The shortest spelling of a packet of which so many bytes were read.
fn shortest(alloc: Global, bytes: &[u8], packet: &Packet, used: usize) -> Result<String, NoMemory> {
    if used != bytes.len() {
        return Ok(format!(in alloc; "a packet of {used}")?);
    }
    let mut out = Vec::new(alloc);
    spell(alloc, packet, &mut out)?;
    word_of(alloc, &out)
}

/// What is read of all of the bytes.
fn read(alloc: Global, bytes: &[u8]) -> Result<String, NoMemory> {
    match read_packet(alloc, bytes) {
        Ok(Some((packet, used))) => {
            let told = shortest(alloc, bytes, &packet, used);
            drop(packet);
            told
        }
        Ok(None) => said(alloc, "waits"),
        Err(fault) => Ok(format!(in alloc; "{fault:?}")?),
    }
}

/// Whether the bytes wait or have this fault.
fn waits_or_has(alloc: Global, bytes: &[u8], fault: Option<PacketFault>) -> bool {
    match read_packet(alloc, bytes) {
        Ok(None) => true,
        Ok(Some(_)) => false,
        Err(found) => Some(found) == fault,
    }
}

/// The length of a part at the front that neither waits nor has the fault of all of the bytes.
fn other_part(alloc: Global, bytes: &[u8]) -> Option<usize> {
    let fault = read_packet(alloc, bytes).err();
    for len in 0..bytes.len() {
        if !waits_or_has(alloc, &bytes[..len], fault) {
            return Some(len);
        }
    }
    None
}

/// What is read of the bytes: a packet's shortest spelling, `waits`, or the name of the fault. Each shorter
/// part at their front must wait, or have that fault.
pub fn packet(alloc: Global, bytes: &[u8]) -> Result<String, NoMemory> {
    let told = read(alloc, bytes)?;
    match other_part(alloc, bytes) {
        Some(len) => Ok(format!(in alloc; "{told}, with {len} bytes otherwise")?),
        None => Ok(told),
    }
}
