//! Bytes of examples, also with one of them changed.

use std::alloc::Global;
use std::process::Abort;

/// Bytes that are spelled in hexadecimal, with spaces between their parts.
pub fn bytes_of(rt: &impl Abort, alloc: Global, spelled: &str) -> Vec<u8> {
    let mut bytes = Vec::new(alloc);
    for part in spelled.split(' ') {
        let part = hex::decode(alloc, part).expect(rt, "hexadecimal");
        bytes.extend_from_slice(&part).expect(rt, "memory");
    }
    bytes
}

/// The bytes with this one at a place of them.
pub fn changed(rt: &impl Abort, alloc: Global, bytes: &[u8], place: usize, byte: u8) -> Vec<u8> {
    let mut changed = Vec::from_slice(alloc, bytes).expect(rt, "memory");
    if let Some(old) = changed.get_mut(place) {
        *old = byte;
    }
    changed
}
