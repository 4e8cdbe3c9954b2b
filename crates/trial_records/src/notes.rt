//! What nodes give out and hold, noted as bytes.

use crate::failure::Failure;
use std::alloc::Global;

/// Notes, with room from the start: no more memory is asked for while they fit.
#[derive(Drop)]
pub struct Notes {
    bytes: Vec<u8>,
    /// Nothing is left out.
    is_whole: bool,
}

/// Much more than a run gives out.
const ROOM: usize = 65_536;

impl Notes {
    pub fn new(alloc: Global) -> Result<Notes, Failure> {
        match Vec::with_capacity(alloc, ROOM) {
            Ok(bytes) => Ok(Notes {
                bytes,
                is_whole: true,
            }),
            Err(_) => Err(Failure::Unready),
        }
    }

    fn push(&mut self, bytes: &[u8]) {
        if self.bytes.extend_from_slice(bytes).is_err() {
            self.is_whole = false;
        }
    }

    /// Notes a thing of this kind at a node, with a number and bytes.
    pub fn add(&mut self, kind: u8, node: u16, number: u64, bytes: &[u8]) {
        self.push(&[kind]);
        self.push(&node.to_be_bytes());
        self.push(&number.to_be_bytes());
        self.push(&bytes.len().to_be_bytes());
        self.push(bytes);
    }

    /// Something can't be noted.
    pub fn spoil(&mut self) {
        self.is_whole = false;
    }

    /// Whether both are whole, and the same.
    pub fn are_same(&self, other: &Notes) -> bool {
        self.is_whole && other.is_whole && self.bytes.as_slice() == other.bytes.as_slice()
    }
}
