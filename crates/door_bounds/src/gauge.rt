//! Asks how much the process holds.

use crate::resident::resident;
use std::io::{self, Read, Seek};

/// Where the system tells what the process holds.
pub const PLACE: &str = "/proc/self/statm";

/// Tells how much is held.
pub trait Gauge {
    /// How many bytes are held, where that can be told.
    fn held(&mut self) -> Option<u64>;
}

/// Nobody can tell.
#[derive(Drop)]
pub struct NoGauge;

impl Gauge for NoGauge {
    fn held(&mut self) -> Option<u64> {
        None
    }
}

impl<G: Gauge> Gauge for Option<G> {
    /// What the gauge tells, if there is one.
    fn held(&mut self) -> Option<u64> {
        match self {
            Some(gauge) => gauge.held(),
            None => None,
        }
    }
}

/// The memory of the process, as the file `/proc/self/statm` tells it, which is read from its beginning each time.
#[derive(Drop)]
pub struct ProcessMemory<F> {
    file: F,
}

impl<F> ProcessMemory<F> {
    /// The memory that this file tells, if there is one.
    pub fn new(file: F) -> ProcessMemory<F> {
        ProcessMemory { file }
    }
}

/// The bytes that the file tells, read anew.
fn ask<F: Read + Seek>(file: &mut F) -> io::Result<Option<u64>> {
    file.rewind()?;
    let mut text = [0u8; 128];
    let len = file.read(&mut text)?;
    Ok(resident(&text[..len]))
}

impl<F: Read + Seek> Gauge for ProcessMemory<F> {
    /// What the file tells. Nothing, where it can't be read.
    fn held(&mut self) -> Option<u64> {
        match ask(&mut self.file) {
            Ok(held) => held,
            Err(_) => None,
        }
    }
}
