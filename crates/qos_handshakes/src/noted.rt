//! The parts of a table that has slots.
ghost use Rattle.std.specs.Prelude.{◌≡◌, ◌≢◌, ◌<◌, ◌≤◌, ◌++◌, ◌∷◌, [], ℕ, length, set, slice_index, OnOk, OnErr};

use crate::bits::{clear_in, first_clear, lengthen, with_bit};
use mqtt_fields::NoMemory;
use std::alloc::Global;
use std::marker::Model;

/// Numbers by slot, and which slots are free.
#[derive(Drop)]
pub(crate) struct Noted {
    values: Vec<u64>,
    /// A bit for each slot: whether it isn't free.
    used: Vec<u64>,
    /// A bit for each word of these: whether all its slots aren't.
    full: Vec<u64>,
}

impl Model for Noted {
    ghost use Rattle.std.specs.Prelude.{List, ℕ};
    ghost use Rattle.qos_handshakes.specs.Noted.{IsNoted};

    ghost Value = { List ℕ };

    ghost view = { λ a. a.values.items };

    ghost invariant = { λ a. IsNoted a.values.items a.used.items a.full.items };
}

impl Noted {
    /// With no slots.
    pub(crate) fn new(alloc: Global) -> Noted
        ensures { result ≡ [] }
    {
        Noted {
            values: Vec::new(alloc),
            used: Vec::new(alloc),
            full: Vec::new(alloc),
        }
    }

    /// How many slots there are.
    pub(crate) fn len(&self) -> usize
        ensures all { result ≡ length self.now }
        ensures most { result ≤ 65536 }
    {
        self.values.len()
    }

    /// What a slot has; past the last one 0.
    pub(crate) fn get(&self, slot: usize) -> u64
        ensures { result ≡ slice_index self.now slot }
    {
        if slot < self.values.len() {
            self.values[slot]
        } else {
            0
        }
    }

    /// Writes a slot. 0 frees it.
    pub(crate) fn set(&mut self, slot: usize, value: u64)
        requires { slot < length self.old }
        ensures { self.new ≡ set self.old slot value }
    {
        let word = slot / 64;
        let noted = with_bit(self.used[word], slot % 64, value != 0);
        self.used[word] = noted;
        self.full[word / 64] = with_bit(self.full[word / 64], word % 64, noted == u64::MAX);
        self.values[slot] = value;
    }

    /// Adds a free slot. For want of memory nothing changes.
    pub(crate) fn add(&mut self) -> Result<(), NoMemory>
        requires { length self.old < 65536 }
        ensures ok { OnOk result (self.new ≡ self.old ++ 0 ∷ []) }
        ensures err { OnErr result (self.new ≡ self.old) }
    {
        lengthen(&mut self.full, self.used.len())?;
        lengthen(&mut self.used, self.values.len())?;
        self.values.push(0)?;
        Ok(())
    }

    /// The first free slot, or how many there are where none is.
    pub(crate) fn first_free(&self) -> usize
        ensures within { result ≤ length self.now }
        ensures free { result < length self.now → slice_index self.now result ≡ 0 }
        ensures least { (k : ℕ) → k < result → slice_index self.now k ≢ 0 }
    {
        let word = first_clear(&self.full);
        if word >= self.used.len() {
            return self.values.len();
        }
        clear_in(&self.used, word).min(self.values.len())
    }
}
