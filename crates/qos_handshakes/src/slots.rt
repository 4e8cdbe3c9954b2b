//! The table.
ghost use Rattle.std.specs.Prelude.{◌≡◌, ◌≢◌, ◌<◌, ◌≤◌, ◌++◌, ◌∷◌, [], ℕ, length, set, slice_index, IfOk, OnOk, OnErr};

use crate::noted::Noted;
use mqtt_fields::NoMemory;
use std::alloc::Global;
use std::marker::Model;

/// Numbers by slot, from 0 on, at most 65,536. A slot that has 0 is free. With no slots it has no block, and is small.
#[derive(Drop)]
pub struct Slots {
    alloc: Global,
    block: Option<Box<Noted>>,
}

impl Model for Slots {
    ghost use Rattle.std.specs.Prelude.{List, ℕ, option_map};
    ghost use Rattle.qos_handshakes.specs.Noted.{slots_in};

    ghost Value = { List ℕ };

    ghost view = { λ a. slots_in (option_map (λ b. b.value) a.block) };
}

/// Adds a free slot to a table that has none.
fn first(alloc: Global) -> Result<Box<Noted>, NoMemory>
    ensures { IfOk result (λ b. b.value ≡ 0 ∷ []) }
{
    let mut noted = Noted::new(alloc);
    noted.add()?;
    let Ok(block) = Box::new(alloc, noted) else {
        return Err(NoMemory);
    };
    Ok(block)
}

impl Slots {
    /// With no slots.
    pub fn new(alloc: Global) -> Self
        ensures { result ≡ [] }
    {
        Slots { alloc, block: None }
    }

    /// How many slots there are.
    pub fn len(&self) -> usize
        ensures all { result ≡ length self.now }
        ensures most { result ≤ 65536 }
    {
        match &self.block {
            Some(noted) => noted.len(),
            None => 0,
        }
    }

    /// What a slot has; past the last one 0.
    pub fn get(&self, slot: usize) -> u64
        ensures { result ≡ slice_index self.now slot }
    {
        match &self.block {
            Some(noted) => noted.get(slot),
            None => 0,
        }
    }

    /// Writes a slot. 0 frees it.
    pub fn set(&mut self, slot: usize, value: u64)
        requires { slot < length self.old }
        ensures { self.new ≡ set self.old slot value }
    {
        if let Some(noted) = &mut self.block {
            noted.set(slot, value);
        }
    }

    /// Adds a free slot. For want of memory nothing changes.
    pub fn add(&mut self) -> Result<(), NoMemory>
        requires { length self.old < 65536 }
        ensures ok { OnOk result (self.new ≡ self.old ++ 0 ∷ []) }
        ensures err { OnErr result (self.new ≡ self.old) }
    {
        match &mut self.block {
            Some(noted) => noted.add(),
            None => {
                self.block = Some(first(self.alloc)?);
                Ok(())
            }
        }
    }

    /// The first free slot, or how many there are where none is.
    pub fn first_free(&self) -> usize
        ensures within { result ≤ length self.now }
        ensures free { result < length self.now → slice_index self.now result ≡ 0 }
        ensures least { (k : ℕ) → k < result → slice_index self.now k ≢ 0 }
    {
        match &self.block {
            Some(noted) => noted.first_free(),
            None => 0,
        }
    }
}
