//! The Reason Codes of the filters of a SUBSCRIBE.

ghost use Rattle.std.specs.Prelude.{◌≡◌, IfOk};
ghost use Rattle.door_packets.specs.Codes.{merged, refused_in};

use mqtt_fields::NoMemory;
use std::alloc::Global;
use std::marker::Model;

/// The Reason Codes of filters, in their order; none for one that is asked for.
#[derive(Drop)]
pub struct Codes {
    items: Vec<Option<u8>>,
}

impl Model for Codes {
    ghost use Rattle.std.specs.Prelude.{List, Option, ℕ};

    ghost Value = { List (Option ℕ) };

    ghost view = { λ c. c.items.items };
}

/// The codes of all filters in their order: those of the filters that were asked for are these.
#[tactic(auto, using(crate::proofs::Merging::merged_some, crate::proofs::Merging::merged_none))]
fn merge(alloc: Global, codes: &[Option<u8>], asked: &[u8]) -> Result<Vec<u8>, NoMemory>
    ensures { IfOk result (λ all. all.items ≡ merged codes.now asked.now) }
{
    let mut all = Vec::new(alloc);
    let mut left = asked;
    for code in codes {
        match code {
            Some(code) => all.push(*code)?,
            None => {
                if let [first, rest @ ..] = left {
                    all.push(*first)?;
                    left = rest;
                }
            }
        }
    }
    all.extend_from_slice(left)?;
    Ok(all)
}

impl Codes {
    /// These codes.
    pub fn new(items: Vec<Option<u8>>) -> Codes
        ensures { result ≡ items.items }
    {
        Codes { items }
    }

    /// How many filters are refused.
    pub fn refused(&self) -> usize
        ensures { result ≡ refused_in self.now }
    {
        self.items.iter().filter(|code| code.is_some()).count()
    }

    /// The codes of all filters in their order: those of the filters that were asked for are these.
    pub fn merged(&self, alloc: Global, asked: &[u8]) -> Result<Vec<u8>, NoMemory>
        ensures { IfOk result (λ all. all.items ≡ merged self.now asked.now) }
    {
        merge(alloc, &self.items, asked)
    }
}

/// A SUBACK that is to come: codes of filters that weren't asked for.
#[derive(Drop)]
pub struct Awaited {
    pub identifier: u16,
    pub codes: Codes,
}
