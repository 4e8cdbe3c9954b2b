//! The prefixes of a home table.

ghost use Rattle.std.specs.Prelude.{◌≡◌, OnOk, OnErr, MatchOption};
ghost use Rattle.std.specs.FinMap as map;
ghost use Rattle.home_table.specs.Homes.{IsByPrefix, HasNoPrefix};

use mqtt_fields::NoMemory;
use std::alloc::Global;
use std::collections::BTreeMap;
use std::marker::Model;

/// The number of the node that each prefix is at, by the prefix's bytes.
#[derive(Drop)]
pub struct Prefixes {
    alloc: Global,
    numbers: BTreeMap<Vec<u8>, u16>,
}

impl Model for Prefixes {
    ghost use Rattle.std.specs.Prelude.{ℕ, map};
    ghost use Rattle.std.specs.Coded.{coded_ℕ, coded_list};
    ghost use Rattle.std.specs.Ordering.{nat_cmp};
    ghost use Rattle.std.specs.Cmp.Lexicographic.{slice_cmp};
    ghost use Rattle.std.specs.FinMap as finite;

    ghost Value = { finite.FinMap (slice_cmp nat_cmp) ℕ };

    ghost coded = { finite.code (coded_list coded_ℕ) coded_ℕ };

    ghost view = { λ p. finite.from_entries (map (λ e. (e.0.items, e.1)) p.numbers.entries) };
}

impl Prefixes {
    pub(crate) fn new(alloc: Global) -> Prefixes
        ensures { result ≡ map.empty }
    {
        Prefixes {
            alloc,
            numbers: BTreeMap::new(alloc),
        }
    }

    /// The number at a prefix.
    pub(crate) fn get(&self, prefix: &[u8]) -> Option<u16>
        ensures { result ≡ map.get self.now prefix.now }
    {
        self.numbers.get(prefix).copied()
    }

    /// Puts a prefix at a node.
    pub(crate) fn add(&mut self, prefix: &[u8], node: u16) -> Result<(), NoMemory>
        ensures ok { OnOk result (self.new ≡ map.insert self.old prefix.now node) }
        ensures err { OnErr result (self.new ≡ self.old) }
    {
        let key = Vec::from_slice(self.alloc, prefix)?;
        self.numbers.insert(key, node)?;
        Ok(())
    }

    /// The number at the longest prefix that the identifier begins with: its parts are looked up, the longest first.
    pub(crate) fn longest(&self, identifier: &[u8]) -> Option<u16>
        ensures { MatchOption result (HasNoPrefix self.now identifier.now) (IsByPrefix self.now identifier.now) }
    {
        for k in (0..=identifier.len()).rev() {
            if let Some(node) = self.get(&identifier[..k]) {
                return Some(node);
            }
        }
        None
    }
}
