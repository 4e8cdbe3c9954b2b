//! The peers whose links are up.

ghost use Rattle.std.specs.Prelude.{◌≡◌, OnOk};
ghost use Rattle.std.specs.FinSet as set;

use mqtt_fields::NoMemory;
use std::alloc::Global;
use std::collections::BTreeSet;
use std::marker::Model;

/// Numbers of peers.
#[derive(Drop)]
pub(crate) struct Peers {
    numbers: BTreeSet<u16>,
}

impl Model for Peers {
    ghost use Rattle.std.specs.Coded.{coded_ℕ};
    ghost use Rattle.std.specs.FinSet as set;
    ghost use Rattle.std.specs.Ordering.{nat_cmp};

    ghost Value = { set.FinSet nat_cmp };

    ghost coded = { set.code coded_ℕ };

    ghost view = { λ p. set.from_list p.numbers.keys };
}

impl Peers {
    /// No peers.
    pub(crate) fn new(alloc: Global) -> Peers
        ensures { result ≡ set.empty }
    {
        Peers {
            numbers: BTreeSet::new(alloc),
        }
    }

    /// Whether the peer is among them.
    pub(crate) fn contains(&self, peer: u16) -> bool
        ensures { result ≡ set.contains self.now peer }
    {
        self.numbers.contains(&peer)
    }

    /// One more peer.
    pub(crate) fn add(&mut self, peer: u16) -> Result<(), NoMemory>
        ensures { OnOk result (self.new ≡ set.insert self.old peer) }
    {
        self.numbers.insert(peer)?;
        Ok(())
    }

    /// All but the peer.
    pub(crate) fn leave(&mut self, peer: u16)
        ensures { self.new ≡ set.remove self.old peer }
    {
        self.numbers.remove(&peer);
    }
}
