//! The exchanges at QoS 2 that a client has begun.

ghost use Rattle.std.specs.Prelude.{◌≡◌, OnOk};
ghost use Rattle.std.specs.FinSet as set;

use mqtt_fields::NoMemory;
use std::alloc::Global;
use std::collections::BTreeSet;
use std::marker::Model;

/// The packet identifiers of exchanges at QoS 2 that aren't over.
#[derive(Drop)]
pub(crate) struct OpenExchanges {
    identifiers: BTreeSet<u16>,
}

impl Model for OpenExchanges {
    ghost use Rattle.std.specs.Coded.{coded_ℕ};
    ghost use Rattle.std.specs.FinSet as set;
    ghost use Rattle.std.specs.Ordering.{nat_cmp};

    ghost Value = { set.FinSet nat_cmp };

    ghost coded = { set.code coded_ℕ };

    ghost view = { λ o. set.from_list o.identifiers.keys };
}

impl OpenExchanges {
    /// None is open.
    pub(crate) fn new(alloc: Global) -> OpenExchanges
        ensures { result ≡ set.empty }
    {
        OpenExchanges {
            identifiers: BTreeSet::new(alloc),
        }
    }

    /// How many are open.
    pub(crate) fn len(&self) -> usize
        ensures { result ≡ set.len self.now }
    {
        self.identifiers.len()
    }

    /// One is begun.
    pub(crate) fn begin(&mut self, identifier: u16) -> Result<(), NoMemory>
        ensures { OnOk result (self.new ≡ set.insert self.old identifier) }
    {
        self.identifiers.insert(identifier)?;
        Ok(())
    }

    /// One is over.
    pub(crate) fn end(&mut self, identifier: u16)
        ensures { self.new ≡ set.remove self.old identifier }
    {
        self.identifiers.remove(&identifier);
    }
}
