//! Clients under filters.
ghost use Rattle.std.specs.Prelude.{◌≡◌, ℕ, List, MatchOption, OnOk, OnErr, false};
ghost use Rattle.std.specs.FinSet as set;
ghost use Rattle.subscription_set.specs.Filing.{IsGroup, text_cmp};

use crate::clients::Clients;
use mqtt_fields::{NoMemory, Text};
use std::alloc::Global;
use std::collections::BTreeMap;
use std::marker::Model;

/// Pairs of a filter and a client, found by the filter.
#[derive(Drop)]
pub struct Members {
    alloc: Global,
    by_filter: BTreeMap<Text, Clients>,
}

impl Model for Members {
    ghost use Rattle.std.specs.FinSet as set;
    ghost use Rattle.std.specs.FinMap as map;
    ghost use Rattle.std.specs.Coded.{coded×, coded_list, coded_ℕ};
    ghost use Rattle.subscription_set.specs.Filing.{IsFilled, spread, text_cmp};
    ghost use Rattle.subscription_set.specs.Members.{Seats};

    ghost Value = { Seats };

    ghost coded = { set.code (coded× (coded_list coded_ℕ) (coded_list coded_ℕ)) };

    ghost view = { λ m. spread (map.from_entries {R = text_cmp} m.by_filter.entries) };

    ghost invariant = { λ m. IsFilled (map.from_entries {R = text_cmp} m.by_filter.entries) };
}

impl Members {
    /// No pairs.
    pub fn new(alloc: Global) -> Members
        ensures { result ≡ set.empty }
    {
        Members {
            alloc,
            by_filter: BTreeMap::new(alloc),
        }
    }

    /// Puts the client under the filter.
    pub fn add(&mut self, filter: &Text, client: &Text) -> Result<(), NoMemory>
        ensures ok { OnOk result (self.new ≡ set.insert self.old (filter.now, client.now)) }
        ensures err { OnErr result (self.new ≡ self.old) }
    {
        if let Some(clients) = self.by_filter.get_mut(filter) {
            return clients.insert(client);
        }
        let mut clients = Clients::new(self.alloc);
        clients.insert(client)?;
        let own = filter.copy(self.alloc)?;
        self.by_filter.insert(own, clients)?;
        Ok(())
    }

    /// Takes the client out from under the filter.
    pub fn remove(&mut self, filter: &Text, client: &Text)
        ensures { self.new ≡ set.remove self.old (filter.now, client.now) }
    {
        if let Some(clients) = self.by_filter.get_mut(filter) {
            clients.remove(client);
            if clients.is_empty() {
                self.by_filter.remove(filter);
            }
        }
    }

    /// The clients under the filter, if there are any.
    pub fn under(&self, filter: &Text) -> Option<&Clients>
        ensures { MatchOption result ((c : List ℕ) → set.contains self.now (filter.now, c) ≡ false)
            (λ clients. IsGroup text_cmp text_cmp self.now filter.now clients.now) }
    {
        self.by_filter.get(filter)
    }
}
