//! Dots under filters, under clients.
ghost use Rattle.std.specs.Prelude.{◌≡◌, ℕ, List, MatchOption, OnOk, OnErr, false};
ghost use Rattle.std.specs.FinSet as set;
ghost use Rattle.causal_context.specs.Dots.{Dot as DotValue, dot_cmp};
ghost use Rattle.subscription_set.specs.Filing.{IsGroup, pair_cmp, text_cmp};

use crate::groups::Groups;
use causal_context::Dot;
use mqtt_fields::{NoMemory, Text};
use mqtt_topics::Filter;
use std::alloc::Global;
use std::collections::BTreeMap;
use std::marker::Model;

/// Where dots stand: under a client, and there under a filter.
#[derive(Drop)]
pub struct ByClient {
    alloc: Global,
    by_client: BTreeMap<Text, Groups>,
}

impl Model for ByClient {
    ghost use Rattle.std.specs.FinSet as set;
    ghost use Rattle.std.specs.FinMap as map;
    ghost use Rattle.std.specs.Coded.{coded×, coded_list, coded_ℕ};
    ghost use Rattle.causal_context.specs.Dots.{coded_dot};
    ghost use Rattle.subscription_set.specs.Filing.{Places, IsFilled, spread, text_cmp};

    ghost Value = { Places };

    ghost coded = { set.code (coded× (coded_list coded_ℕ) (coded× (coded_list coded_ℕ) coded_dot)) };

    ghost view = { λ p. spread (map.from_entries {R = text_cmp} p.by_client.entries) };

    ghost invariant = { λ p. IsFilled (map.from_entries {R = text_cmp} p.by_client.entries) };
}

impl ByClient {
    /// No dots.
    pub fn new(alloc: Global) -> ByClient
        ensures { result ≡ set.empty }
    {
        ByClient {
            alloc,
            by_client: BTreeMap::new(alloc),
        }
    }

    /// Puts the dot under the client and the filter.
    pub fn add(&mut self, client: &Text, filter: &Filter, dot: Dot) -> Result<(), NoMemory>
        ensures ok { OnOk result (self.new ≡ set.insert self.old (client.now, (filter.now, dot))) }
        ensures err { OnErr result (self.new ≡ self.old) }
    {
        if let Some(filters) = self.by_client.get_mut(client) {
            return filters.add(filter.as_text(), dot);
        }
        let mut filters = Groups::new(self.alloc);
        filters.add(filter.as_text(), dot)?;
        let own = client.copy(self.alloc)?;
        self.by_client.insert(own, filters)?;
        Ok(())
    }

    /// Takes the dot out from under the client and the filter.
    pub fn remove(&mut self, client: &Text, filter: &Filter, dot: Dot)
        ensures { self.new ≡ set.remove self.old (client.now, (filter.now, dot)) }
    {
        if let Some(filters) = self.by_client.get_mut(client) {
            filters.remove(filter.as_text(), dot);
            if filters.is_empty() {
                self.by_client.remove(client);
            }
        }
    }

    /// The filters of the client with their dots, if there are any.
    pub fn under(&self, client: &Text) -> Option<&Groups>
        ensures { MatchOption result
            ((x : List ℕ × DotValue) → set.contains self.now (client.now, x) ≡ false)
            (λ filters. IsGroup text_cmp (pair_cmp text_cmp dot_cmp) self.now client.now filters.now) }
    {
        self.by_client.get(client)
    }
}
