//! Entries under their dots, and an index beside them.
ghost use Rattle.std.specs.Prelude.{◌≡◌, ◌<◌, ◌^◌, ℕ, List, None, Some, false, true, MatchOption, OnOk, OnErr, IfOk, IsOk, ◌↔◌, length, map as map_list};
ghost use Rattle.std.specs.Option.{option_copied};
ghost use Rattle.std.specs.FinMap as map;
ghost use Rattle.std.specs.FinSet as set;
ghost use Rattle.std.specs.List.{filter};
ghost use Rattle.causal_context.specs.Dots.{Dot as DotValue, dot_cmp};
ghost use Rattle.causal_context.specs.Ranges.{IsFine, covers};
ghost use Rattle.std.specs.FinMap.Entries.{where_key};
ghost use Rattle.subscription_set.specs.Entries.{same_text};
ghost use Rattle.subscription_set.specs.Standing.{latest};
ghost use Rattle.subscription_set.specs.Filing.{IsPlaced};
ghost use Rattle.subscription_set.specs.Matching.{dots_of};
ghost use Rattle.subscription_set.specs.Indexing.{IsStanding, MatchesName, stands_as};
ghost use Rattle.subscription_set.specs.Members.{AreGroups, HasEntry, IsPlainAt};

use crate::by_client::ByClient;
use crate::by_filter::{Apart, ByFilter, Matched};
use crate::dots::DotSet;
use crate::entry::Entry;
use crate::groups::Groups;
use causal_context::{Dot, Range};
use mqtt_fields::{NoMemory, Text};
use mqtt_topics::{Filter, TopicName};
use std::alloc::Global;
use std::collections::BTreeMap;
use std::collections::btree_map::{self, Iter};
use std::marker::Model;

/// Where dots stand: the dots of each client, of each client and filter, and of each filter.
#[derive(Drop)]
pub struct Index {
    clients: Groups,
    filters: ByClient,
    matches: ByFilter,
}

impl Index {
    fn new(alloc: Global) -> Index
        ensures clients { result.clients ≡ set.empty }
        ensures filters { result.filters ≡ set.empty }
        ensures matches { result.matches ≡ set.empty }
    {
        Index {
            clients: Groups::new(alloc),
            filters: ByClient::new(alloc),
            matches: ByFilter::new(alloc),
        }
    }

    // Puts the dot under the entry's client and filter, where it isn't.
    fn file(&mut self, dot: Dot, entry: &Entry) -> Result<(), NoMemory>
        requires clients { set.contains self.old.clients (entry.now.client, dot) ≡ false }
        requires filters { set.contains self.old.filters (entry.now.client, (entry.now.filter, dot)) ≡ false }
        ensures clients { OnOk result
            (self.new.clients ≡ set.insert self.old.clients (entry.now.client, dot)) }
        ensures filters { OnOk result (self.new.filters
            ≡ set.insert self.old.filters (entry.now.client, (entry.now.filter, dot))) }
        ensures matches { OnOk result
            (self.new.matches ≡ set.insert self.old.matches (entry.now.filter, dot)) }
        ensures clients_stay { OnErr result (self.new.clients ≡ self.old.clients) }
        ensures filters_stay { OnErr result (self.new.filters ≡ self.old.filters) }
        ensures matches_stay { OnErr result (self.new.matches ≡ self.old.matches) }
    {
        self.clients.add(entry.client(), dot)?;
        if let Err(fault) = self.filters.add(entry.client(), entry.filter(), dot) {
            self.clients.remove(entry.client(), dot);
            return Err(fault);
        }
        match self.matches.add(entry.filter(), dot) {
            Ok(()) => Ok(()),
            Err(fault) => {
                self.filters.remove(entry.client(), entry.filter(), dot);
                self.clients.remove(entry.client(), dot);
                Err(fault)
            }
        }
    }

    // The dots under the client and the filter, if there are any.
    fn under(&self, client: &Text, filter: &Filter) -> Option<&DotSet>
        ensures { MatchOption result
            ((d : DotValue) → set.contains self.now.filters (client.now, (filter.now, d)) ≡ false)
            (λ dots. IsPlaced self.now.filters client.now filter.now dots.now) }
    {
        match self.filters.under(client) {
            Some(filters) => filters.under(filter.as_text()),
            None => None,
        }
    }

    // Takes the dot out from under the entry's client and filter.
    fn unfile(&mut self, dot: Dot, entry: &Entry)
        ensures clients { self.new.clients
            ≡ set.remove self.old.clients (entry.now.client, dot) }
        ensures filters { self.new.filters
            ≡ set.remove self.old.filters (entry.now.client, (entry.now.filter, dot)) }
        ensures matches { self.new.matches ≡ set.remove self.old.matches (entry.now.filter, dot) }
    {
        self.clients.remove(entry.client(), dot);
        self.filters.remove(entry.client(), entry.filter(), dot);
        self.matches.remove(entry.filter(), dot);
    }
}

/// Entries under their dots. An index beside them tells what stands of a client, and of a client
/// and a filter; how many entries are the latest of their client and filter is counted.
#[derive(Drop)]
pub struct IndexedEntries {
    entries: BTreeMap<Dot, Entry>,
    index: Index,
    live: usize,
}

impl Model for IndexedEntries {
    ghost use Rattle.std.specs.FinMap as map;
    ghost use Rattle.causal_context.specs.Dots.{dot_cmp, coded_dot};
    ghost use Rattle.subscription_set.specs.Entries.{coded_entry};
    ghost use Rattle.subscription_set.specs.Indexing.{ByDot, IsInStep};

    ghost Value = { ByDot };

    ghost coded = { map.code coded_dot coded_entry };

    ghost view = { λ e. map.from_entries {R = dot_cmp} e.entries.entries };

    ghost invariant = { λ e. IsInStep (map.from_entries {R = dot_cmp} e.entries.entries)
        e.index.clients e.index.filters e.index.matches e.live };
}

impl IndexedEntries {
    /// No entries.
    pub fn new(alloc: Global) -> IndexedEntries
        ensures { result ≡ map.empty }
    {
        IndexedEntries {
            entries: BTreeMap::new(alloc),
            index: Index::new(alloc),
            live: 0,
        }
    }

    /// The entry at the dot.
    pub fn get(&self, dot: Dot) -> Option<&Entry>
        ensures { option_copied result ≡ map.get self.now dot }
    {
        self.entries.get(&dot)
    }

    /// The entries, rising by their dots.
    pub fn iter(&self) -> Iter<'_, Dot, Entry>
        ensures { result ≡ map.entries self.now }
    {
        self.entries.iter()
    }

    /// The entries of the dots of the range, rising.
    pub fn within(&self, range: Range) -> btree_map::Range<'_, Dot, Entry>
        requires { IsFine range }
        ensures { result ≡ where_key dot_cmp (λ d. covers d range) (map.entries self.now) }
    {
        let first = Dot::new(range.node, range.first).unwrap();
        let last = Dot::new(range.node, range.last).unwrap();
        self.entries.range(first..=last)
    }

    /// How many entries there are.
    pub fn len(&self) -> usize
        ensures { result ≡ map.len self.now }
    {
        self.entries.len()
    }

    /// How many of them are the latest of their client and filter.
    pub fn live(&self) -> usize
        ensures { result ≡ length (latest (map.entries self.now)) }
    {
        self.live
    }

    /// How many of the client's entries are the latest of their filter.
    pub fn live_of(&self, client: &Text) -> usize
        ensures { result ≡ length
            (filter (λ x. same_text client.now x.1.client) (latest (map.entries self.now))) }
    {
        match self.index.filters.under(client) {
            None => 0,
            Some(filters) => filters.len(),
        }
    }

    /// The dots that stand of the client and, where one is given, to the filter, if there are any.
    pub fn standing(&self, client: &Text, filter: Option<&Filter>) -> Option<&DotSet>
        ensures { MatchOption result
            ((d : DotValue) → stands_as client.now (option_copied filter.entry) (map.get self.now d) ≡ false)
            (λ dots. IsStanding self.now client.now (option_copied filter.entry) dots.now) }
    {
        match filter {
            Some(filter) => self.index.under(client, filter),
            None => self.index.clients.under(client),
        }
    }

    /// The dots of the entries whose filter matches the name. Only such a dot takes memory.
    pub fn matching(&self, name: &TopicName) -> Result<Matched<'_>, NoMemory>
        ensures dots { IfOk result (λ out. (d : DotValue) → (set.contains (dots_of out) d ≡ true) ↔ MatchesName name.now (map.get self.now d)) }
        ensures none { ((d : DotValue) → MatchesName name.now (map.get self.now d) → ⊥) → IsOk result }
    {
        self.index.matches.matching(name)
    }

    /// The dots of the entries whose filter is a plain one that matches the name, and the shared filters that do. Only where one does
    /// it takes memory.
    pub fn apart(&self, name: &TopicName) -> Result<Apart<'_>, NoMemory>
        ensures plain { IfOk result (λ out. (d : DotValue) → (set.contains (dots_of out.plain) d ≡ true) ↔ IsPlainAt name.now (map.get self.now d)) }
        ensures groups { IfOk result (λ out. AreGroups (HasEntry self.now) name.now (map_list (λ r. r.now) out.groups.items)) }
        ensures none { ((d : DotValue) → MatchesName name.now (map.get self.now d) → ⊥) → IsOk result }
    {
        self.index.matches.apart(name)
    }

    /// Puts the entry in at the dot, where there is none.
    pub fn add(&mut self, dot: Dot, entry: Entry) -> Result<(), NoMemory>
        requires { map.get self.old dot ≡ None }
        ensures ok { OnOk result (self.new ≡ map.insert self.old dot entry) }
        ensures err { OnErr result (self.new ≡ self.old) }
    {
        let fresh = self.index.under(entry.client(), entry.filter()).is_none();
        let count = self.entries.len();
        prove!(self.live <= count);
        self.index.file(dot, &entry)?;
        if let Err(back) = self.entries.insert(dot, entry) {
            let (_, entry) = back.value;
            self.index.unfile(dot, &entry);
            return Err(NoMemory);
        }
        if fresh {
            self.live += 1;
        }
        Ok(())
    }

    /// Takes the entry at the dot out, if there is one, and answers it.
    pub fn take(&mut self, dot: Dot) -> Option<Entry>
        ensures value { result ≡ map.get self.old dot }
        ensures left { self.new ≡ map.remove self.old dot }
    {
        let Some(entry) = self.entries.remove(&dot) else {
            return None;
        };
        self.index.unfile(dot, &entry);
        if self.index.under(entry.client(), entry.filter()).is_none() {
            self.live -= 1;
        }
        Some(entry)
    }
}
