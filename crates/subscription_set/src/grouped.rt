//! Entries under their dots, with an index, and the members of shared groups beside them.
ghost use Rattle.std.specs.Prelude.{◌≡◌, ◌↔◌, None, false, true, MatchOption, OnOk, OnErr, IfOk, IsOk, length, map as map_list};
ghost use Rattle.std.specs.Option.{option_copied};
ghost use Rattle.std.specs.FinMap as map;
ghost use Rattle.std.specs.FinMap.Entries.{where_key};
ghost use Rattle.std.specs.FinSet as set;
ghost use Rattle.std.specs.List.{filter};
ghost use Rattle.causal_context.specs.Dots.{Dot as DotValue, dot_cmp};
ghost use Rattle.causal_context.specs.Ranges.{IsFine, covers};
ghost use Rattle.mqtt_topics.specs.Topics.{IsShared};
ghost use Rattle.subscription_set.specs.Entries.{same_text};
ghost use Rattle.subscription_set.specs.Standing.{latest};
ghost use Rattle.subscription_set.specs.Matching.{dots_of};
ghost use Rattle.subscription_set.specs.Indexing.{IsStanding, MatchesName, stands_as};
ghost use Rattle.subscription_set.specs.Members.{AreGroups, HasEntry, IsInTurn, IsPlainAt};

use crate::by_filter::{Apart, Matched, is_shared};
use crate::dots::DotSet;
use crate::entry::Entry;
use crate::indexed::IndexedEntries;
use crate::members::Members;
use causal_context::{Dot, Range};
use mqtt_fields::{NoMemory, Text};
use mqtt_topics::{Filter, TopicName};
use std::alloc::Global;
use std::collections::btree_map::{self, Iter};
use std::marker::Model;

/// Entries under their dots. Beside them stand the clients of each shared filter, in the order of their bytes.
#[derive(Drop)]
pub struct GroupedEntries {
    alloc: Global,
    entries: IndexedEntries,
    members: Members,
}

impl Model for GroupedEntries {
    ghost use Rattle.std.specs.FinMap as map;
    ghost use Rattle.causal_context.specs.Dots.{coded_dot};
    ghost use Rattle.subscription_set.specs.Entries.{coded_entry};
    ghost use Rattle.subscription_set.specs.Indexing.{ByDot};
    ghost use Rattle.subscription_set.specs.Members.{AreSeated};

    ghost Value = { ByDot };

    ghost coded = { map.code coded_dot coded_entry };

    ghost view = { λ e. e.entries };

    ghost invariant = { λ e. AreSeated e.entries e.members };
}

impl GroupedEntries {
    /// No entries.
    pub fn new(alloc: Global) -> GroupedEntries
        ensures { result ≡ map.empty }
    {
        GroupedEntries {
            alloc,
            entries: IndexedEntries::new(alloc),
            members: Members::new(alloc),
        }
    }

    /// The entry at the dot.
    pub fn get(&self, dot: Dot) -> Option<&Entry>
        ensures { option_copied result ≡ map.get self.now dot }
    {
        self.entries.get(dot)
    }

    /// The entries, rising by their dots.
    pub fn iter(&self) -> Iter<'_, Dot, Entry>
        ensures { result ≡ map.entries self.now }
    {
        self.entries.iter()
    }

    /// The entries of the dots of the range, rising.
    pub fn within(&self, range: Range) -> btree_map::Range<'_, Dot, Entry>
        requires { IsFine range }
        ensures { result ≡ where_key dot_cmp (λ d. covers d range) (map.entries self.now) }
    {
        self.entries.within(range)
    }

    /// How many entries there are.
    pub fn len(&self) -> usize
        ensures { result ≡ map.len self.now }
    {
        self.entries.len()
    }

    /// How many of them are the latest of their client and filter.
    pub fn live(&self) -> usize
        ensures { result ≡ length (latest (map.entries self.now)) }
    {
        self.entries.live()
    }

    /// How many of the client's entries are the latest of their filter.
    pub fn live_of(&self, client: &Text) -> usize
        ensures { result ≡ length
            (filter (λ x. same_text client.now x.1.client) (latest (map.entries self.now))) }
    {
        self.entries.live_of(client)
    }

    /// The dots that stand of the client and, where one is given, to the filter, if there are any.
    pub fn standing(&self, client: &Text, filter: Option<&Filter>) -> Option<&DotSet>
        ensures { MatchOption result
            ((d : DotValue) → stands_as client.now (option_copied filter.entry) (map.get self.now d) ≡ false)
            (λ dots. IsStanding self.now client.now (option_copied filter.entry) dots.now) }
    {
        self.entries.standing(client, filter)
    }

    /// The dots of the entries whose filter matches the name. Only such a dot takes memory.
    pub fn matching(&self, name: &TopicName) -> Result<Matched<'_>, NoMemory>
        ensures dots { IfOk result (λ out. (d : DotValue) → (set.contains (dots_of out) d ≡ true) ↔ MatchesName name.now (map.get self.now d)) }
        ensures none { ((d : DotValue) → MatchesName name.now (map.get self.now d) → ⊥) → IsOk result }
    {
        self.entries.matching(name)
    }

    /// The dots of the entries whose filter is a plain one that matches the name, and the shared filters that do. Only where one does
    /// it takes memory.
    pub fn apart(&self, name: &TopicName) -> Result<Apart<'_>, NoMemory>
        ensures plain { IfOk result (λ out. (d : DotValue) → (set.contains (dots_of out.plain) d ≡ true) ↔ IsPlainAt name.now (map.get self.now d)) }
        ensures groups { IfOk result (λ out. AreGroups (HasEntry self.now) name.now (map_list (λ r. r.now) out.groups.items)) }
        ensures none { ((d : DotValue) → MatchesName name.now (map.get self.now d) → ⊥) → IsOk result }
    {
        self.entries.apart(name)
    }

    /// Of the clients of which something stands to the shared filter, in the order of their bytes, the one in the place `turn` modulo
    /// their number. It takes no memory.
    pub fn in_turn(&self, filter: &Filter, turn: u64) -> Option<&Text>
        requires { IsShared filter.now }
        ensures { IsInTurn self.now filter.now turn (option_copied result) }
    {
        match self.members.under(filter.as_text()) {
            None => None,
            Some(clients) => clients.in_turn(turn),
        }
    }

    /// Puts the entry in at the dot, where there is none.
    pub fn add(&mut self, dot: Dot, entry: Entry) -> Result<(), NoMemory>
        requires { map.get self.old dot ≡ None }
        ensures ok { OnOk result (self.new ≡ map.insert self.old dot entry) }
        ensures err { OnErr result (self.new ≡ self.old) }
    {
        if !is_shared(entry.filter()) {
            return self.entries.add(dot, entry);
        }
        let client = entry.client().copy(self.alloc)?;
        let filter = entry.filter().copy(self.alloc)?;
        self.entries.add(dot, entry)?;
        match self.members.add(filter.as_text(), &client) {
            Ok(()) => Ok(()),
            Err(fault) => {
                self.entries.take(dot);
                Err(fault)
            }
        }
    }

    /// Takes the entry at the dot out, if there is one.
    pub fn remove(&mut self, dot: Dot)
        ensures { self.new ≡ map.remove self.old dot }
    {
        let Some(entry) = self.entries.take(dot) else {
            return;
        };
        if !is_shared(entry.filter()) {
            return;
        }
        if self
            .entries
            .standing(entry.client(), Some(entry.filter()))
            .is_none()
        {
            self.members
                .remove(entry.filter().as_text(), entry.client());
        }
    }
}
