//! Entries under their dots, found by client and filter too. One takes no trees.
ghost use Rattle.std.specs.Prelude.{◌≡◌, ◌<◌, ◌^◌, ℕ, List, None, Some, false, true, MatchOption, OnOk, OnErr, IfOk, IsOk, ◌↔◌, length, map as map_list};
ghost use Rattle.std.specs.Option.{option_copied};
ghost use Rattle.std.specs.FinMap as map;
ghost use Rattle.std.specs.FinSet as set;
ghost use Rattle.std.specs.List.{filter};
ghost use Rattle.causal_context.specs.Dots.{Dot as DotValue, dot_cmp};
ghost use Rattle.causal_context.specs.Ranges.{IsFine, covers};
ghost use Rattle.std.specs.FinMap.Entries.{where_key};
ghost use Rattle.subscription_set.specs.Entries.{same_text};
ghost use Rattle.subscription_set.specs.Standing.{latest};
ghost use Rattle.subscription_set.specs.Matching.{dots_of};
ghost use Rattle.mqtt_topics.specs.Topics.{IsShared};
ghost use Rattle.subscription_set.specs.Indexing.{IsStanding, MatchesName, stands_as};
ghost use Rattle.subscription_set.specs.Members.{AreGroups, HasEntry, IsInTurn, IsPlainAt};

use crate::by_filter::{Apart, Matched};
use crate::dots::DotSet;
use crate::entry::Entry;
use crate::entry_iter::{EntryIter, RangeIter};
use crate::grouped::GroupedEntries;
use crate::lone_entry::LoneEntry;
use causal_context::{Dot, Range};
use mqtt_fields::{NoMemory, Text};
use mqtt_topics::{Filter, TopicName};
use std::alloc::Global;
use std::marker::Model;

// No entry, one, or many with an index. What has become many stays so until there is none.
#[derive(Drop)]
enum Held {
    Nothing,
    One(LoneEntry),
    Many(GroupedEntries),
}

/// Entries under their dots. How many of them are the latest of their client and filter, and what
/// stands of a client, and of a client and a filter, is found without going over them.
pub struct EntryMap {
    alloc: Global,
    entries: Held,
}

impl Drop for EntryMap {
    fn drop(self) {
        let EntryMap {
            alloc: _alloc,
            entries: _entries,
        } = self;
    }
}

impl Model for EntryMap {
    ghost use Rattle.std.specs.FinMap as map;
    ghost use Rattle.causal_context.specs.Dots.{coded_dot};
    ghost use Rattle.subscription_set.specs.Entries.{coded_entry};
    ghost use Rattle.subscription_set.specs.Indexing.{ByDot};
    ghost use Rattle.subscription_set.specs.Holding.{held};

    ghost Value = { ByDot };

    ghost coded = { map.code coded_dot coded_entry };

    ghost view = { λ e. held e.entries };
}

impl EntryMap {
    /// No entries.
    pub fn new(alloc: Global) -> EntryMap
        ensures { result ≡ map.empty }
    {
        EntryMap {
            alloc,
            entries: Held::Nothing,
        }
    }

    /// The entry at the dot.
    pub fn get(&self, dot: Dot) -> Option<&Entry>
        ensures { option_copied result ≡ map.get self.now dot }
    {
        match &self.entries {
            Held::Nothing => None,
            Held::One(one) => one.get(dot),
            Held::Many(all) => all.get(dot),
        }
    }

    /// The entries, rising by their dots.
    pub fn iter(&self) -> EntryIter<'_>
        ensures { result ≡ map.entries self.now }
    {
        match &self.entries {
            Held::Nothing => EntryIter::none(),
            Held::One(one) => one.iter(),
            Held::Many(all) => EntryIter::tree(all.iter()),
        }
    }

    /// The entries of the dots of the range, rising.
    pub fn within(&self, range: Range) -> RangeIter<'_>
        requires { IsFine range }
        ensures { result ≡ where_key dot_cmp (λ d. covers d range) (map.entries self.now) }
    {
        match &self.entries {
            Held::Nothing => RangeIter::none(),
            Held::One(one) => one.within(range),
            Held::Many(all) => RangeIter::tree(all.within(range)),
        }
    }

    /// How many entries there are.
    pub fn len(&self) -> usize
        ensures { result ≡ map.len self.now }
    {
        match &self.entries {
            Held::Nothing => 0,
            Held::One(_) => 1,
            Held::Many(all) => all.len(),
        }
    }

    /// How many of them are the latest of their client and filter.
    pub fn live(&self) -> usize
        ensures { result ≡ length (latest (map.entries self.now)) }
    {
        match &self.entries {
            Held::Nothing => 0,
            Held::One(_) => 1,
            Held::Many(all) => all.live(),
        }
    }

    /// How many of the client's entries are the latest of their filter.
    pub fn live_of(&self, client: &Text) -> usize
        ensures { result ≡ length
            (filter (λ x. same_text client.now x.1.client) (latest (map.entries self.now))) }
    {
        match &self.entries {
            Held::Nothing => 0,
            Held::One(one) => one.live_of(client),
            Held::Many(all) => all.live_of(client),
        }
    }

    /// The dots that stand of the client and, where one is given, to the filter, if there are any.
    pub fn standing(&self, client: &Text, filter: Option<&Filter>) -> Option<&DotSet>
        ensures { MatchOption result
            ((d : DotValue) → stands_as client.now (option_copied filter.entry) (map.get self.now d) ≡ false)
            (λ dots. IsStanding self.now client.now (option_copied filter.entry) dots.now) }
    {
        match &self.entries {
            Held::Nothing => None,
            Held::One(one) => one.standing(client, filter),
            Held::Many(all) => all.standing(client, filter),
        }
    }

    /// The dots of the entries whose filter matches the name. Only such a dot takes memory.
    pub fn matching(&self, name: &TopicName) -> Result<Matched<'_>, NoMemory>
        ensures dots { IfOk result (λ out. (d : DotValue) → (set.contains (dots_of out) d ≡ true) ↔ MatchesName name.now (map.get self.now d)) }
        ensures none { ((d : DotValue) → MatchesName name.now (map.get self.now d) → ⊥) → IsOk result }
    {
        match &self.entries {
            Held::Nothing => Ok(Matched::Many(DotSet::new(self.alloc))),
            Held::One(one) => Ok(one.matching(self.alloc, name)),
            Held::Many(all) => all.matching(name),
        }
    }

    /// The dots of the entries whose filter is a plain one that matches the name, and the shared filters that do. Only where one does
    /// it takes memory.
    pub fn apart(&self, name: &TopicName) -> Result<Apart<'_>, NoMemory>
        ensures plain { IfOk result (λ out. (d : DotValue) → (set.contains (dots_of out.plain) d ≡ true) ↔ IsPlainAt name.now (map.get self.now d)) }
        ensures groups { IfOk result (λ out. AreGroups (HasEntry self.now) name.now (map_list (λ r. r.now) out.groups.items)) }
        ensures none { ((d : DotValue) → MatchesName name.now (map.get self.now d) → ⊥) → IsOk result }
    {
        match &self.entries {
            Held::Nothing => Ok(Apart::none(self.alloc)),
            Held::One(one) => one.apart(self.alloc, name),
            Held::Many(all) => all.apart(name),
        }
    }

    /// Of the clients of which something stands to the shared filter, in the order of their bytes, the one in the place `turn` modulo
    /// their number. It takes no memory.
    pub fn in_turn(&self, filter: &Filter, turn: u64) -> Option<&Text>
        requires { IsShared filter.now }
        ensures { IsInTurn self.now filter.now turn (option_copied result) }
    {
        match &self.entries {
            Held::Nothing => None,
            Held::One(one) => one.in_turn(filter),
            Held::Many(all) => all.in_turn(filter, turn),
        }
    }

    /// Puts the entry in at the dot, where there is none. The first one takes no memory.
    pub fn add(&mut self, dot: Dot, entry: Entry) -> Result<(), NoMemory>
        requires { map.get self.old dot ≡ None }
        ensures ok { OnOk result (self.new ≡ map.insert self.old dot entry) }
        ensures err { OnErr result (self.new ≡ self.old) }
        ensures first { self.old ≡ map.empty → IsOk result }
    {
        match &mut self.entries {
            Held::Nothing => {
                self.entries = Held::One(LoneEntry::new(self.alloc, dot, entry));
                Ok(())
            }
            Held::One(one) => {
                self.entries = Held::Many(one.with(self.alloc, dot, entry)?);
                Ok(())
            }
            Held::Many(all) => {
                if all.len() > 0 {
                    return all.add(dot, entry);
                }
                self.entries = Held::One(LoneEntry::new(self.alloc, dot, entry));
                Ok(())
            }
        }
    }

    /// Takes the entry at the dot out, if there is one.
    #[tactic(auto, using(crate::proofs::Alone::none_gone, crate::proofs::Alone::alone_gone, crate::proofs::Alone::alone_stays))]
    pub fn remove(&mut self, dot: Dot)
        ensures { self.new ≡ map.remove self.old dot }
    {
        match &mut self.entries {
            Held::Nothing => {}
            Held::One(one) => {
                if one.is_at(dot) {
                    self.entries = Held::Nothing;
                }
            }
            Held::Many(all) => all.remove(dot),
        }
    }
}
