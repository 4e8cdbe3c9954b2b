//! One entry at its dot.
ghost use Rattle.std.specs.Prelude.{◌≡◌, ◌↔◌, ℕ, None, true, false, MatchOption, IfOk, IsOk, length, map as map_list};
ghost use Rattle.std.specs.Option.{option_copied};
ghost use Rattle.std.specs.Ordering.{eq_by_cmp};
ghost use Rattle.std.specs.FinMap as map;
ghost use Rattle.std.specs.FinMap.Entries.{where_key};
ghost use Rattle.std.specs.FinSet as set;
ghost use Rattle.std.specs.List.{filter};
ghost use Rattle.causal_context.specs.Dots.{Dot as DotValue, dot_cmp};
ghost use Rattle.causal_context.specs.Ranges.{covers};
ghost use Rattle.subscription_set.specs.Entries.{is_of, same_text};
ghost use Rattle.subscription_set.specs.Standing.{latest};
ghost use Rattle.subscription_set.specs.Matching.{dots_of};
ghost use Rattle.subscription_set.specs.Indexing.{IsStanding, MatchesName, alone, stands_as};
ghost use Rattle.subscription_set.specs.Members.{AreGroups, HasEntry, IsInTurn, IsPlainAt};

use crate::by_filter::{Apart, Matched, is_shared};
use crate::dots::DotSet;
use crate::entry::Entry;
use crate::entry_iter::{EntryIter, RangeIter};
use crate::grouped::GroupedEntries;
use causal_context::{Dot, Range};
use mqtt_fields::{NoMemory, Text};
use mqtt_topics::{Filter, TopicName};
use std::alloc::Global;
use std::cmp::Ordering;
use std::marker::Model;

/// An entry at its dot, and the set of that dot.
pub struct LoneEntry {
    dot: Dot,
    entry: Entry,
    dots: DotSet,
}

impl Drop for LoneEntry {
    fn drop(self) {
        let LoneEntry {
            dot: _dot,
            entry: _entry,
            dots: _dots,
        } = self;
    }
}

impl Model for LoneEntry {
    ghost use Rattle.std.specs.Prelude.{◌≡◌};
    ghost use Rattle.std.specs.Coded.{coded×};
    ghost use Rattle.std.specs.FinSet as set;
    ghost use Rattle.causal_context.specs.Dots.{Dot as DotValue, coded_dot};
    ghost use Rattle.subscription_set.specs.Entries.{Entry as EntryValue, coded_entry};

    ghost Value = { DotValue × EntryValue };

    ghost coded = { coded× coded_dot coded_entry };

    ghost view = { λ l. (l.dot, l.entry) };

    ghost invariant = { λ l. l.dots ≡ set.insert set.empty l.dot };
}

// Whether the dot is in the range.
fn is_in(range: Range, dot: Dot) -> bool
    ensures { result ≡ covers dot range }
{
    range.node == dot.node() && (range.first <= dot.number() && dot.number() <= range.last)
}

// Whether the entry is of the client and, where one is given, to the filter.
fn is_of(entry: &Entry, client: &Text, filter: Option<&Filter>) -> bool
    ensures { result ≡ is_of client.now (option_copied filter.entry) entry.now }
{
    match filter {
        None => entry.has_client(client),
        Some(filter) => entry.has_client(client) && entry.has_filter(filter),
    }
}

impl LoneEntry {
    /// The entry at the dot. It takes no memory.
    pub fn new(alloc: Global, dot: Dot, entry: Entry) -> LoneEntry
        ensures { result ≡ (dot, entry) }
    {
        LoneEntry {
            dot,
            entry,
            dots: DotSet::one(alloc, dot),
        }
    }

    /// Whether it is at the dot.
    pub fn is_at(&self, dot: Dot) -> bool
        ensures { result ≡ eq_by_cmp dot_cmp dot self.now.0 }
    {
        dot.cmp(&self.dot) == Ordering::Equal
    }

    /// The entry, if it is at the dot.
    pub fn get(&self, dot: Dot) -> Option<&Entry>
        ensures { option_copied result ≡ map.get (alone self.now) dot }
    {
        if !self.is_at(dot) {
            return None;
        }
        Some(&self.entry)
    }

    /// The entry.
    pub fn iter(&self) -> EntryIter<'_>
        ensures { result ≡ map.entries (alone self.now) }
    {
        EntryIter::one(&self.dot, &self.entry)
    }

    /// The entry, if its dot is in the range.
    pub fn within(&self, range: Range) -> RangeIter<'_>
        ensures { result ≡ where_key dot_cmp (λ d. covers d range) (map.entries (alone self.now)) }
    {
        if !is_in(range, self.dot) {
            return RangeIter::none();
        }
        RangeIter::one(&self.dot, &self.entry)
    }

    /// 1 if it is the client's, and else 0.
    pub fn live_of(&self, client: &Text) -> usize
        ensures { result ≡ length (filter (λ x. same_text client.now x.1.client)
            (latest (map.entries (alone self.now)))) }
    {
        if !self.entry.has_client(client) {
            return 0;
        }
        1
    }

    /// The set of its dot, if it is of the client and, where one is given, to the filter.
    pub fn standing(&self, client: &Text, filter: Option<&Filter>) -> Option<&DotSet>
        ensures { MatchOption result
            ((d : DotValue) → stands_as client.now (option_copied filter.entry) (map.get (alone self.now) d) ≡ false)
            (λ dots. IsStanding (alone self.now) client.now (option_copied filter.entry) dots.now) }
    {
        if !is_of(&self.entry, client, filter) {
            return None;
        }
        Some(&self.dots)
    }

    /// The set of its dot where its filter matches the name, and else no dots.
    pub fn matching(&self, alloc: Global, name: &TopicName) -> Matched<'_>
        ensures { (d : DotValue) → (set.contains (dots_of result) d ≡ true)
            ↔ MatchesName name.now (map.get (alone self.now) d) }
    {
        if !self.entry.filter().matches(name) {
            return Matched::Many(DotSet::new(alloc));
        }
        Matched::One(&self.dots)
    }

    /// The set of its dot where its filter is a plain one that matches the name, or its filter where that is a shared one that does.
    /// Only the latter takes memory.
    pub fn apart(&self, alloc: Global, name: &TopicName) -> Result<Apart<'_>, NoMemory>
        ensures plain { IfOk result (λ out. (d : DotValue) → (set.contains (dots_of out.plain) d ≡ true) ↔ IsPlainAt name.now (map.get (alone self.now) d)) }
        ensures groups { IfOk result (λ out. AreGroups (HasEntry (alone self.now)) name.now (map_list (λ r. r.now) out.groups.items)) }
        ensures none { ((d : DotValue) → MatchesName name.now (map.get (alone self.now) d) → ⊥) → IsOk result }
    {
        let filter = self.entry.filter();
        if !filter.matches(name) {
            return Ok(Apart::none(alloc));
        }
        if is_shared(filter) {
            return Apart::shared(alloc, filter);
        }
        Ok(Apart::plain(alloc, &self.dots))
    }

    /// Its client, where it is to the filter.
    pub fn in_turn(&self, filter: &Filter) -> Option<&Text>
        ensures { (turn : ℕ) → IsInTurn (alone self.now) filter.now turn (option_copied result) }
    {
        if !self.entry.has_filter(filter) {
            return None;
        }
        Some(self.entry.client())
    }

    /// A copy of the entry and another one, with an index.
    pub fn with(&self, alloc: Global, dot: Dot, entry: Entry) -> Result<GroupedEntries, NoMemory>
        requires { map.get (alone self.now) dot ≡ None }
        ensures { IfOk result (λ all. all ≡ map.insert (alone self.now) dot entry) }
    {
        let mut all = GroupedEntries::new(alloc);
        let first = self.entry.copy(alloc)?;
        all.add(self.dot, first)?;
        all.add(dot, entry)?;
        Ok(all)
    }
}
