//! Maps by topic name.

ghost use Rattle.std.specs.Prelude.{◌≡◌, [], map as map_list, None, IfOk, OnOk, IfErr, OnErr, IsOk};
ghost use Rattle.std.specs.Option.{option_copied};
ghost use Rattle.std.specs.FinMap as map;
ghost use Rattle.std.specs.BTreeMap.{IsOrdered};
ghost use Rattle.std.specs.Ordering.{nat_cmp};
ghost use Rattle.std.specs.Cmp.Lexicographic.{slice_cmp};
ghost use Rattle.mqtt_topics.specs.Matching.{Matches};
ghost use Rattle.filter_trie.specs.Selected.{IsSelected};
ghost use Rattle.filter_trie.specs.Tries.{AreNamesFor};

use crate::seeks::{Onward, past_name};
use mqtt_fields::NoMemory;
use mqtt_topics::{Filter, TopicName};
use std::alloc::Global;
use std::collections::BTreeMap;
use std::marker::Model;

/// A value for each of some topic names. Contracts see a finite map by text.
#[derive(Drop)]
pub struct TopicTrie<V> {
    alloc: Global,
    pairs: BTreeMap<TopicName, V>,
}

impl<V> Model for TopicTrie<V> {
    ghost use Rattle.std.specs.Prelude.{ℕ};
    ghost use Rattle.std.specs.Coded.{coded_ℕ, coded_list};
    ghost use Rattle.std.specs.FinMap as map;
    ghost use Rattle.filter_trie.specs.Tries.{ByText};

    ghost Value = { ByText V };

    ghost coded = { map.code (coded_list coded_ℕ) V.code };

    ghost view = { λ t. map.from_entries t.pairs.entries };
}

impl<V> TopicTrie<V> {
    /// No pairs.
    pub fn new(alloc: Global) -> TopicTrie<V>
        ensures { result ≡ map.empty }
    {
        TopicTrie {
            alloc,
            pairs: BTreeMap::new(alloc),
        }
    }

    /// The value at a topic name.
    pub fn get(&self, name: &TopicName) -> Option<&V>
        ensures { option_copied result ≡ map.get self.now name.now }
    {
        self.pairs.get(name)
    }

    /// Puts the value at the topic name, and answers the one before. Where memory is refused the value comes back and
    /// nothing has changed; only a new topic name wants memory.
    pub fn insert(&mut self, name: TopicName, value: V) -> Result<Option<V>, V>
        ensures before { IfOk result (λ before. before ≡ map.get self.old name) }
        ensures ok { OnOk result (self.new ≡ map.insert self.old name value) }
        ensures back { IfErr result (λ back. back ≡ value) }
        ensures err { OnErr result (self.new ≡ self.old) }
        ensures absent { OnErr result (map.get self.old name ≡ None) }
    {
        match self.pairs.insert(name, value) {
            Ok(before) => return Ok(before),
            Err(refused) => {
                let (_, value) = refused.value;
                return Err(value);
            }
        }
    }

    /// Takes out the pair at a topic name, and answers its value.
    pub fn remove(&mut self, name: &TopicName) -> Option<V>
        ensures before { result ≡ map.get self.old name.now }
        ensures left { self.new ≡ map.remove self.old name.now }
    {
        self.pairs.remove(name)
    }

    /// The pairs whose name the filter matches, in the order of the names' bytes. It takes memory only where one does.
    pub fn matching(&self, filter: &Filter) -> Result<Vec<(&TopicName, &V)>, NoMemory>
        ensures pairs { IfOk result (λ out.
            AreNamesFor self.now filter.now (map_list (λ r. (r.0.now, r.1.now)) out.items)) }
        ensures none { AreNamesFor self.now filter.now [] → IsOk result }
    {
        names_matching(self.alloc, &self.pairs, filter)
    }
}

/// The pairs of a map by topic name whose name the filter matches, in the order of the names' bytes, by a walk that passes the
/// others by. It takes memory only where one matches.
pub fn names_matching<'a, V>(
    alloc: Global,
    pairs: &'a BTreeMap<TopicName, V>,
    filter: &Filter,
) -> Result<Vec<(&'a TopicName, &'a V)>, NoMemory>
    ensures pairs { IfOk result (λ out. IsSelected (λ e. Matches filter.now e.0) pairs.now.entries
        (map_list (λ r. (r.0.now, r.1.now)) out.items)) }
    ensures none { IsSelected (λ e. Matches filter.now e.0) pairs.now.entries [] → IsOk result }
    ensures ordered { IsOrdered (slice_cmp nat_cmp) pairs.now }
{
    let mut out = Vec::new(alloc);
    let mut left = pairs.range(..);
    while let Some((name, value)) = left.next() {
        if filter.matches(name) {
            out.push((name, value))?;
            continue;
        }
        match past_name(alloc, filter, name) {
            Onward::Next => {}
            Onward::From(bound) => left = pairs.range(bound..),
            Onward::End => return Ok(out),
        }
    }
    Ok(out)
}
