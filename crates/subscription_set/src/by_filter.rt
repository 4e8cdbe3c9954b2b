//! Dots under filters, found by the topic names that the filters match.
ghost use Rattle.std.specs.Prelude.{◌≡◌, ◌↔◌, ◌<◌, ◌||◌, [], ◌∷◌, None, OnOk, OnErr, IfOk, IsOk, IsTrue, length, map as map_list};
ghost use Rattle.std.specs.List.{AllByRecursion, list_any};
ghost use Rattle.std.specs.FinMap as map;
ghost use Rattle.std.specs.FinSet as set;
ghost use Rattle.causal_context.specs.Dots.{Dot as DotValue};
ghost use Rattle.filter_trie.specs.Selected.{IsSelected};
ghost use Rattle.mqtt_topics.specs.Topics.{IsFilter, IsShared};
ghost use Rattle.subscription_set.specs.Filing.{HasUnder, text_cmp};
ghost use Rattle.causal_context.specs.Dots.{dot_cmp};
ghost use Rattle.subscription_set.specs.Matching.{HasMatch, HasPlainFilter, IsMatched, IsPlainMatched, dots_of};
ghost use Rattle.subscription_set.specs.Members.{AreGroups};

use crate::dots::DotSet;
use causal_context::Dot;
use filter_trie::FilterTrie;
use mqtt_fields::NoMemory;
use mqtt_topics::{Filter, TopicName};
use std::alloc::Global;
use std::marker::Model;

/// Where dots stand: under a filter.
#[derive(Drop)]
pub struct ByFilter {
    alloc: Global,
    dots: FilterTrie<DotSet>,
}

impl Model for ByFilter {
    ghost use Rattle.std.specs.FinSet as set;
    ghost use Rattle.std.specs.Coded.{coded×, coded_list, coded_ℕ};
    ghost use Rattle.causal_context.specs.Dots.{coded_dot};
    ghost use Rattle.subscription_set.specs.Filing.{Filed, IsFilled, spread};

    ghost Value = { Filed };

    ghost coded = { set.code (coded× (coded_list coded_ℕ) coded_dot) };

    ghost view = { λ b. spread b.dots };

    ghost invariant = { λ b. IsFilled b.dots };
}

// Puts the dot under a filter that has none.
fn add_first(
    alloc: Global,
    dots: &mut FilterTrie<DotSet>,
    filter: &Filter,
    dot: Dot,
) -> Result<(), NoMemory>
    requires { map.get dots.old filter.now ≡ None }
    ensures ok { OnOk result (dots.new ≡ map.insert dots.old filter.now (set.insert set.empty dot)) }
    ensures err { OnErr result (dots.new ≡ dots.old) }
{
    let mut own = DotSet::new(alloc);
    own.insert(dot)?;
    let key = filter.copy(alloc)?;
    match dots.insert(key, own) {
        Ok(_) => Ok(()),
        Err(_) => Err(NoMemory),
    }
}

/// The dots under the filters that match a name: those that lie under one filter, or a set of those under several.
#[derive(Drop)]
pub enum Matched<'a> {
    One(&'a DotSet),
    Many(DotSet),
}

impl Matched<'_> {
    /// The set.
    pub fn dots(&self) -> &DotSet
        ensures { result.now ≡ dots_of self.now }
    {
        match self {
            Matched::One(dots) => *dots,
            Matched::Many(dots) => dots,
        }
    }
}

// Adds the dots to a set.
fn add_all(out: &mut DotSet, dots: &DotSet) -> Result<(), NoMemory>
    ensures { OnOk result ((d : DotValue) → set.contains out.new d
        ≡ (set.contains out.old d || set.contains dots.now d)) }
{
    for dot in dots.iter() {
        out.insert(*dot)?;
    }
    Ok(())
}

// The dots of all the sets. Only these take memory.
fn united(alloc: Global, found: &[(&Filter, &DotSet)]) -> Result<DotSet, NoMemory>
    ensures dots { IfOk result (λ out. (d : DotValue) → set.contains out d
        ≡ list_any (λ r. set.contains r.1.now d) found.now) }
    ensures memory { OnErr result (0 < length found.now) }
{
    let mut out = DotSet::new(alloc);
    for (_, dots) in found {
        add_all(&mut out, *dots)?;
    }
    Ok(out)
}

// The same, where they lie if there is one set. Only several take memory.
fn gather<'a>(alloc: Global, found: &[(&'a Filter, &'a DotSet)]) -> Result<Matched<'a>, NoMemory>
    ensures dots { IfOk result (λ out. (d : DotValue) → set.contains (dots_of out) d
        ≡ list_any (λ r. set.contains r.1.now d) found.now) }
    ensures memory { OnErr result (0 < length found.now) }
    ensures several { OnErr result (1 < length found.now) }
{
    if let [(_, dots)] = found {
        return Ok(Matched::One(*dots));
    }
    Ok(Matched::Many(united(alloc, found)?))
}

/// The dots under the plain filters that match a name, and the shared filters that do.
#[derive(Drop)]
pub struct Apart<'a> {
    pub plain: Matched<'a>,
    pub groups: Vec<&'a Filter>,
}

impl<'a> Apart<'a> {
    /// No dots, and no filters. It takes no memory.
    pub fn none(alloc: Global) -> Apart<'a>
        ensures plain { dots_of result.plain ≡ set.empty }
        ensures groups { result.groups.items ≡ [] }
    {
        Apart {
            plain: Matched::Many(DotSet::new(alloc)),
            groups: Vec::new(alloc),
        }
    }

    /// These dots, and no filters. It takes no memory.
    pub fn plain(alloc: Global, dots: &'a DotSet) -> Apart<'a>
        ensures plain { dots_of result.plain ≡ dots.now }
        ensures groups { result.groups.items ≡ [] }
    {
        Apart {
            plain: Matched::One(dots),
            groups: Vec::new(alloc),
        }
    }

    /// No dots, and this filter.
    pub fn shared(alloc: Global, filter: &'a Filter) -> Result<Apart<'a>, NoMemory>
        ensures plain { IfOk result (λ out. dots_of out.plain ≡ set.empty) }
        ensures groups { IfOk result (λ out. map_list (λ r. r.now) out.groups.items ≡ filter.now ∷ []) }
    {
        let mut groups = Vec::new(alloc);
        groups.push(filter)?;
        Ok(Apart {
            plain: Matched::Many(DotSet::new(alloc)),
            groups,
        })
    }
}

/// Whether a filter is a shared one (MQTT 5.0, 4.8.2).
pub fn is_shared(filter: &Filter) -> bool
    ensures shared { IsTrue result ↔ IsShared filter.now }
    ensures filter { IsFilter filter.now }
{
    let _text = filter.as_text();
    filter.group().is_some()
}

// Whether the filter of a pair is a plain one.
fn is_plain(pair: &(&Filter, &DotSet)) -> bool
    ensures { IsTrue result ↔ (IsShared pair.now.0.now → ⊥) }
{
    let (filter, _) = pair;
    !is_shared(*filter)
}

// Those of the pairs whose filter is a plain one.
fn plain_in<'a>(mut found: Vec<(&'a Filter, &'a DotSet)>) -> Vec<(&'a Filter, &'a DotSet)>
    ensures { IsSelected HasPlainFilter (map_list (λ r. (r.0.now, r.1.now)) found.entry.items)
        (map_list (λ r. (r.0.now, r.1.now)) result.items) }
{
    found.retain(|pair| is_plain(pair));
    found
}

// The shared filters of the pairs. Only these take memory.
fn shared_in<'a>(
    alloc: Global,
    found: &[(&'a Filter, &'a DotSet)],
) -> Result<Vec<&'a Filter>, NoMemory>
    ensures shared { IfOk result (λ out. IsSelected IsShared (map_list (λ r. r.0.now) found.now)
        (map_list (λ r. r.now) out.items)) }
    ensures filters { IfOk result (λ out. AllByRecursion IsFilter (map_list (λ r. r.now) out.items)) }
    ensures memory { OnErr result (0 < length found.now) }
{
    let mut out = Vec::new(alloc);
    for (filter, _) in found {
        if is_shared(*filter) {
            out.push(*filter)?;
        }
    }
    Ok(out)
}

impl ByFilter {
    /// No dots.
    pub fn new(alloc: Global) -> ByFilter
        ensures { result ≡ set.empty }
    {
        ByFilter {
            alloc,
            dots: FilterTrie::new(alloc),
        }
    }

    /// Puts the dot under the filter.
    pub fn add(&mut self, filter: &Filter, dot: Dot) -> Result<(), NoMemory>
        ensures ok { OnOk result (self.new ≡ set.insert self.old (filter.now, dot)) }
        ensures err { OnErr result (self.new ≡ self.old) }
    {
        let Ok(mut own) = self.dots.replace(filter, DotSet::new(self.alloc)) else {
            return add_first(self.alloc, &mut self.dots, filter, dot);
        };
        let added = own.insert(dot);
        let _ = self.dots.replace(filter, own);
        added
    }

    /// Takes the dot out from under the filter.
    pub fn remove(&mut self, filter: &Filter, dot: Dot)
        ensures { self.new ≡ set.remove self.old (filter.now, dot) }
    {
        let Ok(mut own) = self.dots.replace(filter, DotSet::new(self.alloc)) else {
            return;
        };
        own.remove(dot);
        if own.is_empty() {
            self.dots.remove(filter);
            return;
        }
        let _ = self.dots.replace(filter, own);
    }

    /// The dots under the filters that match the name. Only such a dot takes memory.
    pub fn matching(&self, name: &TopicName) -> Result<Matched<'_>, NoMemory>
        ensures dots { IfOk result (λ out. IsMatched self.now name.now (dots_of out)) }
        ensures none { (HasMatch self.now name.now → ⊥) → IsOk result }
    {
        let found = self.dots.matching(name)?;
        gather(self.alloc, found.as_slice())
    }

    /// The dots under the plain filters that match the name, and the shared filters that do. Only where one does it takes memory.
    pub fn apart(&self, name: &TopicName) -> Result<Apart<'_>, NoMemory>
        ensures plain { IfOk result (λ out. IsPlainMatched self.now name.now (dots_of out.plain)) }
        ensures groups { IfOk result (λ out. AreGroups (HasUnder text_cmp dot_cmp self.now) name.now
            (map_list (λ r. r.now) out.groups.items)) }
        ensures none { (HasMatch self.now name.now → ⊥) → IsOk result }
    {
        let found = self.dots.matching(name)?;
        let groups = shared_in(self.alloc, found.as_slice())?;
        let found = plain_in(found);
        let plain = gather(self.alloc, found.as_slice())?;
        Ok(Apart { plain, groups })
    }
}
