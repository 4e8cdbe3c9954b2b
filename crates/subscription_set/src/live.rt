//! What stands of a client, and what is live.
ghost use Rattle.std.specs.Prelude.{◌≡◌, ◌&&◌, ◌++◌, ◌<◌, [], IfOk, IsOk, OnOk, OnErr, true, length, flat_map, map as map_list};
ghost use Rattle.std.specs.List.{AllByRecursion, filter, list_all, list_any};
ghost use Rattle.std.specs.Map.Iter.{deref_pair};
ghost use Rattle.std.specs.Option.{option_copied};
ghost use Rattle.std.specs.FinMap as map;
ghost use Rattle.std.specs.FinSet as set;
ghost use Rattle.causal_context.specs.Dots.{Dot as DotValue};
ghost use Rattle.mqtt_topics.specs.Matching.{Matches};
ghost use Rattle.mqtt_topics.specs.Topics.{IsShared};
ghost use Rattle.filter_trie.specs.Selected.{IsSelected};
ghost use Rattle.subscription_set.specs.Entries.{is_of, is_of_below, same_text};
ghost use Rattle.subscription_set.specs.Standing.{is_latest, latest, dots_in};
ghost use Rattle.subscription_set.specs.Indexing.{later_at, below_at};
ghost use Rattle.subscription_set.specs.Members.{AreInTurn, IsPlainFor, in_turn, latest_of_dots, latest_entries, to_filter};

use crate::dots::DotSet;
use crate::entry::Entry;
use crate::entry_map::EntryMap;
use causal_context::{Context, Dot};
use mqtt_fields::{NoMemory, Text};
use mqtt_topics::{Filter, TopicName};
use std::alloc::Global;
use std::cmp::Ordering;

// Whether the entry at the other dot is later than this one, by the version, the number and the
// node.
fn is_later(entries: &EntryMap, dot: Dot, entry: &Entry, other_dot: Dot) -> bool
    ensures { result ≡ later_at (dot, entry.now) other_dot (map.get entries.now other_dot) }
{
    match entries.get(other_dot) {
        None => false,
        Some(other) => entry.version().cmp(&other.version()).then(
            dot.number()
                .cmp(&other_dot.number())
                .then(dot.node().cmp(&other_dot.node())),
        ) == Ordering::Less,
    }
}

// Whether the entry at one of the dots is later than this one.
fn any_later(entries: &EntryMap, dots: &DotSet, dot: Dot, entry: &Entry) -> bool
    ensures { result ≡ list_any
        (λ d. later_at (dot, entry.now) d (map.get entries.now d)) (set.items dots.now) }
{
    for other in dots.iter() {
        if is_later(entries, dot, entry, *other) {
            return true;
        }
    }
    false
}

// Whether no other entry of the same client and filter is later.
fn is_the_latest(entries: &EntryMap, dot: Dot, entry: &Entry) -> bool
    ensures { result ≡ is_latest (map.entries entries.now) (dot, entry.now) }
{
    match entries.standing(entry.client(), Some(entry.filter())) {
        None => true,
        Some(dots) => !any_later(entries, dots, dot, entry),
    }
}

// Whether the entry at the dot was made under a version below this one.
fn is_below_at(entries: &EntryMap, dot: Dot, version: u64) -> bool
    ensures { result ≡ below_at version (map.get entries.now dot) }
{
    match entries.get(dot) {
        None => false,
        Some(entry) => u64::from(entry.version()) < version,
    }
}

// Whether the entry at one of the dots was made under a version below this one.
fn any_below(entries: &EntryMap, dots: &DotSet, version: u64) -> bool
    ensures { result ≡ list_any
        (λ d. below_at version (map.get entries.now d)) (set.items dots.now) }
{
    for dot in dots.iter() {
        if is_below_at(entries, *dot, version) {
            return true;
        }
    }
    false
}

// Those of the dots whose entries were made under a version below this one.
fn those_below(
    alloc: Global,
    entries: &EntryMap,
    dots: &DotSet,
    version: u64,
) -> Result<Context, NoMemory>
    ensures dots { IfOk result (λ out. (q : DotValue) → set.contains out q
        ≡ (set.contains dots.now q && below_at version (map.get entries.now q))) }
    ensures memory { OnErr result (list_any
        (λ d. below_at version (map.get entries.now d)) (set.items dots.now) ≡ true) }
{
    let mut out = Context::new(alloc);
    for dot in dots.iter() {
        if is_below_at(entries, *dot, version) {
            out.insert(*dot)?;
        }
    }
    Ok(out)
}

/// Whether there is an entry of the client and, where one is given, to the filter.
pub fn any_among(entries: &EntryMap, client: &Text, filter: Option<&Filter>) -> bool
    ensures { result ≡ list_any (λ x. is_of client.now (option_copied filter.entry) x.1)
        (map.entries entries.now) }
{
    entries.standing(client, filter).is_some()
}

/// Whether there is an entry of the client that was made under a version below this one.
pub fn any_among_below(entries: &EntryMap, client: &Text, version: u64) -> bool
    ensures { result ≡ list_any (λ x. is_of_below client.now version x.1)
        (map.entries entries.now) }
{
    match entries.standing(client, None) {
        None => false,
        Some(dots) => any_below(entries, dots, version),
    }
}

/// The dots of the entries of the client and, where one is given, to the filter.
pub fn dots_among(
    alloc: Global,
    entries: &EntryMap,
    client: &Text,
    filter: Option<&Filter>,
) -> Result<Context, NoMemory>
    ensures dots { IfOk result (λ dots.
        dots ≡ dots_in (is_of client.now (option_copied filter.entry)) (map.entries entries.now)) }
    ensures memory { OnErr result (list_any (λ x. is_of client.now (option_copied filter.entry) x.1)
        (map.entries entries.now) ≡ true) }
{
    match entries.standing(client, filter) {
        None => Ok(Context::new(alloc)),
        Some(dots) => dots.context(alloc),
    }
}

/// The dots of the client's entries that were made under a version below this one.
pub fn dots_among_below(
    alloc: Global,
    entries: &EntryMap,
    client: &Text,
    version: u64,
) -> Result<Context, NoMemory>
    ensures dots { IfOk result (λ dots.
        dots ≡ dots_in (is_of_below client.now version) (map.entries entries.now)) }
    ensures memory { OnErr result (list_any (λ x. is_of_below client.now version x.1)
        (map.entries entries.now) ≡ true) }
{
    match entries.standing(client, None) {
        None => Ok(Context::new(alloc)),
        Some(dots) => those_below(alloc, entries, dots, version),
    }
}

/// The latest entries of each client and filter. Only these take memory.
pub fn latest_among(alloc: Global, entries: &EntryMap) -> Result<Vec<(&Dot, &Entry)>, NoMemory>
    ensures latest { IfOk result (λ out.
        map_list deref_pair out.items ≡ latest (map.entries entries.now)) }
    ensures none { latest (map.entries entries.now) ≡ [] → IsOk result }
{
    let mut out = Vec::new(alloc);
    for (dot, entry) in entries.iter() {
        if is_the_latest(entries, *dot, entry) {
            out.push((dot, entry))?;
        }
    }
    Ok(out)
}

// Whether the entry is the client's, and the latest of its filter.
fn is_live_of(entries: &EntryMap, dot: Dot, entry: &Entry, client: &Text) -> bool
    ensures { result ≡ (same_text client.now entry.now.client
        && is_latest (map.entries entries.now) (dot, entry.now)) }
{
    entry.has_client(client) && is_the_latest(entries, dot, entry)
}

/// The latest entries of the client, one of each filter. Only these take memory.
pub fn latest_of<'a>(
    alloc: Global,
    entries: &'a EntryMap,
    client: &Text,
) -> Result<Vec<(&'a Dot, &'a Entry)>, NoMemory>
    ensures latest { IfOk result (λ out. map_list deref_pair out.items
        ≡ filter (λ x. same_text client.now x.1.client) (latest (map.entries entries.now))) }
    ensures none { filter (λ x. same_text client.now x.1.client) (latest (map.entries entries.now)) ≡ []
        → IsOk result }
{
    let mut out = Vec::new(alloc);
    for (dot, entry) in entries.iter() {
        if is_live_of(entries, *dot, entry, client) {
            out.push((dot, entry))?;
        }
    }
    Ok(out)
}

// Whether each entry is the latest of its client and filter. They are counted, and none is looked at.
fn are_all_latest(entries: &EntryMap) -> bool
    ensures { result ≡ list_all (is_latest (map.entries entries.now)) (map.entries entries.now) }
{
    entries.live() == entries.len()
}

// Adds the latest entries of each client and filter that are at the dots, rising by these. Only such entries take memory.
fn add_latest<'a>(
    out: &mut Vec<&'a Entry>,
    entries: &'a EntryMap,
    dots: &DotSet,
) -> Result<(), NoMemory>
    ensures latest { OnOk result (map_list (λ r. r.now) out.new.items
        ≡ map_list (λ r. r.now) out.old.items ++ latest_of_dots entries.now dots.now) }
    ensures none { latest_of_dots entries.now dots.now ≡ [] → IsOk result }
{
    let all_latest = are_all_latest(entries);
    for dot in dots.iter() {
        let Some(entry) = entries.get(*dot) else {
            continue;
        };
        if all_latest || is_the_latest(entries, *dot, entry) {
            out.push(entry)?;
        }
    }
    Ok(())
}

/// The latest entries of each client and filter whose filter matches the name, rising by their dots. Only these take memory.
pub fn latest_matching<'a>(
    alloc: Global,
    entries: &'a EntryMap,
    name: &TopicName,
) -> Result<Vec<&'a Entry>, NoMemory>
    ensures selected { IfOk result (λ out. IsSelected (λ e. Matches e.filter name.now)
        (map_list (λ x. x.1) (latest (map.entries entries.now))) (map_list (λ r. r.now) out.items)) }
    ensures none { IsSelected (λ e. Matches e.filter name.now)
        (map_list (λ x. x.1) (latest (map.entries entries.now))) [] → IsOk result }
{
    let found = entries.matching(name)?;
    let mut out = Vec::new(alloc);
    add_latest(&mut out, entries, found.dots())?;
    Ok(out)
}

/// The live subscriptions to plain filters that match a name, and of each shared filter that does that of the client whose turn it
/// is.
#[derive(Drop)]
pub struct MatchingApart<'a> {
    pub plain: Vec<&'a Entry>,
    pub in_turn: Vec<&'a Entry>,
}

// Adds the latest entries to a shared filter of the client whose turn it is.
fn add_in_turn<'a>(
    out: &mut Vec<&'a Entry>,
    entries: &'a EntryMap,
    filter: &Filter,
    turn: u64,
) -> Result<(), NoMemory>
    requires { IsShared filter.now }
    ensures { OnOk result (map_list (λ r. r.now) out.new.items
        ≡ map_list (λ r. r.now) out.old.items ++ in_turn turn (to_filter filter.now (latest_entries entries.now))) }
{
    let Some(client) = entries.in_turn(filter, turn) else {
        return Ok(());
    };
    match entries.standing(client, Some(filter)) {
        None => Ok(()),
        Some(dots) => add_latest(out, entries, dots),
    }
}

// The latest entries to each of the shared filters of the client whose turn it is. Only these filters take memory.
fn all_in_turn<'a>(
    alloc: Global,
    entries: &'a EntryMap,
    groups: &[&Filter],
    turn: u64,
) -> Result<Vec<&'a Entry>, NoMemory>
    requires { AllByRecursion IsShared (map_list (λ r. r.now) groups.now) }
    ensures in_turn { IfOk result (λ out. map_list (λ r. r.now) out.items
        ≡ flat_map (λ f. in_turn turn (to_filter f (latest_entries entries.now))) (map_list (λ r. r.now) groups.now)) }
    ensures memory { OnErr result (0 < length groups.now) }
{
    let mut out = Vec::new(alloc);
    for filter in groups {
        add_in_turn(&mut out, entries, *filter, turn)?;
    }
    Ok(out)
}

/// The latest entries of each client and filter: those to plain filters that match the name, rising by their dots, and of each
/// shared filter that does those of the client whose turn it is. Only where one matches it takes memory.
pub fn latest_apart<'a>(
    alloc: Global,
    entries: &'a EntryMap,
    name: &TopicName,
    turn: u64,
) -> Result<MatchingApart<'a>, NoMemory>
    ensures plain { IfOk result (λ out. IsSelected (IsPlainFor name.now)
        (latest_entries entries.now) (map_list (λ r. r.now) out.plain.items)) }
    ensures in_turn { IfOk result (λ out. AreInTurn turn name.now
        (latest_entries entries.now) (map_list (λ r. r.now) out.in_turn.items)) }
    ensures none { IsSelected (λ e. Matches e.filter name.now) (latest_entries entries.now) [] → IsOk result }
{
    let found = entries.apart(name)?;
    let mut plain = Vec::new(alloc);
    add_latest(&mut plain, entries, found.plain.dots())?;
    let in_turn = all_in_turn(alloc, entries, found.groups.as_slice(), turn)?;
    Ok(MatchingApart { plain, in_turn })
}
