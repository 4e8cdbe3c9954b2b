//! What the list of all pairs gives.

use filter_trie::{FilterTrie, TopicTrie};
use mqtt_fields::Text;
use mqtt_topics::{Filter, TopicName};
use std::alloc::{AllocError, Global};
use std::process::Abort;

/// How many filters there are, and how many names.
const COUNT: usize = 500;

/// Levels of the names: empty, beginning with `$`, and with bytes on both sides of `#`, `+` and `/` in order.
const WORDS: [&str; 8] = ["", "a", "$s", "!", "a!", "-", "a-", "0"];

/// A number that looks arbitrary: a Lehmer sequence.
fn draw(seed: &mut u32, below: u32) -> u32 {
    *seed = *seed % 65_537 * 75 % 65_537;
    if below == 0 { 0 } else { *seed % below }
}

fn word(seed: &mut u32) -> &'static str {
    let place = draw(seed, 8) as usize;
    WORDS.get(place).copied().unwrap_or("")
}

fn spelled_name(alloc: Global, seed: &mut u32) -> Result<String, AllocError> {
    let mut text = String::new(alloc);
    text.push_str(word(seed))?;
    for _ in 0..draw(seed, 4) {
        text.push_str("/")?;
        text.push_str(word(seed))?;
    }
    Ok(text)
}

fn filter_word(seed: &mut u32) -> &'static str {
    if draw(seed, 3) == 0 { "+" } else { word(seed) }
}

fn spelled_filter(alloc: Global, seed: &mut u32) -> Result<String, AllocError> {
    let mut text = String::new(alloc);
    if draw(seed, 10) == 0 {
        text.push_str("$share/")?;
        text.push_str(word(seed))?;
        text.push_str("/")?;
    }
    for _ in 0..draw(seed, 4) {
        text.push_str(filter_word(seed))?;
        text.push_str("/")?;
    }
    text.push_str(if draw(seed, 4) == 0 {
        "#"
    } else {
        filter_word(seed)
    })?;
    Ok(text)
}

fn next_name(alloc: Global, seed: &mut u32) -> Option<TopicName> {
    let spelled = spelled_name(alloc, seed).ok()?;
    let text = Text::new(alloc, spelled.as_str()).ok()?;
    TopicName::parse(alloc, text.as_str()).ok()
}

fn next_filter(alloc: Global, seed: &mut u32) -> Option<Filter> {
    let spelled = spelled_filter(alloc, seed).ok()?;
    let text = Text::new(alloc, spelled.as_str()).ok()?;
    Filter::parse(alloc, text.as_str()).ok()
}

// Puts a name into both, if it is new.
fn put_name(rt: &impl Abort, alloc: Global, by_name: &mut ByName, name: TopicName) {
    let copy = name.copy(alloc).expect(rt, "memory");
    if by_name.trie.insert(copy, by_name.names.len()) == Ok(None) {
        by_name.names.push(name).expect(rt, "memory");
    }
}

fn put_filter(rt: &impl Abort, alloc: Global, by_filter: &mut ByFilter, filter: Filter) {
    let copy = filter.copy(alloc).expect(rt, "memory");
    if by_filter.trie.insert(copy, by_filter.filters.len()) == Ok(None) {
        by_filter.filters.push(filter).expect(rt, "memory");
    }
}

/// Names in a map, each with its place when it was drawn, and in a list.
#[derive(Drop)]
struct ByName {
    trie: TopicTrie<usize>,
    names: Vec<TopicName>,
}

/// Filters in a map, each with its place when it was drawn, and in a list.
#[derive(Drop)]
struct ByFilter {
    trie: FilterTrie<usize>,
    filters: Vec<Filter>,
}

// The list is in the order of bytes.
fn some_names(rt: &impl Abort, alloc: Global) -> ByName {
    let mut seed = 7;
    let mut by_name = ByName {
        trie: TopicTrie::new(alloc),
        names: Vec::new(alloc),
    };
    for _ in 0..100_000u32 {
        if by_name.names.len() == COUNT {
            break;
        }
        if let Some(name) = next_name(alloc, &mut seed) {
            put_name(rt, alloc, &mut by_name, name);
        }
    }
    by_name.names.sort().expect(rt, "memory");
    by_name
}

fn some_filters(rt: &impl Abort, alloc: Global) -> ByFilter {
    let mut seed = 11;
    let mut by_filter = ByFilter {
        trie: FilterTrie::new(alloc),
        filters: Vec::new(alloc),
    };
    for _ in 0..100_000u32 {
        if by_filter.filters.len() == COUNT {
            break;
        }
        if let Some(filter) = next_filter(alloc, &mut seed) {
            put_filter(rt, alloc, &mut by_filter, filter);
        }
    }
    by_filter.filters.sort().expect(rt, "memory");
    by_filter
}

/// How many filters match the name, if the list gives what the map gives.
fn filters_agree(rt: &impl Abort, by_filter: &ByFilter, name: &TopicName) -> Option<usize> {
    let found = by_filter.trie.matching(name).expect(rt, "memory");
    let mut place = 0usize;
    for filter in by_filter.filters.as_slice() {
        if filter.matches(name) {
            match found.get(place) {
                Some((same, _)) if same.as_str() == filter.as_str() => place += 1,
                _ => return None,
            }
        }
    }
    (place == found.len()).then_some(place)
}

fn names_agree(rt: &impl Abort, by_name: &ByName, filter: &Filter) -> Option<usize> {
    let found = by_name.trie.matching(filter).expect(rt, "memory");
    let mut place = 0usize;
    for name in by_name.names.as_slice() {
        if filter.matches(name) {
            match found.get(place) {
                Some((same, _)) if same.as_str() == name.as_str() => place += 1,
                _ => return None,
            }
        }
    }
    (place == found.len()).then_some(place)
}

// How many of the names some filter matches.
fn matched_names(rt: &impl Abort, by_filter: &ByFilter, names: &[TopicName]) -> usize {
    let mut some = 0usize;
    for name in names {
        let matching = filters_agree(rt, by_filter, name);
        assert!(rt; matching.is_some(), "of {}", name.as_str());
        some = some.saturating_add(usize::from(matching != Some(0)));
    }
    some
}

// How many of the filters match some name.
fn matching_filters(rt: &impl Abort, by_name: &ByName, filters: &[Filter]) -> usize {
    let mut some = 0usize;
    for filter in filters {
        let matching = names_agree(rt, by_name, filter);
        assert!(rt; matching.is_some(), "of {}", filter.as_str());
        some = some.saturating_add(usize::from(matching != Some(0)));
    }
    some
}

/// 500 filters and 500 names give what the list of all pairs gives.
#[test]
fn as_the_list_of_all_pairs(rt: HostRuntime) {
    let by_name = some_names(&rt, rt.alloc());
    let by_filter = some_filters(&rt, rt.alloc());
    let (names, filters) = (by_name.names.as_slice(), by_filter.filters.as_slice());
    assert_eq!(rt; (names.len(), filters.len()), (COUNT, COUNT));
    let matched = matched_names(&rt, &by_filter, names);
    let matching = matching_filters(&rt, &by_name, filters);
    assert!(rt; matched.saturating_add(matching) > 300);
    drop(by_name);
    drop(by_filter);
}
