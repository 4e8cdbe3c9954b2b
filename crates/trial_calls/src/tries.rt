//! Maps by topic filter and by topic name.

use filter_trie::{FilterTrie, TopicTrie};
use mqtt_fields::Text;
use mqtt_topics::{Filter, TopicName};
use std::alloc::Global;
use trial_refusals::{Asking, Changing, Fault, Trial, ensure, try_asking, try_changing};

/// Each is a topic name, and a filter.
const NAMES: [&str; 14] = [
    "a/1", "a/2", "a/3", "a/4", "a/5", "a/6", "a/7", "b/1", "b/2", "b/3", "b/4", "b/5", "b/6",
    "b/7",
];

fn filter(alloc: Global, text: &str) -> Result<Filter, Fault> {
    let text = Text::new(alloc, text)?;
    let filter = Filter::parse(alloc, text.as_str())?;
    Ok(filter)
}

fn name(alloc: Global, text: &str) -> Result<TopicName, Fault> {
    let text = Text::new(alloc, text)?;
    let name = TopicName::parse(alloc, text.as_str())?;
    Ok(name)
}

fn filters(alloc: Global) -> Result<Vec<Filter>, Fault> {
    let mut filters = Vec::new(alloc);
    for text in NAMES {
        let filter = filter(alloc, text)?;
        filters.push(filter)?;
    }
    Ok(filters)
}

fn names(alloc: Global) -> Result<Vec<TopicName>, Fault> {
    let mut names = Vec::new(alloc);
    for text in NAMES {
        let name = name(alloc, text)?;
        names.push(name)?;
    }
    Ok(names)
}

/// What each filter and name is given.
const VALUE: u8 = 7;

/// What an insertion answers that was to be of a new key.
fn is_new(answer: Result<Option<u8>, u8>) -> Result<(), Fault> {
    match answer {
        Ok(None) => Ok(()),
        Err(VALUE) => Err(Fault::NoMemory),
        _ => Err(Fault::Other),
    }
}

/// Values are put at filters.
#[derive(Drop)]
struct FilterInsertion {
    trie: FilterTrie<u8>,
    filters: Vec<Filter>,
    /// How many were put.
    made: usize,
}

impl FilterInsertion {
    /// Whether just the first ones have a value.
    fn is_so_far(&self) -> bool {
        for (at, filter) in self.filters.iter().enumerate() {
            if self.trie.get(filter).is_some() != (at < self.made) {
                return false;
            }
        }
        true
    }
}

impl Changing for FilterInsertion {
    fn make(&mut self, alloc: Global) -> Result<(), Fault> {
        for at in self.made..self.filters.len() {
            let Some(filter) = self.filters.get(at) else {
                return Err(Fault::Other);
            };
            let filter = filter.copy(alloc)?;
            is_new(self.trie.insert(filter, VALUE))?;
            self.made = at.saturating_add(1);
        }
        Ok(())
    }

    fn is_as_before(&mut self) -> bool {
        self.is_so_far()
    }

    fn is_made(&mut self) -> bool {
        self.made == NAMES.len() && self.is_so_far()
    }
}

/// Tries to put values at filters.
pub fn try_filter_insertion(alloc: Global, number: usize) -> Trial {
    let filters = filters(alloc)?;
    let trie = FilterTrie::new(alloc);
    try_changing(
        alloc,
        number,
        &mut FilterInsertion {
            trie,
            filters,
            made: 0,
        },
    )
}

/// Values are put at topic names.
#[derive(Drop)]
struct NameInsertion {
    trie: TopicTrie<u8>,
    names: Vec<TopicName>,
    /// How many were put.
    made: usize,
}

impl NameInsertion {
    /// Whether just the first ones have a value.
    fn is_so_far(&self) -> bool {
        for (at, name) in self.names.iter().enumerate() {
            if self.trie.get(name).is_some() != (at < self.made) {
                return false;
            }
        }
        true
    }
}

impl Changing for NameInsertion {
    fn make(&mut self, alloc: Global) -> Result<(), Fault> {
        for at in self.made..self.names.len() {
            let Some(name) = self.names.get(at) else {
                return Err(Fault::Other);
            };
            let name = name.copy(alloc)?;
            is_new(self.trie.insert(name, VALUE))?;
            self.made = at.saturating_add(1);
        }
        Ok(())
    }

    fn is_as_before(&mut self) -> bool {
        self.is_so_far()
    }

    fn is_made(&mut self) -> bool {
        self.made == NAMES.len() && self.is_so_far()
    }
}

/// Tries to put values at topic names.
pub fn try_name_insertion(alloc: Global, number: usize) -> Trial {
    let names = names(alloc)?;
    let trie = TopicTrie::new(alloc);
    try_changing(
        alloc,
        number,
        &mut NameInsertion {
            trie,
            names,
            made: 0,
        },
    )
}

/// Filters are asked for that match a name.
#[derive(Drop)]
struct Matching {
    trie: FilterTrie<u8>,
    name: TopicName,
}

impl Asking for Matching {
    fn ask(&self, _alloc: Global) -> Result<(), Fault> {
        let found = self.trie.matching(&self.name)?;
        ensure(found.len() == 5)
    }
}

/// Tries to ask which filters match `a/b`: of these all but the first two.
pub fn try_filters_matching(alloc: Global, number: usize) -> Trial {
    let mut trie = FilterTrie::new(alloc);
    for text in ["b", "a", "#", "a/#", "a/+", "+/b", "a/b"] {
        let filter = filter(alloc, text)?;
        is_new(trie.insert(filter, VALUE))?;
    }
    let name = name(alloc, "a/b")?;
    try_asking(alloc, number, &Matching { trie, name })
}

/// Topic names are asked for that match a filter.
#[derive(Drop)]
struct Matched {
    trie: TopicTrie<u8>,
    filter: Filter,
}

impl Asking for Matched {
    fn ask(&self, _alloc: Global) -> Result<(), Fault> {
        let found = self.trie.matching(&self.filter)?;
        ensure(found.len() == 7)
    }
}

/// Tries to ask which names match `b/+`: half of them.
pub fn try_names_matching(alloc: Global, number: usize) -> Trial {
    let mut trie = TopicTrie::new(alloc);
    for text in NAMES {
        let name = name(alloc, text)?;
        is_new(trie.insert(name, VALUE))?;
    }
    let filter = filter(alloc, "b/+")?;
    try_asking(alloc, number, &Matched { trie, filter })
}
