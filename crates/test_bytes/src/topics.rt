//! Examples of topic names and filters (MQTT 5.0, 4.7 and 4.8.2).

use crate::words::{halves, said};
use mqtt_fields::{NoMemory, Text};
use mqtt_topics::{Filter, TopicFault, TopicName};
use std::alloc::Global;
use std::cmp::Ordering;

fn name_of(alloc: Global, text: &str) -> Result<TopicName, TopicFault> {
    let Ok(text) = Text::new(alloc, text) else {
        return Err(TopicFault::NoMemory);
    };
    TopicName::parse(alloc, text.as_str())
}

fn filter_of(alloc: Global, text: &str) -> Result<Filter, TopicFault> {
    let Ok(text) = Text::new(alloc, text) else {
        return Err(TopicFault::NoMemory);
    };
    Filter::parse(alloc, text.as_str())
}

/// `yes` where the text is a topic name, or the name of its fault.
pub fn name(alloc: Global, text: &str) -> Result<String, NoMemory> {
    match name_of(alloc, text) {
        Ok(_) => said(alloc, "yes"),
        Err(fault) => Ok(format!(in alloc; "{fault:?}")?),
    }
}

/// `yes` where the text is a plain filter, `of` and the group of a shared one, or the name of its fault.
pub fn filter(alloc: Global, text: &str) -> Result<String, NoMemory> {
    match filter_of(alloc, text) {
        Ok(filter) => match filter.group() {
            Some(group) => Ok(format!(in alloc; "of {group}")?),
            None => said(alloc, "yes"),
        },
        Err(fault) => Ok(format!(in alloc; "{fault:?}")?),
    }
}

/// Whether the filter, the first word, matches the name, the second one.
pub fn matches(alloc: Global, words: &str) -> Result<String, NoMemory> {
    let (filter, name) = halves(words);
    let (Ok(filter), Ok(name)) = (filter_of(alloc, filter), name_of(alloc, name)) else {
        return said(alloc, "not a filter and a name");
    };
    let (Ok(filter), Ok(name)) = (filter.copy(alloc), name.copy(alloc)) else {
        return Err(NoMemory);
    };
    said(alloc, if filter.matches(&name) { "yes" } else { "no" })
}

/// How two texts, names or filters are ordered.
fn order_of(alloc: Global, kind: &str, first: &str, second: &str) -> Option<Ordering> {
    match kind {
        "text" => {
            let first = Text::new(alloc, first).ok()?;
            Some(first.cmp(&Text::new(alloc, second).ok()?))
        }
        "name" => {
            let first = name_of(alloc, first).ok()?;
            Some(first.cmp(&name_of(alloc, second).ok()?))
        }
        "filter" => {
            let first = filter_of(alloc, first).ok()?;
            Some(first.cmp(&filter_of(alloc, second).ok()?))
        }
        _ => None,
    }
}

/// Where the first of two texts, names or filters stands in their order: `before` the second, `beside` or `after` it.
pub fn order(alloc: Global, words: &str) -> Result<String, NoMemory> {
    let (kind, words) = halves(words);
    let (first, second) = halves(words);
    match order_of(alloc, kind, first, second) {
        Some(Ordering::Less) => said(alloc, "before"),
        Some(Ordering::Equal) => said(alloc, "beside"),
        Some(Ordering::Greater) => said(alloc, "after"),
        None => said(alloc, "not two of a kind"),
    }
}
