//! Rules' filters against topics and against the filters of subscriptions.

ghost use Rattle.std.specs.Prelude.{◌≡◌, MatchOption, false};
ghost use Rattle.std.specs.Option.{option_copied};
ghost use Rattle.mqtt_topics.specs.Levels.{is_wildcard, levels};
ghost use Rattle.mqtt_topics.specs.Topics.{IsShared, filter_part, share_filter};
ghost use Rattle.mqtt_access.specs.Filled.{filled_left, filter_levels};
ghost use Rattle.mqtt_access.specs.Comparing.{after_level, begins_alike, begins_wild, behind_byte, cover, covers, is_surely, is_wild, matches_topic, meet, meets, name_matches, opened};

use crate::filled::{FilledLevels, RuleFilter, first_of};
use mqtt_topics::Levels;

/// What stands before the share name of a shared filter (MQTT 5.0, 4.8.2).
const SHARE: &str = "$share/";

/// The filter of a shared filter; an empty one where no `/` ends its name.
fn share_filter_of(text: &str) -> Option<&str>
    ensures { MatchOption result (IsShared text.now → ⊥) (λ x. IsShared text.now × (x.now ≡ share_filter text.now)) }
{
    let share = text.strip_prefix(SHARE)?;
    match share.split_once('/') {
        Some((_, filter)) => Some(filter),
        None => Some(""),
    }
}

/// The part of a filter by which it matches.
pub(crate) fn part_of(text: &str) -> &str
    ensures { result.now ≡ filter_part text.now }
{
    match share_filter_of(text) {
        Some(filter) => filter,
        None => text,
    }
}

fn is_wild(level: &str) -> bool
    ensures { result ≡ is_wild level.now }
{
    level == "#" || level == "+"
}

pub(crate) fn is_wildcard(byte: u8) -> bool
    ensures { result ≡ is_wildcard byte }
{
    byte == b'#' || byte == b'+'
}

fn begins_wild(bytes: &[u8]) -> bool
    ensures { result ≡ begins_wild bytes.now }
{
    match bytes {
        [] => false,
        [first, ..] => is_wildcard(*first),
    }
}

/// Whether a topic begins as a filter does up to its first wildcard, which it does where the filter matches it.
fn begins_alike(filter: &str, topic: &str) -> bool
    ensures { result ≡ begins_alike filter.now topic.now }
{
    let mut rest = topic.as_bytes();
    let mut left = filter.as_bytes();
    while let [byte, more @ ..] = left {
        if is_wildcard(*byte) {
            return true;
        }
        let [first, later @ ..] = rest else {
            return *byte == b'/' && begins_wild(more);
        };
        if byte != first {
            return false;
        }
        left = more;
        rest = later;
    }
    rest.is_empty()
}

/// What follows the first level of a topic, with the separator in front of it.
fn after_level(topic: &[u8]) -> &[u8]
    ensures { result.now ≡ after_level topic.now }
{
    let mut rest = topic;
    while let [first, later @ ..] = rest {
        if *first == b'/' {
            return rest;
        }
        rest = later;
    }
    rest
}

/// What is left of a topic behind a byte of a filter that surely matches: `+` behind a separator takes the rest of a level, another byte itself.
fn behind_byte(behind: bool, byte: u8, topic: &[u8]) -> Option<&[u8]>
    ensures { option_copied result ≡ behind_byte behind byte topic.now }
{
    if byte == b'+' {
        return if behind {
            Some(after_level(topic))
        } else {
            None
        };
    }
    match topic {
        [] => None,
        [first, later @ ..] => { if byte == *first { Some(later) } else { None } }
    }
}

/// Whether a filter matches a topic for sure, as one pass over their bytes shows: the topic has the filter's bytes, and behind separators any level for a `+`, and
/// all that follows for a `#` at the end.
fn is_surely(filter: &str, topic: &str) -> bool
    ensures { result ≡ is_surely false filter.now topic.now }
{
    let mut rest = topic.as_bytes();
    let mut left = filter.as_bytes();
    let mut behind = false;
    while let [byte, more @ ..] = left {
        if *byte == b'#' {
            return behind && more.is_empty();
        }
        let Some(later) = behind_byte(behind, *byte, rest) else {
            return false;
        };
        behind = *byte == b'/';
        left = more;
        rest = later;
    }
    rest.is_empty()
}

/// Whether levels of a filter match those of a topic.
fn name_matches(rule: FilledLevels, topic: &str) -> bool
    ensures { result ≡ name_matches (filled_left rule.entry) (levels topic.now) }
{
    let mut names = Levels::of(topic);
    for level in rule {
        if level == "#" {
            return true;
        }
        let Some(name) = names.next() else {
            return false;
        };
        if level != "+" && level != name {
            return false;
        }
    }
    names.next().is_none()
}

/// Whether levels of a filter cover those of another.
fn cover(rule: FilledLevels, asked: &str) -> bool
    ensures { result ≡ cover (filled_left rule.entry) (levels asked.now) }
{
    let mut others = Levels::of(asked);
    for level in rule {
        if level == "#" {
            return true;
        }
        let Some(other) = others.next() else {
            return false;
        };
        if other == "#" || (level != "+" && level != other) {
            return false;
        }
    }
    others.next().is_none()
}

/// Whether levels of a filter meet those of another.
fn meet(rule: FilledLevels, asked: &str) -> bool
    ensures { result ≡ meet (filled_left rule.entry) (levels asked.now) }
{
    let mut others = Levels::of(asked);
    for level in rule {
        if level == "#" {
            return true;
        }
        let Some(other) = others.next() else {
            return false;
        };
        if other == "#" {
            return true;
        }
        if level != "+" && other != "+" && level != other {
            return false;
        }
    }
    match others.next() {
        Some(other) => other == "#",
        None => true,
    }
}

/// A filter that matches the same topics as this one, and isn't `#` alone.
fn opened(filter: &str) -> &str
    ensures { levels result.now ≡ opened (levels filter.now) }
{
    if filter == "#" { "+/#" } else { filter }
}

impl<'a> RuleFilter<'a> {
    /// Whether it matches a topic, by its levels.
    fn matches_levels(self, topic: &str) -> bool
        ensures { result ≡ matches_topic (filter_levels self.entry) topic.now }
    {
        name_matches(self.levels(), topic) && !(is_wild(self.first()) && topic.starts_with("$"))
    }

    /// Whether it matches a topic. Most filters without places for names are known by one pass over their bytes: their levels aren't looked at.
    #[tactic(auto, using(crate::proofs::Beginnings::unlike, crate::proofs::Surely::surely))]
    pub(crate) fn matches(self, topic: &str) -> bool
        ensures { result ≡ matches_topic (filter_levels self.entry) topic.now }
    {
        if self.names.is_none() && is_surely(self.filter, topic) {
            return true;
        }
        if self.names.is_none() && !begins_alike(self.filter, topic) {
            return false;
        }
        self.matches_levels(topic)
    }

    /// Whether it matches each topic that a filter matches, which isn't shared.
    pub(crate) fn covers(self, asked: &str) -> bool
        ensures { result ≡ covers (filter_levels self.entry) (levels asked.now) }
    {
        cover(self.levels(), opened(asked))
            && !(is_wild(self.first()) && first_of(asked).starts_with("$"))
    }

    /// Whether it matches some topic that a filter matches, which isn't shared.
    pub(crate) fn meets(self, asked: &str) -> bool
        ensures { result ≡ meets (filter_levels self.entry) (levels asked.now) }
    {
        let first = self.first();
        let other = first_of(asked);
        meet(self.levels(), asked)
            && !(is_wild(first) && other.starts_with("$"))
            && !(first.starts_with("$") && is_wild(other))
    }
}
