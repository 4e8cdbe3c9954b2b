//! The key at which a walk over filters or names goes on.

ghost use Rattle.std.specs.Prelude.{◌≡◌, ◌==◌, ◌↔◌, ◌++◌, ◌∷◌, List, ℕ, not, take, codes, string_bytes, IfSome, MatchOption, IsTrue, IfOk, Some};
ghost use Rattle.std.specs.List.{list_all};
ghost use Rattle.mqtt_fields.specs.Numbers.{IsText};
ghost use Rattle.mqtt_topics.specs.Levels.{levels};
ghost use Rattle.mqtt_topics.specs.Topics.{IsShared, share_name, share_filter, filter_part};
ghost use Rattle.mqtt_topics.specs.Matching.{LevelsMatch, Matches, BeginsWithWildcard, BeginsWithDollar};
ghost use Rattle.filter_trie.specs.Search.Seeking.{IsBefore, IsNext, IsLevel};
ghost use Rattle.filter_trie.specs.Search.Steps.{step_text, bound_text, some_bound};
ghost use Rattle.filter_trie.specs.Search.Onward.{Leads, from_text};

use crate::steps::{Bound, Seek, Step, first_level, is_before, is_before_step};
use crate::walks::{filter_bound, topic_bound};
use mqtt_fields::LONGEST_STRING;
use mqtt_topics::{Filter, TopicName};
use std::alloc::Global;

/// Where a walk over keys goes on.
pub enum Onward<K> {
    /// At the next key.
    Next,
    /// At the first key from this one on.
    From(K),
    /// Nowhere.
    End,
}

/// The text with a bound after it. Nothing for want of memory, which leaves the walk at the next key.
fn with_bound(mut text: String, key: &str, bound: &Bound<'_>) -> Option<String>
    ensures { IfSome result (λ t. string_bytes t ≡ string_bytes text ++ bound_text key.now bound.now) }
{
    let (kept, _) = key.split_at_checked(bound.start)?;
    if text.push_str(kept).is_err() {
        return None;
    }
    if text.push_str(bound.step.level).is_err() {
        return None;
    }
    if text.push_str(bound.step.tail).is_err() {
        return None;
    }
    Some(text)
}

/// A shared filter, with the bound in its part.
fn with_share(alloc: Global, group: &str, part: &str, bound: &Bound<'_>) -> Option<String>
    ensures { IfSome result (λ t. string_bytes t
        ≡ codes "$share/" ++ (group.now ++ 47 ∷ bound_text part.now bound.now)) }
{
    let mut text = String::new(alloc);
    if text.push_str("$share/").is_err() {
        return None;
    }
    if text.push_str(group).is_err() {
        return None;
    }
    if text.push_str("/").is_err() {
        return None;
    }
    with_bound(text, part, bound)
}

/// The share name and the filter of a shared filter.
fn share_of(text: &str) -> Option<(&str, &str)>
    ensures { IfSome result (λ x. (text.now ≡ codes "$share/" ++ (x.0.now ++ 47 ∷ x.1.now)) × IsLevel x.0.now) }
{
    let rest = text.strip_prefix("$share/")?;
    let (group, part) = first_level(rest);
    Some((group, part?))
}

/// The filter of a shared filter, and any other filter itself.
fn part_of(filter: &str) -> &str
    ensures { result.now ≡ filter_part filter.now }
{
    match filter.strip_prefix("$share/") {
        None => filter,
        Some(share) => share.split_once('/').map_or("", |(_, part)| part),
    }
}

/// Where the parts after the part of a shared filter begin that may match the name, or a place past most of them.
fn share_bound<'a>(part: &'a str, name: &'a str) -> Option<Bound<'a>>
    ensures { IfSome result (λ b.
        IsNext (λ f. LevelsMatch (levels f) (levels name.now)) part.now (Some (bound_text part.now b))) }
{
    if let Some(bound) = filter_bound(part, name) {
        return Some(bound);
    }
    // U+10FFFF is the greatest character.
    let step = Step {
        level: "\u{10FFFF}",
        tail: "",
    };
    if is_before(part, step.level) {
        return Some(Bound { start: 0, step });
    }
    None
}

/// Where the filters after a shared one begin that may match the name.
fn shared_onward(alloc: Global, group: &str, part: &str, name: &str) -> Onward<String>
    requires { IsLevel group.now }
    ensures { Leads string_bytes (λ f. Matches f name.now) (codes "$share/" ++ (group.now ++ 47 ∷ part.now)) result }
{
    let Some(bound) = share_bound(part, name) else {
        return Onward::Next;
    };
    match with_share(alloc, group, part, &bound) {
        Some(text) => Onward::From(text),
        None => Onward::Next,
    }
}

fn onward_from(text: Option<String>) -> Onward<String>
    ensures { result ≡ from_text text }
{
    match text {
        Some(text) => Onward::From(text),
        None => Onward::Next,
    }
}

/// The text "$share", at which the shared filters begin.
fn share_text(alloc: Global) -> Option<String>
    ensures { IfSome result (λ t. string_bytes t ≡ codes "$share") }
{
    let mut text = String::new(alloc);
    if text.push_str("$share").is_err() {
        return None;
    }
    Some(text)
}

/// Where the filters after one that stands before "$share" begin that may match the name.
fn early_onward(alloc: Global, key: &str, name: &str) -> Onward<String>
    requires { IsBefore key.now (codes "$share") }
    ensures { Leads string_bytes (λ f. Matches f name.now) key.now result }
{
    let Some(bound) = filter_bound(key, name) else {
        return onward_from(share_text(alloc));
    };
    let Some(text) = with_bound(String::new(alloc), key, &bound) else {
        return Onward::Next;
    };
    if is_before(text.as_str(), "$share") {
        return Onward::From(text);
    }
    onward_from(share_text(alloc))
}

/// Where the filters after a key begin that may match the name.
fn filter_onward(alloc: Global, key: &str, name: &str) -> Onward<String>
    ensures { Leads string_bytes (λ f. Matches f name.now) key.now result }
{
    if let Some((group, part)) = share_of(key) {
        return shared_onward(alloc, group, part, name);
    }
    if is_before(key, "$share") {
        return early_onward(alloc, key, name);
    }
    if is_before(key, "$share0") {
        return Onward::Next;
    }
    match filter_bound(key, name) {
        Some(bound) => onward_from(with_bound(String::new(alloc), key, &bound)),
        None => Onward::End,
    }
}

fn begins_with_wildcard(text: &str) -> bool
    ensures { IsTrue result ↔ BeginsWithWildcard text.now }
{
    text.starts_with("#") || text.starts_with("+")
}

fn begins_with_dollar(text: &str) -> bool
    ensures { IsTrue result ↔ BeginsWithDollar text.now }
{
    text.starts_with("$")
}

/// The text after all that begin with `$`.
fn past_dollar(alloc: Global) -> Option<String>
    ensures { IfSome result (λ t. string_bytes t ≡ codes "%") }
{
    let mut text = String::new(alloc);
    if text.push_str("%").is_err() {
        return None;
    }
    Some(text)
}

/// Where the names after a key begin that the filter may match.
fn topic_onward(alloc: Global, filter: &str, key: &str) -> Onward<String>
    ensures { Leads string_bytes (λ n. Matches filter.now n) key.now result }
{
    let part = part_of(filter);
    if begins_with_dollar(key) && begins_with_wildcard(part) {
        return onward_from(past_dollar(alloc));
    }
    match topic_bound(part, key) {
        Seek::Next => Onward::Next,
        Seek::To(None) => Onward::End,
        Seek::To(Some(bound)) => onward_from(with_bound(String::new(alloc), key, &bound)),
    }
}

/// Whether no byte is 0.
fn has_no_zero(text: &str) -> bool
    ensures { result ≡ list_all (λ b. not (b == 0)) text.now }
{
    text.as_bytes().iter().all(|b| *b != 0)
}

/// Whether a text can be a UTF-8 Encoded String (MQTT 5.0, 1.5.4).
fn is_text(text: &str) -> bool
    ensures { IsTrue result → IsText text.now }
{
    text.len() <= LONGEST_STRING && has_no_zero(text)
}

/// The text as a filter, if it is one and memory isn't refused.
pub(crate) fn filter_at(alloc: Global, text: &str) -> Option<Filter>
    ensures { IfSome result (λ f. f ≡ text.now) }
{
    if !is_text(text) {
        return None;
    }
    match Filter::parse(alloc, text) {
        Ok(filter) => Some(filter),
        Err(_) => None,
    }
}

/// The text as a topic name, in the same way.
fn name_at(alloc: Global, text: &str) -> Option<TopicName>
    ensures { IfSome result (λ n. n ≡ text.now) }
{
    if !is_text(text) {
        return None;
    }
    match TopicName::parse(alloc, text) {
        Ok(name) => Some(name),
        Err(_) => None,
    }
}

/// Where a walk over filters that asks what matches a name goes on past a filter.
pub(crate) fn past_filter(alloc: Global, key: &Filter, name: &TopicName) -> Onward<Filter>
    ensures { Leads (λ f. f) (λ f. Matches f name.now) key.now result }
{
    match filter_onward(alloc, key.as_str(), name.as_str()) {
        Onward::Next => Onward::Next,
        Onward::End => Onward::End,
        Onward::From(text) => match filter_at(alloc, text.as_str()) {
            Some(filter) => Onward::From(filter),
            None => Onward::Next,
        },
    }
}

/// Where a walk over names, in the order of their bytes, that asks what a filter matches goes on past a name.
pub fn past_name(alloc: Global, filter: &Filter, key: &TopicName) -> Onward<TopicName>
    ensures { Leads (λ n. n) (λ n. Matches filter.now n) key.now result }
{
    match topic_onward(alloc, filter.as_str(), key.as_str()) {
        Onward::Next => Onward::Next,
        Onward::End => Onward::End,
        Onward::From(text) => match name_at(alloc, text.as_str()) {
            Some(name) => Onward::From(name),
            None => Onward::Next,
        },
    }
}
