//! Topic filters, plain and shared.

ghost use Rattle.std.specs.Prelude.{◌≡◌, ◌≢◌, ◌⊎◌, ◌↔◌, IfOk, IfErr, IsTrue, MatchOption, List, [], ℕ, drop};
ghost use Rattle.mqtt_fields.specs.Numbers.{IsText};
ghost use Rattle.mqtt_topics.specs.Levels.{levels, HasWildcard, ArePlaced};
ghost use Rattle.mqtt_topics.specs.Topics.{IsFilter, IsFilterFault, IsShared, share_name, share_filter, filter_part};
ghost use Rattle.mqtt_topics.specs.Matching.{LevelsMatch, Matches, BeginsWithWildcard, BeginsWithDollar};

use crate::fault::TopicFault;
use crate::levels::{Levels, are_placed, has_wildcard};
use crate::name::TopicName;
use mqtt_fields::{NoMemory, Text};
use std::alloc::Global;
use std::marker::Model;

/// What stands before the share name of a shared filter (MQTT 5.0, 4.8.2).
const SHARE: &str = "$share/";

/// The share name and the filter of a shared filter; an empty filter where no `/` ends the name.
fn share_of(text: &str) -> Option<(&str, &str)>
    ensures { MatchOption result (IsShared text.now → ⊥) (λ x. IsShared text.now × (x.0.now ≡ share_name text.now) × (x.1.now ≡ share_filter text.now)) }
{
    let share = text.strip_prefix(SHARE)?;
    Some(share.split_once('/').unwrap_or((share, "")))
}

/// The part of a filter by which it matches.
fn part_of(text: &str) -> &str
    ensures { result.now ≡ filter_part text.now }
{
    share_of(text).map_or(text, |(_, part)| part)
}

fn begins_with_wildcard(text: &str) -> bool
    ensures { IsTrue result ↔ BeginsWithWildcard text.now }
{
    text.starts_with("#") || text.starts_with("+")
}

/// A topic filter, plain or shared (MQTT 5.0, 4.7 and 4.8.2).
#[derive(Debug, Drop, PartialEq, Eq, PartialOrd, Ord)]
pub struct Filter {
    text: Text,
}

impl Model for Filter {
    ghost Value = { List ℕ };

    ghost view = { λ f. f.text };

    ghost invariant = { λ f. IsFilter f.text };

    ghost inverse = { λ text. record { text = text } };
}

/// Whether a filter's levels match a name's.
fn levels_match(filter: &str, name: &str) -> bool
    requires { ArePlaced (levels filter.now) }
    ensures { IsTrue result ↔ LevelsMatch (levels filter.now) (levels name.now) }
{
    let mut names = Levels::of(name);
    for level in Levels::of(filter) {
        if level == "#" {
            return true;
        }
        let Some(own) = names.next() else {
            return false;
        };
        if level != "+" && level != own {
            return false;
        }
    }
    names.next().is_none()
}

impl Filter {
    /// The text as a topic filter. Its fault is found before memory is asked for.
    pub fn parse(alloc: Global, text: &str) -> Result<Filter, TopicFault>
        requires { IsText text.now }
        ensures filter { IfOk result (λ f. (f ≡ text.now) × IsFilter text.now) }
        ensures fault { IfErr result (λ e. IsFilterFault text.now e ⊎ ((e ≡ TopicFault.NoMemory) × IsFilter text.now)) }
    {
        if text.is_empty() {
            return Err(TopicFault::Empty);
        }
        let part = match share_of(text) {
            Some((name, part)) => {
                if name.is_empty() || has_wildcard(name) || part.is_empty() {
                    return Err(TopicFault::BadShare);
                }
                part
            }
            None => text,
        };
        if !are_placed(part) {
            return Err(TopicFault::Wildcard);
        }
        let Ok(text) = Text::new(alloc, text) else {
            return Err(TopicFault::NoMemory);
        };
        Ok(Filter { text })
    }

    pub fn as_str(&self) -> &str
        ensures same { result.now ≡ self.now }
        ensures filter { IsFilter self.now }
    {
        self.text.as_str()
    }

    /// The filter as a text, by which it is written.
    pub fn as_text(&self) -> &Text
        ensures same { result.now ≡ self.now }
        ensures filter { IsFilter self.now }
    {
        &self.text
    }

    /// The share name of a shared filter.
    pub fn group(&self) -> Option<&str>
        ensures { MatchOption result (IsShared self.now → ⊥) (λ g. IsShared self.now × (g.now ≡ share_name self.now)) }
    {
        share_of(self.text.as_str()).map(|(name, _)| name)
    }

    /// Whether the filter matches the name (MQTT 5.0, 4.7): in one pass over both.
    pub fn matches(&self, name: &TopicName) -> bool
        ensures { IsTrue result ↔ Matches self.now name.now }
    {
        let part = part_of(self.text.as_str());
        let name = name.as_str();
        if name.starts_with("$") && begins_with_wildcard(part) {
            return false;
        }
        levels_match(part, name)
    }

    /// The same filter once more.
    pub fn copy(&self, alloc: Global) -> Result<Filter, NoMemory>
        ensures { IfOk result (λ f. f ≡ self.now) }
    {
        let text = self.text.copy(alloc)?;
        Ok(Filter { text })
    }
}
