//! Filters of rules.

ghost use Rattle.std.specs.Prelude.{◌≡◌};
ghost use Rattle.std.specs.List.{list_any};
ghost use Rattle.mqtt_topics.specs.Levels.{levels};
ghost use Rattle.door_users.specs.Outcomes.{Gives};
ghost use Rattle.door_users.specs.RuleLines.{are_places, filter_in, is_percent, pattern_in, plain_in};

use crate::account::text_of;
use crate::fault::{LineFlaw, Unread};
use mqtt_fields::Text;
use mqtt_topics::{Filter, Levels, TopicFault};
use std::alloc::Global;

/// A filter that a text is, if it is one and isn't shared.
#[tactic(auto, using(crate::proofs::FilterLaws::plain_filter, crate::proofs::FilterLaws::shared_filter, crate::proofs::FilterLaws::no_filter))]
fn plain_filter(alloc: Global, text: &Text) -> Result<Filter, Unread>
    ensures { Gives (λ f. f) result (plain_in text.now) }
{
    match Filter::parse(alloc, text.as_str()) {
        Ok(filter) => match filter.group() {
            Some(_) => Err(Unread::Flaw(LineFlaw::BadFilter)),
            None => Ok(filter),
        },
        Err(fault) => {
            if fault == TopicFault::NoMemory {
                return Err(Unread::NoMemory);
            }
            Err(Unread::Flaw(LineFlaw::BadFilter))
        }
    }
}

/// The filter of a rule.
pub(crate) fn filter_of(alloc: Global, text: &str) -> Result<Filter, Unread>
    ensures { Gives (λ f. f) result (filter_in text.now) }
{
    let text = text_of(alloc, text, LineFlaw::BadFilter)?;
    plain_filter(alloc, &text)
}

/// Whether a level has a `%`.
fn has_percent(level: &str) -> bool
    ensures { result ≡ list_any is_percent level.now }
{
    level.as_bytes().iter().any(|b| *b == b'%')
}

/// Whether each level with a `%` is the place of a name.
fn are_places(filter: &str) -> bool
    ensures { result ≡ are_places (levels filter.now) }
{
    for level in Levels::of(filter) {
        if has_percent(level) && level != "%u" && level != "%c" {
            return false;
        }
    }
    true
}

/// The filter of a pattern.
pub(crate) fn pattern_of(alloc: Global, text: &str) -> Result<Filter, Unread>
    ensures { Gives (λ f. f) result (pattern_in text.now) }
{
    let filter = filter_of(alloc, text)?;
    if !are_places(filter.as_str()) {
        return Err(Unread::Flaw(LineFlaw::BadPlace));
    }
    Ok(filter)
}
