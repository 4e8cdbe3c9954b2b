//! Walks down the levels of a key, which find where the next keys begin that may match.

ghost use Rattle.std.specs.Prelude.{◌≡◌, ◌≤◌, List, ℕ, length};
ghost use Rattle.mqtt_topics.specs.Levels.{levels};
ghost use Rattle.mqtt_topics.specs.Matching.{LevelsMatch};
ghost use Rattle.filter_trie.specs.Search.Seeking.{IsNext, deeper};
ghost use Rattle.filter_trie.specs.Search.Steps.{some_step, some_bound, Seeks};

use crate::steps::{
    Bound, Seek, Step, filter_step, first_level, level_step, parent_step, topic_step,
};

/// The bound at the rest of a key, or else the one before.
fn bound_at<'a>(
    key: &str,
    rest: &str,
    step: Option<Step<'a>>,
    best: Option<Bound<'a>>,
) -> Option<Bound<'a>>
    requires { length rest.now ≤ length key.now }
    ensures { some_bound key.now result
        ≡ deeper key.now rest.now (some_step step.entry) (some_bound key.now best.entry) }
{
    let Some(step) = step else {
        return best;
    };
    Some(Bound {
        start: key.len() - rest.len(),
        step,
    })
}

/// Where the filters after a key begin that may match the name by their levels.
pub(crate) fn filter_bound<'a>(key: &'a str, name: &'a str) -> Option<Bound<'a>>
    ensures { IsNext (λ f. LevelsMatch (levels f) (levels name.now)) key.now (some_bound key.now result) }
{
    let mut best = None;
    let mut rest = key;
    let mut names = name;
    loop {
        let (level, later) = first_level(rest);
        let (own, further) = first_level(names);
        best = bound_at(key, rest, filter_step(own, rest), best);
        let Some(later) = later else {
            return best;
        };
        if level != "+" && level != own {
            return best;
        }
        let Some(further) = further else {
            return bound_at(key, later, parent_step(later), best);
        };
        rest = later;
        names = further;
    }
}

/// Where the names after a key begin that the filter may match by its levels.
pub(crate) fn topic_bound<'a>(filter: &'a str, key: &'a str) -> Seek<'a>
    ensures { Seeks (λ n. LevelsMatch (levels filter.now) (levels n)) key.now result }
{
    let mut best = None;
    let mut rest = key;
    let mut filters = filter;
    loop {
        let (level, later) = first_level(rest);
        let (own, further) = first_level(filters);
        if own == "#" {
            return Seek::Next;
        }
        let Some(later) = later else {
            if own == "+" {
                return Seek::Next;
            }
            return Seek::To(bound_at(key, rest, level_step(own, rest), best));
        };
        best = bound_at(key, rest, topic_step(own, level, later, rest), best);
        if own != "+" && own != level {
            return Seek::To(best);
        }
        let Some(further) = further else {
            return Seek::To(best);
        };
        rest = later;
        filters = further;
    }
}
