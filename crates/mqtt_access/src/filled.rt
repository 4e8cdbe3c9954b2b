//! The levels of a rule's filter, with names in the places that it leaves for them.

ghost use Rattle.std.specs.Prelude.{◌≡◌, None};
ghost use Rattle.std.specs.List.{list_any};
ghost use Rattle.mqtt_topics.specs.Levels.{levels};
ghost use Rattle.mqtt_access.specs.Filled.{filled_place, filter_levels, first_level, has_level, is_level_name, is_special};

use mqtt_topics::{Filter, Levels};

/// The place of the user name, and that of the client identifier.
pub(crate) const USER_PLACE: &str = "%u";

pub(crate) const CLIENT_PLACE: &str = "%c";

/// The names that fill the places of a pattern.
#[derive(Clone, Copy)]
pub(crate) struct Names<'a> {
    pub(crate) user: &'a str,
    pub(crate) client: &'a str,
}

/// A rule's filter, for a client: with its names, where it has places for them.
#[derive(Clone, Copy)]
pub(crate) struct RuleFilter<'a> {
    pub(crate) filter: &'a str,
    pub(crate) names: Option<Names<'a>>,
}

/// A level, with a name in its place.
fn filled<'a>(names: Option<Names<'a>>, level: &'a str) -> &'a str
    ensures { result.now ≡ filled_place names.entry level.now }
{
    match names {
        None => level,
        Some(names) => {
            if level == USER_PLACE {
                names.user
            } else if level == CLIENT_PLACE {
                names.client
            } else {
                level
            }
        }
    }
}

/// The levels of a rule's filter, from left to right.
#[derive(Drop)]
pub(crate) struct FilledLevels<'a> {
    levels: Levels<'a>,
    names: Option<Names<'a>>,
}

impl<'a> Iterator for FilledLevels<'a> {
    ghost use Rattle.std.specs.Iterator.{YieldsFirstBy, item_count};
    ghost use Rattle.mqtt_access.specs.Filled.{filled_left};

    type Item = &'a str;

    ghost next_gives = { YieldsFirstBy (λ x. x.now) filled_left };

    ghost remaining = { item_count filled_left };

    fn next(&mut self) -> Option<&'a str> {
        let level = self.levels.next()?;
        Some(filled(self.names, level))
    }
}

impl<'a> RuleFilter<'a> {
    ghost use Rattle.mqtt_access.specs.Filled.{filled_left};

    /// A filter without places for names.
    pub(crate) fn plain(filter: &'a Filter) -> RuleFilter<'a>
        ensures levels { filter_levels result ≡ levels filter.now }
        ensures plain { result.names ≡ None }
    {
        RuleFilter {
            filter: filter.as_str(),
            names: None,
        }
    }

    /// Its levels.
    pub(crate) fn levels(self) -> FilledLevels<'a>
        ensures { filled_left result ≡ filter_levels self.entry }
    {
        FilledLevels {
            levels: Levels::of(self.filter),
            names: self.names,
        }
    }

    /// Its first level.
    pub(crate) fn first(self) -> &'a str
        ensures { result.now ≡ first_level (filter_levels self.entry) }
    {
        match self.levels().next() {
            Some(level) => level,
            None => "",
        }
    }
}

/// The first level of a text.
pub(crate) fn first_of(text: &str) -> &str
    ensures { result.now ≡ first_level (levels text.now) }
{
    match Levels::of(text).next() {
        Some(level) => level,
        None => "",
    }
}

/// Whether a filter has this level.
pub(crate) fn has_level(filter: &str, wanted: &str) -> bool
    ensures { result ≡ has_level wanted.now (levels filter.now) }
{
    for level in Levels::of(filter) {
        if level == wanted {
            return true;
        }
    }
    false
}

/// Whether a name may stand in a level of a filter.
pub(crate) fn is_level_name(name: &str) -> bool
    ensures { result ≡ is_level_name name.now }
{
    !name.is_empty() && !name.starts_with("$") && !has_special(name)
}

/// Whether a name has a separator or a wildcard.
fn has_special(name: &str) -> bool
    ensures { result ≡ list_any is_special name.now }
{
    name.as_bytes()
        .iter()
        .any(|b| *b == b'/' || *b == b'+' || *b == b'#')
}
