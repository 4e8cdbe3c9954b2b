//! The levels of a text, and the wildcards in it (MQTT 5.0, 4.7.1).

ghost use Rattle.std.specs.Prelude.{◌≡◌, ◌↔◌, ◌∷◌, IsTrue};
ghost use Rattle.std.specs.List.{list_any};
ghost use Rattle.mqtt_topics.specs.Levels.{levels, rest_levels, is_wildcard, ArePlaced};

/// The first level, and the text after its separator if there is one.
fn first_level(text: &str) -> (&str, Option<&str>)
    ensures { levels text.now ≡ result.0.now ∷ rest_levels result.1 }
{
    match text.split_once('/') {
        Some((level, rest)) => (level, Some(rest)),
        None => (text, None),
    }
}

/// The levels of a text, from left to right. There is at least one, and a level may be empty.
#[derive(Drop)]
pub struct Levels<'a> {
    rest: Option<&'a str>,
}

impl<'a> Levels<'a> {
    ghost use Rattle.mqtt_topics.specs.Levels.{levels_left};

    pub fn of(text: &'a str) -> Levels<'a>
        ensures { levels_left result ≡ levels text.now }
    {
        Levels { rest: Some(text) }
    }
}

impl<'a> Iterator for Levels<'a> {
    ghost use Rattle.std.specs.Iterator.{YieldsFirstBy, item_count};
    ghost use Rattle.mqtt_topics.specs.Levels.{levels_left};

    type Item = &'a str;

    ghost next_gives = { YieldsFirstBy (λ x. x.now) levels_left };

    ghost remaining = { item_count levels_left };

    fn next(&mut self) -> Option<&'a str> {
        let (level, rest) = first_level(self.rest?);
        self.rest = rest;
        Some(level)
    }
}

/// Whether the text has a `#` or a `+`.
pub fn has_wildcard(text: &str) -> bool
    ensures { result ≡ list_any is_wildcard text.now }
{
    text.as_bytes().iter().any(|b| *b == b'#' || *b == b'+')
}

/// Whether each wildcard fills its level, and `#` stands in the last level alone.
pub fn are_placed(text: &str) -> bool
    ensures { IsTrue result ↔ ArePlaced (levels text.now) }
{
    let mut levels = Levels::of(text);
    while let Some(level) = levels.next() {
        if level == "#" {
            return levels.next().is_none();
        }
        if level != "+" && has_wildcard(level) {
            return false;
        }
    }
    true
}
