//! Where a bound leaves its key: at a level, with the least text there that comes later.

ghost use Rattle.std.specs.Option.{option_copied};
ghost use Rattle.std.specs.Prelude.{◌≡◌, ◌≢◌, ◌≤◌, ◌<◌, ◌↔◌, ◌⊎◌, ◌∷◌, ◌++◌, [], List, ℕ, Some, None, IsTrue, length, option_map, codes};
ghost use Rattle.mqtt_topics.specs.Matching.{LevelsMatch};
ghost use Rattle.mqtt_topics.specs.Levels.{levels, multi_level};
ghost use Rattle.filter_trie.specs.Search.Seeking.{IsBefore, IsFrom, IsPast, IsLevel, IsCut, IsAt, IsWild, ShareLevel, deeper};
ghost use Rattle.filter_trie.specs.Search.Steps.{step_text, some_step, some_bound};

/// A level and what follows it.
#[derive(Clone, Copy)]
pub(crate) struct Step<'a> {
    pub level: &'a str,
    pub tail: &'static str,
}

/// A place in a key, and the step that is taken there in place of the key's rest.
#[derive(Clone, Copy)]
pub(crate) struct Bound<'a> {
    pub start: usize,
    pub step: Step<'a>,
}

/// Where a walk over keys goes on.
pub(crate) enum Seek<'a> {
    /// At the next key.
    Next,
    /// At the first key from the bound on; nowhere without one.
    To(Option<Bound<'a>>),
}

/// Whether one text stands before the other in the order of bytes.
pub(crate) fn is_before(one: &str, other: &str) -> bool
    ensures { IsTrue result ↔ IsBefore one.now other.now }
{
    one < other
}

/// The first level, and the text after its separator if there is one.
pub(crate) fn first_level(text: &str) -> (&str, Option<&str>)
    ensures { IsCut text.now result.0.now result.1 }
{
    match text.split_once('/') {
        Some((level, rest)) => (level, Some(rest)),
        None => (text, None),
    }
}

/// Whether the text stands before the step.
pub(crate) fn is_before_step(text: &str, step: &Step<'_>) -> bool
    ensures { IsTrue result ↔ IsBefore text.now (step_text step.now) }
{
    match text.strip_prefix(step.level) {
        Some(rest) => is_before(rest, step.tail),
        None => is_before(text, step.level),
    }
}

/// The least text after the rest of a key that is the level, or begins with the level and its separator.
pub(crate) fn level_step<'a>(level: &'a str, rest: &str) -> Option<Step<'a>>
    requires { IsLevel level.now }
    ensures past { IsPast rest.now (some_step result) }
    ensures covers { (t : List ℕ) → IsAt level.now t → IsBefore rest.now t
        → IsFrom (some_step result) t ⊎ ShareLevel t rest.now }
{
    let alone = Step { level, tail: "" };
    if is_before_step(rest, &alone) {
        return Some(alone);
    }
    let longer = Step { level, tail: "/" };
    if is_before_step(rest, &longer) {
        return Some(longer);
    }
    None
}

/// The least text after the rest of a key that is `#`, or begins with `+`.
fn wildcard_after(rest: &str) -> Option<&'static str>
    ensures past { IsPast rest.now (option_copied result) }
    ensures covers { (t : List ℕ) → IsWild t → IsBefore rest.now t
        → IsFrom (option_copied result) t ⊎ ShareLevel t rest.now }
{
    if is_before(rest, "#") {
        return Some("#");
    }
    if is_before(rest, "+") {
        return Some("+");
    }
    if is_before(rest, "+/") {
        return Some("+/");
    }
    None
}

/// The lesser of a step and a text.
fn lesser<'a>(own: Option<Step<'a>>, wild: Option<&'static str>) -> Option<Step<'a>>
    ensures past { (key : List ℕ) → IsPast key (some_step own.entry) → IsPast key (option_copied wild.entry)
        → IsPast key (some_step result) }
    ensures from { (t : List ℕ) → IsFrom (some_step own.entry) t ⊎ IsFrom (option_copied wild.entry) t
        → IsFrom (some_step result) t }
{
    let Some(level) = wild else {
        return own;
    };
    let text = Step { level, tail: "" };
    let Some(step) = own else {
        return Some(text);
    };
    if is_before_step(level, &step) {
        return Some(text);
    }
    Some(step)
}

/// The least step after the rest of a key at which filters stand that match a name with this level next.
pub(crate) fn filter_step<'a>(level: &'a str, rest: &str) -> Option<Step<'a>>
    requires { IsLevel level.now }
    ensures past { IsPast rest.now (some_step result) }
    ensures covers { (later : List (List ℕ)) (t : List ℕ) → LevelsMatch (levels t) (level.now ∷ later)
        → IsBefore rest.now t → IsFrom (some_step result) t ⊎ ShareLevel t rest.now }
{
    lesser(level_step(level, rest), wildcard_after(rest))
}

/// The same where the name has ended: `#` matches its parent.
pub(crate) fn parent_step(rest: &str) -> Option<Step<'static>>
    ensures past { IsPast rest.now (some_step result) }
    ensures covers { (t : List ℕ) → LevelsMatch (levels t) [] → IsBefore rest.now t → IsFrom (some_step result) t }
{
    if is_before(rest, "#") {
        return Some(Step {
            level: "#",
            tail: "",
        });
    }
    None
}

/// The least step after the rest of a key at which names stand that match a filter with this level next. The rest goes on
/// after its own level.
pub(crate) fn topic_step<'a>(
    own: &'a str,
    level: &'a str,
    later: &str,
    rest: &str,
) -> Option<Step<'a>>
    requires own { IsLevel own.now }
    requires multi { own.now ≢ multi_level }
    requires cut { (rest.now ≡ level.now ++ 47 ∷ later.now) × IsLevel level.now }
    ensures past { IsPast rest.now (some_step result) }
    ensures covers { (filters : List (List ℕ)) (t : List ℕ) → LevelsMatch (own.now ∷ filters) (levels t)
        → IsBefore rest.now t → IsFrom (some_step result) t ⊎ ((u : List ℕ) × (t ≡ level.now ++ 47 ∷ u)) }
{
    if own == "+" {
        // the byte after `/`: past all that stands under the level
        return Some(Step { level, tail: "0" });
    }
    level_step(own, rest)
}
