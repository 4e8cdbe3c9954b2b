//! The filters that may match a name, found level by level.

ghost use Rattle.std.specs.Prelude.{◌≡◌, ◌⊎◌, ◌∷◌, ◌++◌, ℕ, List, OnOk, IfOk, IfSome, None, codes};
ghost use Rattle.mqtt_topics.specs.Levels.{levels, rest_levels};
ghost use Rattle.mqtt_topics.specs.Matching.{LevelsMatch, Matches};
ghost use Rattle.filter_trie.specs.Search.Counting.{hash_on};
ghost use Rattle.filter_trie.specs.Search.Filing.{IsFiled};
ghost use Rattle.filter_trie.specs.Search.Branching.{Holds, Awaits, Waits, AfterShare};
ghost use Rattle.filter_trie.specs.Search.Onward.{Leads};

use crate::beginnings::{Beginnings, hashed};
use crate::seeks::{Onward, filter_at, past_filter};
use crate::steps::{first_level, is_before};
use mqtt_fields::NoMemory;
use mqtt_topics::{Filter, TopicName};
use std::alloc::Global;
use std::collections::BTreeMap;
use std::ops::Bound;

/// How many branches are looked at for one name.
const BRANCHES: usize = 1000;

/// Filters that may match a name.
pub(crate) type Ends = BTreeMap<Filter, ()>;

/// Levels that filters begin with, each with its separator, and what is left of a name beside the levels after them.
#[derive(Drop)]
pub(crate) struct Branch<'a> {
    text: String,
    rest: Option<&'a str>,
}

/// Puts in the text with a level after it, where it may be a filter.
fn end(
    beginnings: &Beginnings,
    alloc: Global,
    text: &str,
    level: &str,
    hash: u64,
    ends: &mut Ends,
) -> Result<(), NoMemory>
    requires { hash ≡ hash_on 0 text.now }
    ensures { OnOk result ((f : List ℕ) → Holds ends.old.entries f ⊎ (IsFiled beginnings.now f × (f ≡ text.now ++ level.now))
        → Holds ends.new.entries f) }
{
    if !beginnings.has(hashed(hash, level)) {
        return Ok(());
    }
    let mut whole = String::with_capacity(alloc, text.len() + level.len())?;
    whole.push_str(text)?;
    whole.push_str(level)?;
    let Some(filter) = filter_at(alloc, whole.as_str()) else {
        return Err(NoMemory);
    };
    ends.insert(filter, ())?;
    Ok(())
}

/// The same where the name has no more levels.
fn last_end(
    beginnings: &Beginnings,
    alloc: Global,
    text: &str,
    level: &str,
    hash: u64,
    later: Option<&str>,
    ends: &mut Ends,
) -> Result<(), NoMemory>
    requires { hash ≡ hash_on 0 text.now }
    ensures { OnOk result ((f : List ℕ) → Holds ends.old.entries f ⊎ (IsFiled beginnings.now f × (f ≡ text.now ++ level.now) × (later.entry ≡ None))
        → Holds ends.new.entries f) }
{
    if later.is_some() {
        return Ok(());
    }
    end(beginnings, alloc, text, level, hash, ends)
}

/// Puts in the branch with a level after it, where filters may have it.
fn grow<'a>(
    beginnings: &Beginnings,
    alloc: Global,
    text: &str,
    level: &str,
    hash: u64,
    later: Option<&'a str>,
    branches: &mut Vec<Branch<'a>>,
) -> Result<(), NoMemory>
    requires { hash ≡ hash_on 0 text.now }
    ensures { OnOk result ((f : List ℕ) → Waits branches.old.items f
        ⊎ (IsFiled beginnings.now f × ((g : List ℕ) × (f ≡ text.now ++ (level.now ++ 47 ∷ g)) × LevelsMatch (levels g) (rest_levels later.entry)))
        → Waits branches.new.items f) }
{
    if !beginnings.has(hashed(hashed(hash, level), "/")) {
        return Ok(());
    }
    let mut whole = String::with_capacity(alloc, text.len() + level.len() + 1)?;
    whole.push_str(text)?;
    whole.push_str(level)?;
    whole.push_str("/")?;
    branches.push(Branch {
        text: whole,
        rest: later,
    })?;
    Ok(())
}

/// Goes on from a branch: to filters that end after it, and to longer branches.
fn visit<'a>(
    beginnings: &Beginnings,
    alloc: Global,
    branch: &Branch<'a>,
    branches: &mut Vec<Branch<'a>>,
    ends: &mut Ends,
) -> Result<(), NoMemory>
    ensures { OnOk result ((f : List ℕ) → IsFiled beginnings.now f
        → Holds ends.old.entries f ⊎ Waits branches.old.items f ⊎ Awaits branch.now f
        → Holds ends.new.entries f ⊎ Waits branches.new.items f) }
{
    let text = branch.text.as_str();
    let hash = hashed(0, text);
    end(beginnings, alloc, text, "#", hash, ends)?;
    let Some(rest) = branch.rest else {
        return Ok(());
    };
    let (own, later) = first_level(rest);
    last_end(beginnings, alloc, text, "+", hash, later, ends)?;
    last_end(beginnings, alloc, text, own, hash, later, ends)?;
    grow(beginnings, alloc, text, "+", hash, later, branches)?;
    grow(beginnings, alloc, text, own, hash, later, branches)?;
    Ok(())
}

/// Filters that may match the name by their levels, among them all that do and are counted. There is no answer for want
/// of memory, or where too many branches may have one.
fn level_ends(beginnings: &Beginnings, alloc: Global, name: &str) -> Result<Ends, NoMemory>
    ensures { IfOk result (λ ends. (f : List ℕ) → IsFiled beginnings.now f → LevelsMatch (levels f) (levels name.now)
        → Holds ends.entries f) }
{
    let mut ends = BTreeMap::new(alloc);
    let mut branches = Vec::new(alloc);
    branches.push(Branch {
        text: String::new(alloc),
        rest: Some(name),
    })?;
    for _ in 0..BRANCHES {
        let Some(branch) = branches.pop() else {
            return Ok(ends);
        };
        visit(beginnings, alloc, &branch, &mut branches, &mut ends)?;
    }
    Err(NoMemory)
}

/// Filters that may match the name, among them all plain ones that do and are counted; and "$share", at which the shared ones
/// begin, where such are counted.
pub(crate) fn ends_for(beginnings: &Beginnings, alloc: Global, name: &str) -> Result<Ends, NoMemory>
    ensures levels { IfOk result (λ ends. (f : List ℕ) → IsFiled beginnings.now f → LevelsMatch (levels f) (levels name.now)
        → Holds ends.entries f) }
    ensures share { IfOk result (λ ends. (f : List ℕ) → IsFiled beginnings.now f → AfterShare f
        → Holds ends.entries (codes "$share")) }
{
    let mut ends = level_ends(beginnings, alloc, name)?;
    if !beginnings.has(hashed(0, "$share/")) {
        return Ok(ends);
    }
    let Some(filter) = filter_at(alloc, "$share") else {
        return Err(NoMemory);
    };
    ends.insert(filter, ())?;
    Ok(ends)
}

/// The first of the filters after a key.
fn next_end(alloc: Global, ends: &Ends, key: &Filter) -> Onward<Filter>
    ensures { Leads (λ f. f) (λ f. Holds ends.now.entries f) key.now result }
{
    let Some((end, _)) = ends.range((Bound::Excluded(key), Bound::Unbounded)).next() else {
        return Onward::End;
    };
    match end.copy(alloc) {
        Ok(end) => Onward::From(end),
        Err(_) => Onward::Next,
    }
}

/// Where a walk over filters that are counted goes on past one that doesn't match the name.
pub(crate) fn onward(
    beginnings: &Beginnings,
    alloc: Global,
    ends: &Option<Ends>,
    key: &Filter,
    name: &TopicName,
) -> Onward<Filter>
    requires levels { IfSome ends.now (λ ends. (f : List ℕ) → IsFiled beginnings.now f → LevelsMatch (levels f) (levels name.now)
        → Holds ends.entries f) }
    requires share { IfSome ends.now (λ ends. (f : List ℕ) → IsFiled beginnings.now f → AfterShare f
        → Holds ends.entries (codes "$share")) }
    ensures { Leads (λ f. f) (λ f. Matches f name.now × IsFiled beginnings.now f) key.now result }
{
    let Some(ends) = ends else {
        return past_filter(alloc, key, name);
    };
    if is_before(key.as_str(), "$share") {
        return next_end(alloc, ends, key);
    }
    if is_before(key.as_str(), "$share0") {
        return past_filter(alloc, key, name);
    }
    next_end(alloc, ends, key)
}
