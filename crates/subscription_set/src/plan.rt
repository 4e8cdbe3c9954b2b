//! What a merge changes, found before it changes anything.
ghost use Rattle.std.specs.Prelude.{◌≡◌, ◌<◌, ◌&&◌, ◌||◌, not, is_some, IfOk, IsOk, OnOk, OnErr, Some, None, [], length, cond, true, false};
ghost use Rattle.std.specs.List.{list_any};
ghost use Rattle.std.specs.Ordering.{eq_by_cmp};
ghost use Rattle.std.specs.FinMap as map;
ghost use Rattle.causal_context.specs.Dots.{Dot as DotValue, dot_cmp};
ghost use Rattle.causal_context.specs.Ranges.{IsFine};
ghost use Rattle.subscription_set.specs.Joining.{leaves_with, AreUnseen, AreLeaving, leaving_in, IsBrought, IsCleared};
ghost use Rattle.subscription_set.specs.Merging.{same_entry};
ghost use Rattle.subscription_set.specs.Standing.{AreSeen};

use crate::entry::Entry;
use crate::entry_iter::RangeIter;
use crate::entry_map::EntryMap;
use causal_context::{Context, Dot, Joining, Range};
use mqtt_fields::NoMemory;
use std::alloc::Global;

/// Whether there is this entry at the dot.
pub fn is_at(entries: &EntryMap, dot: Dot, theirs: &Entry) -> bool
    ensures { result ≡ same_entry (map.get entries.now dot) (Some theirs.now) }
{
    match entries.get(dot) {
        None => false,
        Some(own) => own.same(theirs),
    }
}

// Whether the other has seen the dot and has not the same entry there.
fn leaves(dot: Dot, entry: &Entry, other_seen: &Context, others: &EntryMap) -> bool
    ensures { result ≡ leaves_with other_seen.now others.now (dot, entry.now) }
{
    if !other_seen.contains(dot) {
        return false;
    }
    match others.get(dot) {
        None => true,
        Some(theirs) => !entry.same(theirs),
    }
}

// Adds the dots of those of the entries that go. Only these take memory.
fn add_leaving(
    out: &mut Vec<Dot>,
    found: RangeIter<'_>,
    other_seen: &Context,
    others: &EntryMap,
) -> Result<(), NoMemory>
    ensures ok { OnOk result ((q : DotValue) → list_any (eq_by_cmp dot_cmp q) out.new.items
        ≡ (list_any (eq_by_cmp dot_cmp q) out.old.items
        || list_any (leaving_in other_seen.now others.now q) found.entry)) }
    ensures none { ((q : DotValue) → (list_any (eq_by_cmp dot_cmp q) out.old.items
        || list_any (leaving_in other_seen.now others.now q) found.entry) ≡ false) → IsOk result }
{
    for (dot, entry) in found {
        if leaves(*dot, entry, other_seen, others) {
            out.push(*dot)?;
        }
    }
    Ok(())
}

/// Whether an entry goes with what the other has seen.
pub fn any_leaving(entries: &EntryMap, other_seen: &Context, others: &EntryMap) -> bool
    ensures { result ≡ list_any (leaves_with other_seen.now others.now) (map.entries entries.now) }
{
    for (dot, entry) in entries.iter() {
        if leaves(*dot, entry, other_seen, others) {
            return true;
        }
    }
    false
}

/// The dots whose entries go, found by the ranges that the other has seen. Only these take memory.
pub fn leaving(
    alloc: Global,
    entries: &EntryMap,
    other_seen: &Context,
    others: &EntryMap,
) -> Result<Vec<Dot>, NoMemory>
    ensures leaving { IfOk result (λ out. AreLeaving entries.now other_seen.now others.now out.items) }
    ensures none { AreLeaving entries.now other_seen.now others.now [] → IsOk result }
{
    let mut out = Vec::new(alloc);
    for range in other_seen.ranges() {
        add_leaving(&mut out, entries.within(*range), other_seen, others)?;
    }
    Ok(out)
}

/// The dots of the other's entries that are new here. Only these take memory.
pub fn unseen(alloc: Global, seen: &Joining, others: &EntryMap) -> Result<Vec<Dot>, NoMemory>
    ensures unseen { IfOk result (λ out. AreUnseen seen.now.0 others.now out.items) }
    ensures none { AreUnseen seen.now.0 others.now [] → IsOk result }
{
    let mut out = Vec::new(alloc);
    for (dot, _theirs) in others.iter() {
        if !seen.had(*dot) {
            out.push(*dot)?;
        }
    }
    Ok(out)
}

/// A merge whose new entries are brought already.
#[derive(Drop)]
pub struct Plan {
    /// The dots of the entries that it has brought.
    pub brought: Vec<Dot>,
    /// The dots whose entries go.
    pub gone: Vec<Dot>,
}

/// Brings the other's entries whose dots are new here. Where memory runs out the entries stay as
/// they were; where no entry is new here and none goes they take none.
pub fn make_plan(
    alloc: Global,
    seen: &Joining,
    entries: &mut EntryMap,
    other_seen: &Context,
    others: &EntryMap,
) -> Result<Plan, NoMemory>
    requires { AreSeen seen.now.0 (map.entries entries.old) }
    ensures fresh { IfOk result (λ plan. AreUnseen seen.now.0 others.now plan.brought.items) }
    ensures brought { IfOk result (λ plan.
        IsBrought entries.old others.now plan.brought.items entries.new) }
    ensures gone { IfOk result (λ plan.
        AreLeaving entries.old other_seen.now others.now plan.gone.items) }
    ensures err { OnErr result (entries.new ≡ entries.old) }
    ensures none { AreLeaving entries.old other_seen.now others.now []
        → AreUnseen seen.now.0 others.now [] → IsOk result }
{
    let gone = leaving(alloc, entries, other_seen, others)?;
    let brought = unseen(alloc, seen, others)?;
    bring(alloc, entries, others, &brought)?;
    Ok(Plan { brought, gone })
}

// Copies the other's entry at the dot, where there is none here. Only this takes memory.
fn bring_one(
    alloc: Global,
    entries: &mut EntryMap,
    others: &EntryMap,
    dot: Dot,
) -> Result<(), NoMemory>
    ensures ok { OnOk result ((q : DotValue) → map.get entries.new q
        ≡ cond (is_some (map.get entries.old q)) (map.get entries.old q)
        (cond (eq_by_cmp dot_cmp q dot) (map.get others.now q) None)) }
    ensures err { OnErr result (entries.new ≡ entries.old) }
    ensures there { OnErr result (is_some (map.get others.now dot) ≡ true) }
    ensures fresh { OnErr result (is_some (map.get entries.old dot) ≡ false) }
{
    if entries.get(dot).is_some() {
        return Ok(());
    }
    match others.get(dot) {
        None => Ok(()),
        Some(entry) => {
            let copy = entry.copy(alloc)?;
            entries.add(dot, copy)
        }
    }
}

// Copies the other's entries at the dots. Of none it takes no memory.
fn bring_each(
    alloc: Global,
    entries: &mut EntryMap,
    others: &EntryMap,
    dots: &[Dot],
) -> Result<(), NoMemory>
    ensures ok { OnOk result (IsBrought entries.old others.now dots.now entries.new) }
    ensures others { (q : DotValue) → list_any (eq_by_cmp dot_cmp q) dots.now ≡ false
        → map.get entries.new q ≡ map.get entries.old q }
    ensures some { OnErr result (0 < length dots.now) }
{
    for dot in dots {
        bring_one(alloc, entries, others, *dot)?;
    }
    Ok(())
}

/// Takes the entries at the dots out.
pub fn clear(entries: &mut EntryMap, dots: &[Dot])
    ensures { IsCleared entries.old dots.now entries.new }
{
    for dot in dots {
        entries.remove(*dot);
    }
}

/// Copies the other's entries at the dots, where none stand here. Where memory runs out the
/// entries stay as they were. Of no dots it takes none.
pub fn bring(
    alloc: Global,
    entries: &mut EntryMap,
    others: &EntryMap,
    dots: &[Dot],
) -> Result<(), NoMemory>
    requires { (q : DotValue) → list_any (eq_by_cmp dot_cmp q) dots.now ≡ true
        → map.get entries.old q ≡ None }
    ensures ok { OnOk result (IsBrought entries.old others.now dots.now entries.new) }
    ensures err { OnErr result (entries.new ≡ entries.old) }
    ensures some { OnErr result (0 < length dots.now) }
{
    let brought = bring_each(alloc, entries, others, dots);
    if brought.is_err() {
        clear(entries, dots);
    }
    brought
}
