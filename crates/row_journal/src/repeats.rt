//! Changes without most of those whose row a later one names, and most removals of rows that aren't there.

ghost use Rattle.std.specs.Prelude.{◌≡◌, ◌<◌, ◌++◌, ◌∷◌, ◌+◌, List, drop, get_or, length, IfOk, IsTrue, OnOk};
ghost use Rattle.std.specs.Ordering.{is_eq};
ghost use Rattle.row_store.specs.Leading.{IsNamed, key_in};
ghost use Rattle.row_store.specs.Rows.{key_cmp};
ghost use Rattle.row_journal.specs.Repeats.{AreMarked, number_in, number_on, place_in, turn};
ghost use Rattle.row_store.specs.declared.row.Change.{Change as Changed};
ghost use Rattle.row_journal.specs.Tops.{IsIdle, Leaves, Tops as AnyTops};

use crate::journal::copy_of;
use crate::tops::{Tops, is_idle};
use row_store::Change;
use std::alloc::{AllocError, Global};
use std::mem;

/// As many places as there are for rows at most.
const PLACES: usize = 65_521;

/// No change.
const NONE: usize = usize::MAX;

/// The kind, the owner and the place that the change names.
fn key_of(change: &Change) -> (u8, &[u8], &[u8])
    ensures { (result.0, (result.1.now, result.2.now)) ≡ key_in change.now }
{
    match change {
        Change::Put(row) => (row.kind, &row.owner, &row.place),
        Change::Remove(kind, owner, place) => (*kind, owner, place),
    }
}

/// Whether the two name one row.
fn is_same_row(one: &Change, other: &Change) -> bool
    ensures { result ≡ is_eq (key_cmp (key_in one.now) (key_in other.now)) }
{
    let (kind, owner, place) = key_of(one);
    let (other_kind, other_owner, other_place) = key_of(other);
    let order = kind.cmp(&other_kind);
    order
        .then(owner.cmp(other_owner))
        .then(place.cmp(other_place))
        .is_eq()
}

/// How many places there are for the rows of so many changes: some four for each, so that few changes take little time.
fn places_for(changes: usize) -> usize
    ensures { 0 < result }
{
    changes.saturating_mul(4).min(PLACES).max(1)
}

/// The number of bytes with one more.
#[tactic(auto, unfolding(crate::specs::Repeats::turn))]
fn turned(number: u64, byte: u8) -> u64
    ensures { result ≡ turn number byte }
{
    number
        .wrapping_add(u64::from(byte))
        .wrapping_mul(0x9E37_79B9_7F4A_7C15)
}

/// The number of bytes with more after them.
fn turned_by(number: u64, bytes: &[u8]) -> u64
    ensures { result ≡ number_on number bytes.now }
{
    let mut now = number;
    for byte in bytes {
        now = turned(now, *byte);
    }
    now
}

/// The number of the row of a change. Few other rows have the same one.
fn number_of(change: &Change) -> u64
    ensures { result ≡ number_in (key_in change.now) }
{
    let (kind, owner, place) = key_of(change);
    turned_by(turned_by(u64::from(kind), owner), place)
}

/// The place of the row of a change, of so many.
fn place_of(change: &Change, places: usize) -> usize
    requires { 0 < places }
    ensures is { result ≡ place_in places (key_in change.now) }
    ensures within { result < places }
{
    (number_of(change) % places as u64) as usize
}

/// Notes that this change was seen at a place, and for the one that was seen there before it how many stand between the two.
fn note_seen(seen: &mut [usize], nexts: &mut [usize], place: usize, at: usize) {
    let Some(last) = seen.get_mut(place) else {
        return;
    };
    let before = mem::replace(last, at);
    if let Some(next) = nexts.get_mut(before) {
        *next = at.saturating_sub(before).saturating_sub(1);
    }
}

/// For each of the changes how many stand between it and the next one that has the same place, which mostly is the next one of its row.
fn nexts_in(alloc: Global, changes: &[Change], places: usize) -> Result<Vec<usize>, AllocError>
    requires { 0 < places }
{
    let mut seen = vec![in alloc; NONE; places]?;
    let mut nexts = vec![in alloc; NONE; changes.len()]?;
    for i in 0..changes.len() {
        note_seen(&mut seen, &mut nexts, place_of(&changes[i], places), i);
    }
    Ok(nexts)
}

/// How many changes stand between this one and the next one that has the same place.
fn next_of(nexts: &[usize], at: usize) -> usize {
    match nexts.get(at) {
        Some(next) => *next,
        None => NONE,
    }
}

/// Whether one of the changes, the one at this place among them, names the row of the change.
fn is_named_at(changes: &[Change], at: usize, change: &Change) -> bool
    ensures { IsTrue result → IsNamed changes.now (key_in change.now) }
{
    if at >= changes.len() {
        return false;
    }
    is_same_row(change, &changes[at])
}

/// Whether the change removes a row that isn't there, and none of those whose places are marked names it.
fn is_spare(alloc: Global, tops: &Tops, change: &Change, marks: &[u8]) -> Result<bool, AllocError>
    requires { 0 < length marks.now }
    ensures { IfOk result (λ spare. IsTrue spare → IsIdle tops.now.entries change.now × (get_or marks.now (place_in (length marks.now) (key_in change.now)) 0 ≡ 0)) }
{
    let place = place_of(change, marks.len());
    if marks[place] != 0 {
        return Ok(false);
    }
    let idle = is_idle(alloc, tops, change)?;
    Ok(idle)
}

/// Appends a copy of a change, and marks its place.
fn push_marked(
    alloc: Global,
    change: &Change,
    marks: &mut [u8],
    out: &mut Vec<Change>,
) -> Result<(), AllocError>
    requires some { 0 < length marks.old }
    requires marked { AreMarked marks.old out.old.items }
    ensures some { 0 < length marks.new }
    ensures marked { OnOk result (AreMarked marks.new out.new.items) }
    ensures leaves { (tops : AnyTops) (behind : List Changed) → OnOk result (Leaves tops (out.new.items ++ behind) (out.old.items ++ change.now ∷ behind)) }
{
    let copy = copy_of(alloc, change)?;
    let place = place_of(change, marks.len());
    marks[place] = 1;
    out.push(copy)?;
    Ok(())
}

/// Appends a copy of a change, unless one of those behind it, the one at this place, names its row, or it removes a row that isn't there, and
/// that none of those before it names, as its place tells.
fn push_unless(
    alloc: Global,
    tops: &Tops,
    change: &Change,
    behind: &[Change],
    at: usize,
    marks: &mut [u8],
    out: &mut Vec<Change>,
) -> Result<(), AllocError>
    requires some { 0 < length marks.old }
    requires marked { AreMarked marks.old out.old.items }
    ensures some { 0 < length marks.new }
    ensures marked { OnOk result (AreMarked marks.new out.new.items) }
    ensures leaves { OnOk result (Leaves tops.now.entries (out.new.items ++ behind.now) (out.old.items ++ change.now ∷ behind.now)) }
{
    if is_named_at(behind, at, change) {
        return Ok(());
    }
    let goes = is_spare(alloc, tops, change, marks)?;
    if goes {
        return Ok(());
    }
    push_marked(alloc, change, marks, out)
}

/// The changes behind this one.
fn behind(changes: &[Change], at: usize) -> &[Change]
    requires { at < length changes.now }
    ensures { result.now ≡ drop (at + 1) changes.now }
{
    &changes[at + 1..]
}

/// Copies of the changes without those of which it is seen at a look that a later one names their row, or that they remove a row that isn't there. The
/// places are those of no row yet.
fn left_of(
    alloc: Global,
    tops: &Tops,
    changes: &[Change],
    nexts: &[usize],
    marks: &mut [u8],
) -> Result<Vec<Change>, AllocError>
    requires { 0 < length marks.old }
    ensures { IfOk result (λ out. Leaves tops.now.entries out.items changes.now) }
{
    let mut out = Vec::new(alloc);
    for i in 0..changes.len() {
        let next = next_of(nexts, i);
        push_unless(
            alloc,
            tops,
            &changes[i],
            behind(changes, i),
            next,
            marks,
            &mut out,
        )?;
    }
    Ok(out)
}

/// Copies of the changes without most of those whose row a later one names, and most removals of rows that aren't there.
pub(crate) fn without_repeats(
    alloc: Global,
    tops: &Tops,
    changes: &[Change],
) -> Result<Vec<Change>, AllocError>
    ensures { IfOk result (λ out. Leaves tops.now.entries out.items changes.now) }
{
    let places = places_for(changes.len());
    let nexts = nexts_in(alloc, changes, places)?;
    let mut marks = vec![in alloc; 0; places]?;
    left_of(alloc, tops, changes, &nexts, &mut marks)
}
