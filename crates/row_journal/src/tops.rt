//! For each kind and owner the greatest place that a store may have of rows whose places are numbers: so that a row above it is known not to be there.

ghost use Rattle.std.specs.Prelude.{◌≡◌, ◌↔◌, [], true, IfOk, IsTrue, OnOk};
ghost use Rattle.std.specs.List.{AllByRecursion};
ghost use Rattle.row_store.specs.Cells.{cell_at, plain_key};
ghost use Rattle.row_journal.specs.Tops.{Allows, AllowsRow, Grows, IsIdle, IsNeeded, is_within, may_have};

use row_store::kinds::JOURNAL;
use row_store::memory::RowKey;
use row_store::{Change, Row};
use std::alloc::{AllocError, Global};
use std::collections::BTreeMap;

/// The greatest place of each kind and owner, under these and no place.
pub(crate) type Tops = BTreeMap<RowKey, Option<Vec<u8>>>;

/// The bytes of a place that is a number, or begins with one.
const NUMBERED: usize = 8;

fn shelf_of(alloc: Global, kind: u8, owner: &[u8]) -> Result<RowKey, AllocError>
    ensures { IfOk result (λ shelf. plain_key shelf ≡ (kind, (owner.now, []))) }
{
    Ok(RowKey {
        kind,
        owner: Vec::from_slice(alloc, owner)?,
        place: Vec::new(alloc),
    })
}

/// Whether the place isn't above the greatest one.
fn is_within_top(tops: &Tops, shelf: &RowKey, place: &[u8]) -> bool
    ensures { result ≡ is_within (cell_at tops.now.entries (plain_key shelf.now)) place.now }
{
    match tops.get(shelf) {
        Some(Some(top)) => !top.as_slice().cmp(place).is_lt(),
        _ => false,
    }
}

/// A row at this place may be there from now on.
fn raise(
    alloc: Global,
    tops: &mut Tops,
    kind: u8,
    owner: &[u8],
    place: &[u8],
) -> Result<(), AllocError>
    ensures grows { Grows tops.old.entries tops.new.entries }
    ensures raised { OnOk result (may_have tops.new.entries (kind, (owner.now, place.now)) ≡ true) }
{
    let shelf = shelf_of(alloc, kind, owner)?;
    if is_within_top(tops, &shelf, place) {
        return Ok(());
    }
    let top = Vec::from_slice(alloc, place)?;
    tops.insert(shelf, Some(top))?;
    Ok(())
}

/// The row may be there from now on.
fn take_row(alloc: Global, tops: &mut Tops, row: &Row) -> Result<(), AllocError>
    ensures grows { Grows tops.old.entries tops.new.entries }
    ensures taken { OnOk result (AllowsRow tops.new.entries row.now) }
{
    if row.place.len() < NUMBERED {
        return Ok(());
    }
    raise(alloc, tops, row.kind, &row.owner, &row.place)
}

/// The rows may be there from now on.
pub(crate) fn take_rows(alloc: Global, tops: &mut Tops, rows: &[Row]) -> Result<(), AllocError>
    ensures grows { Grows tops.old.entries tops.new.entries }
    ensures taken { OnOk result (AllByRecursion (AllowsRow tops.new.entries) rows.now) }
{
    for row in rows {
        take_row(alloc, tops, row)?;
    }
    Ok(())
}

fn take_change(alloc: Global, tops: &mut Tops, change: &Change) -> Result<(), AllocError>
    ensures grows { Grows tops.old.entries tops.new.entries }
    ensures taken { OnOk result (Allows tops.new.entries change.now) }
{
    match change {
        Change::Put(row) => take_row(alloc, tops, row),
        Change::Remove(..) => Ok(()),
    }
}

/// What the changes put may be there from now on.
pub(crate) fn take_changes(
    alloc: Global,
    tops: &mut Tops,
    changes: &[Change],
) -> Result<(), AllocError>
    ensures grows { Grows tops.old.entries tops.new.entries }
    ensures taken { OnOk result (AllByRecursion (Allows tops.new.entries) changes.now) }
{
    for change in changes {
        take_change(alloc, tops, change)?;
    }
    Ok(())
}

/// Whether the change removes a row that isn't there.
pub(crate) fn is_idle(alloc: Global, tops: &Tops, change: &Change) -> Result<bool, AllocError>
    ensures { IfOk result (λ idle. IsTrue idle → IsIdle tops.now.entries change.now) }
{
    match change {
        Change::Remove(kind, owner, place) if place.len() >= NUMBERED && *kind != JOURNAL => {
            let shelf = shelf_of(alloc, *kind, owner)?;
            Ok(!is_within_top(tops, &shelf, place))
        }
        _ => Ok(false),
    }
}

/// The changes without the removals of rows that aren't there. No two of them name one row.
pub(crate) fn needed(
    alloc: Global,
    tops: &Tops,
    changes: Vec<Change>,
) -> Result<Vec<Change>, AllocError>
    ensures { IfOk result (λ needed. IsNeeded tops.now.entries needed.items changes.items) }
{
    let mut out = Vec::with_capacity(alloc, changes.len())?;
    for change in changes {
        if !is_idle(alloc, tops, &change)? {
            out.push(change)?;
        }
    }
    Ok(out)
}
