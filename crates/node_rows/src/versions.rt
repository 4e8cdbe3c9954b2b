//! Rows of versions 1 and 2, as they stand in version 3.
//!
//! In version 1 a subscription doesn't say under which version of the table of homes it was made: it is version 0. In both the dots
//! that were taken aren't all among those that were seen: they were seen too.
ghost use Rattle.std.specs.Prelude.{◌≡◌, ◌↔◌, ◌⊎◌, ◌∷◌, ◌++◌, List, [], drop, map as map_list, option_map, IfOk, OnOk, IsTrue};
ghost use Rattle.std.specs.FinMap.Entries.{find, put};
ghost use Rattle.std.specs.Option.{option_copied};
ghost use Rattle.causal_context.specs.Spelling.{context};
ghost use Rattle.session_rows.specs.Reading.{whole};
ghost use Rattle.replica_rows.specs.Rows.{dots_value};
ghost use Rattle.node_rows.specs.Rows.{marked};
ghost use Rattle.row_store.specs.Rows.{entry_of, key_cmp, key_of, Plain};
ghost use Rattle.node_rows.specs.Versions as spec;
ghost use Rattle.node_rows.specs.Versions.{AreOlder, AreRaising, Raise, SaysOlder, dots_said, raised, raised_all, raised_each, seen_key, seen_value};

use crate::mark::{VERSION, whole_mark};
use causal_context::{Context, Lattice};
use mqtt_fields::{FieldFault, NoMemory, are_bytes, put_u16, put_u32};
use replica_rows::{SEEN, TAKEN, context_row};
use row_store::kinds::{CONTEXT, MARK, SUBSCRIPTION};
use row_store::{Change, Row};
use std::alloc::Global;
use std::cmp::Ordering;

/// The version of rows in which subscriptions have no version of the table of homes.
const FIRST: u16 = 1;

/// The version of rows in which dots that were taken aren't all among those that were seen.
const SECOND: u16 = 2;

fn is_older_version(version: u16) -> bool
    ensures { IsTrue result ↔ ((version ≡ 1) ⊎ (version ≡ 2)) }
{
    version == FIRST || version == SECOND
}

// Whether the value is that of a mark of version 1 or 2.
fn says_older(value: &[u8]) -> bool
    ensures { IsTrue result ↔ SaysOlder value.now }
{
    match whole_mark(value) {
        Some((version, _, _)) => is_older_version(version),
        None => false,
    }
}

// Whether the row is a mark of version 1 or 2.
fn is_older(row: &Row) -> bool
    ensures { IsTrue result ↔ AreOlder (entry_of row.now ∷ []) }
{
    row.kind == MARK && row.owner.is_empty() && row.place.is_empty() && says_older(&row.value)
}

/// Whether rows are of version 1 or 2: the first is a mark that says so.
pub fn are_older(rows: &[Row]) -> bool
    ensures { IsTrue result ↔ AreOlder (map_list entry_of rows.now) }
{
    match rows {
        [first, ..] => is_older(first),
        [] => false,
    }
}

// Whether the value is that of a mark of version 1.
fn says_first(value: &[u8]) -> bool
    ensures { result ≡ spec.says_first (whole marked value.now) }
{
    match whole_mark(value) {
        Some((version, _, _)) => version == FIRST,
        None => false,
    }
}

// Whether the first row has the value of a mark of version 1.
fn are_first(rows: &[Row]) -> bool
    ensures { result ≡ spec.are_first (map_list entry_of rows.now) }
{
    match rows {
        [first, ..] => says_first(&first.value),
        [] => false,
    }
}

// Whether rows of the kind differ in version 3.
fn differs(first: bool, kind: u8) -> bool
    ensures { result ≡ spec.differs first kind }
{
    kind == MARK || (first && kind == SUBSCRIPTION)
}

// What follows the version in a mark.
fn behind_version(value: &[u8]) -> &[u8]
    ensures { result.now ≡ drop 2 value.now }
{
    if value.len() < 2 {
        return &value[value.len()..];
    }
    &value[2..]
}

// The value as it stands in version 3.
fn raised_value(alloc: Global, first: bool, kind: u8, value: &[u8]) -> Result<Vec<u8>, NoMemory>
    ensures { IfOk result (λ made. made.items ≡ spec.raised_value first kind value.now) }
{
    let mut made = Vec::new(alloc);
    if kind == MARK {
        put_u16(VERSION, &mut made)?;
        made.extend_from_slice(behind_version(value))?;
        return Ok(made);
    }
    made.extend_from_slice(value)?;
    if first && kind == SUBSCRIPTION {
        put_u32(0, &mut made)?;
    }
    Ok(made)
}

// The row as it stands in version 3.
fn raised_row(alloc: Global, first: bool, row: &Row) -> Result<Row, NoMemory>
    ensures { IfOk result (λ made. entry_of made ≡ raised first (entry_of row.now)) }
{
    Ok(Row {
        kind: row.kind,
        owner: row.owner.clone()?,
        place: row.place.clone()?,
        value: raised_value(alloc, first, row.kind, &row.value)?,
    })
}

// Each row as it stands in version 3, but for the dots that were seen.
fn each_raised(alloc: Global, first: bool, rows: &[Row]) -> Result<Vec<Row>, NoMemory>
    ensures { IfOk result (λ made. map_list entry_of made.items ≡ raised_each first (map_list entry_of rows.now)) }
{
    let mut made = Vec::new(alloc);
    for row in rows {
        made.push(raised_row(alloc, first, row)?)?;
    }
    Ok(made)
}

// Whether the bytes are this byte alone.
fn is_one(bytes: &[u8], byte: u8) -> bool
    ensures { IsTrue result ↔ (bytes.now ≡ byte ∷ []) }
{
    match bytes {
        [only] => *only == byte,
        _ => false,
    }
}

// Whether it is a row of dots at the place.
fn is_at(row: &Row, place: u8) -> bool
    ensures { IsTrue result ↔ (key_of row.now ≡ (6, ([], place ∷ []))) }
{
    row.kind == CONTEXT && row.owner.is_empty() && is_one(&row.place, place)
}

// The value of the row of dots at the place.
fn value_at(rows: &[Row], place: u8) -> Option<&[u8]>
    ensures { option_copied result ≡ find key_cmp (6, ([], place ∷ [])) (map_list entry_of rows.now) }
{
    for row in rows {
        if is_at(row, place) {
            return Some(&row.value);
        }
    }
    None
}

// The dots that the bytes spell, if they spell some.
fn spelled(alloc: Global, bytes: &[u8]) -> Result<Option<Context>, NoMemory>
    ensures { IfOk result (λ dots. dots ≡ whole context bytes.now) }
{
    match Context::at(alloc, bytes) {
        Ok((dots, [])) => Ok(Some(dots)),
        Ok(_) => Ok(None),
        Err(FieldFault::NoMemory) => Err(NoMemory),
        Err(_) => Ok(None),
    }
}

// The dots that a row says, which may be missing.
fn dots_of(alloc: Global, value: Option<&[u8]>) -> Result<Option<Context>, NoMemory>
    ensures { IfOk result (λ dots. dots ≡ dots_said (option_copied value.entry)) }
{
    match value {
        None => Ok(Some(Context::new(alloc))),
        Some(value) => spelled(alloc, value),
    }
}

// The row of dots that were seen, where there are some.
fn row_of(alloc: Global, seen: &Context) -> Result<Option<Row>, NoMemory>
    ensures { IfOk result (λ row. option_map entry_of row ≡ option_map (λ v. (seen_key, v)) (dots_value seen.now)) }
{
    if seen.is_empty() {
        return Ok(None);
    }
    Ok(Some(context_row(alloc, SEEN, seen)?))
}

// The row of the dots that were seen, with those that were taken.
fn seen_row(alloc: Global, rows: &[Row]) -> Result<Option<Row>, NoMemory>
    ensures { IfOk result (λ row. option_map entry_of row ≡ option_map (λ v. (seen_key, v)) (seen_value (map_list entry_of rows.now))) }
{
    let Some(taken) = dots_of(alloc, value_at(rows, TAKEN))? else {
        return Ok(None);
    };
    let Some(mut seen) = dots_of(alloc, value_at(rows, SEEN))? else {
        return Ok(None);
    };
    seen.join(&taken)?;
    row_of(alloc, &seen)
}

// The rows with this one in its place.
fn with_row(rows: Vec<Row>, new: Row) -> Result<Vec<Row>, NoMemory>
    ensures { IfOk result (λ made. map_list entry_of made.items ≡ put key_cmp (key_of new) new.value.items (map_list entry_of rows.items)) }
{
    let mut rows = rows;
    for i in 0..rows.len() {
        match new.compare_keys(&rows[i]) {
            Ordering::Less => {
                rows.insert(i, new)?;
                return Ok(rows);
            }
            Ordering::Equal => {
                rows[i] = new;
                return Ok(rows);
            }
            Ordering::Greater => {}
        }
    }
    rows.push(new)?;
    Ok(rows)
}

/// The rows as they stand in version 3.
pub(crate) fn raised_rows(alloc: Global, rows: &[Row]) -> Result<Vec<Row>, NoMemory>
    ensures { IfOk result (λ made. map_list entry_of made.items ≡ raised_all (map_list entry_of rows.now)) }
{
    let made = each_raised(alloc, are_first(rows), rows)?;
    match seen_row(alloc, rows)? {
        None => Ok(made),
        Some(seen) => with_row(made, seen),
    }
}

// Puts the row as it stands in version 3 behind the changes, where it differs.
fn raise_row(
    alloc: Global,
    first: bool,
    row: &Row,
    changes: &mut Vec<Change>,
) -> Result<(), NoMemory>
    ensures { OnOk result ((rows : List Plain) → AreRaising first rows changes.old.items → AreRaising first (rows ++ entry_of row.now ∷ []) changes.new.items) }
{
    if !differs(first, row.kind) {
        return Ok(());
    }
    let made = raised_row(alloc, first, row)?;
    changes.push(Change::Put(made))?;
    Ok(())
}

// The changes of single rows.
fn raise_each(alloc: Global, first: bool, rows: &[Row]) -> Result<Vec<Change>, NoMemory>
    ensures { IfOk result (λ changes. AreRaising first (map_list entry_of rows.now) changes.items) }
{
    let mut changes = Vec::new(alloc);
    for row in rows {
        raise_row(alloc, first, row, &mut changes)?;
    }
    Ok(changes)
}

/// The changes that make rows of version 1 or 2 rows of version 3: of the mark, of the dots that were seen and, in version 1, of each
/// subscription, and no other.
pub fn raise(alloc: Global, rows: &[Row]) -> Result<Vec<Change>, NoMemory>
    ensures { IfOk result (λ changes. Raise (map_list entry_of rows.now) changes.items) }
{
    let mut changes = raise_each(alloc, are_first(rows), rows)?;
    match seen_row(alloc, rows)? {
        None => Ok(changes),
        Some(seen) => {
            changes.push(Change::Put(seen))?;
            Ok(changes)
        }
    }
}
