//! Rows as a database gives them.
ghost use Rattle.std.specs.Prelude.{◌≡◌, ◌≢◌, ◌<◌, ◌↔◌, Err, length, map, pos, IfOk, IsTrue, MatchOption, OnErr};
ghost use Rattle.std.specs.List.{All};
ghost use Rattle.std.specs.declared.cmp.Ordering.TheVariants.{Less};
ghost use Rattle.sqlite_value.specs.declared.value.Value.TheVariants.{Int, Blob};
ghost use Rattle.sqlite_value.specs.Order.{column, value_cmp};
ghost use Rattle.sqlite_trees.specs.Tree.{rowid};
ghost use Rattle.row_store.specs.Rows.{entry_of};
ghost use Rattle.session_records.specs.Stored.{entry_shown, IsBlob, IsByte, IsInt, IsShown, HasForm, HaveIds, AreNumbered};

use row_store::{Row, RowFault};
use sqlite::Row as Found;
use sqlite_value::value::ValueRef;
use std::alloc::{AllocError, Global};
use std::cmp::Ordering;

fn int_at(row: &Found, at: usize) -> Option<i64>
    ensures { MatchOption result (IsInt (column row.now at) → ⊥) (λ n. column row.now at ≡ Int n) }
{
    match row.get_ref(at) {
        Ok(ValueRef::Int(n)) => Some(n),
        _ => None,
    }
}

fn byte_at(row: &Found, at: usize) -> Option<u8>
    ensures { MatchOption result (IsByte (column row.now at) → ⊥) (λ n. column row.now at ≡ Int (pos n)) }
{
    match int_at(row, at) {
        Some(n) => u8::try_from(n).ok(),
        None => None,
    }
}

fn bytes_at(row: &Found, at: usize) -> Option<&[u8]>
    ensures { MatchOption result (IsBlob (column row.now at) → ⊥) (λ b. column row.now at ≡ Blob b.now) }
{
    match row.get_ref(at) {
        Ok(ValueRef::Blob(bytes)) => Some(bytes),
        _ => None,
    }
}

fn row_of(
    alloc: Global,
    kind: u8,
    owner: &[u8],
    place: &[u8],
    value: &[u8],
) -> Result<Row, AllocError>
    ensures { IfOk result (λ row. entry_of row ≡ ((kind, (owner.now, place.now)), value.now)) }
{
    Ok(Row {
        kind,
        owner: Vec::from_slice(alloc, owner)?,
        place: Vec::from_slice(alloc, place)?,
        value: Vec::from_slice(alloc, value)?,
    })
}

fn read_row(alloc: Global, row: &Found) -> Result<Row, RowFault>
    ensures read { IfOk result (λ r. entry_of r ≡ entry_shown row.now) }
    ensures formed { IsShown row.now → result ≢ Err RowFault.BadRow }
    ensures unformed { (IsShown row.now → ⊥) → result ≡ Err RowFault.BadRow }
    ensures never { result ≢ Err RowFault.Device }
{
    let columns = (
        byte_at(row, 0),
        bytes_at(row, 1),
        bytes_at(row, 2),
        bytes_at(row, 3),
    );
    match columns {
        (Some(kind), Some(owner), Some(place), Some(value)) => {
            Ok(row_of(alloc, kind, owner, place, value)?)
        }
        _ => Err(RowFault::BadRow),
    }
}

/// The rows that a query without rowids shows. Of none it takes no memory.
pub fn read_rows(alloc: Global, found: &[Found]) -> Result<Vec<Row>, RowFault>
    ensures read { IfOk result (λ rows. map entry_of rows.items ≡ map entry_shown found.now) }
    ensures formed { All IsShown found.now → result ≢ Err RowFault.BadRow }
    ensures some { OnErr result (0 < length found.now) }
    ensures never { result ≢ Err RowFault.Device }
{
    let mut rows = Vec::new(alloc);
    for row in found {
        match read_row(alloc, row) {
            Ok(row) => {
                if rows.push(row).is_err() {
                    return Err(RowFault::NoMemory);
                }
            }
            Err(fault) => return Err(fault),
        }
    }
    Ok(rows)
}

fn is_above(low: &Found, high: &Found) -> bool
    ensures above { IsTrue result → value_cmp (rowid low.now) (rowid high.now) ≡ Less }
    ensures ids { IsInt (column low.now 0) → IsInt (column high.now 0)
        → value_cmp (rowid low.now) (rowid high.now) ≡ Less → IsTrue result }
{
    match (int_at(low, 0), int_at(high, 0)) {
        (Some(low), Some(high)) => low.cmp(&high) == Ordering::Less,
        _ => false,
    }
}

fn is_row(row: &Found) -> bool
    ensures { IsTrue result ↔ HasForm row.now }
{
    int_at(row, 0).is_some()
        && byte_at(row, 1).is_some()
        && bytes_at(row, 2).is_some()
        && bytes_at(row, 3).is_some()
        && bytes_at(row, 4).is_some()
}

fn have_form(rows: &[Found]) -> bool
    ensures { IsTrue result ↔ All HasForm rows.now }
{
    for row in rows {
        if !is_row(row) {
            return false;
        }
    }
    true
}

fn are_numbered(rows: &[Found]) -> bool
    ensures rising { IsTrue result → HaveIds rows.now }
    ensures numbered { All HasForm rows.now → HaveIds rows.now → IsTrue result }
{
    for i in 1..rows.len() {
        if !is_above(&rows[i - 1], &rows[i]) {
            return false;
        }
    }
    true
}

/// Whether each row, shown with its rowid, has the form, and the rowids rise.
pub fn are_rows(rows: &[Found]) -> bool
    ensures { IsTrue result ↔ AreNumbered rows.now }
{
    have_form(rows) && are_numbered(rows)
}
