//! A turn's changes, read from bytes.

ghost use Rattle.std.specs.Prelude.{◌≡◌, [], length, map, IfOk};
ghost use Rattle.mqtt_fields.specs.Reading.{Gives};
ghost use Rattle.row_store.specs.Noted.{pair_of, plain_value};
ghost use Rattle.row_journal.specs.Fields.{listed, or_malformed, values_at};
ghost use Rattle.row_journal.specs.Items.{item_of, plain};
ghost use Rattle.row_journal.specs.Spelling as spec;

use crate::ends::{LEAST_END, common_end};
use mqtt_fields::{FieldFault, long_at, u8_at, u16_at, u32_at};
use row_store::{Change, Row};
use std::alloc::{AllocError, Global};

/// What becomes of a row: it is removed; it gets a value; or it gets one that begins with these bytes and ends with so many of the last bytes of
/// the value that was put before.
#[derive(Debug, Drop)]
pub enum Spelled {
    Removal,
    Value(Vec<u8>),
    Ending(Vec<u8>, u32),
}

/// A change as it is spelled.
#[derive(Debug, Drop)]
pub struct SpelledChange {
    pub kind: u8,
    pub owner: Vec<u8>,
    pub place: Vec<u8>,
    pub value: Spelled,
}

fn whole_at(alloc: Global, bytes: &[u8]) -> Result<(Spelled, &[u8]), FieldFault>
    ensures { Gives (λ x. (plain x.0, x.1.now)) result (spec.value_at 1 bytes.now) }
{
    let (value, rest) = long_at(bytes)?;
    Ok((Spelled::Value(Vec::from_slice(alloc, value)?), rest))
}

fn ending_at(alloc: Global, bytes: &[u8]) -> Result<(Spelled, &[u8]), FieldFault>
    ensures { Gives (λ x. (plain x.0, x.1.now)) result (spec.value_at 2 bytes.now) }
{
    let (own, rest) = long_at(bytes)?;
    let (shared, rest) = u32_at(rest)?;
    Ok((Spelled::Ending(Vec::from_slice(alloc, own)?, shared), rest))
}

/// What becomes of a row, at the front, and the bytes after it.
fn value_at(alloc: Global, bytes: &[u8]) -> Result<(Spelled, &[u8]), FieldFault>
    ensures { Gives (λ x. (plain x.0, x.1.now)) result (spec.value.at bytes.now) }
{
    let (kind, rest) = u8_at(bytes)?;
    match kind {
        0 => Ok((Spelled::Removal, rest)),
        1 => whole_at(alloc, rest),
        2 => ending_at(alloc, rest),
        _ => Err(FieldFault::Malformed),
    }
}

/// The change at the front, and the bytes after it.
fn item_at(alloc: Global, bytes: &[u8]) -> Result<(SpelledChange, &[u8]), FieldFault>
    ensures { Gives (λ x. (item_of x.0, x.1.now)) result (spec.item.at bytes.now) }
{
    let (kind, rest) = u8_at(bytes)?;
    let (owner, rest) = long_at(rest)?;
    let (place, rest) = long_at(rest)?;
    let (value, rest) = value_at(alloc, rest)?;
    let owner = Vec::from_slice(alloc, owner)?;
    let place = Vec::from_slice(alloc, place)?;
    Ok((
        SpelledChange {
            kind,
            owner,
            place,
            value,
        },
        rest,
    ))
}

fn list_at(
    alloc: Global,
    count: u16,
    bytes: &[u8],
) -> Result<(Vec<SpelledChange>, &[u8]), FieldFault>
    ensures { Gives (λ x. (map item_of x.0.items, x.1.now)) result (values_at spec.item count bytes.now) }
{
    let mut list = Vec::new(alloc);
    let mut rest = bytes;
    for i in 0..count {
        let (change, after) = item_at(alloc, rest)?;
        list.push(change)?;
        rest = after;
    }
    Ok((list, rest))
}

fn items_at(alloc: Global, bytes: &[u8]) -> Result<(Vec<SpelledChange>, &[u8]), FieldFault>
    ensures { Gives (λ x. (map item_of x.0.items, x.1.now)) result ((listed spec.item).at bytes.now) }
{
    let (count, rest) = u16_at(bytes)?;
    list_at(alloc, count, rest)
}

/// These bytes, and so many of the last ones of the value before.
fn ended(alloc: Global, before: &[u8], own: &[u8], shared: usize) -> Result<Vec<u8>, AllocError>
    ensures { IfOk result (λ value. value.items ≡ spec.ended before.now own.now shared) }
{
    let mut value = Vec::from_slice(alloc, own)?;
    value.extend_from_slice(&before[before.len().saturating_sub(shared)..])?;
    Ok(value)
}

/// The value that is spelled so after another, if one is put. `Malformed` is answered where it would be spelled in another way.
fn value_of(alloc: Global, before: &[u8], value: &Spelled) -> Result<Option<Vec<u8>>, FieldFault>
    ensures { Gives plain_value result (or_malformed (spec.value_in before.now (plain value.now))) }
{
    match value {
        Spelled::Removal => Ok(None),
        Spelled::Value(value) => {
            if common_end(before, value) >= LEAST_END {
                return Err(FieldFault::Malformed);
            }
            Ok(Some(Vec::from_slice(alloc, value)?))
        }
        Spelled::Ending(own, shared) => {
            let shared = *shared as usize;
            let value = ended(alloc, before, own, shared)?;
            if shared < LEAST_END || common_end(before, &value) != shared {
                return Err(FieldFault::Malformed);
            }
            Ok(Some(value))
        }
    }
}

/// The change of a row under this key, with memory of its own for the key.
fn change_of(
    alloc: Global,
    change: &SpelledChange,
    value: Option<Vec<u8>>,
) -> Result<Change, AllocError>
    ensures { IfOk result (λ made. pair_of made ≡ ((change.now.kind, (change.now.owner.items, change.now.place.items)), plain_value value)) }
{
    let kind = change.kind;
    let owner = Vec::from_slice(alloc, &change.owner)?;
    let place = Vec::from_slice(alloc, &change.place)?;
    Ok(match value {
        Some(value) => Change::Put(Row {
            kind,
            owner,
            place,
            value,
        }),
        None => Change::Remove(kind, owner, place),
    })
}

/// A copy of the value that was put last, after one more.
fn put_last(alloc: Global, before: Vec<u8>, value: &Option<Vec<u8>>) -> Result<Vec<u8>, AllocError>
    ensures { IfOk result (λ last. last.items ≡ spec.last_put before.items (plain_value value.now)) }
{
    match value {
        Some(value) => Vec::from_slice(alloc, value),
        None => Ok(before),
    }
}

/// The changes that are spelled so.
fn changes_in(alloc: Global, items: &[SpelledChange]) -> Result<Vec<Change>, FieldFault>
    ensures { Gives (λ x. map pair_of x.items) result (or_malformed (spec.pairs_in [] (map item_of items.now))) }
{
    let mut changes = Vec::new(alloc);
    let mut before = Vec::new(alloc);
    for item in items {
        let value = value_of(alloc, &before, &item.value)?;
        before = put_last(alloc, before, &value)?;
        changes.push(change_of(alloc, item, value)?)?;
    }
    Ok(changes)
}

/// The changes of the turn at the front, and the bytes after them.
pub fn turn_at(alloc: Global, bytes: &[u8]) -> Result<(Vec<Change>, &[u8]), FieldFault>
    ensures { Gives (λ x. (map pair_of x.0.items, x.1.now)) result (spec.turn.at bytes.now) }
{
    let (items, rest) = items_at(alloc, bytes)?;
    let changes = changes_in(alloc, &items)?;
    Ok((changes, rest))
}
