//! Many changes made few: of those at one key the last, or none where it leaves what the first did.

ghost use Rattle.std.specs.Prelude.{◌≡◌, List, [], ◌∷◌, ◌++◌, OnOk, IfOk, IsOk, IsTrue, Ok};
ghost use Rattle.row_store.specs.Rows.{Content, Key, after_all};
ghost use Rattle.row_store.specs.declared.row.Change.{Change as Changed};
ghost use Rattle.row_store.specs.Gathered.{AreOnce, IsSettled, Settle};
ghost use Rattle.row_store.specs.Leading.{key_in, left_by, or_else};
ghost use Rattle.row_store.specs.Noted.{AreLast, AreNoted, is_noted, noted, noted_pair, pair_of};

use crate::memory::RowKey;
use crate::{Change, Row};
use std::alloc::{AllocError, Global};
use std::collections::BTreeMap;

/// What is left at each key that a change names: bytes, or no row.
type Noted = BTreeMap<RowKey, Option<Vec<u8>>>;

fn parts(change: Change) -> (RowKey, Option<Vec<u8>>)
    ensures { noted_pair result ≡ pair_of change }
{
    match change {
        Change::Put(row) => {
            let Row {
                kind,
                owner,
                place,
                value,
            } = row;
            (RowKey { kind, owner, place }, Some(value))
        }
        Change::Remove(kind, owner, place) => (RowKey { kind, owner, place }, None),
    }
}

fn change_of(key: RowKey, value: Option<Vec<u8>>) -> Change
    ensures { pair_of result ≡ noted_pair (key, value) }
{
    let RowKey { kind, owner, place } = key;
    match value {
        Some(value) => Change::Put(Row {
            kind,
            owner,
            place,
            value,
        }),
        None => Change::Remove(kind, owner, place),
    }
}

/// Notes what the change leaves: in the first table if it is the first at a key of the kind, and else in the second one, in place of
/// what is noted there at its key.
fn note(befores: &mut Noted, lefts: &mut Noted, change: Change, kind: u8) -> Result<(), AllocError>
    ensures { OnOk result ((xs : List Changed) → AreNoted kind befores.old.entries lefts.old.entries xs → AreNoted kind befores.new.entries lefts.new.entries (xs ++ change ∷ [])) }
{
    let (key, value) = parts(change);
    if key.kind == kind && !befores.contains_key(&key) {
        befores.insert(key, value)?;
    } else {
        lefts.insert(key, value)?;
    }
    Ok(())
}

/// What the first of the changes at each key of the kind leaves, and what the last of the others at each key does.
fn note_all(alloc: Global, changes: Vec<Change>, kind: u8) -> Result<(Noted, Noted), AllocError>
    ensures { IfOk result (λ tables. AreNoted kind tables.0.entries tables.1.entries changes.items) }
{
    let mut befores = BTreeMap::new(alloc);
    let mut lefts = BTreeMap::new(alloc);
    for change in changes {
        note(&mut befores, &mut lefts, change, kind)?;
    }
    Ok((befores, lefts))
}

/// Whether the table notes just this at the key.
fn notes(table: &Noted, key: &RowKey, value: &Option<Vec<u8>>) -> bool
    ensures { result ≡ is_noted table.now.entries (key.now, value.now) }
{
    table.get(key) == Some(value)
}

/// A change for each key of the second table where the first one doesn't note the same, in the order of the keys.
fn in_order(alloc: Global, befores: Noted, lefts: Noted) -> Result<Vec<Change>, AllocError>
    ensures once { IfOk result (λ out. AreOnce out.items) }
    ensures settled { IfOk result (λ out. (key : Key) → IsSettled (noted befores.entries key) (or_else (noted lefts.entries key) (noted befores.entries key)) (left_by out.items key)) }
{
    let mut out = Vec::with_capacity(alloc, lefts.len())?;
    for (key, value) in lefts {
        if !notes(&befores, &key, &value) {
            out.push(change_of(key, value))?;
        }
    }
    Ok(out)
}

/// Notes what the last of the changes at each key leaves.
fn note_lasts(alloc: Global, changes: Vec<Change>) -> Result<Noted, AllocError>
    ensures { IfOk result (λ lasts. AreLast lasts.entries changes.items) }
{
    let mut lasts = BTreeMap::new(alloc);
    for change in changes {
        let (key, value) = parts(change);
        lasts.insert(key, value)?;
    }
    Ok(lasts)
}

/// Of the changes at each key the last one, in the order of the keys: a store of rows has the same content after them as after all.
/// It takes no memory where there are no changes.
pub fn last_of_each(alloc: Global, changes: Vec<Change>) -> Result<Vec<Change>, AllocError>
    ensures once { IfOk result (λ out. AreOnce out.items) }
    ensures left { IfOk result (λ out. (key : Key) → left_by out.items key ≡ left_by changes.items key) }
    ensures content { IfOk result (λ out. (c : Content) → after_all c out.items ≡ after_all c changes.items) }
    ensures none { changes.items ≡ [] → result ≡ Ok changes }
{
    if changes.is_empty() {
        Ok(changes)
    } else {
        let lefts = note_lasts(alloc, changes)?;
        in_order(alloc, BTreeMap::new(alloc), lefts)
    }
}

/// The kind of the row that the change names.
fn kind_of(change: &Change) -> u8
    ensures { result ≡ (key_in change.now).0 }
{
    match change {
        Change::Put(row) => row.kind,
        Change::Remove(kind, _, _) => *kind,
    }
}

/// Whether this is one change alone, of a row of another kind.
fn is_one_of_others(changes: &[Change], kind: u8) -> bool
    ensures { IsTrue result → AreOnce changes.now × Settle kind changes.now changes.now }
{
    if changes.len() != 1 {
        return false;
    }
    kind_of(&changes[0]) != kind
}

/// Of the changes at each key the last one, in the order of the keys, but at a key of the kind none where the last leaves what the
/// first does. Where the changes of rows of the kind begin with what was there, these lead to the rows that all of them lead to,
/// and name such a row only where it changes. It takes no memory where there are no changes.
pub fn gather(alloc: Global, changes: Vec<Change>, kind: u8) -> Result<Vec<Change>, AllocError>
    ensures once { IfOk result (λ out. AreOnce out.items) }
    ensures settled { IfOk result (λ out. Settle kind out.items changes.items) }
    ensures none { changes.items ≡ [] → IsOk result }
{
    if changes.is_empty() {
        return Ok(changes);
    }
    if is_one_of_others(&changes, kind) {
        return Ok(changes);
    }
    let (befores, lefts) = note_all(alloc, changes, kind)?;
    in_order(alloc, befores, lefts)
}
