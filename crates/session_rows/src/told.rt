//! What has changed of a session's rows.

ghost use Rattle.std.specs.Prelude.{◌≡◌, ◌≢◌, ◌⊎◌, ◌++◌, ◌∷◌, [], false, length, map, take, OnErr, OnOk};
ghost use Rattle.std.specs.Option.{option_copied};
ghost use Rattle.std.specs.Int.{w64};
ghost use Rattle.mqtt_fields.specs.Numbers.{number};
ghost use Rattle.row_store.specs.Rows as store;
ghost use Rattle.qos_handshakes.specs.Entries.{at_place};
ghost use Rattle.session_rows.specs.Changes as changes;
ghost use Rattle.session_rows.specs.Changes.{copy_change, is_told, plain_of, untold};
ghost use Rattle.session_rows.specs.Fields as fields;
ghost use Rattle.session_rows.specs.Rows.{copy_key, copy_rows, main_key, row_at, rows_at};
ghost use Rattle.std.specs.Prelude.{IfOk, Some, None, option_map};

use crate::copy::write_copy;
use mqtt_fields::{NoMemory, Text, put_u64};
use qos_handshakes::{Entry, Outgoing};
use row_store::kinds::{COPY, SESSION};
use row_store::{Change, Row};
use std::alloc::Global;
use std::marker::Model;
use std::mem;

fn place_bytes(alloc: Global, place: u64) -> Result<Vec<u8>, NoMemory>
    ensures { IfOk result (λ bytes. bytes.items ≡ (number w64).bytes place) }
{
    let mut bytes = Vec::new(alloc);
    put_u64(place, &mut bytes)?;
    Ok(bytes)
}

/// The bytes once more. None take no memory.
fn copied(alloc: Global, bytes: &[u8]) -> Result<Vec<u8>, NoMemory>
    ensures same { IfOk result (λ copy. copy.items ≡ bytes.now) }
    ensures need { OnErr result (bytes.now ≢ []) }
{
    if bytes.is_empty() {
        return Ok(Vec::new(alloc));
    }
    let copy = Vec::from_slice(alloc, bytes)?;
    Ok(copy)
}

fn owner_bytes(alloc: Global, client: &Text) -> Result<Vec<u8>, NoMemory>
    ensures same { IfOk result (λ bytes. bytes.items ≡ client.now) }
    ensures need { OnErr result (client.now ≢ []) }
{
    copied(alloc, client.as_str().as_bytes())
}

fn copy_value(alloc: Global, entry: &Entry) -> Result<Vec<u8>, NoMemory>
    ensures { IfOk result (λ bytes. bytes.items ≡ fields.copy.bytes (fields.copy_of entry.now)) }
{
    let mut value = Vec::new(alloc);
    write_copy(entry, &mut value)?;
    Ok(value)
}

/// The row of a copy.
fn copy_row(alloc: Global, client: &Text, place: u64, entry: &Entry) -> Result<Row, NoMemory>
    ensures { IfOk result (λ row. store.entry_of row ≡ (copy_key client.now place, fields.copy.bytes (fields.copy_of entry.now))) }
{
    Ok(Row {
        kind: COPY,
        owner: owner_bytes(alloc, client)?,
        place: place_bytes(alloc, place)?,
        value: copy_value(alloc, entry)?,
    })
}

/// A session's own row, with this value. It wants memory only where one of them has bytes.
fn own_row(alloc: Global, client: &Text, value: &[u8]) -> Result<Row, NoMemory>
    ensures row { IfOk result (λ row. store.entry_of row ≡ (main_key client.now, value.now)) }
    ensures need { OnErr result ((client.now ≢ []) ⊎ (value.now ≢ [])) }
{
    Ok(Row {
        kind: SESSION,
        owner: owner_bytes(alloc, client)?,
        place: Vec::new(alloc),
        value: copied(alloc, value)?,
    })
}

/// The change that leaves this value of a session's own row, or no row. It wants memory only for a client that has a name.
pub fn own_left(alloc: Global, client: &Text, value: Option<Vec<u8>>) -> Result<Change, NoMemory>
    ensures left { IfOk result (λ change. plain_of change ≡ (main_key client.now, option_map (λ v. v.items) value)) }
    ensures need { OnErr result (client.now ≢ []) }
{
    let owner = owner_bytes(alloc, client)?;
    let place = Vec::new(alloc);
    match value {
        Some(value) => Ok(Change::Put(Row {
            kind: SESSION,
            owner,
            place,
            value,
        })),
        None => Ok(Change::Remove(SESSION, owner, place)),
    }
}

fn copy_removed(alloc: Global, client: &Text, place: u64) -> Result<Change, NoMemory>
    ensures { IfOk result (λ change. plain_of change ≡ (copy_key client.now place, None)) }
{
    Ok(Change::Remove(
        COPY,
        owner_bytes(alloc, client)?,
        place_bytes(alloc, place)?,
    ))
}

/// What was told last of a session's rows. Contracts see the value of its own row, and the next place at that time.
#[derive(Drop)]
pub struct Told {
    value: Option<Vec<u8>>,
    next_place: u64,
}

impl Model for Told {
    ghost use Rattle.session_rows.specs.Changes as changes;
    ghost use Rattle.std.specs.Prelude.{option_map};

    ghost Value = { changes.Told };

    ghost view = { λ t. record { value = option_map (λ v. v.items) t.value; next_place = t.next_place } };
}

impl Told {
    /// Of a session that has no rows yet.
    pub fn nothing() -> Told
        ensures { result ≡ untold }
    {
        Told {
            value: None,
            next_place: 1,
        }
    }

    /// Its own row has this value.
    pub fn of(value: Vec<u8>, next_place: u64) -> Told
        ensures { result ≡ record { value = Some value.items; next_place = next_place } }
    {
        Told {
            value: Some(value),
            next_place,
        }
    }

    /// Its own row has this value from now on. The result is the value that was told before, if one was.
    pub fn tell(&mut self, value: Vec<u8>) -> Option<Vec<u8>>
        ensures told { self.new ≡ record self.old { value = Some value.items } }
        ensures before { option_map (λ v. v.items) result ≡ self.old.value }
    {
        mem::replace(&mut self.value, Some(value))
    }

    /// The value of its own row that was told; it has told none from now on.
    pub fn take(&mut self) -> Option<Vec<u8>>
        ensures told { self.new ≡ record self.old { value = None } }
        ensures before { option_map (λ v. v.items) result ≡ self.old.value }
    {
        mem::replace(&mut self.value, None)
    }

    /// The next place from now on.
    pub fn advance(&mut self, next_place: u64)
        ensures { self.new ≡ record self.old { next_place = next_place } }
    {
        self.next_place = next_place;
    }

    /// The next place at that time.
    pub fn next_place(&self) -> u64
        ensures { result ≡ self.now.next_place }
    {
        self.next_place
    }

    /// Whether this is the value of its own row.
    pub fn is_told(&self, value: &[u8]) -> bool
        ensures { result ≡ is_told self.now.value value.now }
    {
        match &self.value {
            None => false,
            Some(told) => told.as_slice() == value,
        }
    }
}

/// Appends the change of its own row, unless its value was told: then it takes no memory.
pub fn own_change(
    alloc: Global,
    client: &Text,
    is_told: bool,
    value: &[u8],
    all: &mut Vec<Change>,
) -> Result<(), NoMemory>
    ensures ok { OnOk result (map plain_of all.new.items ≡ map plain_of all.old.items ++ changes.own_change_by is_told client.now value.now) }
    ensures err { OnErr result (all.new.items ≡ all.old.items) }
    ensures need { OnErr result (is_told ≡ false) }
{
    if is_told {
        return Ok(());
    }
    all.push(Change::Put(own_row(alloc, client, value)?))?;
    Ok(())
}

fn push_row(
    alloc: Global,
    client: &Text,
    outgoing: &Outgoing,
    place: u64,
    rows: &mut Vec<Row>,
) -> Result<(), NoMemory>
    ensures { OnOk result (map store.entry_of rows.new.items ≡ map store.entry_of rows.old.items ++ row_at client.now place (at_place place outgoing.now.box.copies)) }
{
    let Some(entry) = outgoing.entry_at(place) else {
        return Ok(());
    };
    rows.push(copy_row(alloc, client, place, entry)?)?;
    Ok(())
}

fn push_rows(
    alloc: Global,
    client: &Text,
    outgoing: &Outgoing,
    places: &[u64],
    rows: &mut Vec<Row>,
) -> Result<(), NoMemory>
    ensures { OnOk result (map store.entry_of rows.new.items ≡ map store.entry_of rows.old.items ++ rows_at client.now outgoing.now.box.copies places.now) }
{
    for place in places {
        push_row(alloc, client, outgoing, *place, rows)?;
    }
    Ok(())
}

/// The rows of a session, whose own row has this value.
pub fn rows(
    alloc: Global,
    client: &Text,
    value: &[u8],
    outgoing: &Outgoing,
) -> Result<Vec<Row>, NoMemory>
    ensures { IfOk result (λ rows. map store.entry_of rows.items ≡ (main_key client.now, value.now) ∷ copy_rows client.now outgoing.now.box.copies) }
{
    outgoing.are_placed();
    let mut rows = Vec::new(alloc);
    rows.push(own_row(alloc, client, value)?)?;
    let places = outgoing.places(alloc)?;
    push_rows(alloc, client, outgoing, &places, &mut rows)?;
    Ok(rows)
}

/// Appends the change of a place that was touched, if there is one.
fn push_copy(
    alloc: Global,
    client: &Text,
    next: u64,
    outgoing: &Outgoing,
    place: u64,
    all: &mut Vec<Change>,
) -> Result<(), NoMemory>
    ensures ok { OnOk result (map plain_of all.new.items ≡ map plain_of all.old.items ++ copy_change client.now next place (at_place place outgoing.now.box.copies)) }
    ensures begins { take (length all.old.items) all.new.items ≡ all.old.items }
    ensures need { OnErr result (copy_change client.now next place (at_place place outgoing.now.box.copies) ≢ []) }
{
    let Some(entry) = outgoing.entry_at(place) else {
        if place < next {
            all.push(copy_removed(alloc, client, place)?)?;
        }
        return Ok(());
    };
    all.push(Change::Put(copy_row(alloc, client, place, entry)?))?;
    Ok(())
}

/// Appends the changes of the places touched, or the first of them where memory runs out. Where there are none it takes no
/// memory. `next` is the next place that was told last.
pub fn copy_changes(
    alloc: Global,
    client: &Text,
    next: u64,
    outgoing: &Outgoing,
    places: &[u64],
    all: &mut Vec<Change>,
) -> Result<(), NoMemory>
    ensures ok { OnOk result (map plain_of all.new.items ≡ map plain_of all.old.items ++ changes.copy_changes client.now next outgoing.now.box.copies places.now) }
    ensures begins { take (length all.old.items) all.new.items ≡ all.old.items }
    ensures need { OnErr result (changes.copy_changes client.now next outgoing.now.box.copies places.now ≢ []) }
{
    for place in places {
        push_copy(alloc, client, next, outgoing, *place, all)?;
    }
    Ok(())
}
