//! A session that is read from its rows.

ghost use Rattle.std.specs.Prelude.{◌≡◌, map, true, IfOk, OnOk, IsErrOf, IsSome, IsTrue, ◌↔◌};
ghost use Rattle.std.specs.List.{AllByRecursion};
ghost use Rattle.row_store.specs.Rows as store;
ghost use Rattle.row_store.specs.Rows.{key_of};
ghost use Rattle.session_rows.specs.Durable.{Durable, IsDurable, IsMomentIf, IsPublishableIf, IsSound, opened_of, opened_if};
ghost use Rattle.session_rows.specs.Reachable.{IsReachable};
ghost use Rattle.session_rows.specs.Reading.{HasBytes, HasClient, Opens, client_in, copies_in, copy_in, durable_in, copy_place, text_in};
ghost use Rattle.session_rows.specs.Rows.{rows_of};

use crate::copy::read_copy;
use crate::main_row::{MainRow, read_main};
use crate::reachable::is_reachable;
use mqtt_fields::{FieldFault, NUMBERS_END, Text, are_bytes, u64_at};
use mqtt_message::{Message, Will};
use qos_handshakes::{Entry, Incoming, Outgoing};
use row_store::kinds::{COPY, SESSION};
use row_store::{Row, RowFault};
use std::alloc::Global;
use std::marker::Model;

/// A session as its rows say, without a connection.
#[derive(Drop)]
pub struct Opened {
    pub client: Text,
    /// The Session Expiry Interval, in seconds.
    pub expiry: u32,
    /// The moment since when it is closed; none where the client was connected.
    pub closed: Option<u64>,
    pub will: Option<Will>,
    pub incoming: Incoming,
    pub outgoing: Outgoing,
}

/// The parts that rows say.
#[derive(Drop)]
struct Parts {
    client: Text,
    main: MainRow,
    copies: Vec<(u64, Entry)>,
}

impl Model for Parts {
    ghost use Rattle.session_rows.specs.Durable.{Durable};

    ghost Value = { Durable };

    ghost view = { λ p. record { client = p.client; main = p.main; copies = p.copies.items } };
}

/// The text that these bytes of a row are. BadRow where they are no UTF-8 string of MQTT, NoMemory where
/// there is none for it.
#[tactic(auto, using(mqtt_fields::proofs::TextLaws::texts))]
pub fn text_of(alloc: Global, bytes: &[u8]) -> Result<Text, RowFault>
    ensures exact { Opens (λ t. t) result (text_in bytes.now) }
    ensures no_memory { IsErrOf result RowFault.NoMemory → IsSome (text_in bytes.now) }
{
    let Ok(text) = str::from_utf8(bytes) else {
        return Err(RowFault::BadRow);
    };
    match Text::new(alloc, text) {
        Ok(text) => Ok(text),
        Err(FieldFault::NoMemory) => Err(RowFault::NoMemory),
        Err(_) => Err(RowFault::BadRow),
    }
}

/// The client of a session's own row.
fn client_of(alloc: Global, row: &Row) -> Result<Text, RowFault>
    ensures exact { Opens (λ t. t) result (client_in (key_of row.now)) }
    ensures no_memory { IsErrOf result RowFault.NoMemory → IsSome (client_in (key_of row.now)) }
{
    if row.kind == SESSION && row.place.is_empty() {
        text_of(alloc, &row.owner)
    } else {
        Err(RowFault::BadRow)
    }
}

/// The place of a client's copy.
fn place_of(client: &Text, row: &Row) -> Option<u64>
    ensures { result ≡ copy_place client.now (key_of row.now) }
{
    if row.kind != COPY || row.owner.as_slice() != client.as_str().as_bytes() {
        return None;
    }
    match u64_at(&row.place) {
        Ok((place, [])) => Some(place),
        _ => None,
    }
}

/// The place and the value of a row are bytes. This does nothing; its contract is a law.
fn has_bytes(row: &Row)
    ensures { HasBytes (store.entry_of row.now) }
{
    are_bytes(&row.place);
    are_bytes(&row.value);
}

fn read_copy_row(alloc: Global, client: &Text, row: &Row) -> Result<(u64, Entry), RowFault>
    ensures said { Opens (λ x. (x.0, x.1)) result (copy_in client.now (store.entry_of row.now)) }
    ensures bytes { OnOk result (HasBytes (store.entry_of row.now)) }
{
    has_bytes(row);
    let Some(place) = place_of(client, row) else {
        return Err(RowFault::BadRow);
    };
    let entry = read_copy(alloc, &row.value)?;
    Ok((place, entry))
}

fn read_copies(alloc: Global, client: &Text, rows: &[Row]) -> Result<Vec<(u64, Entry)>, RowFault>
    ensures said { Opens (λ x. x.items) result (copies_in client.now (map store.entry_of rows.now)) }
    ensures bytes { OnOk result (AllByRecursion HasBytes (map store.entry_of rows.now)) }
{
    let mut copies = Vec::new(alloc);
    for row in rows {
        let copy = read_copy_row(alloc, client, row)?;
        let Ok(()) = copies.push(copy) else {
            return Err(RowFault::NoMemory);
        };
    }
    Ok(copies)
}

fn read_parts(alloc: Global, rows: &[Row]) -> Result<Parts, RowFault>
    ensures said { Opens (λ p. p) result (durable_in (map store.entry_of rows.now)) }
    ensures bytes { OnOk result (AllByRecursion HasBytes (map store.entry_of rows.now)) }
    ensures no_memory { IsErrOf result RowFault.NoMemory → HasClient (map store.entry_of rows.now) }
{
    let [first, others @ ..] = rows else {
        return Err(RowFault::BadRow);
    };
    has_bytes(first);
    let client = client_of(alloc, first)?;
    let main = read_main(alloc, &first.value)?;
    let copies = read_copies(alloc, &client, others)?;
    Ok(Parts {
        client,
        main,
        copies,
    })
}

fn is_moment(moment: Option<u64>) -> bool
    ensures { IsTrue result ↔ IsMomentIf moment }
{
    match moment {
        None => true,
        Some(at) => at < NUMBERS_END,
    }
}

fn is_publishable(will: &Option<Will>) -> bool
    ensures { IsTrue result ↔ IsPublishableIf will.now }
{
    match will {
        None => true,
        Some(will) => Message::can_accept_will(will),
    }
}

fn is_sound(main: &MainRow) -> bool
    ensures { IsTrue result ↔ IsSound main.now }
{
    is_moment(main.closed) && is_publishable(&main.will)
}

fn are_reachable(parts: &Parts) -> bool
    ensures { IsTrue result ↔ IsReachable parts.now.main.incoming parts.now.copies }
{
    is_reachable(&parts.main.incoming, &parts.copies)
}

fn open_parts(alloc: Global, parts: Parts) -> Result<Opened, RowFault>
    ensures { Opens (λ o. o) result (opened_if parts) }
{
    let Parts {
        client,
        main,
        copies,
    } = parts;
    let Ok(incoming) = Incoming::from_identifiers(alloc, main.incoming) else {
        return Err(RowFault::NoMemory);
    };
    let Some(incoming) = incoming else {
        return Err(RowFault::BadRow);
    };
    let Ok(outgoing) = Outgoing::from_entries(alloc, copies, main.next_place) else {
        return Err(RowFault::NoMemory);
    };
    let Some(outgoing) = outgoing else {
        return Err(RowFault::BadRow);
    };
    Ok(Opened {
        client,
        expiry: main.expiry,
        closed: main.closed,
        will: main.will,
        incoming,
        outgoing,
    })
}

/// The session whose rows these are: its own, and then those of its copies by rising place.
///
/// BadRow where no session has just these rows: one isn't of its form, they contradict each other, or no calls lead to them.
/// NoMemory only where the first names a client.
pub fn read_session(alloc: Global, rows: &[Row]) -> Result<Opened, RowFault>
    ensures ok { IfOk result (λ o. (d : Durable) × IsDurable d × (rows_of d ≡ map store.entry_of rows.now) × (o ≡ opened_of d)) }
    ensures bad { IsErrOf result RowFault.BadRow → (d : Durable) → IsDurable d → rows_of d ≡ map store.entry_of rows.now → ⊥ }
    ensures device { IsErrOf result RowFault.Device → ⊥ }
    ensures no_memory { IsErrOf result RowFault.NoMemory → HasClient (map store.entry_of rows.now) }
{
    let parts = read_parts(alloc, rows)?;
    if !is_sound(&parts.main) {
        return Err(RowFault::BadRow);
    }
    if !are_reachable(&parts) {
        return Err(RowFault::BadRow);
    }
    open_parts(alloc, parts)
}
