//! What is done to a table and its lists.

ghost use Rattle.std.specs.Prelude.{◌≡◌, ◌↔◌, [], IfErr, IfOk, IfSome, IsOk, IsSome, IsTrue, None, OnErr, OnOk, flat_map};
ghost use Rattle.std.specs.FinMap as map;
ghost use Rattle.session_table.specs.Dues.{in_order};
ghost use Rattle.mqtt_sessions.specs.Saved.{state_of};
ghost use Rattle.session_table.specs.Calls.{Asks, GivesSpelled, GoesTo, IsCalled, MayTurnAt, event_of, on_of, reaction_of};
ghost use Rattle.session_table.specs.Seats.{AreElsewhere, IsElsewhere, connected};
ghost use Rattle.session_table.specs.Rows.{IsAllTold, LeadsOn};
ghost use Rattle.session_table.specs.Listing.{IsBroken, IsKept, IsKeyed, IsListed, connection_in, on_connection, seats_in, session_in, table};

use crate::DueTimes;
use crate::call::{Addressed, Call, On};
use crate::listing::{Listing, relist};
use crate::moments::moments_of;
use crate::seated::{BoxedSeat, Seated, call_seated, seat, unlist_seated, unseat};
use home_table::HomeTable;
use mqtt_fields::{NoMemory, Text};
use mqtt_sessions::{Session, SessionFault};
use row_store::Change;
use std::alloc::Global;
use std::collections::BTreeMap;

/// One call of a client's session, if it has one.
pub(crate) fn call_in(
    seats: &mut BTreeMap<Text, BoxedSeat>,
    listing: &mut Listing,
    alloc: Global,
    client: &Text,
    call: Call<'_>,
    on: On,
    changes: &mut Vec<Change>,
) -> Result<Option<Addressed>, SessionFault>
    requires kept { IsKept (table seats.old.entries) listing.old }
    requires asks { Asks call }
    requires may { MayTurnAt (event_of call) (map.get (seats_in (table seats.old.entries)) client.now) }
    ensures called { IsCalled client.now (event_of call.entry) (on_of on) (seats_in (table seats.old.entries)) (reaction_of result) (seats_in (table seats.new.entries)) }
    ensures goes { IfOk result (GoesTo client.now (seats_in (table seats.new.entries))) }
    ensures spelled { IfOk (reaction_of result) (λ o. IfSome o (GivesSpelled (event_of call.entry))) }
    ensures leads { OnOk result (LeadsOn (seats_in (table seats.old.entries)) changes.old.items changes.new.items (seats_in (table seats.new.entries))) }
    ensures ok { OnOk result (IsKept (table seats.new.entries) listing.new) }
    ensures err { OnErr result (IsBroken client.now (table seats.old.entries) (table seats.new.entries) listing.new) }
{
    let Some(seated) = seats.get_mut(client) else {
        return Ok(None);
    };
    match call_seated(seated, listing, alloc, call, on, changes) {
        Ok(reaction) => {
            let to = seated.connection;
            Ok(Some(Addressed { reaction, to }))
        }
        Err(fault) => Err(fault),
    }
}

/// Takes a client out, and gives its session.
pub(crate) fn take_out(
    seats: &mut BTreeMap<Text, BoxedSeat>,
    listing: &mut Listing,
    client: &Text,
) -> Option<Session>
    requires listed { IsListed (table seats.old.entries) listing.old }
    requires keyed { IsKeyed (table seats.old.entries) }
    ensures gone { table seats.new.entries ≡ map.remove (table seats.old.entries) client.now }
    ensures listed { IsListed (table seats.new.entries) listing.new }
    ensures session { result ≡ session_in (map.get (table seats.old.entries) client.now) }
{
    let Some(seated) = seats.remove(client) else {
        return None;
    };
    Some(unseat(listing, seated.into_inner()))
}

/// Puts a client's seat into the map. Where memory is refused, this gives it back.
fn insert_boxed(
    seats: &mut BTreeMap<Text, BoxedSeat>,
    alloc: Global,
    client: Text,
    seated: Seated,
) -> Result<(), Seated>
    ensures ok { OnOk result (table seats.new.entries ≡ map.insert (table seats.old.entries) client seated) }
    ensures err { OnErr result (table seats.new.entries ≡ table seats.old.entries) }
    ensures back { IfErr result (λ back. back ≡ seated) }
{
    let boxed = BoxedSeat::new(alloc, seated)?;
    match seats.insert(client, boxed) {
        Ok(_) => Ok(()),
        Err(refused) => {
            let (_, back) = refused.value;
            Err(back.into_inner())
        }
    }
}

/// Puts in a client that isn't there.
pub(crate) fn put_in(
    seats: &mut BTreeMap<Text, BoxedSeat>,
    listing: &mut Listing,
    alloc: Global,
    client: Text,
    session: Session,
) -> Result<(), NoMemory>
    requires kept { IsKept (table seats.old.entries) listing.old }
    requires absent { map.get (table seats.old.entries) client ≡ None }
    requires told { IsAllTold client session }
    ensures kept { IsKept (table seats.new.entries) listing.new }
    ensures ok { OnOk result (IfSome (state_of session)
        (λ s. seats_in (table seats.new.entries) ≡ map.insert (seats_in (table seats.old.entries)) client (record { session = s; connection = None }))) }
    ensures err { OnErr result (table seats.new.entries ≡ table seats.old.entries) }
{
    let name = client.copy(alloc)?;
    let mut seated = seat(session, name);
    let moments = moments_of(&seated.session, None);
    if let Err(refused) = relist(listing, alloc, &mut seated.key, &mut seated.listed, moments) {
        unlist_seated(listing, seated);
        return Err(refused);
    }
    match insert_boxed(seats, alloc, client, seated) {
        Ok(()) => Ok(()),
        Err(back) => {
            unlist_seated(listing, back);
            Err(NoMemory)
        }
    }
}

/// Those of the clients that are on a connection, each with it, rising.
pub(crate) fn by_connection(
    seats: &BTreeMap<Text, BoxedSeat>,
    alloc: Global,
    dues: Vec<(u64, Text)>,
) -> Result<Vec<(u64, Text)>, NoMemory>
    ensures pairs { IfOk result (λ out. out.items ≡ in_order (flat_map (on_connection (table seats.now.entries)) dues.items)) }
    ensures none { dues.items ≡ [] → IsOk result }
{
    let mut order = DueTimes::new(alloc);
    for due in dues {
        let (_, client) = due;
        if let Some(connection) = connection_of(seats, &client) {
            order.insert((connection, client))?;
        }
    }
    order.into_pairs(alloc)
}

/// The connection that a client is on.
pub(crate) fn connection_of(seats: &BTreeMap<Text, BoxedSeat>, client: &Text) -> Option<u64>
    ensures { result ≡ connection_in (map.get (table seats.now.entries) client.now) }
{
    match seats.get(client) {
        Some(seated) => seated.connection,
        None => None,
    }
}

/// Whether a client's home is at another node than this.
fn is_elsewhere(homes: &HomeTable, node: u16, client: &Text) -> bool
    ensures { IsTrue result ↔ IsElsewhere homes.now node client.now }
{
    homes.home_of(client.as_str()) != node
}

/// The clients whose home is at another node than this.
pub(crate) fn elsewhere_in(
    seats: &BTreeMap<Text, BoxedSeat>,
    alloc: Global,
    homes: &HomeTable,
    node: u16,
) -> Result<Vec<Text>, NoMemory>
    ensures clients { IfOk result (λ out. AreElsewhere homes.now node (seats_in (table seats.now.entries)) out.items) }
    ensures none { AreElsewhere homes.now node (seats_in (table seats.now.entries)) [] → IsOk result }
{
    let mut out = Vec::new(alloc);
    for (client, _) in seats.iter() {
        if is_elsewhere(homes, node, client) {
            out.push(client.copy(alloc)?)?;
        }
    }
    Ok(out)
}

/// The clients whose session was connected.
pub(crate) fn connected_in(
    seats: &BTreeMap<Text, BoxedSeat>,
    alloc: Global,
) -> Result<Vec<Text>, NoMemory>
    ensures clients { IfOk result (λ out. out.items ≡ connected (seats_in (table seats.now.entries))) }
    ensures none { connected (seats_in (table seats.now.entries)) ≡ [] → IsOk result }
{
    let mut out = Vec::new(alloc);
    for (client, seated) in seats.iter() {
        if seated.was_connected() {
            out.push(client.copy(alloc)?)?;
        }
    }
    Ok(out)
}
