//! A session, and what was told last of its rows.

ghost use Rattle.std.specs.Prelude.{◌≡◌, ◌≢◌, ◌<◌, ◌^◌, ◌++◌, ◌⊎◌, List, [], ℕ, length, map, take, None, Some, IsSome, MatchOption, IfOk, IfErr, OnErr, OnOk, option_map};
ghost use Rattle.row_store.specs.Rows as store;
ghost use Rattle.qos_handshakes.specs.Touched.{AreListed};
ghost use Rattle.session_rows.specs.Changes as changes;
ghost use Rattle.session_rows.specs.Changes.{plain_of};
ghost use Rattle.session_rows.specs.Durable.{IsMomentIf, IsPublishableIf};
ghost use Rattle.session_rows.specs.Fields as fields;
ghost use Rattle.session_rows.specs.Rows.{rows_of};
ghost use Rattle.qos_handshakes.specs.Entries.{at_place};
ghost use Rattle.std.specs.Map.{keys_of};
ghost use Rattle.mqtt_sessions.specs.Removed.{RemovalsWant, Removes, gone_at, gone_of, own_removal, own_told, removed_before};
ghost use Rattle.mqtt_sessions.specs.Called.{IsFault};
ghost use Rattle.mqtt_packets.specs.Written.{HasSpelling};
ghost use Rattle.mqtt_sessions.specs.Packets.{PacketEnds, PacketStep, WantsMemory};
ghost use Rattle.mqtt_sessions.specs.Reaction.{AreSpelled};
ghost use Rattle.mqtt_sessions.specs.Sending.{QueueEnds, QueueStep, QueueWants, RoomStep, RoomWants};
ghost use Rattle.mqtt_sessions.specs.Saved.{Appends, Notes, Tells, begun_session, durable_of, main_of, keeps_own_row, own_before, told_before, told_of, tracked_in};

use crate::fault::SessionFault;
use crate::kept::Kept;
use crate::reaction::Reaction;
use crate::running::Running;
use crate::sending::is_once;
use mqtt_fields::{NoMemory, Qos, Text};
use mqtt_message::Delivery;
use mqtt_packets::Packet;
use qos_handshakes::Outgoing;
use row_store::{Change, Row};
use session_rows::{Opened, Told, copy_changes, own_change, own_left, rows, write_main};
use std::alloc::Global;
use std::marker::Model;

impl Running {
    fn alloc(&self) -> Global {
        self.alloc
    }

    /// The value of the session's own row.
    fn main_value(&self) -> Result<Vec<u8>, NoMemory>
        ensures { IfOk result (λ value. value.items ≡ fields.main.bytes (main_of self.now.state)) }
    {
        let ids = self.incoming.identifiers(self.alloc)?;
        let mut value = Vec::new(self.alloc);
        write_main(
            self.kept.expiry(),
            self.kept.closed(),
            self.kept.will(),
            &ids,
            self.outgoing.next_place(),
            &mut value,
        )?;
        Ok(value)
    }

    /// Of what was kept.
    fn open(alloc: Global, kept: Opened) -> Result<Running, NoMemory>
        requires publishable { IsPublishableIf kept.will }
        requires moment { IsMomentIf kept.closed }
        ensures { IfOk result (λ r. r ≡ tracked_in kept) }
    {
        Ok(Running {
            kept: Kept::open(alloc, kept.client, kept.expiry, kept.closed, kept.will)?,
            incoming: kept.incoming,
            outgoing: kept.outgoing,
            connection: None,
            room: None,
            alloc,
        })
    }

    fn rows(&self) -> Result<Vec<Row>, NoMemory>
        ensures { IfOk result (λ rows. map store.entry_of rows.items ≡ rows_of (durable_of self.now.state)) }
    {
        let value = self.main_value()?;
        rows(self.alloc, self.kept.client(), &value, &self.outgoing)
    }
}

/// Appends a place that was touched, if its copy is gone.
fn push_gone(outgoing: &Outgoing, place: u64, all: &mut Vec<u64>) -> Result<(), NoMemory>
    ensures { OnOk result (all.new.items ≡ all.old.items ++ gone_at place (at_place place outgoing.now.box.copies)) }
{
    if outgoing.entry_at(place).is_none() {
        all.push(place)?;
    }
    Ok(())
}

/// The places of the copies, and then those touched whose copies are gone.
fn all_places(alloc: Global, outgoing: &Outgoing, touched: &[u64]) -> Result<Vec<u64>, NoMemory>
    ensures all { IfOk result (λ all. all.items ≡ keys_of outgoing.now.box.copies ++ gone_of outgoing.now.box.copies touched.now) }
    ensures need { OnErr result ((outgoing.now.box.copies ≢ []) ⊎ (touched.now ≢ [])) }
{
    let mut all = outgoing.places(alloc)?;
    for place in touched {
        push_gone(outgoing, *place, &mut all)?;
    }
    Ok(all)
}

/// Appends what was told last of a session's own row, unless its value was told.
fn push_before(
    alloc: Global,
    client: &Text,
    is_told: bool,
    told: Option<Vec<u8>>,
    before: &mut Vec<Change>,
) -> Result<(), NoMemory>
    ensures before { OnOk result (Appends (own_before is_told client.now (option_map (λ v. v.items) told)) before.old.items before.new.items) }
    ensures begins { take (length before.old.items) before.new.items ≡ before.old.items }
{
    if is_told {
        return Ok(());
    }
    before.push(own_left(alloc, client, told)?)?;
    Ok(())
}

/// Appends what was told last of a session's own row, if it was.
fn push_told(
    alloc: Global,
    client: &Text,
    told: Option<Vec<u8>>,
    before: &mut Vec<Change>,
) -> Result<(), NoMemory>
    ensures before { OnOk result (Appends (own_told (option_map (λ v. v.items) told) client.now) before.old.items before.new.items) }
    ensures begins { take (length before.old.items) before.new.items ≡ before.old.items }
    ensures need { OnErr result (IsSome told) }
{
    let Some(value) = told else {
        return Ok(());
    };
    before.push(own_left(alloc, client, Some(value))?)?;
    Ok(())
}

/// Whether a packet leaves what the session's own row has as it is.
fn keeps_own_row(packet: &Packet) -> bool
    ensures { result ≡ keeps_own_row packet.now }
{
    match packet {
        Packet::Publish(publish) => match publish.qos {
            Qos::AtMostOnce | Qos::AtLeastOnce => true,
            Qos::ExactlyOnce => false,
        },
        Packet::Puback(_) | Packet::Pubrec(_) | Packet::Pubcomp(_) => true,
        Packet::Subscribe(_) | Packet::Unsubscribe(_) | Packet::Pingreq => true,
        _ => false,
    }
}

/// A session that isn't spent.
#[derive(Drop)]
pub(crate) struct Live {
    pub(crate) running: Running,
    told: Told,
    /// Whether its own row was told.
    has_row: bool,
    /// Whether the value of its own row may differ from what was told.
    pub(crate) stale: bool,
}

impl Model for Live {
    ghost use Rattle.mqtt_sessions.specs.Saved.{Saved, HasRow, IsFresh};

    ghost Value = { Saved };

    ghost view = { λ l. record { tracked = l.running; told = l.told } };

    ghost invariant = { λ l. IsFresh l.stale l.running l.told × HasRow l.has_row l.told };
}

impl Live {
    pub(crate) fn new(alloc: Global, client: Text) -> Live
        ensures { result ≡ begun_session client }
    {
        Live {
            running: Running::new(alloc, client),
            told: Told::nothing(),
            has_row: false,
            stale: true,
        }
    }

    pub(crate) fn rows(&self) -> Result<Vec<Row>, NoMemory>
        ensures { IfOk result (λ rows. map store.entry_of rows.items ≡ rows_of (durable_of self.now.tracked.state)) }
    {
        self.running.rows()
    }

    /// Of what was kept, which is what was told.
    pub(crate) fn open(alloc: Global, kept: Opened) -> Result<Live, NoMemory>
        requires publishable { IsPublishableIf kept.will }
        requires moment { IsMomentIf kept.closed }
        ensures { IfOk result (λ l. l ≡ record { tracked = tracked_in kept; told = told_of (durable_of (tracked_in kept).state) }) }
    {
        let running = Running::open(alloc, kept)?;
        let value = running.main_value()?;
        let told = Told::of(value, running.outgoing.next_place());
        Ok(Live {
            running,
            told,
            has_row: true,
            stale: false,
        })
    }

    /// A copy for the client. One at QoS 0 changes nothing that lasts.
    pub(crate) fn queue(&mut self, delivery: Delivery, now: u64) -> Result<Reaction, SessionFault>
        ensures step { IfOk result (λ r. QueueStep delivery now self.old.tracked.state r self.new.tracked.state) }
        ensures spelled { IfOk result (λ r. AreSpelled now r.packets) }
        ensures fault { IfErr result (λ e. IsFault (QueueWants delivery now self.old.tracked.state) (QueueEnds delivery self.old.tracked.state) e) }
        ensures notes { OnOk result (Notes self.old self.new) }
    {
        let stale = self.stale || !is_once(delivery.qos);
        // After a fault nothing is known of its own row.
        self.stale = true;
        let reaction = self.running.queue(delivery, now)?;
        self.stale = stale;
        Ok(reaction)
    }

    /// The connection takes so many bytes of PUBLISHes from now on. What is sent changes nothing of its own row.
    pub(crate) fn make_room(&mut self, bytes: u64, now: u64) -> Result<Reaction, NoMemory>
        ensures step { IfOk result (λ r. RoomStep bytes now self.old.tracked.state r self.new.tracked.state) }
        ensures spelled { IfOk result (λ r. AreSpelled now r.packets) }
        ensures want { OnErr result (RoomWants bytes self.old.tracked.state) }
        ensures notes { OnOk result (Notes self.old self.new) }
    {
        let stale = self.stale;
        // After a fault nothing is known of its own row.
        self.stale = true;
        let reaction = self.running.make_room(bytes, now)?;
        self.stale = stale;
        Ok(reaction)
    }

    /// A packet that came. `room` is whether a retained message would be taken.
    pub(crate) fn packet(
        &mut self,
        packet: &Packet,
        room: bool,
        now: u64,
    ) -> Result<Reaction, SessionFault>
        requires spelled { HasSpelling packet.now }
        requires moment { now < 2 ^ 62 }
        ensures step { IfOk result (λ r. PacketStep packet.now now room self.old.tracked.state r self.new.tracked.state) }
        ensures spelled { IfOk result (λ r. AreSpelled now r.packets) }
        ensures fault { IfErr result (λ e. IsFault (WantsMemory packet.now now room self.old.tracked.state) (PacketEnds packet.now self.old.tracked.state) e) }
        ensures notes { OnOk result (Notes self.old self.new) }
    {
        let stale = self.stale || !keeps_own_row(packet);
        // After a fault nothing is known of its own row.
        self.stale = true;
        let reaction = self.running.packet(packet, room, now)?;
        self.stale = stale;
        Ok(reaction)
    }

    /// The value of its own row, unless it is known to be as it was told.
    fn own_value(&self) -> Result<Option<Vec<u8>>, NoMemory>
        ensures { IfOk result (λ o. MatchOption o (self.now.told.value ≡ Some (fields.main.bytes (main_of self.now.tracked.state))) (λ v. v.items ≡ fields.main.bytes (main_of self.now.tracked.state))) }
    {
        if !self.stale {
            return Ok(None);
        }
        let value = self.running.main_value()?;
        Ok(Some(value))
    }

    /// The change of its own row, if its value differs; what was told of it is appended to `before`.
    fn tell_own(&mut self, before: &mut Vec<Change>) -> Result<Vec<Change>, NoMemory>
        ensures changes { IfOk result (λ all. map plain_of all.items ≡ changes.own_change self.old.told.value self.old.tracked.state.kept.client (fields.main.bytes (main_of self.old.tracked.state))) }
        ensures told { OnOk result (self.new ≡ record self.old { told = record self.old.told { value = Some (fields.main.bytes (main_of self.old.tracked.state)) } }) }
        ensures before { OnOk result (Appends (told_before self.old) before.old.items before.new.items) }
        ensures begins { take (length before.old.items) before.new.items ≡ before.old.items }
    {
        let value = self.own_value()?;
        let alloc = self.running.alloc();
        let Some(value) = value else {
            return Ok(Vec::new(alloc));
        };
        let is_told = self.told.is_told(&value);
        let mut all = Vec::new(alloc);
        own_change(alloc, self.running.kept.client(), is_told, &value, &mut all)?;
        let told = self.told.tell(value);
        self.has_row = true;
        self.stale = false;
        push_before(alloc, self.running.kept.client(), is_told, told, before)?;
        Ok(all)
    }

    /// Appends the changes of its copies.
    fn tell_copies(&mut self, all: &mut Vec<Change>) -> Result<(), NoMemory>
        ensures changes { OnOk result ((places : List ℕ) × AreListed self.old.tracked.touched places × (map plain_of all.new.items ≡ map plain_of all.old.items ++ changes.copy_changes self.old.tracked.state.kept.client self.old.told.next_place self.old.tracked.state.outbox.copies places)) }
        ensures told { OnOk result (self.new ≡ record { tracked = record self.old.tracked { touched = [] }; told = record self.old.told { next_place = self.old.tracked.state.outbox.next_place } }) }
    {
        let alloc = self.running.alloc();
        let places = self.running.outgoing.touched(alloc)?;
        copy_changes(
            alloc,
            self.running.kept.client(),
            self.told.next_place(),
            &self.running.outgoing,
            &places,
            all,
        )?;
        self.told.advance(self.running.outgoing.next_place());
        Ok(())
    }

    /// The changes since they were told last; what was told of its own row is appended to `before`, where they name it.
    pub(crate) fn changes(&mut self, before: &mut Vec<Change>) -> Result<Vec<Change>, NoMemory>
        ensures tells { IfOk result (λ changes. Tells self.old changes.items self.new) }
        ensures before { OnOk result (Appends (told_before self.old) before.old.items before.new.items) }
        ensures begins { take (length before.old.items) before.new.items ≡ before.old.items }
    {
        let mut all = self.tell_own(before)?;
        self.tell_copies(&mut all)?;
        Ok(all)
    }

    /// Appends that its own row goes, if one was told.
    fn remove_own(&self, all: &mut Vec<Change>) -> Result<(), NoMemory>
        ensures ok { OnOk result (map plain_of all.new.items ≡ map plain_of all.old.items ++ own_removal self.now.told.value self.now.tracked.state.kept.client) }
        ensures need { OnErr result (IsSome self.now.told.value) }
    {
        if !self.has_row {
            return Ok(());
        }
        let gone = own_left(self.running.alloc(), self.running.kept.client(), None)?;
        all.push(gone)?;
        Ok(())
    }

    /// Appends what was told last of its own row, if one was.
    fn leave_own(&mut self, before: &mut Vec<Change>) -> Result<(), NoMemory>
        ensures before { OnOk result (Appends (own_told self.old.told.value self.old.tracked.state.kept.client) before.old.items before.new.items) }
        ensures begins { take (length before.old.items) before.new.items ≡ before.old.items }
        ensures need { OnErr result (IsSome self.old.told.value) }
    {
        let alloc = self.running.alloc();
        let told = self.told.take();
        self.has_row = false;
        self.stale = true;
        push_told(alloc, self.running.kept.client(), told, before)
    }

    /// That the rows of its copies go.
    fn remove_copies(&self, touched: &[u64]) -> Result<Vec<Change>, NoMemory>
        ensures all { IfOk result (λ all. map plain_of all.items ≡ changes.copy_changes self.now.tracked.state.kept.client self.now.told.next_place [] (keys_of self.now.tracked.state.outbox.copies ++ gone_of self.now.tracked.state.outbox.copies touched.now)) }
        ensures need { OnErr result ((self.now.tracked.state.outbox.copies ≢ []) ⊎ (touched.now ≢ [])) }
    {
        let alloc = self.running.alloc();
        let places = all_places(alloc, &self.running.outgoing, touched)?;
        let mut all = Vec::new(alloc);
        copy_changes(
            alloc,
            self.running.kept.client(),
            self.told.next_place(),
            &Outgoing::new(alloc),
            &places,
            &mut all,
        )?;
        Ok(all)
    }

    /// The changes after which no row that was told is there; what was told of its own row is appended to `before`.
    pub(crate) fn removals(&mut self, before: &mut Vec<Change>) -> Result<Vec<Change>, NoMemory>
        ensures removes { IfOk result (λ changes. Removes self.old changes.items) }
        ensures before { OnOk result (Appends (removed_before self.old) before.old.items before.new.items) }
        ensures begins { take (length before.old.items) before.new.items ≡ before.old.items }
        ensures need { OnErr result (RemovalsWant self.old) }
    {
        let alloc = self.running.alloc();
        let touched = self.running.outgoing.touched(alloc)?;
        let mut all = self.remove_copies(&touched)?;
        self.remove_own(&mut all)?;
        self.leave_own(before)?;
        Ok(all)
    }
}
