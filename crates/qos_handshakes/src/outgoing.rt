//! What is owed to one client at QoS 1 and QoS 2, over all connections of its session (MQTT 5.0, 4.3 and 4.4).
ghost use Rattle.std.specs.Prelude.{◌≡◌, ◌≢◌, ◌+◌, ◌*◌, ◌<◌, ◌≤◌, ◌^◌, ◌++◌, ◌∷◌, [], ℕ, length, true, false, Some, MatchResult, IfErr, OnErr, IfOk, OnOk, MatchOption, None, IsSome, IfSome, IsSomeAnd};
ghost use Rattle.std.specs.Borrow.{sem};
ghost use Rattle.std.specs.List.{AllByRecursion};
ghost use Rattle.std.specs.Map.{keys_of};
ghost use Rattle.std.specs.Option.{option_copied};
ghost use Rattle.mqtt_packets.specs.declared.packet.Packet.TheVariants.{Publish};
ghost use Rattle.mqtt_packets.specs.Written.{HasSpelling};
ghost use Rattle.mqtt_message.specs.Sent.{sent};
ghost use Rattle.mqtt_fields.specs.declared.options.Qos.TheVariants.{AtMostOnce};
ghost use Rattle.qos_handshakes.specs.Entries.{HasRoom, IsLeastFree, at_place, drop_id, find_id, place_from};
ghost use Rattle.qos_handshakes.specs.Restored.{agree, restored};
ghost use Rattle.qos_handshakes.specs.Lending.{LeavesNext};
ghost use Rattle.qos_handshakes.specs.Length.{length_of};
ghost use Rattle.qos_handshakes.specs.Touched.{ArePlaced, AreListed, Marks, TouchesChanged, credits};
ghost use Rattle.qos_handshakes.specs.Outbox.{CanBeSent, in_flight, by_release, waiting, stage_id, ResumeStep, LostStep, ReleasesStep, NextStep, ChoosesAt, AreOwedFrom, AreOwedWithin, IsFirstOwed, is_owed, without_large, first_owed, after_resend, resent, OfferStep, AcknowledgeStep, CompleteStep, ReceivedStep, takes_puback, takes_pubrec, is_released, is_sendable, IsQueued, without_left_out, first_waiting, after_send};

use crate::answers::{Ack, Offer, Rec};
use crate::copies::{Copies, Entry, Stage, id_of};
use crate::log::Log;
use crate::restored::Restored;
use mqtt_fields::{NUMBERS_END, NoMemory, Qos};
use mqtt_message::{Delivery, sent_is_spelled};
use std::alloc::Global;
use std::marker::Model;

/// How many copies may wait.
pub const QUEUE_ROOM: u64 = 65_536;

/// The first reason code of a PUBREC by which the client refuses the message (MQTT 5.0, 3.5.2.1).
const FIRST_ERROR: u8 = 0x80;

/// A PUBLISH to be sent.
#[derive(Clone, Copy)]
pub struct Sending<'a> {
    /// Its Packet Identifier.
    pub id: u16,
    /// Whether an earlier connection sent it.
    pub dup: bool,
    pub delivery: &'a Delivery,
}

/// Where the copy stands that is sent next, and whether it was sent before.
#[derive(Clone, Copy)]
struct Chosen {
    place: u64,
    dup: bool,
}

/// The deliveries owed to one client, and its unfinished exchanges.
pub struct Outgoing {
    copies: Copies,
    /// The places touched, with room for all that may yet happen to the copies.
    log: Log,
    /// No resend is owed at a place below.
    resend_from: u64,
    /// The place of the first copy that waits; the others stand at the places up to the next one.
    first_waiting: u64,
    next_place: u64,
    next_order: u64,
    /// How many PUBLISHes of this connection are unfinished.
    in_flight: u16,
    maximum: u16,
}

impl Drop for Outgoing {
    fn drop(self) {
        let Outgoing {
            copies: _copies,
            log: _log,
            resend_from: _resend_from,
            first_waiting: _first_waiting,
            next_place: _next_place,
            next_order: _next_order,
            in_flight: _in_flight,
            maximum: _maximum,
        } = self;
    }
}

impl Model for Outgoing {
    ghost use Rattle.qos_handshakes.specs.Touched.{Watched, IsWatched};

    ghost Value = { Watched };

    ghost view = { λ a. record { box = record { copies = a.copies.entries; next_place = a.next_place; next_order = a.next_order; maximum = a.maximum }; touched = a.log.places } };

    ghost invariant = { λ a. IsWatched a.copies.entries a.first_waiting a.in_flight a.next_place a.resend_from a.log.room };
}

fn takes_puback_of(entry: &Entry) -> bool
    ensures { result ≡ takes_puback entry.now.delivery.qos entry.now.stage }
{
    match entry.delivery.qos {
        Qos::AtLeastOnce => matches!(entry.stage, Stage::Published(_)),
        Qos::AtMostOnce | Qos::ExactlyOnce => false,
    }
}

fn takes_pubrec_of(entry: &Entry) -> bool
    ensures { result ≡ takes_pubrec entry.now.delivery.qos entry.now.stage }
{
    match entry.delivery.qos {
        Qos::ExactlyOnce => matches!(entry.stage, Stage::Published(_)),
        Qos::AtMostOnce | Qos::AtLeastOnce => false,
    }
}

fn is_released_of(entry: &Entry) -> bool
    ensures { result ≡ is_released entry.now.stage }
{
    matches!(entry.stage, Stage::Released(_, _))
}

/// How long its PUBLISH is.
#[tactic(auto, unfolding(crate::specs::Length::length_of))]
fn length_of(delivery: &Delivery, now: u64) -> u64
    ensures { result ≡ length_of now delivery.now }
{
    delivery.packet_length(now)
}

/// The PUBLISH of what can be sent has a spelling. This does nothing; its contract is a law.
fn is_spelled(delivery: &Delivery, now: u64, limit: u64, dup: bool, id: u16)
    requires can { CanBeSent now limit id delivery.now }
    requires limit { limit ≤ 268435460 }
    ensures { HasSpelling (Publish (sent delivery.now now dup id)) }
{
    delivery.has_spelling();
    sent_is_spelled();
    let _length = delivery.packet_length(now);
}

fn is_sendable_of(delivery: &Delivery, now: u64, limit: u64) -> bool
    ensures { result ≡ is_sendable now limit delivery.now }
{
    delivery.message.message().alive(now) && length_of(delivery, now) <= limit
}

/// Leaves out copies at the head of the queue, from a first place to a next. The result is the new first place.
fn skip(copies: &mut Copies, log: &mut Log, first: u64, next: u64, now: u64, limit: u64) -> u64
    requires queued { IsQueued first next copies.old.entries }
    requires room { credits copies.old.entries ≤ log.old.room }
    ensures entries { copies.new ≡ record copies.old { entries = without_left_out now limit copies.old.entries } }
    ensures queued { IsQueued result next copies.new.entries }
    ensures marks { Marks copies.old.entries log.old copies.new.entries log.new }
    ensures head { result < next → IsSome (first_waiting now limit copies.new.entries) × (without_left_out now limit copies.new.entries ≡ copies.new.entries) }
{
    let mut place = first;
    while place < next {
        copies.are_ordered();
        match copies.at(place) {
            Some(entry) => {
                if is_sendable_of(&entry.delivery, now, limit) {
                    return place;
                }
            }
            None => return place,
        }
        log.mark(place);
        copies.leave_out(place);
        place += 1;
    }
    place
}

fn is_owed_of(entry: &Entry) -> bool
    ensures { result ≡ is_owed entry.now }
{
    matches!(entry.stage, Stage::Published(_)) && !entry.here
}

/// Ends the exchanges owed, from a place on, that are too large to be sent again. The result is the place of the first
/// that is not; or none is owed, and it is at the limit or past it.
fn next_owed(copies: &mut Copies, log: &mut Log, from: u64, until: u64, now: u64, limit: u64) -> u64
    requires within { AreOwedWithin from until copies.old.entries }
    requires room { credits copies.old.entries ≤ log.old.room }
    ensures entries { copies.new ≡ record copies.old { entries = without_large now limit copies.old.entries } }
    ensures owed { AreOwedWithin result until copies.new.entries }
    ensures marks { Marks copies.old.entries log.old copies.new.entries log.new }
    ensures found { result < until → IsFirstOwed now limit result copies.new.entries }
{
    let mut place = from;
    while place < until {
        copies.are_ordered();
        let Some(found) = copies.first_from(place) else {
            return until;
        };
        if found >= until {
            return until;
        }
        let Some(entry) = copies.at(found) else {
            return until;
        };
        if !is_owed_of(entry) {
            place = found + 1;
            continue;
        }
        if length_of(&entry.delivery, now) <= limit {
            return found;
        }
        log.mark(found);
        copies.end_at(found);
        place = found + 1;
    }
    place
}

/// Sends again the first exchange owed that isn't too large, and ends those owed before it. The result is its place.
fn resend(
    copies: &mut Copies,
    log: &mut Log,
    from: u64,
    until: u64,
    now: u64,
    limit: u64,
) -> Option<u64>
    requires within { AreOwedWithin from until copies.old.entries }
    requires room { credits copies.old.entries ≤ log.old.room }
    ensures left { copies.new ≡ record copies.old { entries = after_resend now limit copies.old.entries } }
    ensures sent { MatchOption result (first_owed now limit copies.old.entries ≡ None) (λ place. IsSomeAnd (at_place place copies.new.entries) (λ x. first_owed now limit copies.old.entries ≡ Some (resent x))) }
    ensures owed { IfSome result (λ place. AreOwedFrom place copies.new.entries) }
    ensures marks { Marks copies.old.entries log.old copies.new.entries log.new }
{
    let place = next_owed(copies, log, from, until, now, limit);
    if place >= until {
        return None;
    }
    copies.send_again(place);
    Some(place)
}

/// Makes room for an identifier more where a copy waits, from a first place to a next.
fn reserve_first(copies: &mut Copies, first: u64, next: u64) -> Result<(), NoMemory>
    ensures room { OnOk result (first < next → HasRoom copies.new) }
    ensures same { copies.new.entries ≡ copies.old.entries }
    ensures some { OnErr result (first < next) }
{
    if first >= next {
        return Ok(());
    }
    copies.reserve()
}

/// Sends the first copy of the queue that isn't left out, under an identifier, and leaves out those before it. The result is
/// its place.
fn send_first(
    copies: &mut Copies,
    log: &mut Log,
    first: u64,
    next: u64,
    id: u16,
    now: u64,
    limit: u64,
) -> Option<u64>
    requires queued { IsQueued first next copies.old.entries }
    requires free { IsLeastFree copies.old.entries id }
    requires slot { id ≤ copies.old.slots }
    requires room { credits copies.old.entries ≤ log.old.room }
    ensures left { copies.new ≡ record copies.old { entries = after_send now limit id copies.old.entries } }
    ensures sent { MatchOption result (first_waiting now limit copies.old.entries ≡ None) (λ place. IsSomeAnd (at_place place copies.new.entries) (λ x. (stage_id x.stage ≡ id) × (first_waiting now limit copies.old.entries ≡ Some x.delivery))) }
    ensures queued { MatchOption result (IsQueued next next copies.new.entries) (λ place. IsQueued (place + 1) next copies.new.entries) }
    ensures marks { Marks copies.old.entries log.old copies.new.entries log.new }
{
    let place = skip(copies, log, first, next, now, limit);
    if place == next {
        return None;
    }
    log.mark(place);
    copies.publish(place, id);
    Some(place)
}

/// With room for all changes of so many entries. For none it takes no memory.
fn log_for(alloc: Global, entries: usize) -> Result<Log, NoMemory>
    ensures room { IfOk result (λ log. 3 * entries ≤ log.room) }
    ensures none { IfOk result (λ log. log.places ≡ []) }
    ensures need { OnErr result (1 ≤ entries) }
{
    let mut log = Log::new(alloc);
    if entries > 0 {
        log.reserve(entries)?;
    }
    Ok(log)
}

impl Outgoing {
    /// Of a session that has just been made.
    pub fn new(alloc: Global) -> Self
        ensures { result ≡ record { box = record { copies = []; next_place = 1; next_order = 1; maximum = 0 }; touched = [] } }
    {
        Outgoing {
            copies: Copies::new(alloc),
            log: Log::new(alloc),
            resend_from: 0,
            first_waiting: 1,
            in_flight: 0,
            next_place: 1,
            next_order: 1,
            maximum: 0,
        }
    }

    /// Of entries that were kept, with the next place: all that is durable, and no connection. None where they contradict
    /// each other: an identifier twice, places that don't rise, a gap among those that wait, an order of release twice. Of
    /// no entries, and where the next place is none, there is no want of memory.
    pub fn from_entries(
        alloc: Global,
        entries: Vec<(u64, Entry)>,
        next_place: u64,
    ) -> Result<Option<Outgoing>, NoMemory>
        ensures made { IfOk result (λ o. MatchOption o (agree next_place entries.items ≡ false) (λ x. (agree next_place entries.items ≡ true) × (x ≡ record { box = restored next_place entries.items; touched = [] }))) }
        ensures need { OnErr result (entries.items ≢ []) }
        ensures numbered { OnErr result ((1 ≤ next_place) × (next_place ≤ 2 ^ 62)) }
    {
        if next_place == 0 || next_place > NUMBERS_END {
            return Ok(None);
        }
        let mut left = entries;
        let mut back = Restored::new(alloc, next_place);
        while let Some((place, entry)) = left.pop() {
            if !back.may_precede(place, &entry) {
                return Ok(None);
            }
            back = back.with(place, entry)?;
        }
        let log = log_for(alloc, back.copies.count())?;
        Ok(Some(Outgoing {
            copies: back.copies,
            log,
            resend_from: 0,
            first_waiting: back.first_waiting,
            in_flight: 0,
            next_place: back.next_place,
            next_order: back.next_order,
            maximum: 0,
        }))
    }

    /// The first entry from a place on. By rising places these are all entries.
    pub fn entry_from(&self, place: u64) -> Option<(u64, &Entry)>
        ensures { MatchOption result (place_from place self.now.box.copies ≡ None) (λ x. (place_from place self.now.box.copies ≡ Some x.0) × (at_place x.0 self.now.box.copies ≡ Some x.1.now)) }
    {
        let Some(found) = self.copies.first_from(place) else {
            return None;
        };
        let Some(entry) = self.copies.at(found) else {
            return None;
        };
        Some((found, entry))
    }

    /// The places of the copies, which rise. Of none there is no want of memory.
    pub fn places(&self, alloc: Global) -> Result<Vec<u64>, NoMemory>
        ensures all { IfOk result (λ places. places.items ≡ keys_of self.now.box.copies) }
        ensures need { OnErr result (self.now.box.copies ≢ []) }
    {
        self.copies.places(alloc)
    }

    /// What stands at a place.
    pub fn entry_at(&self, place: u64) -> Option<&Entry>
        ensures { option_copied result ≡ at_place place self.now.box.copies }
    {
        self.copies.at(place)
    }

    /// The places rise, and are below the next one. This does nothing; its contract is a law.
    pub fn are_placed(&self)
        ensures { ArePlaced self.now.box }
    {
        self.copies.are_ordered();
    }

    /// The place that the next delivery offered gets.
    pub fn next_place(&self) -> u64
        ensures { result ≡ self.now.box.next_place }
    {
        self.next_place
    }

    /// The places where a call has changed what is durable since this was last answered, by rising order, each once; from
    /// then on they are forgotten. For want of memory, of which there is none where there are no places, nothing changes.
    pub fn touched(&mut self, alloc: Global) -> Result<Vec<u64>, NoMemory>
        ensures need { OnErr result (self.old.touched ≢ []) }
        ensures places { IfOk result (λ places. AreListed self.old.touched places.items × (self.new ≡ record self.old { touched = [] })) }
        ensures err { OnErr result (self.new ≡ self.old) }
    {
        self.log.take(alloc)
    }

    /// Adds a delivery at QoS 1 or 2 to the queue. For want of memory, of which there is none where the delivery isn't to be
    /// queued, it comes back, and nothing has changed.
    pub fn offer(&mut self, delivery: Delivery) -> Result<Offer, Delivery>
        requires { delivery.qos ≢ AtMostOnce }
        ensures offered { IfOk result (λ answer. OfferStep self.old.box delivery answer self.new.box) }
        ensures touched { OnOk result (TouchesChanged self.old self.new) }
        ensures back { IfErr result (λ d. d ≡ delivery) }
        ensures err { OnErr result (self.new ≡ self.old) }
        ensures need { OnErr result ((length (waiting self.old.box.copies) < 65536) × (self.old.box.next_place < 2 ^ 62)) }
    {
        if self.next_place - self.first_waiting >= QUEUE_ROOM {
            return Ok(Offer::Full);
        }
        if self.next_place >= NUMBERS_END {
            return Ok(Offer::AtEnd);
        }
        let Ok(()) = self.log.reserve(self.copies.count()) else {
            return Err(delivery);
        };
        self.copies.push(self.next_place, delivery)?;
        self.log.mark(self.next_place);
        self.next_place += 1;
        Ok(Offer::Queued)
    }

    /// A new connection, with its Receive Maximum. Each exchange without PUBREC is owed a resend.
    pub fn resume(&mut self, maximum: u16)
        ensures step { ResumeStep self.old.box maximum self.new.box }
        ensures touched { TouchesChanged self.old self.new }
    {
        self.copies.resume();
        self.resend_from = 0;
        self.in_flight = 0;
        self.maximum = maximum;
    }

    /// The connection is gone, by a crash too: what is durable stays, as `from_entries` would make it of the entries.
    pub fn lost(&mut self)
        ensures step { LostStep self.old.box self.new.box }
        ensures touched { TouchesChanged self.old self.new }
    {
        self.next_order = self.copies.order_above();
        self.resume(0);
    }

    /// The identifiers of the exchanges whose PUBREC came, in the order of the first PUBRECs. They are from 1 to 65,535.
    /// Where there are none they take no memory.
    pub fn releases(&self, alloc: Global) -> Result<Vec<u16>, NoMemory>
        ensures step { IfOk result (λ ids. ReleasesStep self.now.box ids.items self.now.box) }
        ensures need { OnErr result (by_release self.now.box.copies ≢ []) }
        ensures identifiers { IfOk result (λ ids. AllByRecursion (λ id. (1 ≤ id) × (id ≤ 65535)) ids.items) }
    {
        self.copies.are_in_range();
        self.copies.releases(alloc)
    }

    fn advance(&mut self, now: u64, limit: u64) -> Result<Option<Chosen>, NoMemory>
        ensures step { IfOk result (λ o. MatchOption o (NextStep now limit self.old.box None self.new.box) (λ c. ChoosesAt now limit self.old.box c.place c.dup self.new.box)) }
        ensures touched { TouchesChanged self.old self.new }
        ensures err { OnErr result (self.new ≡ self.old) }
        ensures need { OnErr result (in_flight self.old.box.copies < self.old.box.maximum) }
        ensures some { OnErr result (waiting self.old.box.copies ≢ []) }
        ensures sent { IfOk result (λ o. IfSome o (λ c. IsSomeAnd (at_place c.place self.new.box.copies) (λ x. CanBeSent now limit (stage_id x.stage) x.delivery))) }
    {
        if self.in_flight >= self.maximum {
            return Ok(None);
        }
        let first = self.first_waiting;
        let next = self.next_place;
        reserve_first(&mut self.copies, first, next)?;
        self.copies.are_ordered();
        self.copies.are_in_range();
        let from = self.resend_from;
        let owed = resend(&mut self.copies, &mut self.log, from, first, now, limit);
        if let Some(place) = owed {
            self.resend_from = place;
            self.in_flight += 1;
            return Ok(Some(Chosen { place, dup: true }));
        }
        self.resend_from = first;
        if first == next {
            return Ok(None);
        }
        let Some(id) = self.copies.least_free() else {
            return Ok(None);
        };
        let sent = send_first(&mut self.copies, &mut self.log, first, next, id, now, limit);
        let Some(place) = sent else {
            self.first_waiting = next;
            return Ok(None);
        };
        self.first_waiting = place + 1;
        self.resend_from = self.first_waiting;
        self.in_flight += 1;
        Ok(Some(Chosen { place, dup: false }))
    }

    /// The next PUBLISH: while quota is free the resends owed, in order, and then, while an identifier is free, the
    /// queue. `limit` is the client's Maximum Packet Size, at most 268,435,460, the length of the longest packet there is
    /// (MQTT 5.0, 1.5.5). For want of memory, of which there is none while the quota is full, nor where nothing waits, nothing
    /// changes.
    pub fn next(&mut self, now: u64, limit: u64) -> Result<Option<Sending<'_>>, NoMemory>
        requires { limit ≤ 268435460 }
        ensures* after { sem 𝓛 (LeavesNext now limit self.entry result) }
        ensures fits { IfOk result (λ o. IfSome o (λ s. CanBeSent now limit s.id s.delivery.now)) }
        ensures spelled { IfOk result (λ o. IfSome o (λ s. HasSpelling (Publish (sent s.delivery.now now s.dup s.id)))) }
        ensures need { OnErr result (in_flight self.old.box.copies < self.old.box.maximum) }
        ensures some { OnErr result (waiting self.old.box.copies ≢ []) }
    {
        match self.advance(now, limit)? {
            None => Ok(None),
            Some(chosen) => match self.copies.at(chosen.place) {
                None => Ok(None),
                Some(entry) => {
                    let id = id_of(entry);
                    is_spelled(&entry.delivery, now, limit, chosen.dup, id);
                    Ok(Some(Sending {
                        id,
                        dup: chosen.dup,
                        delivery: &entry.delivery,
                    }))
                }
            },
        }
    }

    /// Ends an exchange. `here` is whether its PUBLISH was sent on this connection.
    fn end(&mut self, id: u16, here: bool)
        requires { IsSomeAnd (find_id id self.old.box.copies) (λ x. x.here ≡ here) }
        ensures step { self.new.box ≡ record self.old.box { copies = drop_id id self.old.box.copies } }
        ensures touched { TouchesChanged self.old self.new }
    {
        self.copies.are_ordered();
        self.log.mark(self.copies.place_of(id));
        self.copies.remove(id);
        if here {
            self.in_flight -= 1;
        }
    }

    /// A PUBACK, which ends a QoS 1 exchange (MQTT 5.0, 4.3.2).
    pub fn acknowledge(&mut self, id: u16) -> Ack
        ensures step { AcknowledgeStep self.old.box id result self.new.box }
        ensures touched { TouchesChanged self.old self.new }
    {
        let Some(entry) = self.copies.get(id) else {
            return Ack::Unknown;
        };
        if !takes_puback_of(entry) {
            return Ack::Unknown;
        }
        let here = entry.here;
        self.end(id, here);
        Ack::Done
    }

    /// A PUBCOMP, which ends an exchange whose PUBREL was sent (MQTT 5.0, 4.3.3).
    pub fn complete(&mut self, id: u16) -> Ack
        ensures step { CompleteStep self.old.box id result self.new.box }
        ensures touched { TouchesChanged self.old self.new }
    {
        let Some(entry) = self.copies.get(id) else {
            return Ack::Unknown;
        };
        if !is_released_of(entry) {
            return Ack::Unknown;
        }
        let here = entry.here;
        self.end(id, here);
        Ack::Done
    }

    /// A PUBREC with its reason code, for a QoS 2 exchange (MQTT 5.0, 4.3.3).
    pub fn received(&mut self, id: u16, reason: u8) -> Rec
        ensures step { ReceivedStep self.old.box id reason result self.new.box }
        ensures touched { TouchesChanged self.old self.new }
    {
        let Some(entry) = self.copies.get(id) else {
            return Rec::Unknown;
        };
        if is_released_of(entry) {
            return Rec::Release;
        }
        if !takes_pubrec_of(entry) {
            return Rec::Unknown;
        }
        let here = entry.here;
        if reason >= FIRST_ERROR {
            self.end(id, here);
            return Rec::Ended;
        }
        let order = self.next_order;
        if order >= NUMBERS_END {
            return Rec::AtEnd;
        }
        self.log.mark(self.copies.place_of(id));
        self.copies.release(id, order);
        self.next_order = order + 1;
        Rec::Release
    }
}
