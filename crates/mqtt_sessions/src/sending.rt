//! Copies for the client (MQTT 5.0, 4.3, 4.6 and 4.9).

ghost use Rattle.std.specs.Prelude.{◌≡◌, ◌≤◌, ◌++◌, List, true, false, IfOk, OnOk, IfErr, OnErr};
ghost use Rattle.mqtt_packets.specs.declared.packet.Packet.TheVariants.{Publish};
ghost use Rattle.mqtt_packets.specs.Written.{HasSpelling};
ghost use Rattle.mqtt_message.specs.Sent.{sent};
ghost use Rattle.qos_handshakes.specs.Outbox as outbox;
ghost use Rattle.qos_handshakes.specs.Outbox.{Outbox, Sent};
ghost use Rattle.mqtt_sessions.specs.Reaction.{AreSpelled, publishes_of, pubrels_of};
ghost use Rattle.mqtt_sessions.specs.Reaction as reactions;
ghost use Rattle.mqtt_sessions.specs.Sending as sending;
ghost use Rattle.mqtt_sessions.specs.Sending.{Flushes, MayFlush, QueueEnds, QueueStep, QueueWants, RoomStep, RoomWants};
ghost use Rattle.mqtt_sessions.specs.State as state;
ghost use Rattle.mqtt_sessions.specs.State.{watched, limit_of, room_after, sent_from};
ghost use Rattle.mqtt_sessions.specs.Called.{IsFault};
ghost use Rattle.mqtt_sessions.specs.declared.fault.SessionFault.TheVariants.{NoMemory as OutOfMemory};
ghost use Rattle.session_rows.specs.Changes.{Follows};

use crate::answers::pubrel;
use crate::fault::SessionFault;
use crate::reaction::{Output, Publication, Reaction, nothing, one, overflows, says};
use crate::running::Running;
use mqtt_fields::{NoMemory, Qos};
use mqtt_message::{Delivery, sent_is_spelled};
use qos_handshakes::{Offer, Outgoing};
use std::alloc::Global;

/// Whether some room is left, or it isn't counted.
fn has_room(room: Option<u64>) -> bool
    ensures { result ≡ state.has_room room }
{
    match room {
        Some(bytes) => bytes > 0,
        None => true,
    }
}

/// What is left of the room after a PUBLISH.
#[tactic(auto, unfolding(qos_handshakes::specs::Length::length_of))]
fn room_less(room: Option<u64>, delivery: &Delivery, now: u64) -> Option<u64>
    ensures { result ≡ state.room_less now room delivery.now }
{
    match room {
        Some(bytes) => Some(bytes.saturating_sub(delivery.packet_length(now))),
        None => None,
    }
}

/// Sends all that can be sent while there is room.
pub(crate) fn flush(
    alloc: Global,
    outgoing: &mut Outgoing,
    packets: &mut Vec<Output>,
    room: &mut Option<u64>,
    now: u64,
    limit: u64,
) -> Result<(), NoMemory>
    requires limit { limit ≤ 268435460 }
    requires spelled { AreSpelled now packets.old.items }
    ensures step { IfOk result (λ _. (sents : List Sent) × Flushes now limit room.old outgoing.old.box sents outgoing.new.box × (packets.new.items ≡ packets.old.items ++ publishes_of sents) × (room.new ≡ room_after now room.old sents)) }
    ensures spelled { IfOk result (λ _. AreSpelled now packets.new.items) }
    ensures want { OnErr result (MayFlush room.old outgoing.old.box) }
    ensures follows { OnOk result (Follows outgoing.old outgoing.new) }
{
    while has_room(*room) {
        let Some(sending) = outgoing.next(now, limit)? else {
            return Ok(());
        };
        *room = room_less(*room, &sending.delivery, now);
        let delivery = sending.delivery.copy(alloc)?;
        packets.push(Output::Publish(Publication {
            id: sending.id,
            dup: sending.dup,
            delivery,
        }))?;
    }
    Ok(())
}

/// A PUBREL for each identifier.
pub(crate) fn release(alloc: Global, packets: &mut Vec<Output>, ids: &[u16]) -> Result<(), NoMemory>
    ensures { IfOk result (λ _. packets.new.items ≡ packets.old.items ++ pubrels_of ids.now) }
{
    for id in ids {
        packets.push(Output::Answer(pubrel(alloc, *id, 0).packet))?;
    }
    Ok(())
}

/// Whether a copy at this QoS is sent at once or dropped, and isn't kept (MQTT 5.0, 4.3.1).
pub fn is_once(qos: Qos) -> bool
    ensures { result ≡ sending.is_once qos }
{
    match qos {
        Qos::AtMostOnce => true,
        Qos::AtLeastOnce | Qos::ExactlyOnce => false,
    }
}

/// Whether a client takes the PUBLISH of a delivery.
#[tactic(auto, unfolding(qos_handshakes::specs::Length::length_of))]
fn is_taken(delivery: &Delivery, now: u64, limit: u64) -> bool
    ensures { result ≡ outbox.fits now limit delivery.now }
{
    delivery.packet_length(now) <= limit
}

/// The PUBLISH of a copy at QoS 0 that a client takes has a spelling. This does nothing; its contract is a law.
fn is_spelled(delivery: &Delivery, now: u64, limit: u64)
    requires once { sending.is_once delivery.now.qos ≡ true }
    requires taken { outbox.fits now limit delivery.now ≡ true }
    requires limit { limit ≤ 268435460 }
    ensures { HasSpelling (Publish (sent delivery.now now false 0)) }
{
    delivery.has_spelling();
    sent_is_spelled();
    let _length = delivery.packet_length(now);
}

impl Running {
    /// Sends a copy at QoS 0, where the client is connected and takes it.
    fn send_once(&mut self, delivery: Delivery, now: u64) -> Result<Reaction, SessionFault>
        requires { sending.is_once delivery.qos ≡ true }
        ensures step { IfOk result (λ r. (r ≡ reactions.says (sending.once_of (limit_of self.old.state.link) now delivery)) × (self.new.state ≡ self.old.state)) }
        ensures spelled { IfOk result (λ r. AreSpelled now r.packets) }
        ensures fault { IfErr result (λ e. e ≡ OutOfMemory) }
        ensures want { OnErr result (reactions.sends (sending.once_of (limit_of self.old.state.link) now delivery) ≡ true) }
        ensures outgoing { watched self.new ≡ watched self.old }
    {
        let Some(limit) = self.limit() else {
            return Ok(nothing(self.alloc));
        };
        if !is_taken(&delivery, now, limit) {
            return Ok(nothing(self.alloc));
        }
        is_spelled(&delivery, now, limit);
        let packets = one(
            self.alloc,
            Output::Publish(Publication {
                id: 0,
                dup: false,
                delivery,
            }),
        )?;
        Ok(says(packets))
    }

    /// A copy for the client.
    pub(crate) fn queue(&mut self, delivery: Delivery, now: u64) -> Result<Reaction, SessionFault>
        ensures step { IfOk result (λ r. QueueStep delivery now self.old.state r self.new.state) }
        ensures spelled { IfOk result (λ r. AreSpelled now r.packets) }
        ensures fault { IfErr result (λ e. IsFault (QueueWants delivery now self.old.state) (QueueEnds delivery self.old.state) e) }
        ensures follows { OnOk result (Follows (watched self.old) (watched self.new)) }
    {
        if is_once(delivery.qos) {
            return self.send_once(delivery, now);
        }
        match self.outgoing.offer(delivery) {
            Err(_) => return Err(SessionFault::NoMemory),
            Ok(Offer::AtEnd) => return Err(SessionFault::NumbersAtEnd),
            Ok(Offer::Full) => return Ok(overflows(self.alloc)),
            Ok(Offer::Queued) => {}
        }
        let mut packets = Vec::new(self.alloc);
        let Some(limit) = self.limit() else {
            return Ok(says(packets));
        };
        self.go_on(&mut packets, now, limit)?;
        Ok(says(packets))
    }

    /// The connection takes so many bytes of PUBLISHes from now on, and the queue goes on.
    pub(crate) fn make_room(&mut self, bytes: u64, now: u64) -> Result<Reaction, NoMemory>
        ensures step { IfOk result (λ r. RoomStep bytes now self.old.state r self.new.state) }
        ensures spelled { IfOk result (λ r. AreSpelled now r.packets) }
        ensures want { OnErr result (RoomWants bytes self.old.state) }
        ensures follows { OnOk result (Follows (watched self.old) (watched self.new)) }
    {
        self.room = Some(bytes);
        let mut packets = Vec::new(self.alloc);
        let Some(limit) = self.limit() else {
            return Ok(says(packets));
        };
        self.go_on(&mut packets, now, limit)?;
        Ok(says(packets))
    }

    /// Sends all that can be sent while there is room.
    pub(crate) fn go_on(
        &mut self,
        packets: &mut Vec<Output>,
        now: u64,
        limit: u64,
    ) -> Result<(), NoMemory>
        requires limit { limit ≤ 268435460 }
        requires spelled { AreSpelled now packets.old.items }
        ensures step { IfOk result (λ _. (sents : List Sent) × (after : Outbox) × Flushes now limit self.old.state.room self.old.state.outbox sents after × (packets.new.items ≡ packets.old.items ++ publishes_of sents) × (self.new.state ≡ sent_from self.old.state after now sents)) }
        ensures spelled { IfOk result (λ _. AreSpelled now packets.new.items) }
        ensures want { OnErr result (MayFlush self.old.state.room self.old.state.outbox) }
        ensures follows { OnOk result (Follows (watched self.old) (watched self.new)) }
    {
        flush(
            self.alloc,
            &mut self.outgoing,
            packets,
            &mut self.room,
            now,
            limit,
        )
    }
}
