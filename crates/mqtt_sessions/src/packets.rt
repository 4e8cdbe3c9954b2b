//! What each packet of a client comes to.

ghost use Rattle.std.specs.Prelude.{◌≡◌, ◌<◌, ◌≤◌, ◌^◌, IfOk, OnOk, IfErr};
ghost use Rattle.mqtt_packets.specs.Written.{HasSpelling};
ghost use Rattle.mqtt_sessions.specs.Called.{IsFault};
ghost use Rattle.mqtt_sessions.specs.Ending as ending;
ghost use Rattle.mqtt_sessions.specs.Packets.{AcknowledgeWants, CompleteWants, KindEnds, KindStep, KindWants, PacketEnds, PacketStep, PubackStep, PubcompStep, PubrecStep, PubrecWants, WantsMemory};
ghost use Rattle.mqtt_sessions.specs.Reaction.{AreSpelled, Comes};
ghost use Rattle.qos_handshakes.specs.Outbox.{ReceivedStep};
ghost use Rattle.qos_handshakes.specs.declared.answers.Rec.TheVariants.{AtEnd};
ghost use Rattle.session_rows.specs.Changes.{Follows};
ghost use Rattle.mqtt_sessions.specs.State.{watched};

use crate::answers::{pingresp, pubrel};
use crate::fault::SessionFault;
use crate::reaction::{Reaction, ends, nothing, says};
use crate::running::Running;
use mqtt_fields::identifier::SESSION_EXPIRY_INTERVAL;
use mqtt_packets::{Ended, Packet, reason};
use qos_handshakes::{Ack, Rec};

impl Running {
    /// A PUBACK.
    fn puback(&mut self, id: u16, limit: u64, now: u64) -> Result<Reaction, SessionFault>
        requires { limit ≤ 268435460 }
        ensures step { IfOk result (λ r. PubackStep id now limit self.old.state r self.new.state) }
        ensures spelled { IfOk result (λ r. AreSpelled now r.packets) }
        ensures fault { IfErr result (λ e. IsFault (AcknowledgeWants id self.old.state) ⊥ e) }
        ensures follows { OnOk result (Follows (watched self.old) (watched self.new)) }
    {
        let mut packets = Vec::new(self.alloc);
        if matches!(self.outgoing.acknowledge(id), Ack::Unknown) {
            return Ok(says(packets));
        }
        self.go_on(&mut packets, now, limit)?;
        Ok(says(packets))
    }

    /// A PUBCOMP.
    fn pubcomp(&mut self, id: u16, limit: u64, now: u64) -> Result<Reaction, SessionFault>
        requires { limit ≤ 268435460 }
        ensures step { IfOk result (λ r. PubcompStep id now limit self.old.state r self.new.state) }
        ensures spelled { IfOk result (λ r. AreSpelled now r.packets) }
        ensures fault { IfErr result (λ e. IsFault (CompleteWants id self.old.state) ⊥ e) }
        ensures follows { OnOk result (Follows (watched self.old) (watched self.new)) }
    {
        let mut packets = Vec::new(self.alloc);
        if matches!(self.outgoing.complete(id), Ack::Unknown) {
            return Ok(says(packets));
        }
        self.go_on(&mut packets, now, limit)?;
        Ok(says(packets))
    }

    /// A PUBREC.
    fn pubrec(&mut self, id: u16, code: u8, limit: u64, now: u64) -> Result<Reaction, SessionFault>
        requires id { 1 ≤ id }
        requires limit { limit ≤ 268435460 }
        ensures step { IfOk result (λ r. PubrecStep id code now limit self.old.state r self.new.state) }
        ensures spelled { IfOk result (λ r. AreSpelled now r.packets) }
        ensures fault { IfErr result (λ e. IsFault (PubrecWants id code limit self.old.state) (ReceivedStep self.old.state.outbox id code AtEnd self.old.state.outbox) e) }
        ensures follows { OnOk result (Follows (watched self.old) (watched self.new)) }
    {
        let mut packets = Vec::new(self.alloc);
        match self.outgoing.received(id, code) {
            Rec::AtEnd => return Err(SessionFault::NumbersAtEnd),
            Rec::Release => {
                let answer = pubrel(self.alloc, id, reason::SUCCESS);
                return self.answered(limit, answer, None);
            }
            Rec::Unknown => {
                if code >= reason::UNSPECIFIED_ERROR {
                    return Ok(nothing(self.alloc));
                }
                let answer = pubrel(self.alloc, id, reason::PACKET_IDENTIFIER_NOT_FOUND);
                return self.answered(limit, answer, None);
            }
            Rec::Ended => {}
        }
        self.go_on(&mut packets, now, limit)?;
        Ok(says(packets))
    }

    /// A DISCONNECT.
    fn disconnect(&mut self, packet: &Ended, limit: u64) -> Reaction
        ensures step { Comes (ending.disconnected packet.now limit self.old.state) result self.new.state }
        ensures outgoing { watched self.new ≡ watched self.old }
    {
        let old = self.kept.expiry();
        let expiry = packet
            .properties
            .four(SESSION_EXPIRY_INTERVAL)
            .unwrap_or(old);
        if old == 0 && expiry != 0 {
            return self.refused(limit, reason::PROTOCOL_ERROR);
        }
        self.kept.leave(packet.reason, expiry);
        self.connection = None;
        ends(self.alloc, None, 0)
    }

    /// A packet of a connected client.
    fn answer_packet(
        &mut self,
        packet: &Packet,
        room: bool,
        limit: u64,
        now: u64,
    ) -> Result<Reaction, SessionFault>
        requires spelled { HasSpelling packet.now }
        requires moment { now < 2 ^ 62 }
        requires limit { limit ≤ 268435460 }
        ensures step { IfOk result (λ r. KindStep packet.now now room limit self.old.state r self.new.state) }
        ensures spelled { IfOk result (λ r. AreSpelled now r.packets) }
        ensures fault { IfErr result (λ e. IsFault (KindWants packet.now now room limit self.old.state) (KindEnds packet.now self.old.state) e) }
        ensures follows { OnOk result (Follows (watched self.old) (watched self.new)) }
    {
        match packet {
            Packet::Publish(publish) => self.publish(publish, room, limit, now),
            Packet::Puback(ack) => self.puback(ack.identifier, limit, now),
            Packet::Pubrec(ack) => self.pubrec(ack.identifier, ack.reason, limit, now),
            Packet::Pubrel(ack) => self.pubrel(ack.identifier, limit),
            Packet::Pubcomp(ack) => self.pubcomp(ack.identifier, limit, now),
            Packet::Subscribe(request) => self.subscribe(request, limit),
            Packet::Unsubscribe(request) => self.unsubscribe(request, limit),
            Packet::Pingreq => self.answered(limit, pingresp(), None),
            Packet::Disconnect(packet) => Ok(self.disconnect(packet, limit)),
            Packet::Connect(_)
            | Packet::Connack(_)
            | Packet::Suback(_)
            | Packet::Unsuback(_)
            | Packet::Pingresp
            | Packet::Auth(_) => Ok(self.refused(limit, reason::PROTOCOL_ERROR)),
        }
    }

    /// A packet. `room` is whether a retained message would be taken.
    pub(crate) fn packet(
        &mut self,
        packet: &Packet,
        room: bool,
        now: u64,
    ) -> Result<Reaction, SessionFault>
        requires spelled { HasSpelling packet.now }
        requires moment { now < 2 ^ 62 }
        ensures step { IfOk result (λ r. PacketStep packet.now now room self.old.state r self.new.state) }
        ensures spelled { IfOk result (λ r. AreSpelled now r.packets) }
        ensures fault { IfErr result (λ e. IsFault (WantsMemory packet.now now room self.old.state) (PacketEnds packet.now self.old.state) e) }
        ensures follows { OnOk result (Follows (watched self.old) (watched self.new)) }
    {
        let Some(limit) = self.hear(now) else {
            return Ok(nothing(self.alloc));
        };
        self.answer_packet(packet, room, limit, now)
    }
}
