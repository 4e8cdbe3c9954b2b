//! Packets of each kind.

ghost use Rattle.std.specs.Prelude.{◌≡◌, ◌↔◌, ◌++◌, IsTrue, IfOk, OnOk, IsErrOf, OnErr, vec_len, vec_capacity, length, ◌+◌, ◌<◌, ◌≤◌};
ghost use Rattle.mqtt_packets.specs.Memory.{WantsMemory};
ghost use Rattle.mqtt_packets.specs.Reading.{Gives};
ghost use Rattle.mqtt_packets.specs.Packet.{head_of, body_bytes, BodyFits, nothing, body_of};
ghost use Rattle.mqtt_packets.specs.Measure.{MeasuresBody};
ghost use Rattle.mqtt_packets.specs.Written.{HasSpelling};

use crate::ack::Ack;
use crate::connack::Connack;
use crate::connect::Connect;
use crate::ended::Ended;
use crate::fault::PacketFault;
use crate::head::Head;
use crate::publish::Publish;
use crate::reasons::Reasons;
use crate::subscribe::Subscribe;
use crate::unsubscribe::Unsubscribe;
use mqtt_fields::{NoMemory, Place};
use std::alloc::Global;

/// A Control Packet (MQTT 5.0, 3).
#[derive(Drop)]
pub enum Packet {
    Connect(Connect),
    Connack(Connack),
    Publish(Publish),
    Puback(Ack),
    Pubrec(Ack),
    Pubrel(Ack),
    Pubcomp(Ack),
    Subscribe(Subscribe),
    Suback(Reasons),
    Unsubscribe(Unsubscribe),
    Unsuback(Reasons),
    Pingreq,
    Pingresp,
    Disconnect(Ended),
    Auth(Ended),
}

/// A packet without a body.
fn empty_of(packet: Packet, bytes: &[u8]) -> Result<Packet, PacketFault>
    ensures exact { Gives (λ x. x) result (nothing packet bytes.now) }
    ensures no_memory { IsErrOf result PacketFault.NoMemory → ⊥ }
{
    if bytes.is_empty() {
        Ok(packet)
    } else {
        Err(PacketFault::Malformed)
    }
}

impl Packet {
    /// The packet with this first byte whose body is all of the bytes.
    #[tactic(auto, unfolding(crate::specs::Packet::body_of, crate::specs::Memory::WantsMemory))]
    pub(crate) fn of(alloc: Global, head: Head, bytes: &[u8]) -> Result<Packet, PacketFault>
        ensures exact { Gives (λ x. x) result (body_of head bytes.now) }
        ensures no_memory { IsErrOf result PacketFault.NoMemory → WantsMemory head bytes.now }
    {
        match head {
            Head::Connect => Ok(Packet::Connect(Connect::of(alloc, bytes)?)),
            Head::Connack => Ok(Packet::Connack(Connack::of(alloc, bytes)?)),
            Head::Publish(flags) => Ok(Packet::Publish(Publish::of(alloc, flags, bytes)?)),
            Head::Puback => Ok(Packet::Puback(Ack::of(alloc, Place::Puback, bytes)?)),
            Head::Pubrec => Ok(Packet::Pubrec(Ack::of(alloc, Place::Pubrec, bytes)?)),
            Head::Pubrel => Ok(Packet::Pubrel(Ack::of(alloc, Place::Pubrel, bytes)?)),
            Head::Pubcomp => Ok(Packet::Pubcomp(Ack::of(alloc, Place::Pubcomp, bytes)?)),
            Head::Subscribe => Ok(Packet::Subscribe(Subscribe::of(alloc, bytes)?)),
            Head::Suback => Ok(Packet::Suback(Reasons::of(alloc, Place::Suback, bytes)?)),
            Head::Unsubscribe => Ok(Packet::Unsubscribe(Unsubscribe::of(alloc, bytes)?)),
            Head::Unsuback => Ok(Packet::Unsuback(Reasons::of(alloc, Place::Unsuback, bytes)?)),
            Head::Pingreq => empty_of(Packet::Pingreq, bytes),
            Head::Pingresp => empty_of(Packet::Pingresp, bytes),
            Head::Disconnect => Ok(Packet::Disconnect(Ended::of(alloc, Place::Disconnect, bytes)?)),
            Head::Auth => Ok(Packet::Auth(Ended::of(alloc, Place::Auth, bytes)?)),
        }
    }

    /// What the first byte says.
    #[tactic(auto, unfolding(crate::specs::Packet::head_of))]
    pub(crate) fn head(&self) -> Head
        ensures { result ≡ head_of self.now }
    {
        match self {
            Packet::Connect(_) => Head::Connect,
            Packet::Connack(_) => Head::Connack,
            Packet::Publish(p) => Head::Publish(p.flags()),
            Packet::Puback(_) => Head::Puback,
            Packet::Pubrec(_) => Head::Pubrec,
            Packet::Pubrel(_) => Head::Pubrel,
            Packet::Pubcomp(_) => Head::Pubcomp,
            Packet::Subscribe(_) => Head::Subscribe,
            Packet::Suback(_) => Head::Suback,
            Packet::Unsubscribe(_) => Head::Unsubscribe,
            Packet::Unsuback(_) => Head::Unsuback,
            Packet::Pingreq => Head::Pingreq,
            Packet::Pingresp => Head::Pingresp,
            Packet::Disconnect(_) => Head::Disconnect,
            Packet::Auth(_) => Head::Auth,
        }
    }

    /// Appends the body.
    #[tactic(auto, unfolding(crate::specs::Packet::body_bytes, crate::specs::Packet::BodyFits))]
    pub(crate) fn write_body(&self, out: &mut Vec<u8>) -> Result<(), NoMemory>
        requires { BodyFits self.now }
        ensures ok { OnOk result (out.new.items ≡ out.old.items ++ body_bytes self.now) }
        ensures full { OnErr result (vec_capacity out.old < vec_len out.old + length (body_bytes self.now)) }
        ensures capacity { vec_capacity out.old ≤ vec_capacity out.new }
    {
        match self {
            Packet::Connect(c) => c.write(out),
            Packet::Connack(c) => c.write(out),
            Packet::Publish(p) => p.write(out),
            Packet::Puback(a) => a.write(Place::Puback, out),
            Packet::Pubrec(a) => a.write(Place::Pubrec, out),
            Packet::Pubrel(a) => a.write(Place::Pubrel, out),
            Packet::Pubcomp(a) => a.write(Place::Pubcomp, out),
            Packet::Subscribe(s) => s.write(out),
            Packet::Suback(r) => r.write(Place::Suback, out),
            Packet::Unsubscribe(u) => u.write(out),
            Packet::Unsuback(r) => r.write(Place::Unsuback, out),
            Packet::Pingreq | Packet::Pingresp => Ok(()),
            Packet::Disconnect(e) => e.write(Place::Disconnect, out),
            Packet::Auth(e) => e.write(Place::Auth, out),
        }
    }

    /// How many bytes the body takes.
    #[tactic(auto, unfolding(crate::specs::Packet::body_bytes, crate::specs::Packet::BodyFits))]
    pub(crate) fn body_len(&self) -> Option<usize>
        ensures { MeasuresBody self.now result }
    {
        match self {
            Packet::Connect(c) => c.len(),
            Packet::Connack(c) => c.len(),
            Packet::Publish(p) => p.len(),
            Packet::Puback(a) => a.len(Place::Puback),
            Packet::Pubrec(a) => a.len(Place::Pubrec),
            Packet::Pubrel(a) => a.len(Place::Pubrel),
            Packet::Pubcomp(a) => a.len(Place::Pubcomp),
            Packet::Subscribe(s) => s.len(),
            Packet::Suback(r) => r.len(Place::Suback),
            Packet::Unsubscribe(u) => u.len(),
            Packet::Unsuback(r) => r.len(Place::Unsuback),
            Packet::Pingreq | Packet::Pingresp => Some(0),
            Packet::Disconnect(e) => e.len(Place::Disconnect),
            Packet::Auth(e) => e.len(Place::Auth),
        }
    }

    /// Whether some bytes spell the packet. Takes no memory.
    #[tactic(auto, using(crate::proofs::SoundLaws::sound_to, crate::proofs::SoundLaws::sound_from))]
    pub fn is_sound(&self) -> bool
        ensures { IsTrue result ↔ HasSpelling self.now }
    {
        self.head().is_allowed() && self.body_len().is_some()
    }

    /// A packet equal to this one.
    pub fn copy(&self, alloc: Global) -> Result<Packet, NoMemory>
        ensures { IfOk result (λ x. x ≡ self.now) }
    {
        match self {
            Packet::Connect(c) => Ok(Packet::Connect(c.copy(alloc)?)),
            Packet::Connack(c) => Ok(Packet::Connack(c.copy(alloc)?)),
            Packet::Publish(p) => Ok(Packet::Publish(p.copy(alloc)?)),
            Packet::Puback(a) => Ok(Packet::Puback(a.copy(alloc)?)),
            Packet::Pubrec(a) => Ok(Packet::Pubrec(a.copy(alloc)?)),
            Packet::Pubrel(a) => Ok(Packet::Pubrel(a.copy(alloc)?)),
            Packet::Pubcomp(a) => Ok(Packet::Pubcomp(a.copy(alloc)?)),
            Packet::Subscribe(s) => Ok(Packet::Subscribe(s.copy(alloc)?)),
            Packet::Suback(r) => Ok(Packet::Suback(r.copy(alloc)?)),
            Packet::Unsubscribe(u) => Ok(Packet::Unsubscribe(u.copy(alloc)?)),
            Packet::Unsuback(r) => Ok(Packet::Unsuback(r.copy(alloc)?)),
            Packet::Pingreq => Ok(Packet::Pingreq),
            Packet::Pingresp => Ok(Packet::Pingresp),
            Packet::Disconnect(e) => Ok(Packet::Disconnect(e.copy(alloc)?)),
            Packet::Auth(e) => Ok(Packet::Auth(e.copy(alloc)?)),
        }
    }
}
