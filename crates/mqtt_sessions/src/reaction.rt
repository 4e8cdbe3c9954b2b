//! What a call of a session answers.

ghost use Rattle.std.specs.Prelude.{◌≡◌, ◌∷◌, [], true, None, Some, IfOk};
ghost use Rattle.mqtt_sessions.specs.Reaction as reactions;

use mqtt_message::{Delivery, Message};
use mqtt_packets::Packet;
use std::alloc::{AllocError, Global};
use std::marker::Model;

/// A PUBLISH to the client.
#[derive(Drop)]
pub struct Publication {
    /// Its Packet Identifier, 0 at QoS 0.
    pub id: u16,
    /// Whether an earlier connection sent it.
    pub dup: bool,
    pub delivery: Delivery,
}

/// A packet to the client. It is written at the moment of its call.
#[derive(Drop)]
pub enum Output {
    Publish(Publication),
    Answer(Packet),
}

/// What the server is to do, after the packets are sent.
#[derive(Drop)]
pub enum Ask {
    /// Pass the message on.
    Pass(Message),
    /// Make the subscriptions of the SUBSCRIBE, and give `answer` their codes.
    Subscribe,
    /// End the subscriptions of the UNSUBSCRIBE, and give `answer` their codes.
    Unsubscribe,
}

/// What a call answers. Contracts see the packets as a list.
#[derive(Drop)]
pub struct Reaction {
    /// To be sent, in order.
    pub packets: Vec<Output>,
    pub ask: Option<Ask>,
    /// The connection closes, after a DISCONNECT with this Reason Code where it isn't 0.
    pub end: Option<u8>,
    /// The session ends, once what is asked for is done.
    pub over: bool,
    /// A full queue left the copy out.
    pub full: bool,
}

impl Model for Reaction {
    ghost use Rattle.mqtt_sessions.specs.Reaction as specs;

    ghost Value = { specs.Reaction };

    ghost view = { λ r. record { packets = r.packets.items; ask = r.ask; end = r.end; over = r.over; full = r.full } };
}

pub(crate) fn says(packets: Vec<Output>) -> Reaction
    ensures { result ≡ reactions.says packets.items }
{
    Reaction {
        packets,
        ask: None,
        end: None,
        over: false,
        full: false,
    }
}

pub(crate) fn nothing(alloc: Global) -> Reaction
    ensures { result ≡ reactions.nothing }
{
    says(Vec::new(alloc))
}

pub(crate) fn asks(alloc: Global, ask: Option<Ask>, over: bool) -> Reaction
    ensures { result ≡ record reactions.nothing { ask = ask; over = over } }
{
    Reaction {
        packets: Vec::new(alloc),
        ask,
        end: None,
        over,
        full: false,
    }
}

pub(crate) fn overflows(alloc: Global) -> Reaction
    ensures { result ≡ record reactions.nothing { full = true } }
{
    Reaction {
        packets: Vec::new(alloc),
        ask: None,
        end: None,
        over: false,
        full: true,
    }
}

/// The connection closes, and still the server is asked.
pub(crate) fn ends(alloc: Global, ask: Option<Ask>, code: u8) -> Reaction
    ensures { result ≡ record reactions.nothing { ask = ask; end = Some code } }
{
    Reaction {
        packets: Vec::new(alloc),
        ask,
        end: Some(code),
        over: false,
        full: false,
    }
}

pub(crate) fn one(alloc: Global, packet: Output) -> Result<Vec<Output>, AllocError>
    ensures { IfOk result (λ packets. packets.items ≡ packet ∷ []) }
{
    let mut packets = Vec::with_capacity(alloc, 1)?;
    packets.push(packet)?;
    Ok(packets)
}
