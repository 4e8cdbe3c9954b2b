//! Calls of a session.

ghost use Rattle.std.specs.Prelude.{◌≡◌, Err, IfOk, IfSome};
ghost use Rattle.mqtt_sessions.specs.Saved.{NotesIf, state_of};
ghost use Rattle.law_sessions.specs.Sound.{IsSoundEvent};
ghost use Rattle.law_sessions.specs.Runs.{wants_of};
ghost use Rattle.session_table.specs.Calls.{Asks, GivesSpelled, IsTurned, MayTurn, event_of, on_of};
ghost use Rattle.session_table.specs.Wants as wants;

use law_sessions::connect_is_sound;
use mqtt_fields::Qos;
use mqtt_message::Delivery;
use mqtt_packets::{Connect, Packet};
use mqtt_sessions::{Reaction, Session, SessionFault, is_once};

/// A call of a session.
#[derive(Drop)]
pub enum Call<'a> {
    Connect {
        connect: &'a Connect,
        continued: bool,
        room: Option<u64>,
        now: u64,
    },
    Queue {
        delivery: Delivery,
        now: u64,
    },
    Room {
        bytes: u64,
        now: u64,
    },
    Packet {
        packet: &'a Packet,
        now: u64,
        room: bool,
    },
    Answer {
        id: u16,
        codes: &'a [u8],
    },
    Closed(u64),
    Tick(u64),
    Finish(u64),
}

/// Which connection a client is on after a call.
#[derive(Clone, Copy)]
pub enum On {
    Moves(u64),
    Stays,
    Leaves,
}

/// What a call of a session gave, and the connection that this goes to: the one that the client is on then.
#[derive(Drop)]
pub struct Addressed {
    pub reaction: Reaction,
    pub to: Option<u64>,
}

/// The connection that a client is on, by the one before.
pub(crate) fn land(on: On, before: Option<u64>) -> Option<u64>
    ensures { result ≡ on_of on before }
{
    match on {
        On::Moves(connection) => Some(connection),
        On::Stays => before,
        On::Leaves => None,
    }
}

/// A call comes as the law of rows that open a session again asks for it (`law_sessions::stays_durable`). This does nothing; its
/// contract is a law.
pub(crate) fn is_sound(call: &Call<'_>)
    requires { Asks call.now }
    ensures { IsSoundEvent (event_of call.now) }
{
    match call {
        Call::Connect { connect, .. } => connect_is_sound(connect),
        Call::Queue { delivery, .. } => delivery.has_spelling(),
        Call::Room { .. }
        | Call::Packet { .. }
        | Call::Answer { .. }
        | Call::Closed(_)
        | Call::Tick(_)
        | Call::Finish(_) => {}
    }
}

/// Whether a packet leaves the session's own row and its copies as they are.
fn keeps_durable(packet: &Packet) -> bool
    ensures { result ≡ wants.keeps_durable packet.now }
{
    match packet {
        Packet::Publish(publish) => match publish.qos {
            Qos::AtMostOnce | Qos::AtLeastOnce => true,
            Qos::ExactlyOnce => false,
        },
        Packet::Subscribe(_) | Packet::Unsubscribe(_) | Packet::Pingreq => true,
        _ => false,
    }
}

/// Whether a packet ends any connection on which it comes.
fn is_unexpected(packet: &Packet) -> bool
    ensures { result ≡ wants.is_unexpected packet.now }
{
    match packet {
        Packet::Connect(_)
        | Packet::Connack(_)
        | Packet::Suback(_)
        | Packet::Unsuback(_)
        | Packet::Pingresp
        | Packet::Auth(_) => true,
        _ => false,
    }
}

/// Whether a call leaves the rows of the session as they are, as far as is seen before it.
pub(crate) fn keeps_rows(call: &Call<'_>, session: &Session) -> bool
    ensures { IfSome (state_of session.now) (λ s. result ≡ wants.keeps_rows (event_of call.now) s) }
{
    match call {
        Call::Queue { delivery, .. } => is_once(delivery.qos),
        Call::Packet { packet, .. } => {
            session.limit().is_none() || keeps_durable(packet) || is_unexpected(packet)
        }
        Call::Answer { .. } => true,
        Call::Connect { .. }
        | Call::Room { .. }
        | Call::Closed(_)
        | Call::Tick(_)
        | Call::Finish(_) => false,
    }
}

/// Whether a call offers a copy to the queue.
pub(crate) fn is_queue(call: &Call<'_>) -> bool
    ensures { result ≡ wants.is_queue (event_of call.now) }
{
    match call {
        Call::Queue { .. } => true,
        _ => false,
    }
}

/// Whether only a will that is published changes rows by a call.
pub(crate) fn is_ending(call: &Call<'_>) -> bool
    ensures { result ≡ wants.is_ending (event_of call.now) }
{
    match call {
        Call::Tick(_) | Call::Finish(_) => true,
        _ => false,
    }
}

/// One call of a session that isn't spent.
pub(crate) fn turn(session: &mut Session, call: Call<'_>) -> Result<Reaction, SessionFault>
    requires asks { Asks call }
    requires may { MayTurn (event_of call) (state_of session.old) }
    ensures turned { IfSome (state_of session.old) (λ s. IsTurned (event_of call.entry) s result (state_of session.new)) }
    ensures spelled { IfOk result (GivesSpelled (event_of call.entry)) }
    ensures notes { NotesIf session.old session.new }
    ensures wants { result ≡ Err SessionFault.NoMemory → IfSome (state_of session.old) (wants_of (event_of call.entry)) }
{
    match call {
        Call::Connect {
            connect,
            continued,
            room,
            now,
        } => session.connect(connect, continued, room, now),
        Call::Queue { delivery, now } => session.queue(delivery, now),
        Call::Room { bytes, now } => session.make_room(bytes, now),
        Call::Packet { packet, now, room } => session.packet(packet, now, room),
        Call::Answer { id, codes } => session.answer(id, codes),
        Call::Closed(now) => session.closed(now),
        Call::Tick(now) => session.tick(now),
        Call::Finish(now) => session.finish(now),
    }
}
