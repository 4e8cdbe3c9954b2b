//! A session that is connected and served, which after want of memory answers Spent.

ghost use Rattle.std.specs.Prelude.{IsTrue};
ghost use Rattle.mqtt_sessions.specs.State.{IsPublishableIf};

use mqtt_fields::Text;
use mqtt_message::{Message, Will};
use mqtt_packets::{Packet, read_packet};
use mqtt_sessions::{Session, SessionFault};
use std::alloc::Global;
use trial_refusals::{Fault, Trial, bytes_of, ensure, has_ended, judge, refuse};

/// CONNECT of `a` with Session Expiry Interval 100 (MQTT 5.0, 3.1).
const CONNECT: &str = "10 13 0004 4d515454 05 00 003c 05 11 00000064 0001 61";

/// PUBLISH of `x` to `t` at QoS 2 under 7, its PUBREL, at QoS 1 an alias that is set and used, and PINGREQ
/// (MQTT 5.0, 3.3, 3.6 and 3.12).
const PACKETS: [&str; 5] = [
    "34 07 0001 74 0007 00 78",
    "62 02 0007",
    "32 0a 0001 74 0008 03 23 0001 78",
    "32 09 0000 0009 03 23 0001 79",
    "c0 00",
];

fn packet(alloc: Global, spelling: &str) -> Result<Packet, Fault> {
    let bytes = bytes_of(alloc, spelling)?;
    match read_packet(alloc, &bytes)? {
        Some((packet, _)) => Ok(packet),
        None => Err(Fault::Other),
    }
}

fn packets(alloc: Global) -> Result<Vec<Packet>, Fault> {
    let mut packets = Vec::new(alloc);
    for spelling in PACKETS {
        let packet = packet(alloc, spelling)?;
        packets.push(packet)?;
    }
    Ok(packets)
}

fn session(alloc: Global) -> Result<Session, Fault> {
    let client = Text::new(alloc, "a")?;
    Ok(Session::new(alloc, client))
}

/// Whether the will can be published, if there is one.
fn may_publish(will: &Option<Will>) -> bool
    ensures { IsTrue result → IsPublishableIf will.now }
{
    match will {
        Some(will) => Message::can_accept_will(will),
        None => true,
    }
}

/// The session is connected.
fn connected(session: &mut Session, connect: &Packet) -> Result<(), Fault> {
    match connect {
        Packet::Connect(connect) if may_publish(&connect.will) => {
            session.connect(connect, true, None, 0)?;
            Ok(())
        }
        _ => Err(Fault::Other),
    }
}

/// The session gets a packet, and answers as many.
fn taken(session: &mut Session, packet: &Packet) -> Result<(), Fault> {
    if !packet.is_sound() {
        return Err(Fault::Other);
    }
    let reaction = session.packet(packet, 0, true)?;
    ensure(reaction.packets.len() == 1)
}

/// The session is connected, and gets the packets.
fn served(session: &mut Session, connect: &Packet, packets: &[Packet]) -> Result<(), Fault> {
    connected(session, connect)?;
    for packet in packets {
        taken(session, packet)?;
    }
    Ok(())
}

/// Whether a packet is answered by Spent.
fn is_refused(session: &mut Session, packet: &Packet) -> bool {
    packet.is_sound() && session.packet(packet, 0, true).err() == Some(SessionFault::Spent)
}

/// Whether each call is answered by Spent.
fn is_spent(session: &mut Session, packets: &[Packet]) -> bool {
    for packet in packets {
        if !is_refused(session, packet) {
            return false;
        }
    }
    let spent = Some(SessionFault::Spent);
    session.closed(0).err() == spent
        && session.make_room(1, 0).err() == spent
        && session.tick(0).err() == spent
        && session.finish(0).err() == spent
        && session.rows().err() == spent
}

/// Tries to serve the first of two sessions, and serves the second.
fn try_serving(
    alloc: Global,
    number: usize,
    sessions: &mut (Session, Session),
    connect: &Packet,
    packets: &[Packet],
) -> Trial {
    let (session, other) = sessions;
    refuse(alloc, number);
    let first = served(session, connect, packets);
    let ended = has_ended(alloc);
    let is_over = first.is_ok() || is_spent(session, packets);
    let again = served(other, connect, packets);
    judge(first, ended, is_over, again)
}

fn two_sessions(alloc: Global) -> Result<(Session, Session), Fault> {
    let first = session(alloc)?;
    let second = session(alloc)?;
    Ok((first, second))
}

/// Tries to serve a session.
pub fn try_session(alloc: Global, number: usize) -> Trial {
    let connect = packet(alloc, CONNECT)?;
    let packets = packets(alloc)?;
    let mut sessions = two_sessions(alloc)?;
    let tried = try_serving(alloc, number, &mut sessions, &connect, &packets);
    drop(sessions);
    drop(connect);
    tried
}
