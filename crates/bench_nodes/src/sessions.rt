//! How many messages with QoS 1 a session takes from its client, and sends to it, each of them acknowledged.

ghost use Rattle.std.specs.Prelude.{IfOk};
ghost use Rattle.mqtt_packets.specs.Written.{HasSpelling};
ghost use Rattle.mqtt_sessions.specs.State.{IsPublishableIf};

use crate::bytes::{PUBLISH_1, connect};
use bench_clock::{Failure, Stopwatch, ensure};
use mqtt_fields::{Properties, Qos, Text};
use mqtt_message::{Delivery, Identifiers, Message, SharedMessage};
use mqtt_packets::{Ack, Connect, Packet, read_packet};
use mqtt_sessions::{Output, Reaction, Session, SessionFault};
use std::alloc::Global;

/// How many messages are taken, and how many are sent.
const MESSAGES: u64 = 1_000_000;

/// The message `on` to `t`, accepted from `a`, which doesn't expire.
const MESSAGE: [u8; 19] = [
    0, 1, 0x74, 0, 0, 0, 2, 0x6f, 0x6e, 0, 0, 1, 0, 1, 0x61, 0, 0, 0, 0,
];

fn sound(packet: Packet) -> Result<Packet, Failure>
    ensures { IfOk result HasSpelling }
{
    if packet.is_sound() {
        return Ok(packet);
    }
    drop(packet);
    Err(Failure::Answer)
}

fn packet(alloc: Global, bytes: &[u8]) -> Result<Packet, Failure>
    ensures { IfOk result HasSpelling }
{
    match read_packet(alloc, bytes) {
        Ok(Some((packet, _))) => sound(packet),
        other => {
            drop(other);
            Err(Failure::Answer)
        }
    }
}

fn without_will(connect: Connect) -> Result<Connect, Failure>
    ensures { IfOk result (λ c. IsPublishableIf c.will) }
{
    if connect.will.is_none() {
        return Ok(connect);
    }
    drop(connect);
    Err(Failure::Answer)
}

// CONNECT of the client, without a will.
fn hello(alloc: Global) -> Result<Connect, Failure>
    ensures { IfOk result (λ c. IsPublishableIf c.will) }
{
    let bytes = connect(alloc, "client")?;
    match packet(alloc, &bytes)? {
        Packet::Connect(connect) => without_will(connect),
        other => {
            drop(other);
            Err(Failure::Answer)
        }
    }
}

// A reaction with so many packets.
fn reacts(call: Result<Reaction, SessionFault>, packets: usize) -> Result<(), Failure> {
    let has_reacted = match &call {
        Ok(reaction) => reaction.packets.len() == packets,
        Err(_) => false,
    };
    drop(call);
    ensure(has_reacted)
}

fn client(alloc: Global) -> Result<Text, Failure> {
    match Text::new(alloc, "client") {
        Ok(client) => Ok(client),
        Err(_) => Err(Failure::Answer),
    }
}

fn take(session: &mut Session, packet: &Packet, packets: usize) -> Result<(), Failure>
    requires { HasSpelling packet.now }
{
    let result = session.packet(packet, 0, true);
    reacts(result, packets)
}

fn take_all(session: &mut Session, publish: &Packet) -> Result<(), Failure>
    requires { HasSpelling publish.now }
{
    for _ in 0..MESSAGES {
        take(session, publish, 1)?;
    }
    Ok(())
}

fn timed(rt: &HostRuntime, session: &mut Session, publish: &Packet) -> Result<(), Failure>
    requires { HasSpelling publish.now }
{
    let watch = Stopwatch::start(rt)?;
    take_all(session, publish)?;
    Ok(watch.print(rt, "session, PUBLISH in to PUBACK", MESSAGES)?)
}

fn takes(rt: &HostRuntime, session: &mut Session) -> Result<(), Failure> {
    let publish = packet(rt.alloc(), &PUBLISH_1)?;
    let taken = timed(rt, session, &publish);
    drop(publish);
    taken
}

fn shared(alloc: Global) -> Result<SharedMessage, Failure> {
    match Message::read(alloc, &MESSAGE) {
        Ok((message, _)) => Ok(SharedMessage::new(alloc, message)?),
        Err(_) => Err(Failure::Answer),
    }
}

fn delivery(alloc: Global, message: &SharedMessage) -> Result<Delivery, Failure> {
    Ok(Delivery {
        message: message.copy()?,
        qos: Qos::AtLeastOnce,
        retain: false,
        identifiers: Identifiers::of(Vec::new(alloc)).ok_or(Failure::Answer)?,
    })
}

// The identifier of the one copy that goes out.
fn identifier(call: &Result<Reaction, SessionFault>) -> Result<u16, Failure> {
    let Ok(reaction) = call else {
        return Err(Failure::Answer);
    };
    match reaction.packets.as_slice() {
        [Output::Publish(copy)] => Ok(copy.id),
        _ => Err(Failure::Answer),
    }
}

// Sends a copy, and answers its identifier.
fn send(alloc: Global, session: &mut Session, message: &SharedMessage) -> Result<u16, Failure> {
    let copy = delivery(alloc, message)?;
    let result = session.queue(copy, 0);
    let sent = identifier(&result);
    drop(result);
    sent
}

fn puback(alloc: Global, identifier: u16) -> Packet {
    Packet::Puback(Ack {
        identifier,
        reason: 0,
        properties: Properties::new(alloc),
    })
}

fn acknowledge(alloc: Global, session: &mut Session, identifier: u16) -> Result<(), Failure> {
    let packet = sound(puback(alloc, identifier))?;
    let taken = take(session, &packet, 0);
    drop(packet);
    taken
}

fn round(alloc: Global, session: &mut Session, message: &SharedMessage) -> Result<(), Failure> {
    let identifier = send(alloc, session, message)?;
    acknowledge(alloc, session, identifier)
}

fn sends(rt: &HostRuntime, session: &mut Session) -> Result<(), Failure> {
    let message = shared(rt.alloc())?;
    let watch = Stopwatch::start(rt)?;
    for _ in 0..MESSAGES {
        round(rt.alloc(), session, &message)?;
    }
    Ok(watch.print(rt, "session, copy out to PUBACK", MESSAGES)?)
}

fn figures(rt: &HostRuntime, session: &mut Session) -> Result<(), Failure> {
    takes(rt, session)?;
    sends(rt, session)
}

// A new session that is connected.
fn connected(alloc: Global) -> Result<Session, Failure> {
    let client = client(alloc)?;
    let connect = hello(alloc)?;
    let mut session = Session::new(alloc, client);
    let result = session.connect(&connect, false, None, 0);
    drop(connect);
    if let Err(failure) = reacts(result, 1) {
        drop(session);
        return Err(failure);
    }
    Ok(session)
}

/// The figures of a session.
pub fn run(rt: &HostRuntime) -> Result<(), Failure> {
    let mut session = connected(rt.alloc())?;
    let told = figures(rt, &mut session);
    drop(session);
    told
}
