//! A session with a full queue and all identifiers in use: what a round of acknowledge, next and offer takes.
ghost use Rattle.std.specs.Prelude.{◌≡◌, ◌≤◌, IfOk};
ghost use Rattle.mqtt_fields.specs.declared.options.Qos.TheVariants.{AtLeastOnce};

use bench_clock::{Failure, Stopwatch, ensure};
use mqtt_fields::Qos;
use mqtt_message::{Delivery, Identifiers, Message, SharedMessage};
use qos_handshakes::{Ack, Offer, Outgoing};
use std::alloc::Global;

/// How many exchanges are unfinished: the greatest identifier.
const UNFINISHED: u16 = 65_535;

/// How many copies wait.
const WAITING: u64 = 65_536;

/// How many rounds are timed.
const ROUNDS: u64 = 1_000_000;

/// The length of the longest packet.
const LONGEST: u64 = 268_435_460;

/// The message `on` to `t`, accepted from `a`, which doesn't expire.
const MESSAGE: [u8; 19] = [
    0, 1, 0x74, 0, 0, 0, 2, 0x6f, 0x6e, 0, 0, 1, 0, 1, 0x61, 0, 0, 0, 0,
];

fn delivery(alloc: Global, message: &SharedMessage) -> Result<Delivery, Failure>
    ensures { IfOk result (λ d. d.qos ≡ AtLeastOnce) }
{
    Ok(Delivery {
        message: message.copy()?,
        qos: Qos::AtLeastOnce,
        retain: false,
        identifiers: Identifiers::of(Vec::new(alloc)).ok_or(Failure::Answer)?,
    })
}

fn offer(alloc: Global, out: &mut Outgoing, message: &SharedMessage) -> Result<(), Failure> {
    let copy = delivery(alloc, message)?;
    match out.offer(copy) {
        Ok(Offer::Queued) => Ok(()),
        Ok(_) => Err(Failure::Answer),
        Err(_) => Err(Failure::Memory),
    }
}

/// Sends the next copy, and answers its identifier.
fn send(out: &mut Outgoing) -> Result<u16, Failure> {
    match out.next(0, LONGEST)? {
        Some(sending) => Ok(sending.id),
        None => Err(Failure::Answer),
    }
}

fn acknowledge(out: &mut Outgoing, id: u16) -> Result<(), Failure> {
    ensure(out.acknowledge(id) == Ack::Done)
}

// A connection on which every identifier is in use, and the queue is full.
fn full(alloc: Global, message: &SharedMessage) -> Result<Outgoing, Failure> {
    let mut out = Outgoing::new(alloc);
    out.resume(UNFINISHED);
    for _ in 0..UNFINISHED {
        offer(alloc, &mut out, message)?;
        let _id = send(&mut out)?;
    }
    for _ in 0..WAITING {
        offer(alloc, &mut out, message)?;
    }
    let _touched = out.touched(alloc)?;
    Ok(out)
}

/// Each round ends an exchange, sends a copy under its identifier, and queues another.
fn rounds(rt: &HostRuntime, out: &mut Outgoing, message: &SharedMessage) -> Result<(), Failure> {
    let watch = Stopwatch::start(rt)?;
    let mut id = 1u16;
    for _ in 0..ROUNDS {
        acknowledge(out, id)?;
        ensure(send(out)? == id)?;
        offer(rt.alloc(), out, message)?;
        id = if id == UNFINISHED { 1 } else { id + 1 };
    }
    watch.print(rt, "handshakes, rounds of acknowledge, next, offer", ROUNDS)?;
    Ok(())
}

/// Each round does so twice, with the least and the greatest identifier.
fn far_apart(rt: &HostRuntime, out: &mut Outgoing, message: &SharedMessage) -> Result<(), Failure> {
    let watch = Stopwatch::start(rt)?;
    for _ in 0..ROUNDS / 2 {
        acknowledge(out, 1)?;
        acknowledge(out, UNFINISHED)?;
        ensure(send(out)? == 1)?;
        ensure(send(out)? == UNFINISHED)?;
        offer(rt.alloc(), out, message)?;
        offer(rt.alloc(), out, message)?;
    }
    watch.print(
        rt,
        "handshakes, rounds at the least and the greatest identifier",
        ROUNDS,
    )?;
    Ok(())
}

/// As a node does that keeps what changes, each round asks which places were touched.
fn kept(rt: &HostRuntime, out: &mut Outgoing, message: &SharedMessage) -> Result<(), Failure> {
    let watch = Stopwatch::start(rt)?;
    let mut places = 0u64;
    let mut id = 1u16;
    for _ in 0..ROUNDS {
        acknowledge(out, id)?;
        ensure(send(out)? == id)?;
        offer(rt.alloc(), out, message)?;
        places = places.saturating_add(out.touched(rt.alloc())?.len() as u64);
        id = if id == UNFINISHED { 1 } else { id + 1 };
    }
    watch.print(rt, "handshakes, rounds with the places touched", ROUNDS)?;
    ensure(places == 3 * ROUNDS)
}

fn clear(alloc: Global, out: &mut Outgoing) -> Result<(), Failure> {
    let _touched = out.touched(alloc)?;
    Ok(())
}

fn figures(rt: &HostRuntime, out: &mut Outgoing, message: &SharedMessage) -> Result<(), Failure> {
    rounds(rt, out, message)?;
    clear(rt.alloc(), out)?;
    far_apart(rt, out, message)?;
    clear(rt.alloc(), out)?;
    kept(rt, out, message)
}

fn shared(alloc: Global) -> Result<SharedMessage, Failure> {
    match Message::read(alloc, &MESSAGE) {
        Ok((message, _)) => Ok(SharedMessage::new(alloc, message)?),
        Err(_) => Err(Failure::Answer),
    }
}

/// The figures of handshakes.
pub fn run(rt: &HostRuntime) -> Result<(), Failure> {
    let message = shared(rt.alloc())?;
    let mut out = full(rt.alloc(), &message)?;
    figures(rt, &mut out, &message)
}
