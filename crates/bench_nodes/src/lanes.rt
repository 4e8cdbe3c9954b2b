//! How many messages with QoS 1 go from one node to another by its lane, as frames of bytes, each of them acknowledged by the
//! client there and by Got.

use crate::bytes::{PUBLISH_1, puback};
use crate::server::{Server, released, sent};
use crate::ships::ship;
use bench_clock::{Failure, Stopwatch, ensure};
use broker_node::{EventKind, Frame, Outcome, Output};
use std::alloc::Global;

/// The connection of the client that publishes, at node 0.
const PUBLISHER: u64 = 0;

/// That of the client that subscribes, at node 1.
const SUBSCRIBER: u64 = 0;

/// How many messages are passed on.
const MESSAGES: u64 = 50_000;

// Both nodes have the subscription, and each knows so of the other.
fn subscribe(here: &mut Server, there: &mut Server) -> Result<(), Failure> {
    here.connect(PUBLISHER)?;
    there.connect(SUBSCRIBER)?;
    there.subscribe(SUBSCRIBER, "t", 1)?;
    ship(there, here)?;
    ship(here, there)?;
    Ok(())
}

// The copy that went out is acknowledged by its client, and the message by Got.
fn acknowledge(here: &mut Server, there: &mut Server, outcome: &Outcome) -> Result<(), Failure> {
    ensure(outcome.outputs.len() == 2)?;
    let (Some(copy), Some(got)) = (sent(outcome, SUBSCRIBER), released(outcome)) else {
        return Err(Failure::Answer);
    };
    let puback = puback(copy)?;
    there.give(SUBSCRIBER, &puback, 0)?;
    here.note(got)
}

fn arrive(here: &mut Server, there: &mut Server, frame: &Frame) -> Result<(), Failure> {
    let outcome = there.hear(frame)?;
    let acknowledged = acknowledge(here, there, &outcome);
    drop(outcome);
    acknowledged
}

fn arrive_all(here: &mut Server, there: &mut Server, outputs: &[Output]) -> Result<(), Failure> {
    for output in outputs {
        if let Output::Frame { frame } = output {
            arrive(here, there, frame)?;
        }
    }
    Ok(())
}

// So many messages wait, are sent at once, and are taken one by one.
fn round(here: &mut Server, there: &mut Server, messages: usize) -> Result<(), Failure> {
    for _ in 0..messages {
        here.give(PUBLISHER, &PUBLISH_1, 1)?;
    }
    let shipped = here.step(EventKind::Ship { peer: 1 })?;
    let is_sent = shipped.outputs.len() == messages;
    let arrived = arrive_all(here, there, &shipped.outputs);
    drop(shipped);
    arrived?;
    ensure(is_sent)
}

fn rounds(
    rt: &HostRuntime,
    here: &mut Server,
    there: &mut Server,
    messages: usize,
) -> Result<(), Failure> {
    let name = format!(in rt.alloc(); "lanes, messages of which {messages} are sent at once")?;
    let count = MESSAGES / (messages as u64).max(1);
    let watch = Stopwatch::start(rt)?;
    for _ in 0..count {
        round(here, there, messages)?;
    }
    Ok(watch.print(rt, name.as_str(), count.saturating_mul(messages as u64))?)
}

fn figures(rt: &HostRuntime, here: &mut Server, there: &mut Server) -> Result<(), Failure> {
    subscribe(here, there)?;
    rounds(rt, here, there, 1)?;
    rounds(rt, here, there, 64)
}

/// The figures of messages between two nodes.
pub fn run(rt: &HostRuntime) -> Result<(), Failure> {
    let mut here = Server::start_of_two(rt.alloc(), 0)?;
    let mut there = Server::start_of_two(rt.alloc(), 1)?;
    figures(rt, &mut here, &mut there)
}
