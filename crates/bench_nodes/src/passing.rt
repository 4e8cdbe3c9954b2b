//! How many messages with QoS 1 a node passes on, each of them acknowledged on both sides.

use crate::bytes::{PUBLISH_1, puback};
use crate::server::{Server, sent};
use bench_clock::{Failure, Stopwatch, ensure};
use broker_node::Outcome;
use std::alloc::Global;

/// The client that publishes.
const PUBLISHER: u64 = 0;

/// The client that subscribes.
const SUBSCRIBER: u64 = 1;

/// How many messages are passed on.
const ROUNDS: u64 = 100_000;

fn pair(alloc: Global) -> Result<Server, Failure> {
    let mut server = Server::start(alloc)?;
    server.connect(PUBLISHER)?;
    server.connect(SUBSCRIBER)?;
    server.subscribe(SUBSCRIBER, "t", 1)?;
    Ok(server)
}

// The PUBACK of the copy that went out with another packet.
fn puback_of(outcome: &Outcome) -> Result<[u8; 4], Failure> {
    ensure(outcome.outputs.len() == 2)?;
    match sent(outcome, SUBSCRIBER) {
        Some(copy) => puback(copy),
        None => Err(Failure::Answer),
    }
}

// The publisher's PUBLISH is acknowledged, and the copy goes out; answers the PUBACK of the copy.
fn publish(server: &mut Server) -> Result<[u8; 4], Failure> {
    let outcome = server.take(PUBLISHER, &PUBLISH_1)?;
    let puback = puback_of(&outcome);
    drop(outcome);
    puback
}

fn round(server: &mut Server) -> Result<(), Failure> {
    let puback = publish(server)?;
    server.give(SUBSCRIBER, &puback, 0)
}

fn rounds(rt: &HostRuntime, server: &mut Server) -> Result<(), Failure> {
    let watch = Stopwatch::start(rt)?;
    for _ in 0..ROUNDS {
        round(server)?;
    }
    Ok(watch.print(
        rt,
        "passing, rounds of PUBLISH, PUBACK, copy, PUBACK",
        ROUNDS,
    )?)
}

/// The figure of messages passed on.
pub fn run(rt: &HostRuntime) -> Result<(), Failure> {
    let mut server = pair(rt.alloc())?;
    rounds(rt, &mut server)
}
