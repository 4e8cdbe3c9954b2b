//! What steps of a node take where most of its clients are idle.

use crate::bytes::{PINGREQ, PUBLISH_0};
use crate::server::{Server, sent};
use bench_clock::{Failure, Stopwatch, ensure};
use broker_node::EventKind;
use std::alloc::Global;

/// The client that publishes.
const PUBLISHER: u64 = 0;

/// The client that subscribes.
const SUBSCRIBER: u64 = 1;

/// How many steps are timed.
const STEPS: u64 = 10_000;

// A node with so many clients, one of which subscribes to `t`.
fn crowd(alloc: Global, clients: u64) -> Result<Server, Failure> {
    let mut server = Server::start(alloc)?;
    for connection in 0..clients {
        server.connect(connection)?;
    }
    server.subscribe(SUBSCRIBER, "t", 0)?;
    Ok(server)
}

fn timed_crowd(rt: &HostRuntime, clients: u64) -> Result<Server, Failure> {
    let watch = Stopwatch::start(rt)?;
    let server = crowd(rt.alloc(), clients)?;
    watch.print(rt, "idle, CONNECT", clients)?;
    Ok(server)
}

fn tick(server: &mut Server) -> Result<(), Failure> {
    let outcome = server.step(EventKind::Tick)?;
    let sent = outcome.outputs.len();
    drop(outcome);
    ensure(sent == 0)
}

fn ping(server: &mut Server) -> Result<(), Failure> {
    server.give(PUBLISHER, &PINGREQ, 1)
}

fn publish(server: &mut Server) -> Result<(), Failure> {
    let outcome = server.take(PUBLISHER, &PUBLISH_0)?;
    let is_sent = sent(&outcome, SUBSCRIBER).is_some();
    drop(outcome);
    ensure(is_sent)
}

fn ticks(rt: &HostRuntime, server: &mut Server, clients: u64) -> Result<(), Failure> {
    let name = format!(in rt.alloc(); "idle, Tick with {clients} clients")?;
    let watch = Stopwatch::start(rt)?;
    for _ in 0..STEPS {
        tick(server)?;
    }
    Ok(watch.print(rt, name.as_str(), STEPS)?)
}

fn pings(rt: &HostRuntime, server: &mut Server, clients: u64) -> Result<(), Failure> {
    let name = format!(in rt.alloc(); "idle, PINGREQ with {clients} clients")?;
    let watch = Stopwatch::start(rt)?;
    for _ in 0..STEPS {
        ping(server)?;
    }
    Ok(watch.print(rt, name.as_str(), STEPS)?)
}

fn publishes(rt: &HostRuntime, server: &mut Server, clients: u64) -> Result<(), Failure> {
    let name = format!(in rt.alloc(); "idle, PUBLISH to one subscriber with {clients} clients")?;
    let watch = Stopwatch::start(rt)?;
    for _ in 0..STEPS {
        publish(server)?;
    }
    Ok(watch.print(rt, name.as_str(), STEPS)?)
}

fn steps(rt: &HostRuntime, server: &mut Server, clients: u64) -> Result<(), Failure> {
    ticks(rt, server, clients)?;
    pings(rt, server, clients)?;
    publishes(rt, server, clients)
}

fn figures(rt: &HostRuntime, clients: u64) -> Result<(), Failure> {
    let mut server = timed_crowd(rt, clients)?;
    steps(rt, &mut server, clients)
}

/// The figures of a node with 10 clients, and of one with 10,000.
pub fn run(rt: &HostRuntime) -> Result<(), Failure> {
    figures(rt, 10)?;
    figures(rt, 10_000)
}
