//! What it takes to pass on a message where there are 1,000,000 subscriptions.

use crate::bytes::{no_filters, publish, push_filter};
use crate::server::Server;
use bench_clock::{Failure, Stopwatch};
use std::alloc::Global;

/// How many clients subscribe.
const CLIENTS: u64 = 1_000;

/// How many SUBSCRIBE packets each sends.
const PACKETS: u64 = 10;

/// How many filters each of those has.
const FILTERS: u64 = 100;

/// How many messages are passed on.
const MESSAGES: u64 = 10_000;

/// The topic of each message, which one of the numbered filters is.
const TOPIC: &str = "f/3/4/56";

/// What else matches it, each the filter of one more client.
const WIDER: [&str; 9] = [
    "f/3/4/+", "f/3/+/56", "f/+/4/56", "+/3/4/56", "f/3/4/#", "f/3/#", "+/+/4/56", "+/3/+/56",
    "f/+/+/56",
];

// Adds the filter of a number. All differ, and every tenth has a wildcard.
fn add_filter(alloc: Global, rest: &mut Vec<u8>, number: u64) -> Result<(), Failure> {
    let first = number / 10_000;
    let second = number / 100 % 100;
    let third = number % 100;
    let filter = if number % 10 == 9 {
        format!(in alloc; "f/{first}/+/{number}")?
    } else {
        format!(in alloc; "f/{first}/{second}/{third}")?
    };
    push_filter(rest, filter.as_str(), 0)
}

// Where a filter stands among those of all clients.
fn number_of(client: u64, packet: u64, place: u64) -> u64 {
    let before = client.saturating_mul(PACKETS).saturating_add(packet);
    before.saturating_mul(FILTERS).saturating_add(place)
}

fn filters(alloc: Global, client: u64, packet: u64) -> Result<Vec<u8>, Failure> {
    let mut rest = no_filters(alloc)?;
    for place in 0..FILTERS {
        add_filter(alloc, &mut rest, number_of(client, packet, place))?;
    }
    Ok(rest)
}

fn subscribe(alloc: Global, server: &mut Server, client: u64, packet: u64) -> Result<(), Failure> {
    let rest = filters(alloc, client, packet)?;
    server.subscribe_all(client, &rest)
}

/// A client connects and subscribes to 1,000 filters of its own.
pub fn join(alloc: Global, server: &mut Server, client: u64) -> Result<(), Failure> {
    server.connect(client)?;
    for packet in 0..PACKETS {
        subscribe(alloc, server, client, packet)?;
    }
    Ok(())
}

fn joins(rt: &HostRuntime, server: &mut Server) -> Result<(), Failure> {
    let watch = Stopwatch::start(rt)?;
    for client in 0..CLIENTS {
        join(rt.alloc(), server, client)?;
    }
    Ok(watch.print(rt, "subscriptions, made", CLIENTS * PACKETS * FILTERS)?)
}

fn widen(server: &mut Server) -> Result<(), Failure> {
    for (client, filter) in (CLIENTS + 1..).zip(WIDER) {
        server.connect(client)?;
        server.subscribe(client, filter, 0)?;
    }
    Ok(())
}

// Each message goes out to ten clients.
fn messages(rt: &HostRuntime, server: &mut Server, packet: &[u8]) -> Result<(), Failure> {
    let watch = Stopwatch::start(rt)?;
    for _ in 0..MESSAGES {
        server.give(CLIENTS, packet, 10)?;
    }
    Ok(watch.print(rt, "subscriptions, PUBLISH to 10 of 1000009", MESSAGES)?)
}

fn figures(rt: &HostRuntime, server: &mut Server) -> Result<(), Failure> {
    joins(rt, server)?;
    widen(server)?;
    server.connect(CLIENTS)?;
    let packet = publish(rt.alloc(), TOPIC)?;
    messages(rt, server, &packet)
}

/// The figures of a node with 1,000,000 subscriptions.
pub fn run(rt: &HostRuntime) -> Result<(), Failure> {
    let mut server = Server::start(rt.alloc())?;
    figures(rt, &mut server)
}
