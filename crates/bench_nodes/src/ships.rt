//! What a change costs between two nodes where both hold 100,000 retained messages or subscriptions: the time of Ship and of the
//! merge, and the bytes of the frames.

use crate::bytes::retain;
use crate::server::{Server, released};
use crate::subscriptions::join;
use bench_clock::{Failure, Stopwatch, ensure};
use broker_node::{EventKind, Frame, Outcome};
use std::alloc::Global;

/// How many retained messages there are, or subscriptions.
const MOST: u64 = 100_000;

/// How many subscriptions a client has.
const EACH: u64 = 1_000;

/// How many changes are shipped one by one.
const CHANGES: u64 = 1_000;

/// The connection of the client that publishes.
const PUBLISHER: u64 = 0;

// The one frame that went out.
fn only(outcome: &Outcome) -> Result<&Frame, Failure> {
    ensure(outcome.outputs.len() == 1)?;
    released(outcome).ok_or(Failure::Answer)
}

// The length of the one frame that went out.
fn length(outcome: &Outcome) -> Result<u64, Failure> {
    Ok(only(outcome)?.bytes.as_slice().len() as u64)
}

fn hear(to: &mut Server, outcome: &Outcome) -> Result<Outcome, Failure> {
    to.hear(only(outcome)?)
}

// The Know that went out reaches the node; answers its length.
fn confirm(from: &mut Server, answer: &Outcome) -> Result<u64, Failure> {
    from.note(only(answer)?)?;
    length(answer)
}

// The Delta that went out is merged and confirmed; answers the length of both frames.
fn deliver(from: &mut Server, to: &mut Server, shipped: &Outcome) -> Result<u64, Failure> {
    let answer = hear(to, shipped)?;
    let confirmed = confirm(from, &answer);
    drop(answer);
    Ok(length(shipped)?.saturating_add(confirmed?))
}

/// What the other node may lack of the state is merged there and confirmed; answers the length of the frames.
pub fn ship(from: &mut Server, to: &mut Server) -> Result<u64, Failure> {
    let shipped = from.step(EventKind::Ship { peer: to.id() })?;
    let delivered = deliver(from, to, &shipped);
    drop(shipped);
    delivered
}

// What is timed: Ship and the merge, each by its name.
#[derive(Clone, Copy)]
struct Names {
    ship: &'static str,
    merge: &'static str,
    bytes: &'static str,
}

fn timed_ship(
    rt: &HostRuntime,
    from: &mut Server,
    peer: u16,
    names: &Names,
) -> Result<Outcome, Failure> {
    let watch = Stopwatch::start(rt)?;
    let shipped = from.step(EventKind::Ship { peer })?;
    match watch.print(rt, names.ship, 1) {
        Ok(()) => Ok(shipped),
        Err(_) => {
            drop(shipped);
            Err(Failure::Outside)
        }
    }
}

fn timed_hear(
    rt: &HostRuntime,
    to: &mut Server,
    shipped: &Outcome,
    names: &Names,
) -> Result<Outcome, Failure> {
    let watch = Stopwatch::start(rt)?;
    let answer = hear(to, shipped)?;
    match watch.print(rt, names.merge, 1) {
        Ok(()) => Ok(answer),
        Err(_) => {
            drop(answer);
            Err(Failure::Outside)
        }
    }
}

fn timed_delivery(
    rt: &HostRuntime,
    from: &mut Server,
    to: &mut Server,
    shipped: &Outcome,
    names: &Names,
) -> Result<(), Failure> {
    let bytes = length(shipped)?;
    println!(rt; "{}: {bytes}", names.bytes)?;
    let answer = timed_hear(rt, to, shipped, names)?;
    let confirmed = confirm(from, &answer);
    drop(answer);
    confirmed?;
    Ok(())
}

fn timed(
    rt: &HostRuntime,
    from: &mut Server,
    to: &mut Server,
    names: &Names,
) -> Result<(), Failure> {
    let shipped = timed_ship(rt, from, to.id(), names)?;
    let delivered = timed_delivery(rt, from, to, &shipped, names);
    drop(shipped);
    delivered
}

/// The first time, when the other node has nothing.
const ALL_MESSAGES: Names = Names {
    ship: "ships, Ship of 100000 retained messages",
    merge: "ships, merge of 100000 retained messages",
    bytes: "ships, bytes of a Delta of 100000 retained messages",
};

const ONE_MESSAGE: Names = Names {
    ship: "ships, Ship of one of 100000 retained messages",
    merge: "ships, merge of one of 100000 retained messages",
    bytes: "ships, bytes of a Delta of one retained message",
};

const ALL_SUBSCRIPTIONS: Names = Names {
    ship: "ships, Ship of 100000 subscriptions",
    merge: "ships, merge of 100000 subscriptions",
    bytes: "ships, bytes of a Delta of 100000 subscriptions",
};

const ONE_SUBSCRIPTION: Names = Names {
    ship: "ships, Ship of one more than 100000 subscriptions",
    merge: "ships, merge of one more than 100000 subscriptions",
    bytes: "ships, bytes of a Delta of one subscription",
};

fn publish(alloc: Global, server: &mut Server, number: u64) -> Result<(), Failure> {
    let topic = format!(in alloc; "r/{number}")?;
    let packet = retain(alloc, topic.as_str())?;
    server.give(PUBLISHER, &packet, 0)
}

fn publish_all(alloc: Global, server: &mut Server) -> Result<(), Failure> {
    for number in 0..MOST {
        publish(alloc, server, number)?;
    }
    Ok(())
}

fn change(alloc: Global, from: &mut Server, to: &mut Server, number: u64) -> Result<u64, Failure> {
    publish(alloc, from, number)?;
    ship(from, to)
}

fn changes(rt: &HostRuntime, from: &mut Server, to: &mut Server) -> Result<(), Failure> {
    let watch = Stopwatch::start(rt)?;
    let mut bytes = 0u64;
    for number in 0..CHANGES {
        bytes = bytes.saturating_add(change(rt.alloc(), from, to, number)?);
    }
    watch.print(
        rt,
        "ships, retained messages, each shipped and confirmed",
        CHANGES,
    )?;
    println!(rt; "ships, bytes of the frames of these: {bytes}")?;
    Ok(())
}

fn of_messages(rt: &HostRuntime, from: &mut Server, to: &mut Server) -> Result<(), Failure> {
    from.connect(PUBLISHER)?;
    publish_all(rt.alloc(), from)?;
    timed(rt, from, to, &ALL_MESSAGES)?;
    publish(rt.alloc(), from, 0)?;
    timed(rt, from, to, &ONE_MESSAGE)?;
    changes(rt, from, to)
}

fn join_all(alloc: Global, server: &mut Server) -> Result<(), Failure> {
    for client in 0..MOST / EACH {
        join(alloc, server, client)?;
    }
    Ok(())
}

fn of_subscriptions(rt: &HostRuntime, from: &mut Server, to: &mut Server) -> Result<(), Failure> {
    join_all(rt.alloc(), from)?;
    timed(rt, from, to, &ALL_SUBSCRIPTIONS)?;
    from.connect(MOST)?;
    from.subscribe(MOST, "t", 0)?;
    timed(rt, from, to, &ONE_SUBSCRIPTION)
}

fn messages(rt: &HostRuntime) -> Result<(), Failure> {
    let mut from = Server::start_of_two(rt.alloc(), 0)?;
    let mut to = Server::start_of_two(rt.alloc(), 1)?;
    of_messages(rt, &mut from, &mut to)
}

fn subscriptions(rt: &HostRuntime) -> Result<(), Failure> {
    let mut from = Server::start_of_two(rt.alloc(), 0)?;
    let mut to = Server::start_of_two(rt.alloc(), 1)?;
    of_subscriptions(rt, &mut from, &mut to)
}

/// The figures of what nodes send each other of the state.
pub fn run(rt: &HostRuntime) -> Result<(), Failure> {
    messages(rt)?;
    subscriptions(rt)
}
