//! Messages to shared groups: of many members, many of them, and beside many plain subscribers.

use crate::stores::{dot, join, message};
use bench_clock::{Failure, Stopwatch, ensure};
use bridge_routes::copies_and_picks;
use causal_context::{Context, Lattice};
use mqtt_fields::{SubscriptionOptions, Text};
use mqtt_message::SharedMessage;
use mqtt_topics::{Filter, TopicName};
use replica_store::{Operation, ReplicaStore, delta_of};
use std::alloc::Global;
use subscription_set::Entry;

/// How many members the large group has, and how many plain subscribers there are.
const MOST: u64 = 50_000;

/// How many groups there are.
const GROUPS: u64 = 1_000;

/// How often a message is passed on.
const TIMES: u64 = 10;

fn text(alloc: Global, word: &str, number: u64) -> Result<Text, Failure> {
    let spelled = format!(in alloc; "{word}{number:06}")?;
    Text::new(alloc, spelled.as_str())
        .ok()
        .ok_or(Failure::Answer)
}

// A number below 50,000 in place of another, so that clients don't come in order.
fn mixed(number: u64) -> u64 {
    (number % MOST) * 7_919 % MOST
}

fn entry(alloc: Global, number: u64, filter: &str) -> Result<Entry, Failure> {
    let client = text(alloc, "c", mixed(number))?;
    let spelled = Text::new(alloc, filter).ok().ok_or(Failure::Answer)?;
    let Ok(filter) = Filter::parse(alloc, spelled.as_str()) else {
        return Err(Failure::Answer);
    };
    Entry::new(client, filter, SubscriptionOptions::of_byte(1), 0, 0).ok_or(Failure::Answer)
}

fn subscribe(
    alloc: Global,
    store: &mut ReplicaStore,
    number: u64,
    filter: &str,
) -> Result<(), Failure> {
    let entry = entry(alloc, number, filter)?;
    let operation = Operation::Subscribe {
        dot: dot(1, number.saturating_add(1))?,
        entry,
        cover: Context::new(alloc),
    };
    store.apply(&operation).ok().ok_or(Failure::Answer)
}

// The clients of these numbers subscribe.
fn subscribe_all(
    rt: &HostRuntime,
    store: &mut ReplicaStore,
    from: u64,
    count: u64,
    filter: &str,
) -> Result<(), Failure> {
    let watch = Stopwatch::start(rt)?;
    for number in 0..count {
        subscribe(rt.alloc(), store, from.saturating_add(number), filter)?;
    }
    Ok(watch.print(rt, "groups, subscribed", count)?)
}

// One client subscribes in each of the groups.
fn subscribe_each(alloc: Global, store: &mut ReplicaStore, from: u64) -> Result<(), Failure> {
    for number in 0..GROUPS {
        let filter = format!(in alloc; "$share/g{number}/many")?;
        subscribe(alloc, store, from.saturating_add(number), filter.as_str())?;
    }
    Ok(())
}

fn to(alloc: Global, topic: &str) -> Result<SharedMessage, Failure> {
    let spelled = Text::new(alloc, topic).ok().ok_or(Failure::Answer)?;
    let Ok(name) = TopicName::parse(alloc, spelled.as_str()) else {
        return Err(Failure::Answer);
    };
    let mut made = message(alloc)?;
    made.topic = name;
    Ok(SharedMessage::new(alloc, made)?)
}

fn pass(
    alloc: Global,
    store: &ReplicaStore,
    message: &SharedMessage,
    turn: u64,
) -> Result<usize, Failure> {
    let Ok(made) = copies_and_picks(alloc, store.subscriptions(), message, turn) else {
        return Err(Failure::Memory);
    };
    Ok(made.copies.len().saturating_add(made.picks.len()))
}

// What a message to a topic takes, which comes to so many copies.
fn passes(
    rt: &HostRuntime,
    store: &ReplicaStore,
    name: &str,
    topic: &str,
    copies: usize,
) -> Result<(), Failure> {
    let message = to(rt.alloc(), topic)?;
    let watch = Stopwatch::start(rt)?;
    for turn in 0..TIMES {
        let made = pass(rt.alloc(), store, &message, turn.wrapping_mul(1_234_567))?;
        ensure(made == copies)?;
    }
    Ok(watch.print(rt, name, TIMES)?)
}

// A member comes.
fn comes(alloc: Global, store: &mut ReplicaStore, number: u64) -> Result<(), Failure> {
    let entry = entry(alloc, number, "$share/more/large")?;
    let operation = Operation::Subscribe {
        dot: dot(2, number.saturating_add(1))?,
        entry,
        cover: Context::new(alloc),
    };
    let Ok(delta) = delta_of(alloc, &operation) else {
        return Err(Failure::Memory);
    };
    join(store, &delta)
}

fn all_come(rt: &HostRuntime, store: &mut ReplicaStore) -> Result<(), Failure> {
    let watch = Stopwatch::start(rt)?;
    for number in 0..GROUPS {
        comes(rt.alloc(), store, number)?;
    }
    Ok(watch.print(rt, "groups, a member comes by merge", GROUPS)?)
}

fn figures(rt: &HostRuntime, store: &ReplicaStore) -> Result<(), Failure> {
    passes(
        rt,
        store,
        "groups, the same beside 1002 other groups",
        "large",
        1,
    )?;
    passes(
        rt,
        store,
        "groups, 1000 groups of one member",
        "many",
        1_000,
    )?;
    passes(
        rt,
        store,
        "groups, 50000 plain subscribers",
        "plain",
        50_000,
    )?;
    passes(
        rt,
        store,
        "groups, 50000 plain beside a group",
        "both",
        50_001,
    )?;
    passes(
        rt,
        store,
        "groups, one plain beside a group of 50000",
        "one",
        2,
    )?;
    passes(rt, store, "groups, nobody", "none", 0)
}

/// The figures of messages to shared groups.
pub fn run(rt: &HostRuntime) -> Result<(), Failure> {
    let mut store = ReplicaStore::new(rt.alloc());
    subscribe_all(rt, &mut store, 0, MOST, "$share/one/large")?;
    passes(rt, &store, "groups, one of 50000 members", "large", 1)?;
    subscribe_each(rt.alloc(), &mut store, MOST)?;
    let from = MOST * 2;
    subscribe_all(rt, &mut store, from, MOST, "plain")?;
    subscribe_all(rt, &mut store, MOST * 3, MOST, "both")?;
    subscribe_all(rt, &mut store, MOST * 4, 1, "$share/two/both")?;
    subscribe_all(rt, &mut store, MOST * 5, MOST, "$share/three/one")?;
    subscribe_all(rt, &mut store, MOST * 6, 1, "one")?;
    figures(rt, &store)?;
    all_come(rt, &mut store)
}
