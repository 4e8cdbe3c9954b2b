//! A store of many subscriptions and topics: what one change of it takes.

use bench_clock::{Failure, Stopwatch, ensure};
use causal_context::{Context, Dot, Lattice};
use mqtt_fields::{SubscriptionOptions, Text};
use mqtt_message::{Message, SharedMessage};
use mqtt_topics::{Filter, TopicName};
use replica_store::{Content, Operation, ReplicaStore, Stamp, delta_of};
use std::alloc::Global;
use subscription_set::Entry;

/// How many subscriptions and topics the store has.
const MOST: u64 = 100_000;

/// How many are joined at once while it is made.
const PART: u64 = 250;

/// How often each change is timed.
const TIMES: u64 = 100;

/// The message `on` to `t`, accepted from `a`.
const MESSAGE: [u8; 24] = [
    0, 1, 0x74, 0, 0, 0, 2, 0x6f, 0x6e, 0, 0, 1, 0, 1, 0x61, 1, 0, 0, 0, 0, 0, 0, 0x17, 0x70,
];

fn text(alloc: Global, word: &str, number: u64) -> Result<Text, Failure> {
    let spelled = format!(in alloc; "{word}/{number:07}")?;
    Text::new(alloc, spelled.as_str())
        .ok()
        .ok_or(Failure::Answer)
}

fn filter(alloc: Global, number: u64) -> Result<Filter, Failure> {
    let text = text(alloc, "f", number)?;
    Filter::parse(alloc, text.as_str())
        .ok()
        .ok_or(Failure::Answer)
}

fn entry(alloc: Global, number: u64) -> Result<Entry, Failure> {
    let (Ok(client), Ok(filter)) = (text(alloc, "c", number), filter(alloc, number)) else {
        return Err(Failure::Memory);
    };
    Entry::new(client, filter, SubscriptionOptions::of_byte(1), 0, 0).ok_or(Failure::Answer)
}

fn topic(alloc: Global, number: u64) -> Result<TopicName, Failure> {
    let name = text(alloc, "t", number)?;
    TopicName::parse(alloc, name.as_str())
        .ok()
        .ok_or(Failure::Answer)
}

pub fn message(alloc: Global) -> Result<Message, Failure> {
    match Message::read(alloc, &MESSAGE) {
        Ok((message, _)) => Ok(message),
        Err(_) => Err(Failure::Answer),
    }
}

// The message, to the topic of this number.
fn content(alloc: Global, number: u64) -> Result<Content, Failure> {
    let topic = topic(alloc, number)?;
    let mut message = message(alloc)?;
    message.topic = topic;
    Ok(Content::Set(SharedMessage::new(alloc, message)?))
}

pub fn dot(node: u16, number: u64) -> Result<Dot, Failure> {
    Dot::new(node, number).ok_or(Failure::Answer)
}

// Of node 1.
fn subscription(alloc: Global, number: u64) -> Result<Operation, Failure> {
    let dot = dot(1, number)?;
    let entry = entry(alloc, number)?;
    Ok(Operation::Subscribe {
        dot,
        entry,
        cover: Context::new(alloc),
    })
}

// Of node 2.
fn put(alloc: Global, number: u64) -> Result<Operation, Failure> {
    let dot = dot(2, number)?;
    let content = content(alloc, number)?;
    let Some(stamp) = Stamp::new(number, 2) else {
        return Err(Failure::Answer);
    };
    Ok(Operation::Put {
        dot,
        stamp,
        content,
    })
}

pub fn apply(store: &mut ReplicaStore, operation: &Operation) -> Result<(), Failure> {
    store.apply(operation).ok().ok_or(Failure::Answer)
}

fn subscribe(alloc: Global, store: &mut ReplicaStore, number: u64) -> Result<(), Failure> {
    let operation = subscription(alloc, number)?;
    apply(store, &operation)
}

fn retain(alloc: Global, store: &mut ReplicaStore, number: u64) -> Result<(), Failure> {
    let operation = put(alloc, number)?;
    apply(store, &operation)
}

// Gives the store the operations of these numbers.
fn fill(alloc: Global, store: &mut ReplicaStore, from: u64, to: u64) -> Result<(), Failure> {
    for number in from..to {
        subscribe(alloc, store, number)?;
        retain(alloc, store, number)?;
    }
    Ok(())
}

pub fn join(store: &mut ReplicaStore, other: &ReplicaStore) -> Result<(), Failure> {
    store.join(other).ok().ok_or(Failure::Memory)
}

// Joins a store of these numbers.
fn join_part(alloc: Global, store: &mut ReplicaStore, from: u64, to: u64) -> Result<(), Failure> {
    let mut part = ReplicaStore::new(alloc);
    fill(alloc, &mut part, from, to)?;
    join(store, &part)
}

// Makes an empty store the one of all, joined of parts.
fn fill_whole(rt: &HostRuntime, store: &mut ReplicaStore) -> Result<(), Failure> {
    let watch = Stopwatch::start(rt)?;
    for place in 0..MOST / PART {
        let from = 1 + place * PART;
        join_part(rt.alloc(), store, from, from + PART)?;
    }
    watch.print(rt, "store, made of operations", 2 * MOST)?;
    ensure(store.subscriptions().entries().len() == 100_000)?;
    ensure(store.retained().len() == 100_000)
}

// Whether an operation was made, which is let go.
fn made<E: Drop>(operation: Result<Operation, E>) -> Result<(), Failure> {
    let is_made = operation.is_ok();
    drop(operation);
    if is_made {
        Ok(())
    } else {
        Err(Failure::Memory)
    }
}

fn make_subscribe(alloc: Global, store: &ReplicaStore, number: u64) -> Result<(), Failure> {
    let entry = entry(alloc, number)?;
    made(store.make_subscribe(1, entry))
}

fn make_put(alloc: Global, store: &ReplicaStore, number: u64) -> Result<(), Failure> {
    let content = content(alloc, number)?;
    made(store.make_put(2, content))
}

fn make_subscribes(rt: &HostRuntime, store: &ReplicaStore) -> Result<(), Failure> {
    let watch = Stopwatch::start(rt)?;
    for number in 0..TIMES {
        make_subscribe(rt.alloc(), store, number * 1000)?;
    }
    Ok(watch.print(rt, "store, make_subscribe", TIMES)?)
}

fn make_puts(rt: &HostRuntime, store: &ReplicaStore) -> Result<(), Failure> {
    let watch = Stopwatch::start(rt)?;
    for number in 0..TIMES {
        make_put(rt.alloc(), store, number * 1000)?;
    }
    Ok(watch.print(rt, "store, make_put", TIMES)?)
}

fn applies(
    rt: &HostRuntime,
    store: &mut ReplicaStore,
    name: &str,
    operations: &[Operation],
) -> Result<(), Failure> {
    let watch = Stopwatch::start(rt)?;
    for operation in operations {
        apply(store, operation)?;
    }
    Ok(watch.print(rt, name, operations.len() as u64)?)
}

pub fn delta(alloc: Global, operation: &Operation) -> Result<ReplicaStore, Failure> {
    delta_of(alloc, operation).ok().ok_or(Failure::Memory)
}

fn add_deltas(
    rt: &HostRuntime,
    operations: &[Operation],
    deltas: &mut Vec<ReplicaStore>,
) -> Result<(), Failure> {
    let watch = Stopwatch::start(rt)?;
    for operation in operations {
        deltas.push(delta(rt.alloc(), operation)?)?;
    }
    Ok(watch.print(rt, "store, delta_of", operations.len() as u64)?)
}

fn join_all(
    rt: &HostRuntime,
    store: &mut ReplicaStore,
    deltas: &[ReplicaStore],
) -> Result<(), Failure> {
    let watch = Stopwatch::start(rt)?;
    for delta in deltas {
        join(store, delta)?;
    }
    Ok(watch.print(rt, "store, join of a delta", deltas.len() as u64)?)
}

fn add_subscriptions(
    alloc: Global,
    from: u64,
    operations: &mut Vec<Operation>,
) -> Result<(), Failure> {
    for number in from..from.saturating_add(TIMES) {
        operations.push(subscription(alloc, number)?)?;
    }
    Ok(())
}

fn add_puts(alloc: Global, from: u64, operations: &mut Vec<Operation>) -> Result<(), Failure> {
    for number in from..from.saturating_add(TIMES) {
        operations.push(put(alloc, number)?)?;
    }
    Ok(())
}

fn subscribes(rt: &HostRuntime, store: &mut ReplicaStore) -> Result<(), Failure> {
    let mut more = Vec::new(rt.alloc());
    add_subscriptions(rt.alloc(), MOST + 1, &mut more)?;
    applies(rt, store, "store, apply of a Subscribe", &more)
}

fn puts(rt: &HostRuntime, store: &mut ReplicaStore) -> Result<(), Failure> {
    let mut more = Vec::new(rt.alloc());
    add_puts(rt.alloc(), MOST + 1, &mut more)?;
    applies(rt, store, "store, apply of a Put", &more)
}

fn deltas(
    rt: &HostRuntime,
    operations: &[Operation],
    store: &mut ReplicaStore,
) -> Result<(), Failure> {
    let mut deltas = Vec::new(rt.alloc());
    add_deltas(rt, operations, &mut deltas)?;
    join_all(rt, store, &deltas)
}

fn joins(rt: &HostRuntime, store: &mut ReplicaStore) -> Result<(), Failure> {
    let mut more = Vec::new(rt.alloc());
    add_subscriptions(rt.alloc(), 2 * MOST, &mut more)?;
    deltas(rt, &more, store)
}

// Gives an empty store retained messages alone, put in falling order of their topics.
fn fill_falling(rt: &HostRuntime, store: &mut ReplicaStore) -> Result<(), Failure> {
    let watch = Stopwatch::start(rt)?;
    for number in (1..=MOST).rev() {
        retain(rt.alloc(), store, number)?;
    }
    watch.print(rt, "store, apply of a Put in falling order of topics", MOST)?;
    ensure(store.retained().messages() == 100_000)
}

fn copy(rt: &HostRuntime, store: &ReplicaStore) -> Result<ReplicaStore, Failure> {
    let watch = Stopwatch::start(rt)?;
    let Ok(copy) = store.copy() else {
        return Err(Failure::Memory);
    };
    match watch.print(rt, "store, copy of 100000 retained messages", 1) {
        Ok(()) => Ok(copy),
        Err(_) => Err(Failure::Outside),
    }
}

fn join_whole(
    rt: &HostRuntime,
    store: &mut ReplicaStore,
    other: &ReplicaStore,
    name: &str,
) -> Result<(), Failure> {
    let watch = Stopwatch::start(rt)?;
    join(store, other)?;
    Ok(watch.print(rt, name, 1)?)
}

// What a whole state of 100,000 retained messages takes.
fn wholes(rt: &HostRuntime, store: &ReplicaStore, empty: &mut ReplicaStore) -> Result<(), Failure> {
    let copy = copy(rt, store)?;
    join_whole(
        rt,
        empty,
        &copy,
        "store, join of 100000 into an empty store",
    )?;
    join_whole(rt, empty, &copy, "store, join of 100000 that are there")?;
    ensure(empty.retained().messages() == 100_000)
}

fn of_all(rt: &HostRuntime, store: &mut ReplicaStore) -> Result<(), Failure> {
    fill_whole(rt, store)?;
    make_subscribes(rt, store)?;
    make_puts(rt, store)?;
    subscribes(rt, store)?;
    puts(rt, store)?;
    joins(rt, store)
}

fn of_messages(rt: &HostRuntime, store: &mut ReplicaStore) -> Result<(), Failure> {
    fill_falling(rt, store)?;
    let mut empty = ReplicaStore::new(rt.alloc());
    wholes(rt, store, &mut empty)
}

/// The figures of a store.
pub fn run(rt: &HostRuntime) -> Result<(), Failure> {
    let mut store = ReplicaStore::new(rt.alloc());
    of_all(rt, &mut store)?;
    let mut store = ReplicaStore::new(rt.alloc());
    of_messages(rt, &mut store)
}
