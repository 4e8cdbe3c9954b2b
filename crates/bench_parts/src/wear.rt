//! A subscription that comes and goes: what a Subscribe and a Remove take after many others, at their node and at a peer that merges
//! their deltas, and how many bytes the dots have that the node has seen.

use crate::stores::{delta, join};
use bench_clock::{Failure, Stopwatch, ensure};
use causal_context::Context;
use mqtt_fields::{SubscriptionOptions, Text};
use mqtt_topics::Filter;
use replica_store::{Operation, ReplicaStore};
use std::alloc::Global;
use subscription_set::Entry;

/// How many pairs are timed together.
const PART: u64 = 1_000;

/// A node, and a peer that merges what it makes.
#[derive(Drop)]
struct Nodes {
    own: ReplicaStore,
    peer: ReplicaStore,
}

fn client(alloc: Global) -> Result<Text, Failure> {
    Text::new(alloc, "c").ok().ok_or(Failure::Memory)
}

fn entry(alloc: Global) -> Result<Entry, Failure> {
    let client = client(alloc)?;
    let spelled = Text::new(alloc, "t").ok().ok_or(Failure::Memory)?;
    let Ok(filter) = Filter::parse(alloc, spelled.as_str()) else {
        return Err(Failure::Answer);
    };
    Entry::new(client, filter, SubscriptionOptions::of_byte(1), 0, 0).ok_or(Failure::Answer)
}

fn subscribe(alloc: Global, store: &ReplicaStore) -> Result<Operation, Failure> {
    let entry = entry(alloc)?;
    store.make_subscribe(1, entry).ok().ok_or(Failure::Memory)
}

fn unsubscribe(alloc: Global, store: &ReplicaStore) -> Result<Operation, Failure> {
    let client = client(alloc)?;
    match store.make_remove(1, &client, None) {
        Ok(Some(operation)) => Ok(operation),
        Ok(None) => Err(Failure::Answer),
        Err(_) => Err(Failure::Memory),
    }
}

// The node takes the operation, whose delta is kept.
fn take(
    alloc: Global,
    store: &mut ReplicaStore,
    operation: &Operation,
    deltas: &mut Vec<ReplicaStore>,
) -> Result<(), Failure> {
    let delta = delta(alloc, operation)?;
    join(store, &delta)?;
    Ok(deltas.push(delta)?)
}

fn pair(
    alloc: Global,
    store: &mut ReplicaStore,
    deltas: &mut Vec<ReplicaStore>,
) -> Result<(), Failure> {
    let operation = subscribe(alloc, store)?;
    take(alloc, store, &operation, deltas)?;
    let operation = unsubscribe(alloc, store)?;
    take(alloc, store, &operation, deltas)
}

fn pairs(
    alloc: Global,
    store: &mut ReplicaStore,
    deltas: &mut Vec<ReplicaStore>,
) -> Result<(), Failure> {
    for _ in 0..PART {
        pair(alloc, store, deltas)?;
    }
    Ok(())
}

fn merge(store: &mut ReplicaStore, deltas: &[ReplicaStore]) -> Result<(), Failure> {
    for delta in deltas {
        join(store, delta)?;
    }
    Ok(())
}

// A part that isn't timed.
fn pass(alloc: Global, nodes: &mut Nodes) -> Result<(), Failure> {
    let mut deltas = Vec::new(alloc);
    pairs(alloc, &mut nodes.own, &mut deltas)?;
    merge(&mut nodes.peer, &deltas)
}

fn bytes_of(alloc: Global, dots: &Context) -> Result<usize, Failure> {
    let mut bytes = Vec::new(alloc);
    dots.write(&mut bytes)?;
    Ok(bytes.len())
}

// What the next pairs take; answers how many bytes the dots have then that were seen.
fn time(rt: &HostRuntime, nodes: &mut Nodes, place: &str) -> Result<usize, Failure> {
    let mut deltas = Vec::new(rt.alloc());
    let watch = Stopwatch::start(rt)?;
    pairs(rt.alloc(), &mut nodes.own, &mut deltas)?;
    let name = format!(in rt.alloc(); "wear, {place} pairs at their node")?;
    watch.print(rt, name.as_str(), PART)?;
    let watch = Stopwatch::start(rt)?;
    merge(&mut nodes.peer, &deltas)?;
    let name = format!(in rt.alloc(); "wear, {place} pairs at a peer")?;
    watch.print(rt, name.as_str(), PART)?;
    let seen = bytes_of(rt.alloc(), nodes.own.subscriptions().seen())?;
    println!(rt; "wear, bytes of the dots that were seen after the {place} pairs: {seen}")?;
    Ok(seen)
}

/// The figures of the first thousand of so many pairs, and of the last thousand.
pub fn run(rt: &HostRuntime, count: u64) -> Result<(), Failure> {
    let mut nodes = Nodes {
        own: ReplicaStore::new(rt.alloc()),
        peer: ReplicaStore::new(rt.alloc()),
    };
    let first = time(rt, &mut nodes, "first")?;
    for _ in 2..count / PART {
        pass(rt.alloc(), &mut nodes)?;
    }
    let last = time(rt, &mut nodes, "last")?;
    ensure(first == last)
}
