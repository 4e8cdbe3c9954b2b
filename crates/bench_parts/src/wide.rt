//! A store of 1,000,000 subscriptions or topics: what a merge of one takes, and an answer of ten messages.

use crate::stores::{apply, delta, dot, join, message};
use bench_clock::{Failure, Stopwatch, ensure};
use causal_context::Context;
use mqtt_fields::{SubscriptionOptions, Text};
use mqtt_message::SharedMessage;
use mqtt_topics::{Filter, TopicName};
use replica_store::{Content, Operation, ReplicaStore, Stamp};
use std::alloc::Global;
use subscription_set::Entry;

/// How many subscriptions, or topics, a store has.
const MOST: u64 = 1_000_000;

/// How often each part is timed.
const TIMES: u64 = 1_000;

// A text of four levels.
fn levels(alloc: Global, word: &str, number: u64) -> Result<Text, Failure> {
    let first = number / 1000;
    let second = number / 100 % 10;
    let third = number % 100;
    let spelled = format!(in alloc; "{word}/{first}/{second}/{third}")?;
    Text::new(alloc, spelled.as_str())
        .ok()
        .ok_or(Failure::Answer)
}

// One of four levels too, with a wildcard.
fn wildcard(alloc: Global, number: u64) -> Result<Text, Failure> {
    let first = number / 1000;
    let spelled = format!(in alloc; "f/{first}/+/{number}")?;
    Text::new(alloc, spelled.as_str())
        .ok()
        .ok_or(Failure::Answer)
}

// Every tenth has a wildcard.
fn filter(alloc: Global, number: u64) -> Result<Filter, Failure> {
    let text = if number % 10 == 9 {
        wildcard(alloc, number)?
    } else {
        levels(alloc, "f", number)?
    };
    Filter::parse(alloc, text.as_str())
        .ok()
        .ok_or(Failure::Answer)
}

fn entry(alloc: Global, number: u64) -> Result<Entry, Failure> {
    let (Ok(client), Ok(filter)) = (levels(alloc, "c", number), filter(alloc, number)) else {
        return Err(Failure::Memory);
    };
    Entry::new(client, filter, SubscriptionOptions::of_byte(1), 0, 0).ok_or(Failure::Answer)
}

fn subscription(alloc: Global, number: u64) -> Result<Operation, Failure> {
    let dot = dot(1, number)?;
    let entry = entry(alloc, number)?;
    Ok(Operation::Subscribe {
        dot,
        entry,
        cover: Context::new(alloc),
    })
}

fn content(alloc: Global, number: u64) -> Result<Content, Failure> {
    let name = levels(alloc, "t", number)?;
    let Ok(topic) = TopicName::parse(alloc, name.as_str()) else {
        return Err(Failure::Answer);
    };
    let mut message = message(alloc)?;
    message.topic = topic;
    Ok(Content::Set(SharedMessage::new(alloc, message)?))
}

fn put(alloc: Global, number: u64) -> Result<Operation, Failure> {
    let dot = dot(2, number)?;
    let content = content(alloc, number)?;
    let Some(stamp) = Stamp::new(number, 2) else {
        return Err(Failure::Answer);
    };
    Ok(Operation::Put {
        dot,
        stamp,
        content,
    })
}

fn subscribe(alloc: Global, store: &mut ReplicaStore, number: u64) -> Result<(), Failure> {
    let operation = subscription(alloc, number)?;
    apply(store, &operation)
}

fn retain(alloc: Global, store: &mut ReplicaStore, number: u64) -> Result<(), Failure> {
    let operation = put(alloc, number)?;
    apply(store, &operation)
}

fn subscribe_all(rt: &HostRuntime, store: &mut ReplicaStore) -> Result<(), Failure> {
    let watch = Stopwatch::start(rt)?;
    for number in 1..=MOST {
        subscribe(rt.alloc(), store, number)?;
    }
    Ok(watch.print(rt, "wide, apply of a Subscribe", MOST)?)
}

fn retain_all(rt: &HostRuntime, store: &mut ReplicaStore) -> Result<(), Failure> {
    let watch = Stopwatch::start(rt)?;
    for number in 1..=MOST {
        retain(rt.alloc(), store, number)?;
    }
    Ok(watch.print(rt, "wide, apply of a Put", MOST)?)
}

fn delta_at(alloc: Global, number: u64) -> Result<ReplicaStore, Failure> {
    let operation = subscription(alloc, number)?;
    delta(alloc, &operation)
}

fn add_deltas(alloc: Global, deltas: &mut Vec<ReplicaStore>) -> Result<(), Failure> {
    for number in MOST + 1..=MOST + TIMES {
        deltas.push(delta_at(alloc, number)?)?;
    }
    Ok(())
}

fn merges(
    rt: &HostRuntime,
    store: &mut ReplicaStore,
    deltas: &[ReplicaStore],
) -> Result<(), Failure> {
    let watch = Stopwatch::start(rt)?;
    for delta in deltas {
        join(store, delta)?;
    }
    Ok(watch.print(rt, "wide, merge of a Subscribe", TIMES)?)
}

fn answer(store: &ReplicaStore, filter: &Filter) -> Result<(), Failure> {
    match store.retained_for(filter, 0) {
        Ok(messages) => ensure(messages.len() == 10),
        Err(_) => Err(Failure::Memory),
    }
}

// A filter that ten of the topics match.
fn of_ten(alloc: Global) -> Result<Filter, Failure> {
    let Ok(text) = Text::new(alloc, "t/345/+/67") else {
        return Err(Failure::Answer);
    };
    Filter::parse(alloc, text.as_str())
        .ok()
        .ok_or(Failure::Answer)
}

fn answers(rt: &HostRuntime, store: &ReplicaStore) -> Result<(), Failure> {
    let filter = of_ten(rt.alloc())?;
    let watch = Stopwatch::start(rt)?;
    for _ in 0..TIMES {
        answer(store, &filter)?;
    }
    Ok(watch.print(rt, "wide, answer of 10 of 1000000 topics", TIMES)?)
}

fn of_subscriptions(rt: &HostRuntime, store: &mut ReplicaStore) -> Result<(), Failure> {
    subscribe_all(rt, store)?;
    let mut deltas = Vec::new(rt.alloc());
    add_deltas(rt.alloc(), &mut deltas)?;
    merges(rt, store, &deltas)
}

fn of_topics(rt: &HostRuntime, store: &mut ReplicaStore) -> Result<(), Failure> {
    retain_all(rt, store)?;
    answers(rt, store)
}

/// The figures of a store of 1,000,000 subscriptions, and of one of as many topics.
pub fn run(rt: &HostRuntime) -> Result<(), Failure> {
    let mut store = ReplicaStore::new(rt.alloc());
    of_subscriptions(rt, &mut store)?;
    let mut store = ReplicaStore::new(rt.alloc());
    of_topics(rt, &mut store)
}
