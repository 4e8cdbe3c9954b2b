//! Replicated state: its operations, its joins, its answers and its rows.

use causal_context::{Dot, Lattice};
use mqtt_fields::{SubscriptionOptions, Text};
use mqtt_message::{Message, SharedMessage};
use mqtt_topics::Filter;
use replica_bytes::read_store;
use replica_rows::{from_rows, rows};
use replica_store::{Content, Operation, ReplicaStore, delta_of};
use row_store::Row;
use std::alloc::Global;
use subscription_set::Entry;
use trial_refusals::{
    Asking, Changing, Fault, MESSAGE, STORE, Trial, bytes_of, ensure, try_asking, try_changing,
};

/// At node 2 `a` subscribed to `t`, as its first operation; its second gave `t` a message.
fn store(alloc: Global) -> Result<ReplicaStore, Fault> {
    let bytes = bytes_of(alloc, STORE)?;
    let (store, _) = read_store(alloc, &bytes)?;
    Ok(store)
}

/// The node of the next operations.
const NODE: u16 = 2;

/// Whether the dot is that of the next operation.
fn is_next(dot: Dot) -> bool {
    dot.node() == NODE && dot.number() == 3
}

/// A subscription of `a` to `t`.
fn entry(alloc: Global) -> Result<Entry, Fault> {
    let client = Text::new(alloc, "a")?;
    let filter = filter(alloc)?;
    Entry::new(client, filter, SubscriptionOptions::of_byte(0), 0, 3).ok_or(Fault::Other)
}

fn filter(alloc: Global) -> Result<Filter, Fault> {
    let text = Text::new(alloc, "t")?;
    let filter = Filter::parse(alloc, text.as_str())?;
    Ok(filter)
}

/// A message to `t`.
fn content(alloc: Global) -> Result<Content, Fault> {
    let bytes = bytes_of(alloc, MESSAGE)?;
    let (message, _) = Message::read(alloc, &bytes)?;
    let message = SharedMessage::new(alloc, message)?;
    Ok(Content::Set(message))
}

/// Whether the operation is a subscription in place of the first.
fn is_resubscription(operation: &Operation) -> bool {
    match operation {
        Operation::Subscribe { dot, cover, .. } => {
            is_next(*dot) && Dot::new(NODE, 1).is_some_and(|first| cover.contains(first))
        }
        _ => false,
    }
}

/// A subscription is made.
#[derive(Clone, Copy)]
struct Subscribing<'a> {
    store: &'a ReplicaStore,
    entry: &'a Entry,
}

impl Asking for Subscribing<'_> {
    fn ask(&self, alloc: Global) -> Result<(), Fault> {
        let entry = self.entry.copy(alloc)?;
        let operation = self.store.make_subscribe(NODE, entry)?;
        let is_right = is_resubscription(&operation);
        drop(operation);
        ensure(is_right)
    }
}

fn try_subscription(alloc: Global, number: usize, store: &ReplicaStore) -> Trial {
    let entry = entry(alloc)?;
    try_asking(
        alloc,
        number,
        &Subscribing {
            store,
            entry: &entry,
        },
    )
}

/// Tries to make a subscription.
pub fn try_make_subscribe(alloc: Global, number: usize) -> Trial {
    let store = store(alloc)?;
    let tried = try_subscription(alloc, number, &store);
    drop(store);
    tried
}

/// The subscription, and a message, as operations of the store.
fn subscribe(alloc: Global, store: &ReplicaStore) -> Result<Operation, Fault> {
    let entry = entry(alloc)?;
    let operation = store.make_subscribe(NODE, entry)?;
    Ok(operation)
}

fn put(alloc: Global, store: &ReplicaStore) -> Result<Operation, Fault> {
    let content = content(alloc)?;
    let operation = store.make_put(NODE, content)?;
    Ok(operation)
}

/// What a store grows by.
#[derive(Clone, Copy)]
enum By<'a> {
    Operation(&'a Operation),
    Delta(&'a ReplicaStore),
}

/// A store takes its next operation.
#[derive(Drop)]
struct Growth<'a> {
    store: &'a mut ReplicaStore,
    before: &'a ReplicaStore,
    by: By<'a>,
}

impl Changing for Growth<'_> {
    fn make(&mut self, _alloc: Global) -> Result<(), Fault> {
        match self.by {
            By::Operation(operation) => self.store.apply(operation)?,
            By::Delta(delta) => self.store.join(delta)?,
        }
        Ok(())
    }

    fn is_as_before(&mut self) -> bool {
        self.store.is_below(self.before) && self.before.is_below(self.store)
    }

    fn is_made(&mut self) -> bool {
        Dot::new(NODE, 3).is_some_and(|next| self.store.taken().contains(next))
            && self.before.is_below(self.store)
    }
}

/// Tries to take an operation, or its delta.
fn try_growth(alloc: Global, number: usize, by: By<'_>) -> Trial {
    let mut grown = store(alloc)?;
    let before = store(alloc)?;
    let mut growth = Growth {
        store: &mut grown,
        before: &before,
        by,
    };
    try_changing(alloc, number, &mut growth)
}

/// Tries to take a subscription.
pub fn try_apply_subscribe(alloc: Global, number: usize) -> Trial {
    let store = store(alloc)?;
    let operation = subscribe(alloc, &store)?;
    drop(store);
    let tried = try_growth(alloc, number, By::Operation(&operation));
    drop(operation);
    tried
}

/// Tries to take a retained message.
pub fn try_apply_put(alloc: Global, number: usize) -> Trial {
    let store = store(alloc)?;
    let operation = put(alloc, &store)?;
    drop(store);
    let tried = try_growth(alloc, number, By::Operation(&operation));
    drop(operation);
    tried
}

/// The delta of a subscription.
fn delta(alloc: Global) -> Result<ReplicaStore, Fault> {
    let store = store(alloc)?;
    let operation = subscribe(alloc, &store)?;
    let delta = delta_of(alloc, &operation)?;
    Ok(delta)
}

/// Tries to join with the delta of a subscription.
pub fn try_join(alloc: Global, number: usize) -> Trial {
    let delta = delta(alloc)?;
    let tried = try_growth(alloc, number, By::Delta(&delta));
    drop(delta);
    tried
}

/// What is asked of a store and an operation.
#[derive(Clone, Copy)]
enum Question<'a> {
    /// Its rows.
    Rows(&'a ReplicaStore),
    /// What it is of these rows, and is itself.
    FromRows(&'a [Row], &'a ReplicaStore),
    /// The messages for the filter.
    RetainedFor(&'a ReplicaStore, &'a Filter),
    /// The delta of an operation.
    DeltaOf(&'a Operation),
}

fn are_same(a: &ReplicaStore, b: &ReplicaStore) -> bool {
    a.is_below(b) && b.is_below(a)
}

/// Whether the rows are of these kinds: a subscription, a retained message, and the dots that were taken and seen.
fn are_rows(rows: &[Row]) -> bool {
    match rows {
        [a, b, c, d] => a.kind == 4 && b.kind == 5 && c.kind == 6 && d.kind == 6,
        _ => false,
    }
}

fn is_store(alloc: Global, rows: &[Row], store: &ReplicaStore) -> Result<(), Fault> {
    let read = from_rows(alloc, rows)?;
    let same = are_same(&read, store);
    drop(read);
    ensure(same)
}

fn is_delta(alloc: Global, operation: &Operation) -> Result<(), Fault> {
    let delta = delta_of(alloc, operation)?;
    let has_it = delta.taken().contains(operation.dot());
    drop(delta);
    ensure(has_it)
}

impl Asking for Question<'_> {
    fn ask(&self, alloc: Global) -> Result<(), Fault> {
        match *self {
            Question::Rows(store) => {
                let rows = rows(alloc, store)?;
                ensure(are_rows(&rows))
            }
            Question::FromRows(rows, store) => is_store(alloc, rows, store),
            Question::RetainedFor(store, filter) => {
                let messages = store.retained_for(filter, 0)?;
                ensure(messages.len() == 1)
            }
            Question::DeltaOf(operation) => is_delta(alloc, operation),
        }
    }
}

/// Tries to list the rows of the store.
pub fn try_rows(alloc: Global, number: usize) -> Trial {
    let store = store(alloc)?;
    let tried = try_asking(alloc, number, &Question::Rows(&store));
    drop(store);
    tried
}

fn rows_of(alloc: Global, store: &ReplicaStore) -> Result<Vec<Row>, Fault> {
    let rows = rows(alloc, store)?;
    Ok(rows)
}

/// Tries to read the store of its rows.
pub fn try_from_rows(alloc: Global, number: usize) -> Trial {
    let store = store(alloc)?;
    let rows = rows_of(alloc, &store)?;
    let tried = try_asking(alloc, number, &Question::FromRows(&rows, &store));
    drop(store);
    tried
}

/// Tries to ask for the retained messages of `t`.
pub fn try_retained_for(alloc: Global, number: usize) -> Trial {
    let filter = filter(alloc)?;
    let store = store(alloc)?;
    let tried = try_asking(alloc, number, &Question::RetainedFor(&store, &filter));
    drop(store);
    tried
}

/// Tries to make the delta of a subscription.
pub fn try_delta_of(alloc: Global, number: usize) -> Trial {
    let store = store(alloc)?;
    let operation = subscribe(alloc, &store)?;
    drop(store);
    let tried = try_asking(alloc, number, &Question::DeltaOf(&operation));
    drop(operation);
    tried
}
