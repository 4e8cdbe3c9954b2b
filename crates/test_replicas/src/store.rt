//! The worked examples of docs/cluster.md: which subscriptions stand, and what is retained.

use crate::values::{context, filter, text};
use causal_context::{Context, Lattice};
use mqtt_fields::SubscriptionOptions;
use mqtt_message::{Message, SharedMessage};
use mqtt_topics::TopicName;
use replica_store::{Content, Operation, ReplicaStore, delta_of};
use std::alloc::Global;
use std::process::Abort;
use subscription_set::Entry;

/// The message `on` to `t`, which expires at 6,000.
const ON: [u8; 24] = [
    0, 1, 0x74, 0, 0, 0, 2, 0x6f, 0x6e, 0, 0, 1, 0, 1, 0x61, 1, 0, 0, 0, 0, 0, 0, 0x17, 0x70,
];

/// The message `up` to `t`, which expires at 6,000.
const UP: [u8; 24] = [
    0, 1, 0x74, 0, 0, 0, 2, 0x75, 0x70, 0, 0, 1, 0, 1, 0x61, 1, 0, 0, 0, 0, 0, 0, 0x17, 0x70,
];

fn topic(rt: &impl Abort, alloc: Global) -> TopicName {
    let text = text(rt, alloc, "t");
    TopicName::parse(alloc, text.as_str()).expect(rt, "a name")
}

// A subscription of `a` to this filter.
fn entry(rt: &impl Abort, alloc: Global, to: &str) -> Entry {
    let (client, filter) = (text(rt, alloc, "a"), filter(rt, alloc, to));
    let options = SubscriptionOptions::of_byte(1);
    Entry::new(client, filter, options, 0, 0).expect(rt, "an entry")
}

fn apply(rt: &impl Abort, store: &mut ReplicaStore, operation: &Operation) {
    store.apply(operation).expect(rt, "memory");
}

// `a` subscribes at the node, to this filter.
fn subscribe(
    rt: &impl Abort,
    alloc: Global,
    store: &mut ReplicaStore,
    node: u16,
    to: &str,
) -> Operation {
    let entry = entry(rt, alloc, to);
    let operation = store.make_subscribe(node, entry).expect(rt, "an operation");
    apply(rt, store, &operation);
    operation
}

// `a` is evicted at the node.
fn evict(rt: &impl Abort, alloc: Global, store: &mut ReplicaStore, node: u16) -> Operation {
    let client = text(rt, alloc, "a");
    let removal = store.make_remove(node, &client, None).expect(rt, "memory");
    let operation = removal.expect(rt, "an eviction");
    apply(rt, store, &operation);
    operation
}

// What `t` is given: this message.
fn set(rt: &impl Abort, alloc: Global, bytes: &[u8]) -> Content {
    let (message, _) = Message::read(alloc, bytes).expect(rt, "a message");
    let message = SharedMessage::new(alloc, message).expect(rt, "memory");
    Content::Set(message)
}

// `t` is given this at the node.
fn put(rt: &impl Abort, store: &mut ReplicaStore, node: u16, content: Content) -> Operation {
    let operation = store.make_put(node, content).expect(rt, "an operation");
    apply(rt, store, &operation);
    operation
}

// The delta of an operation reaches a node.
fn take(rt: &impl Abort, alloc: Global, store: &mut ReplicaStore, operation: &Operation) {
    let delta = delta_of(alloc, operation).expect(rt, "memory");
    store.join(&delta).expect(rt, "memory");
    drop(delta);
}

// The deltas of two operations reach a node twice, in another order each time.
fn receive(rt: &impl Abort, alloc: Global, store: &mut ReplicaStore, a: &Operation, b: &Operation) {
    for operation in [a, b, b, a] {
        take(rt, alloc, store, operation);
    }
}

fn standing(rt: &impl Abort, alloc: Global, store: &ReplicaStore) -> Context {
    let client = text(rt, alloc, "a");
    let dots = store.subscriptions().dots_of(&client, None);
    dots.expect(rt, "memory")
}

fn has_dots(rt: &impl Abort, alloc: Global, found: &Context, dots: &[(u16, u64)]) -> bool {
    context(rt, alloc, dots).same(found)
}

// Whether just these dots were taken, were seen, and stand.
fn is_row(
    rt: &impl Abort,
    alloc: Global,
    store: &ReplicaStore,
    taken: &[(u16, u64)],
    seen: &[(u16, u64)],
    stands: &[(u16, u64)],
) -> bool {
    has_dots(rt, alloc, store.taken(), taken)
        && has_dots(rt, alloc, store.subscriptions().seen(), seen)
        && has_dots(rt, alloc, &standing(rt, alloc, store), stands)
}

// The message that `t` has, at this moment.
fn payload<'a>(store: &'a ReplicaStore, topic: &TopicName, now: u64) -> Option<&'a [u8]> {
    let message = store.retained().get(topic, now)?;
    Some(message.message().payload.as_slice())
}

// Whether the message is what `t` has, under this count, until 6,000.
fn is_retained(
    rt: &impl Abort,
    alloc: Global,
    store: &ReplicaStore,
    want: &[u8],
    count: u64,
) -> bool {
    let topic = topic(rt, alloc);
    let first = payload(store, &topic, 5999);
    let after = payload(store, &topic, 6000);
    first == Some(want) && after.is_none() && store.retained().greatest_count() == count
}

// How many messages answer a new subscription.
fn answers(rt: &impl Abort, alloc: Global, store: &ReplicaStore, to: &str, now: u64) -> usize {
    let filter = filter(rt, alloc, to);
    store.retained_for(&filter, now).expect(rt, "memory").len()
}

// Whether both have the same state.
fn are_same(a: &ReplicaStore, b: &ReplicaStore) -> bool {
    a.is_below(b) && b.is_below(a)
}

fn is_same_when_copied(rt: &impl Abort, store: &ReplicaStore) -> bool {
    let copy = store.copy().expect(rt, "memory");
    let same = are_same(store, &copy);
    drop(copy);
    same
}

// Each takes the other's whole state.
fn meet(rt: &impl Abort, a: &mut ReplicaStore, b: &mut ReplicaStore) {
    let old = a.copy().expect(rt, "memory");
    a.join(b).expect(rt, "memory");
    b.join(&old).expect(rt, "memory");
    drop(old);
}

// A node learns of a subscription and evicts its client, which subscribes again: the new subscription stands at both.
fn spare(rt: &impl Abort, alloc: Global, zero: &mut ReplicaStore, one: &mut ReplicaStore) {
    let first = subscribe(rt, alloc, one, 1, "t");
    assert!(rt; is_row(rt, alloc, one, &[(1, 1)], &[(1, 1)], &[(1, 1)]));
    receive(rt, alloc, zero, &first, &first);
    let eviction = evict(rt, alloc, zero, 0);
    assert!(rt; is_row(rt, alloc, zero, &[(0, 1), (1, 1)], &[(0, 1), (1, 1)], &[]));
    let second = subscribe(rt, alloc, one, 1, "t");
    assert!(rt;
        is_row(
            rt,
            alloc,
            one,
            &[(1, 1), (1, 2)],
            &[(1, 1), (1, 2)],
            &[(1, 2)]
        )
    );

    receive(rt, alloc, zero, &second, &first);
    receive(rt, alloc, one, &eviction, &first);
    let end = [(0, 1), (1, 1), (1, 2)];
    assert!(rt; is_row(rt, alloc, zero, &end, &end, &[(1, 2)]));
    assert!(rt; is_row(rt, alloc, one, &end, &end, &[(1, 2)]));
    assert!(rt; are_same(zero, one));
    drop([first, eviction, second]);
}

#[test]
fn a_removal_spares_what_it_did_not_see(rt: HostRuntime) {
    let alloc = rt.alloc();
    let mut zero = ReplicaStore::new(alloc);
    let mut one = ReplicaStore::new(alloc);
    spare(&rt, alloc, &mut zero, &mut one);

    // Whole states meet as deltas do.
    drop(evict(&rt, alloc, &mut zero, 0));
    drop(subscribe(&rt, alloc, &mut one, 1, "u"));
    meet(&rt, &mut zero, &mut one);
    let taken = [(0, 1), (0, 2), (1, 1), (1, 2), (1, 3)];
    assert!(rt; is_row(&rt, alloc, &zero, &taken, &taken, &[(1, 3)]));
    assert!(rt; are_same(&zero, &one));
    drop([zero, one]);
}

// Two nodes give `t` a message each, and learn of the other's: the one of the greater node is retained. Answers the operations.
fn race(
    rt: &impl Abort,
    alloc: Global,
    zero: &mut ReplicaStore,
    one: &mut ReplicaStore,
) -> [Operation; 2] {
    let up = put(rt, zero, 0, set(rt, alloc, &UP));
    let on = put(rt, one, 1, set(rt, alloc, &ON));
    assert!(rt; is_retained(rt, alloc, zero, b"up", 1));
    assert!(rt; is_retained(rt, alloc, one, b"on", 1));
    receive(rt, alloc, zero, &on, &up);
    receive(rt, alloc, one, &up, &on);
    assert!(rt; is_retained(rt, alloc, zero, b"on", 1));
    assert!(rt; is_retained(rt, alloc, one, b"on", 1));
    [up, on]
}

// `t` is cleared at one node, and the other one learns of it after it learns of an older operation again.
fn clear(
    rt: &impl Abort,
    alloc: Global,
    zero: &mut ReplicaStore,
    one: &mut ReplicaStore,
    old: &Operation,
) {
    let none = put(rt, zero, 0, Content::Cleared(topic(rt, alloc)));
    let copy = none.copy(alloc).expect(rt, "memory");
    receive(rt, alloc, one, &copy, old);
    drop([none, copy]);
}

#[test]
fn the_later_put_is_retained(rt: HostRuntime) {
    let alloc = rt.alloc();
    let mut zero = ReplicaStore::new(alloc);
    let mut one = ReplicaStore::new(alloc);
    let operations = race(&rt, alloc, &mut zero, &mut one);
    for (to, now, count) in [
        ("#", 5999, 1),
        ("t", 6000, 0),
        ("u", 0, 0),
        ("$share/g/t", 0, 0),
    ] {
        assert_eq!(rt; answers(&rt, alloc, &one, to, now), count, "at {to}");
    }

    clear(&rt, alloc, &mut zero, &mut one, &operations[1]);
    let retained = one.retained();
    let counts = (
        retained.messages(),
        retained.len(),
        retained.greatest_count(),
    );
    assert_eq!(rt; counts, (0, 1, 2));
    assert_eq!(rt; answers(&rt, alloc, &one, "t", 0), 0);
    assert!(rt; are_same(&zero, &one) && is_same_when_copied(&rt, &one));
    drop(operations);
    drop([zero, one]);
}
