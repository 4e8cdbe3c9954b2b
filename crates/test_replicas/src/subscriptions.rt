//! What succeeds while there is memory, and which subscription is live.

use crate::values::{dot, filter, text};
use causal_context::{Context, Lattice};
use mqtt_fields::{SubscriptionOptions, Text};
use mqtt_topics::Filter;
use std::alloc::Global;
use std::process::Abort;
use subscription_set::{Entry, SubscriptionSet};

fn entry(rt: &impl Abort, alloc: Global, to: &str, version: u32) -> Entry {
    let (client, filter) = (text(rt, alloc, "a"), filter(rt, alloc, to));
    let options = SubscriptionOptions::of_byte(1);
    Entry::new(client, filter, options, 7, version).expect(rt, "an entry")
}

// The one subscription at the dot, all dots up to it seen.
fn one(rt: &impl Abort, alloc: Global, number: u64, to: &str, version: u32) -> SubscriptionSet {
    let dot = dot(rt, 1, number);
    let mut seen = Context::new(alloc);
    seen.insert(dot).expect(rt, "memory");
    let mut entries = Vec::new(alloc);
    entries
        .push((dot, entry(rt, alloc, to, version)))
        .expect(rt, "memory");
    let set = SubscriptionSet::new(seen, entries).expect(rt, "memory");
    set.expect(rt, "a set")
}

fn put_in(rt: &impl Abort, set: &mut SubscriptionSet, other: SubscriptionSet) {
    set.join(&other).expect(rt, "memory");
    drop(other);
}

// Of `a`: to `t` at 2 under version 1 and at 3 under version 0, and to `u` at 4.
fn some_set(rt: &impl Abort, alloc: Global) -> SubscriptionSet {
    let mut set = one(rt, alloc, 2, "t", 1);
    put_in(rt, &mut set, one(rt, alloc, 3, "t", 0));
    put_in(rt, &mut set, one(rt, alloc, 4, "u", 0));
    set
}

fn copied(rt: &impl Abort, set: SubscriptionSet) -> SubscriptionSet {
    let copy = set.copy().expect(rt, "memory");
    drop(set);
    copy
}

// Whether the dots 2, 3 and 4 are live.
fn live(rt: &impl Abort, set: &SubscriptionSet) -> [bool; 3] {
    let live = set.live().expect(rt, "memory");
    [2, 3, 4].map(|number| live
        .iter()
        .any(|(dot, _)| dot.node() == 1 && dot.number() == number))
}

// How many are live, by counts and by lists.
fn counts(rt: &impl Abort, set: &SubscriptionSet, client: &Text) -> [usize; 3] {
    [
        set.live_count(),
        set.live_count_of(client),
        set.live_of(client).expect(rt, "memory").len(),
    ]
}

#[test]
fn the_latest_is_live(rt: HostRuntime) {
    let set = copied(&rt, some_set(&rt, rt.alloc()));
    let client = text(&rt, rt.alloc(), "a");
    assert_eq!(rt; live(&rt, &set), [true, false, true]);
    assert_eq!(rt; counts(&rt, &set, &client), [2, 2, 2]);
    drop((set, client));
}

fn can_be_asked(rt: &impl Abort, alloc: Global, options: u8, identifier: u32) -> bool {
    let (client, filter) = (text(rt, alloc, "a"), filter(rt, alloc, "t"));
    let options = SubscriptionOptions::of_byte(options);
    Entry::new(client, filter, options, identifier, 0).is_some()
}

#[test]
fn an_entry_is_what_a_subscribe_can_ask(rt: HostRuntime) {
    // Options, identifier, and whether a SUBSCRIBE can have them.
    let rows = [
        (0x00, 0, true),
        (0x2e, 268_435_455, true),
        (0x03, 0, false),
        (0x30, 0, false),
        (0x40, 0, false),
        (0x80, 0, false),
        (0x01, 268_435_456, false),
    ];
    for (options, identifier, can_be) in rows {
        assert_eq!(rt;
            can_be_asked(&rt, rt.alloc(), options, identifier),
            can_be,
            "at {options}"
        );
    }
}

// Whether the dots 2, 3 and 4 are in it.
fn which(rt: &impl Abort, dots: &Context) -> [bool; 3] {
    [
        dots.contains(dot(rt, 1, 2)),
        dots.contains(dot(rt, 1, 3)),
        dots.contains(dot(rt, 1, 4)),
    ]
}

fn covered(rt: &impl Abort, set: &SubscriptionSet, client: &Text, by: &Filter) -> [bool; 3] {
    which(rt, &set.dots_of(client, Some(by)).expect(rt, "memory"))
}

fn older(rt: &impl Abort, set: &SubscriptionSet, client: &Text) -> [bool; 3] {
    which(rt, &set.dots_below(client, 1).expect(rt, "memory"))
}

#[test]
fn a_cover_takes_what_stands(rt: HostRuntime) {
    let set = some_set(&rt, rt.alloc());
    let by = entry(&rt, rt.alloc(), "t", 0);
    assert_eq!(rt;
        covered(&rt, &set, by.client(), by.filter()),
        [true, true, false]
    );
    assert_eq!(rt; older(&rt, &set, by.client()), [false, true, true]);
    drop((set, by));
}

// Both sets, by a merge that was made ready.
fn merged(rt: &impl Abort, set: SubscriptionSet, other: &SubscriptionSet) -> SubscriptionSet {
    match set.prepare(other) {
        Ok(ready) => ready.commit(),
        Err(_) => rt.panic("memory"),
    }
}

#[test]
fn a_merge_is_made_ready(rt: HostRuntime) {
    let other = one(&rt, rt.alloc(), 5, "u", 0);
    let both = merged(&rt, some_set(&rt, rt.alloc()), &other);
    assert_eq!(rt; both.entries().len(), 4);
    assert!(rt; other.is_below(&both));
    drop((other, both));
}
