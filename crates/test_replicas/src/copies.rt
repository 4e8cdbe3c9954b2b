//! What each client of the subscriptions gets of one message.

use crate::values::{filter, text};
use bridge_routes::{CopiesAndPicks, copies, copies_and_picks, offer_of};
use causal_context::{Context, Dot, Lattice};
use mqtt_fields::{Qos, SubscriptionOptions};
use mqtt_message::{Delivery, Identifiers, Message, SharedMessage};
use std::alloc::Global;
use std::process::Abort;
use subscription_set::{Entry, SubscriptionSet};

/// The message `x` to `t/u` at QoS 2 with RETAIN, published by `p`.
const MESSAGE: [u8; 17] = [
    0, 3, 0x74, 0x2f, 0x75, 0, 0, 0, 1, 0x78, 0, 2, 1, 0, 1, 0x70, 0,
];

/// Clients with a filter, options and an identifier.
pub type Row = (&'static str, &'static str, u8, u32);

/// QoS 1 and 2, No Local and Retain As Published.
const SUBSCRIPTIONS: [Row; 12] = [
    ("b", "t/+", 0x09, 0),
    ("a", "t/#", 0x01, 7),
    ("a", "t/u", 0x02, 3),
    ("a", "#", 0x00, 7),
    ("p", "t/u", 0x06, 4),
    ("q", "t/u", 0x04, 4),
    ("c", "t", 0x02, 0),
    ("c", "$share/g/t/u", 0x01, 5),
    ("d", "$share/g!/t/#", 0x02, 0),
    ("a", "$share/g/t/u", 0x02, 0),
    ("p", "$share/g/#", 0x00, 0),
    ("d", "$share/g/t", 0x00, 0),
];

fn entry(rt: &impl Abort, alloc: Global, row: &Row) -> Entry {
    let (client, to, options, identifier) = *row;
    let (client, filter) = (text(rt, alloc, client), filter(rt, alloc, to));
    let options = SubscriptionOptions::of_byte(options);
    Entry::new(client, filter, options, identifier, 0).expect(rt, "an entry")
}

fn dot(rt: &impl Abort, number: usize) -> Dot {
    Dot::new(0, number as u64 % 65_536 + 1).expect(rt, "a dot")
}

// All dots from 1 on are seen.
fn seen(rt: &impl Abort, alloc: Global) -> Context {
    let mut seen = Context::new(alloc);
    for number in 0..SUBSCRIPTIONS.len() {
        seen.insert(dot(rt, number)).expect(rt, "memory");
    }
    seen
}

fn entries(rt: &impl Abort, alloc: Global, rows: &[Row]) -> Vec<(Dot, Entry)> {
    let mut entries = Vec::new(alloc);
    for (number, row) in rows.iter().enumerate() {
        let entry = (dot(rt, number), entry(rt, alloc, row));
        entries.push(entry).expect(rt, "memory");
    }
    entries
}

// At most as many as `SUBSCRIPTIONS`.
pub fn subscriptions_of(rt: &impl Abort, alloc: Global, rows: &[Row]) -> SubscriptionSet {
    let set = SubscriptionSet::new(seen(rt, alloc), entries(rt, alloc, rows));
    set.expect(rt, "memory").expect(rt, "a set")
}

pub fn subscriptions(rt: &impl Abort, alloc: Global) -> SubscriptionSet {
    subscriptions_of(rt, alloc, &SUBSCRIPTIONS)
}

pub fn message(rt: &impl Abort, alloc: Global) -> SharedMessage {
    let (message, _) = Message::read(alloc, &MESSAGE).expect(rt, "a message");
    SharedMessage::new(alloc, message).expect(rt, "memory")
}

fn told_copies(rt: &impl Abort, alloc: Global, set: &SubscriptionSet) -> String {
    let message = message(rt, alloc);
    let copies = copies(alloc, set, &message).expect(rt, "memory");
    let mut told = String::new(alloc);
    for copy in copies.as_slice() {
        let (client, delivery) = (copy.client.as_str(), &copy.delivery);
        let (qos, retain) = (delivery.qos.number(), delivery.retain);
        let identifiers = delivery.identifiers.as_slice();
        writeln!(told, "{client} {qos} {retain} {identifiers:?}").expect(rt, "memory");
    }
    drop((message, copies));
    told
}

#[test]
fn clients_get_one_copy(rt: HostRuntime) {
    let set = subscriptions(&rt, rt.alloc());
    let told = told_copies(&rt, rt.alloc(), &set);
    assert_eq!(rt;
        told.as_str(),
        "a 2 false [3, 7, 7]\nb 1 true []\nq 0 false [4]\n"
    );
    drop((set, told));
}

fn told_picks(rt: &impl Abort, alloc: Global, set: &SubscriptionSet, turn: u64) -> String {
    let message = message(rt, alloc);
    let both = copies_and_picks(alloc, set, &message, turn).expect(rt, "memory");
    let CopiesAndPicks {
        copies,
        picks,
        matching,
    } = both;
    let mut told = String::new(alloc);
    for pick in picks.as_slice() {
        let (client, filter) = (pick.client.as_str(), pick.filter.as_str());
        let (qos, identifiers) = (
            pick.delivery.qos.number(),
            pick.delivery.identifiers.as_slice(),
        );
        writeln!(told, "{client} {filter} {qos} {identifiers:?}").expect(rt, "memory");
    }
    drop((message, copies, picks, matching));
    told
}

#[test]
fn a_member_of_each_group_is_picked(rt: HostRuntime) {
    let set = subscriptions(&rt, rt.alloc());
    for (turn, told) in [
        (
            0,
            "p $share/g/# 0 []\na $share/g/t/u 2 []\nd $share/g!/t/# 2 []\n",
        ),
        (
            1,
            "p $share/g/# 0 []\nc $share/g/t/u 1 [5]\nd $share/g!/t/# 2 []\n",
        ),
        (
            4,
            "p $share/g/# 0 []\na $share/g/t/u 2 []\nd $share/g!/t/# 2 []\n",
        ),
    ] {
        let found = told_picks(&rt, rt.alloc(), &set, turn);
        assert_eq!(rt; found.as_str(), told, "at {turn}");
    }
    drop(set);
}

// Merges a set that has seen a dot, with this subscription there or with none.
fn merge(
    rt: &impl Abort,
    alloc: Global,
    set: &mut SubscriptionSet,
    number: usize,
    row: Option<&Row>,
) {
    let mut seen = Context::new(alloc);
    seen.insert(dot(rt, number)).expect(rt, "memory");
    let mut entries = Vec::new(alloc);
    if let Some(row) = row {
        let entry = (dot(rt, number), entry(rt, alloc, row));
        entries.push(entry).expect(rt, "memory");
    }
    let other = SubscriptionSet::new(seen, entries);
    let other = other.expect(rt, "memory").expect(rt, "a set");
    set.join(&other).expect(rt, "memory");
    drop(other);
}

// The client that a message for `$share/g/t/u` goes to at each of four turns, in order.
fn told_turns(rt: &impl Abort, alloc: Global, set: &SubscriptionSet) -> String {
    let message = message(rt, alloc);
    let mut told = String::new(alloc);
    for turn in 0..4 {
        let both = copies_and_picks(alloc, set, &message, turn).expect(rt, "memory");
        for pick in both.picks.as_slice() {
            write!(told, "{} ", pick.client.as_str()).expect(rt, "memory");
        }
        drop(both);
    }
    drop(message);
    told
}

/// Members of one group, in the order in which they come.
const MEMBERS: [Row; 4] = [
    ("m", "$share/g/t/u", 0, 0),
    ("b", "$share/g/t/u", 1, 0),
    ("x", "$share/g/t/u", 2, 0),
    ("b", "$share/g/t/u", 2, 3),
];

#[test]
fn members_come_and_go(rt: HostRuntime) {
    let mut set = SubscriptionSet::empty(rt.alloc());
    // Each comes under its dot; `b` twice, as from two nodes. Then those at these dots go.
    for (number, told) in [
        (0, "m m m m "),
        (1, "b m b m "),
        (2, "b m x b "),
        (3, "b m x b "),
    ] {
        merge(&rt, rt.alloc(), &mut set, number, Some(&MEMBERS[number]));
        let found = told_turns(&rt, rt.alloc(), &set);
        assert_eq!(rt; found.as_str(), told, "with {number}");
    }
    for (number, told) in [(1, "b m x b "), (0, "b x b x "), (3, "x x x x "), (2, "")] {
        merge(&rt, rt.alloc(), &mut set, number, None);
        let found = told_turns(&rt, rt.alloc(), &set);
        assert_eq!(rt; found.as_str(), told, "without {number}");
    }
    drop(set);
}

fn offer(rt: &impl Abort, alloc: Global, identifiers: &Identifiers) -> Delivery {
    let message = message(rt, alloc);
    let options = SubscriptionOptions::of_byte(0x05);
    offer_of(alloc, &message, options, identifiers).expect(rt, "memory")
}

#[test]
fn a_retained_message_is_offered(rt: HostRuntime) {
    let identifiers = Identifiers::of_subscription(rt.alloc(), 5).expect(&rt, "memory");
    let offer = offer(&rt, rt.alloc(), &identifiers);
    let found = (offer.qos, offer.retain, offer.identifiers.as_slice().len());
    assert_eq!(rt; found, (Qos::AtLeastOnce, true, 1));
    drop(offer);
}
