//! What other nodes of a cluster of three get of one message.

use crate::copies::{message, subscriptions, subscriptions_of};
use crate::values::{filter, text};
use bridge_frames::{Pick, SharedFilter};
use bridge_routes::{
    CopiesAndPicks, Destinations, HomedPick, Route, copies_and_picks, picked_copies,
};
use home_table::homes_of;
use mqtt_message::{Message, SharedMessage};
use std::alloc::Global;
use std::process::Abort;
use subscription_set::SubscriptionSet;

/// The message's bytes before its payload's length, and after its payload.
const FRONT: [u8; 5] = [0, 3, 0x74, 0x2f, 0x75];

const BACK: [u8; 7] = [0, 2, 1, 0, 1, 0x70, 0];

fn tell(rt: &impl Abort, told: &mut String, node: u16, route: Route) {
    match route {
        Route::Nothing => writeln!(told, "{node} nothing").expect(rt, "memory"),
        Route::TooLarge => writeln!(told, "{node} too large").expect(rt, "memory"),
        Route::Lane(forward) => {
            let plain = forward.plain;
            write!(told, "{node} {plain}").expect(rt, "memory");
            for pick in forward.picks.as_slice() {
                let (client, to) = (pick.client.as_str(), pick.filter.as_filter().as_str());
                write!(told, " {client} {to}").expect(rt, "memory");
            }
            writeln!(told).expect(rt, "memory");
        }
    }
}

/// By the sums of their bytes, `c` is at home at node 0, `a`, `d` and `p` at 1, and `b` and `q` at 2.
fn destinations(
    rt: &impl Abort,
    alloc: Global,
    set: &SubscriptionSet,
    message: &SharedMessage,
    turn: u64,
) -> Destinations {
    let table = homes_of(alloc, 3).expect(rt, "a table");
    let both = copies_and_picks(alloc, set, message, turn).expect(rt, "memory");
    let CopiesAndPicks {
        copies,
        picks,
        matching,
    } = both;
    let found = Destinations::of(alloc, &table, matching.as_slice(), picks.as_slice());
    let found = found.expect(rt, "memory");
    drop((table, copies, picks, matching));
    found
}

fn told_routes(
    rt: &impl Abort,
    alloc: Global,
    set: &SubscriptionSet,
    message: &SharedMessage,
    turn: u64,
) -> String {
    let found = destinations(rt, alloc, set, message, turn);
    let mut told = String::new(alloc);
    for node in 0..3 {
        let route = found.route(alloc, node, message).expect(rt, "memory");
        tell(rt, &mut told, node, route);
    }
    drop(found);
    told
}

#[test]
fn homes_get_a_message(rt: HostRuntime) {
    let set = subscriptions(&rt, rt.alloc());
    let message = message(&rt, rt.alloc());
    for (turn, routes) in [
        (
            0,
            "0 nothing\n1 true p $share/g/# a $share/g/t/u d $share/g!/t/#\n2 true\n",
        ),
        (
            1,
            "0 false c $share/g/t/u\n1 true p $share/g/# d $share/g!/t/#\n2 true\n",
        ),
    ] {
        let found = told_routes(&rt, rt.alloc(), &set, &message, turn);
        assert_eq!(rt; found.as_str(), routes, "at {turn}");
    }
    drop((set, message));
}

// The only one that matches is of the publisher itself, with No Local: its home gets the message, and finds what it is for.
#[test]
fn no_local_leaves_no_home_out(rt: HostRuntime) {
    let set = subscriptions_of(&rt, rt.alloc(), &[("p", "t/u", 0x06, 4)]);
    let message = message(&rt, rt.alloc());
    let found = told_routes(&rt, rt.alloc(), &set, &message, 0);
    assert_eq!(rt; found.as_str(), "0 nothing\n1 true\n2 nothing\n");
    drop((set, message));
}

// A message whose payload has so many bytes.
fn message_of(rt: &impl Abort, alloc: Global, payload: u32) -> SharedMessage {
    let mut bytes = Vec::new(alloc);
    bytes.extend_from_slice(&FRONT).expect(rt, "memory");
    bytes
        .extend_from_slice(&payload.to_be_bytes())
        .expect(rt, "memory");
    for _ in 0..payload {
        bytes.push(0).expect(rt, "memory");
    }
    bytes.extend_from_slice(&BACK).expect(rt, "memory");
    let (message, _) = Message::read(alloc, bytes.as_slice()).expect(rt, "a message");
    let message = SharedMessage::new(alloc, message).expect(rt, "memory");
    drop(bytes);
    message
}

// With a flag and no pick a frame has 32 bytes after its length, and the payload.
#[test]
fn a_frame_has_an_end(rt: HostRuntime) {
    let set = subscriptions(&rt, rt.alloc());
    for (payload, route) in [(2_097_120, "2 true\n"), (2_097_121, "2 too large\n")] {
        let message = message_of(&rt, rt.alloc(), payload);
        let found = told_routes(&rt, rt.alloc(), &set, &message, 0);
        assert!(rt; found.as_str().ends_with(route), "with {payload}");
        drop(message);
    }
    drop(set);
}

fn pick(rt: &impl Abort, alloc: Global, client: &str, to: &str) -> Pick {
    let filter = SharedFilter::of(filter(rt, alloc, to)).expect(rt, "a shared filter");
    let client = text(rt, alloc, client);
    Pick { client, filter }
}

fn told_picked(rt: &impl Abort, alloc: Global, set: &SubscriptionSet) -> String {
    let message = message(rt, alloc);
    let mut picks = Vec::new(alloc);
    for (client, to) in [
        ("c", "$share/g/t/u"),
        ("c", "$share/g/t"),
        ("a", "$share/g/t/u"),
        ("b", "$share/g/t/u"),
    ] {
        picks.push(pick(rt, alloc, client, to)).expect(rt, "memory");
    }
    let copies = picked_copies(alloc, set, &message, picks.as_slice()).expect(rt, "memory");
    let mut told = String::new(alloc);
    for copy in copies.as_slice() {
        match copy {
            None => writeln!(told, "none").expect(rt, "memory"),
            Some(copy) => {
                let (client, delivery) = (copy.client.as_str(), &copy.delivery);
                let (qos, retain) = (delivery.qos.number(), delivery.retain);
                let identifiers = delivery.identifiers.as_slice();
                writeln!(told, "{client} {qos} {retain} {identifiers:?}").expect(rt, "memory");
            }
        }
    }
    drop((message, picks, copies));
    told
}

#[test]
fn picks_are_taken_where_they_stand(rt: HostRuntime) {
    let set = subscriptions(&rt, rt.alloc());
    let told = told_picked(&rt, rt.alloc(), &set);
    assert_eq!(rt; told.as_str(), "c 1 false [5]\nnone\na 2 false []\nnone\n");
    drop((set, told));
}

// A message for so many picks at node 2, and for no plain subscription: how many picks it goes there with; none where it is too large.
fn routed(rt: &impl Abort, alloc: Global, count: u32) -> Option<usize> {
    let mut picks = Vec::new(alloc);
    for _ in 0..count {
        let pick = pick(rt, alloc, "b", "$share/g/t/u");
        picks.push(HomedPick { pick, home: 2 }).expect(rt, "memory");
    }
    let homes = Vec::new(alloc);
    let found = Destinations { homes, picks };
    let message = message(rt, alloc);
    let route = found.route(alloc, 2, &message).expect(rt, "memory");
    drop((found, message));
    match route {
        Route::Lane(forward) => Some(forward.picks.as_slice().len()),
        _ => None,
    }
}

#[test]
fn a_message_has_as_many_as_65535_picks(rt: HostRuntime) {
    for (count, found) in [(65_535, Some(65_535)), (65_536, None)] {
        assert_eq!(rt; routed(&rt, rt.alloc(), count), found);
    }
}
