//! Clients with users, by what the handler inside is told of them and by what they get.

use crate::guard_recorder::Recorder;
use crate::guard_rules::Rules;
use broker_sockets::{Event, EventKind, Handler, Output};
use door_guard::{Guarded, Refusals};
use door_packets::Access;
use std::alloc::Global;
use std::process::Abort;

/// A handler that guards.
type Guard = Guarded<Recorder, Rules>;

/// Handles one event, and gives what is sent on connection 1, and a byte 0 for its close.
pub fn sent_at<A: Access>(
    rt: &impl Abort,
    alloc: Global,
    guard: &mut Guarded<Recorder, A>,
    kind: EventKind,
) -> Vec<u8> {
    let outputs = match guard.handle(Event { at: 5, kind }) {
        Ok(outputs) => outputs,
        Err(_) => Vec::new(alloc),
    };
    let mut sent = Vec::new(alloc);
    for output in outputs {
        match output {
            Output::Send {
                connection: 1,
                bytes,
            } => sent.extend_from_slice(&bytes).expect(rt, "memory"),
            Output::Close { connection: 1 } => sent.push(0).expect(rt, "memory"),
            _ => {}
        }
    }
    sent
}

/// These bytes come on connection 1.
pub fn come<A: Access>(
    rt: &impl Abort,
    alloc: Global,
    guard: &mut Guarded<Recorder, A>,
    bytes: &[u8],
) -> Vec<u8> {
    let bytes = Vec::from_slice(alloc, bytes).expect(rt, "memory");
    let kind = EventKind::Piece {
        connection: 1,
        bytes,
    };
    sent_at(rt, alloc, guard, kind)
}

/// CONNECT with the identifier "c", the user "u" and the password "p".
const CONNECT: &[u8] = b"\x10\x14\x00\x04MQTT\x05\xc0\x00\x0a\x00\x00\x01c\x00\x01u\x00\x01p";

/// The same with Clean Start.
const CLEAN: &[u8] = b"\x10\x14\x00\x04MQTT\x05\xc2\x00\x0a\x00\x00\x01c\x00\x01u\x00\x01p";

/// The same with the password "q".
const WRONG: &[u8] = b"\x10\x14\x00\x04MQTT\x05\xc0\x00\x0a\x00\x00\x01c\x00\x01u\x00\x01q";

/// The same with the identifier "d".
const OTHER: &[u8] = b"\x10\x14\x00\x04MQTT\x05\xc0\x00\x0a\x00\x00\x01d\x00\x01u\x00\x01p";

/// The same with a will on "z".
const WILL: &[u8] =
    b"\x10\x1b\x00\x04MQTT\x05\xc4\x00\x0a\x00\x00\x01c\x00\x00\x01z\x00\x01x\x00\x01u\x00\x01p";

/// CONNECT with the identifier "c" and no name.
const UNNAMED: &[u8] = b"\x10\x0e\x00\x04MQTT\x05\x00\x00\x0a\x00\x00\x01c";

/// CONNACK 0x00.
const ACCEPTED: &[u8] = b"\x20\x03\x00\x00\x00";

/// DISCONNECT 0x87, and the close.
const ENDED: &[u8] = b"\xe0\x01\x87\x00";

/// A handler with users, at which connection 1 is open.
fn opened(rt: &impl Abort, alloc: Global, anonymous: bool) -> Guard {
    let rules = Rules { anonymous };
    let mut guard = Guarded::new(alloc, Some(rules), Recorder::new(alloc));
    sent_at(rt, alloc, &mut guard, EventKind::Opened { connection: 1 });
    guard
}

/// The same, with a client that was let in.
fn let_in(rt: &impl Abort, alloc: Global) -> Guard {
    let mut guard = opened(rt, alloc, false);
    let answer = come(rt, alloc, &mut guard, CONNECT);
    assert!(rt; answer.as_slice() == ACCEPTED);
    guard
}

/// What the handler inside was told behind "O" and the first CONNECT.
fn told(guard: &Guard) -> &[u8] {
    match guard.inside().told.as_slice().get(CONNECT.len() + 1..) {
        Some(told) => told,
        None => b"none",
    }
}

#[test]
fn a_client_is_told_of_once_it_is_let_in(rt: HostRuntime) {
    let alloc = rt.alloc();
    let mut guard = opened(&rt, alloc, false);
    let room = EventKind::Room {
        connection: 1,
        bytes: 1_000,
    };
    assert!(rt; sent_at(&rt, alloc, &mut guard, room).is_empty());
    assert!(rt; come(&rt, alloc, &mut guard, &CONNECT[..9]).is_empty());
    assert!(rt; guard.inside().told.is_empty());
    let answer = come(&rt, alloc, &mut guard, &CONNECT[9..]);
    assert!(rt; answer.as_slice() == ACCEPTED);
    let told = guard.inside().told.as_slice();
    assert!(rt; told.get(..2) == Some(b"OR".as_slice()));
    assert!(rt; told.get(2..) == Some(CONNECT));
    // its end is told too
    sent_at(&rt, alloc, &mut guard, EventKind::Closed { connection: 1 });
    assert!(rt; guard.inside().told.last() == Some(&b'C'));
    drop(guard);
}

/// A client that sends this is turned away with this code, and the handler inside is told nothing.
fn turned_away(rt: &impl Abort, alloc: Global, bytes: &[u8], code: u8) {
    let mut guard = opened(rt, alloc, false);
    let answer = come(rt, alloc, &mut guard, bytes);
    assert!(rt; answer.as_slice() == [0x20, 3, 0, code, 0, 0].as_slice());
    // nothing comes of what it sends then, nor of its end
    assert!(rt; come(rt, alloc, &mut guard, CONNECT).is_empty());
    sent_at(rt, alloc, &mut guard, EventKind::Closed { connection: 1 });
    assert!(rt; guard.inside().told.is_empty());
    let one = Refusals {
        connects: 1,
        publishes: 0,
        filters: 0,
        messages: 0,
    };
    assert!(rt; guard.refusals() == one);
    drop(guard);
}

#[test]
fn others_leave_no_trace(rt: HostRuntime) {
    let alloc = rt.alloc();
    turned_away(&rt, alloc, WRONG, 0x86);
    turned_away(&rt, alloc, UNNAMED, 0x87);
    turned_away(&rt, alloc, OTHER, 0x87);
    turned_away(&rt, alloc, WILL, 0x87);
    let mut guard = opened(&rt, alloc, true);
    assert!(rt; come(&rt, alloc, &mut guard, UNNAMED).as_slice() == ACCEPTED);
    drop(guard);
}

#[test]
fn what_is_no_connect_is_told_alone(rt: HostRuntime) {
    let alloc = rt.alloc();
    // PINGREQ, and a CONNECT behind it
    let mut guard = opened(&rt, alloc, false);
    come(&rt, alloc, &mut guard, b"\xc0\x00");
    come(&rt, alloc, &mut guard, CONNECT);
    assert!(rt; guard.inside().told.as_slice() == b"O\xc0\x00".as_slice());
    // a packet that is longer than a node takes
    let mut guard = opened(&rt, alloc, false);
    come(&rt, alloc, &mut guard, b"\x10\xff\xff\xff\x7f");
    assert!(rt; guard.inside().told.as_slice() == b"O\x10\xff\xff\xff\x7f".as_slice());
    drop(guard);
}

#[test]
fn a_publish_that_may_not_be_is_answered(rt: HostRuntime) {
    let alloc = rt.alloc();
    let mut guard = let_in(&rt, alloc);
    // on "z" at QoS 1 as packet 9, at QoS 2 as packet 10, and at QoS 0
    let answer = come(&rt, alloc, &mut guard, b"\x32\x06\x00\x01z\x00\x09\x00");
    assert!(rt; answer.as_slice() == b"\x40\x03\x00\x09\x87".as_slice());
    let answer = come(&rt, alloc, &mut guard, b"\x34\x06\x00\x01z\x00\x0a\x00");
    assert!(rt; answer.as_slice() == b"\x50\x03\x00\x0a\x87".as_slice());
    assert!(rt; come(&rt, alloc, &mut guard, b"\x30\x04\x00\x01z\x00").is_empty());
    assert!(rt; told(&guard).is_empty());
    let three = Refusals {
        connects: 0,
        publishes: 3,
        filters: 0,
        messages: 0,
    };
    assert!(rt; guard.refusals() == three);
    // on "a"
    assert!(rt; come(&rt, alloc, &mut guard, b"\x32\x06\x00\x01a\x00\x0b\x00").is_empty());
    assert!(rt; told(&guard) == b"\x32\x06\x00\x01a\x00\x0b\x00".as_slice());
    drop(guard);
}

#[test]
fn a_repeat_at_qos_2_ends_the_connection(rt: HostRuntime) {
    let alloc = rt.alloc();
    let mut guard = let_in(&rt, alloc);
    let answer = come(&rt, alloc, &mut guard, b"\x3c\x06\x00\x01z\x00\x0a\x00");
    assert!(rt; answer.as_slice() == ENDED);
    assert!(rt; told(&guard).is_empty());
    sent_at(&rt, alloc, &mut guard, EventKind::Tick);
    assert!(rt; told(&guard) == b"C".as_slice());
    drop(guard);
}

#[test]
fn aliases_are_followed(rt: HostRuntime) {
    let alloc = rt.alloc();
    let mut guard = let_in(&rt, alloc);
    // alias 3 for "a" goes on, and so does what has it alone
    let first = b"\x32\x09\x00\x01a\x00\x0b\x03\x23\x00\x03".as_slice();
    let alone = b"\x32\x08\x00\x00\x00\x0a\x03\x23\x00\x03".as_slice();
    assert!(rt; come(&rt, alloc, &mut guard, first).is_empty());
    assert!(rt; come(&rt, alloc, &mut guard, alone).is_empty());
    assert_eq!(rt; told(&guard).len(), first.len() + alone.len());
    // for "z" it doesn't, nor does what has it alone
    let answer = come(
        &rt,
        alloc,
        &mut guard,
        b"\x32\x09\x00\x01z\x00\x09\x03\x23\x00\x03",
    );
    assert!(rt; answer.as_slice() == b"\x40\x03\x00\x09\x87".as_slice());
    let answer = come(&rt, alloc, &mut guard, alone);
    assert!(rt; answer.as_slice() == b"\x40\x03\x00\x0a\x87".as_slice());
    assert_eq!(rt; told(&guard).len(), first.len() + alone.len());
    // and for "a" again it does
    come(&rt, alloc, &mut guard, first);
    assert!(rt; come(&rt, alloc, &mut guard, alone).is_empty());
    assert_eq!(rt; told(&guard).len(), 2 * first.len() + 2 * alone.len());
    drop(guard);
}

#[test]
fn filters_that_may_not_be_are_refused_in_their_places(rt: HostRuntime) {
    let alloc = rt.alloc();
    let mut guard = let_in(&rt, alloc);
    // "z", "b" and "y", as packet 7: the handler inside grants one
    let three = b"\x82\x0f\x00\x07\x00\x00\x01z\x00\x00\x01b\x00\x00\x01y\x00";
    let answer = come(&rt, alloc, &mut guard, three);
    assert!(rt; answer.as_slice() == b"\x90\x06\x00\x07\x00\x87\x01\x87".as_slice());
    assert!(rt; told(&guard) == b"\x82\x07\x00\x07\x00\x00\x01b\x00".as_slice());
    // a PUBLISH, then a SUBSCRIBE of which none may be: its answer stands in its place
    let both = b"\x32\x06\x00\x01z\x00\x09\x00\x82\x07\x00\x08\x00\x00\x01y\x00";
    let answer = come(&rt, alloc, &mut guard, both);
    assert!(rt; answer.as_slice() == b"\x40\x03\x00\x09\x87\x90\x04\x00\x08\x00\x87".as_slice());
    let refused = Refusals {
        connects: 0,
        publishes: 1,
        filters: 3,
        messages: 0,
    };
    assert!(rt; guard.refusals() == refused);
    drop(guard);
}

#[test]
fn what_may_not_be_read_ends_the_connection(rt: HostRuntime) {
    let alloc = rt.alloc();
    let mut guard = let_in(&rt, alloc);
    // the handler inside answers with a PUBLISH on "b", and then with one on "z"
    let answer = come(&rt, alloc, &mut guard, b"\x30\x05\x00\x01a\x00b");
    assert!(rt; answer.as_slice() == b"\x30\x04\x00\x01b\x00".as_slice());
    let answer = come(&rt, alloc, &mut guard, b"\x30\x05\x00\x01a\x00z\xc0\x00");
    assert!(rt; answer.as_slice() == ENDED);
    let one = Refusals {
        connects: 0,
        publishes: 0,
        filters: 0,
        messages: 1,
    };
    assert!(rt; guard.refusals() == one);
    // what came behind it isn't told; the end is, before what comes next
    assert!(rt; told(&guard) == b"\x30\x05\x00\x01a\x00b\x30\x05\x00\x01a\x00z".as_slice());
    sent_at(&rt, alloc, &mut guard, EventKind::Opened { connection: 1 });
    assert!(rt; guard.inside().told.last() == Some(&b'C'));
    // the next CONNECT has Clean Start, and the one after it hasn't
    let before = guard.inside().told.len();
    assert!(rt; come(&rt, alloc, &mut guard, CONNECT).as_slice() == ACCEPTED);
    let behind = guard.inside().told.as_slice().get(before + 1..);
    assert!(rt; behind == Some(CLEAN));
    sent_at(&rt, alloc, &mut guard, EventKind::Closed { connection: 1 });
    sent_at(&rt, alloc, &mut guard, EventKind::Opened { connection: 1 });
    let before = guard.inside().told.len();
    come(&rt, alloc, &mut guard, CONNECT);
    let behind = guard.inside().told.as_slice().get(before + 1..);
    assert!(rt; behind == Some(CONNECT));
    drop(guard);
}

#[test]
fn a_second_connect_changes_no_user(rt: HostRuntime) {
    let alloc = rt.alloc();
    let mut guard = let_in(&rt, alloc);
    come(&rt, alloc, &mut guard, UNNAMED);
    assert!(rt; told(&guard) == UNNAMED);
    drop(guard);
}

#[test]
fn without_users_all_goes_on(rt: HostRuntime) {
    let alloc = rt.alloc();
    let mut guard: Guard = Guarded::new(alloc, None, Recorder::new(alloc));
    sent_at(&rt, alloc, &mut guard, EventKind::Opened { connection: 1 });
    assert!(rt; !come(&rt, alloc, &mut guard, &WRONG[..5]).is_empty());
    assert!(rt; come(&rt, alloc, &mut guard, b"\x32\x06\x00\x01z\x00\x09\x00").is_empty());
    let told = guard.inside().told.as_slice();
    assert!(rt; told.get(..6) == Some(b"O\x10\x14\x00\x04M".as_slice()));
    assert!(rt; guard.refusals() == Refusals::none());
    drop(guard);
}
