//! Clients with limits, by what the handler inside is told of them and by what they get.

use crate::recorder::{Amounts, Recorder};
use broker_sockets::{Event, EventKind, Handler, Output};
use door_bounds::{BoundLimits, Bounded};
use mqtt_bounds::Bounds;
use std::alloc::Global;
use std::process::Abort;

/// Handles one event, and gives what is sent on connection 1, and a byte 0 for its close.
fn sent_at(
    rt: &impl Abort,
    alloc: Global,
    node: &mut Bounded<Recorder, Amounts>,
    kind: EventKind,
) -> Vec<u8> {
    let outputs = match node.handle(Event { at: 5, kind }) {
        Ok(outputs) => outputs,
        Err(_) => Vec::new(alloc),
    };
    let mut sent = Vec::new(alloc);
    for output in outputs {
        match output {
            Output::Send {
                connection: 1,
                bytes,
            } => sent.extend_from_slice(&bytes).expect(rt, "memory"),
            Output::Close { connection: 1 } => sent.push(0).expect(rt, "memory"),
            _ => {}
        }
    }
    sent
}

/// These bytes come on connection 1.
fn come(
    rt: &impl Abort,
    alloc: Global,
    node: &mut Bounded<Recorder, Amounts>,
    bytes: &[u8],
) -> Vec<u8> {
    let bytes = Vec::from_slice(alloc, bytes).expect(rt, "memory");
    let kind = EventKind::Piece {
        connection: 1,
        bytes,
    };
    sent_at(rt, alloc, node, kind)
}

/// Two filters of a SUBSCRIBE, two levels, one user property, a packet of 64 bytes, an hour, and 1,000 bytes of memory.
const FEW: BoundLimits = BoundLimits {
    packets: Bounds {
        longest_packet: Some(64),
        most_filters: Some(2),
        most_levels: Some(2),
        most_properties: Some(1),
        longest_expiry: Some(3_600),
    },
    most_memory: Some(1_000),
};

/// CONNECT with the identifier "a".
const CONNECT: &[u8] = b"\x10\x0e\x00\x04MQTT\x05\x02\x00\x0a\x00\x00\x01a";

/// What answers it: Receive Maximum 100, Topic Alias Maximum 16, and Maximum Packet Size 64.
const ACCEPTED: &[u8] = b"\x20\x0e\x00\x00\x0b\x21\x00\x64\x22\x00\x10\x27\x00\x00\x00\x40";

/// PUBLISH at QoS 1, as packet 9, on "a".
const PUBLISH: &[u8] = b"\x32\x06\x00\x01a\x00\x09\x00";

/// A handler with these limits, at which connection 1 is open; how much is held is told from the last of these amounts on.
fn opened(
    rt: &impl Abort,
    alloc: Global,
    limits: BoundLimits,
    amounts: &[u64],
) -> Bounded<Recorder, Amounts> {
    let left = Vec::from_slice(alloc, amounts).expect(rt, "memory");
    let mut node = Bounded::new(alloc, limits, Amounts { left }, Recorder::new(alloc));
    sent_at(rt, alloc, &mut node, EventKind::Opened { connection: 1 });
    node
}

/// The same, with a client that was accepted.
fn accepted(rt: &impl Abort, alloc: Global, amounts: &[u64]) -> Bounded<Recorder, Amounts> {
    let mut node = opened(rt, alloc, FEW, amounts);
    let answer = come(rt, alloc, &mut node, CONNECT);
    assert!(rt; answer.as_slice() == ACCEPTED);
    node
}

#[test]
fn what_breaks_no_limit_goes_on_as_it_came(rt: HostRuntime) {
    let alloc = rt.alloc();
    let mut node = accepted(&rt, alloc, &[]);
    // PINGREQ, the PUBLISH in two pieces, and a part of PINGREQ
    assert!(rt; come(&rt, alloc, &mut node, b"\xc0\x00\x32\x06\x00").is_empty());
    assert!(rt; come(&rt, alloc, &mut node, b"\x01a\x00\x09\x00\xc0").is_empty());
    let told = node
        .inside()
        .told
        .as_slice()
        .get(CONNECT.len()..)
        .expect(&rt, "told");
    assert!(rt; told == b"\xc0\x00\x32\x06\x00\x01a\x00\x09\x00".as_slice());
    assert_eq!(rt; node.inside().pieces, 3);
    drop(node);
}

#[test]
fn a_publish_that_breaks_a_limit_is_answered(rt: HostRuntime) {
    let alloc = rt.alloc();
    let mut node = accepted(&rt, alloc, &[]);
    // three levels at QoS 1, as packet 9, and at QoS 2, as packet 10
    let answer = come(&rt, alloc, &mut node, b"\x32\x0a\x00\x05a/b/c\x00\x09\x00");
    assert!(rt; answer.as_slice() == b"\x40\x03\x00\x09\x90".as_slice());
    let answer = come(&rt, alloc, &mut node, b"\x34\x0a\x00\x05a/b/c\x00\x0a\x00");
    assert!(rt; answer.as_slice() == b"\x50\x03\x00\x0a\x90".as_slice());
    // two user properties at QoS 1, and at QoS 0
    let twice = b"\x32\x14\x00\x01a\x00\x09\x0e\x26\x00\x01a\x00\x01b\x26\x00\x01a\x00\x01b";
    let answer = come(&rt, alloc, &mut node, twice);
    assert!(rt; answer.as_slice() == b"\x40\x03\x00\x09\x97".as_slice());
    let dropped = b"\x30\x12\x00\x01a\x0e\x26\x00\x01a\x00\x01b\x26\x00\x01a\x00\x01b";
    assert!(rt; come(&rt, alloc, &mut node, dropped).is_empty());
    assert!(rt; node.inside().told.as_slice() == CONNECT);
    drop(node);
}

#[test]
fn a_repeat_and_an_alias_that_break_a_limit_end_the_connection(rt: HostRuntime) {
    let alloc = rt.alloc();
    let mut node = accepted(&rt, alloc, &[]);
    // three levels at QoS 2 with DUP, as packet 10, and PINGREQ
    let again = b"\x3c\x0a\x00\x05a/b/c\x00\x0a\x00\xc0\x00";
    let answer = come(&rt, alloc, &mut node, again);
    assert!(rt; answer.as_slice() == b"\xe0\x01\x90\x00".as_slice());
    let told = node
        .inside()
        .told
        .as_slice()
        .get(CONNECT.len()..)
        .expect(&rt, "told");
    assert!(rt; told == b"\x3c\xff\xff\xff\x7f".as_slice());
    // at QoS 0, with a Topic Alias
    let mut node = accepted(&rt, alloc, &[]);
    let set = b"\x30\x0b\x00\x05a/b/c\x03\x23\x00\x01";
    assert!(rt; come(&rt, alloc, &mut node, set).is_empty());
    let told = node
        .inside()
        .told
        .as_slice()
        .get(CONNECT.len()..)
        .expect(&rt, "told");
    assert!(rt; told == b"\x30\xff\xff\xff\x7f".as_slice());
    drop(node);
}

#[test]
fn limits_that_are_given_win(rt: HostRuntime) {
    let one = BoundLimits {
        most_memory: Some(5),
        ..BoundLimits::none()
    };
    let all = one.or(&FEW);
    assert_eq!(rt; all.most_memory, Some(5));
    assert!(rt; all.packets == FEW.packets);
}

#[test]
fn filters_that_break_a_limit_are_refused_in_their_places(rt: HostRuntime) {
    let alloc = rt.alloc();
    let mut node = accepted(&rt, alloc, &[]);
    // "a/b/c", "b" and "c", as packet 7: the handler inside grants two codes
    let three = b"\x82\x13\x00\x07\x00\x00\x05a/b/c\x00\x00\x01b\x00\x00\x01c\x00";
    let answer = come(&rt, alloc, &mut node, three);
    assert!(rt; answer.as_slice() == b"\x90\x07\x00\x07\x00\x8f\x00\x97\x01".as_slice());
    let told = node
        .inside()
        .told
        .as_slice()
        .get(CONNECT.len()..)
        .expect(&rt, "told");
    assert!(rt; told == b"\x82\x07\x00\x07\x00\x00\x01b\x00".as_slice());
    // of which none may be there
    let one = b"\x82\x0b\x00\x08\x00\x00\x05a/b/c\x00";
    let answer = come(&rt, alloc, &mut node, one);
    assert!(rt; answer.as_slice() == b"\x90\x04\x00\x08\x00\x8f".as_slice());
    assert_eq!(rt; node.inside().pieces, 2);
    drop(node);
}

#[test]
fn a_session_is_shortened_and_its_client_told(rt: HostRuntime) {
    let alloc = rt.alloc();
    let mut node = opened(&rt, alloc, FEW, &[]);
    // CONNECT with a Session Expiry Interval that never ends
    let never = b"\x10\x13\x00\x04MQTT\x05\x02\x00\x0a\x05\x11\xff\xff\xff\xff\x00\x01a";
    let answer = come(&rt, alloc, &mut node, never);
    let told =
        b"\x20\x13\x00\x00\x10\x21\x00\x64\x22\x00\x10\x27\x00\x00\x00\x40\x11\x00\x00\x0e\x10";
    assert!(rt; answer.as_slice() == told.as_slice());
    // DISCONNECT with one of two hours
    come(
        &rt,
        alloc,
        &mut node,
        b"\xe0\x07\x00\x05\x11\x00\x00\x1c\x20",
    );
    let asked =
        b"\x10\x13\x00\x04MQTT\x05\x02\x00\x0a\x05\x11\x00\x00\x0e\x10\x00\x01a\xe0\x07\x00\x05\x11\x00\x00\x0e\x10";
    assert!(rt; node.inside().told.as_slice() == asked.as_slice());
    drop(node);
}

#[test]
fn a_packet_that_is_too_long_is_told_by_its_beginning(rt: HostRuntime) {
    let alloc = rt.alloc();
    let mut node = accepted(&rt, alloc, &[]);
    // PINGREQ, and 65 bytes of a PUBLISH are to come
    come(&rt, alloc, &mut node, b"\xc0\x00\x30\x3f\x00");
    let told = node
        .inside()
        .told
        .as_slice()
        .get(CONNECT.len()..)
        .expect(&rt, "told");
    assert!(rt; told == b"\xc0\x00\x30\xff\xff\xff\x7f".as_slice());
    // nothing more is told
    come(&rt, alloc, &mut node, b"\xc0\x00");
    assert_eq!(rt; node.inside().pieces, 2);
    // before a CONNECT a packet that breaks a limit is told so too
    let mut node = opened(&rt, alloc, FEW, &[]);
    assert!(rt; come(&rt, alloc, &mut node, b"\x32\x0a\x00\x05a/b/c\x00\x09\x00").is_empty());
    assert!(rt; node.inside().told.as_slice() == b"\x32\xff\xff\xff\x7f".as_slice());
    drop(node);
}

#[test]
fn nothing_is_taken_above_the_limit_of_memory(rt: HostRuntime) {
    let alloc = rt.alloc();
    // at the limit, above it, at more than nine tenths, and at nine tenths
    let mut node = accepted(&rt, alloc, &[900, 901, 1_001, 1_000]);
    sent_at(&rt, alloc, &mut node, EventKind::Tick);
    assert!(rt; come(&rt, alloc, &mut node, PUBLISH).is_empty());
    assert_eq!(rt; node.inside().pieces, 2);
    for _ in 0..2 {
        sent_at(&rt, alloc, &mut node, EventKind::Tick);
        let answer = come(&rt, alloc, &mut node, PUBLISH);
        assert!(rt; answer.as_slice() == b"\x40\x03\x00\x09\x97".as_slice());
    }
    let answer = come(&rt, alloc, &mut node, b"\x82\x07\x00\x08\x00\x00\x01b\x00");
    assert!(rt; answer.as_slice() == b"\x90\x04\x00\x08\x00\x97".as_slice());
    // acknowledgements go on, and nobody is let in
    come(&rt, alloc, &mut node, b"\x40\x02\x00\x01");
    assert_eq!(rt; node.inside().pieces, 3);
    sent_at(&rt, alloc, &mut node, EventKind::Opened { connection: 2 });
    assert_eq!(rt; node.inside().opened, 1);
    sent_at(&rt, alloc, &mut node, EventKind::Tick);
    assert!(rt; come(&rt, alloc, &mut node, PUBLISH).is_empty());
    assert_eq!(rt; node.inside().pieces, 4);
    sent_at(&rt, alloc, &mut node, EventKind::Opened { connection: 3 });
    assert_eq!(rt; node.inside().opened, 2);
    drop(node);
}

#[test]
fn without_limits_all_goes_on(rt: HostRuntime) {
    let alloc = rt.alloc();
    let mut node = opened(&rt, alloc, BoundLimits::none(), &[]);
    assert!(rt; !come(&rt, alloc, &mut node, &CONNECT[..5]).is_empty());
    assert!(rt;
        come(
            &rt,
            alloc,
            &mut node,
            b"\x32\x0a\x00\x05a/b/c\x00\x09\x00\xff"
        )
        .is_empty()
    );
    let told = node.inside().told.as_slice().get(5..).expect(&rt, "told");
    assert!(rt; told == b"\x32\x0a\x00\x05a/b/c\x00\x09\x00\xff".as_slice());
    sent_at(&rt, alloc, &mut node, EventKind::Closed { connection: 1 });
    assert_eq!(rt; (node.inside().opened, node.inside().closed), (1, 1));
    drop(node);
}
