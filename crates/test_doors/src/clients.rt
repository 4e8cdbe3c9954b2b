//! Clients of earlier versions, by what the handler inside is told of them and by what they get.

use crate::mqtt3_recorder::Recorder;
use broker_sockets::{Event, EventKind, Handler, Output};
use door_mqtt3::Mqtt3;
use std::alloc::Global;
use std::process::Abort;

/// Handles one event, and gives what is sent on connection 1.
fn sent_at(rt: &impl Abort, alloc: Global, node: &mut Mqtt3<Recorder>, kind: EventKind) -> Vec<u8> {
    let outputs = match node.handle(Event { at: 5, kind }) {
        Ok(outputs) => outputs,
        Err(_) => Vec::new(alloc),
    };
    let mut sent = Vec::new(alloc);
    for output in outputs {
        if let Output::Send {
            connection: 1,
            bytes,
        } = output
        {
            sent.extend_from_slice(&bytes).expect(rt, "memory");
        }
    }
    sent
}

/// These bytes come on connection 1.
pub fn come(rt: &impl Abort, alloc: Global, node: &mut Mqtt3<Recorder>, bytes: &[u8]) -> Vec<u8> {
    let bytes = Vec::from_slice(alloc, bytes).expect(rt, "memory");
    let kind = EventKind::Piece {
        connection: 1,
        bytes,
    };
    sent_at(rt, alloc, node, kind)
}

/// A handler at which connection 1 is open.
pub fn opened(rt: &impl Abort, alloc: Global, translates: bool) -> Mqtt3<Recorder> {
    let mut node = Mqtt3::new(alloc, translates, Recorder::new(alloc));
    sent_at(rt, alloc, &mut node, EventKind::Opened { connection: 1 });
    node
}

/// CONNECT of MQTT 3.1.1 with Clean Session, a Keep Alive of 10 seconds and the identifier "a".
pub const CONNECT: &[u8] = b"\x10\x0d\x00\x04MQTT\x04\x02\x00\x0a\x00\x01a";

#[test]
fn a_client_of_3_1_1_is_told_in_5_0(rt: HostRuntime) {
    let alloc = rt.alloc();
    let mut node = opened(&rt, alloc, true);
    assert!(rt; come(&rt, alloc, &mut node, &CONNECT[..9]).is_empty());
    assert!(rt; node.inside().told.is_empty());
    let answer = come(&rt, alloc, &mut node, &CONNECT[9..]);
    assert!(rt; answer.as_slice() == b"\x20\x02\x00\x00".as_slice());
    // PUBLISH at QoS 0 of "hi" on "a/b", and a part of PINGREQ
    come(&rt, alloc, &mut node, b"\x30\x07\x00\x03a/bhi\xc0");
    come(&rt, alloc, &mut node, b"\x00");
    // Receive Maximum 20 in CONNECT, and no properties in PUBLISH
    let told =
        b"\x10\x11\x00\x04MQTT\x05\x02\x00\x0a\x03\x21\x00\x14\x00\x01a\x30\x08\x00\x03a/b\x00hi\xc0\x00";
    assert!(rt; node.inside().told.as_slice() == told.as_slice());
    assert_eq!(rt; node.inside().pieces, 3);
    drop(node);
}

#[test]
fn others_are_handed_on_as_they_are(rt: HostRuntime) {
    let alloc = rt.alloc();
    let mut five = opened(&rt, alloc, true);
    let connect = b"\x10\x0e\x00\x04MQTT\x05\x02\x00\x0a\x00\x00\x01a";
    let answer = come(&rt, alloc, &mut five, connect);
    assert!(rt; answer.as_slice() == b"\x20\x03\x00\x00\x00".as_slice());
    assert!(rt; five.inside().told.as_slice() == connect.as_slice());
    drop(five);
    let mut off = opened(&rt, alloc, false);
    come(&rt, alloc, &mut off, CONNECT);
    assert!(rt; off.inside().told.as_slice() == CONNECT);
    drop(off);
}

#[test]
fn the_101st_exchange_waits(rt: HostRuntime) {
    let alloc = rt.alloc();
    let mut node = opened(&rt, alloc, true);
    come(&rt, alloc, &mut node, CONNECT);
    for number in 1..102u8 {
        // PUBLISH at QoS 2 on "a"
        come(&rt, alloc, &mut node, &[0x34, 5, 0, 1, b'a', 0, number]);
    }
    assert_eq!(rt; node.inside().pieces, 101);
    let answer = come(&rt, alloc, &mut node, b"\x62\x02\x00\x01");
    assert!(rt; answer.as_slice() == b"\x70\x02\x00\x01\x50\x02\x00\x65".as_slice());
    // PUBREL, and then the PUBLISH that has waited
    assert_eq!(rt; node.inside().pieces, 103);
    assert!(rt;
        node.inside()
            .told
            .ends_with(b"\x34\x06\x00\x01a\x00\x65\x00")
    );
    drop(node);
}

#[test]
fn what_cannot_be_told_ends_the_connection(rt: HostRuntime) {
    let alloc = rt.alloc();
    let mut node = opened(&rt, alloc, true);
    come(&rt, alloc, &mut node, CONNECT);
    // PUBLISH at QoS 1 on "a" as packet 254, which is taken, as packet 255, which isn't, and as packet 1
    let three = b"\x32\x05\x00\x01a\x00\xfe\x32\x05\x00\x01a\x00\xff\x32\x05\x00\x01a\x00\x01";
    let answer = come(&rt, alloc, &mut node, three);
    assert!(rt; answer.as_slice() == b"\x40\x02\x00\xfe".as_slice());
    assert!(rt; node.inside().told.ends_with(&[0]));
    drop(node);
}

#[test]
fn a_session_that_is_not_clean_lasts(rt: HostRuntime) {
    let alloc = rt.alloc();
    let mut node = opened(&rt, alloc, true);
    // CONNECT without Clean Session
    come(
        &rt,
        alloc,
        &mut node,
        b"\x10\x0d\x00\x04MQTT\x04\x00\x00\x0a\x00\x01a",
    );
    // Clean Start 0, Session Expiry Interval 4,294,967,295 and Receive Maximum 20
    let told = b"\x10\x16\x00\x04MQTT\x05\x00\x00\x0a\x08\x11\xff\xff\xff\xff\x21\x00\x14\x00\x01a";
    assert!(rt; node.inside().told.as_slice() == told.as_slice());
    drop(node);
}
