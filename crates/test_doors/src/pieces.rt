//! A client's bytes in pieces of every size.

ghost use Rattle.std.specs.Prelude.{◌<◌};

use crate::clients::{CONNECT, come, opened};
use std::alloc::Global;
use std::process::Abort;

/// What is told inside, and what is sent, where a stream comes in pieces of this size.
fn in_pieces(rt: &impl Abort, alloc: Global, stream: &[u8], size: usize) -> (Vec<u8>, Vec<u8>)
    requires { 0 < size }
{
    let mut node = opened(rt, alloc, true);
    let mut sent = Vec::new(alloc);
    for piece in stream.chunks(size) {
        let answer = come(rt, alloc, &mut node, piece);
        sent.extend_from_slice(&answer).expect(rt, "memory");
    }
    let told = Vec::from_slice(alloc, node.inside().told.as_slice()).expect(rt, "memory");
    drop(node);
    (told, sent)
}

/// In whatever pieces a stream comes, this is told inside, and this is sent.
fn always(rt: &impl Abort, alloc: Global, stream: &[u8], told: &[u8], sent: &[u8]) {
    for size in 0..stream.len() {
        let (all_told, all_sent) = in_pieces(rt, alloc, stream, size + 1);
        assert!(rt; all_told.as_slice() == told);
        assert!(rt; all_sent.as_slice() == sent);
    }
}

/// What a client of MQTT 3.1.1 sends behind CONNECT: SUBSCRIBE to "a" at QoS 1, PUBLISH at QoS 0, 1 and 2, the last once more, PUBREL, UNSUBSCRIBE, PINGREQ,
/// PUBACK, PUBREC, PUBCOMP, and DISCONNECT.
const STREAM: &[u8] =
    b"\x82\x06\x00\x01\x00\x01a\x01\x30\x04\x00\x01ax\x32\x06\x00\x01a\x00\x02y\x34\x06\x00\x01a\x00\x03z\
    \x3c\x06\x00\x01a\x00\x03z\x62\x02\x00\x03\xa2\x05\x00\x04\x00\x01a\xc0\x00\x40\x02\x00\x01\x50\x02\x00\x02\x70\x02\x00\x02\xe0\x00";

/// The same in MQTT 5.0.
const TOLD: &[u8] = b"\x10\x11\x00\x04MQTT\x05\x02\x00\x0a\x03\x21\x00\x14\x00\x01a\
    \x82\x07\x00\x01\x00\x00\x01a\x01\x30\x05\x00\x01a\x00x\x32\x07\x00\x01a\x00\x02\x00y\x34\x07\x00\x01a\x00\x03\x00z\
    \x3c\x07\x00\x01a\x00\x03\x00z\x62\x02\x00\x03\xa2\x06\x00\x04\x00\x00\x01a\xc0\x00\x40\x02\x00\x01\x50\x02\x00\x02\x70\x02\x00\x02\xe0\x00";

/// What answers it.
const SENT: &[u8] =
    b"\x20\x02\x00\x00\x90\x03\x00\x01\x01\x40\x02\x00\x02\x50\x02\x00\x03\x50\x02\x00\x03\x70\x02\x00\x03\xb0\x02\x00\x04\xd0\x00";

#[test]
fn it_does_not_matter_in_what_pieces_a_client_sends(rt: HostRuntime) {
    let alloc = rt.alloc();
    let mut stream = Vec::from_slice(alloc, CONNECT).expect(&rt, "memory");
    stream.extend_from_slice(STREAM).expect(&rt, "memory");
    always(&rt, alloc, &stream, TOLD, SENT);
}

/// What a client of MQTT 5.0 sends: CONNECT with a Session Expiry Interval, SUBSCRIBE to "a" with a subscription identifier, PUBLISH at QoS 1 with a content
/// type, PUBLISH at QoS 2, PUBREL with a reason, PINGREQ, a byte that begins no packet, and DISCONNECT with a reason.
const OF_FIVE: &[u8] =
    b"\x10\x16\x00\x04MQTT\x05\x02\x00\x0a\x05\x11\x00\x00\x00\x3c\x00\x04five\x82\x09\x00\x01\x02\x0b\x07\x00\x01a\x2d\
    \x32\x0b\x00\x01a\x00\x02\x04\x03\x00\x01tx\x34\x07\x00\x01a\x00\x03\x00y\x62\x03\x00\x03\x92\xc0\x00\x00\xe0\x01\x04";

/// The bytes of a client of MQTT 5.0 come in pieces of this size: just these are told inside, and just what is given there is sent.
fn goes_through(rt: &impl Abort, alloc: Global, stream: &[u8], size: usize)
    requires { 0 < size }
{
    let mut node = opened(rt, alloc, true);
    let mut sent = Vec::new(alloc);
    for piece in stream.chunks(size) {
        let answer = come(rt, alloc, &mut node, piece);
        sent.extend_from_slice(&answer).expect(rt, "memory");
    }
    assert!(rt; node.inside().told.as_slice() == stream);
    assert!(rt; !sent.is_empty() && node.inside().given.as_slice() == sent.as_slice());
    drop(node);
}

#[test]
fn a_client_of_5_0_goes_through_byte_for_byte(rt: HostRuntime) {
    let alloc = rt.alloc();
    for size in 0..OF_FIVE.len() {
        goes_through(&rt, alloc, OF_FIVE, size + 1);
    }
}

/// PUBLISH at QoS 2 on "a" with this identifier.
fn put_publish(rt: &impl Abort, number: u8, stream: &mut Vec<u8>) {
    let publish = [0x34, 5, 0, 1, b'a', 0, number];
    stream.extend_from_slice(&publish).expect(rt, "memory");
}

#[test]
fn what_is_held_back_comes_later_in_order(rt: HostRuntime) {
    let alloc = rt.alloc();
    let mut stream = Vec::from_slice(alloc, CONNECT).expect(&rt, "memory");
    for number in 1..103u8 {
        put_publish(&rt, number, &mut stream);
    }
    // SUBSCRIBE and PINGREQ, and then PUBREL of the first three
    let behind =
        b"\x82\x06\x00\xc8\x00\x01a\x01\xc0\x00\x62\x02\x00\x01\x62\x02\x00\x02\x62\x02\x00\x03";
    stream.extend_from_slice(behind).expect(&rt, "memory");
    // SUBSCRIBE comes behind the last two PUBLISH, once there is room behind these
    let last = b"\x82\x07\x00\xc8\x00\x00\x01a\x01";
    for step in 0..31 {
        let (told, sent) = in_pieces(&rt, alloc, &stream, step * 25 + 1);
        assert!(rt; told.ends_with(last));
        assert_eq!(rt; told.len(), 19 + 102 * 8 + 9 + 2 + 12);
        // CONNACK, 102 PUBREC, SUBACK, PINGRESP and three PUBCOMP
        assert_eq!(rt; sent.len(), 4 + 102 * 4 + 5 + 2 + 12);
    }
}
