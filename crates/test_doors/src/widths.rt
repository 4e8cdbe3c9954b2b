//! PUBLISH of clients of MQTT 3.1.1 whose remaining length takes a byte more in MQTT 5.0, and the longest ones, by what the handler inside is told.

use crate::clients::{CONNECT, come, opened};
use std::alloc::Global;
use std::process::Abort;

/// What stands before the payload of a PUBLISH, and a payload of so many bytes.
fn with_payload(rt: &impl Abort, alloc: Global, front: &[u8], payload: usize) -> Vec<u8> {
    let mut bytes = Vec::from_slice(alloc, front).expect(rt, "memory");
    let size = front.len().saturating_add(payload);
    bytes.resize(size, b'x').expect(rt, "memory");
    bytes
}

/// A client sends this PUBLISH: this one is told inside, and the client goes on.
fn is_told(rt: &impl Abort, alloc: Global, sent: &[u8], told: &[u8]) {
    let mut node = opened(rt, alloc, true);
    come(rt, alloc, &mut node, CONNECT);
    let before = node.inside().told.len();
    come(rt, alloc, &mut node, sent);
    assert!(rt; node.inside().told.len() == before.saturating_add(told.len()));
    assert!(rt; node.inside().told.ends_with(told));
    come(rt, alloc, &mut node, b"\xc0\x00");
    assert!(rt; node.inside().told.ends_with(b"\xc0\x00"));
    drop(node);
}

/// The bytes of a payload, and what stands before it in MQTT 3.1.1 and in MQTT 5.0. Remaining Length is 126, 127, 128, 16,382 and 16,383; and the whole PUBLISH
/// has 1,048,575 bytes, with one more the longest that a node takes, and 1,048,576, with one more a longer one than that.
const WIDTHS: [(usize, &[u8], &[u8]); 7] = [
    (123, b"\x30\x7e\x00\x01a", b"\x30\x7f\x00\x01a\x00"),
    (124, b"\x30\x7f\x00\x01a", b"\x30\x80\x01\x00\x01a\x00"),
    (125, b"\x30\x80\x01\x00\x01a", b"\x30\x81\x01\x00\x01a\x00"),
    (
        16379,
        b"\x30\xfe\x7f\x00\x01a",
        b"\x30\xff\x7f\x00\x01a\x00",
    ),
    (
        16380,
        b"\x30\xff\x7f\x00\x01a",
        b"\x30\x80\x80\x01\x00\x01a\x00",
    ),
    (
        1048568,
        b"\x30\xfb\xff\x3f\x00\x01a",
        b"\x30\xfc\xff\x3f\x00\x01a\x00",
    ),
    (
        1048569,
        b"\x30\xfc\xff\x3f\x00\x01a",
        b"\x30\xfd\xff\x3f\x00\x01a\x00",
    ),
];

#[test]
fn a_length_may_grow(rt: HostRuntime) {
    let alloc = rt.alloc();
    for (payload, earlier, five) in WIDTHS {
        let sent = with_payload(&rt, alloc, earlier, payload);
        let told = with_payload(&rt, alloc, five, payload);
        is_told(&rt, alloc, &sent, &told);
    }
}

#[test]
fn a_publish_that_is_too_long_is_a_fault(rt: HostRuntime) {
    let alloc = rt.alloc();
    let mut node = opened(&rt, alloc, true);
    come(&rt, alloc, &mut node, CONNECT);
    // its length is read: 1,048,577 bytes
    come(&rt, alloc, &mut node, b"\x30\xfd\xff\x3f");
    assert!(rt; node.inside().told.ends_with(b"\x30\xff\xff\xff\x7f"));
    drop(node);
}
