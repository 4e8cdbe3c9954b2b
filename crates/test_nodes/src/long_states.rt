//! Messages of about a megabyte: in the longest packet, and in the state of a node with 256 of them, which is one byte too long for a frame and
//! then fills one.

use crate::keepers::{frame, piece};
use crate::nodes::{answer, connect, count, first_shipped, started, take};
use crate::packets::{CONNECT, DELTA};
use broker_node::{EventKind, Frame, FrameKind, Node};
use std::alloc::Global;
use std::io::Write;
use std::process::Abort;

/// How many topics have a message.
const TOPICS: usize = 256;

/// The payload of the longest PUBLISH, of 1,048,576 bytes: ten stand before it.
const LONGEST: usize = 1_048_576 - 10;

/// A message with so many bytes takes 1,048,576 bytes of a state: its topic's name of three bytes twice, each after its length in two, its
/// stamp of ten, a byte before it, the payload's length in four, its publisher's name of one byte after its length in two, and a byte each
/// for properties, QoS, RETAIN and deadline.
const PAYLOAD: usize = 1_048_576 - 32;

/// That of the last topic, with which a frame is full: the frame also has its kind and nodes in five bytes, two ranges of dots taken and two
/// seen, of 18 each, one subscription of 25, and four counts of four.
const LAST: usize = PAYLOAD - 118;

/// A frame that is full: 268,435,456 bytes after its length in four.
const FULL: usize = 268_435_460;

/// How it begins: its length, its kind, and its nodes.
const HEAD: &[u8] = b"\x10\0\0\0\x06\0\x01\0\0";

/// PUBLISH of `x` to `t` at QoS 1, to which a client of the other node has subscribed.
const FORWARDED: &[u8] = b"\x32\x07\0\x01t\0\x07\0x";

/// PUBLISH with RETAIN to the topic of this number, of so many bytes.
fn publish(rt: &impl Abort, alloc: Global, topic: usize, payload: usize) -> EventKind {
    let rest = payload.saturating_add(6);
    let head = [
        0x31,
        (rest % 128 + 128) as u8,
        (rest / 128 % 128 + 128) as u8,
        (rest / 16_384 % 128) as u8,
        0,
        3,
    ];
    let zeros = vec![in alloc; 0u8; payload].expect(rt, "memory");
    let mut bytes = Vec::from_slice(alloc, &head).expect(rt, "memory");
    write!(&mut bytes, "{:03}\0", topic % 1_000).expect(rt, "memory");
    bytes.extend_from_slice(&zeros).expect(rt, "memory");
    let publish = piece(rt, alloc, 1, bytes.as_slice());
    drop((zeros, bytes));
    publish
}

/// A message of this length comes for a topic, and stays.
fn hold(rt: &impl Abort, alloc: Global, node: &mut Node, topic: usize, payload: usize) {
    let publish = publish(rt, alloc, topic, payload);
    assert_eq!(rt; count(rt, node, publish), 0, "{topic}");
}

#[test]
fn the_longest_packet_is_taken_and_a_longer_one_ends_its_connection(rt: HostRuntime) {
    let alloc = rt.alloc();
    let mut node = started(&rt, alloc, 1);
    connect(&rt, alloc, &mut node, 1, CONNECT);
    // DISCONNECT, and the close
    for (topic, payload, given) in [(0, LONGEST, 0), (1, LONGEST + 1, 2)] {
        let publish = publish(&rt, alloc, topic, payload);
        assert_eq!(rt; count(&rt, &mut node, publish), given);
        assert_eq!(rt; node.store().retained().messages(), 1);
    }
    drop(node);
}

/// Node 1 with a message for each topic but the first, a subscription at node 0, and a message that waits for that node.
fn filled(rt: &impl Abort, alloc: Global) -> Node {
    let mut node = started(rt, alloc, 1);
    connect(rt, alloc, &mut node, 1, CONNECT);
    assert_eq!(rt; count(rt, &mut node, frame(rt, alloc, DELTA)), 1);
    answer(rt, alloc, &mut node, 1, FORWARDED);
    for topic in 1..TOPICS {
        hold(rt, alloc, &mut node, topic, PAYLOAD);
    }
    node
}

/// The first frame of a Ship to node 0 is of this kind, one of so many, and so many were left out until then.
fn ships(rt: &impl Abort, node: &mut Node, kind: FrameKind, count: usize, left_out: u64) -> Frame {
    let (frame, found) = first_shipped(rt, node, 0);
    assert_eq!(rt; frame.kind, kind);
    assert_eq!(rt; found, count);
    assert_eq!(rt; node.counts().frames_too_large, left_out);
    frame
}

/// The frame that node 1 sends of its state, which fills it, after one that it didn't send.
fn full_frame(rt: &impl Abort, alloc: Global) -> Frame {
    let mut node = filled(rt, alloc);
    hold(rt, alloc, &mut node, 0, LAST + 1);
    drop(ships(rt, &mut node, FrameKind::Forward, 1, 1));
    hold(rt, alloc, &mut node, 0, LAST);
    let frame = ships(rt, &mut node, FrameKind::Delta, 2, 1);
    drop(node);
    frame
}

#[test]
fn a_state_that_is_too_long_for_a_frame_is_counted_and_one_that_fills_it_is_sent(rt: HostRuntime) {
    let alloc = rt.alloc();
    let full = full_frame(&rt, alloc);
    assert_eq!(rt; full.bytes.as_slice().len(), FULL);
    assert!(rt; full.bytes.as_slice().starts_with(HEAD));
    let mut node = started(&rt, alloc, 0);
    assert_eq!(rt; take(&rt, &mut node, full), 1);
    assert_eq!(rt; node.store().retained().messages(), TOPICS);
    drop(node);
}
