//! A node with a retained message for each of 100,000 topics, which are as many as it takes.

use crate::keepers::{connect, opened, outputs, piece};
use crate::packets::CONNECT;
use broker_node::EventKind;
use node_keeper::Keeper;
use row_store::MemoryRows;
use std::alloc::Global;
use std::io::Write;
use std::process::Abort;

/// How many topics are in one piece, and how many pieces there are.
const TOPICS: u32 = 1_000;

const PIECES: u32 = 100;

/// SUBSCRIBE to all topics, at most QoS 0, without the messages that are retained.
const SUBSCRIBE: &[u8] = b"\x82\x07\x00\x01\x00\x00\x01#\x20";

/// PUBLISH of `x` with RETAIN to a topic that has a message.
const STANDING: &[u8] = b"\x31\x09\x00\x0599999\x00x";

/// PUBLISH of `x` with RETAIN to a topic that has none.
const OTHER: &[u8] = b"\x31\x08\x00\x04more\x00x";

/// PUBLISH of `x` without RETAIN to that topic.
const PLAIN: &[u8] = b"\x30\x08\x00\x04more\x00x";

/// CONNECT of `c`, whose will is `x` with RETAIN to that topic.
const WILL: &[u8] = b"\x10\x18\x00\x04MQTT\x05\x26\x00\x3c\x00\x00\x01c\x00\x00\x04more\x00\x01x";

/// PUBLISHes of `x` with RETAIN, each to a topic of five digits, from this piece's first one on.
fn publishes(rt: &impl Abort, alloc: Global, piece: u32) -> Vec<u8> {
    let mut bytes: Vec<u8> = Vec::new(alloc);
    for topic in 0..TOPICS {
        let piece = piece % PIECES;
        write!(&mut bytes, "\x31\x09\x00\x05{piece:02}{topic:03}\x00x").expect(rt, "memory");
    }
    bytes
}

/// All topics have a message, and a client is subscribed to them.
fn fill(rt: &impl Abort, alloc: Global, keeper: &mut Keeper<MemoryRows>) {
    for number in 0..PIECES {
        let bytes = publishes(rt, alloc, number);
        let kind = piece(rt, alloc, 1, bytes.as_slice());
        drop(bytes);
        assert_eq!(rt; outputs(rt, keeper, kind), 0);
    }
    assert_eq!(rt; outputs(rt, keeper, piece(rt, alloc, 1, SUBSCRIBE)), 1);
}

/// How many topics have a message, and how many messages have been left out for want of room.
fn counted(keeper: &Keeper<MemoryRows>) -> (usize, u64) {
    let node = keeper.node();
    let retained_full = node.counts().retained_full;
    (node.store().retained().messages(), retained_full)
}

#[test]
fn a_message_for_one_topic_more_is_dropped_and_counted(rt: HostRuntime) {
    let alloc = rt.alloc();
    let mut keeper = opened(&rt, alloc, MemoryRows::new(alloc), 1);
    connect(&rt, alloc, &mut keeper, CONNECT);
    fill(&rt, alloc, &mut keeper);
    assert_eq!(rt; counted(&keeper), (100_000, 0));
    for (bytes, given, count) in [(STANDING, 1, 0), (OTHER, 0, 1), (PLAIN, 1, 1)] {
        let kind = piece(&rt, alloc, 1, bytes);
        assert_eq!(rt; outputs(&rt, &mut keeper, kind), given);
        assert_eq!(rt; counted(&keeper), (100_000, count));
    }
    let opened = EventKind::Opened { connection: 2 };
    assert_eq!(rt; outputs(&rt, &mut keeper, opened), 0);
    assert_eq!(rt; outputs(&rt, &mut keeper, piece(&rt, alloc, 2, WILL)), 1);
    let closed = EventKind::Closed { connection: 2 };
    assert_eq!(rt; outputs(&rt, &mut keeper, closed), 0);
    assert_eq!(rt; counted(&keeper), (100_000, 2));
    drop(keeper);
}
