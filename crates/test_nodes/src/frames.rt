//! Frames that can't be read, frames that aren't for the node to which they come, and frames that name a node that the cluster lacks.

use crate::keepers::{frame, opened, outputs};
use broker_node::EventKind;
use node_keeper::Keeper;
use row_store::MemoryRows;
use std::alloc::Global;
use std::process::Abort;

/// Frames that come to node 0 of two, and none of which is for it from the other one.
const BAD: [(&str, &[u8]); 18] = [
    (
        "Hello of node 0 for node 1",
        b"\0\0\0\x1b\x07\0\0\0\x01\0\x01\0\0\0\0\0\0\0\0\0\0\0\0\0\0\0\0\0\0\0\0",
    ),
    (
        "Hello of node 1 for itself",
        b"\0\0\0\x1b\x07\0\x01\0\x01\0\x01\0\0\0\0\0\0\0\0\0\0\0\0\0\0\0\0\0\0\0\0",
    ),
    (
        "Hello of node 0 for itself",
        b"\0\0\0\x1b\x07\0\0\0\0\0\x01\0\0\0\0\0\0\0\0\0\0\0\0\0\0\0\0\0\0\0\0",
    ),
    (
        "Hello of node 2",
        b"\0\0\0\x1b\x07\0\x02\0\0\0\x01\0\0\0\0\0\0\0\0\0\0\0\0\0\0\0\0\0\0\0\0",
    ),
    ("no bytes", b""),
    (
        "a Hello one byte short",
        b"\0\0\0\x1b\x07\0\x01\0\0\0\x01\0\0\0\0\0\0\0\0\0\0\0\0\0\0\0\0\0\0\0",
    ),
    (
        "a Hello with a byte behind it",
        b"\0\0\0\x1c\x07\0\x01\0\0\0\x01\0\0\0\0\0\0\0\0\0\0\0\0\0\0\0\0\0\0\0\0\0",
    ),
    ("a Hello without a body", b"\0\0\0\x05\x07\0\x01\0\0"),
    (
        "a Hello in another format",
        b"\0\0\0\x1b\x07\0\x01\0\0\0\x02\0\0\0\0\0\0\0\0\0\0\0\0\0\0\0\0\0\0\0\0",
    ),
    ("a Hello with a number at the end", END),
    ("a Hello of a dot of node 2", HELLO_OF_TWO),
    ("no kind of frame", b"\0\0\0\x05\x08\0\x01\0\0"),
    ("the kind of a Delta without versions", UNVERSIONED),
    ("a Know of a dot of node 2", KNOW),
    ("a Delta that has taken a dot of node 2", TAKEN),
    ("a Delta that has seen a dot of node 2", SEEN),
    ("a Delta with a stamp of node 2", STAMP),
    ("a Delta that has taken a dot and not seen it", UNSEEN),
];

/// The number 2^62 in a Hello from node 1 to node 0.
const END: &[u8] = b"\0\0\0\x1b\x07\0\x01\0\0\0\x01\x40\0\0\0\0\0\0\0\0\0\0\0\0\0\0\0\0\0\0\0";

/// The dot (2, 1) in a Hello from node 1 to node 0.
const HELLO_OF_TWO: &[u8] = b"\0\0\0\x2d\x07\0\x01\0\0\0\x01\0\0\0\0\0\0\0\0\0\0\0\0\0\0\0\0\
    \0\0\0\x01\0\x02\0\0\0\0\0\0\0\x01\0\0\0\0\0\0\0\x01";

/// A state of nothing, from node 1 to node 0, under kind 2.
const UNVERSIONED: &[u8] = b"\0\0\0\x15\x02\0\x01\0\0\0\0\0\0\0\0\0\0\0\0\0\0\0\0\0\0";

/// The dots (1, 1) and (2, 1), from node 1 to node 0.
const KNOW: &[u8] =
    b"\0\0\0-\x03\0\x01\0\0\0\0\0\x02\0\x01\0\0\0\0\0\0\0\x01\0\0\0\0\0\0\0\x01\0\x02\0\0\0\0\0\0\0\
    \x01\0\0\0\0\0\0\0\x01";

/// A state that has taken the dot (2, 1), and seen it, from node 1 to node 0.
const TAKEN: &[u8] = b"\0\0\0\x39\x06\0\x01\0\0\
    \0\0\0\x01\0\x02\0\0\0\0\0\0\0\x01\0\0\0\0\0\0\0\x01\
    \0\0\0\x01\0\x02\0\0\0\0\0\0\0\x01\0\0\0\0\0\0\0\x01\0\0\0\0\0\0\0\0";

/// A state that has taken (1, 1), and seen it and (2, 1), from node 1 to node 0.
const SEEN: &[u8] = b"\0\0\0\x4b\x06\0\x01\0\0\
    \0\0\0\x01\0\x01\0\0\0\0\0\0\0\x01\0\0\0\0\0\0\0\x01\
    \0\0\0\x02\0\x01\0\0\0\0\0\0\0\x01\0\0\0\0\0\0\0\x01\0\x02\0\0\0\0\0\0\0\x01\0\0\0\0\0\0\0\x01\
    \0\0\0\0\0\0\0\0";

/// A state that has taken (1, 1), and seen it, of no message to `t` under the stamp (1, 2), from node 1 to node 0.
const STAMP: &[u8] = b"\0\0\0\x47\x06\0\x01\0\0\
    \0\0\0\x01\0\x01\0\0\0\0\0\0\0\x01\0\0\0\0\0\0\0\x01\
    \0\0\0\x01\0\x01\0\0\0\0\0\0\0\x01\0\0\0\0\0\0\0\x01\
    \0\0\0\0\0\0\0\x01\0\x01t\0\0\0\0\0\0\0\x01\0\x02\0";

/// A state that has taken (1, 1), and seen nothing, from node 1 to node 0.
const UNSEEN: &[u8] = b"\0\0\0'\x06\0\x01\0\0\
    \0\0\0\x01\0\x01\0\0\0\0\0\0\0\x01\0\0\0\0\0\0\0\x01\0\0\0\0\0\0\0\0\0\0\0\0";

/// Hello of node 1 for node 0.
const HELLO: &[u8] = b"\0\0\0\x1b\x07\0\x01\0\0\0\x01\0\0\0\0\0\0\0\0\0\0\0\0\0\0\0\0\0\0\0\0";

/// How many outputs a frame comes to, and how many frames have been counted then.
fn taken(
    rt: &impl Abort,
    alloc: Global,
    keeper: &mut Keeper<MemoryRows>,
    bytes: &[u8],
) -> (usize, u64) {
    let outputs = outputs(rt, keeper, frame(rt, alloc, bytes));
    (outputs, keeper.node().counts().bad_frames)
}

#[test]
fn a_frame_for_another_node_is_counted_and_changes_nothing(rt: HostRuntime) {
    let alloc = rt.alloc();
    let mut keeper = opened(&rt, alloc, MemoryRows::new(alloc), 0);
    assert_eq!(rt; outputs(&rt, &mut keeper, EventKind::Started), 0);
    for (count, (name, bytes)) in (1..).zip(BAD) {
        let found = taken(&rt, alloc, &mut keeper, bytes);
        assert_eq!(rt; found, (0, count), "{name}");
    }
    assert_eq!(rt; taken(&rt, alloc, &mut keeper, HELLO), (1, 18));
    let again = opened(&rt, alloc, keeper.into_rows(), 0);
    assert_eq!(rt; again.node().counts().bad_frames, 0);
    drop(again);
}

/// A state that has taken (1, 1), and seen it, of no message to `t`, from node 1 to node 0.
const CLEARED: &[u8] = b"\0\0\0\x47\x06\0\x01\0\0\
    \0\0\0\x01\0\x01\0\0\0\0\0\0\0\x01\0\0\0\0\0\0\0\x01\
    \0\0\0\x01\0\x01\0\0\0\0\0\0\0\x01\0\0\0\0\0\0\0\x01\
    \0\0\0\0\0\0\0\x01\0\x01t\0\0\0\0\0\0\0\x01\0\x01\0";

/// The dot (1, 1), in a Know and in a Hello from node 1 to node 0.
const TAKEN_THERE: &[u8] = b"\0\0\0\x1b\x03\0\x01\0\0\
    \0\0\0\x01\0\x01\0\0\0\0\0\0\0\x01\0\0\0\0\0\0\0\x01";

const SAID: &[u8] = b"\0\0\0\x2d\x07\0\x01\0\0\0\x01\0\0\0\0\0\0\0\0\0\0\0\0\0\0\0\0\
    \0\0\0\x01\0\x01\0\0\0\0\0\0\0\x01\0\0\0\0\0\0\0\x01";

#[test]
fn a_hello_stands_in_place_of_what_was_known(rt: HostRuntime) {
    let alloc = rt.alloc();
    let mut keeper = opened(&rt, alloc, MemoryRows::new(alloc), 0);
    assert_eq!(rt; outputs(&rt, &mut keeper, EventKind::Started), 0);
    assert_eq!(rt; taken(&rt, alloc, &mut keeper, CLEARED), (1, 0));
    // how many frames answer, and whether the other node is sent the state then
    for (bytes, answers, sent) in [
        (HELLO, 1, 1),
        (TAKEN_THERE, 0, 0),
        (HELLO, 1, 1),
        (SAID, 1, 0),
        (HELLO, 1, 1),
    ] {
        assert_eq!(rt; taken(&rt, alloc, &mut keeper, bytes), (answers, 0));
        let shipped = outputs(&rt, &mut keeper, EventKind::Ship { peer: 1 });
        assert_eq!(rt; shipped, sent);
    }
    drop(keeper);
}
