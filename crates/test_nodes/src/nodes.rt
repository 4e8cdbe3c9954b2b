//! A node of a cluster of two without rows, and what it is handed.
ghost use Rattle.std.specs.Prelude.{◌<◌};

use crate::keepers::piece;
use broker_node::{Event, EventKind, Frame, Node, Output};
use home_table::homes_of;
use std::alloc::Global;
use std::process::Abort;

/// What an event comes to.
fn given(rt: &impl Abort, node: &mut Node, kind: EventKind) -> Vec<Output> {
    let event = Event { at: 0, kind };
    let outcome = node.step(&event).expect(rt, "no fault");
    drop(event);
    outcome.outputs
}

/// How many outputs an event comes to.
pub fn count(rt: &impl Abort, node: &mut Node, kind: EventKind) -> usize {
    let outputs = given(rt, node, kind);
    let count = outputs.len();
    drop(outputs);
    count
}

/// A node of this number, which has started.
pub fn started(rt: &impl Abort, alloc: Global, id: u16) -> Node
    requires { id < 2 }
{
    let homes = homes_of(alloc, 2).expect(rt, "a table");
    let opened = Node::open(alloc, &[], homes, id);
    let mut node = opened.ok().expect(rt, "a node");
    assert_eq!(rt; count(rt, &mut node, EventKind::Started), 0);
    node
}

/// A packet comes on a connection, and is answered by one.
pub fn answer(rt: &impl Abort, alloc: Global, node: &mut Node, connection: u64, bytes: &[u8]) {
    let packet = piece(rt, alloc, connection, bytes);
    assert_eq!(rt; count(rt, node, packet), 1);
}

/// A client connects on a new connection.
pub fn connect(rt: &impl Abort, alloc: Global, node: &mut Node, connection: u64, bytes: &[u8]) {
    let opened = EventKind::Opened { connection };
    assert_eq!(rt; count(rt, node, opened), 0);
    answer(rt, alloc, node, connection, bytes);
}

/// The last of the outputs, which is a frame.
fn last(rt: &impl Abort, outputs: Vec<Output>) -> Frame {
    let mut outputs = outputs;
    let Some(Output::Frame { frame }) = outputs.pop() else {
        panic!(rt; "no frame");
    };
    drop(outputs);
    frame
}

/// The first frame of a Ship to the other node, and how many there are.
pub fn first_shipped(rt: &impl Abort, node: &mut Node, peer: u16) -> (Frame, usize) {
    let mut outputs = given(rt, node, EventKind::Ship { peer });
    let count = outputs.len();
    outputs.reverse();
    (last(rt, outputs), count)
}

/// The last frame of a Ship to the other node.
pub fn last_shipped(rt: &impl Abort, node: &mut Node, peer: u16) -> Frame {
    let outputs = given(rt, node, EventKind::Ship { peer });
    last(rt, outputs)
}

/// The frames that an event comes to, where it comes to nothing else.
pub fn frames(rt: &impl Abort, alloc: Global, node: &mut Node, kind: EventKind) -> Vec<Frame> {
    let mut frames = Vec::new(alloc);
    for output in given(rt, node, kind) {
        let Output::Frame { frame } = output else {
            panic!(rt; "no frame");
        };
        frames.push(frame).expect(rt, "memory");
    }
    frames
}

/// Frames come, in order: how many outputs they have together.
pub fn take_all(rt: &impl Abort, alloc: Global, node: &mut Node, frames: &Vec<Frame>) -> usize {
    let mut total = 0usize;
    for frame in frames {
        let bytes = frame.bytes.copy(alloc).expect(rt, "memory");
        total = total.saturating_add(count(rt, node, EventKind::Frame { bytes }));
    }
    total
}

/// A frame comes: how many outputs that has.
pub fn take(rt: &impl Abort, node: &mut Node, frame: Frame) -> usize {
    let Frame { bytes, .. } = frame;
    count(rt, node, EventKind::Frame { bytes })
}

/// A frame comes, and is answered by this one.
pub fn confirm(rt: &impl Abort, node: &mut Node, frame: Frame) -> Frame {
    let Frame { bytes, .. } = frame;
    let outputs = given(rt, node, EventKind::Frame { bytes });
    last(rt, outputs)
}
