//! Frames from another node: in part, with a byte changed, and with a wrong sender or receiver.

use crate::changes::{bytes_of, changed};
use bridge_frames::{BridgeFrame, FrameBody};
use node_rows::{are_dots_among, is_state_among};
use std::alloc::Global;
use std::process::Abort;
use trial_streams::{Said, Stage, Told};

/// What frames say, and their bytes in hexadecimal: those of the examples of `test_replicas`.
const FRAMES: [(&str, &str); 14] = [
    (
        "a Hello of nothing",
        "0000001b 07 0000 0001 0001 0000000000000000 0000000000000000 00000000",
    ),
    (
        "a Hello where the messages up to 2 are gone, the one under 3 was taken, and (1, 1) and (1, 2)",
        "0000002d 07 0000 0001 0001 0000000000000002 0000000000000003 00000001 0001 0000000000000001 0000000000000002",
    ),
    ("a Know of no dot", "00000009 03 0001 0000 00000000"),
    (
        "a Know of (1, 1) and (1, 2)",
        "0000001b 03 0000 0001 00000001 0001 0000000000000001 0000000000000002",
    ),
    (
        "a Know of (0, 1) and (1, 1)",
        "0000002d 03 0001 0000 00000002 0000 0000000000000001 0000000000000001 0001 0000000000000001 0000000000000001",
    ),
    (
        "a Delta of the message on to t with RETAIN, by a, as (1, 1)",
        "00000057 06 0001 0000 00000001 0001 0000000000000001 0000000000000001 \
         00000001 0001 0000000000000001 0000000000000001 00000000 00000001 \
         0001 74 0000000000000001 0001 01 0001 74 00000002 6f6e 00 00 01 0001 61 00",
    ),
    (
        "a Delta of no message to t, as (1, 1)",
        "00000047 06 0001 0000 00000001 0001 0000000000000001 0000000000000001 \
         00000001 0001 0000000000000001 0000000000000001 00000000 00000001 \
         0001 74 0000000000000001 0001 00",
    ),
    (
        "a Delta of a subscription of b to t with QoS 1, as (0, 1)",
        "00000052 06 0000 0001 00000001 0000 0000000000000001 0000000000000001 \
         00000001 0000 0000000000000001 0000000000000001 \
         00000001 0000 0000000000000001 0001 62 0001 74 01 00000000 00000000 00000000",
    ),
    (
        "a Delta of a subscription of a to t in place of an older one, as (1, 2)",
        "00000052 06 0001 0000 00000001 0001 0000000000000001 0000000000000002 \
         00000001 0001 0000000000000001 0000000000000002 \
         00000001 0001 0000000000000002 0001 61 0001 74 00 00000000 00000000 00000000",
    ),
    (
        "a Delta of a subscription of a to t under the last version of the table of homes, as (1, 1)",
        "00000052 06 0001 0000 00000001 0001 0000000000000001 0000000000000001 \
         00000001 0001 0000000000000001 0000000000000001 \
         00000001 0001 0000000000000001 0001 61 0001 74 00 00000000 ffffffff 00000000",
    ),
    (
        "a Delta of a subscription, as (1, 1), that was removed, as (0, 1)",
        "0000005d 06 0000 0001 00000002 0000 0000000000000001 0000000000000001 0001 0000000000000001 0000000000000001 \
         00000002 0000 0000000000000001 0000000000000001 0001 0000000000000001 0000000000000001 00000000 00000000",
    ),
    (
        "a Forward under 1 of x to t with QoS 1, by a, for plain subscriptions",
        "0000001f 04 0001 0000 0000000000000001 01 0000 0001 74 00000001 78 00 01 00 0001 61 00",
    ),
    (
        "a Forward under 2 of it with a deadline, for b in $share/g/t",
        "00000036 04 0001 0000 0000000000000002 00 0001 0001 62 000a 2473686172652f672f74 \
         0001 74 00000001 78 00 01 00 0001 61 01 0000000000001770",
    ),
    ("a Got of 1", "0000000d 05 0000 0001 0000000000000001"),
];

/// Where a frame has the last bytes of its sender's and of its receiver's number.
const SENDER: usize = 6;

const RECEIVER: usize = 8;

/// What is told of a frame: its sender, its receiver, how many frames answer it, and whether it names none but the nodes of a cluster of two.
#[derive(Clone, Copy)]
struct Sent {
    from: u16,
    to: u16,
    answers: usize,
    is_known: bool,
}

/// A Hello and a Delta are answered by a Know, a Forward by a Got.
fn answers_of(body: &FrameBody) -> usize {
    match body {
        FrameBody::Hello(_) | FrameBody::Delta(_) | FrameBody::Forward(_, _) => 1,
        FrameBody::Know(_) | FrameBody::Got(_) => 0,
    }
}

/// Whether the body names none but the nodes of a cluster of two.
fn is_known(body: &FrameBody) -> bool {
    match body {
        FrameBody::Delta(state) => is_state_among(2, state),
        FrameBody::Hello(greeting) => are_dots_among(2, &greeting.dots),
        FrameBody::Know(dots) => are_dots_among(2, dots),
        _ => true,
    }
}

/// What is told of the frame that the bytes are, if they are one.
fn sent_of(alloc: Global, bytes: &[u8]) -> Option<Sent> {
    match BridgeFrame::read(alloc, bytes) {
        Ok(frame) => {
            let sent = Sent {
                from: frame.from,
                to: frame.to,
                answers: answers_of(&frame.body),
                is_known: is_known(&frame.body),
            };
            drop(frame);
            Some(sent)
        }
        Err(_) => None,
    }
}

/// Whether the bytes are a frame that says that operations of this node were seen that it hasn't made yet. No node of the cluster sends one, and what this node makes
/// under such a number later doesn't stand.
fn foresees(alloc: Global, stage: &Stage, node: u16, bytes: &[u8]) -> bool {
    let Ok(frame) = BridgeFrame::read(alloc, bytes) else {
        return false;
    };
    let foresees = match &frame.body {
        FrameBody::Delta(state) => {
            let last = stage.last_number(node).max(state.taken().greatest(node));
            last < state.subscriptions().seen().greatest(node)
        }
        _ => false,
    };
    drop(frame);
    foresees
}

/// Whether it is a frame for this node of two from the other one.
fn is_for(node: u16, sent: Sent) -> bool {
    sent.to == node && sent.from < 2 && sent.from != node && sent.is_known
}

/// Whether so many frames go out, and nothing else.
fn are_frames(told: &[Told], count: usize) -> bool {
    told.len() == count && told.iter().all(|each| each.said == Said::Frame)
}

/// A frame comes to this node of two. It is taken where it is one for this node from the other one, and may then remove what the
/// witness subscribed to; else it is counted, and changes nothing else. The witness is served after it. A frame that foresees operations of the node isn't sent.
fn is_borne(rt: &impl Abort, alloc: Global, stage: &mut Stage, node: u16, bytes: &[u8]) -> bool {
    if foresees(alloc, stage, node, bytes) {
        return true;
    }
    let before = stage.holdings();
    let told = stage.hear(bytes).expect(rt, "a node that goes on");
    let after = stage.holdings();
    let is_right = match sent_of(alloc, bytes) {
        Some(sent) if is_for(node, sent) => {
            after.counts.bad_frames == before.counts.bad_frames
                && are_frames(&told, sent.answers)
                && stage.subscribe().is_ok()
        }
        _ => after == before.after_bad_frame() && told.is_empty(),
    };
    is_right && stage.look().is_ok()
}

fn parts(rt: &impl Abort, alloc: Global, stage: &mut Stage, node: u16, bytes: &[u8]) {
    for end in 0..=bytes.len() {
        let part = &bytes[..end];
        assert!(rt; is_borne(rt, alloc, stage, node, part), "{part:?}");
    }
}

/// The frame with each byte at a place of it.
fn changes_at(
    rt: &impl Abort,
    alloc: Global,
    stage: &mut Stage,
    node: u16,
    (bytes, place): (&[u8], usize),
) {
    for byte in 0..=255 {
        let frame = changed(rt, alloc, bytes, place, byte);
        assert!(rt; is_borne(rt, alloc, stage, node, &frame), "{frame:?}");
    }
}

fn changes(rt: &impl Abort, alloc: Global, stage: &mut Stage, node: u16, bytes: &[u8]) {
    for place in 0..bytes.len() {
        changes_at(rt, alloc, stage, node, (bytes, place));
    }
}

/// The whole frame with another sender and receiver.
fn sent_by(rt: &impl Abort, alloc: Global, bytes: &[u8], from: u8, to: u8) -> Vec<u8> {
    let sent = changed(rt, alloc, bytes, SENDER, from);
    changed(rt, alloc, &sent, RECEIVER, to)
}

/// The whole frame from each of three nodes to each of them, of which two are there.
fn ends(rt: &impl Abort, alloc: Global, stage: &mut Stage, node: u16, bytes: &[u8]) {
    for (from, to) in [
        (0, 0),
        (0, 1),
        (0, 2),
        (1, 0),
        (1, 1),
        (1, 2),
        (2, 0),
        (2, 1),
        (2, 2),
    ] {
        let sent = sent_by(rt, alloc, bytes, from, to);
        assert!(rt; is_borne(rt, alloc, stage, node, &sent), "{sent:?}");
    }
}

#[test]
fn a_frame_is_taken_or_is_counted_and_changes_nothing(rt: HostRuntime) {
    let alloc = rt.alloc();
    for (what, spelled) in FRAMES {
        let bytes = bytes_of(&rt, alloc, spelled);
        let node = sent_of(alloc, &bytes).expect(&rt, what).to;
        let mut stage = Stage::open(alloc, node).expect(&rt, "a node");
        ends(&rt, alloc, &mut stage, node, &bytes);
        parts(&rt, alloc, &mut stage, node, &bytes);
        changes(&rt, alloc, &mut stage, node, &bytes);
        drop(stage);
    }
}
