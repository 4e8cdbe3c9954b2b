//! Messages that cross from node to node: all that wait go over by one Ship and one More, in order, each once.

use crate::long_messages::{CONNECT_B, PUBLISH, packet, publisher};
use crate::nodes::{answer, confirm, connect, first_shipped, frames, started, take, take_all};
use crate::packets::SUBSCRIBE;
use broker_node::{EventKind, Frame, Node};
use std::alloc::Global;
use std::process::Abort;

/// How many messages wait, how many of them a Ship gives, and how many are left then.
const MESSAGES: usize = 200;

const FIRST: usize = 64;

const LEFT: usize = 136;

/// A payload, of which five are more than go before another message, and four are less.
const LONG: usize = 1_048_500;

/// `b` at node 0 subscribes to `t`, and node 1, whose client `a` is connected, knows so.
fn pair(rt: &impl Abort, alloc: Global) -> (Node, Node) {
    let mut home = started(rt, alloc, 0);
    connect(rt, alloc, &mut home, 1, CONNECT_B);
    answer(rt, alloc, &mut home, 1, SUBSCRIBE);
    let mut node = publisher(rt, alloc);
    let (state, _) = first_shipped(rt, &mut home, 1);
    let known = confirm(rt, &mut node, state);
    assert_eq!(rt; take(rt, &mut home, known), 0);
    (home, node)
}

/// What node 1 gives for node 0: at a Ship, and then at a More after these.
fn given(rt: &impl Abort, alloc: Global, node: &mut Node) -> (Vec<Frame>, Vec<Frame>) {
    for _ in 0..MESSAGES {
        answer(rt, alloc, node, 1, PUBLISH);
    }
    let shipped = frames(rt, alloc, node, EventKind::Ship { peer: 0 });
    let after = FIRST as u64;
    let more = frames(rt, alloc, node, EventKind::More { peer: 0, after });
    assert_eq!(rt; (shipped.len(), more.len()), (1 + FIRST, 1 + LEFT));
    (shipped, more)
}

#[test]
fn all_that_wait_go_over_by_a_ship_and_a_more(rt: HostRuntime) {
    let alloc = rt.alloc();
    let (mut home, mut node) = pair(&rt, alloc);
    let (shipped, more) = given(&rt, alloc, &mut node);
    // a Know for a Delta, and for each message a PUBLISH and a Got
    assert_eq!(rt; take_all(&rt, alloc, &mut home, &shipped), 1 + 2 * FIRST);
    assert_eq!(rt; take_all(&rt, alloc, &mut home, &more), 1 + 2 * LEFT);
    // what was taken isn't taken again
    assert_eq!(rt; take_all(&rt, alloc, &mut home, &shipped), 1 + FIRST);
    assert_eq!(rt; take_all(&rt, alloc, &mut home, &more), 1 + LEFT);
    // no message is left that has a greater number than the last
    let after = MESSAGES as u64;
    let none = frames(&rt, alloc, &mut node, EventKind::More { peer: 0, after });
    assert_eq!(rt; none.len(), 1);
    drop((home, node, shipped, more, none));
}

#[test]
fn what_comes_too_early_is_taken_when_it_comes_again(rt: HostRuntime) {
    let alloc = rt.alloc();
    let (mut home, mut node) = pair(&rt, alloc);
    let (shipped, more) = given(&rt, alloc, &mut node);
    assert_eq!(rt; take_all(&rt, alloc, &mut home, &more), 1 + LEFT);
    assert_eq!(rt; take_all(&rt, alloc, &mut home, &shipped), 1 + 2 * FIRST);
    assert_eq!(rt; take_all(&rt, alloc, &mut home, &more), 1 + 2 * LEFT);
    drop((home, node, shipped, more));
}

#[test]
fn a_message_goes_behind_fewer_bytes_of_payload_than_may_go(rt: HostRuntime) {
    let alloc = rt.alloc();
    let (home, mut node) = pair(&rt, alloc);
    let mut rest = Vec::from_slice(alloc, b"\0\x01t\0\x07\0").expect(&rt, "memory");
    let payload = vec![in alloc; b'x'; LONG].expect(&rt, "memory");
    rest.extend_from_slice(&payload).expect(&rt, "memory");
    let long = packet(&rt, alloc, 0x32, &rest);
    for _ in 0..7 {
        answer(&rt, alloc, &mut node, 1, &long);
    }
    for (after, count) in [(0, 6), (1, 6), (2, 6), (3, 5), (6, 2), (7, 1)] {
        let more = frames(&rt, alloc, &mut node, EventKind::More { peer: 0, after });
        assert_eq!(rt; more.len(), count, "after {after}");
        drop(more);
    }
    drop((home, node, rest, payload, long));
}
