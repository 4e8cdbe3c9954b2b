//! What a node leaves out and counts where no more has room: a copy behind a full queue and a message behind a full lane; and a pick of a
//! client that has no session.

use crate::keepers::{connect, frame, opened, outputs, piece};
use crate::packets::{ANEW, DELTA};
use broker_node::EventKind;
use node_keeper::Keeper;
use row_store::MemoryRows;
use std::alloc::Global;
use std::process::Abort;

/// SUBSCRIBE to `t`, at most QoS 1.
const SUBSCRIBE: &[u8] = b"\x82\x07\0\x01\0\0\x01t\x01";

/// CONNECT of `c`, whose home of two nodes is node 1.
const CONNECT: &[u8] = b"\x10\x0e\0\x04MQTT\x05\x02\0\x3c\0\0\x01c";

/// PUBLISH of `x` to `t` at QoS 1.
const PUBLISH: &[u8] = b"\x32\x07\0\x01t\0\x07\0x";

/// From node 1 to node 0 under number 1, of `x` to `t` at QoS 1 by `a`, for `a` in `$share/g/t`.
const FORWARD: &[u8] = b"\0\0\0\x2e\x04\0\x01\0\0\0\0\0\0\0\0\0\x01\
    \0\0\x01\0\x01a\0\x0a$share/g/t\0\x01t\0\0\0\x01x\0\x01\0\0\x01a\0";

/// How many messages are in one piece, and how many pieces have as many as a queue and a lane take.
const MESSAGES: usize = 1_024;

const PIECES: usize = 64;

/// How many frames there are for one Ship: what the other node may lack, and the first of the messages that wait for it.
const SHIPPED: usize = 65;

/// How many there are for one More at most: the same, and as many messages as go at once.
const MOST: usize = 4_097;

/// At node 1 `a` has subscribed and is gone, `b` has subscribed at node 0, and `c` is connected.
fn begin(rt: &impl Abort, alloc: Global, keeper: &mut Keeper<MemoryRows>) {
    connect(rt, alloc, keeper, ANEW);
    assert_eq!(rt; outputs(rt, keeper, piece(rt, alloc, 1, SUBSCRIBE)), 1);
    let closed = EventKind::Closed { connection: 1 };
    assert_eq!(rt; outputs(rt, keeper, closed), 0);
    assert_eq!(rt; outputs(rt, keeper, frame(rt, alloc, DELTA)), 1);
    let opened = EventKind::Opened { connection: 2 };
    assert_eq!(rt; outputs(rt, keeper, opened), 0);
    assert_eq!(rt; outputs(rt, keeper, piece(rt, alloc, 2, CONNECT)), 1);
}

/// So many messages as one piece of `c`.
fn messages(rt: &impl Abort, alloc: Global, count: usize) -> EventKind {
    let mut bytes = Vec::new(alloc);
    for _ in 0..count {
        bytes.extend_from_slice(PUBLISH).expect(rt, "memory");
    }
    let messages = piece(rt, alloc, 2, bytes.as_slice());
    drop(bytes);
    messages
}

/// How many copies, messages for other nodes and picks were left out.
fn left_out(keeper: &Keeper<MemoryRows>) -> (u64, u64, u64) {
    let counts = keeper.node().counts();
    (counts.queue_full, counts.lane_full, counts.picks_lost)
}

#[test]
fn what_is_behind_a_full_queue_and_a_full_lane_is_left_out_and_counted(rt: HostRuntime) {
    let alloc = rt.alloc();
    let mut keeper = opened(&rt, alloc, MemoryRows::new(alloc), 1);
    begin(&rt, alloc, &mut keeper);
    for _ in 0..PIECES {
        let messages = messages(&rt, alloc, MESSAGES);
        assert_eq!(rt; outputs(&rt, &mut keeper, messages), MESSAGES);
    }
    assert_eq!(rt; left_out(&keeper), (0, 0, 0));
    let ship = EventKind::Ship { peer: 0 };
    assert_eq!(rt; outputs(&rt, &mut keeper, ship), SHIPPED);
    for (after, count) in [(64, MOST), (61_440, MOST), (61_441, 4_096), (65_536, 1)] {
        let more = EventKind::More { peer: 0, after };
        assert_eq!(rt; outputs(&rt, &mut keeper, more), count, "after {after}");
    }
    let messages = messages(&rt, alloc, 1);
    assert_eq!(rt; outputs(&rt, &mut keeper, messages), 1);
    assert_eq!(rt; left_out(&keeper), (1, 1, 0));
    drop(keeper);
}

#[test]
fn a_pick_of_a_client_without_a_session_is_counted_once(rt: HostRuntime) {
    let alloc = rt.alloc();
    let mut keeper = opened(&rt, alloc, MemoryRows::new(alloc), 0);
    assert_eq!(rt; outputs(&rt, &mut keeper, EventKind::Started), 0);
    for _ in 0..2 {
        let forward = frame(&rt, alloc, FORWARD);
        assert_eq!(rt; outputs(&rt, &mut keeper, forward), 1);
        assert_eq!(rt; left_out(&keeper), (0, 0, 1));
    }
    drop(keeper);
}
