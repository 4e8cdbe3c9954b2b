//! A client that comes back to a queue, and gets as much of it as its connection takes.

use crate::keepers::{connect, opened, outputs, piece};
use crate::packets::{AGAIN, ANEW};
use broker_node::EventKind;
use node_keeper::Keeper;
use row_store::MemoryRows;
use std::alloc::Global;
use std::process::Abort;

/// SUBSCRIBE to `t`, at most QoS 1.
const SUBSCRIBE: &[u8] = b"\x82\x07\0\x01\0\0\x01t\x01";

/// CONNECT of `c`, whose home of two nodes is node 1.
const CONNECT: &[u8] = b"\x10\x0e\0\x04MQTT\x05\x02\0\x3c\0\0\x01c";

/// PUBLISHes of `x`, `y` and `z` to `t` at QoS 1.
const PUBLISHES: &[u8] =
    b"\x32\x07\0\x01t\0\x07\0x\x32\x07\0\x01t\0\x08\0y\x32\x07\0\x01t\0\x09\0z";

/// At node 1 `a` has subscribed and is gone, and `c` has published three messages for it.
fn begin(rt: &impl Abort, alloc: Global, keeper: &mut Keeper<MemoryRows>) {
    connect(rt, alloc, keeper, ANEW);
    assert_eq!(rt; outputs(rt, keeper, piece(rt, alloc, 1, SUBSCRIBE)), 1);
    let closed = EventKind::Closed { connection: 1 };
    assert_eq!(rt; outputs(rt, keeper, closed), 0);
    let opened = EventKind::Opened { connection: 2 };
    assert_eq!(rt; outputs(rt, keeper, opened), 0);
    assert_eq!(rt; outputs(rt, keeper, piece(rt, alloc, 2, CONNECT)), 1);
    assert_eq!(rt; outputs(rt, keeper, piece(rt, alloc, 2, PUBLISHES)), 3);
}

/// How many outputs there are where the connection of `a` takes so many bytes from now on.
fn roomed(rt: &impl Abort, keeper: &mut Keeper<MemoryRows>, bytes: u64) -> usize {
    let room = EventKind::Room {
        connection: 3,
        bytes,
    };
    outputs(rt, keeper, room)
}

#[test]
fn a_client_gets_as_much_as_its_connection_takes(rt: HostRuntime) {
    let alloc = rt.alloc();
    let mut keeper = opened(&rt, alloc, MemoryRows::new(alloc), 1);
    begin(&rt, alloc, &mut keeper);
    assert_eq!(rt; roomed(&rt, &mut keeper, 1), 0);
    let back = EventKind::Opened { connection: 3 };
    assert_eq!(rt; outputs(&rt, &mut keeper, back), 0);
    assert_eq!(rt; roomed(&rt, &mut keeper, 1), 0);
    assert_eq!(rt; outputs(&rt, &mut keeper, piece(&rt, alloc, 3, AGAIN)), 2);
    for (bytes, given) in [(0, 0), (1, 1), (1_048_576, 1), (1_048_576, 0)] {
        assert_eq!(rt; roomed(&rt, &mut keeper, bytes), given);
    }
    drop(keeper);
}
