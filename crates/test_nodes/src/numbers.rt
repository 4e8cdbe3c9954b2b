//! A node that has numbered operations, or messages for another node, up to the end of numbers.

use crate::keepers::{connect, fault, frame, opened, outputs, piece};
use crate::packets::{CONNECT, DELTA, SUBSCRIBE};
use broker_node::EventKind;
use node_keeper::KeeperFault;
use row_store::{Change, MemoryRows, Row, RowStore};
use std::alloc::Global;
use std::process::Abort;

/// A row: its kind, owner, place and value.
pub type Plain = (u8, &'static [u8], &'static [u8], &'static [u8]);

/// The mark of node 1: the version, the node, and that no identifier was given.
const MARK: &[u8] = b"\0\x03\0\x01\0\0\0\0\0\0\0\0";

/// The one dot (1, 2^62 - 1), as a range.
const TAKEN: &[u8] =
    b"\0\0\0\x01\0\x01\x3f\xff\xff\xff\xff\xff\xff\xff\x3f\xff\xff\xff\xff\xff\xff\xff";

/// That 2^62 - 1 messages were put in the lane to another node, and none from there was taken.
const LANE: &[u8] = b"\x3f\xff\xff\xff\xff\xff\xff\xff\0\0\0\0\0\0\0\0";

/// PUBLISH of `x` to `t` at QoS 1.
const PUBLISH: &[u8] = b"\x32\x07\0\x01t\0\x07\0x";

/// Puts a row.
fn put(rt: &impl Abort, alloc: Global, rows: &mut MemoryRows, row: Plain) {
    let (kind, owner, place, value) = row;
    let row = Row {
        kind,
        owner: Vec::from_slice(alloc, owner).expect(rt, "memory"),
        place: Vec::from_slice(alloc, place).expect(rt, "memory"),
        value: Vec::from_slice(alloc, value).expect(rt, "memory"),
    };
    let changes = [Change::Put(row)];
    rows.apply(&changes).ok().expect(rt, "memory");
    drop(changes);
}

/// A store of these rows.
pub fn rows_of(rt: &impl Abort, alloc: Global, plain: &[Plain]) -> MemoryRows {
    let mut rows = MemoryRows::new(alloc);
    for row in plain {
        put(rt, alloc, &mut rows, *row);
    }
    rows
}

#[test]
fn a_subscribe_past_the_last_number_stops_the_node(rt: HostRuntime) {
    let alloc = rt.alloc();
    let rows = rows_of(
        &rt,
        alloc,
        &[
            (1, b"", b"", MARK),
            (6, b"", b"\x01", TAKEN),
            (6, b"", b"\x02", TAKEN),
        ],
    );
    let mut keeper = opened(&rt, alloc, rows, 1);
    connect(&rt, alloc, &mut keeper, CONNECT);
    let subscribe = piece(&rt, alloc, 1, SUBSCRIBE);
    let found = fault(&mut keeper, subscribe);
    assert!(rt; found == Some(KeeperFault::NumbersAtEnd));
    let found = fault(&mut keeper, EventKind::Tick);
    assert!(rt; found == Some(KeeperFault::Stopped));
    drop(keeper);
}

#[test]
fn a_message_past_the_last_number_of_a_lane_stops_the_node(rt: HostRuntime) {
    let alloc = rt.alloc();
    let rows = rows_of(&rt, alloc, &[(1, b"", b"", MARK), (8, b"\0\0", b"", LANE)]);
    let mut keeper = opened(&rt, alloc, rows, 1);
    connect(&rt, alloc, &mut keeper, CONNECT);
    let found = fault(&mut keeper, piece(&rt, alloc, 1, PUBLISH));
    assert!(rt; found.is_none());
    assert_eq!(rt; outputs(&rt, &mut keeper, frame(&rt, alloc, DELTA)), 1);
    let found = fault(&mut keeper, piece(&rt, alloc, 1, PUBLISH));
    assert!(rt; found == Some(KeeperFault::NumbersAtEnd));
    let found = fault(&mut keeper, EventKind::Tick);
    assert!(rt; found == Some(KeeperFault::Stopped));
    drop(keeper);
}
