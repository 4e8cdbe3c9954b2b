//! Rows of node 1 in versions 1, 2 and 3, and in none; and rows that it never has.

use home_table::homes_of;
use node_keeper::{Keeper, KeeperFault};
use row_store::{Change, MemoryRows, Row, RowFault, RowStore};
use std::alloc::Global;
use std::process::Abort;
use trial_fakes::RefusingRows;

/// A row: its kind, owner, place and value.
type Plain = (u8, &'static [u8], &'static [u8], &'static [u8]);

/// The mark in each version: the node, and that it has given no identifier.
const FIRST_MARK: &[u8] = b"\0\x01\0\x01\0\0\0\0\0\0\0\0";

const SECOND_MARK: &[u8] = b"\0\x02\0\x01\0\0\0\0\0\0\0\0";

const THIRD_MARK: &[u8] = b"\0\x03\0\x01\0\0\0\0\0\0\0\0";

/// A subscription to `t` with options 0 and no identifier: in version 1, in later ones under version 0 of the table of homes, and
/// under the last one.
const FIRST_VALUE: &[u8] = b"\0\x01t\0\0\0\0\0";

const SECOND_VALUE: &[u8] = b"\0\x01t\0\0\0\0\0\0\0\0\0";

const LAST_VALUE: &[u8] = b"\0\x01t\0\0\0\0\0\xff\xff\xff\xff";

/// The dot (1, 1), the set of it, and the set of it and (1, 2).
const DOT: &[u8] = b"\0\x01\0\0\0\0\0\0\0\x01";

const DOTS: &[u8] = b"\0\0\0\x01\0\x01\0\0\0\0\0\0\0\x01\0\0\0\0\0\0\0\x01";

const BOTH: &[u8] = b"\0\0\0\x01\0\x01\0\0\0\0\0\0\0\x01\0\0\0\0\0\0\0\x02";

/// That no message is kept of a topic, under the stamp (1, 1).
const CLEARED: &[u8] = b"\0\0\0\0\0\0\0\x01\0\x01\0";

/// The number of another node, and that of the node.
const OTHER: &[u8] = b"\0\0";

const ITSELF: &[u8] = b"\0\x01";

/// That one message was put in a lane and is gone, and that one was taken of a lane.
const ONE_PUT: &[u8] = b"\0\0\0\0\0\0\0\x01\0\0\0\0\0\0\0\0";

const ONE_TAKEN: &[u8] = b"\0\0\0\0\0\0\0\0\0\0\0\0\0\0\0\x01";

/// The rows of a node with one subscription, of `a`, which has made another operation, and has seen these dots.
fn rows_with(mark: &'static [u8], subscription: &'static [u8], seen: &'static [u8]) -> [Plain; 4] {
    [
        (1, b"", b"", mark),
        (4, b"a", DOT, subscription),
        (6, b"", b"\x01", BOTH),
        (6, b"", b"\x02", seen),
    ]
}

/// The rows of a node with these numbers of the lanes to and from a node.
fn rows_of_lanes(node: &'static [u8], numbers: &'static [u8]) -> [Plain; 2] {
    [(1, b"", b"", THIRD_MARK), (8, node, b"", numbers)]
}

fn row(rt: &impl Abort, alloc: Global, plain: &Plain) -> Row {
    let (kind, owner, place, value) = *plain;
    Row {
        kind,
        owner: Vec::from_slice(alloc, owner).expect(rt, "memory"),
        place: Vec::from_slice(alloc, place).expect(rt, "memory"),
        value: Vec::from_slice(alloc, value).expect(rt, "memory"),
    }
}

/// A store of these rows, of whose calls the one of this number is refused, counted from 1.
fn store(rt: &impl Abort, alloc: Global, rows: &[Plain], refused: u64) -> RefusingRows {
    let mut changes = Vec::new(alloc);
    for plain in rows {
        let put = Change::Put(row(rt, alloc, plain));
        changes.push(put).expect(rt, "memory");
    }
    let mut store = MemoryRows::new(alloc);
    store.apply(&changes).ok().expect(rt, "memory");
    drop(changes);
    RefusingRows::new(store, refused)
}

fn is_row(row: &Row, plain: &Plain) -> bool {
    row.kind == plain.0
        && row.owner.as_slice() == plain.1
        && row.place.as_slice() == plain.2
        && row.value.as_slice() == plain.3
}

fn are_rows(rows: &[Row], plain: &[Plain]) -> bool {
    for (row, plain) in rows.iter().zip(plain) {
        if !is_row(row, plain) {
            return false;
        }
    }
    rows.len() == plain.len()
}

/// Whether a store has just these rows.
fn has(rt: &impl Abort, store: &mut RefusingRows, plain: &[Plain]) -> bool {
    let rows = store.load().ok().expect(rt, "rows");
    let has = are_rows(&rows, plain);
    drop(rows);
    has
}

/// Opens node 1 from the store: how many subscriptions stand, or the fault; and the store.
fn opened(
    rt: &impl Abort,
    alloc: Global,
    store: RefusingRows,
) -> (Result<usize, KeeperFault>, RefusingRows) {
    let homes = homes_of(alloc, 2).expect(rt, "a table");
    match Keeper::open(alloc, store, homes, 1) {
        Ok(keeper) => {
            let stand = keeper.node().store().subscriptions().live_count();
            (Ok(stand), keeper.into_rows())
        }
        Err((fault, store)) => (Err(fault), store),
    }
}

/// A node is opened from these rows, which are written as others, and then again from those.
fn are_written(rt: &impl Abort, alloc: Global, rows: &[Plain], raised: &[Plain], stand: usize) {
    let (found, mut store) = opened(rt, alloc, store(rt, alloc, rows, 0));
    assert!(rt; found == Ok(stand));
    assert_eq!(rt; store.writes(), 1);
    assert!(rt; has(rt, &mut store, raised));
    let (found, mut store) = opened(rt, alloc, store);
    assert!(rt; found == Ok(stand));
    assert_eq!(rt; store.writes(), 1);
    assert!(rt; has(rt, &mut store, raised));
    drop(store);
}

#[test]
fn older_rows_are_written_as_version_3(rt: HostRuntime) {
    for (mark, value, raised) in [
        (FIRST_MARK, FIRST_VALUE, SECOND_VALUE),
        (SECOND_MARK, SECOND_VALUE, SECOND_VALUE),
        (SECOND_MARK, LAST_VALUE, LAST_VALUE),
    ] {
        let rows = rows_with(mark, value, DOTS);
        let raised = rows_with(THIRD_MARK, raised, BOTH);
        are_written(&rt, rt.alloc(), &rows, &raised, 1);
    }
}

#[test]
fn a_node_that_has_seen_nothing_has_seen_what_it_took(rt: HostRuntime) {
    for mark in [FIRST_MARK, SECOND_MARK] {
        let rows: [Plain; 4] = [
            (1, b"", b"", mark),
            (5, b"t", b"", CLEARED),
            (6, b"", b"\x01", DOTS),
            (8, OTHER, b"", ONE_PUT),
        ];
        let raised: [Plain; 5] = [
            (1, b"", b"", THIRD_MARK),
            (5, b"t", b"", CLEARED),
            (6, b"", b"\x01", DOTS),
            (6, b"", b"\x02", DOTS),
            (8, OTHER, b"", ONE_PUT),
        ];
        are_written(&rt, rt.alloc(), &rows, &raised, 0);
        let rows = [rows[0], rows[1], rows[2]];
        let raised = [raised[0], raised[1], raised[2], raised[3]];
        are_written(&rt, rt.alloc(), &rows, &raised, 0);
    }
}

#[test]
fn rows_of_version_3_are_left_as_they_are(rt: HostRuntime) {
    let alloc = rt.alloc();
    for value in [SECOND_VALUE, LAST_VALUE] {
        let rows = rows_with(THIRD_MARK, value, BOTH);
        let (found, mut store) = opened(&rt, alloc, store(&rt, alloc, &rows, 0));
        assert!(rt; found == Ok(1));
        assert_eq!(rt; store.writes(), 0);
        assert!(rt; has(&rt, &mut store, &rows));
        drop(store);
    }
}

#[test]
fn rows_of_no_version_are_bad(rt: HostRuntime) {
    let alloc = rt.alloc();
    for (mark, value, seen) in [
        (b"\0\0\0\x01\0\0\0\0\0\0\0\0".as_slice(), FIRST_VALUE, BOTH),
        (
            b"\0\x04\0\x01\0\0\0\0\0\0\0\0".as_slice(),
            SECOND_VALUE,
            BOTH,
        ),
        (b"\0\x01\0\0\0\0\0\0\0\0\0\0".as_slice(), FIRST_VALUE, BOTH),
        (FIRST_MARK, SECOND_VALUE, BOTH),
        (SECOND_MARK, FIRST_VALUE, BOTH),
        (THIRD_MARK, FIRST_VALUE, BOTH),
        (FIRST_MARK, FIRST_VALUE, b"\0".as_slice()),
        (SECOND_MARK, SECOND_VALUE, b"\0".as_slice()),
        (THIRD_MARK, SECOND_VALUE, DOTS),
    ] {
        let rows = rows_with(mark, value, seen);
        let (found, mut store) = opened(&rt, alloc, store(&rt, alloc, &rows, 0));
        assert!(rt; found == Err(KeeperFault::Rows(RowFault::BadRow)));
        assert_eq!(rt; store.writes(), 0);
        assert!(rt; has(&rt, &mut store, &rows));
        drop(store);
    }
}

#[test]
fn lanes_of_a_node_to_itself_are_bad(rt: HostRuntime) {
    let alloc = rt.alloc();
    let bad = Err(KeeperFault::Rows(RowFault::BadRow));
    for (node, numbers, answer) in [
        (OTHER, ONE_PUT, Ok(0)),
        (OTHER, ONE_TAKEN, Ok(0)),
        (ITSELF, ONE_PUT, bad),
        (ITSELF, ONE_TAKEN, bad),
    ] {
        let rows = rows_of_lanes(node, numbers);
        let (found, mut store) = opened(&rt, alloc, store(&rt, alloc, &rows, 0));
        assert!(rt; found == answer);
        assert_eq!(rt; store.writes(), 0);
        assert!(rt; has(&rt, &mut store, &rows));
        drop(store);
    }
}

#[test]
fn a_refused_call_leaves_older_rows(rt: HostRuntime) {
    let alloc = rt.alloc();
    let rows = rows_with(FIRST_MARK, FIRST_VALUE, DOTS);
    // The rows are loaded, and then raised.
    for refused in 1..3 {
        let (found, mut store) = opened(&rt, alloc, store(&rt, alloc, &rows, refused));
        assert!(rt; found == Err(KeeperFault::Rows(RowFault::Device)));
        assert!(rt; has(&rt, &mut store, &rows));
        let (found, mut store) = opened(&rt, alloc, store);
        assert!(rt; found == Ok(1));
        assert!(rt; has(&rt, &mut store, &rows_with(THIRD_MARK, SECOND_VALUE, BOTH)));
        drop(store);
    }
}
