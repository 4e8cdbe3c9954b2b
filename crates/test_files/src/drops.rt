//! What is dropped of rows of node 1 of two, and what their node is then.

ghost use Rattle.row_drops.specs.Dropping.{IsInside};

use cli_reports::{dropped_text, figures_of};
use row_drops::{Target, changes_of, drop_in};
use row_store::{Change, MemoryRows, Row, RowFault, RowStore};
use std::alloc::Global;
use std::process::Abort;

/// A row: its kind, owner, place and value.
type Plain = (u8, &'static [u8], &'static [u8], &'static [u8]);

/// The mark of node 1, the sessions of `c` and `d`, and two messages that wait for node 0. `c` has an exchange at QoS 1 and two copies that wait, and `d` one that waits.
const ROWS: [Plain; 10] = [
    (1, b"", b"", b"\0\x03\0\x01\0\0\0\0\0\0\0\0"),
    (
        2,
        b"c",
        b"",
        b"\0\0\0\x0a\x01\0\0\0\0\0\0\0\x05\0\0\0\0\0\0\0\0\0\0\0\0\x04",
    ),
    (
        2,
        b"d",
        b"",
        b"\0\0\0\x0a\0\0\0\0\0\0\0\0\0\0\0\0\0\0\0\0\0\0\0\0\0\x02",
    ),
    (
        3,
        b"c",
        b"\0\0\0\0\0\0\0\x01",
        b"\0\x07\x01\0\0\0\0\0\0\0\0\0\x01t\0\0\0\x01x\0\x01\0\0\x01a\0\x01\0\0\0",
    ),
    (
        3,
        b"c",
        b"\0\0\0\0\0\0\0\x02",
        b"\0\0\0\0\0\0\0\0\0\0\0\0\x01t\0\0\0\x01y\0\x01\0\0\x01a\0\x01\0\0\0",
    ),
    (
        3,
        b"c",
        b"\0\0\0\0\0\0\0\x03",
        b"\0\0\0\0\0\0\0\0\0\0\0\0\x01t\0\0\0\x01z\0\x01\0\0\x01a\0\x01\0\0\0",
    ),
    (
        3,
        b"d",
        b"\0\0\0\0\0\0\0\x01",
        b"\0\0\0\0\0\0\0\0\0\0\0\0\x01t\0\0\0\x01z\0\x01\0\0\x01a\0\x01\0\0\0",
    ),
    (
        7,
        b"\0\0",
        b"\0\0\0\0\0\0\0\x01",
        b"\x01\0\0\0\x01t\0\0\0\x01x\0\x01\0\0\x01a\0",
    ),
    (
        7,
        b"\0\0",
        b"\0\0\0\0\0\0\0\x02",
        b"\x01\0\0\0\x01t\0\0\0\x01x\0\x01\0\0\x01a\0",
    ),
    (8, b"\0\0", b"", b"\0\0\0\0\0\0\0\x02\0\0\0\0\0\0\0\x05"),
];

fn row(rt: &impl Abort, alloc: Global, plain: &Plain) -> Row {
    let (kind, owner, place, value) = *plain;
    Row {
        kind,
        owner: Vec::from_slice(alloc, owner).expect(rt, "memory"),
        place: Vec::from_slice(alloc, place).expect(rt, "memory"),
        value: Vec::from_slice(alloc, value).expect(rt, "memory"),
    }
}

fn rows(rt: &impl Abort, alloc: Global, plain: &[Plain]) -> Vec<Row> {
    let mut rows = Vec::new(alloc);
    for it in plain {
        rows.push(row(rt, alloc, it)).expect(rt, "memory");
    }
    rows
}

/// A store that has the rows.
fn store(rt: &impl Abort, alloc: Global, plain: &[Plain]) -> MemoryRows {
    let mut puts = Vec::new(alloc);
    for it in plain {
        puts.push(Change::Put(row(rt, alloc, it)))
            .expect(rt, "memory");
    }
    let mut store = MemoryRows::new(alloc);
    store.apply(&puts).expect(rt, "memory");
    store
}

/// Whether dropping this is told so, and leaves these rows, which are a node's.
fn leaves(rt: &impl Abort, alloc: Global, target: Target, told: &str, expected: &[Plain]) -> bool
    requires { IsInside target 2 }
{
    let mut store = store(rt, alloc, &ROWS);
    let changes = drop_in(alloc, &mut store, 1, 2, &target).expect(rt, "a node's rows");
    let text = dropped_text(alloc, &changes).expect(rt, "memory");
    let after = store.load().expect(rt, "memory");
    let opens = figures_of(alloc, &after, 1, 2).is_ok();
    let is = text.as_str() == told && after == rows(rt, alloc, expected);
    drop((changes, text, after, store, target));
    opens && is
}

fn client(rt: &impl Abort, alloc: Global, name: &str) -> String {
    String::from_str(alloc, name).expect(rt, "memory")
}

#[test]
fn a_queue_is_dropped(rt: HostRuntime) {
    let alloc = rt.alloc();
    let queue = Target::Queue(client(&rt, alloc, "c"));
    let left = [
        ROWS[0], ROWS[1], ROWS[2], ROWS[3], ROWS[6], ROWS[7], ROWS[8], ROWS[9],
    ];
    assert!(rt; leaves(&rt, alloc, queue, "sessions 0\nmessages 2\n", &left));
    let none = Target::Queue(client(&rt, alloc, "e"));
    assert!(rt; leaves(&rt, alloc, none, "sessions 0\nmessages 0\n", &ROWS));
}

#[test]
fn a_session_is_dropped(rt: HostRuntime) {
    let alloc = rt.alloc();
    let session = Target::Session(client(&rt, alloc, "c"));
    let over: Plain = (
        2,
        b"c",
        b"",
        b"\0\0\0\0\x01\0\0\0\0\0\0\0\0\0\0\0\0\0\0\0\0\0\0\0\0\x04",
    );
    let left = [ROWS[0], over, ROWS[2], ROWS[6], ROWS[7], ROWS[8], ROWS[9]];
    assert!(rt; leaves(&rt, alloc, session, "sessions 1\nmessages 3\n", &left));
}

#[test]
fn a_lane_is_dropped(rt: HostRuntime) {
    let alloc = rt.alloc();
    let nobody: &[u8] = b"\0\0\0\0\x01-\0\0\0\0\0\0\0\0\0\0";
    let left = [
        ROWS[0],
        ROWS[1],
        ROWS[2],
        ROWS[3],
        ROWS[4],
        ROWS[5],
        ROWS[6],
        (7, ROWS[7].1, ROWS[7].2, nobody),
        (7, ROWS[8].1, ROWS[8].2, nobody),
        ROWS[9],
    ];
    assert!(rt;
        leaves(
            &rt,
            alloc,
            Target::Lane(0),
            "sessions 0\nmessages 2\n",
            &left
        )
    );
}

#[test]
fn rows_of_no_node_stay(rt: HostRuntime) {
    let alloc = rt.alloc();
    let older: Plain = (1, b"", b"", b"\0\x02\0\x01\0\0\0\0\0\0\0\0");
    let none: [Plain; 0] = [];
    let first: &[Plain] = &none;
    for plain in [first, &[older], &ROWS[3..]] {
        let rows = rows(&rt, alloc, plain);
        let target = Target::Lane(0);
        let is = match changes_of(alloc, &rows, 1, 2, &target) {
            Err(fault) => fault == RowFault::BadRow,
            Ok(_) => false,
        };
        assert!(rt; is);
        drop((rows, target));
    }
}
