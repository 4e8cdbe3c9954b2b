//! Rows that a session has, and rows that none has.

use mqtt_sessions::{Session, SessionFault};
use row_store::Row;
use std::alloc::Global;
use std::process::Abort;

/// The value of the session's own row, that of each of its copies, how many there are, and whether a session has these rows.
type Kept = (&'static str, &'static str, u64, bool);

/// An exchange of the client under 7, and under 0; a copy of one message that is released at QoS 2, and at QoS 1; as many copies that
/// wait as may, and one more.
const KEPT: [Kept; 6] = [
    (
        "00000064000000000000000000000000000100070000000000000001",
        "",
        0,
        true,
    ),
    (
        "00000064000000000000000000000000000100000000000000000001",
        "",
        0,
        false,
    ),
    (
        "0000006400000000000000000000000000000000000000000002",
        "000102000000000000000100017400000001310002000001630002000000",
        1,
        true,
    ),
    (
        "0000006400000000000000000000000000000000000000000002",
        "000102000000000000000100017400000001310002000001630001000000",
        1,
        false,
    ),
    (
        "0000006400000000000000000000000000000000000000010001",
        "000000000000000000000000017400000001310001000001630001000000",
        65_536,
        true,
    ),
    (
        "0000006400000000000000000000000000000000000000010002",
        "000000000000000000000000017400000001310001000001630001000000",
        65_537,
        false,
    ),
];

/// The bytes that digits spell.
fn bytes(rt: &impl Abort, alloc: Global, digits: &str) -> Vec<u8> {
    hex::decode(alloc, digits).ok().expect(rt, "digits")
}

/// A row of client `a`.
fn row(rt: &impl Abort, alloc: Global, kind: u8, place: &[u8], value: &[u8]) -> Row {
    Row {
        kind,
        owner: Vec::from_slice(alloc, b"a").expect(rt, "memory"),
        place: Vec::from_slice(alloc, place).expect(rt, "memory"),
        value: Vec::from_slice(alloc, value).expect(rt, "memory"),
    }
}

/// The session's own row, and one for each of so many copies with this value.
fn rows(rt: &impl Abort, alloc: Global, own: &str, copy: &str, copies: u64) -> Vec<Row> {
    let own = bytes(rt, alloc, own);
    let copy = bytes(rt, alloc, copy);
    let mut rows = Vec::new(alloc);
    rows.push(row(rt, alloc, 2, b"", &own))
        .ok()
        .expect(rt, "memory");
    for place in 0..copies {
        let place = place.saturating_add(1).to_be_bytes();
        rows.push(row(rt, alloc, 3, &place, &copy))
            .ok()
            .expect(rt, "memory");
    }
    rows
}

/// Whether a session has these rows.
fn are_kept(rt: &impl Abort, alloc: Global, rows: &[Row]) -> bool {
    match Session::from_rows(alloc, rows) {
        Ok(session) => {
            drop(session);
            true
        }
        Err(fault) => {
            assert!(rt; fault == SessionFault::BadRow);
            false
        }
    }
}

#[test]
fn rows_that_no_session_has_are_refused(rt: HostRuntime) {
    for (own, copy, copies, kept) in KEPT {
        let rows = rows(&rt, rt.alloc(), own, copy, copies);
        assert_eq!(rt; are_kept(&rt, rt.alloc(), &rows), kept, "{own} {copy}");
    }
}
