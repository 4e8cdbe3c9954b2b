//! A database that an earlier program wrote, with rows of version 1.

use crate::served::ends_by;
use row_database::{Wary, open_rows};
use row_store::{Row, RowStore};
use std::fs;
use trial_databases::{HOMES, write_file};

/// Its mark, its subscription's value, and its dots (1, 1) and (1, 2), as those that were taken and as those that were seen, in version 3.
const MARK: &[u8] = b"\0\x03\0\x01\0\0\0\0\0\0\0\0";

const SUBSCRIPTION: &[u8] = b"\0\x01t\x01\0\0\0\0\0\0\0\0";

const DOTS: &[u8] = b"\0\0\0\x01\0\x01\0\0\0\0\0\0\0\x01\0\0\0\0\0\0\0\x02";

/// Whether a row is of version 3, where the versions differ.
fn is_raised(row: &Row) -> bool {
    match row.kind {
        1 => row.value.as_slice() == MARK,
        4 => row.value.as_slice() == SUBSCRIPTION,
        6 => row.value.as_slice() == DOTS,
        _ => true,
    }
}

fn are_raised(rows: &[Row]) -> bool {
    for row in rows {
        if !is_raised(row) {
            return false;
        }
    }
    // What is marked, the session, two copies, a subscription, a message, and two sets.
    rows.len() == 8
}

fn holds_raised<R: RowStore + Drop>(mut rows: R) -> bool {
    match rows.load() {
        Ok(found) => are_raised(&found),
        Err(_) => false,
    }
}

#[test]
fn a_database_of_version_1_is_served(rt: HostRuntime) {
    fs::write(&rt, "two.toml", HOMES).expect(&rt, "a file");
    assert!(rt; write_file(&rt, "first.db"));
    for _ in 0..2 {
        assert!(rt; ends_by(&rt, ("two.toml", "n1", "first.db"), Ok(())));
    }
    let rows = open_rows(&rt, "first.db", Wary)
        .ok()
        .expect(&rt, "a database");
    assert!(rt; holds_raised(rows));
}
