//! The example of docs/storage.md in memory and in a database, the databases that aren't adopted, and changes that are gathered.

use crate::samples::{Sample, apply, are_changes, changes, holds};
use row_store::{MemoryRows, RowFault, RowStore, gather};
use sqlite::{Alter, Connection};
use sqlite_trees::memory::MemStore;
use std::alloc::Global;
use std::process::Abort;
use trial_files::adopted;

// Put (5, `t`, empty) with 01 and then with 02, and remove (2, `a`, empty).
const CHANGES: [Sample; 3] = [(5, "t", Some(1)), (5, "t", Some(2)), (2, "a", None)];

// Changes, and the rows after them: rows with a number as their place and without are put where none is, where one
// stands from before, where one was put just now, and where one was removed just now; after a removal of another row, where
// both are there, one of them, or none; and after removals, with more puts than these, fewer, one at the key of a removal, and one
// where a row stands.
const PUTS: [(&[Sample], &[Sample]); 10] = [
    (
        &[(3, "n", Some(1)), (5, "t", Some(1))],
        &[(3, "n", Some(1)), (5, "t", Some(1))],
    ),
    (
        &[(2, "a", Some(1)), (3, "n", Some(2)), (5, "t", Some(2))],
        &[(2, "a", Some(1)), (3, "n", Some(2)), (5, "t", Some(2))],
    ),
    (
        &[
            (3, "m", Some(1)),
            (3, "m", Some(2)),
            (3, "n", Some(3)),
            (3, "n", Some(4)),
            (5, "s", Some(1)),
            (5, "s", Some(2)),
        ],
        &[
            (2, "a", Some(1)),
            (3, "m", Some(2)),
            (3, "n", Some(4)),
            (5, "s", Some(2)),
            (5, "t", Some(2)),
        ],
    ),
    (
        &[
            (3, "m", None),
            (3, "m", Some(5)),
            (3, "n", None),
            (2, "a", None),
            (2, "a", Some(5)),
            (5, "s", None),
            (5, "t", None),
        ],
        &[(2, "a", Some(5)), (3, "m", Some(5))],
    ),
    (
        &[
            (3, "m", None),
            (3, "n", Some(6)),
            (3, "k", None),
            (3, "o", Some(7)),
        ],
        &[(2, "a", Some(5)), (3, "n", Some(6)), (3, "o", Some(7))],
    ),
    (
        &[
            (3, "n", None),
            (3, "o", Some(8)),
            (3, "k", None),
            (3, "o", Some(9)),
            (2, "a", None),
            (3, "p", Some(1)),
        ],
        &[(3, "o", Some(9)), (3, "p", Some(1))],
    ),
    (
        &[
            (3, "o", None),
            (3, "p", None),
            (3, "q", Some(1)),
            (3, "r", Some(2)),
            (3, "s", Some(3)),
        ],
        &[(3, "q", Some(1)), (3, "r", Some(2)), (3, "s", Some(3))],
    ),
    (
        &[
            (3, "q", None),
            (3, "r", None),
            (3, "s", None),
            (3, "r", Some(4)),
            (3, "t", Some(5)),
        ],
        &[(3, "r", Some(4)), (3, "t", Some(5))],
    ),
    (
        &[
            (3, "k", None),
            (3, "r", None),
            (3, "t", None),
            (3, "u", Some(6)),
            (3, "v", Some(7)),
        ],
        &[(3, "u", Some(6)), (3, "v", Some(7))],
    ),
    (
        &[(3, "u", None), (3, "v", Some(8)), (3, "w", Some(9))],
        &[(3, "v", Some(8)), (3, "w", Some(9))],
    ),
];

// Whether each of these leaves its rows.
fn are_put<R: RowStore>(rt: &impl Abort, alloc: Global, rows: &mut R) -> bool {
    for (changes, after) in PUTS {
        apply(rt, alloc, rows, changes).expect(rt, "puts");
        if !holds(rows, after).expect(rt, "rows") {
            return false;
        }
    }
    true
}

/// Whether the example leaves its one row, the row goes by a removal, and rows are put.
pub fn is_worked<R: RowStore>(rt: &impl Abort, alloc: Global, rows: &mut R) -> bool {
    apply(rt, alloc, rows, &[]).expect(rt, "no changes");
    apply(rt, alloc, rows, &CHANGES).expect(rt, "changes");
    let one = holds(rows, &[(5, "t", Some(2))]).expect(rt, "a row");
    apply(rt, alloc, rows, &[(5, "t", None)]).expect(rt, "a removal");
    let none = holds(rows, &[]).expect(rt, "no row");
    let put = are_put(rt, alloc, rows);
    one && none && put && rows.failures() == 0
}

#[test]
fn changes_are_made_in_turn_in_memory(rt: HostRuntime) {
    let mut rows = MemoryRows::new(rt.alloc());
    assert!(rt; is_worked(&rt, rt.alloc(), &mut rows));
    drop(rows);
}

const TABLE: &str =
    "CREATE TABLE rows (kind INTEGER NOT NULL, owner BLOB NOT NULL, place BLOB NOT NULL, value BLOB NOT NULL, PRIMARY KEY (kind, owner, place)) STRICT";

// A database in memory in which these texts were run.
fn database(rt: &impl Abort, alloc: Global, texts: &[&str]) -> Connection<MemStore> {
    let mut conn = Connection::open_in_memory(alloc).expect(rt, "a database");
    for text in texts {
        conn.execute_batch(text).expect(rt, "a text");
    }
    conn
}

fn objects<S: Alter>(rt: &impl Abort, conn: &mut Connection<S>) -> i64 {
    let row = conn
        .query_row("SELECT count(*) FROM sqlite_schema", &[])
        .expect(rt, "a row");
    let count = row.get(0).expect(rt, "a number");
    drop(row);
    count
}

// Whether the example holds in a database that is adopted.
fn is_worked_in<S: Alter + Drop>(rt: &impl Abort, alloc: Global, conn: Connection<S>) -> bool {
    match adopted(conn) {
        Ok(mut rows) => {
            let is_worked = is_worked(rt, alloc, &mut rows);
            drop(rows);
            is_worked
        }
        Err(left) => {
            drop(left);
            false
        }
    }
}

#[test]
fn changes_are_made_in_turn_in_a_database(rt: HostRuntime) {
    for texts in [&[][..], &[TABLE][..]] {
        let conn = database(&rt, rt.alloc(), texts);
        assert!(rt; is_worked_in(&rt, rt.alloc(), conn));
    }
}

// Whether a database that is adopted has these rows.
fn stay<S: Alter + Drop>(rt: &impl Abort, conn: Connection<S>, samples: &[Sample]) -> bool {
    match adopted(conn) {
        Ok(mut rows) => {
            let stay = holds(&mut rows, samples).expect(rt, "rows");
            drop(rows);
            stay
        }
        Err(left) => {
            drop(left);
            false
        }
    }
}

#[test]
fn rows_that_are_there_stay(rt: HostRuntime) {
    let texts = [TABLE, "INSERT INTO rows VALUES (5, x'74', x'', x'02')"];
    let conn = database(&rt, rt.alloc(), &texts);
    assert!(rt; stay(&rt, conn, &[(5, "t", Some(2))]));
}

// Databases that aren't those of rows, each by the texts that make it.
const OTHERS: [(&str, &str); 12] = [
    (
        "CREATE TABLE note (kind INTEGER NOT NULL, owner BLOB NOT NULL, place BLOB NOT NULL, value BLOB NOT NULL, PRIMARY KEY (kind, owner, place)) STRICT",
        "",
    ),
    (
        "CREATE TABLE rows (kind INTEGER NOT NULL, owner BLOB NOT NULL, place BLOB NOT NULL, value BLOB NOT NULL, PRIMARY KEY (kind, owner, place))",
        "",
    ),
    (
        "CREATE TABLE rows (kind INTEGER NOT NULL, owner BLOB NOT NULL, place BLOB NOT NULL, value BLOB, PRIMARY KEY (kind, owner, place)) STRICT",
        "",
    ),
    (
        "CREATE TABLE rows (kind INTEGER NOT NULL, owner TEXT NOT NULL, place BLOB NOT NULL, value BLOB NOT NULL, PRIMARY KEY (kind, owner, place)) STRICT",
        "",
    ),
    (
        "CREATE TABLE rows (kind INTEGER NOT NULL, owner BLOB NOT NULL, place BLOB NOT NULL, value BLOB NOT NULL, PRIMARY KEY (owner, kind, place)) STRICT",
        "",
    ),
    (
        "CREATE TABLE rows (kind INTEGER NOT NULL, owner BLOB NOT NULL, place BLOB NOT NULL, value BLOB NOT NULL) STRICT",
        "",
    ),
    (
        "CREATE TABLE rows (kind INTEGER NOT NULL CHECK (kind < 9), owner BLOB NOT NULL, place BLOB NOT NULL, value BLOB NOT NULL, PRIMARY KEY (kind, owner, place)) STRICT",
        "",
    ),
    (TABLE, "CREATE TABLE note (id INTEGER PRIMARY KEY)"),
    (TABLE, "CREATE INDEX by_owner ON rows (owner)"),
    (TABLE, "CREATE VIEW kinds AS SELECT kind FROM rows"),
    (TABLE, "INSERT INTO rows VALUES (256, x'', x'', x'')"),
    (TABLE, "INSERT INTO rows VALUES (-1, x'', x'', x'')"),
];

// Whether a database isn't adopted, and has the objects that it had.
fn is_left<S: Alter + Drop>(rt: &impl Abort, conn: Connection<S>) -> bool {
    let mut conn = conn;
    let before = objects(rt, &mut conn);
    match adopted(conn) {
        Ok(rows) => {
            drop(rows);
            false
        }
        Err((fault, mut conn)) => {
            let after = objects(rt, &mut conn);
            drop(conn);
            fault == RowFault::BadRow && after == before
        }
    }
}

#[test]
fn other_databases_are_left_as_they_were(rt: HostRuntime) {
    for (first, second) in OTHERS {
        let conn = database(&rt, rt.alloc(), &[first, second]);
        assert!(rt; is_left(&rt, conn), "{first}; {second}");
    }
}

// A kind, changes, and what is left of them.
const GATHERED: [(u8, &[Sample], &[Sample]); 7] = [
    (2, &[], &[]),
    (
        3,
        &[
            (5, "t", Some(1)),
            (2, "a", Some(3)),
            (5, "t", None),
            (5, "t", Some(2)),
        ],
        &[(2, "a", Some(3)), (5, "t", Some(2))],
    ),
    (
        3,
        &[
            (5, "t", Some(1)),
            (5, "t", Some(2)),
            (5, "t", None),
            (2, "a", Some(3)),
        ],
        &[(2, "a", Some(3)), (5, "t", None)],
    ),
    // A row that is as it was, and one that wasn't there and isn't.
    (
        2,
        &[
            (2, "a", Some(1)),
            (2, "a", Some(2)),
            (2, "b", None),
            (2, "b", Some(3)),
            (2, "a", Some(1)),
            (2, "b", None),
        ],
        &[],
    ),
    // A row that differs, one that is new, and one that is gone.
    (
        2,
        &[
            (2, "b", None),
            (2, "a", Some(1)),
            (2, "b", Some(1)),
            (2, "a", Some(2)),
            (2, "c", Some(1)),
            (2, "c", None),
        ],
        &[(2, "a", Some(2)), (2, "b", Some(1)), (2, "c", None)],
    ),
    // What was there, alone.
    (2, &[(2, "a", Some(1)), (2, "b", None)], &[]),
    // Rows of other kinds that are as the first change leaves them.
    (
        2,
        &[
            (3, "a", Some(1)),
            (3, "a", Some(2)),
            (3, "a", Some(1)),
            (1, "a", None),
            (1, "a", Some(2)),
            (1, "a", None),
        ],
        &[(1, "a", None), (3, "a", Some(1))],
    ),
];

fn gathers(rt: &impl Abort, alloc: Global, kind: u8, samples: &[Sample], want: &[Sample]) -> bool {
    let gathered = gather(alloc, changes(rt, alloc, samples), kind).expect(rt, "memory");
    let gathers = are_changes(&gathered, want);
    drop(gathered);
    gathers
}

#[test]
fn the_last_change_at_a_key_is_left(rt: HostRuntime) {
    for (kind, samples, want) in GATHERED {
        assert!(rt; gathers(&rt, rt.alloc(), kind, samples, want));
    }
}
