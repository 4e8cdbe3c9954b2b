//! What is told of the rows of a node that is down.

use cli_reports::check;
use row_database::{Wary, open_rows};
use std::os::unix::fs::PermissionsExt;
use std::{fs, str};
use trial_databases::{HOMES, PACKETS, held, write_file};

/// What a check of a node's rows prints, or what it leaves on standard error.
fn checked(rt: &HostRuntime, names: (&str, &str, &str)) -> Option<String> {
    let (configuration, node, database) = names;
    let mut out: Vec<u8> = Vec::new(rt.alloc());
    match check(rt, configuration, node, database, &mut out) {
        Ok(()) => String::from_str(rt.alloc(), str::from_utf8(&out).ok()?).ok(),
        Err(ending) => format!(in rt.alloc(); "{ending}").ok(),
    }
}

fn is_checked(rt: &HostRuntime, names: (&str, &str, &str), text: &str) -> bool {
    match checked(rt, names) {
        Some(found) => found.as_str() == text,
        None => false,
    }
}

/// The bytes of a database's file and of its log.
fn bytes_of(rt: &HostRuntime, database: &str, log: &str) -> Option<(Vec<u8>, Vec<u8>)> {
    Some((fs::read(rt, database).ok()?, fs::read(rt, log).ok()?))
}

/// A client of node 1 has a session, a subscription and a retained message, which are its node's first two operations.
#[test]
fn what_rows_hold_is_told(rt: HostRuntime) {
    fs::write(&rt, "held.toml", HOMES).expect(&rt, "a file");
    let rows = open_rows(&rt, "held.db", Wary)
        .ok()
        .expect(&rt, "a database");
    assert_eq!(rt; held(rt.alloc(), rows, &PACKETS), Some((1, 1)));
    let before = bytes_of(&rt, "held.db", "held.db-wal").expect(&rt, "files");
    let text =
        "node n1 number 1\nsessions 1\nsubscriptions 1\nretained 1\nlane 0 waiting 0\ntaken 0 0\ntaken 1 2\n";
    assert!(rt; is_checked(&rt, ("held.toml", "n1", "held.db"), text));
    let after = bytes_of(&rt, "held.db", "held.db-wal").expect(&rt, "files");
    assert!(rt; before == after);
    drop((before, after));
}

#[test]
fn rows_of_version_1_are_told(rt: HostRuntime) {
    fs::write(&rt, "first.toml", HOMES).expect(&rt, "a file");
    assert!(rt; write_file(&rt, "first_told.db"));
    let text =
        "node n1 number 1\nsessions 1\nsubscriptions 1\nretained 1\nlane 0 waiting 0\ntaken 0 0\ntaken 1 2\n";
    for _ in 0..2 {
        assert!(rt; is_checked(&rt, ("first.toml", "n1", "first_told.db"), text));
    }
}

#[test]
fn rows_that_are_none_are_told(rt: HostRuntime) {
    fs::write(&rt, "none.toml", HOMES).expect(&rt, "a file");
    assert!(rt; write_file(&rt, "node_1.db"));
    fs::write(&rt, "blank.db", "").expect(&rt, "a file");
    for (node, database, text) in [
        (
            "n0",
            "none.db",
            "broker: run: Rows\nbroker: opening the database none.db: no such file or folder",
        ),
        (
            "n0",
            "node_1.db",
            "broker: run: Rows\nbroker: the rows in node_1.db: they are those of node 1 of the table, counted from 0",
        ),
        (
            "n0",
            "blank.db",
            "broker: run: Rows\nbroker: opening the database blank.db: it has no rows: it is empty, or its log is not beside it",
        ),
        (
            "n2",
            "node_1.db",
            "broker: configuration: UnknownNode\nbroker: reading none.toml: it does not name the node n2",
        ),
    ] {
        assert!(rt;
            is_checked(&rt, ("none.toml", node, database), text),
            "{text}"
        );
    }
    assert!(rt; fs::metadata(&rt, "none.db").is_err());
    let rows = open_rows(&rt, "open_told.db", Wary)
        .ok()
        .expect(&rt, "a database");
    let open =
        "broker: run: Rows\nbroker: opening the database open_told.db: a program that runs has it open";
    assert!(rt; is_checked(&rt, ("none.toml", "n0", "open_told.db"), open));
    drop(rows);
}

/// A new database, which may be read and written by its owner alone.
#[test]
fn files_are_for_their_owner_alone(rt: HostRuntime) {
    let rows = open_rows(&rt, "private.db", Wary)
        .ok()
        .expect(&rt, "a database");
    for path in ["private.db", "private.db-wal"] {
        let found = fs::metadata(&rt, path).expect(&rt, "a file");
        let mode = found.permissions().mode();
        assert_eq!(rt; mode & 0o777, 0o600);
    }
    drop(rows);
}
