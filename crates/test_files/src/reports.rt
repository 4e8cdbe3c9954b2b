//! Rows of node 1 of two, and what is told of them.

use cli_reports::{Flaw, figures_of, report};
use row_store::Row;
use std::alloc::Global;
use std::process::Abort;

/// A row: its kind, owner, place and value.
type Plain = (u8, &'static [u8], &'static [u8], &'static [u8]);

/// The mark of node 1 in version 3: it has given no identifier.
const MARK: Plain = (1, b"", b"", b"\0\x03\0\x01\0\0\0\0\0\0\0\0");

/// A subscription of `a` to `t` under the dot (1, 1).
const SUBSCRIPTION: Plain = (
    4,
    b"a",
    b"\0\x01\0\0\0\0\0\0\0\x01",
    b"\0\x01t\0\0\0\0\0\0\0\0\0",
);

/// The dots (1, 1) as those that were taken, and as those that were seen.
const TAKEN: Plain = (
    6,
    b"",
    b"\x01",
    b"\0\0\0\x01\0\x01\0\0\0\0\0\0\0\x01\0\0\0\0\0\0\0\x01",
);

const SEEN: Plain = (
    6,
    b"",
    b"\x02",
    b"\0\0\0\x01\0\x01\0\0\0\0\0\0\0\x01\0\0\0\0\0\0\0\x01",
);

/// Two messages that wait for node 0: `x` to `t`, for plain subscriptions.
const FIRST: Plain = (
    7,
    b"\0\0",
    b"\0\0\0\0\0\0\0\x01",
    b"\x01\0\0\0\x01t\0\0\0\x01x\0\x01\0\0\x01a\0",
);

const SECOND: Plain = (
    7,
    b"\0\0",
    b"\0\0\0\0\0\0\0\x02",
    b"\x01\0\0\0\x01t\0\0\0\x01x\0\x01\0\0\x01a\0",
);

/// The lanes to and from node 0: two messages were put in, and five were taken.
const NUMBERS: Plain = (8, b"\0\0", b"", b"\0\0\0\0\0\0\0\x02\0\0\0\0\0\0\0\x05");

fn row(rt: &impl Abort, alloc: Global, plain: &Plain) -> Row {
    let (kind, owner, place, value) = *plain;
    Row {
        kind,
        owner: Vec::from_slice(alloc, owner).expect(rt, "memory"),
        place: Vec::from_slice(alloc, place).expect(rt, "memory"),
        value: Vec::from_slice(alloc, value).expect(rt, "memory"),
    }
}

fn rows(rt: &impl Abort, alloc: Global, plain: &[Plain]) -> Vec<Row> {
    let mut rows = Vec::new(alloc);
    for it in plain {
        rows.push(row(rt, alloc, it)).expect(rt, "memory");
    }
    rows
}

/// What is told of the rows as those of node 1 of two.
fn told(rt: &impl Abort, alloc: Global, plain: &[Plain]) -> Result<String, Flaw> {
    let rows = rows(rt, alloc, plain);
    match figures_of(alloc, &rows, 1, 2) {
        Ok(figures) => Ok(report(alloc, "n1", 1, &figures).expect(rt, "memory")),
        Err(flaw) => Err(flaw),
    }
}

fn is_told(rt: &impl Abort, alloc: Global, plain: &[Plain], expected: Result<&str, Flaw>) -> bool {
    let told = told(rt, alloc, plain);
    let is = match (&told, expected) {
        (Ok(text), Ok(expected)) => text.as_str() == expected,
        (Err(flaw), Err(expected)) => *flaw == expected,
        _ => false,
    };
    drop(told);
    is
}

#[test]
fn figures_are_told(rt: HostRuntime) {
    let alloc = rt.alloc();
    let none: [Plain; 0] = [];
    let text =
        "node n1 number 1\nsessions 0\nsubscriptions 0\nretained 0\nlane 0 waiting 0\ntaken 0 0\ntaken 1 0\n";
    assert!(rt; is_told(&rt, alloc, &none, Ok(text)));
    assert!(rt; is_told(&rt, alloc, &[MARK], Ok(text)));
    let text =
        "node n1 number 1\nsessions 0\nsubscriptions 1\nretained 0\nlane 0 waiting 2\ntaken 0 0\ntaken 1 1\n";
    let all = [MARK, SUBSCRIPTION, TAKEN, SEEN, FIRST, SECOND, NUMBERS];
    assert!(rt; is_told(&rt, alloc, &all, Ok(text)));
}

#[test]
fn flaws_are_told(rt: HostRuntime) {
    let other_version: Plain = (1, b"", b"", b"\0\x04\0\x01\0\0\0\0\0\0\0\0");
    let other_node: Plain = (1, b"", b"", b"\0\x03\0\0\0\0\0\0\0\0\0\0");
    let short: Plain = (1, b"", b"", b"\0\x03\0\x01");
    let owned: Plain = (1, b"a", b"", b"\0\x03\0\x01\0\0\0\0\0\0\0\0");
    for (first, flaw) in [
        (SUBSCRIPTION, Flaw::NoMark),
        (short, Flaw::NoMark),
        (owned, Flaw::NoMark),
        (other_version, Flaw::OtherVersion(4)),
        (other_node, Flaw::OtherNode(0)),
    ] {
        assert!(rt; is_told(&rt, rt.alloc(), &[first], Err(flaw)));
    }
    for rows in [[MARK, SUBSCRIPTION], [MARK, FIRST], [MARK, MARK]] {
        assert!(rt; is_told(&rt, rt.alloc(), &rows, Err(Flaw::Unsound)));
    }
}
