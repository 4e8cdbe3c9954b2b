//! Node 1 of two, whose rows have a subscription of its own, opened with tables of homes.
ghost use Rattle.std.specs.Prelude.{◌≡◌, length, IfSome};

use cli_stops::RunFault;
use home_table::{HomeTable, nodes_text};
use node_server::open_after;
use row_store::{Change, MemoryRows, Row, RowStore};
use std::alloc::Global;
use std::process::Abort;

/// A row: its kind, owner, place and value.
type Plain = (u8, &'static [u8], &'static [u8], &'static [u8]);

/// The mark of node 1, and the dot (1, 1) as one that was taken, and as one that was seen.
const MARK: Plain = (1, b"", b"", b"\0\x03\0\x01\0\0\0\0\0\0\0\0");

const DOTS: &[u8] = b"\0\0\0\x01\0\x01\0\0\0\0\0\0\0\x01\0\0\0\0\0\0\0\x01";

/// The key of a subscription of `a` at (1, 1).
const OWNER: &[u8] = b"a";

const PLACE: &[u8] = b"\0\x01\0\0\0\0\0\0\0\x01";

/// A subscription to `t` under version 0, 2 and 2^32 - 1.
const TO_T: [(u32, &[u8]); 3] = [
    (0, b"\0\x01t\0\0\0\0\0\0\0\0\0"),
    (2, b"\0\x01t\0\0\0\0\0\0\0\0\x02"),
    (4_294_967_295, b"\0\x01t\0\0\0\0\0\xff\xff\xff\xff"),
];

fn row(rt: &impl Abort, alloc: Global, plain: &Plain) -> Row {
    let (kind, owner, place, value) = *plain;
    Row {
        kind,
        owner: Vec::from_slice(alloc, owner).expect(rt, "memory"),
        place: Vec::from_slice(alloc, place).expect(rt, "memory"),
        value: Vec::from_slice(alloc, value).expect(rt, "memory"),
    }
}

/// The rows of the node with this subscription.
fn rows(rt: &impl Abort, alloc: Global, subscription: &'static [u8]) -> MemoryRows {
    let all: [Plain; 4] = [
        MARK,
        (4, OWNER, PLACE, subscription),
        (6, b"", b"\x01", DOTS),
        (6, b"", b"\x02", DOTS),
    ];
    let mut changes = Vec::new(alloc);
    for plain in &all {
        let put = Change::Put(row(rt, alloc, plain));
        changes.push(put).expect(rt, "memory");
    }
    let mut rows = MemoryRows::new(alloc);
    rows.apply(&changes).ok().expect(rt, "rows");
    drop(changes);
    rows
}

/// The table of two nodes of this version.
fn homes_of(alloc: Global, version: u32) -> Option<HomeTable>
    ensures { IfSome result (λ homes. length homes.nodes ≡ 2) }
{
    let mut text = String::new(alloc);
    let nodes = nodes_text(alloc, 2).ok()?;
    writeln!(text, "version = {version}\n{nodes}").ok()?;
    let homes = HomeTable::parse(alloc, text.as_str()).ok()?;
    if homes.nodes() == 2 {
        Some(homes)
    } else {
        None
    }
}

/// Why node 1 isn't opened from these rows with a table of this version, if it isn't; they are then what they were.
fn refused(rt: &impl Abort, alloc: Global, mut rows: MemoryRows, version: u32) -> Option<RunFault> {
    let before = rows.load().ok().expect(rt, "rows");
    let homes = homes_of(alloc, version).expect(rt, "a table");
    let (fault, mut rows) = match open_after(alloc, rows, homes, 1) {
        Ok(keeper) => (None, keeper.into_rows()),
        Err((fault, rows)) => (Some(fault), rows),
    };
    let after = rows.load().ok().expect(rt, "rows");
    assert!(rt; before == after);
    drop(before);
    drop(after);
    drop(rows);
    fault
}

#[test]
fn an_older_table_opens_no_node(rt: HostRuntime) {
    let alloc = rt.alloc();
    for (made, subscription) in TO_T {
        for version in [0, 1, 2, 3, 4_294_967_294, 4_294_967_295] {
            let found = refused(&rt, alloc, rows(&rt, alloc, subscription), version);
            let told = if version < made {
                Some(RunFault::OlderTable(made))
            } else {
                None
            };
            assert!(rt; found == told, "made under {made}, opened with {version}");
        }
    }
}
