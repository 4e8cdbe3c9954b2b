//! Subscriptions of `a` at node 1, and what ends of them, under versions of the table of homes.
ghost use Rattle.std.specs.Prelude.{◌≡◌, length, IfSome};

use crate::keepers::{connect, frame, outputs, piece, sent};
use crate::packets::{CONNECT, SUBSCRIBE};
use broker_node::EventKind;
use causal_context::Dot;
use home_table::{HomeTable, nodes_text};
use node_keeper::Keeper;
use row_store::{MemoryRows, Row, RowStore};
use std::alloc::Global;
use std::process::Abort;

/// The kind of a subscription's row.
const SUBSCRIPTION: u8 = 4;

/// A subscription to `t` with options 0 and no identifier, without its version.
const TO_T: &[u8] = b"\0\x01t\0\0\0\0\0";

/// The table of so many nodes of this version, with the home of `a` at one of them.
fn homes_of(alloc: Global, nodes: u16, version: u32, home: u16) -> Option<HomeTable>
    ensures { IfSome result (λ homes. length homes.nodes ≡ nodes) }
{
    let mut text = String::new(alloc);
    writeln!(text, "version = {version}").ok()?;
    let rows = nodes_text(alloc, nodes).ok()?;
    writeln!(text, "{rows}").ok()?;
    writeln!(text, "[[home]]\nprefix = \"a\"\nnode = \"n{home}\"").ok()?;
    let homes = HomeTable::parse(alloc, text.as_str()).ok()?;
    if homes.nodes() == nodes {
        Some(homes)
    } else {
        None
    }
}

/// Node 1, opened from these rows.
fn opened(
    rt: &impl Abort,
    alloc: Global,
    rows: MemoryRows,
    version: u32,
    home: u16,
) -> Keeper<MemoryRows> {
    let homes = homes_of(alloc, 2, version, home).expect(rt, "a table");
    let opened = Keeper::open(alloc, rows, homes, 1);
    opened.ok().expect(rt, "a node")
}

/// The rows of a node at which `a` has subscribed.
fn subscribed(rt: &impl Abort, alloc: Global, version: u32) -> MemoryRows {
    let mut keeper = opened(rt, alloc, MemoryRows::new(alloc), version, 1);
    connect(rt, alloc, &mut keeper, CONNECT);
    let subscribe = piece(rt, alloc, 1, SUBSCRIBE);
    assert_eq!(rt; outputs(rt, &mut keeper, subscribe), 1);
    keeper.into_rows()
}

/// Whether a row is no subscription's, or is that of a subscription to `t` under this version.
fn is_under(row: &Row, version: &[u8]) -> bool {
    if row.kind != SUBSCRIPTION {
        return true;
    }
    match row.value.as_slice().strip_prefix(TO_T) {
        Some(rest) => rest == version,
        None => false,
    }
}

/// How many subscriptions the rows have, each of which is one to `t` under this version.
fn count_under(rt: &impl Abort, rows: &[Row], version: &[u8]) -> usize {
    let mut count: usize = 0;
    for row in rows {
        assert!(rt; is_under(row, version));
        if row.kind == SUBSCRIPTION {
            count = count.saturating_add(1);
        }
    }
    count
}

#[test]
fn a_subscription_has_the_version_of_the_table(rt: HostRuntime) {
    let alloc = rt.alloc();
    for (version, bytes) in [
        (0, b"\0\0\0\0".as_slice()),
        (1, b"\0\0\0\x01".as_slice()),
        (4_294_967_295, b"\xff\xff\xff\xff".as_slice()),
    ] {
        let mut rows = subscribed(&rt, alloc, version);
        let loaded = rows.load().ok().expect(&rt, "rows");
        drop(rows);
        assert_eq!(rt; count_under(&rt, &loaded, bytes), 1, "{version}");
        drop(loaded);
    }
}

/// How many subscriptions stand where `a` subscribed under a version, and its session ends once the node is opened again with
/// another table.
fn left(rt: &impl Abort, alloc: Global, made: u32, version: u32, home: u16) -> usize {
    let rows = subscribed(rt, alloc, made);
    let mut keeper = opened(rt, alloc, rows, version, home);
    assert_eq!(rt; outputs(rt, &mut keeper, EventKind::Started), 0);
    let left = keeper.node().store().subscriptions().live_count();
    drop(keeper);
    left
}

#[test]
fn an_end_leaves_what_a_newer_table_made(rt: HostRuntime) {
    let alloc = rt.alloc();
    let last = 4_294_967_295;
    for (made, version, home, stand) in [
        (0, 0, 1, 0),
        (0, 1, 1, 0),
        (1, 1, 1, 0),
        (2, 1, 1, 1),
        (last, last, 1, 0),
        (last, 0, 1, 1),
        (0, 1, 0, 0),
        (1, 1, 0, 1),
        (0, 0, 0, 1),
    ] {
        let found = left(&rt, alloc, made, version, home);
        assert_eq!(rt;
            found,
            stand,
            "made under {made}, ended by {version} with the home at {home}"
        );
    }
}

/// How many tables were refused once this one has come, of so many nodes; the home of `a` is the last of them.
fn refused(
    rt: &impl Abort,
    alloc: Global,
    keeper: &mut Keeper<MemoryRows>,
    (nodes, version): (u16, u32),
) -> u64 {
    let homes = homes_of(alloc, nodes, version, nodes.saturating_sub(1)).expect(rt, "a table");
    let table = EventKind::Table { homes };
    assert_eq!(rt; outputs(rt, keeper, table), 0);
    keeper.node().counts().tables_refused
}

#[test]
fn a_table_that_is_not_newer_or_not_for_as_many_nodes_is_refused_and_counted(rt: HostRuntime) {
    let alloc = rt.alloc();
    let mut keeper = opened(&rt, alloc, MemoryRows::new(alloc), 1, 1);
    connect(&rt, alloc, &mut keeper, CONNECT);
    for (nodes, version, count) in [
        (2, 0, 1),
        (2, 1, 2),
        (3, 2, 3),
        (1, 2, 4),
        (2, 2, 4),
        (2, 2, 5),
        (3, 3, 6),
    ] {
        let found = refused(&rt, alloc, &mut keeper, (nodes, version));
        assert_eq!(rt; found, count, "at {version} for {nodes} nodes");
    }
    drop(keeper);
}

/// From node 0 to node 1: `a` subscribed there to `t` under version 1, as (0, 1); and node 0 has taken (0, 1) and (1, 1).
const MADE: &[u8] = b"\0\0\0\x52\x06\0\0\0\x01\
    \0\0\0\x01\0\0\0\0\0\0\0\0\0\x01\0\0\0\0\0\0\0\x01\
    \0\0\0\x01\0\0\0\0\0\0\0\0\0\x01\0\0\0\0\0\0\0\x01\
    \0\0\0\x01\0\0\0\0\0\0\0\0\0\x01\0\x01a\0\x01t\0\0\0\0\0\0\0\0\x01\0\0\0\0";

const KNOWN: &[u8] = b"\0\0\0\x2d\x03\0\0\0\x01\
    \0\0\0\x02\0\0\0\0\0\0\0\0\0\x01\0\0\0\0\0\0\0\x01\
    \0\x01\0\0\0\0\0\0\0\x01\0\0\0\0\0\0\0\x01";

/// From node 1 to node 0: a Remove as (1, 2), which covers (1, 1) and nothing else.
const REMOVED: &[u8] = b"\0\0\0\x39\x06\0\x01\0\0\
    \0\0\0\x01\0\x01\0\0\0\0\0\0\0\x02\0\0\0\0\0\0\0\x02\
    \0\0\0\x01\0\x01\0\0\0\0\0\0\0\x01\0\0\0\0\0\0\0\x02\
    \0\0\0\0\0\0\0\0";

/// Whether the subscriptions (0, 1) and (1, 1) stand, of which one is live.
fn standing(rt: &impl Abort, keeper: &Keeper<MemoryRows>) -> (bool, bool) {
    let subscriptions = keeper.node().store().subscriptions();
    assert_eq!(rt; subscriptions.live_count(), 1);
    let there = Dot::new(0, 1).expect(rt, "a dot");
    let here = Dot::new(1, 1).expect(rt, "a dot");
    (
        subscriptions.entry(there).is_some(),
        subscriptions.entry(here).is_some(),
    )
}

/// Node 1, at which `a` has subscribed, as it has at node 0 since, its new home.
fn subscribed_twice(rt: &impl Abort, alloc: Global) -> Keeper<MemoryRows> {
    let mut keeper = opened(rt, alloc, MemoryRows::new(alloc), 0, 1);
    connect(rt, alloc, &mut keeper, CONNECT);
    let subscribe = piece(rt, alloc, 1, SUBSCRIBE);
    assert_eq!(rt; outputs(rt, &mut keeper, subscribe), 1);
    assert_eq!(rt; outputs(rt, &mut keeper, frame(rt, alloc, MADE)), 1);
    assert_eq!(rt; outputs(rt, &mut keeper, frame(rt, alloc, KNOWN)), 0);
    keeper
}

/// What ends the session of `a`: its home moves, or its connection is closed.
fn ending(rt: &impl Abort, alloc: Global, moves: bool) -> EventKind {
    if moves {
        let homes = homes_of(alloc, 2, 1, 0).expect(rt, "a table");
        EventKind::Table { homes }
    } else {
        EventKind::Closed { connection: 1 }
    }
}

#[test]
fn an_end_removes_what_was_subscribed_here_and_nothing_else(rt: HostRuntime) {
    let alloc = rt.alloc();
    for (moves, given) in [(true, 2), (false, 0)] {
        let mut keeper = subscribed_twice(&rt, alloc);
        assert!(rt; standing(&rt, &keeper) == (true, true));
        let ends = ending(&rt, alloc, moves);
        assert_eq!(rt; outputs(&rt, &mut keeper, ends), given);
        assert!(rt; standing(&rt, &keeper) == (true, false));
        let shipped = sent(&rt, alloc, &mut keeper, EventKind::Ship { peer: 0 });
        assert!(rt; shipped.as_slice() == REMOVED);
        drop(keeper);
    }
}
