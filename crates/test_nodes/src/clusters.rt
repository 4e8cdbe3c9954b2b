//! Which tables make a cluster, and what a node took over two crashes.

use crate::packets::{AGAIN, ANEW, SUBSCRIBE};
use crate::playing::{cluster, happen, piece, play, send, tables};
use broker_node::EventKind;
use causal_context::{Context, Dot};
use cluster_play::{Cluster, PlayFault, Step};
use home_table::homes_of;
use std::alloc::Global;
use std::process::Abort;

/// CONNACK of connection 2 or 3, whose session was there.
const CONTINUED: [&str; 2] = [
    "sent 1 2 200e01000b2100642200102700100000\n",
    "sent 1 3 200e01000b2100642200102700100000\n",
];

/// Why there is no cluster by so many tables for this number of nodes, and one more for another number.
fn fault_of(
    rt: &impl Abort,
    alloc: Global,
    count: u16,
    nodes: u16,
    other: Option<u16>,
) -> Option<PlayFault> {
    let mut tables = tables(rt, alloc, count, nodes);
    if let Some(nodes) = other {
        let homes = homes_of(alloc, nodes).expect(rt, "a table");
        tables.push(homes).expect(rt, "memory");
    }
    Cluster::new(alloc, tables).err()
}

#[test]
fn tables_have_to_fit_together(rt: HostRuntime) {
    let bad = Some(PlayFault::BadTables);
    for (count, nodes, other, fault) in [
        (0, 1, None, bad),
        (1, 2, None, bad),
        (2, 1, None, bad),
        (1, 2, Some(1), bad),
        (63, 64, Some(63), bad),
        (65, 64, None, bad),
        (1, 1, None, None),
        (1, 2, Some(2), None),
        (64, 64, None, None),
    ] {
        let found = fault_of(&rt, rt.alloc(), count, nodes, other);
        assert_eq!(rt; found, fault, "{count} tables for {nodes} nodes");
    }
}

/// Node 1 is opened from its rows and started, and its client is there again.
fn come_again(rt: &impl Abort, alloc: Global, cluster: &mut Cluster, connection: u64, lines: &str) {
    play(rt, alloc, cluster, Step::Restart { node: 1 }, "");
    happen(rt, alloc, cluster, 1, EventKind::Started, "");
    let opened = EventKind::Opened { connection };
    happen(rt, alloc, cluster, 1, opened, "");
    send(rt, alloc, cluster, connection, AGAIN, lines);
}

/// A client at node 1, a crash before its SUBSCRIBE, one after it, and the SUBSCRIBE once more.
fn crashed_twice(rt: &impl Abort, alloc: Global) -> Cluster {
    let mut cluster = cluster(rt, alloc);
    happen(rt, alloc, &mut cluster, 1, EventKind::Started, "");
    let opened = EventKind::Opened { connection: 1 };
    happen(rt, alloc, &mut cluster, 1, opened, "");
    let accepted = "sent 1 1 200e00000b2100642200102700100000\n";
    send(rt, alloc, &mut cluster, 1, ANEW, accepted);
    let event = piece(rt, alloc, 1, SUBSCRIBE);
    let before = Step::CrashBefore { node: 1, event };
    play(rt, alloc, &mut cluster, before, "crash 1\n");
    come_again(rt, alloc, &mut cluster, 2, CONTINUED[0]);
    let event = piece(rt, alloc, 2, SUBSCRIBE);
    let after = Step::CrashAfter { node: 1, event };
    play(rt, alloc, &mut cluster, after, "crash 1\n");
    come_again(rt, alloc, &mut cluster, 3, CONTINUED[1]);
    let granted = "sent 1 3 900400010000\n";
    send(rt, alloc, &mut cluster, 3, SUBSCRIBE, granted);
    cluster
}

#[test]
fn what_a_crash_left_is_numbered_before_what_comes_again(rt: HostRuntime) {
    let alloc = rt.alloc();
    let cluster = crashed_twice(&rt, alloc);
    assert_eq!(rt; cluster.holdings(1), Some((1, 0)));
    let mut both = Context::new(alloc);
    for number in 1..3 {
        let dot = Dot::new(1, number).expect(&rt, "a dot");
        both.insert(dot).expect(&rt, "memory");
    }
    let taken = cluster.taken(1).expect(&rt, "a node");
    assert!(rt; taken.same(&both));
    drop(cluster);
}
