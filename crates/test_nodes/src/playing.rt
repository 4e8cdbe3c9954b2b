//! Two nodes that are played, and the lines of each step.

use broker_node::{Event, EventKind};
use cluster_play::{Cluster, Step, Trace};
use home_table::{HomeTable, homes_of};
use mqtt_packets::Bytes;
use std::alloc::Global;
use std::process::Abort;

/// A table for each of so many nodes, which is for this number of nodes.
pub fn tables(rt: &impl Abort, alloc: Global, count: u16, nodes: u16) -> Vec<HomeTable> {
    let mut tables = Vec::new(alloc);
    for _ in 0..count {
        let homes = homes_of(alloc, nodes).expect(rt, "a table");
        tables.push(homes).expect(rt, "memory");
    }
    tables
}

pub fn cluster(rt: &impl Abort, alloc: Global) -> Cluster {
    let made = Cluster::new(alloc, tables(rt, alloc, 2, 2));
    made.ok().expect(rt, "a cluster")
}

fn trace_of(rt: &impl Abort, cluster: &mut Cluster, step: Step) -> Trace {
    let played = cluster.play(&[step]);
    played.ok().expect(rt, "memory")
}

fn text_of(rt: &impl Abort, alloc: Global, trace: &Trace) -> String {
    let mut text = String::new(alloc);
    for line in trace.lines.iter() {
        writeln!(&mut text, "{line}").ok().expect(rt, "memory");
    }
    text
}

/// Plays one step, which writes these lines.
pub fn play(rt: &impl Abort, alloc: Global, cluster: &mut Cluster, step: Step, lines: &str) {
    let trace = trace_of(rt, cluster, step);
    let text = text_of(rt, alloc, &trace);
    drop(trace);
    assert_eq!(rt; text.as_str(), lines);
}

/// Plays an event at a node, which writes these lines.
pub fn happen(
    rt: &impl Abort,
    alloc: Global,
    cluster: &mut Cluster,
    node: u16,
    kind: EventKind,
    lines: &str,
) {
    let event = Event { at: 0, kind };
    play(rt, alloc, cluster, Step::Event { node, event }, lines);
}

/// Bytes of a client, at moment 0.
pub fn piece(rt: &impl Abort, alloc: Global, connection: u64, bytes: &[u8]) -> Event {
    let bytes = Bytes::from_slice(alloc, bytes).expect(rt, "memory");
    let kind = EventKind::Piece { connection, bytes };
    Event { at: 0, kind }
}

/// Plays bytes of a client of node 1, which write these lines.
pub fn send(
    rt: &impl Abort,
    alloc: Global,
    cluster: &mut Cluster,
    connection: u64,
    bytes: &[u8],
    lines: &str,
) {
    let event = piece(rt, alloc, connection, bytes);
    let step = Step::Event { node: 1, event };
    play(rt, alloc, cluster, step, lines);
}
