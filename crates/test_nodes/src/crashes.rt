//! A crash of a node to which a frame comes.

use crate::packets::{CONNECT, OF, ON};
use crate::playing::{cluster, happen, play, send};
use broker_node::{Event, EventKind};
use causal_context::Dot;
use cluster_play::{Cluster, Step};
use mqtt_packets::Bytes;
use std::alloc::Global;
use std::process::Abort;

/// Two nodes; node 1 has retained one message and then another, and has shipped each in a frame of its own.
fn shipped(rt: &impl Abort, alloc: Global) -> Cluster {
    let mut cluster = cluster(rt, alloc);
    for node in 0..2 {
        happen(rt, alloc, &mut cluster, node, EventKind::Started, "");
    }
    let opened = EventKind::Opened { connection: 1 };
    happen(rt, alloc, &mut cluster, 1, opened, "");
    let accepted = "sent 1 1 200e00000b2100642200102700100000\n";
    send(rt, alloc, &mut cluster, 1, CONNECT, accepted);
    send(rt, alloc, &mut cluster, 1, ON, "");
    let ship = EventKind::Ship { peer: 0 };
    happen(rt, alloc, &mut cluster, 1, ship, "frame 1 1 0 delta\n");
    send(rt, alloc, &mut cluster, 1, OF, "");
    let ship = EventKind::Ship { peer: 0 };
    happen(rt, alloc, &mut cluster, 1, ship, "frame 2 1 0 delta\n");
    cluster
}

/// The second frame comes to its receiver.
fn second_frame(rt: &impl Abort, alloc: Global, cluster: &Cluster) -> Event {
    let frame = cluster.frame(2).expect(rt, "a frame");
    let bytes = Bytes::from_slice(alloc, frame).expect(rt, "memory");
    Event {
        at: 0,
        kind: EventKind::Frame { bytes },
    }
}

/// Node 0 is down, has given out nothing, and is opened and started again.
fn wake(rt: &impl Abort, alloc: Global, cluster: &mut Cluster) {
    assert!(rt; cluster.taken(0).is_none() && cluster.frame(3).is_none());
    play(rt, alloc, cluster, Step::Restart { node: 0 }, "");
    happen(rt, alloc, cluster, 0, EventKind::Started, "");
}

#[test]
fn a_crash_after_a_frame_keeps_what_it_brought(rt: HostRuntime) {
    let alloc = rt.alloc();
    let mut cluster = shipped(&rt, alloc);
    let event = second_frame(&rt, alloc, &cluster);
    let crash = Step::CrashAfter { node: 0, event };
    play(&rt, alloc, &mut cluster, crash, "crash 0\n");
    wake(&rt, alloc, &mut cluster);
    let taken = cluster.taken(0).expect(&rt, "a node");
    let second = Dot::new(1, 2).expect(&rt, "a dot");
    assert!(rt; taken.contains(second));
    let again = Step::Deliver { frame: 2, at: 0 };
    play(&rt, alloc, &mut cluster, again, "frame 3 0 1 know\n");
    drop(cluster);
}

#[test]
fn a_crash_before_a_frame_brings_nothing(rt: HostRuntime) {
    let alloc = rt.alloc();
    let mut cluster = shipped(&rt, alloc);
    let event = second_frame(&rt, alloc, &cluster);
    let crash = Step::CrashBefore { node: 0, event };
    play(&rt, alloc, &mut cluster, crash, "crash 0\n");
    wake(&rt, alloc, &mut cluster);
    let taken = cluster.taken(0).expect(&rt, "a node");
    assert!(rt; taken.is_empty());
    drop(cluster);
}
