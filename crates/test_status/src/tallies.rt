//! What is counted.

use crate::mirror::Mirror;
use broker_sockets::{BridgeHandler, Event, EventKind, Handler, PeerEvent, PeerEventKind};
use status_figures::{CodeCount, Traffic};
use status_tally::{Tallied, Tally};
use std::alloc::Global;
use std::process::Abort;

type Door = Tallied<Mirror>;

fn door(rt: &impl Abort, alloc: Global) -> Door {
    let tally = Tally::new(alloc, 3).expect(rt, "memory");
    Tallied::new(Mirror { alloc }, Some(tally))
}

fn tell(rt: &impl Abort, door: &mut Door, at: u64, kind: EventKind) {
    assert!(rt; door.handle(Event { at, kind }).is_ok());
}

fn come(rt: &impl Abort, alloc: Global, door: &mut Door, connection: u64, bytes: &[u8]) {
    let bytes = Vec::from_slice(alloc, bytes).expect(rt, "memory");
    tell(rt, door, 0, EventKind::Piece { connection, bytes });
}

fn hear(rt: &impl Abort, door: &mut Door, kind: PeerEventKind) {
    assert!(rt; door.hear(PeerEvent { at: 0, kind }).is_ok());
}

/// What went through for three clients and one frame.
const TOTAL: Traffic = Traffic {
    opened: 3,
    bytes_received: 6,
    packets_sent: 1,
    bytes_sent: 5,
    frames_received: 1,
    frame_bytes_received: 2,
    frames_sent: 1,
    frame_bytes_sent: 2,
};

#[test]
fn what_goes_through_is_counted(rt: HostRuntime) {
    let alloc = rt.alloc();
    let mut door = door(&rt, alloc);
    for connection in 1..4 {
        tell(&rt, &mut door, 0, EventKind::Opened { connection });
    }
    come(&rt, alloc, &mut door, 1, b"hello");
    come(&rt, alloc, &mut door, 2, b"\x00");
    tell(&rt, &mut door, 0, EventKind::Closed { connection: 3 });
    let bytes = Vec::from_slice(alloc, b"ab").expect(&rt, "memory");
    hear(&rt, &mut door, PeerEventKind::Frame { bytes });
    let tally = door.tally().expect(&rt, "it counts");
    assert!(rt; tally.total() == TOTAL);
    assert!(rt; tally.recent(0) == TOTAL);
    assert_eq!(rt; tally.clients(), 1);
    drop(door);
}

#[test]
fn links_are_up_once_all_is_written(rt: HostRuntime) {
    let mut door = door(&rt, rt.alloc());
    for (kind, linked) in [
        (PeerEventKind::Linked { peer: 2 }, false),
        (PeerEventKind::Ship { peer: 2 }, true),
        (PeerEventKind::Linked { peer: 1 }, true),
        (PeerEventKind::Linked { peer: 2 }, false),
        // a node that isn't there
        (PeerEventKind::Ship { peer: 3 }, false),
    ] {
        hear(&rt, &mut door, kind);
        let tally = door.tally().expect(&rt, "it counts");
        assert_eq!(rt; tally.link(2).up, linked);
        assert!(rt; !tally.link(3).up);
    }
    drop(door);
}

#[test]
fn what_is_recent_came_in_ten_seconds(rt: HostRuntime) {
    let mut door = door(&rt, rt.alloc());
    // two connections a second, and a tick five times a second
    for turn in 0..100 {
        let at = 1_000_000 + turn * 200;
        if turn % 5 < 2 {
            tell(&rt, &mut door, at, EventKind::Opened { connection: turn });
        }
        tell(&rt, &mut door, at, EventKind::Tick);
    }
    let tally = door.tally().expect(&rt, "it counts");
    assert_eq!(rt; tally.total().opened, 40);
    assert_eq!(rt; tally.recent(1_020_000).opened, 19);
    // the clock is put back
    assert_eq!(rt; tally.recent(0).opened, 40);
    drop(door);
}

#[test]
fn peers_are_away_since_their_link_failed(rt: HostRuntime) {
    let mut door = door(&rt, rt.alloc());
    for (at, kind, since) in [
        (10, PeerEventKind::Linked { peer: 2 }, 0),
        (20, PeerEventKind::Ship { peer: 2 }, 20),
        (30, PeerEventKind::Ship { peer: 2 }, 20),
        (40, PeerEventKind::Linked { peer: 2 }, 40),
        (50, PeerEventKind::Linked { peer: 2 }, 40),
    ] {
        assert!(rt; door.hear(PeerEvent { at, kind }).is_ok());
        let tally = door.tally().expect(&rt, "it counts");
        assert_eq!(rt; tally.link(2).since, since);
    }
    drop(door);
}

#[test]
fn peers_are_heard_once_they_tell_what_they_have(rt: HostRuntime) {
    let alloc = rt.alloc();
    let mut door = door(&rt, alloc);
    // Gots of node 2 and of node 1, as far as it looks at them, and a Hello of node 1
    for (at, frame, first, second) in [
        (
            10,
            b"\x00\x00\x00\x05\x05\x00\x02\x00\x00".as_slice(),
            false,
            false,
        ),
        (
            20,
            b"\x00\x00\x00\x05\x05\x00\x01\x00\x00".as_slice(),
            false,
            false,
        ),
        (
            30,
            b"\x00\x00\x00\x05\x07\x00\x01\x00\x00".as_slice(),
            true,
            false,
        ),
        (1_010, b"\x00".as_slice(), true, true),
    ] {
        let bytes = Vec::from_slice(alloc, frame).expect(&rt, "memory");
        let kind = PeerEventKind::Frame { bytes };
        assert!(rt; door.hear(PeerEvent { at, kind }).is_ok());
        let tally = door.tally().expect(&rt, "it counts");
        assert_eq!(rt; tally.link(1).is_heard(at), first);
        assert_eq!(rt; tally.link(2).is_heard(at), second);
    }
    drop(door);
}

#[test]
fn the_longest_turn_is_told_for_ten_seconds(rt: HostRuntime) {
    let mut door = door(&rt, rt.alloc());
    for at in [1_000_000, 1_000_010, 1_000_400, 1_000_410, 1_002_000] {
        tell(&rt, &mut door, at, EventKind::Tick);
    }
    let tally = door.tally().expect(&rt, "it counts");
    assert_eq!(rt; tally.longest_turn(1_002_000), 1_590);
    assert_eq!(rt; tally.longest_turn(1_012_001), 0);
    drop(door);
}

#[test]
fn refused_clients_are_counted_by_their_codes(rt: HostRuntime) {
    let alloc = rt.alloc();
    let mut door = door(&rt, alloc);
    for bytes in [
        b"\x20\x03\x00\x87\x00".as_slice(),
        b"\x20\x03\x00\x00\x00",
        b"\x20\x03\x00\x87\x00",
        b"\xe0\x02\x8d\x00",
        b"\xe0\x00",
    ] {
        come(&rt, alloc, &mut door, 1, bytes);
    }
    let tally = door.tally().expect(&rt, "it counts");
    let refused = tally.refused(alloc).expect(&rt, "memory");
    assert!(rt;
        refused.as_slice()
            == [CodeCount {
                code: 0x87,
                count: 2
            }]
            .as_slice()
    );
    let ended = tally.ended(alloc).expect(&rt, "memory");
    assert!(rt;
        ended.as_slice()
            == [CodeCount {
                code: 0x8D,
                count: 1
            }]
            .as_slice()
    );
    drop((refused, ended, door));
}
