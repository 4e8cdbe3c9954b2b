//! Clients that are held back while too much waits for another node.

use crate::echo::{Echo, hub_of};
use broker_holds::{HeldStream, HoldingSockets, LaneGauge, Strain};
use broker_sockets::{Readiness, Sockets, Watched};
use std::alloc::Global;
use std::net::SocketAddr;
use std::process::Abort;
use std::rc::Rc;
use std::test::Fail;
use trial_fakes::FakeSockets;

/// A CONNECT with a Keep Alive of two seconds, of 15 bytes.
const CONNECT: &[u8] = b"\x10\x0d\x00\x04MQTT\x05\x02\x00\x02\x00\x00\x00";

/// A PUBLISH and a PUBACK of as many bytes.
const PUBLISH: &[u8] = b"\x30\x0d\x00\x01a\x00payload..";

const PUBACK: &[u8] = b"\x40\x0d\x00\x01\x00\x09.........";

/// Turns, each with whether too much waits, and its moment.
const TURNS: [(bool, u64); 10] = [
    (false, 1),
    (false, 2),
    (true, 10),
    (true, 11),
    (true, 1009),
    (true, 1010),
    (true, 1011),
    (true, 1012),
    (false, 1013),
    (false, 1014),
];

/// How many packets a client has sent that were read after so many of these turns, which sends a CONNECT and then this packet three times.
fn read_after(rt: &impl Abort, alloc: Global, packet: &[u8], turns: usize) -> usize {
    let mut network = FakeSockets::new(alloc);
    let mut sends = Vec::new(alloc);
    for part in [CONNECT, packet, packet, packet] {
        sends.extend_from_slice(part).expect(rt, "memory");
    }
    let end = network.client(1, &sends, 15, 100).expect(rt, "memory");
    let strain = Strain::new(alloc, 0).expect(rt, "memory");
    let strain = Rc::new(alloc, strain).expect(rt, "memory");
    let shared = strain.clone().expect(rt, "memory");
    let mut sockets = HoldingSockets::new(alloc, network, shared);
    let mut hub = hub_of(rt, alloc, &mut sockets, Vec::new(alloc));
    let mut echo = Echo::new(alloc);
    for (strained, at) in TURNS.iter().take(turns) {
        strain.tell(*strained, *at);
        assert!(rt; hub.turn(&mut sockets, &mut echo, *at).is_ok());
    }
    sockets.into_inside().came(end).len() / 15
}

#[test]
fn clients_that_publish_are_held_back(rt: HostRuntime) -> Result<(), Fail> {
    let alloc = rt.alloc();
    // the first PUBLISH is read while too much waits, the next one half the Keep Alive later, and then all once less waits
    let read = [0, 0, 1, 2, 2, 2, 2, 3, 3, 3, 4];
    for (turns, packets) in read.iter().enumerate() {
        assert!(rt; read_after(&rt, alloc, PUBLISH, turns) == *packets);
    }
    Ok(())
}

#[test]
fn others_are_read_meanwhile(rt: HostRuntime) -> Result<(), Fail> {
    let alloc = rt.alloc();
    let read = [0, 0, 1, 2, 3, 4, 4];
    for (turns, packets) in read.iter().enumerate() {
        assert!(rt; read_after(&rt, alloc, PUBACK, turns) == *packets);
    }
    Ok(())
}

#[test]
fn a_lane_is_strained_while_its_link_stands(rt: HostRuntime) -> Result<(), Fail> {
    let mut gauge = LaneGauge::new(rt.alloc(), 2)?;
    for (waiting, stands, at, strained) in [
        (4096, true, 10, false),
        (4097, true, 11, true),
        // one more may wait for each two milliseconds in which it doesn't get shorter
        (4097, true, 12, false),
        (4098, true, 12, true),
        (9000, true, 9817, true),
        (9000, true, 9818, false),
        // it gets shorter
        (8999, true, 9819, true),
        // and then it stands still for a minute
        (65536, true, 69818, true),
        (65536, true, 69819, false),
        (65535, true, 70000, true),
        // without a link nobody is held back at once
        (65536, false, 70001, false),
        (65536, true, 70002, true),
        (4096, true, 70003, false),
    ] {
        assert!(rt; gauge.note(1, waiting, stands, at) == strained);
        assert!(rt; !gauge.note(0, 0, stands, at));
    }
    Ok(())
}

/// A link to another node, which is dialled.
fn dialled(rt: &impl Abort, sockets: &mut HoldingSockets<FakeSockets>) -> HeldStream<usize> {
    let address: SocketAddr = "127.0.0.1:9".parse().expect(rt, "an address");
    let mut link = sockets.connect(address).expect(rt, "a link");
    assert!(rt; sockets.watch(&mut link, Watched::Peer(1)));
    link
}

/// Whether a link stands after these calls, of which so many reads and writes go before one that fails: `w` writes, `r` reads, and `d` dials again.
fn stands_after(rt: &impl Abort, alloc: Global, reads: u32, writes: u32, calls: &[u8]) -> bool {
    let mut network = FakeSockets::new(alloc);
    network.reads_left = reads;
    network.writes_left = writes;
    let strain = Strain::new(alloc, 3).expect(rt, "memory");
    let strain = Rc::new(alloc, strain).expect(rt, "memory");
    let shared = strain.clone().expect(rt, "memory");
    let mut sockets = HoldingSockets::new(alloc, network, shared);
    let mut link = dialled(rt, &mut sockets);
    for call in calls {
        match *call {
            b'w' => {
                sockets.write(&mut link, b"+");
            }
            b'r' => {
                sockets.read(&mut link, &mut [0; 4]);
            }
            _ => link = dialled(rt, &mut sockets),
        }
    }
    assert!(rt; !strain.stands(0) && !strain.stands(2) && !strain.stands(3));
    strain.stands(1)
}

#[test]
fn a_link_stands_from_its_first_byte_until_it_fails(rt: HostRuntime) -> Result<(), Fail> {
    let alloc = rt.alloc();
    for (reads, writes, calls, stands) in [
        (9, 9, &b""[..], false),
        (9, 9, b"r", false),
        (9, 9, b"w", true),
        (9, 9, b"wr", true),
        (0, 9, b"wr", false),
        (9, 1, b"ww", false),
        (9, 9, b"wd", false),
        (9, 1, b"wwdw", true),
    ] {
        assert!(rt; stands_after(&rt, alloc, reads, writes, calls) == stands);
    }
    Ok(())
}
