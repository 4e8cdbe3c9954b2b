//! Two nodes that dial each other, over sockets in memory and over those of the system.

use crate::echo::{hub_at, hub_of, listeners};
use crate::talker::Talker;
use broker_sockets::{PolledSockets, Readiness, Sockets};
use broker_turns::Hub;
use std::alloc::Global;
use std::mem;
use std::net::{IpAddr, Ipv4Addr, SocketAddr};
use std::process::Abort;
use std::test::Fail;
use trial_fakes::FakeSockets;

/// What node 0 hears of node 1 on a link, and node 1 of node 0.
const ALL: [&[u8]; 2] = [
    b"\0\0\0\x03+\0\x01/\0\0\0\x03s\0\x01/\0\0\0\x03s\0\x01/\0\0\0\x03s\0\x01/",
    b"\0\0\0\x03+\0\0/\0\0\0\x03s\0\0/\0\0\0\x03s\0\0/\0\0\0\x03s\0\0/",
];

/// Node 0 and node 1, each of which says `+` on each link that is begun, and three times `s`: where it is asked for all, and twice more.
fn talkers(alloc: Global) -> (Talker, Talker) {
    let mut first = Talker::new(alloc, b"\0\0\0\x03+\0\0", b"\0\0\0\x03s\0\0", 3);
    let mut second = Talker::new(alloc, b"\0\0\0\x03+\0\x01", b"\0\0\0\x03s\0\x01", 3);
    first.extra = 2;
    second.extra = 2;
    (first, second)
}

/// The address of a port of this machine.
fn local(port: u16) -> SocketAddr {
    SocketAddr::new(IpAddr::V4(Ipv4Addr::LOCALHOST), port)
}

/// The hub of a node that knows another one.
fn hub<S: Sockets>(
    rt: &impl Abort,
    alloc: Global,
    sockets: &mut S,
    peers: [Option<SocketAddr>; 2],
) -> Hub<S::Listener, S::Stream> {
    let peers = Vec::from_array(alloc, peers).expect(rt, "memory");
    hub_of(rt, alloc, sockets, peers)
}

/// How often nodes have linked and have read, and what each has heard.
struct Talked {
    links: u32,
    reads: u32,
    first: Vec<u8>,
    second: Vec<u8>,
}

impl Drop for Talked {
    fn drop(self) {
        let Talked {
            links: _,
            reads: _,
            first: _first,
            second: _second,
        } = self;
    }
}

/// What comes of two nodes where a call to read, or to write, fails after so many.
fn talk(rt: &impl Abort, alloc: Global, reads: u32, writes: u32) -> Talked {
    let mut network = FakeSockets::new(alloc);
    network.reads_left = reads;
    network.writes_left = writes;
    let (mut first, mut second) = talkers(alloc);
    // the bridges are at the second and the fourth port
    let mut one = hub(rt, alloc, &mut network, [None, Some(local(4))]);
    network.hub = 1;
    let mut two = hub(rt, alloc, &mut network, [Some(local(2)), None]);
    for turn in 0..16u64 {
        let at = turn.saturating_mul(1000);
        network.hub = 0;
        assert!(rt; one.turn(&mut network, &mut first, at).is_ok());
        network.hub = 1;
        assert!(rt; two.turn(&mut network, &mut second, at).is_ok());
    }
    Talked {
        links: first.linked.saturating_add(second.linked),
        reads: network.reads,
        first: mem::replace(&mut first.heard, Vec::new(alloc)),
        second: mem::replace(&mut second.heard, Vec::new(alloc)),
    }
}

#[test]
fn one_failure_costs_one_link(rt: HostRuntime) -> Result<(), Fail> {
    let alloc = rt.alloc();
    let sound = talk(&rt, alloc, u32::MAX, u32::MAX);
    assert!(rt; sound.links == 2 && sound.reads >= 4);
    assert!(rt; sound.first.as_slice() == ALL[0] && sound.second.as_slice() == ALL[1]);
    // each of its reads, and each of its writes
    for call in 0..sound.reads {
        let cut = talk(&rt, alloc, call, u32::MAX);
        assert_eq!(rt; cut.links, 3, "read {call}");
        assert!(rt; cut.first.contains(&b'+') && cut.second.contains(&b'+'));
    }
    for call in 0..8u32 {
        let cut = talk(&rt, alloc, u32::MAX, call);
        assert_eq!(rt; cut.links, 3, "write {call}");
        assert!(rt; cut.first.contains(&b'+') && cut.second.contains(&b'+'));
    }
    Ok(())
}

/// Makes turns of two nodes, one after the other, until each has heard all of the other, or many turns.
fn run<S: Readiness + Drop>(
    rt: &impl Abort,
    one: (Hub<S::Listener, S::Stream>, S),
    two: (Hub<S::Listener, S::Stream>, S),
    first: &mut Talker,
    second: &mut Talker,
) {
    let (mut one, mut sockets) = one;
    let (mut two, mut others) = two;
    for at in 0..10000 {
        assert!(rt; one.turn(&mut sockets, first, at).is_ok());
        assert!(rt; two.turn(&mut others, second, at).is_ok());
        if first.heard.len() >= ALL[0].len() && second.heard.len() >= ALL[1].len() {
            break;
        }
    }
}

#[test]
fn nodes_talk_over_real_sockets(rt: HostRuntime) -> Result<(), Fail> {
    let alloc = rt.alloc();
    let mut sockets = PolledSockets::new(alloc, &rt).expect(&rt, "sockets");
    let mut others = PolledSockets::new(alloc, &rt).expect(&rt, "sockets");
    let places = listeners(&rt, &mut sockets);
    let known = listeners(&rt, &mut others);
    let peers = Vec::from_array(alloc, [None, others.address(&known.1)]);
    let back = Vec::from_array(alloc, [sockets.address(&places.1), None]);
    let one = hub_at(&rt, alloc, places, peers.expect(&rt, "memory"));
    let two = hub_at(&rt, alloc, known, back.expect(&rt, "memory"));
    let (mut first, mut second) = talkers(alloc);
    run(&rt, (one, sockets), (two, others), &mut first, &mut second);
    assert!(rt; first.heard.as_slice() == ALL[0]);
    assert!(rt; second.heard.as_slice() == ALL[1]);
    Ok(())
}
