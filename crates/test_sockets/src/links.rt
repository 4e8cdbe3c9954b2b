//! Links between nodes, over sockets in memory.

use crate::echo::{hub_of, make};
use crate::talker::Talker;
use broker_sockets::Watched;
use std::alloc::Global;
use std::mem;
use std::net::SocketAddr;
use std::process::Abort;
use std::test::Fail;
use trial_fakes::{FakeSockets, Manner};

/// Another node begins a link and sends bytes, so many at a time, and ends it or not: whether the link is there after 26 turns, and
/// what was heard.
fn hear(rt: &impl Abort, alloc: Global, bytes: &[u8], piece: usize, ends: bool) -> (bool, Vec<u8>) {
    let mut network = FakeSockets::new(alloc);
    let mut hub = hub_of(rt, alloc, &mut network, Vec::new(alloc));
    let mut talker = Talker::new(alloc, b"hi", b"more", 0);
    let end = network.client(2, bytes, piece, 0).expect(rt, "memory");
    if ends {
        network.close(end);
    }
    assert!(rt; make(rt, &mut hub, &mut network, &mut talker, 26) == 0);
    let reads = network.reads;
    network.tell(Watched::Link(0)).expect(rt, "memory");
    assert!(rt; make(rt, &mut hub, &mut network, &mut talker, 2) == 0);
    let heard = mem::replace(&mut talker.heard, Vec::new(alloc));
    (network.reads > reads, heard)
}

#[test]
fn frames_come_in_any_pieces(rt: HostRuntime) -> Result<(), Fail> {
    let alloc = rt.alloc();
    // three frames, of which one is empty, and the beginning of a fourth
    let bytes = b"\0\0\0\x02ab\0\0\0\0\0\0\0\x01c\0\0\0\x05de";
    let whole = b"\0\0\0\x02ab/\0\0\0\0/\0\0\0\x01c/";
    for size in 1..24 {
        let (stays, heard) = hear(&rt, alloc, bytes, size, false);
        assert!(rt; stays && heard.as_slice() == whole.as_slice());
    }
    Ok(())
}

#[test]
fn links_that_end_or_lie_are_let_go(rt: HostRuntime) -> Result<(), Fail> {
    let alloc = rt.alloc();
    // what came before the end, or before a length that is too long, is heard
    for (bytes, ends, stays) in [
        (b"\0\0\0\x01a\x10\0\0\x01", false, false),
        (b"\0\0\0\x01a\x10\0\0\0", false, true),
        (b"\0\0\0\x01a\0\0\0\x02", true, false),
    ] {
        let (stayed, heard) = hear(&rt, alloc, bytes, 4, ends);
        assert!(rt; stayed == stays && heard.as_slice() == b"\0\0\0\x01a/".as_slice());
    }
    Ok(())
}

/// How often a link, on which two bytes come, one at a time, was asked in so many turns where these names are told.
fn asked_by(rt: &impl Abort, alloc: Global, names: &[Watched], manner: Manner, turns: u64) -> u32 {
    let mut network = FakeSockets::new(alloc);
    let mut hub = hub_of(rt, alloc, &mut network, Vec::new(alloc));
    let mut talker = Talker::new(alloc, b"hi", b"more", 0);
    let end = network.client(2, b"", 1, 1).expect(rt, "memory");
    assert!(rt; make(rt, &mut hub, &mut network, &mut talker, 2) == 0);
    network.send(end, b"\0\0").expect(rt, "memory");
    network.manner = manner;
    for name in names {
        network.tell(*name).expect(rt, "memory");
    }
    assert!(rt; make(rt, &mut hub, &mut network, &mut talker, turns) == 0);
    // the hub's end
    network.asked(end.saturating_add(1))
}

#[test]
fn only_links_that_are_told_are_read(rt: HostRuntime) -> Result<(), Fail> {
    let alloc = rt.alloc();
    // in the turn after the one that is told, and again while there is more
    for (turns, asked) in [(1, 0), (2, 1), (3, 2), (4, 3), (9, 3)] {
        assert!(rt; asked_by(&rt, alloc, &[], Manner::Sound, turns) == asked);
    }
    // never told, told twice, and told of what isn't there
    assert!(rt; asked_by(&rt, alloc, &[], Manner::Untold, 9) == 0);
    let told = [Watched::Link(0), Watched::Link(0)];
    assert!(rt; asked_by(&rt, alloc, &told, Manner::Untold, 2) == 1);
    assert!(rt; asked_by(&rt, alloc, &told, Manner::Untold, 9) == 3);
    let gone = [Watched::Client(0), Watched::Link(7), Watched::Peer(0)];
    assert!(rt; asked_by(&rt, alloc, &gone, Manner::Untold, 9) == 0);
    Ok(())
}

/// A Hello of node 0, which is the peer.
const HEARD: &[u8] = b"\0\0\0\x05\x07\0\0\0\x01";

/// So many turns of a node with one peer, which has begun a link and says Hello there, each so many milliseconds after the one before. The peer's link is the first
/// stream, and the second is the one that is dialled first.
fn link(
    rt: &impl Abort,
    alloc: Global,
    network: &mut FakeSockets,
    turns: u64,
    each: u64,
    fails_at: u64,
) -> Talker {
    let peer: SocketAddr = "127.0.0.1:9".parse().expect(rt, "an address");
    let peers = Vec::from_array(alloc, [Some(peer)]).expect(rt, "memory");
    let mut hub = hub_of(rt, alloc, network, peers);
    let mut talker = Talker::new(alloc, b"hi", b"more", u32::MAX);
    network.client(2, HEARD, 64, 64).expect(rt, "memory");
    for turn in 0..turns {
        if turn == fails_at {
            network.fail(3);
        }
        let at = turn.saturating_mul(each);
        assert!(rt; hub.turn(network, &mut talker, at).is_ok());
    }
    talker
}

/// What comes of so many turns of a node and a peer that refuses so often and then takes a byte at a time: how often it was
/// dialled, how often a link was begun, how often more was given, and what has come.
fn is_dialled(
    rt: &impl Abort,
    alloc: Global,
    refused: u32,
    (turns, each): (u64, u64),
    wanted: (u32, u32, u32),
    came: &[u8],
) {
    let mut network = FakeSockets::new(alloc);
    network.refused = refused;
    network.piece = 1;
    let talker = link(rt, alloc, &mut network, turns, each, u64::MAX);
    assert!(rt; (network.connects, talker.linked, talker.shipped) == wanted);
    assert!(rt; network.came(3) == came);
    drop(talker);
    drop(network);
}

#[test]
fn peers_are_dialled_until_they_answer(rt: HostRuntime) -> Result<(), Fail> {
    let alloc = rt.alloc();
    // a thousand milliseconds lie between two calls
    is_dialled(&rt, alloc, 2, (1, 500), (1, 0, 0), b"");
    is_dialled(&rt, alloc, 2, (2, 500), (1, 0, 0), b"");
    is_dialled(&rt, alloc, 2, (3, 500), (2, 0, 0), b"");
    is_dialled(&rt, alloc, 2, (4, 500), (2, 0, 0), b"");
    is_dialled(&rt, alloc, 2, (5, 500), (3, 1, 0), b"h");
    // more isn't asked for where something waits
    // nor before the peer's Hello, of which a byte is read in each turn from the second on
    is_dialled(&rt, alloc, 2, (9, 500), (3, 1, 0), b"hi");
    is_dialled(&rt, alloc, 2, (10, 500), (3, 1, 1), b"him");
    is_dialled(&rt, alloc, 2, (13, 500), (3, 1, 1), b"himore");
    // all is asked for once
    is_dialled(&rt, alloc, 2, (16, 500), (3, 1, 1), b"himore");
    is_dialled(&rt, alloc, 0, (9, 1), (1, 1, 0), b"hi");
    is_dialled(&rt, alloc, 0, (13, 1), (1, 1, 1), b"himore");
    is_dialled(&rt, alloc, 0, (16, 1), (1, 1, 1), b"himore");
    Ok(())
}

/// Forwards of node 1 for node 0 with these numbers, a Delta and a Hello, as far as a hub looks at them.
const SEVENTH: &[u8] = b"\0\0\0\x0d\x04\0\x01\0\0\0\0\0\0\0\0\0\x07";

const LAST_BUT_ONE: &[u8] = b"\0\0\0\x0d\x04\0\x01\0\0\0\0\0\0\0\0\x3f\xff";

const LAST: &[u8] = b"\0\0\0\x0d\x04\0\x01\0\0\0\0\0\0\0\0\x40\0";

const DELTA: &[u8] = b"\0\0\0\x05\x06\0\x01\0\0";

const HELLO: &[u8] = b"\0\0\0\x05\x07\0\x01\0\0";

/// Gots of node 0, which is the peer, and a Know.
const GOT_ONE: &[u8] = b"\0\0\0\x0d\x05\0\0\0\x01\0\0\0\0\0\0\0\x01";

const GOT_SEVEN: &[u8] = b"\0\0\0\x0d\x05\0\0\0\x01\0\0\0\0\0\0\0\x07";

const KNOW: &[u8] = b"\0\0\0\x05\x03\0\0\0\x01";

/// How often a peer is given this frame in so many turns, a millisecond after each other, where a link brings the first bytes, which are read in the second turn, and the others after
/// five; how often more is asked for than was given, and after which number last.
fn supplied_once(
    rt: &impl Abort,
    alloc: Global,
    frame: &'static [u8],
    first: &[u8],
    bytes: &[u8],
    turns: u64,
) -> (u32, u32, u64) {
    let mut network = FakeSockets::new(alloc);
    let peer: SocketAddr = "127.0.0.1:9".parse().expect(rt, "an address");
    let peers = Vec::from_array(alloc, [Some(peer)]).expect(rt, "memory");
    let mut hub = hub_of(rt, alloc, &mut network, peers);
    let mut talker = Talker::new(alloc, b"hi", frame, u32::MAX);
    let other = network.client(2, first, 64, 64).expect(rt, "memory");
    for at in 0..turns {
        if at == 5 {
            network.send(other, bytes).expect(rt, "memory");
        }
        assert!(rt; hub.turn(&mut network, &mut talker, at).is_ok());
    }
    drop(network);
    (talker.shipped, talker.more_asked, talker.after)
}

/// The same where the peer is heard at first.
fn supplied(
    rt: &impl Abort,
    alloc: Global,
    frame: &'static [u8],
    bytes: &[u8],
    turns: u64,
) -> (u32, u32, u64) {
    supplied_once(rt, alloc, frame, HEARD, bytes, turns)
}

#[test]
fn a_peer_is_given_nothing_before_it_is_heard(rt: HostRuntime) -> Result<(), Fail> {
    let alloc = rt.alloc();
    // nothing, Hellos of node 1 and node 256, and one that isn't whole
    let others = [
        b"".as_slice(),
        b"\0\0\0\x05\x07\0\x01\0\0",
        b"\0\0\0\x05\x07\x01\0\0\0",
        b"\0\0\0\x05\x07\0\0\0",
    ];
    for first in others {
        assert!(rt; supplied_once(&rt, alloc, SEVENTH, first, b"", 2000) == (0, 0, 0));
    }
    for bytes in [HEARD, GOT_ONE, KNOW, b"\0\0\0\x05\x06\0\0\0\x01"] {
        assert!(rt; supplied_once(&rt, alloc, SEVENTH, b"", bytes, 6) == (0, 0, 0));
        assert!(rt; supplied_once(&rt, alloc, SEVENTH, b"", bytes, 7) == (1, 0, 0));
    }
    Ok(())
}

#[test]
fn a_peer_is_given_more_than_it_was_given(rt: HostRuntime) -> Result<(), Fail> {
    let alloc = rt.alloc();
    let cases = [
        (SEVENTH, b"".as_slice(), 1, (0, 0, 0)),
        (SEVENTH, b"", 2, (1, 0, 0)),
        (SEVENTH, b"", 9, (1, 7, 7)),
        // fewer than 16,384 messages are unconfirmed
        (LAST_BUT_ONE, b"", 9, (1, 7, 16383)),
        (LAST, b"", 9, (1, 0, 0)),
        (LAST, GOT_ONE, 9, (1, 3, 16384)),
        // the answer to a Delta is waited for
        (DELTA, b"", 9, (1, 0, 0)),
        (DELTA, GOT_ONE, 9, (1, 0, 0)),
        (DELTA, KNOW, 9, (1, 3, 0)),
        // what nobody answers isn't
        (HELLO, b"", 9, (1, 7, 0)),
    ];
    for (frame, bytes, turns, wanted) in cases {
        assert!(rt; supplied(&rt, alloc, frame, bytes, turns) == wanted);
    }
    Ok(())
}

#[test]
fn a_silent_peer_is_given_all_after_a_second(rt: HostRuntime) -> Result<(), Fail> {
    let alloc = rt.alloc();
    // no answer: one of node 1, one of node 256, one that says of no node that it is the sender, one that isn't whole, and a Hello, a Forward and a Delta of
    // node 0
    let others = [
        b"".as_slice(),
        b"\0\0\0\x05\x05\0\x01\0\0",
        b"\0\0\0\x05\x05\x01\0\0\0",
        b"\0\0\0\x02\x05\0",
        b"\0\0\0\x05\x05\0\0\0",
        b"\0\0\0\x05\x07\0\0\0\x01",
        b"\0\0\0\x05\x04\0\0\0\x01",
        b"\0\0\0\x05\x06\0\0\0\x01",
    ];
    for (turns, times) in [(1001, 1), (1002, 2)] {
        for bytes in others {
            let (shipped, _, _) = supplied(&rt, alloc, SEVENTH, bytes, turns);
            assert_eq!(rt; shipped, times, "{turns} turns");
        }
    }
    // a second after the last answer, as long as one is owed
    for (bytes, turns, times) in [
        (GOT_ONE, 1006, 1),
        (GOT_ONE, 1007, 2),
        (KNOW, 1007, 2),
        (GOT_SEVEN, 1007, 1),
    ] {
        let (shipped, _, _) = supplied(&rt, alloc, SEVENTH, bytes, turns);
        assert_eq!(rt; shipped, times, "{turns} turns");
    }
    Ok(())
}

#[test]
fn failed_links_are_dialled_again(rt: HostRuntime) -> Result<(), Fail> {
    let alloc = rt.alloc();
    // one that never takes a byte keeps what waits
    let mut network = FakeSockets::new(alloc);
    network.piece = 0;
    let talker = link(&rt, alloc, &mut network, 9, 500, u64::MAX);
    assert!(rt; talker.linked == 1 && talker.shipped == 0 && network.came(3).is_empty());
    // one whose write fails is let go, and dialled again after the pause
    for (turns, linked) in [(3, 1), (4, 2)] {
        let mut network = FakeSockets::new(alloc);
        let talker = link(&rt, alloc, &mut network, turns, 400, 1);
        assert!(rt; talker.linked == linked && talker.shipped == 1);
        assert!(rt; network.came(3) == b"hi".as_slice());
        assert!(rt; network.came(5) == (if linked == 2 { b"hi".as_slice() } else { &[] }));
    }
    // one that can't be watched is none
    let mut network = FakeSockets::new(alloc);
    network.manner = Manner::Unwatched;
    let talker = link(&rt, alloc, &mut network, 3, 500, u64::MAX);
    assert!(rt; talker.linked == 0 && network.connects == 2);
    Ok(())
}

/// How often a peer that takes nothing is dialled in two turns, a second after each other, where so many bytes wait for it each time.
fn dialled_with(rt: &impl Abort, alloc: Global, waiting: usize) -> u32 {
    let mut network = FakeSockets::new(alloc);
    network.piece = 0;
    let peer: SocketAddr = "127.0.0.1:9".parse().expect(rt, "an address");
    let peers = Vec::from_array(alloc, [Some(peer)]).expect(rt, "memory");
    let mut hub = hub_of(rt, alloc, &mut network, peers);
    let mut talker = Talker::new(alloc, b"", b"", 0);
    talker.long = waiting;
    for at in [0, 1000] {
        assert!(rt; hub.turn(&mut network, &mut talker, at).is_ok());
    }
    network.connects
}

#[test]
fn a_link_that_is_not_read_has_an_end(rt: HostRuntime) -> Result<(), Fail> {
    let alloc = rt.alloc();
    assert!(rt; dialled_with(&rt, alloc, 536_870_912) == 1);
    assert!(rt; dialled_with(&rt, alloc, 536_870_913) == 2);
    Ok(())
}
