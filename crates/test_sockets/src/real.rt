//! The sockets and the clock of the system.

use crate::echo::{Echo, hub_at, listeners, make};
use crate::talker::Talker;
use broker_sockets::{
    Answer, Clock, PolledSockets, Readiness, RealClocks, RealSockets, Sockets, SteadyClock, bind,
};
use std::alloc::Global;
use std::io::{self, ErrorKind};
use std::net::SocketAddr;
use std::process::Abort;
use std::test::Fail;
use std::time::{self, Duration};

/// A clock of the system that can't be read.
struct Stopped;

impl time::Clock for Stopped {
    fn monotonic(&self) -> io::Result<Duration> {
        Err(io::Error::from(ErrorKind::Unsupported))
    }

    fn since_1970(&self) -> io::Result<Duration> {
        Err(io::Error::from(ErrorKind::Unsupported))
    }
}

/// Addresses that can't be listened at, and one that is bound once.
fn binds<S: Sockets>(rt: &impl Abort, alloc: Global, sockets: &mut S) {
    for text in ["", "127.0.0.1", "localhost:1883", "127.0.0.1:65536"] {
        assert!(rt; bind(sockets, text).is_none());
    }
    let listener = bind(sockets, "127.0.0.1:0").expect(rt, "a port is free");
    let address = sockets.address(&listener).expect(rt, "it waits there");
    let taken = format!(in alloc; "{}", address).expect(rt, "memory");
    assert!(rt; bind(sockets, &taken).is_none());
}

#[test]
fn addresses_are_bound_and_moments_told(rt: HostRuntime) -> Result<(), Fail> {
    let alloc = rt.alloc();
    let mut sockets = RealSockets::new(&rt);
    binds(&rt, alloc, &mut sockets);
    let mut sockets = PolledSockets::new(alloc, &rt).expect(&rt, "sockets");
    binds(&rt, alloc, &mut sockets);
    // from 2020 to 5138
    let now = SteadyClock::new(RealClocks::new(&rt)).now();
    assert!(rt; now > 1577836800000 && now < 100000000000000);
    assert!(rt; SteadyClock::new(RealClocks::new(&Stopped)).now() == 0);
    Ok(())
}

/// What a client gets that sends `quit`, once it has ended or after many turns, and whether it has ended.
fn quits<S: Readiness>(
    rt: &impl Abort,
    alloc: Global,
    sockets: &mut S,
    echo: &mut Echo,
) -> (Vec<u8>, bool) {
    let places = listeners(rt, sockets);
    let address = sockets.address(&places.0).expect(rt, "it waits there");
    let mut hub = hub_at(rt, alloc, places, Vec::new(alloc));
    let mut client = sockets.connect(address).expect(rt, "it is begun");
    let mut sent = false;
    let mut got = Vec::new(alloc);
    let mut ended = false;
    let mut buffer = [0u8; 64];
    for at in 0..10000 {
        assert!(rt; hub.turn(sockets, echo, at).is_ok());
        if !sent {
            sent = sockets.write(&mut client, b"quit") == Answer::Bytes(4);
        }
        match sockets.read(&mut client, &mut buffer) {
            Answer::Bytes(count) => got.extend_from_slice(&buffer[..count]).expect(rt, "memory"),
            Answer::Later => {}
            Answer::Gone => ended = true,
        }
        if ended {
            break;
        }
    }
    assert!(rt; hub.clients() == 0);
    (got, ended)
}

#[test]
fn real_sockets_carry_bytes(rt: HostRuntime) -> Result<(), Fail> {
    let alloc = rt.alloc();
    let mut sockets = PolledSockets::new(alloc, &rt).expect(&rt, "sockets");
    let mut echo = Echo::new(alloc);
    let (got, ended) = quits(&rt, alloc, &mut sockets, &mut echo);
    assert!(rt; ended && got.as_slice() == b"quit".as_slice());
    assert!(rt; echo.opened.as_slice() == [0].as_slice());
    Ok(())
}

/// The address of a port at which nobody listens any more.
fn left<S: Sockets>(rt: &impl Abort, sockets: &mut S) -> SocketAddr {
    let free: SocketAddr = "127.0.0.1:0".parse().expect(rt, "an address");
    let listener = sockets.listen(free).expect(rt, "a port is free");
    sockets.address(&listener).expect(rt, "it waits there")
}

/// Whether a connection ends that is begun to where nobody listens.
fn is_refused<S: Sockets>(rt: &impl Abort, sockets: &mut S) -> bool {
    let address = left(rt, sockets);
    let mut buffer = [0u8; 64];
    let Ok(mut stream) = sockets.connect(address) else {
        return true;
    };
    for _ in 0..100000 {
        if sockets.read(&mut stream, &mut buffer) == Answer::Gone {
            return true;
        }
    }
    false
}

/// How often a link was begun in so many turns, a second after each other, to where nobody listens.
fn dials<S: Readiness>(rt: &impl Abort, alloc: Global, sockets: &mut S, turns: u64) -> u32 {
    let peer = left(rt, sockets);
    let peers = Vec::from_array(alloc, [Some(peer)]).expect(rt, "memory");
    let places = listeners(rt, sockets);
    let mut hub = hub_at(rt, alloc, places, peers);
    let mut talker = Talker::new(alloc, b"hi", b"more", 0);
    for turn in 0..turns {
        let at = turn.saturating_mul(1000);
        assert!(rt; hub.turn(sockets, &mut talker, at).is_ok());
    }
    talker.linked
}

#[test]
fn refused_connections_end(rt: HostRuntime) -> Result<(), Fail> {
    let alloc = rt.alloc();
    let mut sockets = RealSockets::new(&rt);
    assert!(rt; is_refused(&rt, &mut sockets));
    let mut sockets = PolledSockets::new(alloc, &rt).expect(&rt, "sockets");
    assert!(rt; dials(&rt, alloc, &mut sockets, 9) >= 3);
    Ok(())
}

/// How many milliseconds so many idle turns take.
fn idles<S: Readiness>(
    rt: &impl Abort,
    alloc: Global,
    sockets: &mut S,
    clock: &mut impl Clock,
    turns: u64,
) -> u64 {
    let places = listeners(rt, sockets);
    let mut hub = hub_at(rt, alloc, places, Vec::new(alloc));
    let mut echo = Echo::new(alloc);
    let began = clock.now();
    assert!(rt; make(rt, &mut hub, sockets, &mut echo, turns) == 0);
    clock.now().saturating_sub(began)
}

#[test]
fn an_idle_hub_rests(rt: HostRuntime) -> Result<(), Fail> {
    let alloc = rt.alloc();
    let mut sockets = PolledSockets::new(alloc, &rt).expect(&rt, "sockets");
    let mut clock = SteadyClock::new(RealClocks::new(&rt));
    // of 20 turns the first waits for nothing, and the others 10 milliseconds each
    assert!(rt; idles(&rt, alloc, &mut sockets, &mut clock, 20) >= 100);
    Ok(())
}
