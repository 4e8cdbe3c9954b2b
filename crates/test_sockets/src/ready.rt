//! Which sockets a turn asks, and that nothing is written before the handler has settled.

use crate::clients::client;
use crate::echo::{Echo, Refused, hub_of, make};
use broker_sockets::Watched;
use broker_turns::TurnFault;
use std::alloc::Global;
use std::process::Abort;
use std::test::Fail;
use trial_fakes::{FakeSockets, Manner};

#[test]
fn an_idle_hub_waits_and_asks_nobody(rt: HostRuntime) -> Result<(), Fail> {
    let alloc = rt.alloc();
    let mut network = FakeSockets::new(alloc);
    let mut hub = hub_of(&rt, alloc, &mut network, Vec::new(alloc));
    let mut echo = Echo::new(alloc);
    let end = client(&rt, &mut network, b"hello", 5, 5);
    assert!(rt; make(&rt, &mut hub, &mut network, &mut echo, 4) == 1);
    assert!(rt; network.came(end) == b"hello".as_slice());
    let (reads, accepts, waits) = (network.reads, network.accepts, network.waits);
    assert!(rt; make(&rt, &mut hub, &mut network, &mut echo, 10) == 1);
    assert!(rt; network.reads == reads && network.accepts == accepts);
    assert!(rt; network.waits == waits.saturating_add(10));
    assert!(rt; echo.ticks == 14 && echo.settled == 14);
    Ok(())
}

#[test]
fn all_that_wait_are_accepted(rt: HostRuntime) -> Result<(), Fail> {
    let alloc = rt.alloc();
    let mut network = FakeSockets::new(alloc);
    let mut hub = hub_of(&rt, alloc, &mut network, Vec::new(alloc));
    let mut echo = Echo::new(alloc);
    for _ in 0..130 {
        let _ = client(&rt, &mut network, b"", 1, 1);
    }
    for _ in 0..70 {
        let _ = network.client(2, b"", 1, 1).expect(&rt, "memory");
    }
    // at most 64 clients and 64 links in a turn
    for (clients, waiting) in [(64, 72), (128, 2), (130, 0)] {
        assert!(rt; make(&rt, &mut hub, &mut network, &mut echo, 1) == clients);
        assert!(rt; network.waiting() == waiting && echo.opened.len() == clients);
    }
    Ok(())
}

/// How often the client of a number, the end of which is told, was asked after one more turn.
fn asked_by(
    rt: &impl Abort,
    alloc: Global,
    names: &[Watched],
    manner: Manner,
    turns: u64,
) -> (u32, u32) {
    let mut network = FakeSockets::new(alloc);
    let mut hub = hub_of(rt, alloc, &mut network, Vec::new(alloc));
    let mut echo = Echo::new(alloc);
    let quiet = client(rt, &mut network, b"", 1, 1);
    let talks = client(rt, &mut network, b"", 1, 1);
    assert!(rt; make(rt, &mut hub, &mut network, &mut echo, 2) == 2);
    network.send(talks, b"ab").expect(rt, "memory");
    network.manner = manner;
    for name in names {
        network.tell(*name).expect(rt, "memory");
    }
    assert!(rt; make(rt, &mut hub, &mut network, &mut echo, turns) == 2);
    // the hub's ends
    (
        network.asked(quiet.saturating_add(1)),
        network.asked(talks.saturating_add(1)),
    )
}

#[test]
fn only_what_is_told_is_read(rt: HostRuntime) -> Result<(), Fail> {
    let alloc = rt.alloc();
    // the turn after the one that is told asks, and again while there is more: two bytes, one at a time, and then none
    for (turns, asked) in [(1, 0), (2, 1), (3, 2), (4, 3), (9, 3)] {
        assert!(rt; asked_by(&rt, alloc, &[], Manner::Sound, turns) == (0, asked));
    }
    // never told
    assert!(rt; asked_by(&rt, alloc, &[], Manner::Untold, 9) == (0, 0));
    // told twice, and told of one that has nothing
    let told = [Watched::Client(1), Watched::Client(0), Watched::Client(1)];
    assert!(rt; asked_by(&rt, alloc, &told, Manner::Untold, 2) == (1, 1));
    assert!(rt; asked_by(&rt, alloc, &told, Manner::Untold, 9) == (1, 3));
    // told of what isn't there
    let gone = [Watched::Client(7), Watched::Link(0), Watched::Peer(0)];
    assert!(rt; asked_by(&rt, alloc, &gone, Manner::Untold, 9) == (0, 0));
    Ok(())
}

#[test]
fn what_is_told_late_is_read(rt: HostRuntime) -> Result<(), Fail> {
    let alloc = rt.alloc();
    let mut network = FakeSockets::new(alloc);
    let mut hub = hub_of(&rt, alloc, &mut network, Vec::new(alloc));
    let mut echo = Echo::new(alloc);
    let end = client(&rt, &mut network, b"late", 4, 4);
    network.manner = Manner::Untold;
    assert!(rt; make(&rt, &mut hub, &mut network, &mut echo, 5) == 1);
    assert!(rt; network.reads == 0);
    network.manner = Manner::Sound;
    assert!(rt; make(&rt, &mut hub, &mut network, &mut echo, 2) == 1);
    assert!(rt; network.came(end) == b"late".as_slice());
    Ok(())
}

#[test]
fn one_that_is_gone_may_be_told(rt: HostRuntime) -> Result<(), Fail> {
    let alloc = rt.alloc();
    let mut network = FakeSockets::new(alloc);
    let mut hub = hub_of(&rt, alloc, &mut network, Vec::new(alloc));
    let mut echo = Echo::new(alloc);
    let end = client(&rt, &mut network, b"", 1, 1);
    assert!(rt; make(&rt, &mut hub, &mut network, &mut echo, 2) == 1);
    network.close(end);
    assert!(rt; make(&rt, &mut hub, &mut network, &mut echo, 2) == 0);
    let reads = network.reads;
    network.tell(Watched::Client(0)).expect(&rt, "memory");
    assert!(rt; make(&rt, &mut hub, &mut network, &mut echo, 2) == 0);
    assert!(rt; network.reads == reads && echo.closed.as_slice() == [0].as_slice());
    Ok(())
}

#[test]
fn a_new_client_may_be_told_under_an_old_number(rt: HostRuntime) -> Result<(), Fail> {
    let alloc = rt.alloc();
    let mut network = FakeSockets::new(alloc);
    let mut hub = hub_of(&rt, alloc, &mut network, Vec::new(alloc));
    let mut echo = Echo::new(alloc);
    let old = client(&rt, &mut network, b"", 1, 1);
    assert!(rt; make(&rt, &mut hub, &mut network, &mut echo, 2) == 1);
    network.close(old);
    assert!(rt; make(&rt, &mut hub, &mut network, &mut echo, 2) == 0);
    let new = client(&rt, &mut network, b"", 9, 9);
    assert!(rt; make(&rt, &mut hub, &mut network, &mut echo, 2) == 1);
    assert!(rt; echo.opened.as_slice() == [0, 0].as_slice());
    network.tell(Watched::Client(0)).expect(&rt, "memory");
    assert!(rt; make(&rt, &mut hub, &mut network, &mut echo, 2) == 1);
    assert!(rt; network.asked(new.saturating_add(1)) == 1);
    network.send(new, b"hello").expect(&rt, "memory");
    assert!(rt; make(&rt, &mut hub, &mut network, &mut echo, 2) == 1);
    assert!(rt;
        network.came(new) == b"hello".as_slice() && echo.closed.as_slice() == [0].as_slice()
    );
    Ok(())
}

#[test]
fn who_cannot_be_watched_is_closed(rt: HostRuntime) -> Result<(), Fail> {
    let alloc = rt.alloc();
    let mut network = FakeSockets::new(alloc);
    let mut hub = hub_of(&rt, alloc, &mut network, Vec::new(alloc));
    let mut echo = Echo::new(alloc);
    network.manner = Manner::Unwatched;
    let _ = client(&rt, &mut network, b"lost", 4, 4);
    assert!(rt; make(&rt, &mut hub, &mut network, &mut echo, 3) == 0);
    assert!(rt; network.waiting() == 0 && echo.opened.is_empty());
    network.manner = Manner::Sound;
    let end = client(&rt, &mut network, b"hello", 5, 5);
    assert!(rt; make(&rt, &mut hub, &mut network, &mut echo, 3) == 1);
    assert!(rt; network.came(end) == b"hello".as_slice());
    Ok(())
}

/// Two clients that send `hello`, to the first of which nothing can be written, where the handler settles so often: whether the
/// second turn stops there, how often it has settled, and what the second client gets.
fn settling(rt: &impl Abort, alloc: Global, settles: u32) -> (bool, u32, usize) {
    let mut network = FakeSockets::new(alloc);
    let mut hub = hub_of(rt, alloc, &mut network, Vec::new(alloc));
    let mut echo = Echo::new(alloc);
    echo.settles = settles;
    let fails = client(rt, &mut network, b"hello", 5, 5);
    network.fail(fails);
    let end = client(rt, &mut network, b"hello", 5, 5);
    assert!(rt; make(rt, &mut hub, &mut network, &mut echo, 1) == 2);
    let stopped = match hub.turn(&mut network, &mut echo, 1) {
        Err(TurnFault::Handler(Refused)) => true,
        _ => false,
    };
    (stopped, echo.settled, network.came(end).len())
}

#[test]
fn nothing_is_written_before_it_is_settled(rt: HostRuntime) -> Result<(), Fail> {
    let alloc = rt.alloc();
    // in the second turn once, and once more after the handler was told that the first client is gone
    assert!(rt; settling(&rt, alloc, 1) == (true, 1, 0));
    assert!(rt; settling(&rt, alloc, 2) == (true, 2, 0));
    assert!(rt; settling(&rt, alloc, 3) == (false, 3, 5));
    Ok(())
}
