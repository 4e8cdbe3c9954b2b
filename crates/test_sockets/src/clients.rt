//! Clients over sockets in memory: what they get, and who is let go.

use crate::echo::{Echo, Refused, hub_of, make};
use broker_sockets::Clock;
use broker_turns::TurnFault;
use std::alloc::Global;
use std::process::Abort;
use std::test::Fail;
use trial_fakes::FakeSockets;

/// Tells 1, 2, 3 and so on.
#[derive(Drop)]
struct Rising {
    told: u64,
}

impl Clock for Rising {
    ghost tells = { λ _ _ _. Unit {0} };

    fn now(&mut self) -> u64 {
        self.told = self.told.saturating_add(1);
        self.told
    }
}

/// A client that sends these bytes, so many at a time, and takes so many at a time.
pub fn client(
    rt: &impl Abort,
    network: &mut FakeSockets,
    sends: &[u8],
    piece: usize,
    most: usize,
) -> usize {
    network.client(1, sends, piece, most).expect(rt, "memory")
}

#[test]
fn clients_get_what_is_sent(rt: HostRuntime) -> Result<(), Fail> {
    let alloc = rt.alloc();
    for size in 1..6 {
        let mut network = FakeSockets::new(alloc);
        let mut hub = hub_of(&rt, alloc, &mut network, Vec::new(alloc));
        // one that goes on, one that reads slowly, and one that is closed once all is written
        let first = client(&rt, &mut network, b"hello", size, 100);
        let second = client(&rt, &mut network, b"hello", 5, 1);
        let third = client(&rt, &mut network, b"quit", 4, size);
        let mut echo = Echo::new(alloc);
        assert!(rt; make(&rt, &mut hub, &mut network, &mut echo, 20) == 2);
        assert!(rt; network.came(first) == b"hello".as_slice());
        assert!(rt; network.came(second) == b"hello".as_slice());
        assert!(rt; network.came(third) == b"quit".as_slice());
        assert!(rt; echo.opened.as_slice() == [0, 1, 2].as_slice());
        assert!(rt; echo.closed.is_empty() && echo.ticks == 20 && echo.settled == 20);
    }
    Ok(())
}

/// What has come back to a client after so many turns, which sends so many bytes at once.
fn echoed(rt: &impl Abort, alloc: Global, sends: usize, turns: u64) -> usize {
    let mut network = FakeSockets::new(alloc);
    let mut hub = hub_of(rt, alloc, &mut network, Vec::new(alloc));
    let bytes = vec![in alloc; b'.'; sends].expect(rt, "memory");
    let end = client(rt, &mut network, &bytes, usize::MAX, usize::MAX);
    drop(bytes);
    let mut echo = Echo::new(alloc);
    assert!(rt; make(rt, &mut hub, &mut network, &mut echo, turns) == 1);
    network.came(end).len()
}

#[test]
fn a_read_takes_65536_bytes_at_most(rt: HostRuntime) {
    // the first turn accepts, and each later one reads once
    for (sends, turns, came) in [
        (65_536, 2, 65_536),
        (65_536, 3, 65_536),
        (65_537, 2, 65_536),
        (65_537, 3, 65_537),
    ] {
        let found = echoed(&rt, rt.alloc(), sends, turns);
        assert_eq!(rt; found, came, "of {sends} after {turns}");
    }
}

/// How many clients there are after so many turns that answer `m` by 8,388,608 bytes, and how many were told as gone.
fn left_of(
    rt: &impl Abort,
    alloc: Global,
    network: &mut FakeSockets,
    turns: u64,
) -> (usize, usize) {
    let mut hub = hub_of(rt, alloc, network, Vec::new(alloc));
    let mut echo = Echo::new(alloc);
    echo.many = 8388608;
    let clients = make(rt, &mut hub, network, &mut echo, turns);
    (clients, echo.closed.len())
}

#[test]
fn lost_clients_are_told(rt: HostRuntime) -> Result<(), Fail> {
    let alloc = rt.alloc();
    // a failed read, a failed write, and as much as is kept, beside one that goes on
    let mut network = FakeSockets::new(alloc);
    let ends = client(&rt, &mut network, b"", 1, 1);
    network.close(ends);
    let fails = client(&rt, &mut network, b"hello", 5, 1);
    network.fail(fails);
    let _ = client(&rt, &mut network, b"mm", 1, 0);
    let last = client(&rt, &mut network, b"hello", 1, 5);
    assert!(rt; left_of(&rt, alloc, &mut network, 9) == (2, 2));
    assert!(rt; network.came(last) == b"hello".as_slice());
    // a byte more
    for (turns, left) in [(3, (1, 0)), (4, (0, 1))] {
        let mut network = FakeSockets::new(alloc);
        let _ = client(&rt, &mut network, b"mmx", 1, 0);
        assert!(rt; left_of(&rt, alloc, &mut network, turns) == left);
    }
    Ok(())
}

/// The handler answers `m` by so many bytes, of which the client takes so many at a time. In eight turns it is told these rooms.
fn tells_rooms(rt: &impl Abort, alloc: Global, many: usize, most: usize, rooms: &[u64]) {
    let mut network = FakeSockets::new(alloc);
    let mut hub = hub_of(rt, alloc, &mut network, Vec::new(alloc));
    let _ = client(rt, &mut network, b"m", 1, most);
    let mut echo = Echo::new(alloc);
    echo.many = many;
    assert!(rt; make(rt, &mut hub, &mut network, &mut echo, 8) == 1);
    assert!(rt; echo.rooms.as_slice() == rooms);
}

#[test]
fn room_is_told_as_clients_take_bytes(rt: HostRuntime) -> Result<(), Fail> {
    let alloc = rt.alloc();
    // at once, where less than 262,144 bytes wait
    tells_rooms(&rt, alloc, 262_143, 100_000, &[1_048_576, 786_433]);
    // once they do
    tells_rooms(&rt, alloc, 262_144, 100_000, &[1_048_576, 886_432]);
    tells_rooms(&rt, alloc, 1_000_000, 400_000, &[1_048_576, 848_576]);
    tells_rooms(&rt, alloc, 1_000_000, 1_000_000, &[1_048_576, 1_048_576]);
    // and not before
    tells_rooms(&rt, alloc, 1_000_000, 100_000, &[1_048_576]);
    Ok(())
}

#[test]
fn faults_stop_a_turn(rt: HostRuntime) -> Result<(), Fail> {
    let alloc = rt.alloc();
    let mut network = FakeSockets::new(alloc);
    let mut hub = hub_of(&rt, alloc, &mut network, Vec::new(alloc));
    let _ = client(&rt, &mut network, b"f", 1, 1);
    let mut echo = Echo::new(alloc);
    assert!(rt; make(&rt, &mut hub, &mut network, &mut echo, 1) == 1);
    let stopped = match hub.turn(&mut network, &mut echo, 1) {
        Err(TurnFault::Handler(Refused)) => true,
        _ => false,
    };
    assert!(rt; stopped && echo.ticks == 1);
    Ok(())
}

/// Serves so many turns, after one in which a client came: whether they are made, how often the client is asked, the last
/// moment, the ticks, and what the client has taken.
fn is_served(
    rt: &impl Abort,
    alloc: Global,
    turns: u64,
    wanted: (bool, u32, u64, u64),
    taken: &[u8],
) {
    let mut network = FakeSockets::new(alloc);
    let mut hub = hub_of(rt, alloc, &mut network, Vec::new(alloc));
    let end = client(rt, &mut network, b"hellof", 1, 5);
    let mut echo = Echo::new(alloc);
    let mut clock = Rising { told: 0 };
    assert!(rt; make(rt, &mut hub, &mut network, &mut echo, 1) == 1);
    let made = hub
        .serve(&mut network, &mut echo, &mut clock, turns)
        .is_ok();
    assert!(rt; (made, network.reads, clock.told, echo.ticks) == wanted);
    assert!(rt; network.came(end) == taken);
    assert!(rt; echo.started == 1);
}

#[test]
fn serving_starts_and_makes_turns(rt: HostRuntime) -> Result<(), Fail> {
    let alloc = rt.alloc();
    // a turn offers all packets that wait, where they are small, and `!` waits first
    is_served(&rt, alloc, 0, (true, 0, 1, 1), b"");
    is_served(&rt, alloc, 1, (true, 1, 2, 2), b"!h");
    is_served(&rt, alloc, 3, (true, 3, 4, 4), b"!hel");
    is_served(&rt, alloc, 9, (false, 6, 7, 6), b"!hello");
    Ok(())
}
