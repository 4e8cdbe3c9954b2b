//! Bytes that pass through sockets in memory, and through those of the system.

use broker_sockets::{RealSockets, Sockets};
use script_loopback::{WireFault, Wires};
use std::alloc::Global;
use std::process::Abort;
use trial_fakes::{FakeSockets, Manner};

/// Bytes that were given, as they came.
fn is_same(came: Result<Vec<u8>, WireFault>, bytes: &[u8]) -> bool {
    match came {
        Ok(came) => came.as_slice() == bytes,
        Err(_) => false,
    }
}

/// A copy.
fn copied(rt: &impl Abort, alloc: Global, bytes: &[u8]) -> Vec<u8> {
    Vec::from_slice(alloc, bytes).expect(rt, "memory")
}

/// Bytes pass both ways between a client and its node, and over a link each way.
fn pass_all<S: Sockets>(
    rt: &impl Abort,
    alloc: Global,
    sockets: &mut S,
    wires: &mut Wires<S::Listener, S::Stream>,
    bytes: &[u8],
) {
    let sent = copied(rt, alloc, bytes);
    assert!(rt; is_same(wires.to_node(sockets, 1, 7, sent), bytes));
    let sent = copied(rt, alloc, bytes);
    assert!(rt; is_same(wires.to_client(sockets, 1, 7, sent), bytes));
    assert!(rt; is_same(wires.frame(sockets, 0, 1, bytes), bytes));
    assert!(rt; is_same(wires.frame(sockets, 1, 0, bytes), bytes));
}

/// Two nodes, and bytes that pass again and again, at last so many.
fn run_all<S: Sockets>(rt: &impl Abort, alloc: Global, sockets: &mut S, most: usize) {
    let mut wires = Wires::new(alloc, sockets, 2).expect(rt, "listeners");
    assert!(rt; wires.open(sockets, 1, 7) == Ok(()));
    pass_all(rt, alloc, sockets, &mut wires, b"");
    pass_all(rt, alloc, sockets, &mut wires, b"hello");
    pass_all(rt, alloc, sockets, &mut wires, b"and more than that");
    let many = vec![in alloc; 42; most].expect(rt, "memory");
    pass_all(rt, alloc, sockets, &mut wires, &many);
    drop(many);
    drop(wires);
}

#[test]
fn bytes_pass_in_memory(rt: HostRuntime) {
    let alloc = rt.alloc();
    for (size, most) in [(1000000, 1000000), (7, 1000), (1, 1000)] {
        let mut sockets = FakeSockets::new(alloc);
        sockets.piece = size;
        run_all(&rt, alloc, &mut sockets, most);
        // the client's, and a link each way
        assert!(rt; sockets.streams() == 6);
        drop(sockets);
    }
}

#[test]
fn bytes_pass_over_real_sockets(rt: HostRuntime) {
    let mut sockets = RealSockets::new(&rt);
    run_all(&rt, rt.alloc(), &mut sockets, 10000000);
}

/// What comes of a piece and a frame after the network has changed.
fn faults(
    rt: &impl Abort,
    alloc: Global,
    manner: Manner,
) -> (Option<WireFault>, Option<WireFault>) {
    let mut sockets = FakeSockets::new(alloc);
    sockets.piece = 1;
    let mut wires = Wires::new(alloc, &mut sockets, 2).expect(rt, "listeners");
    assert!(rt; wires.open(&mut sockets, 1, 7) == Ok(()));
    sockets.manner = manner;
    let sent = copied(rt, alloc, b"hello");
    let piece = wires.to_node(&mut sockets, 1, 7, sent).err();
    let frame = wires.frame(&mut sockets, 0, 1, b"hello").err();
    drop(wires);
    drop(sockets);
    (piece, frame)
}

#[test]
fn bytes_that_never_come_are_faults(rt: HostRuntime) {
    let alloc = rt.alloc();
    let turns = Some(WireFault::Turns);
    let socket = Some(WireFault::Socket);
    assert!(rt; faults(&rt, alloc, Manner::Silent) == (turns, turns));
    assert!(rt; faults(&rt, alloc, Manner::Gone) == (socket, socket));
    assert!(rt; faults(&rt, alloc, Manner::Deaf) == (None, turns));
    let mut sockets = FakeSockets::new(alloc);
    sockets.manner = Manner::Closed;
    let unbound: Option<WireFault> = Wires::new(alloc, &mut sockets, 2).err();
    assert!(rt; unbound == socket);
    drop(sockets);
}

/// Bytes for a client's connection: whether they come as they were given, and whether they pass through sockets.
fn passes(
    rt: &impl Abort,
    alloc: Global,
    sockets: &mut FakeSockets,
    wires: &mut Wires<u16, usize>,
    connection: u64,
) -> (bool, bool) {
    sockets.reads = 0;
    let sent = copied(rt, alloc, b"hello");
    let came = is_same(wires.to_node(sockets, 1, connection, sent), b"hello");
    (came, sockets.reads > 0)
}

#[test]
fn closed_connections_pass_through_no_socket(rt: HostRuntime) {
    let alloc = rt.alloc();
    let mut sockets = FakeSockets::new(alloc);
    sockets.piece = 9;
    let mut wires = Wires::new(alloc, &mut sockets, 2).expect(&rt, "listeners");
    for connection in [7, 8, 9, 8] {
        assert!(rt; wires.open(&mut sockets, 1, connection) == Ok(()));
    }
    assert!(rt; wires.open(&mut sockets, 2, 7) == Err(WireFault::Socket));
    assert!(rt; passes(&rt, alloc, &mut sockets, &mut wires, 7) == (true, true));
    assert!(rt; passes(&rt, alloc, &mut sockets, &mut wires, 6) == (true, false));
    wires.close(1, 7);
    assert!(rt; passes(&rt, alloc, &mut sockets, &mut wires, 7) == (true, false));
    assert!(rt; passes(&rt, alloc, &mut sockets, &mut wires, 8) == (true, true));
    wires.close_node(0);
    assert!(rt; passes(&rt, alloc, &mut sockets, &mut wires, 8) == (true, true));
    wires.close_node(1);
    assert!(rt; passes(&rt, alloc, &mut sockets, &mut wires, 8) == (true, false));
    drop(wires);
    drop(sockets);
}
