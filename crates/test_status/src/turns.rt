//! Turns over the connections of those who ask.

use crate::figures::{figures, well};
use broker_sockets::Sockets;
use status_figures::Figures;
use status_sockets::Desk;
use std::alloc::Global;
use std::hash::RandomState;
use std::process::Abort;
use trial_fakes::FakeSockets;

/// A desk at the first port.
pub(crate) fn desk(
    rt: &impl Abort,
    alloc: Global,
    keys: RandomState,
    network: &mut FakeSockets,
) -> Desk<u16, usize> {
    let free = "127.0.0.1:0".parse().expect(rt, "an address");
    let port = network.listen(free).expect(rt, "a port is free");
    Desk::new(alloc, keys, port, "status.example,n0.example").expect(rt, "memory")
}

/// Makes turns at these moments, with figures where they are asked for.
pub(crate) fn make(
    desk: &mut Desk<u16, usize>,
    network: &mut FakeSockets,
    figures: &Figures,
    (from, to): (u64, u64),
) {
    for at in from..to {
        desk.let_in(network, at);
        desk.read(network, at);
        let told = if desk.is_asked() { Some(figures) } else { None };
        desk.attend(network, told, at);
    }
}

#[test]
fn sixteen_are_let_in_and_the_oldest_goes(rt: HostRuntime) {
    let alloc = rt.alloc();
    let keys = RandomState::new(&rt).expect(&rt, "keys");
    let mut network = FakeSockets::new(alloc);
    let mut desk = desk(&rt, alloc, keys, &mut network);
    let told = figures(&rt, alloc, 0);
    for _ in 0..16 {
        network.client(1, b"", 100, 100).expect(&rt, "memory");
    }
    let asks = b"GET /healthz HTTP/1.1\r\nhost: n0\r\n\r\n";
    make(&mut desk, &mut network, &told, (1, 5));
    assert_eq!(rt; desk.visitors(), 16);
    let last = network.client(1, asks, 100, 1000).expect(&rt, "memory");
    make(&mut desk, &mut network, &told, (5, 10));
    assert_eq!(rt; desk.visitors(), 16);
    assert!(rt; network.came(last).ends_with(b"up\n"));
    // and those who say nothing are let go ten seconds after they came
    make(&mut desk, &mut network, &told, (10_000, 10_001));
    assert_eq!(rt; desk.visitors(), 16);
    make(&mut desk, &mut network, &told, (10_001, 10_002));
    assert_eq!(rt; desk.visitors(), 1);
    drop((desk, network, told));
}

#[test]
fn slow_readers_are_let_go(rt: HostRuntime) {
    let alloc = rt.alloc();
    let keys = RandomState::new(&rt).expect(&rt, "keys");
    let mut network = FakeSockets::new(alloc);
    let mut desk = desk(&rt, alloc, keys, &mut network);
    let told = figures(&rt, alloc, 0);
    let asks = b"GET / HTTP/1.1\r\nhost: n0\r\n\r\n";
    let slow = network.client(1, asks, 100, 1).expect(&rt, "memory");
    make(&mut desk, &mut network, &told, (0, 10));
    assert_eq!(rt; network.came(slow).len(), 10);
    make(&mut desk, &mut network, &told, (9_999, 10_001));
    assert_eq!(rt; desk.visitors(), 0);
    drop((desk, network, told));
}

#[test]
fn requests_come_in_any_pieces(rt: HostRuntime) {
    let alloc = rt.alloc();
    let keys = RandomState::new(&rt).expect(&rt, "keys");
    let mut network = FakeSockets::new(alloc);
    let mut desk = desk(&rt, alloc, keys, &mut network);
    let told = well(&rt, alloc);
    let asks =
        b"GET /caught-up HTTP/1.1\r\nhost: n0\r\n\r\nGET /caught-up HTTP/1.1\r\nhost: n0\r\n\r\n";
    let whole = network.client(1, asks, 1000, 1000).expect(&rt, "memory");
    let piecewise = network.client(1, asks, 1, 1).expect(&rt, "memory");
    make(&mut desk, &mut network, &told, (0, 1000));
    assert!(rt; network.came(whole).ends_with(b"caught up\n"));
    assert!(rt; network.came(whole) == network.came(piecewise));
    drop((desk, network, told));
}

#[test]
fn half_requests_end_after_two_seconds(rt: HostRuntime) {
    let alloc = rt.alloc();
    let keys = RandomState::new(&rt).expect(&rt, "keys");
    let mut network = FakeSockets::new(alloc);
    let mut desk = desk(&rt, alloc, keys, &mut network);
    let told = figures(&rt, alloc, 0);
    network
        .client(1, b"GET /hea", 100, 100)
        .expect(&rt, "memory");
    network.client(1, b"", 100, 100).expect(&rt, "memory");
    make(&mut desk, &mut network, &told, (0, 5));
    assert_eq!(rt; desk.visitors(), 2);
    make(&mut desk, &mut network, &told, (1_999, 2_000));
    assert_eq!(rt; desk.visitors(), 2);
    make(&mut desk, &mut network, &told, (2_000, 2_001));
    assert_eq!(rt; desk.visitors(), 1);
    drop((desk, network, told));
}
