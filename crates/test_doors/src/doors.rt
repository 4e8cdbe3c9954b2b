//! Who is let in, and who is closed.

use crate::greeter::Greeter;
use broker_sockets::Sockets;
use broker_turns::{Hub, Setting};
use door_limits::{Limited, Limits};
use std::alloc::Global;
use std::process::Abort;
use trial_fakes::FakeSockets;

/// A hub for clients at the first port.
fn hub_of(rt: &impl Abort, alloc: Global, network: &mut FakeSockets) -> Hub<u16, usize> {
    let setting = Setting {
        listener: port_of(rt, network),
        bridge: port_of(rt, network),
        peers: Vec::new(alloc),
    };
    Hub::new(alloc, setting).expect(rt, "memory")
}

fn port_of(rt: &impl Abort, network: &mut FakeSockets) -> u16 {
    let free = "127.0.0.1:0".parse().expect(rt, "an address");
    network.listen(free).expect(rt, "a port is free")
}

/// A client that sends these bytes.
fn client(rt: &impl Abort, network: &mut FakeSockets, sends: &[u8]) -> usize {
    network.client(1, sends, 100, 100).expect(rt, "memory")
}

/// Makes turns at these moments, and tells how many clients there are then.
fn make(
    rt: &impl Abort,
    hub: &mut Hub<u16, usize>,
    network: &mut FakeSockets,
    door: &mut Limited<Greeter>,
    (from, to): (u64, u64),
) -> usize {
    for at in from..to {
        assert!(rt; hub.turn(network, door, at).is_ok());
    }
    hub.clients()
}

#[test]
fn one_client_more_is_closed_while_others_are_served(rt: HostRuntime) {
    let alloc = rt.alloc();
    let mut network = FakeSockets::new(alloc);
    let mut hub = hub_of(&rt, alloc, &mut network);
    let limits = Limits {
        most: Some(2),
        within: None,
    };
    let mut door = Limited::new(alloc, limits, Greeter::new(alloc));
    let first = client(&rt, &mut network, b"one");
    let second = client(&rt, &mut network, b"two");
    let third = client(&rt, &mut network, b"three");
    assert_eq!(rt; make(&rt, &mut hub, &mut network, &mut door, (0, 5)), 2);
    assert!(rt; network.came(first) == b"one".as_slice());
    assert!(rt; network.came(second) == b"two".as_slice());
    assert!(rt; network.came(third).is_empty());
    // one is gone, and another finds room
    network.close(first);
    assert_eq!(rt; make(&rt, &mut hub, &mut network, &mut door, (5, 10)), 1);
    let fourth = client(&rt, &mut network, b"quit");
    assert_eq!(rt; make(&rt, &mut hub, &mut network, &mut door, (10, 15)), 1);
    assert!(rt; network.came(fourth) == b"quit".as_slice());
    // the handler inside has closed that one, so there is room again
    let fifth = client(&rt, &mut network, b"five");
    assert_eq!(rt; make(&rt, &mut hub, &mut network, &mut door, (15, 20)), 2);
    assert!(rt; network.came(fifth) == b"five".as_slice());
    assert!(rt; door.inside().opened.len() == 4 && door.inside().closed.len() == 1);
    drop((door, hub, network));
}

#[test]
fn a_client_to_which_nothing_was_sent_is_closed_at_its_time(rt: HostRuntime) {
    let alloc = rt.alloc();
    let mut network = FakeSockets::new(alloc);
    let mut hub = hub_of(&rt, alloc, &mut network);
    let limits = Limits {
        most: None,
        within: Some(10),
    };
    let mut door = Limited::new(alloc, limits, Greeter::new(alloc));
    let silent = client(&rt, &mut network, b"");
    let accepted = client(&rt, &mut network, b"hello");
    // opened at 0, and so there until 9
    assert_eq!(rt; make(&rt, &mut hub, &mut network, &mut door, (0, 10)), 2);
    assert_eq!(rt; make(&rt, &mut hub, &mut network, &mut door, (10, 11)), 1);
    assert!(rt; network.came(silent).is_empty());
    assert!(rt; door.inside().closed.as_slice() == [0].as_slice());
    // the other one stays, however long it is silent
    assert_eq!(rt; make(&rt, &mut hub, &mut network, &mut door, (11, 50)), 1);
    network.send(accepted, b"again").expect(&rt, "memory");
    assert_eq!(rt; make(&rt, &mut hub, &mut network, &mut door, (50, 55)), 1);
    assert!(rt; network.came(accepted) == b"helloagain".as_slice());
    drop((door, hub, network));
}

#[test]
fn without_limits_all_are_let_in(rt: HostRuntime) {
    let alloc = rt.alloc();
    let mut network = FakeSockets::new(alloc);
    let mut hub = hub_of(&rt, alloc, &mut network);
    let mut door = Limited::new(alloc, Limits::none(), Greeter::new(alloc));
    for _ in 0..3 {
        client(&rt, &mut network, b"");
    }
    assert_eq!(rt; make(&rt, &mut hub, &mut network, &mut door, (0, 50)), 3);
    assert!(rt; door.inside().opened.len() == 3 && door.inside().closed.is_empty());
    drop((door, hub, network));
}
