//! Nodes that are served over sockets in memory: one whose rows refuse a change, and one whose rows are in a database.
ghost use Rattle.std.specs.Prelude.{◌<◌, length};

use broker_sockets::Clock;
use cli_stops::RunFault;
use door_bounds::{BoundLimits, Gauge};
use door_limits::Limits;
use door_tables::NoTables;
use door_users::FileAccess;
use home_table::{HomeTable, homes_of};
use mqtt_bounds::Bounds;
use node_server::{ListenAt, StatusPlace, serve};
use row_database::{Wary, open_rows};
use row_store::{MemoryRows, RowStore};
use status_sockets::NoMachine;
use std::alloc::Global;
use std::process::Abort;
use trial_fakes::{FakeSockets, RefusingRows};

/// CONNECT of client `a`, whose home of two nodes is the second one, a retained PUBLISH of `on` to `t`, and SUBSCRIBE to `t`.
const PACKETS: [&[u8]; 3] = [
    b"\x10\x0e\x00\x04MQTT\x05\x02\x00\x3c\x00\x00\x01a",
    b"\x31\x06\x00\x01t\x00on",
    b"\x82\x07\x00\x01\x00\x00\x01t\x00",
];

/// CONNACK, SUBACK, and the retained message.
const ANSWERS: &[u8] =
    b"\x20\x0e\x00\x00\x0b\x21\x00\x64\x22\x00\x10\x27\x00\x10\x00\x00\x90\x04\x00\x01\x00\x00\x31\x06\x00\x01t\x00on";

/// CONNECT of three clients, whose sessions stay for 100 s.
const CONNECTS: [&[u8]; 3] = [
    b"\x10\x13\x00\x04MQTT\x05\x00\x00\x3c\x05\x11\x00\x00\x00\x64\x00\x01a",
    b"\x10\x13\x00\x04MQTT\x05\x00\x00\x3c\x05\x11\x00\x00\x00\x64\x00\x01b",
    b"\x10\x13\x00\x04MQTT\x05\x00\x00\x3c\x05\x11\x00\x00\x00\x64\x00\x01c",
];

/// How many bytes each has, which a read gives at most.
const PIECE: usize = 21;

/// SUBSCRIBE to `t`.
const SUBSCRIBE: &[u8] = b"\x82\x07\x00\x01\x00\x00\x01t\x00";

/// CONNACK, and SUBACK behind it.
const CONNACK: &[u8] = b"\x20\x0e\x00\x00\x0b\x21\x00\x64\x22\x00\x10\x27\x00\x10\x00\x00";

const BOTH: &[u8] =
    b"\x20\x0e\x00\x00\x0b\x21\x00\x64\x22\x00\x10\x27\x00\x10\x00\x00\x90\x04\x00\x01\x00\x00";

/// The call in which rows are changed first: an opening loads them, puts the mark, and loads them again.
const FIRST_CHANGE: u64 = 4;

/// Tells 1, 2, 3 and so on.
#[derive(Drop)]
struct Rising {
    told: u64,
}

impl Clock for Rising {
    ghost tells = { λ _ _ _. Unit {0} };

    fn now(&mut self) -> u64 {
        self.told = self.told.saturating_add(1);
        self.told
    }
}

/// Always tells so many bytes.
#[derive(Drop)]
struct Holding {
    held: u64,
}

impl Gauge for Holding {
    fn held(&mut self) -> Option<u64> {
        Some(self.held)
    }
}

/// No limits on what clients send, and nothing held.
fn unbounded() -> (BoundLimits, Holding) {
    (BoundLimits::none(), Holding { held: 0 })
}

/// Serves a node for ten turns with users, if there are any, within limits and with a log, if there is one, and answers what ends the run early, if
/// anything does.
fn served<R: RowStore + Drop>(
    alloc: Global,
    network: &mut FakeSockets,
    rows: R,
    place: (HomeTable, u16),
    access: Option<FileAccess>,
    bounds: (BoundLimits, Holding),
    limits: Limits,
    log: Option<&mut Vec<u8>>,
) -> Option<RunFault>
    requires { place.1 < length place.0.nodes }
{
    let mut clock = Rising { told: 0 };
    let mut out = Vec::new(alloc);
    let nowhere: Option<StatusPlace<'_, FakeSockets, NoMachine>> = None;
    let no_tables: Option<NoTables> = None;
    serve(
        alloc,
        network,
        &mut clock,
        rows,
        place,
        ListenAt::table(),
        no_tables,
        access,
        bounds,
        limits,
        false,
        log,
        None,
        nowhere,
        None,
        10,
        &mut out,
    )
    .err()
}

/// Three clients connect in one turn and subscribe in the next one, at a node whose rows refuse this call: what ends the run, and
/// whether each client has got just these bytes.
fn refused(rt: &impl Abort, alloc: Global, call: u64, got: &[u8]) -> (Option<RunFault>, bool) {
    let mut network = FakeSockets::new(alloc);
    for connect in CONNECTS {
        let end = network.client(1, connect, PIECE, 100).expect(rt, "memory");
        network.send(end, SUBSCRIBE).expect(rt, "memory");
    }
    let homes = homes_of(alloc, 1).expect(rt, "a table");
    let rows = RefusingRows::new(MemoryRows::new(alloc), call);
    let fault = served(
        alloc,
        &mut network,
        rows,
        (homes, 0),
        None,
        unbounded(),
        Limits::none(),
        None,
    );
    // the clients' ends are the first, the third and the fifth
    let all = network.came(0) == got && network.came(2) == got && network.came(4) == got;
    drop(network);
    (fault, all)
}

#[test]
fn nothing_is_sent_where_rows_refuse_the_changes_of_a_turn(rt: HostRuntime) {
    let alloc = rt.alloc();
    let rows = Some(RunFault::Rows);
    for (call, fault, got) in [
        (FIRST_CHANGE, rows, b"".as_slice()),
        (FIRST_CHANGE + 1, rows, CONNACK),
        (FIRST_CHANGE + 2, None, BOTH),
    ] {
        assert!(rt; refused(&rt, alloc, call, got) == (fault, true));
    }
}

/// Three clients connect in one turn and subscribe in the next one, at a node with these limits: whether each has got just these bytes, and
/// the log is just these lines.
fn bounded(rt: &impl Abort, alloc: Global, limits: Limits, got: [&[u8]; 3], lines: &[u8]) -> bool {
    let mut log = Vec::new(alloc);
    let mut network = FakeSockets::new(alloc);
    for connect in CONNECTS {
        let end = network.client(1, connect, PIECE, 100).expect(rt, "memory");
        network.send(end, SUBSCRIBE).expect(rt, "memory");
    }
    let homes = homes_of(alloc, 1).expect(rt, "a table");
    let fault = served(
        alloc,
        &mut network,
        MemoryRows::new(alloc),
        (homes, 0),
        None,
        unbounded(),
        limits,
        Some(&mut log),
    );
    let told = log.as_slice() == lines;
    drop(log);
    let [first, second, third] = got;
    let all = network.came(0) == first && network.came(2) == second && network.came(4) == third;
    drop(network);
    fault.is_none() && all && told
}

#[test]
fn a_node_serves_as_many_clients_as_it_may(rt: HostRuntime) {
    let alloc = rt.alloc();
    let nothing = b"".as_slice();
    for (most, got, lines) in [
        (
            1,
            [BOTH, nothing, nothing],
            "2 client closed unanswered\n2 client closed unanswered\n3 client accepted: a\n",
        ),
        (
            2,
            [BOTH, BOTH, nothing],
            "2 client closed unanswered\n3 client accepted: a\n3 client accepted: b\n",
        ),
        (
            3,
            [BOTH, BOTH, BOTH],
            "3 client accepted: a\n3 client accepted: b\n3 client accepted: c\n",
        ),
    ] {
        let limits = Limits {
            most: Some(most),
            within: Some(5),
        };
        assert!(rt; bounded(&rt, alloc, limits, got, lines.as_bytes()));
    }
}

/// A client sends packets to a node of two with these rows, users and limits: what ends the run, and whether the client has got just these bytes.
fn answered<R: RowStore + Drop>(
    rt: &impl Abort,
    alloc: Global,
    rows: R,
    access: Option<FileAccess>,
    bounds: (BoundLimits, Holding),
    id: u16,
    packets: &[&[u8]],
    got: &[u8],
) -> (Option<RunFault>, bool) {
    let mut network = FakeSockets::new(alloc);
    let end = network.client(1, b"", 100, 100).expect(rt, "memory");
    for packet in packets {
        network.send(end, packet).expect(rt, "memory");
    }
    let homes = homes_of(alloc, 2).expect(rt, "a table");
    assert!(rt; id < homes.nodes());
    let fault = served(
        alloc,
        &mut network,
        rows,
        (homes, id),
        access,
        bounds,
        Limits::none(),
        None,
    );
    let all = network.came(end) == got;
    drop(network);
    (fault, all)
}

#[test]
fn what_a_run_wrote_is_in_the_database_of_the_next(rt: HostRuntime) {
    let again = [PACKETS[0], PACKETS[2]];
    for (id, packets, got, fault) in [
        (1, PACKETS.as_slice(), ANSWERS, None),
        (1, again.as_slice(), ANSWERS, None),
        // as another node
        (0, PACKETS.as_slice(), b"".as_slice(), Some(RunFault::Rows)),
    ] {
        let rows = open_rows(&rt, "hub.db", Wary)
            .ok()
            .expect(&rt, "a database");
        let end = answered(&rt, rt.alloc(), rows, None, unbounded(), id, packets, got);
        assert!(rt; end == (fault, true));
    }
}

/// PUBLISH at QoS 1 to `a/b`, as packet 9.
const PUBLISH: &[u8] = b"\x32\x08\x00\x03a/b\x00\x09\x00";

/// CONNACK with Maximum Packet Size 64.
const SMALL: &[u8] = b"\x20\x0e\x00\x00\x0b\x21\x00\x64\x22\x00\x10\x27\x00\x00\x00\x40";

#[test]
fn a_node_refuses_what_breaks_a_limit(rt: HostRuntime) {
    let alloc = rt.alloc();
    let levels = BoundLimits {
        packets: Bounds {
            longest_packet: Some(64),
            most_filters: None,
            most_levels: Some(1),
            most_properties: None,
            longest_expiry: None,
        },
        most_memory: None,
    };
    let memory = BoundLimits {
        packets: BoundLimits::none().packets,
        most_memory: Some(1_000),
    };
    for (limits, held, connack, puback) in [
        (levels, 0, SMALL, b"\x40\x03\x00\x09\x90".as_slice()),
        (memory, 1_001, CONNACK, b"\x40\x03\x00\x09\x97".as_slice()),
    ] {
        let mut got = Vec::from_slice(alloc, connack).expect(&rt, "memory");
        got.extend_from_slice(puback).expect(&rt, "memory");
        let packets = [PACKETS[0], PUBLISH];
        let bounds = (limits, Holding { held });
        let rows = MemoryRows::new(alloc);
        let end = answered(&rt, alloc, rows, None, bounds, 1, packets.as_slice(), &got);
        assert!(rt; end == (None, true));
    }
}

/// The user `dora` with the password `secret`, whose hash has one iteration.
const USERS: &str =
    "dora:$7$1$dHdlbHZlIGJ5dGVz$MfsYXivneU8zaI/dN/IW867WH9yS8XFYYD4EWl+pf0AIdIwD0ejoOETLqO6VfliD4i41bBeGEhsoeSy/G83kgQ==\n";

/// CONNECT of client `a` as `dora` with her password, and with another one.
const NAMED: &[u8] = b"\x10\x1c\x00\x04MQTT\x05\xc2\x00\x3c\x00\x00\x01a\x00\x04dora\x00\x06secret";

const GUESSED: &[u8] =
    b"\x10\x1c\x00\x04MQTT\x05\xc2\x00\x3c\x00\x00\x01a\x00\x04dora\x00\x06Secret";

/// CONNACK, and PUBACK with 0x00, and with 0x87.
const TAKEN: &[u8] =
    b"\x20\x0e\x00\x00\x0b\x21\x00\x64\x22\x00\x10\x27\x00\x10\x00\x00\x40\x02\x00\x09";

const REFUSED: &[u8] =
    b"\x20\x0e\x00\x00\x0b\x21\x00\x64\x22\x00\x10\x27\x00\x10\x00\x00\x40\x03\x00\x09\x87";

/// The user, with what she may do by these rules.
fn access(rt: &impl Abort, alloc: Global, rules: &str) -> FileAccess {
    FileAccess::read(alloc, USERS, Some(rules), false)
        .ok()
        .expect(rt, "two files")
}

#[test]
fn a_node_serves_users_alone(rt: HostRuntime) {
    let alloc = rt.alloc();
    for (connect, rules, got) in [
        (NAMED, "user dora\ntopic write a/+\n", TAKEN),
        (NAMED, "user dora\ntopic read a/+\n", REFUSED),
        (GUESSED, "topic a/+\n", b"\x20\x03\x00\x86\x00".as_slice()),
        (
            PACKETS[0],
            "topic a/+\n",
            b"\x20\x03\x00\x87\x00".as_slice(),
        ),
    ] {
        let packets = [connect, PUBLISH];
        let users = Some(access(&rt, alloc, rules));
        let rows = MemoryRows::new(alloc);
        let end = answered(
            &rt,
            alloc,
            rows,
            users,
            unbounded(),
            1,
            packets.as_slice(),
            got,
        );
        assert!(rt; end == (None, true));
    }
}
