//! A node with its rows in memory, and a client of it over the sockets of the system.

use broker_sockets::{
    Answer, Event, EventKind, Handler, PolledSockets, Readiness, RealClocks, RealSockets, Sockets,
    SteadyClock,
};
use broker_turns::{Hub, Setting};
use cli_stops::RunFault;
use door_bounds::{BoundLimits, NoGauge};
use door_limits::Limits;
use door_tables::NoTables;
use home_table::{HomeTable, homes_of};
use mio::net::{TcpListener, TcpStream};
use node_keeper::{Keeper, KeeperFault};
use node_server::{ListenAt, ServedNode, StatusPlace, serve};
use row_store::MemoryRows;
use status_sockets::NoMachine;
use std::alloc::Global;
use std::net::SocketAddr;
use std::process::Abort;

/// CONNECT of client `a`, whose home of two nodes is the second one, a retained PUBLISH of `on` to `t`, and SUBSCRIBE to `t`.
pub const PACKETS: [&[u8]; 3] = [
    b"\x10\x0e\x00\x04MQTT\x05\x02\x00\x3c\x00\x00\x01a",
    b"\x31\x06\x00\x01t\x00on",
    b"\x82\x07\x00\x01\x00\x00\x01t\x00",
];

/// CONNACK, SUBACK, and the retained message.
pub const ANSWERS: &[u8] =
    b"\x20\x0e\x00\x00\x0b\x21\x00\x64\x22\x00\x10\x27\x00\x10\x00\x00\x90\x04\x00\x01\x00\x00\x31\x06\x00\x01t\x00on";

/// The second of two nodes, which has no rows yet and has started.
fn started_node(rt: &impl Abort, alloc: Global) -> ServedNode<MemoryRows> {
    let homes = homes_of(alloc, 2).expect(rt, "a table");
    let opened = Keeper::open(alloc, MemoryRows::new(alloc), homes, 1);
    let keeper = opened.ok().expect(rt, "a node");
    let mut node = ServedNode::new(alloc, keeper);
    let at = 0;
    let kind = EventKind::Started;
    let outputs = node.handle(Event { at, kind }).expect(rt, "a start");
    assert!(rt; outputs.is_empty());
    node
}

/// One step of a client, which sends its next packet if there is one, and keeps what comes.
fn step(
    rt: &impl Abort,
    sockets: &mut impl Sockets<Stream = TcpStream>,
    stream: &mut TcpStream,
    sent: &mut usize,
    got: &mut Vec<u8>,
) {
    if let Some(packet) = PACKETS.get(*sent) {
        if sockets.write(stream, packet) == Answer::Bytes(packet.len()) {
            *sent = sent.saturating_add(1);
        }
    }
    let mut buffer = [0u8; 64];
    if let Answer::Bytes(count) = sockets.read(stream, &mut buffer) {
        got.extend_from_slice(&buffer[..count]).expect(rt, "memory");
    }
}

/// Turns and steps in turn, until the client has what it must get, or too many have been made.
fn run(
    rt: &impl Abort,
    hub: &mut Hub<TcpListener, TcpStream>,
    sockets: &mut impl Readiness<Listener = TcpListener, Stream = TcpStream>,
    node: &mut ServedNode<MemoryRows>,
    client: &mut TcpStream,
    got: &mut Vec<u8>,
) {
    let mut sent = 0;
    for at in 0..10000 {
        hub.turn(sockets, node, at).ok().expect(rt, "a turn");
        step(rt, sockets, client, &mut sent, got);
        if got.len() >= ANSWERS.len() {
            return;
        }
    }
}

#[test]
fn a_client_is_answered(rt: HostRuntime) {
    let alloc = rt.alloc();
    let mut sockets = PolledSockets::new(alloc, &rt).expect(&rt, "sockets");
    let free: SocketAddr = "127.0.0.1:0".parse().expect(&rt, "an address");
    let listener = sockets.listen(free).expect(&rt, "a listener");
    let address = listener.local_addr().expect(&rt, "its address");
    let mut client = sockets.connect(address).expect(&rt, "a client");
    let setting = Setting {
        listener,
        bridge: sockets.listen(free).expect(&rt, "a bridge"),
        peers: Vec::new(alloc),
    };
    let mut hub = Hub::new(alloc, setting).expect(&rt, "a hub");
    let mut node = started_node(&rt, alloc);
    let mut got = Vec::new(alloc);
    run(
        &rt,
        &mut hub,
        &mut sockets,
        &mut node,
        &mut client,
        &mut got,
    );
    assert!(rt; got.as_slice() == ANSWERS);
    assert!(rt; hub.clients() == 1);
    drop(node);
}

/// The fault of a tick.
fn fault_of(node: &mut ServedNode<MemoryRows>, at: u64) -> Option<KeeperFault> {
    let kind = EventKind::Tick;
    node.handle(Event { at, kind }).err()
}

#[test]
fn a_node_stops(rt: HostRuntime) {
    let mut node = started_node(&rt, rt.alloc());
    assert!(rt; fault_of(&mut node, 1 << 62) == Some(KeeperFault::NumbersAtEnd));
    assert!(rt; fault_of(&mut node, 0) == Some(KeeperFault::Stopped));
    drop(node);
}

/// A table of one node with these addresses.
fn table(rt: &impl Abort, alloc: Global, address: &str, bridge: &str) -> HomeTable {
    let text = format!(in alloc;
        "[[node]]\nname = \"n0\"\naddress = \"{address}\"\nbridge = \"{bridge}\"\n"
    ).expect(rt, "memory");
    HomeTable::parse(alloc, text.as_str()).expect(rt, "a table")
}

/// Runs a new node of the table for so many turns, and answers what ends the run early, if anything does.
fn serve_for(
    rt: &HostRuntime,
    homes: HomeTable,
    at: ListenAt<'_>,
    turns: u64,
    out: &mut Vec<u8>,
) -> Option<RunFault> {
    if homes.nodes() == 0 {
        drop(homes);
        return None;
    }
    let alloc = rt.alloc();
    let Ok(mut sockets) = PolledSockets::new(alloc, rt) else {
        drop(homes);
        return Some(RunFault::Socket);
    };
    let mut clock = SteadyClock::new(RealClocks::new(rt));
    let rows = MemoryRows::new(alloc);
    let silent: Option<Vec<u8>> = None;
    let nowhere: Option<StatusPlace<'_, RealSockets<'_, HostRuntime>, NoMachine>> = None;
    let no_tables: Option<NoTables> = None;
    serve(
        alloc,
        &mut sockets,
        &mut clock,
        rows,
        (homes, 0),
        at,
        no_tables,
        None,
        (BoundLimits::none(), NoGauge),
        Limits::none(),
        false,
        silent,
        None,
        nowhere,
        None,
        turns,
        out,
    )
    .err()
}

#[test]
fn a_run_tells_its_turns(rt: HostRuntime) {
    let any = "127.0.0.1:0";
    let socket = Some(RunFault::Socket);
    for (address, bridge, turns, fault, lines) in [
        (
            any,
            any,
            1,
            None,
            "ready 127.0.0.1:0 127.0.0.1:0\nturns 1\n",
        ),
        (
            any,
            any,
            2,
            None,
            "ready 127.0.0.1:0 127.0.0.1:0\nturns 2\n",
        ),
        ("localhost", any, 2, socket, ""),
        (any, "127.0.0.1", 2, socket, ""),
    ] {
        let mut out = Vec::new(rt.alloc());
        let homes = table(&rt, rt.alloc(), address, bridge);
        assert!(rt; serve_for(&rt, homes, ListenAt::table(), turns, &mut out) == fault);
        assert!(rt; out.as_slice() == lines.as_bytes());
    }
}

#[test]
fn a_node_waits_where_it_is_told_to(rt: HostRuntime) {
    let any = Some("127.0.0.1:0");
    let elsewhere = Some("192.0.2.1:1883");
    let socket = Some(RunFault::Socket);
    for (clients, nodes, fault, lines) in [
        (
            any,
            any,
            None,
            "ready node.example:1883 node.example:2883\nturns 1\n",
        ),
        (any, None, socket, ""),
        (None, any, socket, ""),
        (elsewhere, any, socket, ""),
        (any, elsewhere, socket, ""),
    ] {
        let mut out = Vec::new(rt.alloc());
        let homes = table(&rt, rt.alloc(), "node.example:1883", "node.example:2883");
        let at = ListenAt { clients, nodes };
        assert!(rt; serve_for(&rt, homes, at, 1, &mut out) == fault);
        assert!(rt; out.as_slice() == lines.as_bytes());
    }
}
