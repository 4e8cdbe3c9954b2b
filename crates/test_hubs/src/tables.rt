//! A node that is given a newer table of homes while it runs.

use broker_sockets::Clock;
use door_bounds::{BoundLimits, NoGauge};
use door_limits::Limits;
use door_tables::Tables;
use home_table::{HomeTable, homes_of, nodes_text};
use node_server::{ListenAt, StatusPlace, serve};
use row_store::MemoryRows;
use status_sockets::NoMachine;
use std::alloc::Global;
use std::process::Abort;
use trial_fakes::FakeSockets;

/// CONNECT of client `a`, whose home of two nodes is the second one.
const CONNECT: &[u8] = b"\x10\x0e\x00\x04MQTT\x05\x02\x00\x3c\x00\x00\x01a";

/// CONNACK.
const WELCOME: &[u8] = b"\x20\x0e\x00\x00\x0b\x21\x00\x64\x22\x00\x10\x27\x00\x10\x00\x00";

/// CONNACK, and then DISCONNECT 0x9D with the address of the first node.
const SENT_ON: &[u8] =
    b"\x20\x0e\x00\x00\x0b\x21\x00\x64\x22\x00\x10\x27\x00\x10\x00\x00\xe0\x13\x9d\x11\x1c\x00\x0e127.0.0.1:1883";

/// Tells 1, 2, 3 and so on.
#[derive(Drop)]
struct Rising {
    told: u64,
}

impl Clock for Rising {
    ghost tells = { λ _ _ _. Unit {0} };

    fn now(&mut self) -> u64 {
        self.told = self.told.saturating_add(1);
        self.told
    }
}

/// Offers a table from a moment on, to a node that may take it.
#[derive(Drop)]
struct Later {
    from: u64,
    homes: HomeTable,
}

impl Tables for Later {
    ghost offers = { λ _ _ _ _ _. Unit {0} };

    fn offer(&mut self, at: u64, homes: &HomeTable) -> Option<HomeTable> {
        if at < self.from || self.homes.nodes() != homes.nodes() {
            return None;
        }
        if self.homes.version() <= homes.version() {
            return None;
        }
        self.homes.copy().ok()
    }

    fn refusal(&self) -> Option<&str> {
        None
    }
}

/// The table of two nodes of this version, in which identifiers that begin with `a` have their home at the first.
fn moved(rt: &impl Abort, alloc: Global, version: u32) -> HomeTable {
    let nodes = nodes_text(alloc, 2).expect(rt, "memory");
    let text = format!(in alloc;
        "version = {version}\n{nodes}[[home]]\nprefix = \"a\"\nnode = \"n0\"\n"
    ).expect(rt, "memory");
    HomeTable::parse(alloc, text.as_str()).expect(rt, "a table")
}

/// What client `a` gets at the second of two nodes, which is offered the table of this version from this moment on: whether it is this.
fn gets(rt: &impl Abort, alloc: Global, version: u32, from: u64, got: &[u8]) -> bool {
    let mut network = FakeSockets::new(alloc);
    let end = network.client(1, CONNECT, 100, 100).expect(rt, "memory");
    let homes = homes_of(alloc, 2).expect(rt, "a table");
    assert!(rt; homes.nodes() == 2);
    let tables = Later {
        from,
        homes: moved(rt, alloc, version),
    };
    let mut out = Vec::new(alloc);
    let silent: Option<Vec<u8>> = None;
    let nowhere: Option<StatusPlace<'_, FakeSockets, NoMachine>> = None;
    let ended = serve(
        alloc,
        &mut network,
        &mut Rising { told: 0 },
        MemoryRows::new(alloc),
        (homes, 1),
        ListenAt::table(),
        Some(tables),
        None,
        (BoundLimits::none(), NoGauge),
        Limits::none(),
        false,
        silent,
        None,
        nowhere,
        None,
        10,
        &mut out,
    );
    let all = network.came(end) == got;
    drop((network, out));
    ended.is_ok() && all
}

#[test]
fn a_client_is_sent_on_by_a_newer_table(rt: HostRuntime) {
    let alloc = rt.alloc();
    for (version, from, got) in [
        (1, 5, SENT_ON),
        // not yet, and one that isn't newer
        (1, 100, WELCOME),
        (0, 5, WELCOME),
    ] {
        assert!(rt; gets(&rt, alloc, version, from, got));
    }
}
