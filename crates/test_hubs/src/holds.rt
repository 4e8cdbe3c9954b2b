//! A node whose client publishes while many messages wait for another node.
ghost use Rattle.std.specs.Prelude.{◌≡◌, length, IfSome};

use broker_holds::{HoldingSockets, Strain};
use broker_sockets::Clock;
use door_bounds::{BoundLimits, NoGauge};
use door_limits::Limits;
use door_tables::NoTables;
use home_table::{HomeTable, nodes_text};
use node_server::{ListenAt, StatusPlace, serve};
use row_store::{Change, MemoryRows, Row, RowStore};
use status_sockets::NoMachine;
use std::alloc::Global;
use std::process::Abort;
use std::rc::Rc;
use trial_fakes::FakeSockets;

/// A row: its kind, owner, place and value.
type Plain = (u8, &'static [u8], &'static [u8], &'static [u8]);

/// Rows of the first of two nodes: its mark, a subscription of `a` to `t` that the second one made as (1, 1), and that dot as one that was taken, and as one
/// that was seen.
const ROWS: [Plain; 4] = [
    (1, b"", b"", b"\0\x03\0\0\0\0\0\0\0\0\0\0"),
    (
        4,
        b"a",
        b"\0\x01\0\0\0\0\0\0\0\x01",
        b"\0\x01t\0\0\0\0\0\0\0\0\0",
    ),
    (
        6,
        b"",
        b"\x01",
        b"\0\0\0\x01\0\x01\0\0\0\0\0\0\0\x01\0\0\0\0\0\0\0\x01",
    ),
    (
        6,
        b"",
        b"\x02",
        b"\0\0\0\x01\0\x01\0\0\0\0\0\0\0\x01\0\0\0\0\0\0\0\x01",
    ),
];

/// CONNECT of client `b`, whose home is the first node, with a Keep Alive of 60 seconds.
const CONNECT: &[u8] = b"\x10\x0e\x00\x04MQTT\x05\x02\x00\x3c\x00\x00\x01b";

/// A PUBLISH to `t`, and the front of one of 512 bytes.
const PUBLISH: &[u8] = b"\x30\x04\x00\x01t\x00";

const LONG: &[u8] = b"\x30\xfd\x03\x00\x01t\x00";

const PINGREQ: &[u8] = b"\xc0\x00";

/// CONNACK, and CONNACK with PINGRESP behind it.
const WELCOME: &[u8] = b"\x20\x0e\x00\x00\x0b\x21\x00\x64\x22\x00\x10\x27\x00\x10\x00\x00";

const ANSWERED: &[u8] = b"\x20\x0e\x00\x00\x0b\x21\x00\x64\x22\x00\x10\x27\x00\x10\x00\x00\xd0\x00";

/// Tells 1, 2, 3 and so on.
#[derive(Drop)]
struct Rising {
    told: u64,
}

impl Clock for Rising {
    ghost tells = { λ _ _ _. Unit {0} };

    fn now(&mut self) -> u64 {
        self.told = self.told.saturating_add(1);
        self.told
    }
}

fn bytes(rt: &impl Abort, alloc: Global, from: &[u8]) -> Vec<u8> {
    Vec::from_slice(alloc, from).expect(rt, "memory")
}

/// The rows of the node.
fn rows(rt: &impl Abort, alloc: Global) -> MemoryRows {
    let mut changes = Vec::new(alloc);
    for (kind, owner, place, value) in ROWS {
        let row = Row {
            kind,
            owner: bytes(rt, alloc, owner),
            place: bytes(rt, alloc, place),
            value: bytes(rt, alloc, value),
        };
        changes.push(Change::Put(row)).expect(rt, "memory");
    }
    let mut rows = MemoryRows::new(alloc);
    rows.apply(&changes).ok().expect(rt, "rows");
    drop(changes);
    rows
}

/// The table of two nodes, in which `a` has its home at the second and `b` at the first.
fn homes(alloc: Global) -> Option<HomeTable>
    ensures { IfSome result (λ homes. length homes.nodes ≡ 2) }
{
    let mut text = nodes_text(alloc, 2).ok()?;
    writeln!(text, "[[home]]\nprefix = \"a\"\nnode = \"n1\"").ok()?;
    writeln!(text, "[[home]]\nprefix = \"b\"\nnode = \"n0\"").ok()?;
    let homes = HomeTable::parse(alloc, text.as_str()).ok()?;
    if homes.nodes() == 2 {
        Some(homes)
    } else {
        None
    }
}

/// What `b` sends, of which CONNECT and so many PUBLISHes are read at once, and how many bytes these are.
fn sent(rt: &impl Abort, alloc: Global, publishes: usize) -> (Vec<u8>, usize) {
    let mut sends = bytes(rt, alloc, CONNECT);
    for _ in 0..publishes {
        sends.extend_from_slice(PUBLISH).expect(rt, "memory");
    }
    let piece = sends.len();
    sends.extend_from_slice(LONG).expect(rt, "memory");
    sends.extend_from_slice(&[0; 505]).expect(rt, "memory");
    sends.extend_from_slice(PINGREQ).expect(rt, "memory");
    (sends, piece)
}

/// Whether a client that sends so many PUBLISHes at once, then one of 512 bytes, and then PINGREQ, has got just these bytes after ten turns of ten milliseconds.
fn gets(rt: &impl Abort, alloc: Global, publishes: usize, got: &[u8]) -> bool {
    let (sends, piece) = sent(rt, alloc, publishes);
    let mut network = FakeSockets::new(alloc);
    let end = network.client(1, &sends, piece, 100).expect(rt, "memory");
    drop(sends);
    let strain = Strain::new(alloc, 2).expect(rt, "memory");
    let strain = Rc::new(alloc, strain).expect(rt, "memory");
    let shared = strain.clone().expect(rt, "memory");
    let mut sockets = HoldingSockets::new(alloc, network, shared);
    let table = homes(alloc).expect(rt, "a table");
    let mut out = Vec::new(alloc);
    let silent: Option<Vec<u8>> = None;
    let no_tables: Option<NoTables> = None;
    let nowhere: Option<StatusPlace<'_, FakeSockets, NoMachine>> = None;
    let ended = serve(
        alloc,
        &mut sockets,
        &mut Rising { told: 0 },
        rows(rt, alloc),
        (table, 0),
        ListenAt::table(),
        no_tables,
        None,
        (BoundLimits::none(), NoGauge),
        Limits::none(),
        false,
        silent,
        None,
        nowhere,
        Some(strain),
        10,
        &mut out,
    );
    let network = sockets.into_inside();
    let all = network.came(end) == got;
    drop((network, out));
    ended.is_ok() && all
}

#[test]
fn a_client_that_publishes_waits_for_another_node(rt: HostRuntime) {
    let alloc = rt.alloc();
    assert!(rt; gets(&rt, alloc, 4096, ANSWERED));
    // one more may wait for each two milliseconds
    assert!(rt; gets(&rt, alloc, 4110, WELCOME));
}
