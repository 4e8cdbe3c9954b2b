//! Three events that change rows, whose changes are made at once: a client connects, subscribes and publishes.
ghost use Rattle.std.specs.Prelude.{◌<◌, length};

use broker_node::{Event, EventKind};
use home_table::HomeTable;
use mqtt_packets::Bytes;
use node_keeper::{BatchKeeper, Keeper, KeeperFault};
use row_store::{MemoryRows, RowFault};
use std::alloc::Global;
use std::process::Abort;
use trial_fakes::RefusingRows;

/// A table of one node.
const HOMES: &str =
    "[[node]]\nname = \"n0\"\naddress = \"127.0.0.1:1883\"\nbridge = \"127.0.0.1:2883\"\n";

/// CONNECT of `a`, whose session stays for 100 s; SUBSCRIBE to `t`, at most QoS 0; PUBLISH of `on` to `t` with QoS 1 and RETAIN.
const PACKETS: [&[u8]; 3] = [
    b"\x10\x13\x00\x04MQTT\x05\x00\x00\x3c\x05\x11\x00\x00\x00\x64\x00\x01a",
    b"\x82\x07\x00\x01\x00\x00\x01t\x00",
    b"\x33\x08\x00\x01t\x00\x07\x00on",
];

/// What of a node's opening and of a first commit the rows are asked: they load, put the mark, load, and change.
const FIRST_COMMIT: u64 = 4;

fn table(rt: &impl Abort, alloc: Global) -> HomeTable
    ensures { 0 < length result.nodes }
{
    let homes = HomeTable::parse(alloc, HOMES).expect(rt, "a table");
    assert!(rt; homes.nodes() > 0);
    homes
}

/// The node of these rows.
fn opened(rt: &impl Abort, alloc: Global, rows: RefusingRows) -> Keeper<RefusingRows> {
    let keeper = Keeper::open(alloc, rows, table(rt, alloc), 0);
    keeper.ok().expect(rt, "a node")
}

/// How many outputs the node gives for an event, or its fault.
fn decide(batch: &mut BatchKeeper<RefusingRows>, kind: EventKind) -> Result<usize, KeeperFault> {
    let event = Event { at: 0, kind };
    let outputs = batch.decide(&event)?;
    Ok(outputs.len())
}

fn send(rt: &impl Abort, alloc: Global, batch: &mut BatchKeeper<RefusingRows>, bytes: &[u8]) {
    let connection = 1;
    let bytes = Bytes::from_slice(alloc, bytes).expect(rt, "memory");
    let given = decide(batch, EventKind::Piece { connection, bytes });
    assert!(rt; given.expect(rt, "outputs") > 0);
}

/// A node that has decided the three events, over rows that refuse the call of this number.
fn decided(rt: &impl Abort, alloc: Global, refused: u64) -> BatchKeeper<RefusingRows> {
    let rows = RefusingRows::new(MemoryRows::new(alloc), refused);
    let mut batch = BatchKeeper::new(alloc, opened(rt, alloc, rows));
    let connection = 1;
    for kind in [EventKind::Started, EventKind::Opened { connection }] {
        assert!(rt; decide(&mut batch, kind) == Ok(0));
    }
    for bytes in PACKETS {
        send(rt, alloc, &mut batch, bytes);
    }
    batch
}

/// How often rows were to be changed, the opening's mark among them; and how many live subscriptions and retained messages a node has that
/// is opened from them.
fn left(rt: &impl Abort, alloc: Global, batch: BatchKeeper<RefusingRows>) -> (u64, (usize, usize)) {
    let rows = batch.into_rows();
    let writes = rows.writes();
    let keeper = opened(rt, alloc, rows);
    let store = keeper.node().store();
    let held = (
        store.subscriptions().live_count(),
        store.retained().messages(),
    );
    drop(keeper);
    (writes, held)
}

#[test]
fn three_events_are_written_by_one_call(rt: HostRuntime) {
    let alloc = rt.alloc();
    for (commits, end) in [(0, (1, (0, 0))), (1, (2, (1, 1))), (2, (2, (1, 1)))] {
        let mut batch = decided(&rt, alloc, 0);
        for _ in 0..commits {
            assert!(rt; batch.commit() == Ok(()));
        }
        assert_eq!(rt; left(&rt, alloc, batch), end, "{commits} commits");
    }
}

#[test]
fn rows_that_refuse_a_commit_stop_the_node_and_stay(rt: HostRuntime) {
    let alloc = rt.alloc();
    let mut batch = decided(&rt, alloc, FIRST_COMMIT);
    assert!(rt; batch.commit() == Err(KeeperFault::Rows(RowFault::Device)));
    assert!(rt; !batch.node().is_up());
    assert!(rt; decide(&mut batch, EventKind::Tick) == Err(KeeperFault::Stopped));
    assert!(rt; batch.commit() == Ok(()));
    assert_eq!(rt; left(&rt, alloc, batch), (2, (0, 0)));
}

#[test]
fn a_crash_leaves_nothing_or_all_of_the_events(rt: HostRuntime) {
    let alloc = rt.alloc();
    // before the commit, and after it
    for (commits, end) in [(0, (1, (0, 0))), (1, (2, (1, 1)))] {
        let mut batch = decided(&rt, alloc, 0);
        for _ in 0..commits {
            assert!(rt; batch.commit() == Ok(()));
        }
        batch.crash();
        assert!(rt; !batch.node().is_up());
        assert!(rt; batch.commit() == Ok(()));
        assert_eq!(rt; left(&rt, alloc, batch), end, "{commits} commits");
    }
}
