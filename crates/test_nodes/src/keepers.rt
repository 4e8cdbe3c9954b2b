//! A node of a cluster of two with its rows in memory, and what it is handed.
ghost use Rattle.std.specs.Prelude.{◌<◌};

use broker_node::{Event, EventKind, Output};
use home_table::homes_of;
use mqtt_packets::Bytes;
use node_keeper::{Keeper, KeeperFault};
use row_store::MemoryRows;
use std::alloc::Global;
use std::process::Abort;

/// The node of this number, opened from these rows.
pub fn opened(rt: &impl Abort, alloc: Global, rows: MemoryRows, id: u16) -> Keeper<MemoryRows>
    requires { id < 2 }
{
    let homes = homes_of(alloc, 2).expect(rt, "a table");
    let opened = Keeper::open(alloc, rows, homes, id);
    opened.ok().expect(rt, "a node")
}

/// How many outputs an event comes to.
pub fn outputs(rt: &impl Abort, keeper: &mut Keeper<MemoryRows>, kind: EventKind) -> usize {
    let event = Event { at: 0, kind };
    let outputs = keeper.handle(&event).expect(rt, "no fault");
    drop(event);
    outputs.len()
}

/// The bytes of the packets and frames that go out.
fn add_bytes(rt: &impl Abort, outputs: &[Output], bytes: &mut Vec<u8>) {
    for output in outputs {
        let given = match output {
            Output::Send { bytes: packet, .. } => packet.as_slice(),
            Output::Frame { frame } => frame.bytes.as_slice(),
            Output::Close { .. } => &[],
        };
        bytes.extend_from_slice(given).expect(rt, "memory");
    }
}

/// The bytes of the packets and frames that an event comes to, one after the other.
pub fn sent(
    rt: &impl Abort,
    alloc: Global,
    keeper: &mut Keeper<MemoryRows>,
    kind: EventKind,
) -> Vec<u8> {
    let event = Event { at: 0, kind };
    let outputs = keeper.handle(&event).expect(rt, "no fault");
    drop(event);
    let mut bytes = Vec::new(alloc);
    add_bytes(rt, &outputs, &mut bytes);
    drop(outputs);
    bytes
}

/// The fault of an event, if it has one.
pub fn fault(keeper: &mut Keeper<MemoryRows>, kind: EventKind) -> Option<KeeperFault> {
    let event = Event { at: 0, kind };
    let fault = keeper.handle(&event).err();
    drop(event);
    fault
}

/// Bytes of a client.
pub fn piece(rt: &impl Abort, alloc: Global, connection: u64, bytes: &[u8]) -> EventKind {
    let bytes = Bytes::from_slice(alloc, bytes).expect(rt, "memory");
    EventKind::Piece { connection, bytes }
}

/// A frame of another node.
pub fn frame(rt: &impl Abort, alloc: Global, bytes: &[u8]) -> EventKind {
    let bytes = Bytes::from_slice(alloc, bytes).expect(rt, "memory");
    EventKind::Frame { bytes }
}

/// The node has started, and its client `a` is connected.
pub fn connect(rt: &impl Abort, alloc: Global, keeper: &mut Keeper<MemoryRows>, bytes: &[u8]) {
    assert_eq!(rt; outputs(rt, keeper, EventKind::Started), 0);
    let opened = EventKind::Opened { connection: 1 };
    assert_eq!(rt; outputs(rt, keeper, opened), 0);
    assert_eq!(rt; outputs(rt, keeper, piece(rt, alloc, 1, bytes)), 1);
}
