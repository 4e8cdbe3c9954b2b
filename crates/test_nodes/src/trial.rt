//! A client's path at a node whose rows refuse one call.

use crate::packets::{AGAIN, SUBSCRIBE};
use broker_node::{Event, EventKind};
use home_table::homes_of;
use mqtt_packets::Bytes;
use node_keeper::{Keeper, KeeperFault};
use row_store::{MemoryRows, RowFault};
use std::alloc::Global;
use std::process::Abort;
use trial_fakes::RefusingRows;

/// PUBLISH of `on` to `t` with QoS 1 and RETAIN.
const PUBLISH: &[u8] = &[0x33, 8, 0, 1, 0x74, 0, 7, 0, 0x6f, 0x6e];

/// PUBLISH of `on` to `u` with QoS 2, and the PUBREL that ends the exchange: what lasts of the client's session is as before.
const EXCHANGE: &[u8] = &[0x34, 8, 0, 1, 0x75, 0, 9, 0, 0x6f, 0x6e, 0x62, 2, 0, 9];

/// A node, the moment of its last event, and the connection of its client.
#[derive(Drop)]
pub struct Trial {
    alloc: Global,
    keeper: Keeper<RefusingRows>,
    at: u64,
    connection: u64,
}

fn opened(
    rt: &impl Abort,
    alloc: Global,
    rows: RefusingRows,
) -> Result<Keeper<RefusingRows>, RefusingRows> {
    let homes = homes_of(alloc, 1).expect(rt, "a table");
    match Keeper::open(alloc, rows, homes, 0) {
        Ok(keeper) => Ok(keeper),
        Err((_, rows)) => Err(rows),
    }
}

fn woken(rt: &impl Abort, alloc: Global, refused: u64) -> Keeper<RefusingRows> {
    match opened(
        rt,
        alloc,
        RefusingRows::new(MemoryRows::new(alloc), refused),
    ) {
        Ok(keeper) => keeper,
        Err(rows) => opened(rt, alloc, rows).ok().expect(rt, "a node"),
    }
}

impl Trial {
    /// A node without rows, of whose calls to the rows one is refused; where that is one of its opening, it is opened again.
    pub fn open(rt: &impl Abort, alloc: Global, refused: u64) -> Trial {
        Trial {
            alloc,
            keeper: woken(rt, alloc, refused),
            at: 0,
            connection: 0,
        }
    }

    /// The live subscriptions and the retained messages of the node.
    pub fn holdings(&self) -> (usize, usize) {
        let store = self.keeper.node().store();
        (
            store.subscriptions().live_count(),
            store.retained().messages(),
        )
    }

    /// Hands the node an event. Whether it was taken: it isn't where the rows refuse it, and it has no other fault.
    fn handle(&mut self, rt: &impl Abort, kind: EventKind) -> bool {
        self.at = self.at.saturating_add(1);
        let event = Event { at: self.at, kind };
        let fault = self.keeper.handle(&event).err();
        drop(event);
        let refused = fault == Some(KeeperFault::Rows(RowFault::Device));
        assert!(rt; refused || fault.is_none());
        !refused
    }

    fn send(&mut self, rt: &impl Abort, bytes: &[u8]) -> bool {
        let bytes = Bytes::from_slice(self.alloc, bytes).expect(rt, "memory");
        let connection = self.connection;
        self.handle(rt, EventKind::Piece { connection, bytes })
    }

    /// The client connects on a new connection.
    fn connect(&mut self, rt: &impl Abort) -> bool {
        self.connection = self.connection.saturating_add(1);
        let connection = self.connection;
        assert!(rt; self.handle(rt, EventKind::Opened { connection }));
        self.send(rt, AGAIN)
    }

    /// One step of the client's path. Whether it was taken.
    pub fn step(&mut self, rt: &impl Abort, step: usize) -> bool {
        let connection = self.connection;
        match step {
            0 => self.handle(rt, EventKind::Started),
            1 => self.connect(rt),
            2 => self.send(rt, SUBSCRIBE),
            3 => self.send(rt, PUBLISH),
            4 => self.send(rt, EXCHANGE),
            _ => self.handle(rt, EventKind::Closed { connection }),
        }
    }

    /// Whether the node has stopped, and answers so.
    fn has_stopped(&mut self) -> bool {
        let at = self.at;
        let kind = EventKind::Tick;
        let fault = self.keeper.handle(&Event { at, kind }).err();
        !self.keeper.is_up() && fault == Some(KeeperFault::Stopped)
    }

    /// The node has stopped, answers so, and is opened again, with what it held.
    pub fn reopen(&mut self, rt: &impl Abort, held: (usize, usize)) {
        assert!(rt; self.has_stopped());
        self.keeper.reopen().expect(rt, "a node");
        assert!(rt; self.holdings() == held);
    }
}
