//! A node that is opened from rows which no script leaves, and what it comes to then.

use crate::nodes::Rows;
use crate::recorded::RecordedRows;
use crate::trial::wants_memory;
use broker_node::{Event, EventKind};
use home_table::{HomeTable, homes_of};
use mqtt_packets::Bytes;
use node_keeper::{Keeper, KeeperFault};
use row_store::{Change, MemoryRows, Row, RowStore};
use std::alloc::Global;
use trial_refusals::{Call, Changing, Fault, Trial, ensure, try_changing};

/// From which rows node 1 is opened.
#[derive(Clone, Copy, PartialEq, Eq)]
pub enum Left {
    /// Those of one that has numbered its operations up to 2^62 - 1: its client's SUBSCRIBE lacks a number.
    LastNumber,
    /// Those of version 1: a subscription of `a`.
    Older,
}

/// Where the rows are.
#[derive(Clone, Copy, PartialEq, Eq)]
pub enum Store {
    Memory,
    Database,
}

/// A node that is to be opened.
#[derive(Clone, Copy)]
pub struct Node {
    left: Left,
    store: Store,
}

pub const NODES_LEFT: [(&str, Node); 4] = [
    ("a node at its last number, in memory", LAST_IN_MEMORY),
    (
        "a node at its last number, in a database",
        LAST_IN_A_DATABASE,
    ),
    ("a node of version 1, in memory", OLDER_IN_MEMORY),
    ("a node of version 1, in a database", OLDER_IN_A_DATABASE),
];

const LAST_IN_MEMORY: Node = Node {
    left: Left::LastNumber,
    store: Store::Memory,
};

const LAST_IN_A_DATABASE: Node = Node {
    left: Left::LastNumber,
    store: Store::Database,
};

const OLDER_IN_MEMORY: Node = Node {
    left: Left::Older,
    store: Store::Memory,
};

const OLDER_IN_A_DATABASE: Node = Node {
    left: Left::Older,
    store: Store::Database,
};

/// A row: its kind, owner, place and value.
type Plain = (u8, &'static [u8], &'static [u8], &'static [u8]);

/// The kinds of a mark and of a session.
const MARK: u8 = 1;

const SESSION: u8 = 2;

/// The one dot (1, 2^62 - 1), and the one dot (1, 1).
const LAST: &[u8] =
    b"\0\0\0\x01\0\x01\x3f\xff\xff\xff\xff\xff\xff\xff\x3f\xff\xff\xff\xff\xff\xff\xff";

const ONE: &[u8] = b"\0\0\0\x01\0\x01\0\0\0\0\0\0\0\x01\0\0\0\0\0\0\0\x01";

const LAST_ROWS: [Plain; 3] = [
    (MARK, b"", b"", b"\0\x03\0\x01\0\0\0\0\0\0\0\0"),
    (6, b"", b"\x01", LAST),
    (6, b"", b"\x02", LAST),
];

const OLDER_ROWS: [Plain; 4] = [
    (MARK, b"", b"", b"\0\x01\0\x01\0\0\0\0\0\0\0\0"),
    (4, b"a", b"\0\x01\0\0\0\0\0\0\0\x01", b"\0\x01t\0\0\0\0\0"),
    (6, b"", b"\x01", ONE),
    (6, b"", b"\x02", ONE),
];

/// CONNECT of `a`, and SUBSCRIBE to `t`.
const CONNECT: &[u8] = b"\x10\x0e\x00\x04MQTT\x05\x02\x00\x3c\x00\x00\x01a";

const SUBSCRIBE: &[u8] = b"\x82\x07\x00\x01\x00\x00\x01t\x00";

impl Left {
    fn rows(self) -> &'static [Plain] {
        match self {
            Left::LastNumber => &LAST_ROWS,
            Left::Older => &OLDER_ROWS,
        }
    }

    /// The fault at which the node ends.
    fn end(self) -> Option<KeeperFault> {
        match self {
            Left::LastNumber => Some(KeeperFault::NumbersAtEnd),
            Left::Older => None,
        }
    }

    /// How many subscriptions stand.
    fn stand(self) -> usize {
        match self {
            Left::LastNumber => 0,
            Left::Older => 1,
        }
    }
}

fn put(alloc: Global, plain: &Plain) -> Result<Change, Fault> {
    let (kind, owner, place, value) = *plain;
    let owner = Vec::from_slice(alloc, owner)?;
    let place = Vec::from_slice(alloc, place)?;
    let value = Vec::from_slice(alloc, value)?;
    Ok(Change::Put(Row {
        kind,
        owner,
        place,
        value,
    }))
}

fn puts(alloc: Global, rows: &[Plain]) -> Result<Vec<Change>, Fault> {
    let mut puts = Vec::new(alloc);
    for plain in rows {
        let put = put(alloc, plain)?;
        puts.push(put)?;
    }
    Ok(puts)
}

/// A store of rows, which is opened for the first time.
fn filled<R: Rows + Drop>(alloc: Global, changes: &[Change]) -> Result<R, Fault> {
    let Some(mut rows) = R::none(alloc) else {
        return Err(Fault::Other);
    };
    match rows.apply(changes) {
        Ok(()) => Ok(rows),
        Err(fault) => Err(Fault::from(fault)),
    }
}

fn add(events: &mut Vec<Event>, kind: EventKind) -> Result<(), Fault> {
    events.push(Event { at: 0, kind })?;
    Ok(())
}

fn add_piece(alloc: Global, events: &mut Vec<Event>, bytes: &[u8]) -> Result<(), Fault> {
    let bytes = Bytes::from_slice(alloc, bytes)?;
    add(
        events,
        EventKind::Piece {
            connection: 1,
            bytes,
        },
    )
}

/// The node starts, and `a` comes and subscribes.
fn events(alloc: Global) -> Result<Vec<Event>, Fault> {
    let mut events = Vec::new(alloc);
    add(&mut events, EventKind::Started)?;
    add(&mut events, EventKind::Opened { connection: 1 })?;
    add_piece(alloc, &mut events, CONNECT)?;
    add_piece(alloc, &mut events, SUBSCRIBE)?;
    Ok(events)
}

/// The rows of a node, and what it is handed.
#[derive(Drop)]
struct Opening<R> {
    left: Left,
    /// None where they were lost.
    rows: Option<R>,
    homes: HomeTable,
    events: Vec<Event>,
}

fn fault_of(fault: KeeperFault) -> Fault {
    if wants_memory(fault) {
        Fault::NoMemory
    } else {
        Fault::Other
    }
}

/// The node of these rows, of a store that is opened again.
fn opened<R: Rows + Drop>(
    alloc: Global,
    mut rows: R,
    homes: &HomeTable,
) -> Result<Keeper<R>, (Fault, R)> {
    if !rows.open_again() {
        return Err((Fault::NoMemory, rows));
    }
    let Ok(homes) = homes.copy() else {
        return Err((Fault::NoMemory, rows));
    };
    if homes.nodes() <= 1 {
        return Err((Fault::Other, rows));
    }
    match Keeper::open(alloc, rows, homes, 1) {
        Ok(keeper) => Ok(keeper),
        Err((fault, rows)) => Err((fault_of(fault), rows)),
    }
}

/// The fault of the first event that has one.
fn first_fault<R: RowStore>(keeper: &mut Keeper<R>, events: &[Event]) -> Option<KeeperFault> {
    for event in events {
        let fault = keeper.handle(event).err();
        if fault.is_some() {
            return fault;
        }
    }
    None
}

/// Whether a node that has had a fault answers that it has stopped.
fn has_stopped<R: RowStore>(keeper: &mut Keeper<R>) -> bool {
    let tick = Event {
        at: 0,
        kind: EventKind::Tick,
    };
    let answer = keeper.handle(&tick).err();
    drop(tick);
    answer == Some(KeeperFault::Stopped)
}

/// The node is handed these events, the last of which comes to this end.
fn serve<R: RowStore>(keeper: &mut Keeper<R>, left: Left, events: &[Event]) -> Result<(), Fault> {
    let stand = keeper.node().store().subscriptions().live_count();
    ensure(stand == left.stand())?;
    let end = match left {
        Left::LastNumber => first_fault(keeper, events),
        Left::Older => None,
    };
    ensure(end.is_none() || has_stopped(keeper))?;
    match end {
        Some(fault) if wants_memory(fault) => Err(Fault::NoMemory),
        _ => ensure(end == left.end()),
    }
}

/// How many of the rows aren't a session's, where their mark is of one of these versions.
fn count_marked(rows: &[Row], versions: &[u8]) -> Option<usize> {
    let mark = rows.first()?;
    let version = mark.value.get(1)?;
    if mark.kind != MARK || !versions.contains(version) {
        return None;
    }
    let mut count: usize = 0;
    for row in rows {
        if row.kind != SESSION {
            count = count.saturating_add(1);
        }
    }
    Some(count)
}

impl<R: Rows + Drop> Opening<R> {
    /// Whether the store, which is opened again, has all rows under a mark of one of these versions.
    fn is_left(&mut self, versions: &[u8]) -> bool {
        let Some(rows) = &mut self.rows else {
            return false;
        };
        if !rows.open_again() {
            return false;
        }
        match rows.load() {
            Ok(found) => {
                let count = count_marked(&found, versions);
                drop(found);
                count == Some(self.left.rows().len())
            }
            Err(_) => false,
        }
    }
}

impl<R: Rows + Drop> Changing for Opening<R> {
    fn make(&mut self, alloc: Global) -> Result<(), Fault> {
        let Some(rows) = self.rows.take() else {
            return Err(Fault::Other);
        };
        match opened(alloc, rows, &self.homes) {
            Ok(mut keeper) => {
                let served = serve(&mut keeper, self.left, &self.events);
                self.rows = Some(keeper.into_rows());
                served
            }
            Err((fault, rows)) => {
                self.rows = Some(rows);
                Err(fault)
            }
        }
    }

    fn is_as_before(&mut self) -> bool {
        self.is_left(&[1, 3])
    }

    fn is_made(&mut self) -> bool {
        self.is_left(&[3])
    }
}

fn opening_of<R: Rows + Drop>(alloc: Global, left: Left) -> Result<Opening<R>, Fault> {
    let changes = puts(alloc, left.rows())?;
    let events = events(alloc)?;
    let Some(homes) = homes_of(alloc, 2) else {
        return Err(Fault::Other);
    };
    let rows = Some(filled(alloc, &changes)?);
    Ok(Opening {
        left,
        rows,
        homes,
        events,
    })
}

fn attempt<R: Rows + Drop>(alloc: Global, number: usize, left: Left) -> Trial {
    let mut opening: Opening<R> = opening_of(alloc, left)?;
    let tried = try_changing(alloc, number, &mut opening);
    drop(opening);
    tried
}

impl Call for Node {
    fn attempt(&self, alloc: Global, number: usize) -> Trial {
        match self.store {
            Store::Memory => attempt::<MemoryRows>(alloc, number, self.left),
            Store::Database => attempt::<RecordedRows>(alloc, number, self.left),
        }
    }
}
