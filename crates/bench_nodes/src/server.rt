//! A node, alone or one of two, and its clients.

ghost use Rattle.std.specs.Prelude.{◌<◌, length, IfOk};

use crate::bytes::{connect, no_filters, push_filter, subscribe};
use bench_clock::{Failure, ensure};
use broker_node::{Event, EventKind, Frame, Node, Outcome, Output};
use home_table::HomeTable;
use mqtt_packets::Bytes;
use std::alloc::Global;

/// The table of homes of one node.
const ONE: &str =
    "[[node]]\nname = \"n0\"\naddress = \"127.0.0.1:1883\"\nbridge = \"127.0.0.1:2883\"\n";

/// That of two nodes: each has the clients whose names begin with its number.
const TWO: &str =
    "[[node]]\nname = \"n0\"\naddress = \"127.0.0.1:1883\"\nbridge = \"127.0.0.1:2883\"\n\
                   [[node]]\nname = \"n1\"\naddress = \"127.0.0.1:1884\"\nbridge = \"127.0.0.1:2884\"\n\
                   [[home]]\nprefix = \"0\"\nnode = \"n0\"\n[[home]]\nprefix = \"1\"\nnode = \"n1\"\n";

/// A node, and the moment of its last step: each step is a millisecond after the one before.
#[derive(Drop)]
pub struct Server {
    alloc: Global,
    node: Box<Node>,
    id: u16,
    at: u64,
}

// The table, if it has a node of this number.
fn homes(alloc: Global, table: &str, id: u16) -> Result<HomeTable, Failure>
    ensures { IfOk result (λ homes. id < length homes.nodes) }
{
    match HomeTable::parse(alloc, table) {
        Ok(homes) if id < homes.nodes() => Ok(homes),
        _ => Err(Failure::Answer),
    }
}

fn open(alloc: Global, table: &str, id: u16) -> Result<Node, Failure> {
    let homes = homes(alloc, table, id)?;
    match Node::open(alloc, &[], homes, id) {
        Ok(node) => Ok(node),
        Err(_) => Err(Failure::Memory),
    }
}

// A node that has not started.
fn closed(alloc: Global, table: &str, id: u16) -> Result<Server, Failure> {
    let node = Box::new(alloc, open(alloc, table, id)?)?;
    Ok(Server {
        alloc,
        node,
        id,
        at: 0,
    })
}

fn started(alloc: Global, table: &str, id: u16) -> Result<Server, Failure> {
    let mut server = closed(alloc, table, id)?;
    drop(server.step(EventKind::Started)?);
    Ok(server)
}

impl Server {
    /// A node that is alone and has started, without clients.
    pub fn start(alloc: Global) -> Result<Server, Failure> {
        started(alloc, ONE, 0)
    }

    /// One of two nodes, which has started, without clients.
    pub fn start_of_two(alloc: Global, id: u16) -> Result<Server, Failure> {
        started(alloc, TWO, id)
    }

    /// Its number.
    pub fn id(&self) -> u16 {
        self.id
    }

    pub fn step(&mut self, kind: EventKind) -> Result<Outcome, Failure> {
        self.at = self.at.saturating_add(1);
        let event = Event { at: self.at, kind };
        let result = self.node.step(&event);
        drop(event);
        match result {
            Ok(outcome) => Ok(outcome),
            Err(_) => Err(Failure::Answer),
        }
    }

    /// A piece comes on a connection.
    pub fn take(&mut self, connection: u64, piece: &[u8]) -> Result<Outcome, Failure> {
        let bytes = Bytes::from_slice(self.alloc, piece)?;
        self.step(EventKind::Piece { connection, bytes })
    }

    /// The bytes of a frame come from the other node.
    pub fn hear(&mut self, frame: &Frame) -> Result<Outcome, Failure> {
        let bytes = frame.bytes.copy(self.alloc)?;
        self.step(EventKind::Frame { bytes })
    }

    /// The bytes of a frame come from the other node, and nothing goes out.
    pub fn note(&mut self, frame: &Frame) -> Result<(), Failure> {
        let outcome = self.hear(frame)?;
        let sent = outcome.outputs.len();
        drop(outcome);
        ensure(sent == 0)
    }

    /// A piece comes on a connection, and so many outputs go out.
    pub fn give(&mut self, connection: u64, piece: &[u8], outputs: usize) -> Result<(), Failure> {
        let outcome = self.take(connection, piece)?;
        let sent = outcome.outputs.len();
        drop(outcome);
        ensure(sent == outputs)
    }

    fn open(&mut self, connection: u64) -> Result<(), Failure> {
        let outcome = self.step(EventKind::Opened { connection })?;
        let sent = outcome.outputs.len();
        drop(outcome);
        ensure(sent == 0)
    }

    /// A client connects on a connection, whose number is in its name after the node's.
    pub fn connect(&mut self, connection: u64) -> Result<(), Failure> {
        self.open(connection)?;
        let client = format!(in self.alloc; "{}client{connection}", self.id)?;
        let packet = connect(self.alloc, client.as_str())?;
        self.give(connection, &packet, 1)
    }

    /// The client of a connection subscribes to the filters of this SUBSCRIBE.
    pub fn subscribe_all(&mut self, connection: u64, rest: &[u8]) -> Result<(), Failure> {
        let packet = subscribe(self.alloc, rest)?;
        self.give(connection, &packet, 1)
    }

    /// The client of a connection subscribes to a filter.
    pub fn subscribe(&mut self, connection: u64, filter: &str, qos: u8) -> Result<(), Failure> {
        let mut rest = no_filters(self.alloc)?;
        push_filter(&mut rest, filter, qos)?;
        self.subscribe_all(connection, &rest)
    }
}

/// The packet that went out on a connection.
pub fn sent(outcome: &Outcome, to: u64) -> Option<&[u8]> {
    for output in &outcome.outputs {
        if let Output::Send { connection, bytes } = output {
            if *connection == to {
                return Some(bytes.as_slice());
            }
        }
    }
    None
}

/// The first frame that went out.
pub fn released(outcome: &Outcome) -> Option<&Frame> {
    for output in &outcome.outputs {
        if let Output::Frame { frame } = output {
            return Some(frame);
        }
    }
    None
}
