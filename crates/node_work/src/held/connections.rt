//! The open connections of a node.

ghost use Rattle.std.specs.Prelude.{◌≡◌, List, ℕ, is_some, IfOk, OnOk, IfErr, None, Some, slice_get, option_and_then, Ok};
ghost use Rattle.std.specs.Option.{option_copied};
ghost use Rattle.std.specs.FinMap as map;
ghost use Rattle.node_work.specs.Held.Connections.{new_connection, changed, with_client, with_room};
ghost use Rattle.node_work.specs.Held.Feeding.{IsFed};
ghost use Rattle.node_work.specs.Packets.{CameSpelled};
ghost use Rattle.node_work.specs.declared.fault.NodeFault.TheVariants.{NoMemory};

use crate::fault::NodeFault;
use crate::held::connection::Connection;
use mqtt_fields::Text;
use mqtt_packets::{Fed, FeedFault};
use std::alloc::Global;
use std::collections::BTreeMap;
use std::marker::Model;

/// The open connections, by their numbers.
#[derive(Drop)]
pub struct Connections {
    table: BTreeMap<u64, Connection>,
}

impl Model for Connections {
    ghost use Rattle.std.specs.Coded.{coded_ℕ};
    ghost use Rattle.std.specs.Ordering.{nat_cmp};
    ghost use Rattle.std.specs.FinMap as map;
    ghost use Rattle.node_work.specs.View.{ConnectionView, coded_connection};

    ghost Value = { map.FinMap nat_cmp ConnectionView };

    ghost coded = { map.code coded_ℕ coded_connection };

    ghost view = { λ c. map.from_entries c.table.entries };
}

/// What a piece of a stream gave.
#[derive(Drop)]
pub enum Came {
    /// The connection isn't open.
    Nothing,
    /// Whole packets, and the fault after them.
    Packets(Fed),
    /// A fault had come before.
    Failed,
}

impl Connections {
    pub fn new(alloc: Global) -> Connections
        ensures { result ≡ map.empty }
    {
        Connections {
            table: BTreeMap::new(alloc),
        }
    }

    fn find(&self, connection: u64) -> Option<&Connection>
        ensures { option_copied result ≡ map.get self.now connection }
    {
        self.table.get(&connection)
    }

    /// Takes a connection out.
    fn take(&mut self, connection: u64) -> Option<Connection>
        ensures found { result ≡ map.get self.old connection }
        ensures left { self.new ≡ map.remove self.old connection }
    {
        self.table.remove(&connection)
    }

    fn put(&mut self, connection: u64, found: Connection) -> Result<(), NodeFault>
        ensures ok { OnOk result (self.new ≡ map.insert self.old connection found) }
        ensures fault { IfErr result (λ e. e ≡ NoMemory) }
    {
        self.table.insert(connection, found)?;
        Ok(())
    }

    pub fn is_open(&self, connection: u64) -> bool
        ensures { result ≡ is_some (map.get self.now connection) }
    {
        self.find(connection).is_some()
    }

    pub fn open(&mut self, alloc: Global, connection: u64) -> Result<(), NodeFault>
        ensures ok { OnOk result (self.new ≡ map.insert self.old connection new_connection) }
        ensures fault { IfErr result (λ e. e ≡ NoMemory) }
    {
        self.put(connection, Connection::new(alloc))
    }

    pub fn close(&mut self, connection: u64)
        ensures { self.new ≡ map.remove self.old connection }
    {
        let _closed = self.take(connection);
    }

    /// The client of a connection that was accepted.
    pub fn client_of(&self, connection: u64) -> Option<&Text>
        ensures { option_copied result ≡ option_and_then (λ c. c.client) (map.get self.now connection) }
    {
        match self.find(connection) {
            Some(found) => found.client(),
            None => None,
        }
    }

    /// How many bytes of PUBLISHes a connection takes, where it was told before its CONNECT.
    pub fn room_of(&self, connection: u64) -> Option<u64>
        ensures { result ≡ option_and_then (λ c. c.room) (map.get self.now connection) }
    {
        match self.find(connection) {
            Some(found) => found.room(),
            None => None,
        }
    }

    /// The first byte of the packet that a connection's stream is at.
    pub fn first(&self, connection: u64) -> Option<u8>
        ensures { result ≡ option_and_then (λ c. slice_get c.stream.rest 0) (map.get self.now connection) }
    {
        match self.find(connection) {
            Some(found) => found.first(),
            None => None,
        }
    }

    /// Takes in a piece of a connection's stream.
    pub fn feed(&mut self, connection: u64, piece: &[u8]) -> Result<Came, NodeFault>
        ensures idle { map.get self.old connection ≡ None → (result ≡ Ok Came.Nothing) × (self.new ≡ self.old) }
        ensures fed { IfOk result (λ came. IsFed self.old connection piece.now came self.new) }
        ensures spelled { IfOk result (λ came. CameSpelled came) }
        ensures fault { IfErr result (λ e. e ≡ NoMemory) }
    {
        let Some(found) = self.table.get_mut(&connection) else {
            return Ok(Came::Nothing);
        };
        match found.feed(piece) {
            Ok(fed) => Ok(Came::Packets(fed)),
            Err(FeedFault::Failed) => Ok(Came::Failed),
            Err(FeedFault::NoMemory) => Err(NodeFault::NoMemory),
        }
    }

    /// Keeps how many bytes of PUBLISHes an open connection takes.
    pub fn keep_room(&mut self, connection: u64, bytes: u64)
        ensures { self.new ≡ changed (with_room bytes) connection self.old }
    {
        let Some(found) = self.table.get_mut(&connection) else {
            return;
        };
        found.keep_room(bytes);
    }

    /// Gives an open connection its client.
    pub fn accept(&mut self, connection: u64, client: Text) -> Result<(), NodeFault>
        ensures ok { OnOk result (self.new ≡ changed (with_client client) connection self.old) }
        ensures fault { IfErr result (λ e. e ≡ NoMemory) }
    {
        match self.take(connection) {
            Some(mut found) => {
                found.accept(client);
                self.put(connection, found)
            }
            None => Ok(()),
        }
    }
}
