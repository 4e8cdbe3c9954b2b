//! A connection of a client.

ghost use Rattle.std.specs.Prelude.{◌≡◌, ℕ, List, [], ◌++◌, None, Some, true, false, IfOk, OnOk, OnErr, IsErrOf, ◌↔◌, is_some, option_map, slice_get};
ghost use Rattle.std.specs.Option.{option_copied};
ghost use Rattle.mqtt_packets.specs.Stream.{cut};
ghost use Rattle.node_work.specs.Held.Connections.{new_connection, fed};
ghost use Rattle.node_work.specs.Packets.{HaveSpellings};

use mqtt_fields::{LONGEST_PACKET, Text};
use mqtt_packets::{Fed, FeedFault, Framer};
use std::alloc::Global;
use std::marker::Model;

/// A connection: the bytes that wait for the rest of their packet, the client, once it is accepted, and how many bytes of PUBLISHes
/// it takes, where it was told before that.
#[derive(Drop)]
pub struct Connection {
    framer: Framer,
    client: Option<Text>,
    room: Option<u64>,
}

impl Model for Connection {
    ghost use Rattle.node_work.specs.View.{ConnectionView, coded_connection};

    ghost Value = { ConnectionView };

    ghost coded = { coded_connection };

    ghost view = { λ c. record { stream = c.framer; client = c.client; room = c.room } };
}

impl Connection {
    pub fn new(alloc: Global) -> Connection
        ensures { result ≡ new_connection }
    {
        Connection {
            framer: Framer::new(alloc, LONGEST_PACKET),
            client: None,
            room: None,
        }
    }

    /// The client, once it is accepted.
    pub fn client(&self) -> Option<&Text>
        ensures { option_copied result ≡ self.now.client }
    {
        self.client.as_ref()
    }

    /// How many bytes of PUBLISHes it takes, where it was told before its CONNECT.
    pub fn room(&self) -> Option<u64>
        ensures { result ≡ self.now.room }
    {
        self.room
    }

    /// The first byte of the packet that the stream is at.
    pub fn first(&self) -> Option<u8>
        ensures { result ≡ slice_get self.now.stream.rest 0 }
    {
        self.framer.first()
    }

    pub fn keep_room(&mut self, bytes: u64)
        ensures { self.new ≡ record self.old { room = Some bytes } }
    {
        self.room = Some(bytes);
    }

    pub fn accept(&mut self, client: Text)
        ensures { self.new ≡ record self.old { client = Some client } }
    {
        self.client = Some(client);
    }

    /// Takes in a piece of the stream.
    pub fn feed(&mut self, piece: &[u8]) -> Result<Fed, FeedFault>
        ensures stream { IfOk result (λ f. self.new ≡ record self.old { stream = fed self.old.stream piece.now }) }
        ensures packets { IfOk result (λ f. f.packets.items
            ≡ (cut self.old.stream.limit (self.old.stream.rest ++ piece.now)).packets) }
        ensures fault { IfOk result (λ f. f.fault
            ≡ (cut self.old.stream.limit (self.old.stream.rest ++ piece.now)).fault) }
        ensures spelled { IfOk result (λ f. HaveSpellings f.packets.items) }
        ensures sound { OnOk result (self.old.stream.failed ≡ false) }
        ensures failed { IsErrOf result FeedFault.Failed ↔ (self.old.stream.failed ≡ true) }
        ensures err { OnErr result (self.new ≡ self.old) }
    {
        packets_are_spelled(self.framer.rest(), piece);
        self.framer.feed(piece)
    }
}

/// The packets that are cut from bytes have a spelling each. This does nothing; its contract is a law.
fn packets_are_spelled(held: &[u8], piece: &[u8])
    ensures { (limit : ℕ) → HaveSpellings (cut limit (held.now ++ piece.now)).packets }
{}
