//! The sockets of nodes in one process.
ghost use Rattle.std.specs.Prelude.{◌≡◌, [], length, IfOk};
ghost use Rattle.script_loopback.specs.Hosts.{Listen};
ghost use Rattle.script_loopback.specs.Network.{Frames, Gives, Opens, back, forth, network, without_client, without_node};

use crate::carrying::carry;
use crate::fault::WireFault;
use crate::host::{Host, Pair, listen_all};
use crate::wire::{Wire, place_of, reach, remove};
use broker_sockets::Sockets;
use std::alloc::Global;

/// For each node a listener, and the connections that were accepted there: of clients by their number, and links of other nodes.
/// Both ends of each are here.
pub struct Wires<L: Drop, T: Drop> {
    alloc: Global,
    hosts: Vec<Host<L>>,
    clients: Vec<Wire<T>>,
    links: Vec<Wire<T>>,
}

impl<L: Drop, T: Drop> Drop for Wires<L, T> {
    fn drop(self) {
        let Wires {
            alloc: _,
            hosts: _,
            clients: _,
            links: _,
        } = self;
    }
}

impl<L: Drop, T: Drop> Wires<L, T> {
    /// For each of so many nodes a listener at a free port of this machine, and no connections.
    pub fn new<S: Sockets<Listener = L, Stream = T>>(
        alloc: Global,
        sockets: &mut S,
        nodes: u16,
    ) -> Result<Self, WireFault>
        ensures listeners { IfOk result (λ wires. Listen S.listens (network wires).hosts sockets.old sockets.new) }
        ensures each { IfOk result (λ wires. length (network wires).hosts ≡ nodes) }
        ensures clients { IfOk result (λ wires. (network wires).clients ≡ []) }
        ensures links { IfOk result (λ wires. (network wires).links ≡ []) }
    {
        Ok(Wires {
            alloc,
            hosts: listen_all(alloc, sockets, nodes)?,
            clients: Vec::new(alloc),
            links: Vec::new(alloc),
        })
    }

    /// Connects a client to a node, under a number, unless one is connected there under that number.
    pub fn open<S: Sockets<Listener = L, Stream = T>>(
        &mut self,
        sockets: &mut S,
        node: u16,
        connection: u64,
    ) -> Result<(), WireFault>
        ensures { Opens S.connects S.accepts node connection (sockets.old, network self.old) result (sockets.new, network self.new) }
    {
        reach(sockets, &self.hosts, &mut self.clients, node, connection)?;
        Ok(())
    }

    /// Closes both ends of a client's connection to a node.
    pub fn close(&mut self, node: u16, connection: u64)
        ensures { network self.new ≡ without_client node connection (network self.old) }
    {
        remove(&mut self.clients, node, connection);
    }

    /// Closes both ends of each connection of a client to a node, and of each link from it or to it.
    pub fn close_node(&mut self, node: u16)
        ensures { network self.new ≡ without_node node (network self.old) }
    {
        self.clients.retain(|wire| wire.node != node);
        self.links.retain(|wire| !wire.is_of(node));
    }

    /// What comes at a node of bytes that its client sends, which is as many; the bytes themselves where the client isn't
    /// connected.
    pub fn to_node<S: Sockets<Listener = L, Stream = T>>(
        &mut self,
        sockets: &mut S,
        node: u16,
        connection: u64,
        bytes: Vec<u8>,
    ) -> Result<Vec<u8>, WireFault>
        ensures { Gives S.reads S.writes forth node connection bytes (sockets.old, network self.old) result (sockets.new, network self.new) }
    {
        let Some(place) = place_of(&self.clients, node, connection) else {
            return Ok(bytes);
        };
        let Pair { dialled, accepted } = &mut self.clients[place].pair;
        carry(self.alloc, sockets, dialled, accepted, &bytes)
    }

    /// What comes at a client of bytes that a node sends it, which is as many; the bytes themselves where the client isn't
    /// connected.
    pub fn to_client<S: Sockets<Listener = L, Stream = T>>(
        &mut self,
        sockets: &mut S,
        node: u16,
        connection: u64,
        bytes: Vec<u8>,
    ) -> Result<Vec<u8>, WireFault>
        ensures { Gives S.reads S.writes back node connection bytes (sockets.old, network self.old) result (sockets.new, network self.new) }
    {
        let Some(place) = place_of(&self.clients, node, connection) else {
            return Ok(bytes);
        };
        let Pair { dialled, accepted } = &mut self.clients[place].pair;
        carry(self.alloc, sockets, accepted, dialled, &bytes)
    }

    /// What comes at a node of bytes that another one sends it, which is as many. The link is made where there is none.
    pub fn frame<S: Sockets<Listener = L, Stream = T>>(
        &mut self,
        sockets: &mut S,
        from: u16,
        to: u16,
        bytes: &[u8],
    ) -> Result<Vec<u8>, WireFault>
        ensures { Frames S.connects S.accepts S.reads S.writes from to bytes.now (sockets.old, network self.old) result (sockets.new, network self.new) }
    {
        let from = u64::from(from);
        let place = reach(sockets, &self.hosts, &mut self.links, to, from)?;
        let Pair { dialled, accepted } = &mut self.links[place].pair;
        carry(self.alloc, sockets, dialled, accepted, bytes)
    }
}
