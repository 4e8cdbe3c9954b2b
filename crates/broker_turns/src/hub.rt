//! A turn over clients and other nodes, and turns one after another.
ghost use Rattle.std.specs.Prelude.{◌≡◌, ◌<◌, ◌≤◌, ℕ, length, replicate, true, OnOk, IfOk, IfErr, None};
ghost use Rattle.slab.specs.Slab.{get, slab_len};
ghost use Rattle.broker_turns.specs.Bridging.{near, place, reach, search};
ghost use Rattle.broker_turns.specs.Broken.{IsAskedOnce, IsBrokenOff, IsBrokenTurn, IsUndecided, IsUngiven};
ghost use Rattle.broker_turns.specs.Connections.{world};
ghost use Rattle.broker_turns.specs.Pacing.{IsBegun};
ghost use Rattle.broker_turns.specs.Serving.{IsServed, IsStopped, IsTurns, IsUnserved};
ghost use Rattle.broker_turns.specs.Turns.{IsDecided, IsEither, IsFound, IsGivenOut, IsStart, IsTakenIn, IsTurn, site};

use crate::clients::Clients;
use crate::lines::Line;
use crate::links::{accept_links, dial_peers, read_links, read_peers, ship_all, write_links};
use crate::numbers::united;
use crate::pace::{MOST_READ, Pace};
use crate::setting::Setting;
use crate::turn::{TurnFault, accept_some, handle_event, make_rooms, read_all, settle, write_all};
use broker_sockets::{BridgeHandler, Clock, Event, EventKind, Readiness, Ready, Sockets};
use slab::Slab;
use std::alloc::{AllocError, Global};

/// The clients of a listener, and the links to and from other nodes.
pub struct Hub<L: Drop, T: Drop> {
    alloc: Global,
    setting: Setting<L>,
    clients: Clients<T>,
    dialled: Vec<Option<Line<T>>>,
    accepted: Slab<Line<T>>,
    /// What is to be asked in the next turn.
    ready: Ready,
    /// When peers were dialled last.
    sought: Vec<Option<u64>>,
    buffer: Vec<u8>,
    /// How much the next turn reads from a client's socket.
    pace: Pace,
    ghost whole: { length buffer.items ≡ 65536 },
    ghost one_each: { length setting.peers.items ≡ length dialled.items },
    ghost sought_each: { length setting.peers.items ≡ length sought.items },
    ghost few: { length dialled.items < 65536 },
}

// written out, so that what holds a hub proves one call where the hub ends
impl<L: Drop, T: Drop> Drop for Hub<L, T> {
    fn drop(self) {
        let Hub {
            alloc: _alloc,
            setting: _setting,
            clients: _clients,
            dialled: _dialled,
            accepted: _accepted,
            ready: _ready,
            sought: _sought,
            buffer: _buffer,
            pace: _,
        } = self;
    }
}

/// Accepts clients and links where some may have come, reads what is ready, and tells what may have more.
fn take_in<S: Readiness, H: BridgeHandler>(
    alloc: Global,
    setting: &Setting<S::Listener>,
    ready: &Ready,
    clients: &mut Clients<S::Stream>,
    dialled: &mut [Option<Line<S::Stream>>],
    accepted: &mut Slab<Line<S::Stream>>,
    buffer: &mut [u8],
    most: usize,
    sockets: &mut S,
    handler: &mut H,
    at: u64,
) -> Result<Ready, TurnFault<H::Fault>>
    requires buffer { length buffer.old ≡ 65536 }
    requires most { most ≤ 65536 }
    ensures ok { IfOk result (λ more. IsTakenIn S.accepts S.watches S.reads H.handles H.hears setting.now at ready.now
        (place sockets.old (near handler.old clients.old.slab dialled.old) accepted.old) more
        (place sockets.new (near handler.new clients.new.slab dialled.new) accepted.new)) }
    ensures fault { IfErr result (IsBrokenOff (IsAskedOnce S.accepts S.watches S.connects S.reads) H.handles H.hears H.refuses H.declines at sockets.old handler.old sockets.new handler.new) }
{
    let asked = ready.listeners;
    let listener = &setting.listener;
    let came = accept_some(alloc, clients, listener, sockets, handler, at, asked)?;
    let linked = accept_links(alloc, accepted, &setting.bridge, sockets, asked)?;
    let keys = &ready.clients;
    let piece = &mut buffer[..most];
    let clients_left = read_all(alloc, clients, piece, sockets, handler, at, keys)?;
    let keys = &ready.links;
    let links = read_links(
        alloc, clients, dialled, accepted, buffer, sockets, handler, at, keys,
    )?;
    let keys = &ready.peers;
    let peers = read_peers(alloc, clients, dialled, buffer, sockets, handler, at, keys)?;
    Ok(Ready {
        listeners: came || linked,
        clients: clients_left,
        links,
        peers,
    })
}

/// Dials peers that have no link, tells the handler that time has passed, asks it for more, tells it of each connection that takes more how
/// much it takes, and lets it settle.
fn decide<S: Readiness, H: BridgeHandler>(
    alloc: Global,
    setting: &Setting<S::Listener>,
    clients: &mut Clients<S::Stream>,
    dialled: &mut [Option<Line<S::Stream>>],
    sought: &mut [Option<u64>],
    sockets: &mut S,
    handler: &mut H,
    at: u64,
) -> Result<(), TurnFault<H::Fault>>
    requires one_each { length setting.now.peers.items ≡ length dialled.old }
    requires sought_each { length setting.now.peers.items ≡ length sought.old }
    requires few { length dialled.old < 65536 }
    ensures ok { OnOk result (IsDecided S.watches S.connects H.handles H.hears H.settles setting.now at
        (search sockets.old (near handler.old clients.old.slab dialled.old) sought.old)
        (search sockets.new (near handler.new clients.new.slab dialled.new) sought.new)) }
    ensures fault { IfErr result (IsUndecided S.accepts S.watches S.connects S.reads H.handles H.hears H.refuses H.declines H.stops setting.now at
        (search sockets.old (near handler.old clients.old.slab dialled.old) sought.old)
        (search sockets.new (near handler.new clients.new.slab dialled.new) sought.new)) }
{
    let peers = &setting.peers;
    dial_peers(alloc, clients, dialled, sought, peers, sockets, handler, at)?;
    let kind = EventKind::Tick;
    handle_event(clients, handler, Event { at, kind })?;
    ship_all(clients, dialled, handler, at)?;
    make_rooms(alloc, clients, handler, at)?;
    settle(handler)
}

/// Writes to each client for which something is due, and to each link that was dialled.
fn give_out<S: Sockets, H: BridgeHandler>(
    alloc: Global,
    setting: &Setting<S::Listener>,
    clients: &mut Clients<S::Stream>,
    dialled: &mut [Option<Line<S::Stream>>],
    sockets: &mut S,
    handler: &mut H,
    at: u64,
) -> Result<(), TurnFault<H::Fault>>
    requires { length setting.now.peers.items ≡ length dialled.old }
    ensures ok { OnOk result (IsGivenOut S.writes H.handles H.settles setting.now at
        (reach sockets.old (near handler.old clients.old.slab dialled.old))
        (reach sockets.new (near handler.new clients.new.slab dialled.new))) }
    ensures fault { IfErr result (IsUngiven S.writes H.handles H.hears H.settles H.refuses H.declines H.stops at
        (world sockets.old handler.old clients.old.slab)
        (world sockets.new handler.new clients.new.slab)) }
{
    let due = clients.due(alloc)?;
    write_all(clients, sockets, handler, at, &due)?;
    write_links(dialled, sockets);
    Ok(())
}

/// What either tells.
fn joined(found: Ready, more: &Ready) -> Result<Ready, AllocError>
    ensures { IfOk result (λ all. IsEither found more.now all) }
{
    let Ready {
        listeners,
        clients,
        links,
        peers,
    } = found;
    Ok(Ready {
        listeners: listeners || more.listeners,
        clients: united(clients, &more.clients)?,
        links: united(links, &more.links)?,
        peers: united(peers, &more.peers)?,
    })
}

/// What is to be asked in the next turn: what may have something, as the network tells, and what may have more.
fn look<S: Readiness>(alloc: Global, sockets: &mut S, more: &Ready) -> Result<Ready, AllocError>
    ensures { IfOk result (λ ready. IsFound S.finds sockets.old more.now ready sockets.new) }
{
    let found = sockets.ready(alloc)?;
    joined(found, more)
}

/// One turn, in the order of its phases.
fn make_turn<S: Readiness, H: BridgeHandler>(
    alloc: Global,
    setting: &Setting<S::Listener>,
    clients: &mut Clients<S::Stream>,
    dialled: &mut [Option<Line<S::Stream>>],
    accepted: &mut Slab<Line<S::Stream>>,
    ready: &mut Ready,
    sought: &mut [Option<u64>],
    buffer: &mut [u8],
    most: usize,
    sockets: &mut S,
    handler: &mut H,
    at: u64,
) -> Result<(), TurnFault<H::Fault>>
    requires buffer { length buffer.old ≡ 65536 }
    requires most { most ≤ 65536 }
    requires one_each { length setting.now.peers.items ≡ length dialled.old }
    requires sought_each { length setting.now.peers.items ≡ length sought.old }
    requires few { length dialled.old < 65536 }
    ensures ok { OnOk result (IsTurn S.accepts S.watches S.connects S.reads S.writes S.finds H.handles H.hears H.settles setting.now at
        (site (place sockets.old (near handler.old clients.old.slab dialled.old) accepted.old) ready.old sought.old)
        (site (place sockets.new (near handler.new clients.new.slab dialled.new) accepted.new) ready.new sought.new)) }
    ensures fault { IfErr result (IsBrokenTurn S.accepts S.watches S.connects S.reads S.writes H.handles H.hears H.settles H.refuses H.declines H.stops setting.now at
        (site (place sockets.old (near handler.old clients.old.slab dialled.old) accepted.old) ready.old sought.old) sockets.new handler.new) }
{
    let more = take_in(
        alloc, setting, ready, clients, dialled, accepted, buffer, most, sockets, handler, at,
    )?;
    decide(
        alloc, setting, clients, dialled, sought, sockets, handler, at,
    )?;
    give_out(alloc, setting, clients, dialled, sockets, handler, at)?;
    *ready = look(alloc, sockets, &more)?;
    Ok(())
}

/// So many peers without a link, which were never dialled.
fn none_of<V: Drop>(alloc: Global, count: usize) -> Result<Vec<Option<V>>, AllocError>
    ensures { IfOk result (λ places. places.items ≡ replicate count None) }
{
    let mut places = Vec::new(alloc);
    for _ in 0..count {
        places.push(None)?;
    }
    Ok(places)
}

impl<L: Drop, T: Drop> Hub<L, T> {
    /// A hub with no clients and no links yet, which has dialled nobody and begins with its listeners.
    pub fn new(alloc: Global, setting: Setting<L>) -> Result<Self, AllocError>
        requires { length setting.peers.items < 65536 }
        ensures none { IfOk result (λ hub. (key : ℕ) → get hub.clients.slab key ≡ None) }
        ensures no_links { IfOk result (λ hub. (key : ℕ) → get hub.accepted key ≡ None) }
        ensures not_dialled { IfOk result (λ hub. hub.dialled.items ≡ replicate (length setting.peers.items) None) }
        ensures not_sought { IfOk result (λ hub. hub.sought.items ≡ replicate (length setting.peers.items) None) }
        ensures listens { IfOk result (λ hub. hub.ready.listeners ≡ true) }
        ensures setting { IfOk result (λ hub. hub.setting ≡ setting) }
    {
        let dialled = none_of(alloc, setting.peers.len())?;
        let sought = none_of(alloc, setting.peers.len())?;
        Ok(Hub {
            alloc,
            setting,
            clients: Clients::new(alloc),
            dialled,
            accepted: Slab::new(alloc),
            ready: Ready::of_listeners(alloc, true),
            sought,
            buffer: vec![in alloc; 0; MOST_READ]?,
            pace: Pace::new(),
        })
    }

    /// How many sockets of clients are open.
    pub fn clients(&self) -> usize
        ensures { result ≡ slab_len self.now.clients.slab }
    {
        self.clients.len()
    }

    /// One turn at a moment in milliseconds. Clients are accepted, and links of other nodes, where some may have come; clients
    /// and links that may have something are read. Peers without a link are dialled; the handler is told that time has passed,
    /// asked for more for each peer on whose link nothing waits, and told how much each connection takes that takes more; and it settles. Each
    /// client for which something is due is written to, and each link that was dialled on which something waits. Then the network tells
    /// what may have something, which the next turn asks, for which it may wait a little.
    ///
    /// After a fault, the handler's or `NoMemory`, nothing is said of the hub. What the handler was told until then, and that nobody was sent what it gave out since
    /// it settled last, is said (`IsBrokenTurn`).
    pub fn turn<S: Readiness<Listener = L, Stream = T>, H: BridgeHandler>(
        &mut self,
        sockets: &mut S,
        handler: &mut H,
        at: u64,
    ) -> Result<(), TurnFault<H::Fault>>
        ensures ok { OnOk result (IsTurn S.accepts S.watches S.connects S.reads S.writes S.finds H.handles H.hears H.settles self.old.setting at
            (site (place sockets.old (near handler.old self.old.clients.slab self.old.dialled.items) self.old.accepted) self.old.ready self.old.sought.items)
            (site (place sockets.new (near handler.new self.new.clients.slab self.new.dialled.items) self.new.accepted) self.new.ready self.new.sought.items)) }
        ensures setting { OnOk result (self.new.setting ≡ self.old.setting) }
        ensures pace { IsBegun at self.old.pace self.new.pace }
        ensures fault { IfErr result (IsBrokenTurn S.accepts S.watches S.connects S.reads S.writes H.handles H.hears H.settles H.refuses H.declines H.stops self.old.setting at
            (site (place sockets.old (near handler.old self.old.clients.slab self.old.dialled.items) self.old.accepted) self.old.ready self.old.sought.items) sockets.new handler.new) }
    {
        let most = self.pace.begin(at);
        make_turn(
            self.alloc,
            &self.setting,
            &mut self.clients,
            &mut self.dialled,
            &mut self.accepted,
            &mut self.ready,
            &mut self.sought,
            &mut self.buffer,
            most,
            sockets,
            handler,
            at,
        )
    }

    /// So many turns, one after another, each at the moment that the clock tells just before it.
    ///
    /// After a fault, the handler's or `NoMemory`, nothing is said of the hub. What the handler was told until then, and that nobody was sent what it gave out since
    /// it settled last, is said (`IsBrokenTurn`).
    pub fn make_turns<S: Readiness<Listener = L, Stream = T>, H: BridgeHandler, C: Clock>(
        &mut self,
        sockets: &mut S,
        handler: &mut H,
        clock: &mut C,
        turns: u64,
    ) -> Result<(), TurnFault<H::Fault>>
        ensures ok { OnOk result (IsTurns C.tells (IsTurn S.accepts S.watches S.connects S.reads S.writes S.finds H.handles H.hears H.settles self.old.setting) turns
            clock.old (site (place sockets.old (near handler.old self.old.clients.slab self.old.dialled.items) self.old.accepted) self.old.ready self.old.sought.items)
            clock.new (site (place sockets.new (near handler.new self.new.clients.slab self.new.dialled.items) self.new.accepted) self.new.ready self.new.sought.items)) }
        ensures setting { OnOk result (self.new.setting ≡ self.old.setting) }
        ensures fault { IfErr result (λ fault. IsStopped C.tells (IsTurn S.accepts S.watches S.connects S.reads S.writes S.finds H.handles H.hears H.settles self.old.setting)
            (λ at old. IsBrokenTurn S.accepts S.watches S.connects S.reads S.writes H.handles H.hears H.settles H.refuses H.declines H.stops self.old.setting at old sockets.new handler.new) turns
            clock.old (site (place sockets.old (near handler.old self.old.clients.slab self.old.dialled.items) self.old.accepted) self.old.ready self.old.sought.items) clock.new fault) }
    {
        for _ in 0..turns {
            let at = clock.now();
            self.turn(sockets, handler, at)?;
        }
        Ok(())
    }

    /// Tells the handler that it has started, at the moment that the clock tells, and then makes so many turns.
    ///
    /// After a fault, the handler's or `NoMemory`, nothing is said of the hub. What the handler was told until then, and that nobody was sent what it gave out since
    /// it settled last, is said (`IsBrokenTurn`).
    pub fn serve<S: Readiness<Listener = L, Stream = T>, H: BridgeHandler, C: Clock>(
        &mut self,
        sockets: &mut S,
        handler: &mut H,
        clock: &mut C,
        turns: u64,
    ) -> Result<(), TurnFault<H::Fault>>
        ensures ok { OnOk result (IsServed C.tells (IsStart H.handles) (IsTurn S.accepts S.watches S.connects S.reads S.writes S.finds H.handles H.hears H.settles self.old.setting) turns
            clock.old (site (place sockets.old (near handler.old self.old.clients.slab self.old.dialled.items) self.old.accepted) self.old.ready self.old.sought.items)
            clock.new (site (place sockets.new (near handler.new self.new.clients.slab self.new.dialled.items) self.new.accepted) self.new.ready self.new.sought.items)) }
        ensures setting { OnOk result (self.new.setting ≡ self.old.setting) }
        ensures fault { IfErr result (λ fault. IsUnserved C.tells (IsStart H.handles) (IsTurn S.accepts S.watches S.connects S.reads S.writes S.finds H.handles H.hears H.settles self.old.setting)
            (λ at old. IsBrokenOff (IsAskedOnce S.accepts S.watches S.connects S.reads) H.handles H.hears H.refuses H.declines at old.place.reach.sockets old.place.reach.near.handler sockets.new handler.new)
            (λ at old. IsBrokenTurn S.accepts S.watches S.connects S.reads S.writes H.handles H.hears H.settles H.refuses H.declines H.stops self.old.setting at old sockets.new handler.new) turns
            clock.old (site (place sockets.old (near handler.old self.old.clients.slab self.old.dialled.items) self.old.accepted) self.old.ready self.old.sought.items) clock.new fault) }
    {
        let at = clock.now();
        let started = Event {
            at,
            kind: EventKind::Started,
        };
        handle_event(&mut self.clients, handler, started)?;
        self.make_turns(sockets, handler, clock, turns)
    }
}
