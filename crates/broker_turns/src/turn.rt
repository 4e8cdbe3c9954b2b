//! What a turn does with clients' network connections (MQTT 5.0, 4.2).
ghost use Rattle.std.specs.Prelude.{◌≡◌, ◌≤◌, length, OnOk, IfOk, IfErr};
ghost use Rattle.broker_turns.specs.Connections.{AreRoomsMade, IsAccepted, IsAwaited, IsHandled, IsLetGo, IsNobodyAccepted, IsRead, IsRoomMade, IsRoomStep, IsWrote, event, world};
ghost use Rattle.broker_turns.specs.Broken.{AreUnwrote, IsAskedOnce, IsBroken, IsBrokenOff, IsReadOnce, IsUnsettled, IsUnwrote};
ghost use Rattle.broker_turns.specs.Steps.{AreLetInIf, Each, EachTells};
ghost use Rattle.broker_turns.specs.Writing.{IsWritten, fate_by_size};

use crate::clients::{Client, Clients, release};
use crate::numbers::note_if;
use broker_sockets::{Answer, BridgeHandler, Event, EventKind, Readiness, Sockets, Watched};
use std::alloc::{AllocError, Global};

/// The most clients that a turn accepts, and the most links.
pub const MOST_ACCEPTED: u32 = 64;

/// A client with more unsent bytes than this is let go.
const MOST_UNSENT: usize = 16777216;

/// Why a turn has stopped.
#[derive(Debug, Drop)]
pub enum TurnFault<F> {
    /// There was no memory.
    NoMemory,
    /// The handler gave this fault.
    Handler(F),
}

impl<F> From<AllocError> for TurnFault<F> {
    ghost use Rattle.std.specs.Prelude.{◌≡◌};
    ghost use Rattle.broker_turns.specs.declared.turn.TurnFault.TheVariants.{NoMemory};

    ghost from_gives = { λ _ fault. fault ≡ NoMemory };

    fn from(_: AllocError) -> Self {
        TurnFault::NoMemory
    }
}

/// What a client has come to when it was its turn to be written.
#[derive(Drop)]
enum Fate {
    Stays,
    /// Its connection was closed by the handler, and nothing waits any more.
    Done,
    /// It has failed, or too much waits.
    Lost,
}

/// The handler answers an event, and what it gives out is released.
pub fn handle_event<H: BridgeHandler, T: Drop>(
    clients: &mut Clients<T>,
    handler: &mut H,
    event: Event,
) -> Result<(), TurnFault<H::Fault>>
    ensures ok { OnOk result (IsHandled H.handles event handler.old clients.old.slab handler.new clients.new.slab) }
    ensures fault { IfErr result (IsBroken H.handles H.hears H.refuses H.declines event.at handler.old handler.new) }
{
    match handler.handle(event) {
        Ok(outputs) => {
            release(clients, outputs)?;
            Ok(())
        }
        Err(fault) => Err(TurnFault::Handler(fault)),
    }
}

/// The connection's socket is closed, and the handler is told.
fn let_go<H: BridgeHandler, T: Drop>(
    clients: &mut Clients<T>,
    handler: &mut H,
    at: u64,
    key: usize,
) -> Result<(), TurnFault<H::Fault>>
    ensures ok { OnOk result (IsLetGo H.handles at key handler.old clients.old.slab handler.new clients.new.slab) }
    ensures fault { IfErr result (IsBroken H.handles H.hears H.refuses H.declines at handler.old handler.new) }
{
    clients.remove(key);
    let kind = EventKind::Closed {
        connection: key as u64,
    };
    handle_event(clients, handler, Event { at, kind })
}

/// The handler is told how much a connection takes, where that is more than it was told.
fn make_room<H: BridgeHandler, T: Drop>(
    clients: &mut Clients<T>,
    handler: &mut H,
    at: u64,
    key: usize,
) -> Result<(), TurnFault<H::Fault>>
    ensures ok { OnOk result (IsRoomMade H.handles at key handler.old clients.old.slab handler.new clients.new.slab) }
    ensures fault { IfErr result (IsBroken H.handles H.hears H.refuses H.declines at handler.old handler.new) }
{
    let Some(bytes) = clients.take_room(key) else {
        return Ok(());
    };
    let connection = key as u64;
    let kind = EventKind::Room { connection, bytes };
    handle_event(clients, handler, Event { at, kind })
}

/// The handler is told so of each of these connections.
fn tell_rooms<H: BridgeHandler, T: Drop>(
    clients: &mut Clients<T>,
    handler: &mut H,
    at: u64,
    keys: &[usize],
) -> Result<(), TurnFault<H::Fault>>
    ensures ok { OnOk result (Each (IsRoomStep H.handles at) keys.now (handler.old, clients.old.slab) (handler.new, clients.new.slab)) }
    ensures fault { IfErr result (IsBroken H.handles H.hears H.refuses H.declines at handler.old handler.new) }
{
    for key in keys {
        make_room(clients, handler, at, *key)?;
    }
    Ok(())
}

/// The handler is told so of each connection that takes more than it was told.
pub fn make_rooms<H: BridgeHandler, T: Drop>(
    alloc: Global,
    clients: &mut Clients<T>,
    handler: &mut H,
    at: u64,
) -> Result<(), TurnFault<H::Fault>>
    ensures ok { OnOk result (AreRoomsMade H.handles at (handler.old, clients.old.slab) (handler.new, clients.new.slab)) }
    ensures fault { IfErr result (IsBroken H.handles H.hears H.refuses H.declines at handler.old handler.new) }
{
    let takers = clients.takers(alloc)?;
    tell_rooms(clients, handler, at, &takers)
}

/// Accepts a client, if one has connected, and tells whether one had. One that can't be watched is closed.
fn accept_one<S: Readiness, H: BridgeHandler>(
    alloc: Global,
    clients: &mut Clients<S::Stream>,
    listener: &S::Listener,
    sockets: &mut S,
    handler: &mut H,
    at: u64,
) -> Result<bool, TurnFault<H::Fault>>
    ensures ok { IfOk result (λ came. IsAwaited S.accepts S.watches H.handles at listener.now came
        (world sockets.old handler.old clients.old.slab) (world sockets.new handler.new clients.new.slab)) }
    ensures fault { IfErr result (IsBrokenOff (IsAskedOnce S.accepts S.watches S.connects S.reads) H.handles H.hears H.refuses H.declines at sockets.old handler.old sockets.new handler.new) }
{
    let Some(mut stream) = sockets.accept(listener) else {
        return Ok(false);
    };
    let name = Watched::Client(clients.next_key());
    if !sockets.watch(&mut stream, name) {
        return Ok(true);
    }
    let key = clients.insert(alloc, stream)?;
    let kind = EventKind::Opened {
        connection: key as u64,
    };
    handle_event(clients, handler, Event { at, kind })?;
    make_room(clients, handler, at, key)?;
    Ok(true)
}

/// Accepts clients where one may have connected, and tells whether there may be more.
pub fn accept_some<S: Readiness, H: BridgeHandler>(
    alloc: Global,
    clients: &mut Clients<S::Stream>,
    listener: &S::Listener,
    sockets: &mut S,
    handler: &mut H,
    at: u64,
    asked: bool,
) -> Result<bool, TurnFault<H::Fault>>
    ensures ok { IfOk result (λ more. AreLetInIf (IsAccepted S.accepts S.watches H.handles at listener.now)
        (IsNobodyAccepted S.accepts S.watches H.handles at listener.now) 64 asked
        (world sockets.old handler.old clients.old.slab) more (world sockets.new handler.new clients.new.slab)) }
    ensures fault { IfErr result (IsBrokenOff (IsAskedOnce S.accepts S.watches S.connects S.reads) H.handles H.hears H.refuses H.declines at sockets.old handler.old sockets.new handler.new) }
{
    if !asked {
        return Ok(false);
    }
    for _ in 0..MOST_ACCEPTED {
        if !accept_one(alloc, clients, listener, sockets, handler, at)? {
            return Ok(false);
        }
    }
    Ok(true)
}

/// Reads the client of a connection, if it is still there, and tells whether it may have more.
fn read_one<S: Sockets, H: BridgeHandler>(
    alloc: Global,
    clients: &mut Clients<S::Stream>,
    buffer: &mut [u8],
    sockets: &mut S,
    handler: &mut H,
    at: u64,
    key: usize,
) -> Result<bool, TurnFault<H::Fault>>
    requires { length buffer.old ≤ 65536 }
    ensures ok { IfOk result (λ more. IsRead S.reads H.handles at key
        (world sockets.old handler.old clients.old.slab) more (world sockets.new handler.new clients.new.slab)) }
    ensures fault { IfErr result (IsBrokenOff (IsReadOnce S.reads) H.handles H.hears H.refuses H.declines at sockets.old handler.old sockets.new handler.new) }
{
    let Some(client) = clients.slab.get_mut(key) else {
        return Ok(false);
    };
    if client.closing {
        return Ok(false);
    }
    match sockets.read(&mut client.stream, buffer) {
        Answer::Later => Ok(false),
        Answer::Bytes(count) => {
            let bytes = Vec::from_slice(alloc, &buffer[..count])?;
            let connection = key as u64;
            let kind = EventKind::Piece { connection, bytes };
            handle_event(clients, handler, Event { at, kind })?;
            Ok(true)
        }
        Answer::Gone => {
            let_go(clients, handler, at, key)?;
            Ok(false)
        }
    }
}

/// What a client has come to by what waits for it.
fn fate_of<T: Drop>(client: &Client<T>) -> Fate
    ensures { result ≡ fate_by_size client.now }
{
    let unsent = client.unsent.len();
    if unsent > MOST_UNSENT {
        Fate::Lost
    } else if client.closing && unsent == 0 {
        Fate::Done
    } else {
        Fate::Stays
    }
}

/// Offers what waits to the stream, and tells what the client has come to.
fn write_client<S: Sockets>(client: &mut Client<S::Stream>, sockets: &mut S) -> Fate
    ensures { IsWritten S.writes sockets.old client.old result sockets.new client.new }
{
    if client.unsent.len() == 0 {
        return fate_of(client);
    }
    match client.unsent.write_to(sockets, &mut client.stream) {
        Answer::Later => fate_of(client),
        Answer::Bytes(_) => fate_of(client),
        Answer::Gone => Fate::Lost,
    }
}

/// The handler makes all that it has decided since it last settled lasting.
pub fn settle<H: BridgeHandler>(handler: &mut H) -> Result<(), TurnFault<H::Fault>>
    ensures ok { OnOk result (H.settles handler.old handler.new) }
    ensures fault { IfErr result (IsUnsettled H.stops handler.old handler.new) }
{
    match handler.settle() {
        Ok(()) => Ok(()),
        Err(fault) => Err(TurnFault::Handler(fault)),
    }
}

/// Writes to the client of a connection, if it is still there.
fn write_one<S: Sockets, H: BridgeHandler>(
    clients: &mut Clients<S::Stream>,
    sockets: &mut S,
    handler: &mut H,
    at: u64,
    key: usize,
) -> Result<(), TurnFault<H::Fault>>
    ensures ok { OnOk result (IsWrote S.writes H.handles H.settles at key
        (world sockets.old handler.old clients.old.slab) (world sockets.new handler.new clients.new.slab)) }
    ensures fault { IfErr result (IsUnwrote S.writes H.handles H.hears H.refuses H.declines H.stops at key (world sockets.old handler.old clients.old.slab) (world sockets.new handler.new clients.new.slab)) }
{
    let Some(client) = clients.slab.get_mut(key) else {
        return Ok(());
    };
    let closing = client.closing;
    match write_client(client, sockets) {
        Fate::Stays => Ok(()),
        Fate::Done => {
            clients.remove(key);
            Ok(())
        }
        Fate::Lost => {
            if closing {
                clients.remove(key);
                return Ok(());
            }
            let_go(clients, handler, at, key)?;
            settle(handler)
        }
    }
}

/// Reads the clients of these connections, and tells which of them may have more.
pub fn read_all<S: Sockets, H: BridgeHandler>(
    alloc: Global,
    clients: &mut Clients<S::Stream>,
    buffer: &mut [u8],
    sockets: &mut S,
    handler: &mut H,
    at: u64,
    keys: &[usize],
) -> Result<Vec<usize>, TurnFault<H::Fault>>
    requires { length buffer.old ≤ 65536 }
    ensures ok { IfOk result (λ found. EachTells (IsRead S.reads H.handles at) keys.now
        (world sockets.old handler.old clients.old.slab) found.items (world sockets.new handler.new clients.new.slab)) }
    ensures fault { IfErr result (IsBrokenOff (IsReadOnce S.reads) H.handles H.hears H.refuses H.declines at sockets.old handler.old sockets.new handler.new) }
{
    let mut found = Vec::new(alloc);
    for key in keys {
        let more = read_one(alloc, clients, buffer, sockets, handler, at, *key)?;
        note_if(&mut found, *key, more)?;
    }
    Ok(found)
}

/// Writes to the clients of these connections.
pub fn write_all<S: Sockets, H: BridgeHandler>(
    clients: &mut Clients<S::Stream>,
    sockets: &mut S,
    handler: &mut H,
    at: u64,
    keys: &[usize],
) -> Result<(), TurnFault<H::Fault>>
    ensures ok { OnOk result (Each (IsWrote S.writes H.handles H.settles at) keys.now
        (world sockets.old handler.old clients.old.slab) (world sockets.new handler.new clients.new.slab)) }
    ensures fault { IfErr result (AreUnwrote S.writes H.handles H.hears H.settles H.refuses H.declines H.stops at keys.now (world sockets.old handler.old clients.old.slab) (world sockets.new handler.new clients.new.slab)) }
{
    for key in keys {
        write_one(clients, sockets, handler, at, *key)?;
    }
    Ok(())
}
