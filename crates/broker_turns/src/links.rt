//! What a turn does with each link to another node.
ghost use Rattle.std.specs.Prelude.{◌≡◌, ◌<◌, length, option_map, slice_index_or, None, OnOk, OnErr, IfOk, IfErr};
ghost use Rattle.broker_turns.specs.Bridging.{HearsAll, IsBegun, IsDialledIf, IsFrameHeard, IsHeardFrom, IsHearing, IsKept, IsLinkAccepted, IsLinkAwaited, IsNoLinkAccepted, IsOffered, IsPeerKept, IsPeerRead, IsSought, IsSupplied, Relinks, near, place, reach, search};
ghost use Rattle.broker_turns.specs.Broken.{Again, IsAskedOnce, IsBroken, IsBrokenOff, IsReadOnce};
ghost use Rattle.broker_turns.specs.Lines.{link_of, marked};
ghost use Rattle.broker_turns.specs.Steps.{AreLetInIf, EachBelow, EachTells};

use crate::clients::{Clients, release};
use crate::lines::{Line, give, is_rested, note_sender, read_line, write_line};
use crate::numbers::note_if;
use crate::turn::{MOST_ACCEPTED, TurnFault};
use broker_sockets::{BridgeHandler, PeerEvent, PeerEventKind, Readiness, Sockets, Watched};
use slab::Slab;
use std::alloc::{AllocError, Global};
use std::net::SocketAddr;

/// A peer without a link isn't dialled for so many milliseconds after it was dialled last.
const REDIAL: u64 = 1000;

/// The handler answers an event of other nodes, and what it gives out is released.
fn hear_one<H: BridgeHandler, T: Drop>(
    clients: &mut Clients<T>,
    links: &mut [Option<Line<T>>],
    handler: &mut H,
    event: PeerEvent,
) -> Result<(), TurnFault<H::Fault>>
    ensures ok { OnOk result (IsHearing H.hears event (near handler.old clients.old.slab links.old) (near handler.new clients.new.slab links.new)) }
    ensures fault { IfErr result (IsBroken H.handles H.hears H.refuses H.declines event.at handler.old handler.new) }
{
    match handler.hear(event) {
        Ok(given) => {
            release(clients, given.outputs)?;
            give(links, given.frames)?;
            Ok(())
        }
        Err(fault) => Err(TurnFault::Handler(fault)),
    }
}

/// The handler is handed a frame, and the link of the node that sends it notes that it came.
fn hear_frame<H: BridgeHandler, T: Drop>(
    clients: &mut Clients<T>,
    links: &mut [Option<Line<T>>],
    handler: &mut H,
    at: u64,
    bytes: Vec<u8>,
) -> Result<(), TurnFault<H::Fault>>
    ensures ok { OnOk result (IsFrameHeard H.hears at bytes (near handler.old clients.old.slab links.old) (near handler.new clients.new.slab links.new)) }
    ensures fault { IfErr result (IsBroken H.handles H.hears H.refuses H.declines at handler.old handler.new) }
{
    note_sender(links, at, &bytes);
    let kind = PeerEventKind::Frame { bytes };
    hear_one(clients, links, handler, PeerEvent { at, kind })
}

/// The handler is handed frames, in order.
fn hear_all<H: BridgeHandler, T: Drop>(
    clients: &mut Clients<T>,
    links: &mut [Option<Line<T>>],
    handler: &mut H,
    at: u64,
    frames: Vec<Vec<u8>>,
) -> Result<(), TurnFault<H::Fault>>
    ensures ok { OnOk result (HearsAll H.hears at frames.items (near handler.old clients.old.slab links.old) (near handler.new clients.new.slab links.new)) }
    ensures fault { IfErr result (IsBroken H.handles H.hears H.refuses H.declines at handler.old handler.new) }
{
    for bytes in frames {
        hear_frame(clients, links, handler, at, bytes)?;
    }
    Ok(())
}

/// A link that another node has begun is kept, if there is one, and it tells whether there was. One that can't be watched is
/// closed.
fn accept_link<S: Readiness>(
    alloc: Global,
    accepted: &mut Slab<Line<S::Stream>>,
    listener: &S::Listener,
    sockets: &mut S,
) -> Result<bool, AllocError>
    ensures ok { IfOk result (λ came. IsLinkAwaited S.accepts S.watches listener.now came (sockets.old, accepted.old) (sockets.new, accepted.new)) }
    ensures fault { OnErr result (Again (IsAskedOnce S.accepts S.watches S.connects S.reads) sockets.old sockets.new) }
{
    let Some(mut stream) = sockets.accept(listener) else {
        return Ok(false);
    };
    let name = Watched::Link(accepted.vacant_key());
    if !sockets.watch(&mut stream, name) {
        return Ok(true);
    }
    let Ok(_) = accepted.insert(Line::new(alloc, stream)) else {
        return Err(AllocError);
    };
    Ok(true)
}

/// Links that other nodes have begun are kept where there may be one, and it tells whether there may be more.
pub fn accept_links<S: Readiness>(
    alloc: Global,
    accepted: &mut Slab<Line<S::Stream>>,
    listener: &S::Listener,
    sockets: &mut S,
    asked: bool,
) -> Result<bool, AllocError>
    ensures ok { IfOk result (λ more. AreLetInIf (IsLinkAccepted S.accepts S.watches listener.now) (IsNoLinkAccepted S.accepts S.watches listener.now)
        64 asked (sockets.old, accepted.old) more (sockets.new, accepted.new)) }
    ensures fault { OnErr result (Again (IsAskedOnce S.accepts S.watches S.connects S.reads) sockets.old sockets.new) }
{
    if !asked {
        return Ok(false);
    }
    for _ in 0..MOST_ACCEPTED {
        if !accept_link(alloc, accepted, listener, sockets)? {
            return Ok(false);
        }
    }
    Ok(true)
}

/// A link that doesn't go on is closed.
fn keep<T: Drop>(accepted: &mut Slab<Line<T>>, key: usize, goes_on: bool)
    ensures { IsKept goes_on key accepted.old accepted.new }
{
    if goes_on {
        return;
    }
    let _ = accepted.try_remove(key);
}

/// Reads a link that was accepted, if it is still there, and tells whether it may have more.
fn read_link<S: Sockets, H: BridgeHandler>(
    alloc: Global,
    clients: &mut Clients<S::Stream>,
    links: &mut [Option<Line<S::Stream>>],
    accepted: &mut Slab<Line<S::Stream>>,
    buffer: &mut [u8],
    sockets: &mut S,
    handler: &mut H,
    at: u64,
    key: usize,
) -> Result<bool, TurnFault<H::Fault>>
    requires { length buffer.old ≡ 65536 }
    ensures ok { IfOk result (λ more. IsHeardFrom S.reads H.hears at key
        (place sockets.old (near handler.old clients.old.slab links.old) accepted.old) more
        (place sockets.new (near handler.new clients.new.slab links.new) accepted.new)) }
    ensures fault { IfErr result (IsBrokenOff (IsReadOnce S.reads) H.handles H.hears H.refuses H.declines at sockets.old handler.old sockets.new handler.new) }
{
    let Some(line) = accepted.get_mut(key) else {
        return Ok(false);
    };
    let heard = read_line(alloc, line, buffer, sockets)?;
    keep(accepted, key, heard.goes_on);
    hear_all(clients, links, handler, at, heard.frames)?;
    Ok(heard.more)
}

/// Reads the links of these numbers, which were accepted, and tells which of them may have more.
pub fn read_links<S: Sockets, H: BridgeHandler>(
    alloc: Global,
    clients: &mut Clients<S::Stream>,
    links: &mut [Option<Line<S::Stream>>],
    accepted: &mut Slab<Line<S::Stream>>,
    buffer: &mut [u8],
    sockets: &mut S,
    handler: &mut H,
    at: u64,
    keys: &[usize],
) -> Result<Vec<usize>, TurnFault<H::Fault>>
    requires { length buffer.old ≡ 65536 }
    ensures ok { IfOk result (λ found. EachTells (IsHeardFrom S.reads H.hears at) keys.now
        (place sockets.old (near handler.old clients.old.slab links.old) accepted.old) found.items
        (place sockets.new (near handler.new clients.new.slab links.new) accepted.new)) }
    ensures fault { IfErr result (IsBrokenOff (IsReadOnce S.reads) H.handles H.hears H.refuses H.declines at sockets.old handler.old sockets.new handler.new) }
{
    let mut found = Vec::new(alloc);
    for key in keys {
        let more = read_link(
            alloc, clients, links, accepted, buffer, sockets, handler, at, *key,
        )?;
        note_if(&mut found, *key, more)?;
    }
    Ok(found)
}

/// A link that was dialled and doesn't go on is closed.
fn keep_peer<T: Drop>(links: &mut [Option<Line<T>>], peer: usize, goes_on: bool)
    requires { peer < length links.old }
    ensures { IsPeerKept goes_on peer links.old links.new }
{
    if goes_on {
        return;
    }
    links[peer] = None;
}

/// Reads the link that was dialled to a peer, if there is one, and tells whether it may have more.
fn read_peer<S: Sockets, H: BridgeHandler>(
    alloc: Global,
    clients: &mut Clients<S::Stream>,
    links: &mut [Option<Line<S::Stream>>],
    buffer: &mut [u8],
    sockets: &mut S,
    handler: &mut H,
    at: u64,
    peer: usize,
) -> Result<bool, TurnFault<H::Fault>>
    requires { length buffer.old ≡ 65536 }
    ensures ok { IfOk result (λ more. IsPeerRead S.reads H.hears at peer
        (reach sockets.old (near handler.old clients.old.slab links.old)) more
        (reach sockets.new (near handler.new clients.new.slab links.new))) }
    ensures fault { IfErr result (IsBrokenOff (IsReadOnce S.reads) H.handles H.hears H.refuses H.declines at sockets.old handler.old sockets.new handler.new) }
{
    if peer >= links.len() {
        return Ok(false);
    }
    let Some(line) = &mut links[peer] else {
        return Ok(false);
    };
    let heard = read_line(alloc, line, buffer, sockets)?;
    keep_peer(links, peer, heard.goes_on);
    hear_all(clients, links, handler, at, heard.frames)?;
    Ok(heard.more)
}

/// Reads the links that were dialled to these peers, and tells which of them may have more.
pub fn read_peers<S: Sockets, H: BridgeHandler>(
    alloc: Global,
    clients: &mut Clients<S::Stream>,
    links: &mut [Option<Line<S::Stream>>],
    buffer: &mut [u8],
    sockets: &mut S,
    handler: &mut H,
    at: u64,
    peers: &[usize],
) -> Result<Vec<usize>, TurnFault<H::Fault>>
    requires { length buffer.old ≡ 65536 }
    ensures ok { IfOk result (λ found. EachTells (IsPeerRead S.reads H.hears at) peers.now
        (reach sockets.old (near handler.old clients.old.slab links.old)) found.items
        (reach sockets.new (near handler.new clients.new.slab links.new))) }
    ensures fault { IfErr result (IsBrokenOff (IsReadOnce S.reads) H.handles H.hears H.refuses H.declines at sockets.old handler.old sockets.new handler.new) }
{
    let mut found = Vec::new(alloc);
    for peer in peers {
        let more = read_peer(alloc, clients, links, buffer, sockets, handler, at, *peer)?;
        note_if(&mut found, *peer, more)?;
    }
    Ok(found)
}

/// Begins to connect to a peer. A connection that can't be watched is closed.
fn dial<S: Readiness>(sockets: &mut S, address: SocketAddr, peer: usize) -> Option<S::Stream>
    ensures { IsBegun S.connects S.watches address peer sockets.old result sockets.new }
{
    let Ok(mut stream) = sockets.connect(address) else {
        return None;
    };
    if sockets.watch(&mut stream, Watched::Peer(peer)) {
        Some(stream)
    } else {
        None
    }
}

/// Dials a peer that has no link, unless that was tried a short while ago.
fn dial_peer<S: Readiness, H: BridgeHandler>(
    alloc: Global,
    clients: &mut Clients<S::Stream>,
    links: &mut [Option<Line<S::Stream>>],
    sought: &mut [Option<u64>],
    sockets: &mut S,
    handler: &mut H,
    at: u64,
    peer: u16,
    address: SocketAddr,
) -> Result<(), TurnFault<H::Fault>>
    requires link { peer < length links.old }
    requires sought { peer < length sought.old }
    ensures ok { OnOk result (IsDialledIf S.connects S.watches H.hears at (link_of links.old peer) address peer
        (search sockets.old (near handler.old clients.old.slab links.old) sought.old)
        (search sockets.new (near handler.new clients.new.slab links.new) sought.new)) }
    ensures fault { IfErr result (IsBrokenOff (IsAskedOnce S.accepts S.watches S.connects S.reads) H.handles H.hears H.refuses H.declines at sockets.old handler.old sockets.new handler.new) }
{
    let place = usize::from(peer);
    if links[place].is_some() || !is_rested(REDIAL, sought[place], at) {
        return Ok(());
    }
    sought[place] = Some(at);
    let Some(stream) = dial(sockets, address, place) else {
        return Ok(());
    };
    links[place] = Some(Line::new(alloc, stream));
    let kind = PeerEventKind::Linked { peer };
    hear_one(clients, links, handler, PeerEvent { at, kind })
}

/// Dials a peer that has no link, unless it is this node.
fn seek_peer<S: Readiness, H: BridgeHandler>(
    alloc: Global,
    clients: &mut Clients<S::Stream>,
    links: &mut [Option<Line<S::Stream>>],
    sought: &mut [Option<u64>],
    peers: &[Option<SocketAddr>],
    sockets: &mut S,
    handler: &mut H,
    at: u64,
    peer: u16,
) -> Result<(), TurnFault<H::Fault>>
    requires peer { peer < length peers.now }
    requires link { peer < length links.old }
    requires sought { peer < length sought.old }
    ensures ok { OnOk result (IsSought S.connects S.watches H.hears at peers.now peer
        (search sockets.old (near handler.old clients.old.slab links.old) sought.old)
        (search sockets.new (near handler.new clients.new.slab links.new) sought.new)) }
    ensures fault { IfErr result (IsBrokenOff (IsAskedOnce S.accepts S.watches S.connects S.reads) H.handles H.hears H.refuses H.declines at sockets.old handler.old sockets.new handler.new) }
{
    let Some(address) = peers[usize::from(peer)] else {
        return Ok(());
    };
    dial_peer(
        alloc, clients, links, sought, sockets, handler, at, peer, address,
    )
}

/// Dials each peer that has no link, unless that was tried a short while ago.
pub fn dial_peers<S: Readiness, H: BridgeHandler>(
    alloc: Global,
    clients: &mut Clients<S::Stream>,
    links: &mut [Option<Line<S::Stream>>],
    sought: &mut [Option<u64>],
    peers: &[Option<SocketAddr>],
    sockets: &mut S,
    handler: &mut H,
    at: u64,
) -> Result<(), TurnFault<H::Fault>>
    requires one_each { length peers.now ≡ length links.old }
    requires sought_each { length peers.now ≡ length sought.old }
    requires few { length peers.now < 65536 }
    ensures ok { OnOk result (EachBelow (IsSought S.connects S.watches H.hears at peers.now) (length peers.now)
        (search sockets.old (near handler.old clients.old.slab links.old) sought.old)
        (search sockets.new (near handler.new clients.new.slab links.new) sought.new)) }
    ensures fault { IfErr result (IsBrokenOff (IsAskedOnce S.accepts S.watches S.connects S.reads) H.handles H.hears H.refuses H.declines at sockets.old handler.old sockets.new handler.new) }
{
    for peer in 0..peers.len() as u16 {
        seek_peer(
            alloc, clients, links, sought, peers, sockets, handler, at, peer,
        )?;
    }
    Ok(())
}

/// Notes on the link of a peer, if there is one, that more was asked for.
fn mark<T: Drop>(links: &mut [Option<Line<T>>], at: u64, peer: usize)
    requires { peer < length links.old }
    ensures { Relinks links.old links.new peer (option_map (marked at) (link_of links.old peer)) }
{
    if let Some(line) = &mut links[peer] {
        line.mark(at);
    }
}

/// Asks the handler for more where the link of a peer asks for it.
fn ship_to<H: BridgeHandler, T: Drop>(
    clients: &mut Clients<T>,
    links: &mut [Option<Line<T>>],
    handler: &mut H,
    at: u64,
    peer: u16,
) -> Result<(), TurnFault<H::Fault>>
    requires { peer < length links.old }
    ensures ok { OnOk result (IsSupplied H.hears at peer (near handler.old clients.old.slab links.old) (near handler.new clients.new.slab links.new)) }
    ensures fault { IfErr result (IsBroken H.handles H.hears H.refuses H.declines at handler.old handler.new) }
{
    let Some(line) = &links[usize::from(peer)] else {
        return Ok(());
    };
    let Some(kind) = line.asks_for(at, peer) else {
        return Ok(());
    };
    hear_one(clients, links, handler, PeerEvent { at, kind })?;
    mark(links, at, usize::from(peer));
    Ok(())
}

/// Asks the handler for more for each peer whose link asks for it.
pub fn ship_all<H: BridgeHandler, T: Drop>(
    clients: &mut Clients<T>,
    links: &mut [Option<Line<T>>],
    handler: &mut H,
    at: u64,
) -> Result<(), TurnFault<H::Fault>>
    requires { length links.old < 65536 }
    ensures ok { OnOk result (EachBelow (IsSupplied H.hears at) (length links.old) (near handler.old clients.old.slab links.old) (near handler.new clients.new.slab links.new)) }
    ensures fault { IfErr result (IsBroken H.handles H.hears H.refuses H.declines at handler.old handler.new) }
{
    for peer in 0..links.len() as u16 {
        ship_to(clients, links, handler, at, peer)?;
    }
    Ok(())
}

/// Offers what waits to the link of a peer, if there is one.
fn write_link<S: Sockets>(links: &mut [Option<Line<S::Stream>>], sockets: &mut S, peer: usize)
    requires { peer < length links.old }
    ensures { IsOffered S.writes peer (sockets.old, links.old) (sockets.new, links.new) }
{
    let Some(line) = &mut links[peer] else {
        return;
    };
    if write_line(line, sockets) {
        return;
    }
    links[peer] = None;
}

/// Offers what waits to each link that was dialled.
pub fn write_links<S: Sockets>(links: &mut [Option<Line<S::Stream>>], sockets: &mut S)
    ensures { EachBelow (IsOffered S.writes) (length links.old) (sockets.old, links.old) (sockets.new, links.new) }
{
    for peer in 0..links.len() {
        write_link(links, sockets, peer);
    }
}
