//! What comes of an event where there are limits.

ghost use Rattle.std.specs.Prelude.{◌≡◌, IfErr, IfOk, OnOk};
ghost use Rattle.door_bounds.specs.Answering.{IsAnsweredOn, IsCameOn, IsMet, IsPlain, instead, is_let_in};
ghost use Rattle.door_bounds.specs.Faults.{IsStopped};

use crate::client::Client;
use crate::clients::Clients;
use crate::door::Door;
use crate::fault::BoundedFault;
use crate::reading::come;
use crate::telling::{do_steps, tell};
use broker_sockets::{Event, EventKind, Handler, Output};
use mqtt_bounds::Bounds;
use mqtt_fields::NoMemory;
use std::alloc::Global;

/// Whether the handler inside is told of an event: of a client that is opened while there is memory, and of what comes of one that is open.
fn is_let_in(door: &Door, kind: &EventKind) -> bool
    ensures { result ≡ is_let_in door.now kind.now }
{
    match kind {
        EventKind::Started => true,
        EventKind::Tick => true,
        EventKind::Opened { connection: _ } => !door.full,
        EventKind::Closed { connection } => door.clients.contains(*connection),
        EventKind::Room {
            connection,
            bytes: _,
        } => door.clients.contains(*connection),
        EventKind::Piece {
            connection,
            bytes: _,
        } => door.clients.contains(*connection),
    }
}

/// What goes out where the handler inside isn't told: a client for which there is no room is closed.
fn instead(alloc: Global, kind: &EventKind) -> Result<Vec<Output>, NoMemory>
    ensures { IfOk result (λ outputs. outputs.items ≡ instead kind.now) }
{
    let mut outputs = Vec::new(alloc);
    if let EventKind::Opened { connection } = kind {
        outputs.push(Output::Close {
            connection: *connection,
        })?;
    }
    Ok(outputs)
}

/// A connection is open from now on, or not any more.
fn meet(alloc: Global, clients: &mut Clients, kind: &EventKind) -> Result<(), NoMemory>
    ensures { OnOk result (IsMet kind.now clients.old clients.new) }
{
    match kind {
        EventKind::Opened { connection } => clients.put(*connection, Client::new(alloc)),
        EventKind::Closed { connection } => {
            clients.take(*connection);
            Ok(())
        }
        EventKind::Piece {
            connection: _,
            bytes: _,
        } => Ok(()),
        EventKind::Room {
            connection: _,
            bytes: _,
        } => Ok(()),
        EventKind::Started => Ok(()),
        EventKind::Tick => Ok(()),
    }
}

/// Answers bytes of a client.
#[tactic(auto, using(crate::proofs::Coming::came, crate::proofs::Coming::came_none))]
fn answer_bytes<H: Handler>(
    alloc: Global,
    inside: &mut H,
    clients: &mut Clients,
    limits: (Bounds, bool),
    place: (u64, u64),
    bytes: Vec<u8>,
) -> Result<Vec<Output>, BoundedFault<H::Fault>>
    ensures ok { IfOk result (λ outputs. IsCameOn H.handles limits.0 limits.1 place.0 place.1 bytes.items inside.old inside.new clients.old clients.new outputs.items) }
    ensures fault { IfErr result (IsStopped H.handles H.refuses inside.old inside.new) }
{
    let mut outputs = Vec::new(alloc);
    match clients.take(place.1) {
        None => Ok(outputs),
        Some(client) => {
            let (bounds, full) = limits;
            let (steps, client) = come(alloc, &bounds, full, client, &bytes)?;
            clients.put(place.1, client)?;
            do_steps(alloc, inside, clients, place, steps, &mut outputs)?;
            Ok(outputs)
        }
    }
}

/// Answers an event of which the handler inside is told as it is.
#[tactic(auto, using(crate::proofs::Coming::plainly))]
fn answer_plain<H: Handler>(
    alloc: Global,
    inside: &mut H,
    clients: &mut Clients,
    event: Event,
) -> Result<Vec<Output>, BoundedFault<H::Fault>>
    ensures ok { IfOk result (λ outputs. IsPlain H.handles event inside.old inside.new clients.old clients.new outputs.items) }
    ensures fault { IfErr result (IsStopped H.handles H.refuses inside.old inside.new) }
{
    meet(alloc, clients, &event.kind)?;
    tell(inside, clients, event)
}

/// Answers an event.
#[tactic(auto, using(crate::proofs::Coming::turned_away, crate::proofs::Coming::plain_in, crate::proofs::Coming::bytes_in))]
pub(crate) fn answer<H: Handler>(
    alloc: Global,
    inside: &mut H,
    door: &mut Door,
    event: Event,
) -> Result<Vec<Output>, BoundedFault<H::Fault>>
    ensures ok { IfOk result (λ outputs. IsAnsweredOn H.handles (is_let_in door.old event.kind) event inside.old inside.new door.old door.new outputs.items) }
    ensures fault { IfErr result (IsStopped H.handles H.refuses inside.old inside.new) }
{
    if !is_let_in(door, &event.kind) {
        return Ok(instead(alloc, &event.kind)?);
    }
    let Event { at, kind } = event;
    let clients = &mut door.clients;
    match kind {
        EventKind::Piece { connection, bytes } => {
            let limits = (door.limits.packets, door.full);
            answer_bytes(alloc, inside, clients, limits, (at, connection), bytes)
        }
        EventKind::Started => {
            let kind = EventKind::Started;
            answer_plain(alloc, inside, clients, Event { at, kind })
        }
        EventKind::Opened { connection } => {
            let kind = EventKind::Opened { connection };
            answer_plain(alloc, inside, clients, Event { at, kind })
        }
        EventKind::Closed { connection } => {
            let kind = EventKind::Closed { connection };
            answer_plain(alloc, inside, clients, Event { at, kind })
        }
        EventKind::Room { connection, bytes } => {
            let kind = EventKind::Room { connection, bytes };
            answer_plain(alloc, inside, clients, Event { at, kind })
        }
        EventKind::Tick => {
            let kind = EventKind::Tick;
            answer_plain(alloc, inside, clients, Event { at, kind })
        }
    }
}
