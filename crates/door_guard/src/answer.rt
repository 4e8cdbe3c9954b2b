//! What comes of an event where there are users.

ghost use Rattle.std.specs.Prelude.{◌≡◌, [], None, true, IfErr, IfOk, OnOk};
ghost use Rattle.broker_sockets.specs.declared.events.EventKind.TheVariants.{Opened, Piece, Room, Closed};
ghost use Rattle.door_guard.specs.Answering.{IsPassedOn};
ghost use Rattle.door_guard.specs.Clients.{GoesOn, client_of};
ghost use Rattle.door_guard.specs.Faults.{IsDeclinedOn, IsStopped};
ghost use Rattle.door_guard.specs.Stages.{noted};
ghost use Rattle.door_guard.specs.Telling.{IsMet, IsTold};

use crate::clients::Clients;
use crate::fault::GuardFault;
use crate::giving::give;
use crate::known::{Known, forget};
use crate::telling::{do_steps, leave_all, tell};
use broker_sockets::{BridgeHandler, Event, EventKind, Given, Handler, Output, PeerEvent};
use door_packets::{Access, Client, Stage, Walk, come, goes_on};
use std::alloc::Global;

/// Tells the handler inside of an event that is on no connection, or on one of which it knows.
fn pass<H: Handler, A: Access>(
    alloc: Global,
    access: &A,
    inside: &mut H,
    known: &mut Known,
    place: (u64, u64),
    kind: EventKind,
    outputs: &mut Vec<Output>,
) -> Result<(), GuardFault<H::Fault>>
    ensures ok { OnOk result (IsTold H.handles (A.rights access.now) place.0 place.1 None kind inside.old inside.new known.old.clients known.new.clients (known.old.refusals, outputs.old.items) (known.new.refusals, outputs.new.items)) }
    ensures fault { IfErr result (IsStopped H.handles H.refuses inside.old inside.new) }
{
    tell(alloc, access, inside, known, place, &None, kind, outputs)
}

/// A connection has so much room. That is kept until the handler inside is told of the connection.
#[tactic(auto, using(crate::proofs::Meets::spaced_none, crate::proofs::Meets::spaced_leaving, crate::proofs::Meets::spaced_kept, crate::proofs::Meets::spaced_open, crate::proofs::Meets::spaced_over))]
fn space<H: Handler, A: Access>(
    alloc: Global,
    access: &A,
    inside: &mut H,
    known: &mut Known,
    place: (u64, u64),
    bytes: u64,
    outputs: &mut Vec<Output>,
) -> Result<(), GuardFault<H::Fault>>
    ensures ok { OnOk result (IsMet H.handles (A.rights access.now) place.0 (λ q. noted q (Room place.1 bytes)) inside.old inside.new known.old.clients known.new.clients (known.old.refusals, outputs.old.items) (known.new.refusals, outputs.new.items)) }
    ensures fault { IfErr result (IsStopped H.handles H.refuses inside.old inside.new) }
{
    let connection = place.1;
    match known.clients.stage(connection) {
        None => Ok(()),
        Some(Stage::Leaving) => Ok(()),
        Some(Stage::Waiting(_)) => {
            known
                .clients
                .restage(connection, Stage::Waiting(Some(bytes)))?;
            Ok(())
        }
        Some(Stage::Open) => {
            let kind = EventKind::Room { connection, bytes };
            pass(alloc, access, inside, known, place, kind, outputs)
        }
        Some(Stage::Over) => {
            let kind = EventKind::Room { connection, bytes };
            pass(alloc, access, inside, known, place, kind, outputs)
        }
    }
}

/// A connection is gone.
#[tactic(auto, using(crate::proofs::Meets::gone_untold, crate::proofs::Meets::gone_told))]
fn go<H: Handler, A: Access>(
    alloc: Global,
    access: &A,
    inside: &mut H,
    known: &mut Known,
    place: (u64, u64),
    outputs: &mut Vec<Output>,
) -> Result<(), GuardFault<H::Fault>>
    ensures ok { OnOk result (IsMet H.handles (A.rights access.now) place.0 (λ q. noted q (Closed place.1)) inside.old inside.new known.old.clients known.new.clients (known.old.refusals, outputs.old.items) (known.new.refusals, outputs.new.items)) }
    ensures fault { IfErr result (IsStopped H.handles H.refuses inside.old inside.new) }
{
    let connection = place.1;
    let told = known.clients.is_told(connection);
    known.clients.take(connection);
    if !told {
        return Ok(());
    }
    let kind = EventKind::Closed { connection };
    pass(alloc, access, inside, known, place, kind, outputs)
}

/// Whether bytes that came on a connection go on as they came, and nothing else is to be done.
fn go_on<A: Access>(
    alloc: Global,
    access: &A,
    clients: &Clients,
    connection: u64,
    bytes: &[u8],
) -> bool
    ensures { result ≡ true → GoesOn (A.rights access.now) bytes.now (client_of clients.now connection) }
{
    match clients.get(connection) {
        None => false,
        Some(client) => goes_on(alloc, access, client, bytes),
    }
}

/// Bytes came on a connection, and go on as they came.
fn take_going<H: Handler, A: Access>(
    alloc: Global,
    access: &A,
    inside: &mut H,
    known: &mut Known,
    place: (u64, u64),
    bytes: Vec<u8>,
    outputs: &mut Vec<Output>,
) -> Result<(), GuardFault<H::Fault>>
    requires { GoesOn (A.rights access.now) bytes.items (client_of known.old.clients place.1) }
    ensures ok { OnOk result (IsMet H.handles (A.rights access.now) place.0 (λ q. noted q (Piece place.1 bytes)) inside.old inside.new known.old.clients known.new.clients (known.old.refusals, outputs.old.items) (known.new.refusals, outputs.new.items)) }
    ensures fault { IfErr result (IsStopped H.handles H.refuses inside.old inside.new) }
{
    let connection = place.1;
    let kind = EventKind::Piece { connection, bytes };
    tell(alloc, access, inside, known, place, &None, kind, outputs)
}

/// Bytes came on a connection.
#[tactic(auto, using(crate::proofs::Meets::came_none, crate::proofs::Meets::came_some))]
fn take_bytes<H: Handler, A: Access>(
    alloc: Global,
    access: &A,
    inside: &mut H,
    known: &mut Known,
    place: (u64, u64),
    bytes: Vec<u8>,
    outputs: &mut Vec<Output>,
) -> Result<(), GuardFault<H::Fault>>
    ensures ok { OnOk result (IsMet H.handles (A.rights access.now) place.0 (λ q. noted q (Piece place.1 bytes)) inside.old inside.new known.old.clients known.new.clients (known.old.refusals, outputs.old.items) (known.new.refusals, outputs.new.items)) }
    ensures fault { IfErr result (IsStopped H.handles H.refuses inside.old inside.new) }
{
    if go_on(alloc, access, &known.clients, place.1, &bytes) {
        return take_going(alloc, access, inside, known, place, bytes, outputs);
    }
    match known.clients.take(place.1) {
        None => Ok(()),
        Some(client) => {
            let walk = come(alloc, access, &known.marks, client, &bytes)?;
            let Walk { client, steps } = walk;
            forget(&mut known.marks, &client);
            known.clients.put(place.1, client)?;
            do_steps(alloc, access, inside, known, place, steps, outputs)
        }
    }
}

/// Takes an event.
#[tactic(auto, using(crate::proofs::Meets::met_started, crate::proofs::Meets::met_tick, crate::proofs::Meets::met_open, crate::proofs::Meets::met_as))]
fn take<H: Handler, A: Access>(
    alloc: Global,
    access: &A,
    inside: &mut H,
    known: &mut Known,
    at: u64,
    kind: EventKind,
    outputs: &mut Vec<Output>,
) -> Result<(), GuardFault<H::Fault>>
    ensures ok { OnOk result (IsMet H.handles (A.rights access.now) at (λ q. noted q kind) inside.old inside.new known.old.clients known.new.clients (known.old.refusals, outputs.old.items) (known.new.refusals, outputs.new.items)) }
    ensures fault { IfErr result (IsStopped H.handles H.refuses inside.old inside.new) }
{
    match kind {
        EventKind::Started => {
            let kind = EventKind::Started;
            pass(alloc, access, inside, known, (at, 0), kind, outputs)
        }
        EventKind::Tick => {
            let kind = EventKind::Tick;
            pass(alloc, access, inside, known, (at, 0), kind, outputs)
        }
        EventKind::Opened { connection } => {
            known.clients.put(connection, Client::new(alloc))?;
            Ok(())
        }
        EventKind::Closed { connection } => {
            go(alloc, access, inside, known, (at, connection), outputs)
        }
        EventKind::Room { connection, bytes } => {
            let place = (at, connection);
            space(alloc, access, inside, known, place, bytes, outputs)
        }
        EventKind::Piece { connection, bytes } => {
            let place = (at, connection);
            take_bytes(alloc, access, inside, known, place, bytes, outputs)
        }
    }
}

/// Answers an event.
#[tactic(auto, using(crate::proofs::Meets::answered, crate::proofs::Faults::stopped_met))]
pub(crate) fn answer<H: Handler, A: Access>(
    alloc: Global,
    access: &A,
    inside: &mut H,
    known: &mut Known,
    event: Event,
) -> Result<Vec<Output>, GuardFault<H::Fault>>
    ensures ok { IfOk result (λ outputs. IsMet H.handles (A.rights access.now) event.at (λ q. noted q event.kind) inside.old inside.new known.old.clients known.new.clients (known.old.refusals, []) (known.new.refusals, outputs.items)) }
    ensures fault { IfErr result (IsStopped H.handles H.refuses inside.old inside.new) }
{
    let mut outputs = Vec::new(alloc);
    let Event { at, kind } = event;
    leave_all(alloc, access, inside, known, at, &mut outputs)?;
    take(alloc, access, inside, known, at, kind, &mut outputs)?;
    Ok(outputs)
}

/// Tells the handler inside what other nodes bring about.
#[tactic(auto, using(crate::proofs::Meets::passed))]
pub(crate) fn hear_on<H: BridgeHandler, A: Access>(
    alloc: Global,
    access: &A,
    inside: &mut H,
    known: &mut Known,
    event: PeerEvent,
) -> Result<Given, GuardFault<H::Fault>>
    ensures ok { IfOk result (λ given. IsPassedOn H.hears (A.rights access.now) event inside.old inside.new known.old known.new given) }
    ensures fault { IfErr result (λ fault. IsDeclinedOn H.declines event fault inside.old inside.new) }
{
    match inside.hear(event) {
        Ok(given) => {
            let Given {
                outputs: first,
                frames,
            } = given;
            let mut outputs = Vec::new(alloc);
            give(alloc, access, known, 0, &None, first, &mut outputs)?;
            Ok(Given { outputs, frames })
        }
        Err(fault) => Err(GuardFault::Inside(fault)),
    }
}
