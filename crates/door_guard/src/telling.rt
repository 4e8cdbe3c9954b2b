//! What the handler inside is told, and what goes out.

ghost use Rattle.std.specs.Prelude.{◌≡◌, ◌∷◌, [], IfErr, OnOk};
ghost use Rattle.door_guard.specs.Doing.{IsTurned};
ghost use Rattle.door_guard.specs.Faults.{IsStopped};
ghost use Rattle.door_guard.specs.Telling.{AreDone, IsAsked, IsMet, IsTold, none};

use crate::fault::GuardFault;
use crate::giving::{close, end, give, send};
use crate::known::Known;
use broker_sockets::{Event, EventKind, Handler, Output};
use door_packets::{Access, Awaited, Step, connack, spelled};
use mqtt_fields::NoMemory;
use mqtt_packets::Packet;
use std::alloc::Global;
use std::mem;

/// Tells the handler inside, and puts what goes out of that which it gives, while a SUBACK is to come on one connection.
#[tactic(auto, using(crate::proofs::Steps::told_so, crate::proofs::Faults::refusing_one))]
pub(crate) fn tell<H: Handler, A: Access>(
    alloc: Global,
    access: &A,
    inside: &mut H,
    known: &mut Known,
    place: (u64, u64),
    awaited: &Option<Awaited>,
    kind: EventKind,
    outputs: &mut Vec<Output>,
) -> Result<(), GuardFault<H::Fault>>
    ensures ok { OnOk result (IsTold H.handles (A.rights access.now) place.0 place.1 awaited.now kind inside.old inside.new known.old.clients known.new.clients (known.old.refusals, outputs.old.items) (known.new.refusals, outputs.new.items)) }
    ensures fault { IfErr result (IsStopped H.handles H.refuses inside.old inside.new) }
{
    let at = place.0;
    match inside.handle(Event { at, kind }) {
        Ok(given) => {
            give(alloc, access, known, place.1, awaited, given, outputs)?;
            Ok(())
        }
        Err(fault) => Err(GuardFault::Inside(fault)),
    }
}

/// Tells the handler inside of a packet.
#[tactic(auto, using(crate::proofs::Steps::asked))]
fn ask<H: Handler, A: Access>(
    alloc: Global,
    access: &A,
    inside: &mut H,
    known: &mut Known,
    place: (u64, u64),
    packet: &Packet,
    awaited: &Option<Awaited>,
    outputs: &mut Vec<Output>,
) -> Result<(), GuardFault<H::Fault>>
    ensures ok { OnOk result (IsAsked H.handles (A.rights access.now) place.0 place.1 packet.now awaited.now inside.old inside.new known.old.clients known.new.clients (known.old.refusals, outputs.old.items) (known.new.refusals, outputs.new.items)) }
    ensures fault { IfErr result (IsStopped H.handles H.refuses inside.old inside.new) }
{
    let bytes = spelled(alloc, packet)?;
    let connection = place.1;
    let kind = EventKind::Piece { connection, bytes };
    tell(alloc, access, inside, known, place, awaited, kind, outputs)
}

/// Turns a client away: CONNACK with this code, and the end of its connection.
#[tactic(auto, using(crate::proofs::Outs::turned))]
fn turn_away(
    alloc: Global,
    known: &mut Known,
    connection: u64,
    code: u8,
    outputs: &mut Vec<Output>,
) -> Result<(), NoMemory>
    ensures turned { OnOk result (IsTurned connection code known.old.clients known.new.clients outputs.old.items outputs.new.items) }
    ensures counts { OnOk result (known.new.refusals ≡ known.old.refusals) }
{
    send(outputs, connection, connack(alloc, code)?)?;
    close(outputs, connection)?;
    known.clients.take(connection);
    Ok(())
}

/// Does one thing, if the connection is open.
#[tactic(auto, using(crate::proofs::Steps::done_silent, crate::proofs::Steps::done_opens, crate::proofs::Steps::done_asks, crate::proofs::Steps::done_rooms, crate::proofs::Steps::done_tells, crate::proofs::Steps::done_acks, crate::proofs::Steps::done_subacks, crate::proofs::Steps::done_drops, crate::proofs::Steps::done_turns, crate::proofs::Steps::done_ends))]
pub(crate) fn do_step<H: Handler, A: Access>(
    alloc: Global,
    access: &A,
    inside: &mut H,
    known: &mut Known,
    place: (u64, u64),
    step: Step,
    outputs: &mut Vec<Output>,
) -> Result<(), GuardFault<H::Fault>>
    ensures ok { OnOk result (AreDone H.handles (A.rights access.now) place.0 place.1 (step ∷ []) inside.old inside.new known.old.clients known.new.clients (known.old.refusals, outputs.old.items) (known.new.refusals, outputs.new.items)) }
    ensures fault { IfErr result (IsStopped H.handles H.refuses inside.old inside.new) }
{
    if !known.clients.is_live(place.1) {
        return Ok(());
    }
    known.refusals.note(&step);
    let connection = place.1;
    match step {
        Step::Opens => {
            let kind = EventKind::Opened { connection };
            tell(alloc, access, inside, known, place, &None, kind, outputs)
        }
        Step::Rooms(bytes) => {
            let kind = EventKind::Room { connection, bytes };
            tell(alloc, access, inside, known, place, &None, kind, outputs)
        }
        Step::Tells(bytes) => {
            let bytes = bytes.into_vec();
            let kind = EventKind::Piece { connection, bytes };
            tell(alloc, access, inside, known, place, &None, kind, outputs)
        }
        Step::Asks(packet, awaited) => ask(
            alloc, access, inside, known, place, &packet, &awaited, outputs,
        ),
        Step::Acks(bytes) => Ok(send(outputs, connection, bytes.into_vec())?),
        Step::Subacks(bytes, _) => Ok(send(outputs, connection, bytes.into_vec())?),
        Step::Drops => Ok(()),
        Step::TurnsAway(code) => Ok(turn_away(alloc, known, connection, code, outputs)?),
        Step::Ends => Ok(end(alloc, known, connection, outputs)?),
    }
}

/// Does one thing after another.
#[tactic(auto, using(crate::proofs::Steps::done_none, crate::proofs::Steps::done_then, crate::proofs::Faults::stopped_steps))]
pub(crate) fn do_steps<H: Handler, A: Access>(
    alloc: Global,
    access: &A,
    inside: &mut H,
    known: &mut Known,
    place: (u64, u64),
    steps: Vec<Step>,
    outputs: &mut Vec<Output>,
) -> Result<(), GuardFault<H::Fault>>
    ensures ok { OnOk result (AreDone H.handles (A.rights access.now) place.0 place.1 steps.items inside.old inside.new known.old.clients known.new.clients (known.old.refusals, outputs.old.items) (known.new.refusals, outputs.new.items)) }
    ensures fault { IfErr result (IsStopped H.handles H.refuses inside.old inside.new) }
{
    for step in steps {
        match do_step(alloc, access, inside, known, place, step, outputs) {
            Ok(()) => {}
            Err(fault) => return Err(fault),
        }
    }
    Ok(())
}

/// Tells the handler inside that a connection is gone, if its end went out.
#[tactic(auto, using(crate::proofs::Meets::met_none, crate::proofs::Meets::left_told))]
fn leave_one<H: Handler, A: Access>(
    alloc: Global,
    access: &A,
    inside: &mut H,
    known: &mut Known,
    at: u64,
    connection: u64,
    outputs: &mut Vec<Output>,
) -> Result<(), GuardFault<H::Fault>>
    ensures ok { OnOk result (IsMet H.handles (A.rights access.now) at none inside.old inside.new known.old.clients known.new.clients (known.old.refusals, outputs.old.items) (known.new.refusals, outputs.new.items)) }
    ensures fault { IfErr result (IsStopped H.handles H.refuses inside.old inside.new) }
{
    if !known.clients.is_leaving(connection) {
        return Ok(());
    }
    known.clients.take(connection);
    let kind = EventKind::Closed { connection };
    tell(
        alloc,
        access,
        inside,
        known,
        (at, connection),
        &None,
        kind,
        outputs,
    )
}

/// Tells the handler inside of the connections whose end went out.
#[tactic(auto, using(crate::proofs::Meets::met_none, crate::proofs::Meets::met_then, crate::proofs::Faults::stopped_met))]
pub(crate) fn leave_all<H: Handler, A: Access>(
    alloc: Global,
    access: &A,
    inside: &mut H,
    known: &mut Known,
    at: u64,
    outputs: &mut Vec<Output>,
) -> Result<(), GuardFault<H::Fault>>
    ensures ok { OnOk result (IsMet H.handles (A.rights access.now) at none inside.old inside.new known.old.clients known.new.clients (known.old.refusals, outputs.old.items) (known.new.refusals, outputs.new.items)) }
    ensures fault { IfErr result (IsStopped H.handles H.refuses inside.old inside.new) }
{
    let leaving = mem::replace(&mut known.leaving, Vec::new(alloc));
    for connection in leaving {
        match leave_one(alloc, access, inside, known, at, connection, outputs) {
            Ok(()) => {}
            Err(fault) => return Err(fault),
        }
    }
    Ok(())
}
