//! What the handler inside is told, and what goes out.

ghost use Rattle.std.specs.Prelude.{◌≡◌, IfErr, IfOk, OnOk};
ghost use Rattle.broker_sockets.specs.declared.events.EventKind.TheVariants.{Piece};
ghost use Rattle.door_bounds.specs.Faults.{IsStopped};
ghost use Rattle.door_bounds.specs.Telling.{AreSteps, IsOut, IsStep, IsTelling, IsTold, is_silent};

use crate::clients::Clients;
use crate::fault::BoundedFault;
use crate::sending::{put_given, spelled};
use crate::step::Step;
use broker_sockets::{Event, EventKind, Handler, Output};
use mqtt_bounds::Mend;
use mqtt_fields::NoMemory;
use std::alloc::Global;

/// Tells the handler inside, and notes what it gives out.
#[tactic(auto, using(crate::proofs::Told::refusing_one))]
pub(crate) fn tell<H: Handler>(
    inside: &mut H,
    clients: &mut Clients,
    event: Event,
) -> Result<Vec<Output>, BoundedFault<H::Fault>>
    ensures ok { IfOk result (λ given. IsTold H.handles event given.items inside.old inside.new clients.old clients.new) }
    ensures fault { IfErr result (IsStopped H.handles H.refuses inside.old inside.new) }
{
    match inside.handle(event) {
        Ok(given) => {
            clients.note(&given);
            Ok(given)
        }
        Err(fault) => Err(BoundedFault::Inside(fault)),
    }
}

/// Whether there are no bytes, or the connection isn't open.
fn is_silent(connection: u64, bytes: &[u8], clients: &Clients) -> bool
    ensures { result ≡ is_silent connection bytes.now clients.now }
{
    bytes.is_empty() || !clients.contains(connection)
}

/// An event of bytes of a client.
fn piece_at(at: u64, connection: u64, bytes: Vec<u8>) -> Event
    ensures { result ≡ record { at = at; kind = Piece connection bytes } }
{
    Event {
        at,
        kind: EventKind::Piece { connection, bytes },
    }
}

/// Tells the handler inside bytes of a client, if there are any and its connection is open, and puts what it gives, mended.
#[tactic(auto, using(crate::proofs::Told::silent, crate::proofs::Told::spoken))]
fn tell_bytes<H: Handler>(
    alloc: Global,
    inside: &mut H,
    clients: &mut Clients,
    place: (u64, u64),
    bytes: Vec<u8>,
    mend: &Mend,
    outputs: &mut Vec<Output>,
) -> Result<(), BoundedFault<H::Fault>>
    ensures ok { OnOk result (IsTelling H.handles place.0 place.1 bytes.items mend.now inside.old inside.new clients.old clients.new outputs.old.items outputs.new.items) }
    ensures fault { IfErr result (IsStopped H.handles H.refuses inside.old inside.new) }
{
    let (at, connection) = place;
    if is_silent(connection, &bytes, clients) {
        return Ok(());
    }
    let given = tell(inside, clients, piece_at(at, connection, bytes))?;
    put_given(alloc, connection, mend, given, outputs)?;
    Ok(())
}

/// Sends a client these bytes, if there are any and its connection is open.
#[tactic(auto, using(crate::proofs::Told::not_out, crate::proofs::Told::out))]
fn send(
    clients: &Clients,
    connection: u64,
    bytes: Vec<u8>,
    outputs: &mut Vec<Output>,
) -> Result<(), NoMemory>
    ensures { OnOk result (IsOut connection bytes.items clients.now outputs.old.items outputs.new.items) }
{
    if is_silent(connection, &bytes, clients) {
        return Ok(());
    }
    outputs.push(Output::Send { connection, bytes })?;
    Ok(())
}

/// Does one thing.
#[tactic(auto, using(crate::proofs::Told::step_tells, crate::proofs::Told::step_asks, crate::proofs::Told::step_answers))]
fn do_step<H: Handler>(
    alloc: Global,
    inside: &mut H,
    clients: &mut Clients,
    place: (u64, u64),
    step: Step,
    outputs: &mut Vec<Output>,
) -> Result<(), BoundedFault<H::Fault>>
    ensures ok { OnOk result (IsStep H.handles place.0 place.1 step inside.old inside.new clients.old clients.new outputs.old.items outputs.new.items) }
    ensures fault { IfErr result (IsStopped H.handles H.refuses inside.old inside.new) }
{
    match step {
        Step::Tells(bytes, mend) => tell_bytes(
            alloc,
            inside,
            clients,
            place,
            bytes.into_vec(),
            &mend,
            outputs,
        ),
        Step::Asks(packet, mend) => {
            let bytes = spelled(alloc, &packet)?;
            tell_bytes(alloc, inside, clients, place, bytes, &mend, outputs)
        }
        Step::Answers(packet) => {
            let bytes = spelled(alloc, &packet)?;
            send(clients, place.1, bytes, outputs)?;
            Ok(())
        }
    }
}

/// Does one thing after another.
#[tactic(auto, using(crate::proofs::Told::steps_none, crate::proofs::Told::steps_then, crate::proofs::Told::stopped_steps))]
pub(crate) fn do_steps<H: Handler>(
    alloc: Global,
    inside: &mut H,
    clients: &mut Clients,
    place: (u64, u64),
    steps: Vec<Step>,
    outputs: &mut Vec<Output>,
) -> Result<(), BoundedFault<H::Fault>>
    ensures ok { OnOk result (AreSteps H.handles place.0 place.1 steps.items inside.old inside.new clients.old clients.new outputs.old.items outputs.new.items) }
    ensures fault { IfErr result (IsStopped H.handles H.refuses inside.old inside.new) }
{
    for step in steps {
        match do_step(alloc, inside, clients, place, step, outputs) {
            Ok(()) => {}
            Err(fault) => return Err(fault),
        }
    }
    Ok(())
}
