//! What goes out where the handler inside gives something.

ghost use Rattle.std.specs.Prelude.{◌≡◌, ◌∷◌, [], IfOk, OnOk};
ghost use Rattle.broker_sockets.specs.declared.events.Output.TheVariants.{Send, Close};
ghost use Rattle.door_guard.specs.Clients.{IsBut, client_of, restaged};
ghost use Rattle.door_guard.specs.Giving.{IsEnded, awaited_for};
ghost use Rattle.door_packets.specs.Sending.{mended as mended_of};
ghost use Rattle.door_guard.specs.Stages.Outgoing.{Bytes as Sent, End};
ghost use Rattle.door_guard.specs.Telling.{AreGiven, IsSent};

use crate::known::Known;
use broker_sockets::Output;
use door_packets::{Access, Awaited, disconnect, may_go, mended};
use mqtt_fields::NoMemory;
use std::alloc::Global;

/// Sends these bytes.
#[tactic(auto, using(crate::proofs::Outs::sent))]
pub(crate) fn send(
    outputs: &mut Vec<Output>,
    connection: u64,
    bytes: Vec<u8>,
) -> Result<(), NoMemory>
    ensures { OnOk result (IsSent connection (Sent bytes.items ∷ []) outputs.old.items outputs.new.items) }
{
    outputs.push(Output::Send { connection, bytes })?;
    Ok(())
}

/// Closes a connection.
#[tactic(auto, using(crate::proofs::Outs::shut))]
pub(crate) fn close(outputs: &mut Vec<Output>, connection: u64) -> Result<(), NoMemory>
    ensures { OnOk result (IsSent connection (End ∷ []) outputs.old.items outputs.new.items) }
{
    outputs.push(Output::Close { connection })?;
    Ok(())
}

/// Ends a connection with DISCONNECT; the handler inside is told of it later.
#[tactic(auto, using(crate::proofs::Outs::ended))]
pub(crate) fn end(
    alloc: Global,
    known: &mut Known,
    connection: u64,
    outputs: &mut Vec<Output>,
) -> Result<(), NoMemory>
    ensures ended { OnOk result (IsEnded connection known.old.clients known.new.clients outputs.old.items outputs.new.items) }
    ensures counts { OnOk result (known.new.refusals ≡ known.old.refusals) }
{
    send(outputs, connection, disconnect(alloc)?)?;
    close(outputs, connection)?;
    known.leave(alloc, connection)
}

/// Bytes for a connection, mended where they are for the one on which a SUBACK is to come.
fn mended_for(
    alloc: Global,
    place: u64,
    awaited: &Option<Awaited>,
    connection: u64,
    bytes: Vec<u8>,
) -> Result<Vec<u8>, NoMemory>
    ensures { IfOk result (λ x. x.items ≡ mended_of (awaited_for place awaited.now connection) bytes.items) }
{
    if place == connection {
        mended(alloc, awaited, bytes)
    } else {
        Ok(bytes)
    }
}

/// Puts what goes out where the handler inside gives these bytes.
#[tactic(auto, using(crate::proofs::Outs::gets_none, crate::proofs::Outs::gets_leaving, crate::proofs::Outs::gets_sent, crate::proofs::Outs::gets_ended))]
fn give_bytes<A: Access>(
    alloc: Global,
    access: &A,
    known: &mut Known,
    place: u64,
    awaited: &Option<Awaited>,
    connection: u64,
    bytes: Vec<u8>,
    outputs: &mut Vec<Output>,
) -> Result<(), NoMemory>
    ensures { OnOk result (AreGiven (A.rights access.now) place awaited.now (Send connection bytes ∷ []) known.old.clients known.new.clients (known.old.refusals, outputs.old.items) (known.new.refusals, outputs.new.items)) }
{
    let Some(client) = known.clients.get(connection) else {
        return Ok(());
    };
    if client.is_leaving() {
        return Ok(());
    }
    let put = mended_for(alloc, place, awaited, connection, bytes)?;
    if may_go(alloc, access, &client.login, &put)? {
        return send(outputs, connection, put);
    }
    known.refusals.note_message();
    end(alloc, known, connection, outputs)
}

/// The handler inside closes a connection.
#[tactic(auto, using(crate::proofs::Outs::closes_live, crate::proofs::Outs::closes_not))]
fn give_close<A: Access>(
    access: &A,
    known: &mut Known,
    place: u64,
    awaited: &Option<Awaited>,
    connection: u64,
    outputs: &mut Vec<Output>,
) -> Result<(), NoMemory>
    ensures { OnOk result (AreGiven (A.rights access.now) place awaited.now (Close connection ∷ []) known.old.clients known.new.clients (known.old.refusals, outputs.old.items) (known.new.refusals, outputs.new.items)) }
{
    let live = known.clients.is_live(connection);
    known.clients.take(connection);
    if live {
        return close(outputs, connection);
    }
    Ok(())
}

/// Puts what goes out where the handler inside gives this.
#[tactic(auto, using(crate::proofs::Outs::given_as))]
fn give_one<A: Access>(
    alloc: Global,
    access: &A,
    known: &mut Known,
    place: u64,
    awaited: &Option<Awaited>,
    output: Output,
    outputs: &mut Vec<Output>,
) -> Result<(), NoMemory>
    ensures { OnOk result (AreGiven (A.rights access.now) place awaited.now (output ∷ []) known.old.clients known.new.clients (known.old.refusals, outputs.old.items) (known.new.refusals, outputs.new.items)) }
{
    match output {
        Output::Send { connection, bytes } => {
            give_bytes(
                alloc, access, known, place, awaited, connection, bytes, outputs,
            )
        }
        Output::Close { connection } => give_close(
            access, known, place, awaited, connection, outputs,
        ),
    }
}

/// Puts what goes out where the handler inside gives all this, while a SUBACK is to come on one connection.
#[tactic(auto, using(crate::proofs::Outs::given_none, crate::proofs::Outs::given_then))]
pub(crate) fn give<A: Access>(
    alloc: Global,
    access: &A,
    known: &mut Known,
    place: u64,
    awaited: &Option<Awaited>,
    given: Vec<Output>,
    outputs: &mut Vec<Output>,
) -> Result<(), NoMemory>
    ensures { OnOk result (AreGiven (A.rights access.now) place awaited.now given.items known.old.clients known.new.clients (known.old.refusals, outputs.old.items) (known.new.refusals, outputs.new.items)) }
{
    for output in given {
        give_one(alloc, access, known, place, awaited, output, outputs)?;
    }
    Ok(())
}
