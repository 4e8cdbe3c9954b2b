//! What the handler inside is told, and what goes out.

ghost use Rattle.std.specs.Prelude.{◌≡◌, ◌∷◌, [], ℕ, false, true, IfErr, IfOk, OnOk, is_some};
ghost use Rattle.broker_sockets.specs.declared.events.EventKind.TheVariants.{Piece};
ghost use Rattle.broker_sockets.specs.declared.events.Output.TheVariants.{Send};
ghost use Rattle.door_mqtt3.specs.Stages.{piece_of, stage_of};
ghost use Rattle.door_mqtt3.specs.Stages.Happening.{Comes, GoesOn};
ghost use Rattle.door_mqtt3.specs.Telling.{ArePaths, IsDeclinedOn, IsGivenOn, IsMet, IsOwed, IsPart, IsPassedOn, IsPut, IsStopped, IsTelling, IsTold, IsToldOne, IsTranslated, at_one, giving, is_held, none_met};

use crate::clients::Clients;
use crate::fault::Mqtt3Fault;
use crate::taken::Taken;
use broker_sockets::{BridgeHandler, Event, EventKind, Given, Handler, Output, PeerEvent};
use mqtt_fields::NoMemory;
use std::alloc::Global;

/// Puts what is sent on a connection, if anything is.
#[tactic(auto, using(crate::proofs::Paths::put_none, crate::proofs::Paths::put_some))]
fn put_sent(outputs: &mut Vec<Output>, connection: u64, bytes: Vec<u8>) -> Result<(), NoMemory>
    ensures { OnOk result (IsPut connection bytes.items outputs.old.items outputs.new.items) }
{
    if !bytes.is_empty() {
        outputs.push(Output::Send { connection, bytes })?;
    }
    Ok(())
}

/// Puts what is sent where the handler inside gives these bytes for a client that isn't of MQTT 5.0. One whose connection has to end is noted.
#[tactic(auto, using(crate::proofs::Paths::gets_path))]
fn send(
    alloc: Global,
    clients: &mut Clients,
    connection: u64,
    bytes: Vec<u8>,
    outputs: &mut Vec<Output>,
    endings: &mut Vec<u64>,
) -> Result<(), NoMemory>
    requires { is_some (stage_of clients.old connection) ≡ true }
    ensures { OnOk result (ArePaths none_met (giving (Send connection bytes ∷ [])) clients.old clients.new outputs.old.items outputs.new.items) }
{
    let (sent, ends) = clients.get(alloc, connection, &bytes)?;
    if ends {
        endings.push(connection)?;
    }
    put_sent(outputs, connection, sent)
}

/// Puts what goes out where the handler inside gives this.
#[tactic(auto, using(crate::proofs::Paths::sends_path, crate::proofs::Paths::known_path, crate::proofs::Paths::closes_path))]
fn give_one(
    alloc: Global,
    clients: &mut Clients,
    output: Output,
    outputs: &mut Vec<Output>,
    endings: &mut Vec<u64>,
) -> Result<(), NoMemory>
    ensures { OnOk result (ArePaths none_met (giving (output ∷ [])) clients.old clients.new outputs.old.items outputs.new.items) }
{
    match output {
        Output::Send { connection, bytes } => {
            if clients.contains(connection) {
                send(alloc, clients, connection, bytes, outputs, endings)
            } else {
                outputs.push(Output::Send { connection, bytes })?;
                Ok(())
            }
        }
        Output::Close { connection } => {
            clients.take(connection);
            outputs.push(Output::Close { connection })?;
            Ok(())
        }
    }
}

/// Puts what goes out where the handler inside gives all this.
fn give(
    alloc: Global,
    clients: &mut Clients,
    given: Vec<Output>,
    outputs: &mut Vec<Output>,
    endings: &mut Vec<u64>,
) -> Result<(), NoMemory>
    ensures { OnOk result (ArePaths none_met (giving given.items) clients.old clients.new outputs.old.items outputs.new.items) }
{
    for output in given {
        give_one(alloc, clients, output, outputs, endings)?;
    }
    Ok(())
}

/// An event of bytes of a client.
fn piece_at(at: u64, connection: u64, bytes: Vec<u8>) -> Event
    ensures { result ≡ record { at = at; kind = Piece connection bytes } }
{
    Event {
        at,
        kind: EventKind::Piece { connection, bytes },
    }
}

/// Bytes that begin no packet.
fn no_packet(alloc: Global) -> Result<Vec<u8>, NoMemory>
    ensures { IfOk result (λ bytes. bytes.items ≡ 0 ∷ []) }
{
    let mut bytes = Vec::new(alloc);
    bytes.push(0)?;
    Ok(bytes)
}

/// Tells the handler inside an event, and puts what goes out then.
#[tactic(auto, using(crate::proofs::ToldLaws::refusing_one))]
fn tell_one<H: Handler>(
    alloc: Global,
    inside: &mut H,
    clients: &mut Clients,
    event: Event,
    outputs: &mut Vec<Output>,
    endings: &mut Vec<u64>,
) -> Result<(), Mqtt3Fault<H::Fault>>
    ensures ok { OnOk result (IsToldOne H.handles event inside.old inside.new clients.old clients.new outputs.old.items outputs.new.items) }
    ensures fault { IfErr result (λ fault. IsStopped H.handles H.refuses event.at fault inside.old inside.new) }
{
    match inside.handle(event) {
        Ok(given) => {
            give(alloc, clients, given, outputs, endings)?;
            Ok(())
        }
        Err(fault) => Err(Mqtt3Fault::Inside(fault)),
    }
}

/// Ends a connection, if its packets aren't looked at any more: what the handler inside is told begins no packet, so it closes the connection.
#[tactic(auto, using(crate::proofs::ToldLaws::telling_none, crate::proofs::ToldLaws::telling_last, crate::proofs::ToldLaws::stopped_at))]
fn end_one<H: Handler>(
    alloc: Global,
    inside: &mut H,
    clients: &mut Clients,
    at: u64,
    connection: u64,
    outputs: &mut Vec<Output>,
    endings: &mut Vec<u64>,
) -> Result<(), Mqtt3Fault<H::Fault>>
    ensures ok { OnOk result (IsTelling H.handles at inside.old inside.new clients.old clients.new outputs.old.items outputs.new.items) }
    ensures fault { IfErr result (λ fault. IsStopped H.handles H.refuses at fault inside.old inside.new) }
{
    if !clients.has_ended(connection) {
        return Ok(());
    }
    let event = piece_at(at, connection, no_packet(alloc)?);
    tell_one(alloc, inside, clients, event, outputs, endings)?;
    Ok(())
}

/// Ends those of these connections whose packets aren't looked at any more.
#[tactic(auto, using(crate::proofs::ToldLaws::telling_none, crate::proofs::ToldLaws::telling_then, crate::proofs::ToldLaws::stopped_telling))]
fn end_all<H: Handler>(
    alloc: Global,
    inside: &mut H,
    clients: &mut Clients,
    at: u64,
    endings: Vec<u64>,
    outputs: &mut Vec<Output>,
) -> Result<(), Mqtt3Fault<H::Fault>>
    ensures ok { OnOk result (IsTelling H.handles at inside.old inside.new clients.old clients.new outputs.old.items outputs.new.items) }
    ensures fault { IfErr result (λ fault. IsStopped H.handles H.refuses at fault inside.old inside.new) }
{
    // One that has to end by what comes of another's end is told so with its next bytes.
    let mut later = Vec::new(alloc);
    for connection in endings {
        match end_one(alloc, inside, clients, at, connection, outputs, &mut later) {
            Ok(()) => {}
            Err(fault) => return Err(fault),
        }
    }
    Ok(())
}

/// Tells the handler inside an event, puts what goes out then, and ends the connections that have to end.
#[tactic(auto, using(crate::proofs::ToldLaws::stopped_one))]
fn tell<H: Handler>(
    alloc: Global,
    inside: &mut H,
    clients: &mut Clients,
    event: Event,
    outputs: &mut Vec<Output>,
) -> Result<(), Mqtt3Fault<H::Fault>>
    ensures ok { OnOk result (IsTold H.handles event inside.old inside.new clients.old clients.new outputs.old.items outputs.new.items) }
    ensures fault { IfErr result (λ fault. IsStopped H.handles H.refuses event.at fault inside.old inside.new) }
{
    let at = event.at;
    let mut endings = Vec::new(alloc);
    tell_one(alloc, inside, clients, event, outputs, &mut endings)?;
    end_all(alloc, inside, clients, at, endings, outputs)
}

/// Tells the handler inside of bytes of a client, if there are any.
#[tactic(auto, using(crate::proofs::ToldLaws::owed_none, crate::proofs::ToldLaws::owed_told, crate::proofs::ToldLaws::stopped_at))]
fn tell_piece<H: Handler>(
    alloc: Global,
    inside: &mut H,
    clients: &mut Clients,
    at: u64,
    connection: u64,
    told: Vec<u8>,
    outputs: &mut Vec<Output>,
) -> Result<(), Mqtt3Fault<H::Fault>>
    ensures ok { OnOk result (IsOwed H.handles at (λ q. piece_of q (Piece connection told)) inside.old inside.new clients.old clients.new outputs.old.items outputs.new.items) }
    ensures fault { IfErr result (λ fault. IsStopped H.handles H.refuses at fault inside.old inside.new) }
{
    if told.is_empty() {
        return Ok(());
    }
    let event = piece_at(at, connection, told);
    tell(alloc, inside, clients, event, outputs)?;
    Ok(())
}

/// Takes bytes of a client that isn't known to be of MQTT 5.0, and tells the handler inside of the packets that they complete.
#[tactic(auto, using(crate::proofs::ToldLaws::piece_taken))]
fn take_piece<H: Handler>(
    alloc: Global,
    inside: &mut H,
    clients: &mut Clients,
    at: u64,
    connection: u64,
    piece: Vec<u8>,
    outputs: &mut Vec<Output>,
) -> Result<(), Mqtt3Fault<H::Fault>>
    ensures ok { OnOk result (IsPart H.handles at (at_one connection (Comes piece.items)) inside.old inside.new clients.old clients.new outputs.old.items outputs.new.items) }
    ensures fault { IfErr result (λ fault. IsStopped H.handles H.refuses at fault inside.old inside.new) }
{
    let taken = clients.come(alloc, connection, piece)?;
    let Taken { told, first } = taken;
    put_sent(outputs, connection, first)?;
    tell_piece(alloc, inside, clients, at, connection, told, outputs)?;
    Ok(())
}

/// Hands on what was held back of a client, as far as there is room now.
#[tactic(auto, using(crate::proofs::ToldLaws::went_on))]
fn go_on<H: Handler>(
    alloc: Global,
    inside: &mut H,
    clients: &mut Clients,
    at: u64,
    connection: u64,
    outputs: &mut Vec<Output>,
) -> Result<(), Mqtt3Fault<H::Fault>>
    ensures ok { OnOk result (IsPart H.handles at (at_one connection GoesOn) inside.old inside.new clients.old clients.new outputs.old.items outputs.new.items) }
    ensures fault { IfErr result (λ fault. IsStopped H.handles H.refuses at fault inside.old inside.new) }
{
    let told = clients.go_on(alloc, connection)?;
    tell_piece(alloc, inside, clients, at, connection, told, outputs)
}

/// A connection is opened or gone.
#[tactic(auto, using(crate::proofs::Paths::opens_path, crate::proofs::Paths::goes_path, crate::proofs::Paths::plain_path, crate::proofs::Paths::room_path, crate::proofs::Paths::started_path, crate::proofs::Paths::tick_path))]
fn meet(alloc: Global, clients: &mut Clients, kind: &EventKind) -> Result<(), NoMemory>
    requires { is_held clients.old kind.now ≡ false }
    ensures { OnOk result (IsMet kind.now clients.old clients.new) }
{
    match kind {
        EventKind::Opened { connection } => clients.opens(alloc, *connection),
        EventKind::Closed { connection } => {
            clients.take(*connection);
            Ok(())
        }
        EventKind::Piece {
            connection: _,
            bytes: _,
        } => Ok(()),
        EventKind::Room { .. } => Ok(()),
        EventKind::Started => Ok(()),
        EventKind::Tick => Ok(()),
    }
}

/// Whether it is bytes of a client that isn't known to be of MQTT 5.0.
fn is_held(clients: &Clients, kind: &EventKind) -> bool
    ensures { result ≡ is_held clients.now kind.now }
{
    match kind {
        EventKind::Piece {
            connection,
            bytes: _,
        } => clients.contains(*connection),
        _ => false,
    }
}

/// Answers bytes of a client that isn't known to be of MQTT 5.0.
#[tactic(auto, using(crate::proofs::ToldLaws::translated_held, crate::proofs::ToldLaws::stopped_part))]
fn answer_held<H: Handler>(
    alloc: Global,
    inside: &mut H,
    clients: &mut Clients,
    event: Event,
) -> Result<Vec<Output>, Mqtt3Fault<H::Fault>>
    requires { is_held clients.old event.kind ≡ true }
    ensures ok { IfOk result (λ outputs. IsTranslated H.handles event inside.old inside.new clients.old clients.new outputs.items) }
    ensures fault { IfErr result (λ fault. IsStopped H.handles H.refuses event.at fault inside.old inside.new) }
{
    let mut outputs = Vec::new(alloc);
    let Event { at, kind } = event;
    match kind {
        EventKind::Piece { connection, bytes } => {
            take_piece(alloc, inside, clients, at, connection, bytes, &mut outputs)?;
            go_on(alloc, inside, clients, at, connection, &mut outputs)?;
            Ok(outputs)
        }
        _ => Ok(outputs),
    }
}

/// Answers any other event.
#[tactic(auto, using(crate::proofs::ToldLaws::translated_told))]
fn answer_free<H: Handler>(
    alloc: Global,
    inside: &mut H,
    clients: &mut Clients,
    event: Event,
) -> Result<Vec<Output>, Mqtt3Fault<H::Fault>>
    requires { is_held clients.old event.kind ≡ false }
    ensures ok { IfOk result (λ outputs. IsTranslated H.handles event inside.old inside.new clients.old clients.new outputs.items) }
    ensures fault { IfErr result (λ fault. IsStopped H.handles H.refuses event.at fault inside.old inside.new) }
{
    let mut outputs = Vec::new(alloc);
    meet(alloc, clients, &event.kind)?;
    tell(alloc, inside, clients, event, &mut outputs)?;
    Ok(outputs)
}

/// Answers an event.
pub(crate) fn answer<H: Handler>(
    alloc: Global,
    inside: &mut H,
    clients: &mut Clients,
    event: Event,
) -> Result<Vec<Output>, Mqtt3Fault<H::Fault>>
    ensures ok { IfOk result (λ outputs. IsTranslated H.handles event inside.old inside.new clients.old clients.new outputs.items) }
    ensures fault { IfErr result (λ fault. IsStopped H.handles H.refuses event.at fault inside.old inside.new) }
{
    if is_held(clients, &event.kind) {
        answer_held(alloc, inside, clients, event)
    } else {
        answer_free(alloc, inside, clients, event)
    }
}

/// What goes out where the handler inside gives this, at a moment.
#[tactic(auto, using(crate::proofs::ToldLaws::given_on))]
fn give_on<H: Handler>(
    alloc: Global,
    inside: &mut H,
    clients: &mut Clients,
    at: u64,
    given: Vec<Output>,
) -> Result<Vec<Output>, Mqtt3Fault<H::Fault>>
    ensures ok { IfOk result (λ outputs. IsGivenOn H.handles at given.items inside.old inside.new clients.old clients.new outputs.items) }
    ensures fault { IfErr result (λ fault. IsStopped H.handles H.refuses at fault inside.old inside.new) }
{
    let mut outputs = Vec::new(alloc);
    let mut endings = Vec::new(alloc);
    give(alloc, clients, given, &mut outputs, &mut endings)?;
    end_all(alloc, inside, clients, at, endings, &mut outputs)?;
    Ok(outputs)
}

/// Tells the handler inside what other nodes bring about.
#[tactic(auto, using(crate::proofs::ToldLaws::passed_so, crate::proofs::ToldLaws::declined_on))]
pub(crate) fn hear_on<H: BridgeHandler>(
    alloc: Global,
    inside: &mut H,
    clients: &mut Clients,
    event: PeerEvent,
) -> Result<Given, Mqtt3Fault<H::Fault>>
    ensures ok { IfOk result (λ given. IsPassedOn H.handles H.hears event inside.old inside.new clients.old clients.new given) }
    ensures fault { IfErr result (λ fault. IsDeclinedOn H.handles H.refuses H.hears H.declines event fault inside.old inside.new) }
{
    let at = event.at;
    match inside.hear(event) {
        Ok(given) => {
            let Given { outputs, frames } = given;
            match give_on(alloc, inside, clients, at, outputs) {
                Ok(outputs) => Ok(Given { outputs, frames }),
                Err(fault) => Err(fault),
            }
        }
        Err(fault) => Err(Mqtt3Fault::Inside(fault)),
    }
}
