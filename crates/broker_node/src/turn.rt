//! What a node does at each event.

ghost use Rattle.std.specs.Prelude.{◌≡◌, ◌<◌, ◌≤◌, ◌^◌, Err, Ok, true, false, None};
ghost use Rattle.subscription_set.specs.Standing.{any_of};
ghost use Rattle.broker_node.specs.Idle.{Keeps, IsIdle, IsIdleAt, AsksNothing, GoesIdle, WaitsFor};
ghost use Rattle.broker_node.specs.Turns.{Decides, Turn, AnswersEvent, AnswersAfterDue, AwaitsStart, Evicts};
ghost use Rattle.node_work.specs.Working.{ComesTo};
ghost use Rattle.node_work.specs.declared.fault.NodeFault.TheVariants.{NumbersAtEnd};

use crate::bridge::{greet, hear, ship, ship_more};
use crate::due::{do_due, start};
use crate::event::{Event, EventKind};
use crate::moving::take_table;
use mqtt_fields::Text;
use node_clients::{leave, make_room, take_piece};
use node_work::{NodeFault, Work};

/// Decides one event of a node that runs.
pub fn decide(work: &mut Work, event: &Event) -> Result<(), NodeFault>
    ensures idle { event.now.at < 2 ^ 62 → IsIdle work.old.place work.old.held event.now → Keeps result work.old work.new }
    ensures end { 2 ^ 62 ≤ event.now.at → result ≡ Err NumbersAtEnd }
    ensures comes { ComesTo (λ x. x) result work.old work.new (Decides event.now) }
{
    work.take_moment(event.at)?;
    turn(work, &event.kind)
}

fn turn(work: &mut Work, kind: &EventKind) -> Result<(), NodeFault>
    ensures idle { IsIdleAt work.old.place work.old.held kind.now → Keeps result work.old work.new }
    ensures comes { ComesTo (λ x. x) result work.old work.new (Turn kind.now) }
{
    if work.held().is_started() {
        go_on(work, kind)
    } else {
        wait(work, kind)
    }
}

/// Before it has started, a node begins its work at Started and does nothing at another event.
fn wait(work: &mut Work, kind: &EventKind) -> Result<(), NodeFault>
    ensures idle { WaitsFor work.old.place work.old.held kind.now → Keeps result work.old work.new }
    ensures comes { ComesTo (λ x. x) result work.old work.new (AwaitsStart kind.now) }
{
    match kind {
        EventKind::Started => start(work),
        _ => Ok(()),
    }
}

/// What a node that has started does.
fn go_on(work: &mut Work, kind: &EventKind) -> Result<(), NodeFault>
    ensures idle { GoesIdle work.old.place work.old.held kind.now → Keeps result work.old work.new }
    ensures comes { ComesTo (λ x. x) result work.old work.new (AnswersAfterDue kind.now) }
{
    if let EventKind::Started = kind {
        return Ok(());
    }
    do_due(work)?;
    answer(work, kind)
}

/// What an event asks for, once what is due is done.
fn answer(work: &mut Work, kind: &EventKind) -> Result<(), NodeFault>
    ensures idle { AsksNothing work.old.place work.old.held kind.now → Keeps result work.old work.new }
    ensures comes { ComesTo (λ x. x) result work.old work.new (AnswersEvent kind.now) }
{
    match kind {
        EventKind::Started => Ok(()),
        EventKind::Opened { connection } => work.open(*connection),
        EventKind::Piece { connection, bytes } => take_piece(work, *connection, bytes.as_slice()),
        EventKind::Room { connection, bytes } => make_room(work, *connection, *bytes),
        EventKind::Closed { connection } => leave(work, *connection),
        EventKind::Frame { bytes } => hear(work, bytes.as_slice()),
        EventKind::Linked { peer } => greet(work, *peer),
        EventKind::Ship { peer } => ship(work, *peer),
        EventKind::More { peer, after } => ship_more(work, *peer, *after),
        EventKind::Tick => Ok(()),
        EventKind::Evict { client } => evict(work, client),
        EventKind::Table { homes } => take_table(work, homes),
    }
}

/// Removes the client's subscriptions, if there are any.
fn evict(work: &mut Work, client: &Text) -> Result<(), NodeFault>
    ensures idle { any_of client.now None work.old.held.store.subscriptions ≡ false → (result ≡ Ok tt) × (work.new ≡ work.old) }
    ensures comes { ComesTo (λ x. x) result work.old work.new (Evicts client.now) }
{
    work.remove(client, None)?;
    Ok(())
}
