//! What is due at a moment (MQTT 5.0, 3.1.2.5, 3.1.2.10 and 3.1.2.11.2).

ghost use Rattle.std.specs.Prelude.{◌≡◌, Ok, []};
ghost use Rattle.session_table.specs.Seats.{connected, run_outs, wills_due, ends_due};
ghost use Rattle.broker_node.specs.Due.{ClosesStored, DoesDue, EndsConnections, EndsSessions, PartsFrom, PublishesWills, RunsOut, Starts, TicksOf};
ghost use Rattle.broker_node.specs.Idle.{NothingDue, Keeps};
ghost use Rattle.broker_node.specs.Moving.{AreAway, SendsAway};
ghost use Rattle.node_work.specs.Working.{ComesTo, Each, Then};

use crate::moving::send_away;
use mqtt_fields::Text;
use node_clients::{close, tick};
use node_work::{NodeFault, Work};

/// Does what is due: connections whose Keep Alive has run out end, wills are published, and sessions end. Where nothing is
/// due it takes no memory.
pub fn do_due(work: &mut Work) -> Result<(), NodeFault>
    ensures idle { NothingDue work.old.held → (result ≡ Ok tt) × (work.new ≡ work.old) }
    ensures comes { ComesTo (λ x. x) result work.old work.new DoesDue }
{
    end_connections(work)?;
    publish_wills(work)?;
    end_sessions(work)
}

/// Ends the connections whose Keep Alive has run out.
fn end_connections(work: &mut Work) -> Result<(), NodeFault>
    ensures idle { run_outs work.old.held.sessions work.old.held.at ≡ [] → (result ≡ Ok tt) × (work.new ≡ work.old) }
    ensures comes { ComesTo (λ x. x) result work.old work.new EndsConnections }
{
    let held = work.held();
    let dues = held.sessions().run_out(work.alloc(), held.at())?;
    end_each(work, &dues)
}

fn end_each(work: &mut Work, dues: &[(u64, Text)]) -> Result<(), NodeFault>
    ensures idle { dues.now ≡ [] → (result ≡ Ok tt) × (work.new ≡ work.old) }
    ensures comes { ComesTo (λ x. x) result work.old work.new (Each RunsOut dues.now) }
{
    for due in dues {
        end_connection(work, due)?;
    }
    Ok(())
}

/// Ends a connection whose Keep Alive has run out: Keep Alive timeout.
fn end_connection(work: &mut Work, due: &(u64, Text)) -> Result<(), NodeFault>
    ensures { ComesTo (λ x. x) result work.old work.new (RunsOut due.now) }
{
    work.tick(&due.1)?;
    close(work, due.0)?;
    part(work, &due.1)
}

/// Publishes the wills that are due.
fn publish_wills(work: &mut Work) -> Result<(), NodeFault>
    ensures idle { wills_due work.old.held.sessions work.old.held.at ≡ [] → (result ≡ Ok tt) × (work.new ≡ work.old) }
    ensures comes { ComesTo (λ x. x) result work.old work.new PublishesWills }
{
    let held = work.held();
    let dues = held.sessions().wills(work.alloc(), held.at())?;
    tick_each(work, &dues)
}

/// Ends the sessions whose end has come.
fn end_sessions(work: &mut Work) -> Result<(), NodeFault>
    ensures idle { ends_due work.old.held.sessions work.old.held.at ≡ [] → (result ≡ Ok tt) × (work.new ≡ work.old) }
    ensures comes { ComesTo (λ x. x) result work.old work.new EndsSessions }
{
    let held = work.held();
    let dues = held.sessions().ends(work.alloc(), held.at())?;
    tick_each(work, &dues)
}

fn tick_each(work: &mut Work, dues: &[(u64, Text)]) -> Result<(), NodeFault>
    ensures idle { dues.now ≡ [] → (result ≡ Ok tt) × (work.new ≡ work.old) }
    ensures comes { ComesTo (λ x. x) result work.old work.new (Each TicksOf dues.now) }
{
    for due in dues {
        tick(work, &due.1)?;
    }
    Ok(())
}

/// Begins the node's work: stored sessions that were connected are closed, what is due is done, and clients go whose home is
/// elsewhere.
pub fn start(work: &mut Work) -> Result<(), NodeFault>
    ensures idle { connected work.old.held.sessions ≡ [] → NothingDue work.old.held → AreAway work.old.place work.old.held [] → Keeps result work.old work.new }
    ensures comes { ComesTo (λ x. x) result work.old work.new Starts }
{
    work.begin()?;
    close_stored(work)?;
    settle(work)
}

/// What is due is done, and then clients go whose home is elsewhere.
fn settle(work: &mut Work) -> Result<(), NodeFault>
    ensures idle { NothingDue work.old.held → AreAway work.old.place work.old.held [] → (result ≡ Ok tt) × (work.new ≡ work.old) }
    ensures comes { ComesTo (λ x. x) result work.old work.new (Then DoesDue (λ _. SendsAway)) }
{
    do_due(work)?;
    send_away(work)
}

/// Closes the stored sessions that were connected.
fn close_stored(work: &mut Work) -> Result<(), NodeFault>
    ensures idle { connected work.old.held.sessions ≡ [] → (result ≡ Ok tt) × (work.new ≡ work.old) }
    ensures comes { ComesTo (λ x. x) result work.old work.new ClosesStored }
{
    let clients = work.held().sessions().were_connected(work.alloc())?;
    part_each(work, &clients)
}

fn part_each(work: &mut Work, clients: &[Text]) -> Result<(), NodeFault>
    ensures idle { clients.now ≡ [] → (result ≡ Ok tt) × (work.new ≡ work.old) }
    ensures comes { ComesTo (λ x. x) result work.old work.new (Each PartsFrom clients.now) }
{
    for client in clients {
        part(work, client)?;
    }
    Ok(())
}

/// The connection of a client's session is gone.
fn part(work: &mut Work, client: &Text) -> Result<(), NodeFault>
    ensures { ComesTo (λ x. x) result work.old work.new (PartsFrom client.now) }
{
    work.part(client)?;
    Ok(())
}
