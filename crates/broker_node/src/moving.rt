//! How a node takes another table of homes (MQTT 5.0, 4.11).

ghost use Rattle.std.specs.Prelude.{◌≡◌, [], Ok, true};
ghost use Rattle.node_clients.specs.Moving.{MovesAway};
ghost use Rattle.node_work.specs.Working.{ComesTo, Each};
ghost use Rattle.broker_node.specs.Moving.{AreAway, TakesNewerTable, SendsAway, TakesTable, is_newer_table};

use home_table::HomeTable;
use mqtt_fields::Text;
use node_clients::move_away;
use node_work::{Missed, NodeFault, Work};

/// The clients with sessions here go whose home is elsewhere. Where there are none it takes no memory.
pub fn send_away(work: &mut Work) -> Result<(), NodeFault>
    ensures idle { AreAway work.old.place work.old.held [] → (result ≡ Ok tt) × (work.new ≡ work.old) }
    ensures comes { ComesTo (λ x. x) result work.old work.new SendsAway }
{
    let held = work.held();
    let away = held
        .sessions()
        .elsewhere(work.alloc(), held.homes(), work.id())?;
    send_each(work, &away)
}

fn send_each(work: &mut Work, away: &[Text]) -> Result<(), NodeFault>
    ensures idle { away.now ≡ [] → (result ≡ Ok tt) × (work.new ≡ work.old) }
    ensures comes { ComesTo (λ x. x) result work.old work.new (Each MovesAway away.now) }
{
    for client in away {
        move_away(work, client)?;
    }
    Ok(())
}

/// Whether the table is newer than the node's, and for as many nodes.
fn is_newer(work: &Work, homes: &HomeTable) -> bool
    ensures { result ≡ is_newer_table homes.now work.now.place work.now.held }
{
    homes.nodes() == work.nodes() && work.homes().version() < homes.version()
}

/// Takes a table that is newer than the node's, and for as many nodes.
fn move_to(work: &mut Work, homes: &HomeTable) -> Result<(), NodeFault>
    requires { is_newer_table homes.now work.old.place work.old.held ≡ true }
    ensures { ComesTo (λ x. x) result work.old work.new (TakesNewerTable homes.now) }
{
    homes.is_table();
    work.move_to(homes.copy()?)?;
    send_away(work)
}

/// Takes a table of homes, unless it isn't newer than the node's or is for another number of nodes.
pub fn take_table(work: &mut Work, homes: &HomeTable) -> Result<(), NodeFault>
    ensures { ComesTo (λ x. x) result work.old work.new (TakesTable homes.now) }
{
    if !is_newer(work, homes) {
        return work.miss(Missed::TableRefused);
    }
    move_to(work, homes)
}
