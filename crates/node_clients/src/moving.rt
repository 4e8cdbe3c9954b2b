//! How a client goes whose home is at another node from now on (MQTT 5.0, 4.11).

ghost use Rattle.std.specs.Prelude.{◌<◌, length};
ghost use Rattle.node_clients.specs.Ending.{IsAtHome};
ghost use Rattle.node_clients.specs.Moving.{MovesAway, PartsWays, RedirectsHome, RedirectsTo};
ghost use Rattle.node_work.specs.Working.{ComesTo};

use crate::ending::{close_for, finish};
use mqtt_fields::Text;
use node_work::{NodeFault, Work};

/// Tells a client the address of a node.
fn redirect_to(work: &mut Work, connection: u64, client: &Text, node: u16) -> Result<(), NodeFault>
    requires { node < length work.old.held.homes.nodes }
    ensures { ComesTo (λ x. x) result work.old work.new (RedirectsTo connection client.now node) }
{
    let address = work.homes().address(node).copy(work.alloc())?;
    work.redirect(connection, client, address)
}

/// Tells a client the address of its home.
fn redirect_home(work: &mut Work, connection: u64, client: &Text) -> Result<(), NodeFault>
    ensures { ComesTo (λ x. x) result work.old work.new (RedirectsHome connection client.now) }
{
    let node = work.homes().home_of(client.as_str());
    redirect_to(work, connection, client, node)
}

/// Tells a client that is connected where its home is, and closes its connection.
fn part_ways(work: &mut Work, client: &Text) -> Result<(), NodeFault>
    ensures { ComesTo (λ x. x) result work.old work.new (PartsWays client.now) }
{
    let Some(connection) = work.held().sessions().connection(client) else {
        return Ok(());
    };
    redirect_home(work, connection, client)?;
    close_for(work, connection, client)
}

/// Ends the session of a client whose home is at another node from now on.
pub fn move_away(work: &mut Work, client: &Text) -> Result<(), NodeFault>
    ensures { ComesTo (λ x. x) result work.old work.new (MovesAway client.now) }
{
    part_ways(work, client)?;
    finish(work, client)
}
