//! How many bytes a client's connection takes.

ghost use Rattle.std.specs.Prelude.{◌≡◌, true, None, Ok};
ghost use Rattle.node_clients.specs.Rooms.{GivesRoom, MakesRoom, MakesRoomBy};
ghost use Rattle.node_work.specs.Held.Connections.{is_open, client_at};
ghost use Rattle.node_work.specs.Working.{ComesTo, Looks};

use crate::stream_fault::client_of;
use mqtt_fields::Text;
use node_work::{NodeFault, Work};

/// A connection takes so many bytes of PUBLISHes at QoS 1 and 2 from now on: before its client is accepted that is kept for it,
/// and afterwards its session goes on. For a connection that isn't open nothing is done, and without a client it takes no memory.
pub fn make_room(work: &mut Work, connection: u64, bytes: u64) -> Result<(), NodeFault>
    ensures idle { client_at connection work.old.held ≡ None → (result ≡ Ok tt) × (work.new.outputs ≡ work.old.outputs) × (work.new.changes ≡ work.old.changes) }
    ensures comes { ComesTo (λ x. x) result work.old work.new (MakesRoom connection bytes) }
{
    if !work.held().is_open(connection) {
        return Ok(());
    }
    make_room_by(work, connection, bytes)
}

/// An open connection takes so many bytes.
fn make_room_by(work: &mut Work, connection: u64, bytes: u64) -> Result<(), NodeFault>
    requires { is_open connection work.old.held ≡ true }
    ensures idle { client_at connection work.old.held ≡ None → (result ≡ Ok tt) × (work.new.outputs ≡ work.old.outputs) × (work.new.changes ≡ work.old.changes) }
    ensures comes { ComesTo (λ x. x) result work.old work.new (Looks (λ p h. client_at connection h) (MakesRoomBy connection bytes)) }
{
    match client_of(work, connection)? {
        Some(client) => give_room(work, &client, bytes),
        None => work.keep_room(connection, bytes),
    }
}

/// Tells a client's session.
fn give_room(work: &mut Work, client: &Text, bytes: u64) -> Result<(), NodeFault>
    ensures { ComesTo (λ x. x) result work.old work.new (GivesRoom bytes client.now) }
{
    work.make_room(client, bytes)?;
    Ok(())
}
