//! How connections and sessions end.

ghost use Rattle.std.specs.Prelude.{◌≡◌, None, Ok};
ghost use Rattle.std.specs.Option.{option_copied};
ghost use Rattle.node_clients.specs.Ending.{PassesAsked, EndsSession, RemovesFor, RemovesOwn, ends_below, FollowsReaction, TicksIf, DoesDueOf, Ticks, Finishes, Parts, ClosesConnection, ClosesFor, ClosesBy, ClosesAfter};
ghost use Rattle.node_work.specs.Held.Sessions.{will_is_due, end_is_due};
ghost use Rattle.node_work.specs.Working.{ComesTo, Looks};

use crate::passing::pass_will;
use mqtt_fields::Text;
use mqtt_sessions::{Ask, Reaction};
use node_work::{NodeFault, Work};

/// Passes on the will that a session asks for.
fn pass_asked(work: &mut Work, ask: Option<Ask>) -> Result<(), NodeFault>
    ensures { ComesTo (λ x. x) result work.old work.new (PassesAsked ask) }
{
    match ask {
        Some(Ask::Pass(message)) => pass_will(work, message),
        Some(Ask::Subscribe) => Ok(()),
        Some(Ask::Unsubscribe) => Ok(()),
        None => Ok(()),
    }
}

/// The version below which the subscriptions were made that end with the session of a client whose home is at a
/// node.
fn ends_below(work: &Work, node: u16) -> u64
    ensures { result ≡ ends_below node work.now.place work.now.held }
{
    let version = u64::from(work.homes().version());
    if node == work.id() {
        version + 1
    } else {
        version
    }
}

/// Takes the subscriptions that end with the session of a client whose home is at a node.
fn remove_for(work: &mut Work, client: &Text, node: u16) -> Result<bool, NodeFault>
    ensures { ComesTo (λ x. x) result work.old work.new (RemovesFor client.now node) }
{
    let below = ends_below(work, node);
    work.remove_below(client, below)
}

/// Takes the subscriptions that end with a client's session.
fn remove_own(work: &mut Work, client: &Text) -> Result<bool, NodeFault>
    ensures { ComesTo (λ x. x) result work.old work.new (RemovesOwn client.now) }
{
    let node = work.homes().home_of(client.as_str());
    remove_for(work, client, node)
}

/// Takes out a client's session, and its subscriptions before it.
#[tactic(auto, using(crate::proofs::Parting::session_ends, crate::proofs::Parting::session_stays))]
fn end_session(work: &mut Work, client: &Text) -> Result<(), NodeFault>
    ensures { ComesTo (λ x. x) result work.old work.new (EndsSession client.now) }
{
    let _stood = remove_own(work, client)?;
    work.end_session(client)
}

/// Does what a reaction asks for where a session ends or its will is due.
fn follow(work: &mut Work, client: &Text, reaction: Reaction) -> Result<(), NodeFault>
    ensures { ComesTo (λ x. x) result work.old work.new (FollowsReaction client.now reaction) }
{
    let Reaction { ask, over, .. } = reaction;
    pass_asked(work, ask)?;
    if over {
        end_session(work, client)
    } else {
        Ok(())
    }
}

/// Does one thing that is due of a client's session: its will is published, or it ends.
pub fn tick(work: &mut Work, client: &Text) -> Result<(), NodeFault>
    ensures { ComesTo (λ x. x) result work.old work.new (Ticks client.now) }
{
    let reaction = work.tick(client)?;
    follow(work, client, reaction)
}

/// Ends a client's session now: its will is published first, and one Remove takes its subscriptions.
pub fn finish(work: &mut Work, client: &Text) -> Result<(), NodeFault>
    ensures { ComesTo (λ x. x) result work.old work.new (Finishes client.now) }
{
    let reaction = work.finish_session(client)?;
    follow(work, client, reaction)
}

fn tick_if(work: &mut Work, due: bool, client: &Text) -> Result<(), NodeFault>
    ensures { ComesTo (λ x. x) result work.old work.new (TicksIf due client.now) }
{
    if due { tick(work, client) } else { Ok(()) }
}

/// Publishes the will of a client's session, where it is due.
fn publish_due_will(work: &mut Work, client: &Text) -> Result<(), NodeFault>
    ensures { ComesTo (λ x. x) result work.old work.new (Looks (λ p h. will_is_due client.now h) (λ due. TicksIf due client.now)) }
{
    let due = work.held().will_is_due(client);
    tick_if(work, due, client)
}

/// Ends a client's session, where its end is due.
fn end_due_session(work: &mut Work, client: &Text) -> Result<(), NodeFault>
    ensures { ComesTo (λ x. x) result work.old work.new (Looks (λ p h. end_is_due client.now h) (λ due. TicksIf due client.now)) }
{
    let due = work.held().end_is_due(client);
    tick_if(work, due, client)
}

/// Does what is due of a client's session: its will is published, and then it ends.
fn do_due(work: &mut Work, client: &Text) -> Result<(), NodeFault>
    ensures { ComesTo (λ x. x) result work.old work.new (DoesDueOf client.now) }
{
    publish_due_will(work, client)?;
    end_due_session(work, client)
}

/// The connection of a client's session is gone: what is due at this moment is done.
pub fn part(work: &mut Work, client: &Text) -> Result<(), NodeFault>
    ensures { ComesTo (λ x. x) result work.old work.new (Parts client.now) }
{
    let _reaction = work.part(client)?;
    do_due(work, client)
}

/// Closes a connection, and tells its client so.
pub fn close(work: &mut Work, connection: u64) -> Result<(), NodeFault>
    ensures { ComesTo (λ x. x) result work.old work.new (ClosesConnection connection) }
{
    work.close(connection)?;
    work.tell_close(connection)
}

/// Closes the connection of a client's session.
pub fn close_for(work: &mut Work, connection: u64, client: &Text) -> Result<(), NodeFault>
    ensures { ComesTo (λ x. x) result work.old work.new (ClosesFor connection client.now) }
{
    close(work, connection)?;
    part(work, client)
}

/// Closes a connection, before a client was accepted or after.
pub fn close_by(work: &mut Work, connection: u64, client: Option<&Text>) -> Result<(), NodeFault>
    ensures { ComesTo (λ x. x) result work.old work.new (ClosesBy connection (option_copied client.entry)) }
{
    match client {
        Some(client) => close_for(work, connection, client),
        None => close(work, connection),
    }
}

/// Closes the connection of a client's session, where a reaction says so. Elsewhere nothing is done.
pub fn close_after(
    work: &mut Work,
    end: Option<u8>,
    connection: u64,
    client: &Text,
) -> Result<(), NodeFault>
    ensures idle { end ≡ None → (result ≡ Ok tt) × (work.new ≡ work.old) }
    ensures comes { ComesTo (λ x. x) result work.old work.new (ClosesAfter end connection client.now) }
{
    match end {
        Some(_) => close_for(work, connection, client),
        None => Ok(()),
    }
}
