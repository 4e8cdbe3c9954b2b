//! How a message is passed on.

ghost use Rattle.std.specs.Prelude.{◌≡◌, ◌≢◌, ◌⊎◌, ◌+◌, ◌++◌, ◌↔◌, [], length, true, IfOk, IfErr, IsOk, IsTrue};
ghost use Rattle.bridge_routes.specs.Picks.{AreShared};
ghost use Rattle.bridge_routes.specs.Tables.{referents};
ghost use Rattle.bridge_routes.specs.Routes.{AreFor};
ghost use Rattle.node_clients.specs.Passing.{Copies, CopiesAt, Passes, PassesWill, Retains, lacks_room, route_to, routes_to};
ghost use Rattle.node_work.specs.Calling.{Queues, QueuesOne};
ghost use Rattle.node_work.specs.Doings.{Routes};
ghost use Rattle.node_work.specs.Passing.{PicksAreHomed, IsPassed, content_given, others, pick_copy, seated, unseated};
ghost use Rattle.node_work.specs.Working.{ComesTo, Each, Looks};
ghost use Rattle.node_work.specs.declared.fault.NodeFault.TheVariants.{NoMemory};
ghost use Rattle.home_table.specs.Homes.{IsHome};

use bridge_routes::{CopiesAndPicks, Destinations, GroupPick, PlainCopy, copies_and_picks};
use mqtt_fields::Text;
use mqtt_message::{Message, SharedMessage};
use node_work::{Held, NodeFault, Work};
use replica_store::Content;
use std::alloc::Global;
use subscription_set::Entry;

/// How many topics have a retained message, or had one, at most.
pub(crate) const MOST_TOPICS: usize = 100_000;

/// What is made of a message: the copies, of which those for clients that have no session here go nowhere, how many picks have
/// none, and where it goes to other nodes.
#[derive(Drop)]
struct Made {
    copies: Vec<PlainCopy>,
    lost: u64,
    to: Destinations,
}

/// Passes a message on: with RETAIN it is put into the store, and until its deadline each session that it is for gets a copy.
pub fn pass(work: &mut Work, message: Message) -> Result<(), NodeFault>
    ensures { ComesTo (λ x. x) result work.old work.new (Passes message) }
{
    let message = SharedMessage::new(work.alloc(), message)?;
    retain(work, &message)?;
    pass_alive(work, &message)
}

/// Puts a message with RETAIN into the store.
#[tactic(auto, using(crate::proofs::Copying::message_retained))]
fn retain(work: &mut Work, message: &SharedMessage) -> Result<(), NodeFault>
    ensures { ComesTo (λ x. x) result work.old work.new (Retains message.now) }
{
    if !message.message().retain {
        return Ok(());
    }
    let content = content_of(work.alloc(), message)?;
    work.put(content)
}

/// What the topic of a message is given: the message, or with an empty payload none.
fn content_of(alloc: Global, message: &SharedMessage) -> Result<Content, NodeFault>
    ensures ok { IfOk result (λ content. content ≡ content_given message.now) }
    ensures fault { IfErr result (λ e. e ≡ NoMemory) }
{
    if message.message().payload.as_slice().is_empty() {
        return Ok(Content::Cleared(message.message().topic.copy(alloc)?));
    }
    Ok(Content::Set(message.copy()?))
}

/// Makes a message's copies until its deadline.
fn pass_alive(work: &mut Work, message: &SharedMessage) -> Result<(), NodeFault>
    ensures { ComesTo (λ x. x) result work.old work.new (Looks (λ p h. h.at) (CopiesAt message.now)) }
{
    if message.message().alive(work.held().at()) {
        pass_copies(work, message)
    } else {
        Ok(())
    }
}

/// Makes a message's copies, which join their sessions one by one, and hands it to the other nodes that it is for.
fn pass_copies(work: &mut Work, message: &SharedMessage) -> Result<(), NodeFault>
    ensures { ComesTo (λ x. x) result work.old work.new (Copies message.now) }
{
    let made = made_of(work, message)?;
    let Made { copies, lost, to } = made;
    work.pass(lost)?;
    queue_seated(work, copies)?;
    route_each(work, message, &to)
}

/// What goes to the other nodes joins their lanes.
fn route_each(work: &mut Work, message: &SharedMessage, to: &Destinations) -> Result<(), NodeFault>
    ensures { ComesTo (λ x. x) result work.old work.new (Each Routes (routes_to work.old.place message.now to.now)) }
{
    for peer in 0..work.nodes() {
        if peer != work.id() {
            route_one(work, peer, message, to)?;
        }
    }
    Ok(())
}

/// What goes to another node joins its lane.
fn route_one(
    work: &mut Work,
    peer: u16,
    message: &SharedMessage,
    to: &Destinations,
) -> Result<(), NodeFault>
    requires { peer ≢ work.old.place.id }
    ensures { ComesTo (λ x. x) result work.old work.new (Routes (route_to message.now to.now peer)) }
{
    let route = to.route(work.alloc(), peer, message)?;
    work.route(peer, route)
}

/// The copies for clients that have a session here join it.
#[tactic(auto, using(crate::proofs::Seating::comes_seated))]
pub(crate) fn queue_seated(work: &mut Work, copies: Vec<PlainCopy>) -> Result<(), NodeFault>
    ensures { ComesTo (λ x. x) result work.old work.new (Queues (seated work.old.held copies.items)) }
{
    queue_each(work, copies)
}

/// The copies join their sessions.
fn queue_each(work: &mut Work, copies: Vec<PlainCopy>) -> Result<(), NodeFault>
    ensures { ComesTo (λ x. x) result work.old work.new (Queues copies.items) }
{
    for copy in copies {
        queue_one(work, copy)?;
    }
    Ok(())
}

/// A copy joins its session.
fn queue_one(work: &mut Work, copy: PlainCopy) -> Result<(), NodeFault>
    ensures { ComesTo (λ x. x) result work.old work.new (QueuesOne copy) }
{
    let PlainCopy { client, delivery } = copy;
    let _reaction = work.queue(&client, delivery)?;
    Ok(())
}

/// What is made of a message.
fn made_of(work: &Work, message: &SharedMessage) -> Result<Made, NodeFault>
    ensures ok { IfOk result (λ made.
        IsPassed work.now.place work.now.held message.now (seated work.now.held made.copies.items) made.lost (routes_to work.now.place message.now made.to)) }
    ensures fault { IfErr result (λ e. e ≡ NoMemory) }
{
    let held = work.held();
    let subscriptions = held.store().subscriptions();
    let both = copies_and_picks(work.alloc(), subscriptions, message, held.turn())?;
    let CopiesAndPicks {
        copies: plain,
        picks,
        matching,
    } = both;
    let to = destinations_of(work, matching.as_slice(), &picks)?;
    let homed = homed_of(work, picks)?;
    let count = homed.len();
    let homed = seated(held, homed);
    let lost = (count - homed.len()) as u64;
    let copies = joined(plain, homed)?;
    Ok(Made { copies, lost, to })
}

/// Where the clients of subscriptions and picks are at home, where the cluster has another node.
fn destinations_of(
    work: &Work,
    matching: &[&Entry],
    picks: &[GroupPick],
) -> Result<Destinations, NodeFault>
    requires { AreShared picks.now }
    ensures ok { IfOk result (λ to. (others work.now.place ≡ []) ⊎ AreFor work.now.held.homes (referents matching.now) picks.now to) }
    ensures fault { IfErr result (λ e. e ≡ NoMemory) }
{
    if is_alone(work) {
        return Ok(Destinations {
            homes: Vec::new(work.alloc()),
            picks: Vec::new(work.alloc()),
        });
    }
    Ok(Destinations::of(work.alloc(), work.homes(), matching, picks)?)
}

/// Whether the cluster has no other node.
#[tactic(auto, using(crate::proofs::Routing::alone))]
fn is_alone(work: &Work) -> bool
    ensures { IsTrue result → others work.now.place ≡ [] }
{
    work.nodes() == 1 && work.id() == 0
}

/// Those for clients that have a session here.
pub(crate) fn seated(held: &Held, mut copies: Vec<PlainCopy>) -> Vec<PlainCopy>
    ensures seated { result.items ≡ seated held.now copies.items }
    ensures others { length result.items + length (unseated held.now copies.items) ≡ length copies.items }
{
    copies.retain(|copy| held.sessions().has(&copy.client));
    copies
}

/// One list after the other.
pub(crate) fn joined(
    first: Vec<PlainCopy>,
    then: Vec<PlainCopy>,
) -> Result<Vec<PlainCopy>, NodeFault>
    ensures ok { IfOk result (λ both. both.items ≡ first.items ++ then.items) }
    ensures fault { IfErr result (λ e. e ≡ NoMemory) }
{
    let mut both = first;
    for copy in then {
        both.push(copy)?;
    }
    Ok(both)
}

/// Whether a client has its home here.
fn is_home(work: &Work, client: &Text) -> bool
    ensures { IsTrue result ↔ IsHome work.now.held.homes client.now work.now.place.id }
{
    work.homes().home_of(client.as_str()) == work.id()
}

/// The picks whose clients have their home here, as copies.
fn homed_of(work: &Work, picks: Vec<GroupPick>) -> Result<Vec<PlainCopy>, NodeFault>
    ensures ok { IfOk result (λ out. PicksAreHomed work.now.place work.now.held picks.items out.items) }
    ensures fault { IfErr result (λ e. e ≡ NoMemory) }
{
    let mut out = Vec::new(work.alloc());
    for pick in picks {
        if is_home(work, &pick.client) {
            out.push(copy_of(pick))?;
        }
    }
    Ok(out)
}

fn copy_of(pick: GroupPick) -> PlainCopy
    ensures { result ≡ pick_copy pick }
{
    let GroupPick {
        client,
        delivery,
        ..
    } = pick;
    PlainCopy { client, delivery }
}

/// Whether a message is retained and there is no room for its topic.
fn lacks_room(work: &Work, message: &Message) -> bool
    ensures { result ≡ lacks_room message.now work.now.held }
{
    if !message.retain {
        return false;
    }
    let retained = work.held().store().retained();
    !retained.holds(&message.topic) && retained.len() >= MOST_TOPICS
}

/// Passes a will on, unless it is retained and there is no room for its topic: then it takes no memory.
pub fn pass_will(work: &mut Work, message: Message) -> Result<(), NodeFault>
    ensures memory { lacks_room message work.old.held ≡ true → IsOk result }
    ensures comes { ComesTo (λ x. x) result work.old work.new (PassesWill message) }
{
    if lacks_room(work, &message) {
        work.drop_retained()
    } else {
        pass(work, message)
    }
}
