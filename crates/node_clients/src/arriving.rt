//! How a message from another node is taken.

ghost use Rattle.std.specs.Prelude.{◌≡◌, ◌≢◌, cond, true, [], IfOk, IfErr};
ghost use Rattle.bridge_routes.specs.Copies.{AreCopies};
ghost use Rattle.mqtt_message.specs.Expiry.{IsBefore};
ghost use Rattle.node_bridge.specs.View.{is_next};
ghost use Rattle.node_clients.specs.Passing.{TakesForward};
ghost use Rattle.node_work.specs.Handed.{IsHanded, found};
ghost use Rattle.node_work.specs.Passing.{seated};
ghost use Rattle.node_work.specs.Working.{ComesTo};
ghost use Rattle.node_work.specs.declared.fault.NodeFault.TheVariants.{NoMemory};
ghost use Rattle.subscription_set.specs.Standing.{live};

use crate::passing::{joined, queue_seated, seated};
use bridge_frames::{Forward, LaneNumber};
use bridge_routes::{PlainCopy, copies, picked_copies};
use node_work::{NodeFault, Work};
use std::alloc::Global;

/// The copies of a message, of which those for clients that have no session here go nowhere, and how many picks have none.
#[derive(Drop)]
struct Handed {
    copies: Vec<PlainCopy>,
    lost: u64,
}

/// Takes the next message of another node's lane: until its deadline its copies join their sessions.
pub fn take_forward(
    work: &mut Work,
    from: u16,
    number: LaneNumber,
    message: &Forward,
) -> Result<(), NodeFault>
    requires other { from ≢ work.old.place.id }
    requires next { is_next from number work.old.held.bridge ≡ true }
    ensures { ComesTo (λ x. x) result work.old work.new (TakesForward from number message.now) }
{
    let handed = handed_of(work, message)?;
    work.take(from, number, handed.lost)?;
    queue_seated(work, handed.copies)
}

/// The copies of a message until its deadline.
fn handed_of(work: &Work, message: &Forward) -> Result<Handed, NodeFault>
    ensures ok { IfOk result (λ handed. IsHanded work.now.held message.now (seated work.now.held handed.copies.items) handed.lost) }
    ensures fault { IfErr result (λ e. e ≡ NoMemory) }
{
    if message.message.message().alive(work.held().at()) {
        return alive_of(work, message);
    }
    Ok(Handed {
        copies: Vec::new(work.alloc()),
        lost: 0,
    })
}

/// The copies of a message whose deadline hasn't passed.
fn alive_of(work: &Work, message: &Forward) -> Result<Handed, NodeFault>
    requires { IsBefore work.now.held.at message.now.message.deadline }
    ensures ok { IfOk result (λ handed. IsHanded work.now.held message.now (seated work.now.held handed.copies.items) handed.lost) }
    ensures fault { IfErr result (λ e. e ≡ NoMemory) }
{
    let held = work.held();
    let plain = plain_of(work, message)?;
    let picked = picked_copies(
        work.alloc(),
        held.store().subscriptions(),
        &message.message,
        message.picks.as_slice(),
    )?;
    let count = picked.len();
    let found = found_of(work.alloc(), picked)?;
    let found = seated(held, found);
    let lost = (count - found.len()) as u64;
    let copies = joined(plain, found)?;
    Ok(Handed { copies, lost })
}

/// The copies for clients with plain subscriptions, where the message is for them.
fn plain_of(work: &Work, message: &Forward) -> Result<Vec<PlainCopy>, NodeFault>
    ensures ok { IfOk result (λ out.
        cond message.now.plain (AreCopies (live work.now.held.store.subscriptions) message.now.message out.items) (out.items ≡ [])) }
    ensures fault { IfErr result (λ e. e ≡ NoMemory) }
{
    if !message.plain {
        return Ok(Vec::new(work.alloc()));
    }
    let subscriptions = work.held().store().subscriptions();
    Ok(copies(work.alloc(), subscriptions, &message.message)?)
}

/// The copies whose subscriptions are still here.
fn found_of(alloc: Global, picked: Vec<Option<PlainCopy>>) -> Result<Vec<PlainCopy>, NodeFault>
    ensures ok { IfOk result (λ out. out.items ≡ found picked.items) }
    ensures fault { IfErr result (λ e. e ≡ NoMemory) }
{
    let mut out = Vec::new(alloc);
    for copy in picked {
        if let Some(copy) = copy {
            out.push(copy)?;
        }
    }
    Ok(out)
}
