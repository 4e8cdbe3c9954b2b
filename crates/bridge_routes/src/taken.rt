//! The copies that another node's message makes for the members of shared groups that it picked.

ghost use Rattle.std.specs.Prelude.{◌↔◌, [], length, IfOk, IsOk, IsTrue, OnErr, ◌<◌};
ghost use Rattle.bridge_routes.specs.Copies.{AreLive, IsFor};
ghost use Rattle.bridge_routes.specs.Tables.{referents};
ghost use Rattle.subscription_set.specs.Standing.{live};
ghost use Rattle.bridge_routes.specs.Routes.{Pairwise};
ghost use Rattle.bridge_routes.specs.Taken.{IsPicked, IsPickedCopy};

use crate::latest::latest_at;
use crate::{PlainCopy, copy_for};
use bridge_frames::Pick;
use mqtt_fields::NoMemory;
use mqtt_message::{Message, SharedMessage};
use std::alloc::Global;
use subscription_set::{Entry, SubscriptionSet};

// What is live of a pick: the latest of what stands of its client to its filter, where that matches.
fn own_of<'a>(
    alloc: Global,
    subscriptions: &'a SubscriptionSet,
    message: &Message,
    pick: &Pick,
) -> Result<Vec<&'a Entry>, NoMemory>
    ensures { IfOk result (λ out.
        AreLive (IsPicked message.now pick.now) (live subscriptions.now) (referents out.items)) }
{
    let mut out = Vec::new(alloc);
    let filter = pick.filter.as_filter();
    if !filter.matches(&message.topic) {
        return Ok(out);
    }
    let dots = subscriptions.dots_of(&pick.client, Some(filter))?;
    if let Some(entry) = latest_at(subscriptions, &dots) {
        out.push(entry)?;
    }
    Ok(out)
}

// The copy for a member that was picked, unless its subscription is gone.
fn picked_copy(
    alloc: Global,
    subscriptions: &SubscriptionSet,
    message: &SharedMessage,
    pick: &Pick,
) -> Result<Option<PlainCopy>, NoMemory>
    ensures { IfOk result (λ copy. IsPickedCopy (live subscriptions.now) message.now pick.now copy) }
{
    let own = own_of(alloc, subscriptions, message.message(), pick)?;
    if own.is_empty() {
        return Ok(None);
    }
    let client = pick.client.copy(alloc)?;
    let delivery = copy_for(alloc, message, own.as_slice())?;
    Ok(Some(PlainCopy { client, delivery }))
}

/// For each pick the copy for its client by its live subscription to the filter, or none where that is gone. Only picks take
/// memory.
pub fn picked_copies(
    alloc: Global,
    subscriptions: &SubscriptionSet,
    message: &SharedMessage,
    picks: &[Pick],
) -> Result<Vec<Option<PlainCopy>>, NoMemory>
    ensures copies { IfOk result (λ out.
        Pairwise (IsPickedCopy (live subscriptions.now) message.now) picks.now out.items) }
    ensures memory { OnErr result (0 < length picks.now) }
{
    let mut out = Vec::new(alloc);
    for pick in picks {
        out.push(picked_copy(alloc, subscriptions, message, pick)?)?;
    }
    Ok(out)
}
