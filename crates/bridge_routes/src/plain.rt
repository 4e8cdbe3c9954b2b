//! Copies of a message by plain subscriptions.

ghost use Rattle.std.specs.Prelude.{◌≡◌, ◌<◌, [], length, map as map_list, IfOk, IsOk, OnErr};
ghost use Rattle.std.specs.List.Sorted.{IsSortedByKey};
ghost use Rattle.subscription_set.specs.Filing.{text_cmp};
ghost use Rattle.subscription_set.specs.Standing.{live};
ghost use Rattle.bridge_routes.specs.Copies.{AreCopies, AreCopiesAmong, AreLive, IsFor, plain_copy};
ghost use Rattle.bridge_routes.specs.Gathered.{by_client, client_of};
ghost use Rattle.bridge_routes.specs.Tables.{referents};

use crate::deliveries::copy_for;
use crate::gathered::{member_at, sort_by_client};
use crate::selected::{counted_among, found};
use mqtt_fields::{NoMemory, Text};
use mqtt_message::{Delivery, SharedMessage};
use std::alloc::Global;
use subscription_set::{Entry, SubscriptionSet};

/// A copy of a message for a client.
#[derive(Drop)]
pub struct PlainCopy {
    pub client: Text,
    pub delivery: Delivery,
}

// The copy for a client with these subscriptions.
fn plain_copy(
    alloc: Global,
    message: &SharedMessage,
    client: &Text,
    own: &[&Entry],
) -> Result<PlainCopy, NoMemory>
    ensures { IfOk result (λ copy. copy ≡ plain_copy message.now (client.now, referents own.now)) }
{
    Ok(PlainCopy {
        client: client.copy(alloc)?,
        delivery: copy_for(alloc, message, own)?,
    })
}

// A copy for each of the clients, of subscriptions in the order of their clients' bytes.
fn copies_in_order(
    alloc: Global,
    message: &SharedMessage,
    counted: &[&Entry],
) -> Result<Vec<PlainCopy>, NoMemory>
    requires { IsSortedByKey client_of text_cmp (referents counted.now) }
    ensures { IfOk result (λ out. out.items
        ≡ map_list (plain_copy message.now) (by_client (referents counted.now))) }
{
    let mut out = Vec::with_capacity(alloc, counted.len())?;
    let mut place = 0;
    while place < counted.len() {
        let (client, own) = member_at(counted, place);
        out.push(plain_copy(alloc, message, client, own)?)?;
        place += own.len();
    }
    Ok(out)
}

// A copy for each of the clients.
fn copies_of(
    alloc: Global,
    message: &SharedMessage,
    mut counted: Vec<&Entry>,
) -> Result<Vec<PlainCopy>, NoMemory>
    ensures { IfOk result (λ out. out.items
        ≡ map_list (plain_copy message.now) (by_client (referents counted.entry.items))) }
{
    sort_by_client(&mut counted)?;
    copies_in_order(alloc, message, counted.as_slice())
}

/// One copy for each client with a plain subscription that counts, among these, which match. Only these take memory.
pub fn copies_among(
    alloc: Global,
    message: &SharedMessage,
    found: Vec<&Entry>,
) -> Result<Vec<PlainCopy>, NoMemory>
    ensures copies { IfOk result (λ out. AreCopiesAmong (referents found.entry.items) message.now out.items) }
    ensures memory { OnErr result (0 < length found.entry.items) }
{
    if found.is_empty() {
        return Ok(Vec::new(alloc));
    }
    let counted = counted_among(found, message.message());
    copies_of(alloc, message, counted)
}

/// One copy of a message for each client with a live plain subscription that counts, in the order of the clients' bytes: at
/// the greatest QoS granted, but at most the message's; with the message's RETAIN where one of them has Retain As
/// Published; with all their identifiers (MQTT 5.0, 3.3.1.3, 3.3.4). No Local leaves out the publisher's own. It takes
/// memory only where a live subscription matches; a copy with more than 65,535 identifiers counts as want of memory.
pub fn copies(
    alloc: Global,
    subscriptions: &SubscriptionSet,
    message: &SharedMessage,
) -> Result<Vec<PlainCopy>, NoMemory>
    ensures copies { IfOk result (λ out. AreCopies (live subscriptions.now) message.now out.items) }
    ensures none { AreLive (IsFor message.now) (live subscriptions.now) [] → IsOk result }
{
    let found = found(subscriptions, message)?;
    copies_among(alloc, message, found)
}
