//! Picks of shared groups.

ghost use Rattle.std.specs.Prelude.{◌≡◌, ◌<◌, length, IfOk, OnErr};
ghost use Rattle.std.specs.List.{flat_map};
ghost use Rattle.std.specs.List.Sorted.{IsSortedByKey};
ghost use Rattle.std.specs.Option.{option_to_list};
ghost use Rattle.subscription_set.specs.Filing.{text_cmp};
ghost use Rattle.bridge_routes.specs.Gathered.{by_group, client_of};
ghost use Rattle.bridge_routes.specs.Picks.{pick_by, pick_of, picked};
ghost use Rattle.bridge_routes.specs.Tables.{referents};

use crate::deliveries::copy_for;
use crate::gathered::{by_client, by_group, sort_by_client};
use mqtt_fields::{NoMemory, Text};
use mqtt_message::{Delivery, SharedMessage};
use mqtt_topics::Filter;
use std::alloc::Global;
use subscription_set::Entry;

/// The member of a shared group that gets a message, with the group's whole filter and the member's copy.
#[derive(Drop)]
pub struct GroupPick {
    pub client: Text,
    pub filter: Filter,
    pub delivery: Delivery,
}

// The pick of a member, by its subscriptions in the group.
fn pick_by(
    alloc: Global,
    message: &SharedMessage,
    client: &Text,
    own: &[&Entry],
) -> Result<Option<GroupPick>, NoMemory>
    ensures { IfOk result (λ pick. option_to_list pick
        ≡ pick_by message.now client.now (referents own.now)) }
{
    let Some(entry) = own.first() else {
        return Ok(None);
    };
    Ok(Some(GroupPick {
        client: client.copy(alloc)?,
        filter: entry.filter().copy(alloc)?,
        delivery: copy_for(alloc, message, own)?,
    }))
}

// The pick of a group, by its subscriptions in the order of their clients' bytes.
fn pick_in_order(
    alloc: Global,
    message: &SharedMessage,
    group: &[&Entry],
    turn: u64,
) -> Result<Option<GroupPick>, NoMemory>
    requires { IsSortedByKey client_of text_cmp (referents group.now) }
    ensures { IfOk result (λ pick. option_to_list pick
        ≡ pick_of message.now (picked turn (referents group.now))) }
{
    let members = by_client(alloc, group)?;
    if members.is_empty() {
        return Ok(None);
    }
    let place = (turn % members.len() as u64) as usize;
    match members.as_slice().get(place) {
        Some((client, own)) => pick_by(alloc, message, *client, *own),
        None => Ok(None),
    }
}

// The pick of a group.
fn pick_in(
    alloc: Global,
    message: &SharedMessage,
    mut group: Vec<&Entry>,
    turn: u64,
) -> Result<Option<GroupPick>, NoMemory>
    ensures { IfOk result (λ pick. option_to_list pick
        ≡ pick_of message.now (picked turn (referents group.entry.items))) }
{
    sort_by_client(&mut group)?;
    pick_in_order(alloc, message, group.as_slice(), turn)
}

// A pick for each of the groups.
fn picks_of(
    alloc: Global,
    message: &SharedMessage,
    shared: &[&Entry],
    turn: u64,
) -> Result<Vec<GroupPick>, NoMemory>
    ensures { IfOk result (λ out. out.items
        ≡ flat_map (λ g. pick_of message.now (picked turn g.1)) (by_group (referents shared.now))) }
{
    let mut out = Vec::new(alloc);
    if shared.is_empty() {
        return Ok(out);
    }
    for (_, group) in by_group(alloc, shared)? {
        match pick_in(alloc, message, group, turn)? {
            Some(pick) => out.push(pick)?,
            None => {}
        }
    }
    Ok(out)
}

/// One pick for each group of these shared subscriptions. Only these take memory.
pub fn picks_among(
    alloc: Global,
    message: &SharedMessage,
    shared: &[&Entry],
    turn: u64,
) -> Result<Vec<GroupPick>, NoMemory>
    ensures picks { IfOk result (λ out. out.items
        ≡ flat_map (λ g. pick_of message.now (picked turn g.1)) (by_group (referents shared.now))) }
    ensures memory { OnErr result (0 < length shared.now) }
{
    if shared.is_empty() {
        return Ok(Vec::new(alloc));
    }
    picks_of(alloc, message, shared, turn)
}
