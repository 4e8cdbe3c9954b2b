//! SUBSCRIBE (MQTT 5.0, 3.8).

ghost use Rattle.std.specs.Prelude.{◌≡◌, ◌&&◌, not, [], true, IfOk, IfErr};
ghost use Rattle.std.specs.List.{AllByRecursion};
ghost use Rattle.mqtt_packets.specs.declared.packet.Packet.TheVariants as packets;
ghost use Rattle.mqtt_packets.specs.Written.{HasSpelling};
ghost use Rattle.node_clients.specs.Parsing.{IsFilterOf};
ghost use Rattle.node_clients.specs.Subscribing.{SendsSuback, Grants, GrantsBy, ServesSubscribe, SubscribesTo, subscription_entry, granted, has_most, identifier_of, granted_reasons, stands, wants_retained};
ghost use Rattle.node_work.specs.Held.Calling.{MayAnswer};
ghost use Rattle.node_work.specs.Working.{ComesTo, InTurn, Looks};
ghost use Rattle.node_work.specs.declared.fault.NodeFault.TheVariants.{NoMemory};
ghost use Rattle.subscription_set.specs.Entries.{can_be_asked};

use crate::ending::close_for;
use crate::offer::offer_each;
use mqtt_fields::identifier::SUBSCRIPTION_IDENTIFIER;
use mqtt_fields::{SubscriptionOptions, Text};
use mqtt_message::Identifiers;
use mqtt_packets::{Subscribe, SubscribeFilter, reason};
use mqtt_topics::{Filter, TopicFault};
use node_work::{Asked, Granted, NodeFault, Work};
use replica_store::ReplicaStore;
use std::alloc::Global;
use subscription_set::Entry;

/// How many subscriptions a client may have at most.
const MOST_SUBSCRIPTIONS: usize = 1000;

/// Retained messages are sent for a new subscription alone (MQTT 5.0, 3.8.3.1).
const WHERE_NEW: u8 = 1;

/// Retained messages aren't sent.
const NEVER: u8 = 2;

/// Makes the subscriptions of a SUBSCRIBE: SUBACK with one reason for each filter, and then, for each granted filter in
/// order, the retained messages that it matches.
pub fn subscribe(
    work: &mut Work,
    connection: u64,
    client: &Text,
    request: &Subscribe,
) -> Result<(), NodeFault>
    requires { HasSpelling (packets.Subscribe request.now) }
    ensures { ComesTo (λ x. x) result work.old work.new (ServesSubscribe connection client.now request.now) }
{
    let identifier = identifier_of(request);
    let grants = grant_each(work, client, request.filters.as_slice(), identifier)?;
    acknowledge(work, connection, client, request.identifier, &grants)
}

/// Sends SUBACK, and then the retained messages. A SUBACK that is longer than the client takes closes the connection.
fn acknowledge(
    work: &mut Work,
    connection: u64,
    client: &Text,
    packet: u16,
    grants: &[Granted],
) -> Result<(), NodeFault>
    requires { MayAnswer packet (granted_reasons grants.now) }
    ensures { ComesTo (λ x. x) result work.old work.new (SendsSuback connection client.now packet grants.now) }
{
    let reasons = reasons_of(work.alloc(), grants)?;
    let reaction = work.answer(client, packet, &reasons)?;
    match reaction.end {
        None => offer_each(work, client, packet, grants),
        Some(_) => close_for(work, connection, client),
    }
}

fn reasons_of(alloc: Global, grants: &[Granted]) -> Result<Vec<u8>, NodeFault>
    ensures ok { IfOk result (λ reasons. reasons.items ≡ granted_reasons grants.now) }
    ensures fault { IfErr result (λ e. e ≡ NoMemory) }
{
    let mut reasons = Vec::new(alloc);
    for each in grants {
        reasons.push(each.reason)?;
    }
    Ok(reasons)
}

/// The Subscription Identifier, or 0.
fn identifier_of(request: &Subscribe) -> u32
    ensures { result ≡ identifier_of request.now }
{
    request.properties.vbi(SUBSCRIPTION_IDENTIFIER).unwrap_or(0)
}

/// The filter of a text, or none where it isn't one.
pub fn filter_of(alloc: Global, text: &Text) -> Result<Option<Filter>, NodeFault>
    ensures ok { IfOk result (λ filter. IsFilterOf text.now filter) }
    ensures fault { IfErr result (λ e. e ≡ NoMemory) }
{
    match Filter::parse(alloc, text.as_str()) {
        Ok(filter) => Ok(Some(filter)),
        Err(fault) => match fault {
            TopicFault::NoMemory => Err(NodeFault::NoMemory),
            _ => Ok(None),
        },
    }
}

/// Makes the subscriptions in turn.
fn grant_each(
    work: &mut Work,
    client: &Text,
    filters: &[SubscribeFilter],
    identifier: u32,
) -> Result<Vec<Granted>, NodeFault>
    requires { AllByRecursion (λ f. can_be_asked f.options identifier ≡ true) filters.now }
    ensures { ComesTo (λ v. v.items) result work.old work.new (InTurn (Grants client.now identifier) filters.now []) }
{
    let mut grants = Vec::new(work.alloc());
    for each in filters {
        let granted = grant(work, client, each, identifier)?;
        grants.push(granted)?;
    }
    Ok(grants)
}

/// Makes a subscription, unless its text is no filter or the client has too many.
fn grant(
    work: &mut Work,
    client: &Text,
    asked: &SubscribeFilter,
    identifier: u32,
) -> Result<Granted, NodeFault>
    requires { can_be_asked asked.now.options identifier ≡ true }
    ensures { ComesTo (λ x. x) result work.old work.new (Grants client.now identifier asked.now) }
{
    match filter_of(work.alloc(), &asked.filter)? {
        Some(filter) => grant_filter(work, client, filter, asked, identifier),
        None => Ok(Granted {
            reason: reason::TOPIC_FILTER_INVALID,
            asked: None,
        }),
    }
}

/// Makes a subscription to a filter, unless the client has too many.
fn grant_filter(
    work: &mut Work,
    client: &Text,
    filter: Filter,
    asked: &SubscribeFilter,
    identifier: u32,
) -> Result<Granted, NodeFault>
    requires same { filter ≡ asked.now.filter }
    requires asked { can_be_asked asked.now.options identifier ≡ true }
    ensures { ComesTo (λ x. x) result work.old work.new (Looks (λ p h. stands client.now asked.now.filter h) (GrantsBy client.now identifier asked.now)) }
{
    let stood = work.held().stands(client, Some(&filter));
    if is_full(work.held().store(), client, stood) {
        return Ok(Granted {
            reason: reason::QUOTA_EXCEEDED,
            asked: None,
        });
    }
    let identifiers = Identifiers::of_subscription(work.alloc(), identifier)?;
    subscribe_to(work, client, asked, &filter, identifier)?;
    Ok(grant_of(filter, asked.options, identifiers, stood))
}

/// Makes the subscription of a client to a filter, under the version of the node's table of homes.
fn subscribe_to(
    work: &mut Work,
    client: &Text,
    asked: &SubscribeFilter,
    filter: &Filter,
    identifier: u32,
) -> Result<(), NodeFault>
    requires same { filter.now ≡ asked.now.filter }
    requires asked { can_be_asked asked.now.options identifier ≡ true }
    ensures { ComesTo (λ x. x) result work.old work.new (SubscribesTo client.now identifier asked.now) }
{
    let version = work.homes().version();
    let entry = entry_of(work.alloc(), client, asked, filter, identifier, version)?;
    work.subscribe(entry)
}

/// The subscription of a client to a filter, under a version of the table of homes.
fn entry_of(
    alloc: Global,
    client: &Text,
    asked: &SubscribeFilter,
    filter: &Filter,
    identifier: u32,
    version: u32,
) -> Result<Entry, NodeFault>
    requires same { filter.now ≡ asked.now.filter }
    requires asked { can_be_asked asked.now.options identifier ≡ true }
    ensures ok { IfOk result (λ entry. entry ≡ subscription_entry client.now asked.now identifier version) }
    ensures fault { IfErr result (λ e. e ≡ NoMemory) }
{
    let client = client.copy(alloc)?;
    let filter = filter.copy(alloc)?;
    Ok(Entry::new(client, filter, asked.options, identifier, version).unwrap())
}

/// What a filter is granted, by whether the subscription stood before.
fn grant_of(
    filter: Filter,
    options: SubscriptionOptions,
    identifiers: Identifiers,
    stood: bool,
) -> Granted
    ensures { result ≡ granted (record { filter = filter; options = options }) identifiers stood }
{
    let asked = if wants_retained(options, stood) {
        Some(Asked {
            filter,
            options,
            identifiers,
        })
    } else {
        None
    };
    Granted {
        reason: options.qos(),
        asked,
    }
}

/// Whether the retained messages are sent, by whether the subscription stood before.
fn wants_retained(options: SubscriptionOptions, stood: bool) -> bool
    ensures { result ≡ wants_retained options stood }
{
    let handling = options.retain_handling();
    handling != NEVER && !(handling == WHERE_NEW && stood)
}

/// Whether the client has no room for a subscription that didn't stand before.
fn is_full(store: &ReplicaStore, client: &Text, stood: bool) -> bool
    ensures { result ≡ (not stood && has_most client.now store.now) }
{
    !stood && has_most(store, client)
}

/// Whether the client has as many subscriptions as it may.
fn has_most(store: &ReplicaStore, client: &Text) -> bool
    ensures { result ≡ has_most client.now store.now }
{
    store.subscriptions().live_count_of(client) >= MOST_SUBSCRIPTIONS
}
