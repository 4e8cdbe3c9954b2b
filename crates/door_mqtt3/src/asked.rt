//! What a client's packet asks for, in MQTT 5.0.

ghost use Rattle.std.specs.Prelude.{◌≡◌, map, IfOk};
ghost use Rattle.door_mqtt3.specs.Asked.{asked, bridged, connect_asked, is_nameless, is_refused, is_shared, properties_of, subscribe_asked};

use mqtt_fields::identifier::{RECEIVE_MAXIMUM, SESSION_EXPIRY_INTERVAL};
use mqtt_fields::{NEVER_ENDS, NoMemory, Properties, Property, SubscriptionOptions, Value};
use mqtt_packets::{Connect, Packet, Subscribe, SubscribeFilter, SubscribeFilters};
use mqtt3_packets::Level;
use std::alloc::Global;

/// How many messages at QoS 1 and 2 are sent at a time to a client that can't say how many it takes.
const AT_A_TIME: u16 = 20;

/// What a subscription of a bridge has beside its QoS: No Local and Retain As Published (MQTT 5.0, 3.8.3.1).
const BRIDGED: u8 = 12;

/// What a shared filter begins with (MQTT 5.0, 4.8.2).
const SHARE: [u8; 7] = *b"$share/";

/// Whether the client has to be refused for its missing identifier: at level 3 always, at level 4 where its session is to last (MQTT-3.1.3-8).
fn is_nameless(level: Level, connect: &Connect) -> bool
    ensures { result ≡ is_nameless level connect.now }
{
    connect.client.as_str().is_empty() && (level.is_three() || !connect.clean_start)
}

/// Whether the packet is a CONNECT that is refused for its missing identifier.
pub(crate) fn is_refused(level: Level, packet: &Packet) -> bool
    ensures { result ≡ is_refused level packet.now }
{
    match packet {
        Packet::Connect(connect) => is_nameless(level, connect),
        _ => false,
    }
}

/// A session that isn't clean never ends, and 20 messages are sent at a time.
fn properties_of(alloc: Global, clean: bool) -> Result<Properties, NoMemory>
    ensures { IfOk result (λ p. p ≡ properties_of clean) }
{
    let mut properties = Properties::new(alloc);
    if !clean {
        properties.push(Property {
            id: SESSION_EXPIRY_INTERVAL,
            value: Value::Four(NEVER_ENDS),
        })?;
    }
    properties.push(Property {
        id: RECEIVE_MAXIMUM,
        value: Value::Two(AT_A_TIME),
    })?;
    Ok(properties)
}

fn connect_asked(alloc: Global, connect: Connect) -> Result<Connect, NoMemory>
    ensures { IfOk result (λ c. c ≡ connect_asked connect) }
{
    let properties = properties_of(alloc, connect.clean_start)?;
    Ok(Connect {
        clean_start: connect.clean_start,
        keep_alive: connect.keep_alive,
        properties,
        client: connect.client,
        will: connect.will,
        user_name: connect.user_name,
        password: connect.password,
    })
}

/// Whether a filter is a shared one.
fn is_shared(filter: &[u8]) -> bool
    ensures { result ≡ is_shared filter.now }
{
    if filter.len() < 7 {
        false
    } else {
        &filter[..7] == SHARE.as_slice()
    }
}

/// A filter of a bridge. No Local may not be set for a shared one (MQTT 5.0, 3.8.3.1).
fn bridged(filter: SubscribeFilter) -> SubscribeFilter
    ensures { result ≡ bridged filter }
{
    if is_shared(filter.filter.as_str().as_bytes()) {
        return filter;
    }
    SubscribeFilter {
        options: SubscriptionOptions::of_byte(filter.options.byte() % 4 + BRIDGED),
        filter: filter.filter,
    }
}

fn subscribe_asked(alloc: Global, subscribe: Subscribe) -> Result<Subscribe, NoMemory>
    ensures { IfOk result (λ s. s ≡ subscribe_asked subscribe) }
{
    let mut items = Vec::new(alloc);
    for filter in subscribe.filters.into_vec() {
        items.push(bridged(filter))?;
    }
    Ok(Subscribe {
        identifier: subscribe.identifier,
        properties: subscribe.properties,
        filters: SubscribeFilters::new(items),
    })
}

/// The packet of MQTT 5.0 that asks for what this one asks for.
pub(crate) fn asked(alloc: Global, bridge: bool, packet: Packet) -> Result<Packet, NoMemory>
    ensures { IfOk result (λ p. p ≡ asked bridge packet) }
{
    match packet {
        Packet::Connect(connect) => Ok(Packet::Connect(connect_asked(alloc, connect)?)),
        Packet::Subscribe(subscribe) => {
            if bridge {
                Ok(Packet::Subscribe(subscribe_asked(alloc, subscribe)?))
            } else {
                Ok(Packet::Subscribe(subscribe))
            }
        }
        packet => Ok(packet),
    }
}
