//! The packets of an accepted client.

ghost use Rattle.std.specs.Prelude.{◌≡◌, Some, IfOk, IfErr, IfSome};
ghost use Rattle.std.specs.Option.{option_copied};
ghost use Rattle.mqtt_fields.specs.Numbers.{IsText};
ghost use Rattle.mqtt_packets.specs.Written.{HasSpelling};
ghost use Rattle.mqtt_sessions.specs.Aliases.{alias_of, alias_topic, filled};
ghost use Rattle.node_clients.specs.Passing.{Drops};
ghost use Rattle.node_clients.specs.Serving.{ServesPacket, SubscribesBy, UnsubscribesBy, DoesAsked, DoesReaction, IsNameOf, room_for, takes_topic, is_dropped};
ghost use Rattle.node_work.specs.Held.Sessions.{aliases_at};
ghost use Rattle.node_work.specs.Working.{ComesTo, If, Returns};
ghost use Rattle.node_work.specs.declared.fault.NodeFault.TheVariants.{NoMemory};

use crate::ending::close_after;
use crate::passing::{MOST_TOPICS, pass};
use crate::subscribe::subscribe;
use crate::unsubscribe::unsubscribe;
use mqtt_fields::identifier::TOPIC_ALIAS;
use mqtt_fields::{Qos, Text};
use mqtt_packets::{Packet, Publish};
use mqtt_sessions::{Ask, Reaction};
use mqtt_topics::{TopicFault, TopicName};
use node_work::{Held, NodeFault, Work};
use replica_store::ReplicaStore;
use std::alloc::Global;

/// Hands a packet to its client's session, and does what that asks for.
pub fn serve(
    work: &mut Work,
    connection: u64,
    client: &Text,
    packet: &Packet,
) -> Result<(), NodeFault>
    requires { HasSpelling packet.now }
    ensures { ComesTo (λ x. x) result work.old work.new (ServesPacket connection client.now packet.now) }
{
    let room = room_for(work.alloc(), client, packet, work.held())?;
    let reaction = work.packet(client, packet, room)?;
    react(work, connection, client, packet, room, reaction)
}

/// Does what a session asks for after a packet, and closes the connection where it says so.
fn react(
    work: &mut Work,
    connection: u64,
    client: &Text,
    packet: &Packet,
    room: bool,
    reaction: Reaction,
) -> Result<(), NodeFault>
    requires { HasSpelling packet.now }
    ensures { ComesTo (λ x. x) result work.old work.new (DoesReaction connection client.now packet.now room reaction) }
{
    let end = reaction.end;
    do_asked(work, reaction.ask, connection, client, packet, room, end)?;
    close_after(work, end, connection, client)
}

/// Does what a session asks for. A packet of which it asks nothing may be a retained message that is dropped.
fn do_asked(
    work: &mut Work,
    ask: Option<Ask>,
    connection: u64,
    client: &Text,
    packet: &Packet,
    room: bool,
    end: Option<u8>,
) -> Result<(), NodeFault>
    requires { HasSpelling packet.now }
    ensures { ComesTo (λ x. x) result work.old work.new (DoesAsked ask connection client.now packet.now room end) }
{
    match ask {
        None => drop_without_room(work, packet, room, end),
        Some(Ask::Pass(message)) => pass(work, message),
        Some(Ask::Subscribe) => subscribe_by(work, connection, client, packet),
        Some(Ask::Unsubscribe) => unsubscribe_by(work, connection, client, packet),
    }
}

fn drop_without_room(
    work: &mut Work,
    packet: &Packet,
    room: bool,
    end: Option<u8>,
) -> Result<(), NodeFault>
    ensures { ComesTo (λ x. x) result work.old work.new (If (is_dropped packet.now room end) Drops (Returns tt)) }
{
    if is_dropped(packet, room, end) {
        return work.drop_retained();
    }
    Ok(())
}

fn subscribe_by(
    work: &mut Work,
    connection: u64,
    client: &Text,
    packet: &Packet,
) -> Result<(), NodeFault>
    requires { HasSpelling packet.now }
    ensures { ComesTo (λ x. x) result work.old work.new (SubscribesBy connection client.now packet.now) }
{
    match packet {
        Packet::Subscribe(request) => subscribe(work, connection, client, request),
        _ => Ok(()),
    }
}

fn unsubscribe_by(
    work: &mut Work,
    connection: u64,
    client: &Text,
    packet: &Packet,
) -> Result<(), NodeFault>
    requires { HasSpelling packet.now }
    ensures { ComesTo (λ x. x) result work.old work.new (UnsubscribesBy connection client.now packet.now) }
{
    match packet {
        Packet::Unsubscribe(request) => unsubscribe(work, connection, client, request),
        _ => Ok(()),
    }
}

/// Whether a retained message of the packet at QoS 0 is dropped for want of room. `end` is how its connection ends.
fn is_dropped(packet: &Packet, room: bool, end: Option<u8>) -> bool
    ensures { result ≡ is_dropped packet.now room end }
{
    match packet {
        Packet::Publish(publish) => {
            publish.retain && !room && publish.qos.number() == 0 && end.is_none()
        }
        _ => false,
    }
}

/// Whether a retained message of the client's packet would be taken.
fn room_for(alloc: Global, client: &Text, packet: &Packet, held: &Held) -> Result<bool, NodeFault>
    ensures ok { IfOk result (λ room. room ≡ room_for client.now packet.now held.now) }
    ensures fault { IfErr result (λ e. e ≡ NoMemory) }
{
    match packet {
        Packet::Publish(publish) => {
            let topic = topic_of(held, client, publish);
            takes_topic(alloc, topic, held.store())
        }
        _ => Ok(true),
    }
}

/// The topic of a PUBLISH: its own, or where that is empty the one that its alias stands for.
fn topic_of<'a>(held: &'a Held, client: &Text, publish: &'a Publish) -> &'a str
    ensures topic { result.now ≡ (filled (aliases_at client.now held.now) publish.now).topic }
    ensures text { IsText result.now }
{
    let own = publish.topic.as_str();
    if !own.is_empty() {
        return own;
    }
    match alias_topic(held, client, publish) {
        Some(topic) => topic,
        None => own,
    }
}

/// The topic that the alias of a PUBLISH stands for.
fn alias_topic<'a>(held: &'a Held, client: &Text, publish: &Publish) -> Option<&'a str>
    ensures topic { option_copied result ≡ alias_topic (alias_of publish.now) (aliases_at client.now held.now) }
    ensures text { IfSome result (λ topic. IsText topic.now) }
{
    match publish.properties.two(TOPIC_ALIAS) {
        Some(alias) => held.sessions().alias_topic(client, alias),
        None => None,
    }
}

/// Whether a topic is held, or there is room for one more. A text that isn't a topic name isn't held.
fn takes_topic(alloc: Global, topic: &str, store: &ReplicaStore) -> Result<bool, NodeFault>
    requires { IsText topic.now }
    ensures ok { IfOk result (λ room. room ≡ takes_topic topic.now store.now) }
    ensures fault { IfErr result (λ e. e ≡ NoMemory) }
{
    if store.retained().len() < MOST_TOPICS {
        return Ok(true);
    }
    match name_of(alloc, topic)? {
        Some(name) => Ok(store.retained().holds(&name)),
        None => Ok(false),
    }
}

/// The topic name of a text, or none where it isn't one.
fn name_of(alloc: Global, text: &str) -> Result<Option<TopicName>, NodeFault>
    requires { IsText text.now }
    ensures ok { IfOk result (λ name. IsNameOf text.now name) }
    ensures fault { IfErr result (λ e. e ≡ NoMemory) }
{
    match TopicName::parse(alloc, text) {
        Ok(name) => Ok(Some(name)),
        Err(fault) => match fault {
            TopicFault::NoMemory => Err(NodeFault::NoMemory),
            _ => Ok(None),
        },
    }
}
