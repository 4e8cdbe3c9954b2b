//! Examples of packets by their fields (MQTT 5.0, chapter 3).

use crate::words::{halves, said, word_of};
use mqtt_fields::{NoMemory, Properties, Qos, SubscriptionOptions, Text};
use mqtt_packets::{
    Ack, Bytes, Connack, Connect, Ended, Packet, Publish, Reasons, Subscribe, SubscribeFilter,
    SubscribeFilters, Unsubscribe, Will, read_packet, reason,
};
use std::alloc::Global;

/// A flag by its name, or nothing where it isn't set.
fn flag(set: bool, name: &'static str) -> &'static str {
    if set { name } else { "" }
}

fn told_will(alloc: Global, will: &Will) -> Result<String, NoMemory> {
    let retain = flag(will.retain, "retained ");
    let qos = will.qos.number();
    let topic = will.topic.as_str();
    let payload = word_of(alloc, will.payload.as_bytes())?;
    Ok(format!(in alloc; ", will {retain}at QoS {qos} to {topic} of {payload}")?)
}

/// The will, user name and password.
fn told_options(alloc: Global, connect: &Connect) -> Result<String, NoMemory> {
    let mut text = match &connect.will {
        Some(will) => told_will(alloc, will)?,
        None => String::new(alloc),
    };
    if let Some(name) = &connect.user_name {
        text.push_str(", user ")?;
        text.push_str(name.as_str())?;
    }
    if let Some(password) = &connect.password {
        let word = word_of(alloc, password.as_bytes())?;
        text.push_str(", password ")?;
        text.push_str(word.as_str())?;
    }
    Ok(text)
}

fn told_connect(alloc: Global, connect: &Connect) -> Result<String, NoMemory> {
    let clean = flag(connect.clean_start, "clean start, ");
    let seconds = connect.keep_alive;
    let client = connect.client.as_str();
    let options = told_options(alloc, connect)?;
    Ok(format!(in alloc; "CONNECT of {client}, {clean}keep alive {seconds}{options}")?)
}

fn told_connack(alloc: Global, connack: &Connack) -> Result<String, NoMemory> {
    let present = flag(connack.session_present, ", session present");
    let code = connack.reason;
    Ok(format!(in alloc; "CONNACK {code:02x}{present}")?)
}

fn told_publish(alloc: Global, publish: &Publish) -> Result<String, NoMemory> {
    let dup = flag(publish.dup, ", again");
    let retain = flag(publish.retain, ", retained");
    let qos = publish.qos.number();
    let identifier = publish.identifier;
    let topic = publish.topic.as_str();
    let payload = publish.payload.copy(alloc)?.into_vec();
    let payload = word_of(alloc, &payload)?;
    Ok(format!(in alloc; "PUBLISH {identifier} at QoS {qos}{dup}{retain} to {topic} of {payload}")?)
}

fn told_ack(alloc: Global, kind: &str, ack: &Ack) -> Result<String, NoMemory> {
    let identifier = ack.identifier;
    let code = ack.reason;
    Ok(format!(in alloc; "{kind} {identifier} {code:02x}")?)
}

fn told_subscribe(alloc: Global, subscribe: &Subscribe) -> Result<String, NoMemory> {
    let identifier = subscribe.identifier;
    let mut text = format!(in alloc; "SUBSCRIBE {identifier}")?;
    for item in subscribe.filters.as_slice() {
        let filter = item.filter.as_str();
        let options = item.options.byte();
        let told = format!(in alloc; ", {filter} with {options:02x}")?;
        text.push_str(told.as_str())?;
    }
    Ok(text)
}

fn told_unsubscribe(alloc: Global, unsubscribe: &Unsubscribe) -> Result<String, NoMemory> {
    let identifier = unsubscribe.identifier;
    let mut text = format!(in alloc; "UNSUBSCRIBE {identifier}")?;
    for filter in unsubscribe.filters.as_slice() {
        text.push_str(", ")?;
        text.push_str(filter.as_str())?;
    }
    Ok(text)
}

fn told_reasons(alloc: Global, kind: &str, reasons: &Reasons) -> Result<String, NoMemory> {
    let identifier = reasons.identifier;
    let codes = word_of(alloc, reasons.reasons.as_slice())?;
    Ok(format!(in alloc; "{kind} {identifier} {codes}")?)
}

fn told_ended(alloc: Global, kind: &str, ended: &Ended) -> Result<String, NoMemory> {
    let code = ended.reason;
    Ok(format!(in alloc; "{kind} {code:02x}")?)
}

/// The packet's kind and its fields, without its properties.
fn told(alloc: Global, packet: &Packet) -> Result<String, NoMemory> {
    match packet {
        Packet::Connect(connect) => told_connect(alloc, connect),
        Packet::Connack(connack) => told_connack(alloc, connack),
        Packet::Publish(publish) => told_publish(alloc, publish),
        Packet::Puback(ack) => told_ack(alloc, "PUBACK", ack),
        Packet::Pubrec(ack) => told_ack(alloc, "PUBREC", ack),
        Packet::Pubrel(ack) => told_ack(alloc, "PUBREL", ack),
        Packet::Pubcomp(ack) => told_ack(alloc, "PUBCOMP", ack),
        Packet::Subscribe(subscribe) => told_subscribe(alloc, subscribe),
        Packet::Suback(reasons) => told_reasons(alloc, "SUBACK", reasons),
        Packet::Unsubscribe(unsubscribe) => told_unsubscribe(alloc, unsubscribe),
        Packet::Unsuback(reasons) => told_reasons(alloc, "UNSUBACK", reasons),
        Packet::Pingreq => said(alloc, "PINGREQ"),
        Packet::Pingresp => said(alloc, "PINGRESP"),
        Packet::Disconnect(ended) => told_ended(alloc, "DISCONNECT", ended),
        Packet::Auth(ended) => told_ended(alloc, "AUTH", ended),
    }
}

/// The kind and the fields of the packet that the bytes begin with.
pub fn fields(alloc: Global, bytes: &[u8]) -> Result<String, NoMemory> {
    match read_packet(alloc, bytes) {
        Ok(Some((packet, _))) => {
            let text = told(alloc, &packet);
            drop(packet);
            text
        }
        _ => said(alloc, "no packet"),
    }
}

fn puback(alloc: Global, word: &str) -> Option<Packet> {
    Some(Packet::Puback(Ack {
        identifier: word.parse::<u16>().ok()?,
        reason: reason::SUCCESS,
        properties: Properties::new(alloc),
    }))
}

/// A PUBLISH to `t`, by DUP, QoS and Packet Identifier.
fn publish(alloc: Global, words: &str) -> Option<Packet> {
    let (dup, words) = halves(words);
    let (qos, identifier) = halves(words);
    let qos = Qos::of(qos.parse::<u8>().ok()?)?;
    let identifier = identifier.parse::<u16>().ok()?;
    let topic = Text::new(alloc, "t").ok()?;
    let payload = Bytes::from_slice(alloc, b"x").ok()?;
    Some(Packet::Publish(Publish {
        dup: dup == "1",
        qos,
        retain: false,
        topic,
        identifier,
        properties: Properties::new(alloc),
        payload,
    }))
}

/// A SUBSCRIBE of a filter, or of none.
fn subscribe(alloc: Global, word: &str) -> Option<Packet> {
    let mut filters = Vec::new(alloc);
    if !word.is_empty() {
        let filter = Text::new(alloc, word).ok()?;
        let options = SubscriptionOptions::of_byte(0);
        filters.push(SubscribeFilter { filter, options }).ok()?;
    }
    Some(Packet::Subscribe(Subscribe {
        identifier: 1,
        properties: Properties::new(alloc),
        filters: SubscribeFilters::new(filters),
    }))
}

/// Whether some bytes spell a packet: PUBACK of an identifier; PUBLISH by DUP, QoS and identifier; SUBSCRIBE of a
/// filter, or of none.
pub fn sound(alloc: Global, words: &str) -> Result<String, NoMemory> {
    let (kind, words) = halves(words);
    let packet = match kind {
        "puback" => puback(alloc, words),
        "publish" => publish(alloc, words),
        "subscribe" => subscribe(alloc, words),
        _ => None,
    };
    match packet {
        Some(packet) => {
            let sound = packet.is_sound();
            drop(packet);
            said(alloc, if sound { "yes" } else { "no" })
        }
        None => said(alloc, "no such packet"),
    }
}
