//! What calls come to, as text.

use mqtt_fields::Text;
use mqtt_packets::{Packet, write_packet};
use mqtt_sessions::{Ask, Output, Reaction};
use session_table::Addressed;
use std::alloc::Global;
use std::process::Abort;

/// The bytes of a packet, in hexadecimal.
fn spelled(rt: &impl Abort, alloc: Global, packet: &Packet) -> String {
    assert!(rt; packet.is_sound());
    let mut bytes = Vec::new(alloc);
    write_packet(alloc, packet, &mut bytes)
        .ok()
        .expect(rt, "memory");
    hex::encode(alloc, &bytes).expect(rt, "memory")
}

/// The bytes of a packet that is sent, in hexadecimal.
fn sent(rt: &impl Abort, alloc: Global, output: &Output, now: u64) -> String {
    match output {
        Output::Answer(packet) => spelled(rt, alloc, packet),
        Output::Publish(p) => {
            let publish = p
                .delivery
                .publish(alloc, now, p.dup, p.id)
                .expect(rt, "memory");
            let packet = Packet::Publish(publish);
            let text = spelled(rt, alloc, &packet);
            drop(packet);
            text
        }
    }
}

/// The bytes of all packets that are sent, in hexadecimal.
fn all_sent(rt: &impl Abort, alloc: Global, outputs: &[Output], now: u64) -> String {
    let mut text = String::new(alloc);
    for output in outputs {
        let bytes = sent(rt, alloc, output, now);
        text.push_str(bytes.as_str()).expect(rt, "memory");
    }
    text
}

fn asked(ask: &Option<Ask>) -> &'static str {
    match ask {
        Some(Ask::Pass(_)) => " pass",
        Some(Ask::Subscribe) => " subscribe",
        Some(Ask::Unsubscribe) => " unsubscribe",
        None => "",
    }
}

/// What is asked and ended.
fn ended(rt: &impl Abort, alloc: Global, reaction: &Reaction) -> String {
    let ask = asked(&reaction.ask);
    let over = if reaction.over { " over" } else { "" };
    let full = if reaction.full { " full" } else { "" };
    let text = match reaction.end {
        Some(code) => format!(in alloc; "{ask} end {code}{over}{full}"),
        None => format!(in alloc; "{ask}{over}{full}"),
    };
    text.expect(rt, "memory")
}

/// What is sent, asked and ended.
pub fn told(rt: &impl Abort, alloc: Global, reaction: &Reaction, now: u64) -> String {
    let mut text = all_sent(rt, alloc, reaction.packets.as_slice(), now);
    let end = ended(rt, alloc, reaction);
    text.push_str(end.as_str()).expect(rt, "memory");
    text
}

/// How many packets are sent and to which connection, and what is asked and ended.
pub fn counted(rt: &impl Abort, alloc: Global, answer: &Addressed) -> String {
    let count = answer.reaction.packets.len();
    let end = ended(rt, alloc, &answer.reaction);
    let text = match answer.to {
        Some(connection) => format!(in alloc; "{count} sent to {connection}{end}"),
        None => format!(in alloc; "{count} sent{end}"),
    };
    text.expect(rt, "memory")
}

/// Numbers with their clients, in order.
pub fn pairs(rt: &impl Abort, alloc: Global, pairs: &[(u64, Text)]) -> String {
    let mut text = String::new(alloc);
    for (number, client) in pairs {
        let one = format!(in alloc; "{number} {};", client.as_str()).expect(rt, "memory");
        text.push_str(one.as_str()).expect(rt, "memory");
    }
    text
}

/// Clients in order.
pub fn clients(rt: &impl Abort, alloc: Global, clients: &[Text]) -> String {
    let mut text = String::new(alloc);
    for client in clients {
        text.push_str(client.as_str()).expect(rt, "memory");
        text.push(';').expect(rt, "memory");
    }
    text
}

/// A number, or that there is none.
pub fn number(rt: &impl Abort, alloc: Global, number: Option<u64>) -> String {
    match number {
        Some(n) => format!(in alloc; "{n}").expect(rt, "memory"),
        None => String::from_str(alloc, "none").expect(rt, "memory"),
    }
}
