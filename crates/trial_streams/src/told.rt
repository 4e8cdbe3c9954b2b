//! What a node gives out, in short.

use crate::failure::Failure;
use broker_node::Output;
use mqtt_packets::{Packet, Reasons, read_packet};
use std::alloc::Global;

/// One thing that a node gives out.
#[derive(Clone, Copy, Debug, PartialEq, Eq)]
pub enum Said {
    /// A packet of this type (MQTT 5.0, 2.1.2). Its Reason Code, or the first one of a SUBACK or an UNSUBACK; 0 where it has none.
    Packet { kind: u8, code: u8 },
    /// The end of the connection.
    Close,
    /// A frame to another node.
    Frame,
}

/// What goes out on a connection. A frame goes out on none, and has 0.
#[derive(Clone, Copy, Debug, PartialEq, Eq)]
pub struct Told {
    pub connection: u64,
    pub said: Said,
}

fn first_of(answer: &Reasons) -> u8 {
    answer.reasons.as_slice().first().copied().unwrap_or(0)
}

fn code_of(packet: &Packet) -> u8 {
    match packet {
        Packet::Connack(connack) => connack.reason,
        Packet::Puback(ack) => ack.reason,
        Packet::Pubrec(ack) => ack.reason,
        Packet::Pubrel(ack) => ack.reason,
        Packet::Pubcomp(ack) => ack.reason,
        Packet::Suback(answer) => first_of(answer),
        Packet::Unsuback(answer) => first_of(answer),
        Packet::Disconnect(ended) => ended.reason,
        _ => 0,
    }
}

/// What bytes to a client say, which are one packet.
fn packet_said(alloc: Global, bytes: &[u8]) -> Result<Said, Failure> {
    let kind = bytes.first().copied().unwrap_or(0) / 16;
    match read_packet(alloc, bytes) {
        Ok(Some((packet, used))) => {
            let code = code_of(&packet);
            drop(packet);
            if used == bytes.len() {
                Ok(Said::Packet { kind, code })
            } else {
                Err(Failure::NoPacket)
            }
        }
        Ok(None) => Err(Failure::NoPacket),
        Err(_) => Err(Failure::NoPacket),
    }
}

fn told_of(alloc: Global, output: &Output) -> Result<Told, Failure> {
    match output {
        Output::Send { connection, bytes } => Ok(Told {
            connection: *connection,
            said: packet_said(alloc, bytes.as_slice())?,
        }),
        Output::Close { connection } => Ok(Told {
            connection: *connection,
            said: Said::Close,
        }),
        Output::Frame { frame: _ } => Ok(Told {
            connection: 0,
            said: Said::Frame,
        }),
    }
}

/// What these outputs say, in order.
pub fn told_by(alloc: Global, outputs: &[Output]) -> Result<Vec<Told>, Failure> {
    let mut told = Vec::new(alloc);
    for output in outputs {
        told.push(told_of(alloc, output)?)?;
    }
    Ok(told)
}

/// Whether the one output is this packet on this connection.
pub fn is_only(outputs: &[Output], to: u64, packet: &[u8]) -> bool {
    match outputs {
        [Output::Send { connection, bytes }] => *connection == to && bytes.as_slice() == packet,
        _ => false,
    }
}
