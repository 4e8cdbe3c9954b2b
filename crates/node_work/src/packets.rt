//! The packets that a node sends.

ghost use Rattle.std.specs.Prelude.{◌≡◌, IfOk, IfErr, IfSome};
ghost use Rattle.mqtt_fields.specs.Numbers.{IsText};
ghost use Rattle.mqtt_packets.specs.Written.{written, HasSpelling};
ghost use Rattle.mqtt_sessions.specs.Answers.{disconnect};
ghost use Rattle.node_work.specs.Packets.{moved_packet, reference_of, refused_packet};
ghost use Rattle.node_work.specs.declared.fault.NodeFault.TheVariants.{NoMemory};

use crate::fault::NodeFault;
use mqtt_fields::{Properties, Property, Text, Value, identifier};
use mqtt_packets::{Connack, Ended, Packet, write_packet};
use std::alloc::Global;

/// The bytes of a packet.
pub fn written(alloc: Global, packet: &Packet) -> Result<Vec<u8>, NodeFault>
    requires { HasSpelling packet.now }
    ensures ok { IfOk result (λ bytes. bytes.items ≡ written packet.now) }
    ensures fault { IfErr result (λ e. e ≡ NoMemory) }
{
    let mut bytes = Vec::new(alloc);
    write_packet(alloc, packet, &mut bytes)?;
    Ok(bytes)
}

/// The Server Reference, where one is given.
fn reference_in(alloc: Global, reference: Option<Text>) -> Result<Properties, NodeFault>
    ensures ok { IfOk result (λ ps. ps ≡ reference_of reference) }
    ensures text { IfOk result (λ ps. IfSome reference IsText) }
    ensures fault { IfErr result (λ e. e ≡ NoMemory) }
{
    let mut properties = Properties::new(alloc);
    let Some(address) = reference else {
        return Ok(properties);
    };
    let _text = address.as_str();
    properties.push(Property {
        id: identifier::SERVER_REFERENCE,
        value: Value::Text(address),
    })?;
    Ok(properties)
}

/// CONNACK to a client that is refused, with the Server Reference where one is given (MQTT 5.0, 3.2).
pub fn refused(alloc: Global, reason: u8, reference: Option<Text>) -> Result<Packet, NodeFault>
    ensures ok { IfOk result (λ p. p ≡ refused_packet reason reference) }
    ensures spelled { IfOk result (λ p. HasSpelling p) }
    ensures fault { IfErr result (λ e. e ≡ NoMemory) }
{
    let properties = reference_in(alloc, reference)?;
    Ok(Packet::Connack(Connack {
        session_present: false,
        reason,
        properties,
    }))
}

/// DISCONNECT to a client whose home is at another server from now on, with its address (MQTT 5.0, 3.14.2.1 and 4.11).
pub fn moved(alloc: Global, address: Text) -> Result<Packet, NodeFault>
    ensures ok { IfOk result (λ p. p ≡ moved_packet address) }
    ensures spelled { IfOk result (λ p. HasSpelling p) }
    ensures fault { IfErr result (λ e. e ≡ NoMemory) }
{
    let properties = reference_in(alloc, Some(address))?;
    let ended = Ended {
        reason: 157,
        properties,
    };
    Ok(Packet::Disconnect(ended))
}

/// The server's DISCONNECT (MQTT 5.0, 3.14).
pub fn disconnect(alloc: Global, reason: u8) -> Packet
    ensures is { result ≡ disconnect reason }
    ensures spelled { HasSpelling result }
{
    Packet::Disconnect(Ended {
        reason,
        properties: Properties::new(alloc),
    })
}
