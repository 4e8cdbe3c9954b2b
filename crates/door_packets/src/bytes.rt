//! Packets that are sent in place of the handler inside.

ghost use Rattle.std.specs.Prelude.{◌≡◌, IfOk};
ghost use Rattle.door_packets.specs.Answers.{ack, connack, disconnect, suback};

use mqtt_fields::{NoMemory, Vbi};
use mqtt_packets::reason::NOT_AUTHORIZED;
use std::alloc::Global;

/// One more than the most codes of a SUBACK without properties (MQTT 5.0, 2.1.4).
const CODES: usize = 268_435_453;

/// PUBACK or PUBREC, by its first byte, with Not authorized (MQTT 5.0, 3.4 and 3.5).
pub fn ack(alloc: Global, first: u8, identifier: u16) -> Result<Vec<u8>, NoMemory>
    ensures { IfOk result (λ bytes. bytes.items ≡ ack first identifier) }
{
    let mut bytes = Vec::new(alloc);
    bytes.push(first)?;
    bytes.push(3)?;
    bytes.extend_from_slice(&identifier.to_be_bytes())?;
    bytes.push(NOT_AUTHORIZED)?;
    Ok(bytes)
}

/// CONNACK with this code, of no session and without properties (MQTT 5.0, 3.2).
pub fn connack(alloc: Global, code: u8) -> Result<Vec<u8>, NoMemory>
    ensures { IfOk result (λ bytes. bytes.items ≡ connack code) }
{
    let mut bytes = Vec::new(alloc);
    bytes.push(0x20)?;
    bytes.push(3)?;
    bytes.push(0)?;
    bytes.push(code)?;
    bytes.push(0)?;
    Ok(bytes)
}

/// DISCONNECT with Not authorized (MQTT 5.0, 3.14).
pub fn disconnect(alloc: Global) -> Result<Vec<u8>, NoMemory>
    ensures { IfOk result (λ bytes. bytes.items ≡ disconnect) }
{
    let mut bytes = Vec::new(alloc);
    bytes.push(0xe0)?;
    bytes.push(1)?;
    bytes.push(NOT_AUTHORIZED)?;
    Ok(bytes)
}

/// SUBACK with these codes, without properties (MQTT 5.0, 3.9); nothing where they are more than a packet takes.
pub fn suback(alloc: Global, identifier: u16, codes: &[u8]) -> Result<Vec<u8>, NoMemory>
    ensures { IfOk result (λ bytes. bytes.items ≡ suback identifier codes.now) }
{
    let mut bytes = Vec::new(alloc);
    let fits = codes.len() < CODES;
    if !fits {
        return Ok(bytes);
    }
    bytes.push(0x90)?;
    Vbi::write(3 + codes.len() as u32, &mut bytes)?;
    bytes.extend_from_slice(&identifier.to_be_bytes())?;
    bytes.push(0)?;
    bytes.extend_from_slice(codes)?;
    Ok(bytes)
}
