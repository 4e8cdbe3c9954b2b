//! What goes out.

ghost use Rattle.std.specs.Prelude.{◌≤◌, length, drop, IfOk, OnOk};
ghost use Rattle.mqtt_packets.specs.Stream.{packet_at};
ghost use Rattle.door_bounds.specs.Mending.{IsMended, IsMendedAt, IsMendedTo, IsPutMended, IsReplaced, IsSpelled};

use crate::front::front_packet;
use broker_sockets::Output;
use mqtt_bounds::{Mend, mended};
use mqtt_fields::NoMemory;
use mqtt_packets::{Packet, write_packet};
use std::alloc::Global;

/// The bytes of a packet; none of one that has no spelling.
#[tactic(auto, using(crate::proofs::Sent::is_spelled, crate::proofs::Sent::not_spelled))]
pub(crate) fn spelled(alloc: Global, packet: &Packet) -> Result<Vec<u8>, NoMemory>
    ensures { IfOk result (λ bytes. IsSpelled packet.now bytes.items) }
{
    let mut bytes = Vec::new(alloc);
    if packet.is_sound() {
        write_packet(alloc, packet, &mut bytes)?;
    }
    Ok(bytes)
}

/// The bytes of a packet with what follows it; of one that has no spelling the bytes that it replaces.
#[tactic(auto, using(crate::proofs::Sent::is_replaced, crate::proofs::Sent::not_replaced))]
fn replaced(
    alloc: Global,
    packet: &Packet,
    used: usize,
    bytes: Vec<u8>,
) -> Result<Vec<u8>, NoMemory>
    requires { used ≤ length bytes.items }
    ensures { IfOk result (λ x. IsReplaced packet.now (drop used bytes.items) bytes.items x.items) }
{
    if !packet.is_sound() {
        return Ok(bytes);
    }
    let mut put = Vec::new(alloc);
    write_packet(alloc, packet, &mut put)?;
    put.extend_from_slice(&bytes[used..])?;
    Ok(put)
}

/// Bytes that answer a client: the packet in front of them is mended.
#[tactic(auto, using(crate::proofs::Fronts::mended_some, crate::proofs::Fronts::mended_same, crate::proofs::Fronts::mended_none))]
fn mended_bytes(alloc: Global, mend: &Mend, bytes: Vec<u8>) -> Result<Vec<u8>, NoMemory>
    ensures { IfOk result (λ x. IsMendedAt mend.now bytes.items x.items (packet_at bytes.items)) }
{
    match front_packet(alloc, &bytes)? {
        Some((packet, used)) => match mended(alloc, mend, packet)? {
            None => Ok(bytes),
            Some(packet) => replaced(alloc, &packet, used, bytes),
        },
        None => Ok(bytes),
    }
}

/// An output as it goes out.
fn mended_output(
    alloc: Global,
    connection: u64,
    mend: &Mend,
    output: Output,
) -> Result<Output, NoMemory>
    ensures { IfOk result (IsMended connection mend.now output) }
{
    match output {
        Output::Send {
            connection: to,
            bytes,
        } => {
            if to != connection {
                return Ok(Output::Send {
                    connection: to,
                    bytes,
                });
            }
            Ok(Output::Send {
                connection: to,
                bytes: mended_bytes(alloc, mend, bytes)?,
            })
        }
        Output::Close { connection: to } => Ok(Output::Close { connection: to }),
    }
}

/// Puts all of this behind the others, mended.
#[tactic(auto, using(crate::proofs::Sent::put_none, crate::proofs::Sent::put_then))]
fn put_each(
    alloc: Global,
    connection: u64,
    mend: &Mend,
    given: Vec<Output>,
    outputs: &mut Vec<Output>,
) -> Result<(), NoMemory>
    ensures { OnOk result (IsPutMended connection mend.now given.items outputs.old.items outputs.new.items) }
{
    for output in given {
        outputs.push(mended_output(alloc, connection, mend, output)?)?;
    }
    Ok(())
}

/// Puts what the handler inside gives behind the others, mended where something is to be.
pub(crate) fn put_given(
    alloc: Global,
    connection: u64,
    mend: &Mend,
    mut given: Vec<Output>,
    outputs: &mut Vec<Output>,
) -> Result<(), NoMemory>
    ensures { OnOk result (IsMendedTo connection mend.now given.items outputs.old.items outputs.new.items) }
{
    match mend {
        Mend::Nothing => {
            outputs.append(&mut given)?;
            Ok(())
        }
        Mend::Connack(_, _) => put_each(alloc, connection, mend, given, outputs),
        Mend::Suback(_, _) => put_each(alloc, connection, mend, given, outputs),
        Mend::Disconnect(_) => put_each(alloc, connection, mend, given, outputs),
    }
}
