//! The packet in front of some bytes.

ghost use Rattle.std.specs.Prelude.{◌≡◌, ◌++◌, ◌<◌, ◌≤◌, ℕ, List, Option, Some, None, length, drop, take, option_map, IfOk, IfSome, IfNone, Ok, Err, IsErrOf};
ghost use Rattle.mqtt_packets.specs.declared.packet.Packet.{Packet};
ghost use Rattle.mqtt_fields.specs.Numbers.{vbi};
ghost use Rattle.mqtt_packets.specs.Memory.{BodyWants, PacketWants, StepWants};
ghost use Rattle.mqtt_packets.specs.Reading.{Gives};
ghost use Rattle.mqtt_packets.specs.Faults.{IsBeginning};
ghost use Rattle.mqtt_packets.specs.Stream.{header_at, inside_at, body_at, rest_at, packet_at, step_at, Spells};

use crate::fault::PacketFault;
use crate::head::Head;
use crate::packet::Packet;
use mqtt_fields::{FieldFault, Vbi};
use std::alloc::Global;

/// Remaining Length, and what follows it; `None` where it isn't whole.
fn inside_of(bytes: &[u8]) -> Result<Option<(u32, &[u8])>, PacketFault>
    ensures exact { Gives (λ o. option_map (λ x. (x.0, x.1.now)) o) result (inside_at (vbi.at bytes.now)) }
    ensures used { IfOk result (λ o. IfSome o (λ x. length x.1.now ≤ length bytes.now)) }
    ensures no_memory { IsErrOf result PacketFault.NoMemory → ⊥ }
{
    match Vbi::read(bytes) {
        Ok((n, used)) => Ok(Some((n, &bytes[used..]))),
        Err(fault) => match fault {
            FieldFault::Short => Ok(None),
            _ => Err(PacketFault::Malformed),
        },
    }
}

/// The first byte, the length of the body, and what follows the length.
#[tactic(auto, unfolding(crate::specs::Stream::header_at))]
pub(crate) fn header_of(bytes: &[u8]) -> Result<Option<(Head, u32, &[u8])>, PacketFault>
    ensures exact { Gives (λ o. option_map (λ x. (x.0, x.1, x.2.now)) o) result (header_at bytes.now) }
    ensures used { IfOk result (λ o. IfSome o (λ x. length x.2.now ≤ length bytes.now)) }
    ensures no_memory { IsErrOf result PacketFault.NoMemory → ⊥ }
{
    match bytes {
        [] => Ok(None),
        [first, rest @ ..] => {
            let Some(head) = Head::of(*first) else {
                return Err(PacketFault::Malformed);
            };
            match inside_of(rest)? {
                None => Ok(None),
                Some((n, rest)) => Ok(Some((head, n, rest))),
            }
        }
    }
}

/// The packet whose body follows its header; `None` where the body isn't whole.
fn packet_after(
    alloc: Global,
    head: Head,
    len: u32,
    bytes: &[u8],
) -> Result<Option<(Packet, &[u8])>, PacketFault>
    ensures exact { Gives (λ o. option_map (λ x. (x.0, x.1.now)) o) result (body_at (Some (head, len, bytes.now))) }
    ensures no_memory { IsErrOf result PacketFault.NoMemory → BodyWants head len bytes.now }
{
    let len = len as usize;
    if bytes.len() < len {
        return Ok(None);
    }
    let (inside, rest) = bytes.split_at(len);
    let packet = Packet::of(alloc, head, inside)?;
    Ok(Some((packet, rest)))
}

#[tactic(auto, unfolding(crate::specs::Stream::packet_at))]
fn packet_of(alloc: Global, bytes: &[u8]) -> Result<Option<(Packet, &[u8])>, PacketFault>
    ensures exact { Gives (λ o. option_map (λ x. (x.0, x.1.now)) o) result (packet_at bytes.now) }
    ensures no_memory { IsErrOf result PacketFault.NoMemory → PacketWants bytes.now }
{
    match header_of(bytes)? {
        None => Ok(None),
        Some((head, len, rest)) => packet_after(alloc, head, len, rest),
    }
}

fn read_exactly(alloc: Global, bytes: &[u8]) -> Result<Option<(Packet, usize)>, PacketFault>
    ensures exact { Gives (rest_at bytes.now) result (packet_at bytes.now) }
    ensures used { IfOk result (λ o. IfSome o (λ x. x.1 ≤ length bytes.now)) }
    ensures no_memory { IsErrOf result PacketFault.NoMemory → PacketWants bytes.now }
{
    match packet_of(alloc, bytes)? {
        None => Ok(None),
        Some((packet, rest)) => Ok(Some((packet, bytes.len() - rest.len()))),
    }
}

/// The packet at the front, and how many bytes it takes. `None` where it isn't whole yet.
pub fn read_packet(alloc: Global, bytes: &[u8]) -> Result<Option<(Packet, usize)>, PacketFault>
    // What is read is spelled so.
    ensures found { IfOk result (λ o. IfSome o (λ x.
        (x.1 ≤ length bytes.now) × Spells (take x.1 bytes.now) x.0)) }
    // What is spelled so is read, whatever follows, unless memory runs out.
    ensures only { (front rest : List ℕ) (p : Packet) → Spells front p → bytes.now ≡ front ++ rest
        → Gives (rest_at bytes.now) result (Ok (Some (p, rest))) }
    // None where the bytes begin a frame and don't end it.
    ensures waits { IfOk result (λ o. IfNone o (IsBeginning bytes.now)) }
    // Which of the three it is, and which fault is the first.
    ensures exact { Gives (rest_at bytes.now) result (packet_at bytes.now) }
    // A fault that stands before what wants memory is answered, whatever memory there is.
    ensures no_memory { IsErrOf result PacketFault.NoMemory → PacketWants bytes.now }
{
    read_exactly(alloc, bytes)
}

/// The packet at the front, unless its whole length is above the limit.
#[tactic(auto, unfolding(crate::specs::Stream::step_at))]
pub(crate) fn step_of(
    alloc: Global,
    limit: usize,
    bytes: &[u8],
) -> Result<Option<(Packet, &[u8])>, PacketFault>
    ensures exact { Gives (λ o. option_map (λ x. (x.0, x.1.now)) o) result (step_at limit bytes.now) }
    ensures no_memory { IsErrOf result PacketFault.NoMemory → StepWants limit bytes.now }
{
    match header_of(bytes)? {
        None => Ok(None),
        Some((head, len, rest)) => {
            if bytes.len() - rest.len() + len as usize > limit {
                return Err(PacketFault::TooLarge);
            }
            packet_after(alloc, head, len, rest)
        }
    }
}
