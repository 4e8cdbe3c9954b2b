//! The packet in front of some bytes.

ghost use Rattle.std.specs.Prelude.{◌≡◌, ◌≤◌, length, option_map, IfOk, IfSome};
ghost use Rattle.mqtt_fields.specs.Numbers.{vbi};
ghost use Rattle.mqtt_packets.specs.Reading.{Gives};
ghost use Rattle.mqtt_packets.specs.Stream.{inside_at, rest_at};
ghost use Rattle.mqtt3_packets.specs.Stream.{IsRest, header_at, packet_at};

use crate::level::Level;
use crate::packet::{Kind, packet_of};
use mqtt_fields::{FieldFault, Vbi};
use mqtt_packets::{Packet, PacketFault};
use std::alloc::Global;

/// Remaining Length, and what follows it; `None` where it isn't whole.
fn inside_of(bytes: &[u8]) -> Result<Option<(u32, &[u8])>, PacketFault>
    ensures exact { Gives (λ o. option_map (λ x. (x.0, x.1.now)) o) result (inside_at (vbi.at bytes.now)) }
    ensures rest { IfOk result (λ o. IfSome o (λ x. IsRest bytes.now x.1.now)) }
{
    match Vbi::read(bytes) {
        Ok((n, used)) => Ok(Some((n, &bytes[used..]))),
        Err(fault) => match fault {
            FieldFault::Short => Ok(None),
            _ => Err(PacketFault::Malformed),
        },
    }
}

/// The kind, the length of the body, and what follows the length.
#[tactic(auto, unfolding(crate::specs::Stream::header_at))]
fn header_of(level: Level, bytes: &[u8]) -> Result<Option<(Kind, u32, &[u8])>, PacketFault>
    ensures exact { Gives (λ o. option_map (λ x. (x.0, x.1, x.2.now)) o) result (header_at level bytes.now) }
    ensures rest { IfOk result (λ o. IfSome o (λ x. IsRest bytes.now x.2.now)) }
{
    match bytes {
        [] => Ok(None),
        [first, rest @ ..] => {
            let Some(kind) = Kind::of(level, *first) else {
                return Err(PacketFault::Malformed);
            };
            match inside_of(rest)? {
                None => Ok(None),
                Some((n, rest)) => Ok(Some((kind, n, rest))),
            }
        }
    }
}

/// The packet of a client in front and what follows it.
#[tactic(auto, unfolding(crate::specs::Stream::packet_at))]
fn packet_in(
    alloc: Global,
    level: Level,
    limit: usize,
    bytes: &[u8],
) -> Result<Option<(Packet, &[u8])>, PacketFault>
    ensures exact { Gives (λ o. option_map (λ x. (x.0, x.1.now)) o) result (packet_at level limit bytes.now) }
    ensures rest { IfOk result (λ o. IfSome o (λ x. IsRest bytes.now x.1.now)) }
{
    match header_of(level, bytes)? {
        None => Ok(None),
        Some((kind, len, rest)) => {
            let len = len as usize;
            if bytes.len() - rest.len() + len > limit {
                return Err(PacketFault::TooLarge);
            }
            if rest.len() < len {
                return Ok(None);
            }
            let (inside, rest) = rest.split_at(len);
            let packet = packet_of(alloc, level, kind, inside)?;
            Ok(Some((packet, rest)))
        }
    }
}

/// The packet of a client in front, and how many bytes it takes, unless its whole length is above the limit. `None` where it isn't whole yet.
pub fn read_packet(
    alloc: Global,
    level: Level,
    limit: usize,
    bytes: &[u8],
) -> Result<Option<(Packet, usize)>, PacketFault>
    ensures exact { Gives (rest_at bytes.now) result (packet_at level limit bytes.now) }
    ensures used { IfOk result (λ o. IfSome o (λ x. x.1 ≤ length bytes.now)) }
{
    match packet_in(alloc, level, limit, bytes)? {
        None => Ok(None),
        Some((packet, rest)) => Ok(Some((packet, bytes.len() - rest.len()))),
    }
}
