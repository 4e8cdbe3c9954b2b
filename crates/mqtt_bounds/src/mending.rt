//! What is mended of what answers a packet.

ghost use Rattle.std.specs.Prelude.{◌≡◌, IfOk};
ghost use Rattle.mqtt_bounds.specs.Bounded.{connack_mended, mended, merged, put_if, suback_mended};

use crate::expiry::with_four;
use crate::verdict::Mend;
use mqtt_fields::identifier::{MAXIMUM_PACKET_SIZE, SESSION_EXPIRY_INTERVAL};
use mqtt_fields::{NoMemory, Properties};
use mqtt_packets::{Bytes, Connack, Ended, Packet, Reasons};
use std::alloc::Global;

/// The codes of all filters in their order: those of the filters that were asked for are these.
#[tactic(auto, using(crate::proofs::Merging::merged_some, crate::proofs::Merging::merged_none))]
pub(crate) fn merged(alloc: Global, codes: &[Option<u8>], asked: &[u8]) -> Result<Vec<u8>, NoMemory>
    ensures { IfOk result (λ all. all.items ≡ merged codes.now asked.now) }
{
    let mut all = Vec::new(alloc);
    let mut left = asked;
    for code in codes {
        match code {
            Some(code) => all.push(*code)?,
            None => {
                if let [first, rest @ ..] = left {
                    all.push(*first)?;
                    left = rest;
                }
            }
        }
    }
    all.extend_from_slice(left)?;
    Ok(all)
}

/// The properties with this number, where there is one.
fn put_if(
    alloc: Global,
    id: u8,
    number: Option<u32>,
    properties: Properties,
) -> Result<Properties, NoMemory>
    ensures { IfOk result (λ p. p ≡ put_if id number properties) }
{
    match number {
        None => Ok(properties),
        Some(number) => with_four(alloc, id, number, &properties),
    }
}

fn connack_mended(
    alloc: Global,
    longest: Option<u32>,
    expiry: Option<u32>,
    connack: Connack,
) -> Result<Connack, NoMemory>
    ensures { IfOk result (λ c. c ≡ connack_mended longest expiry connack) }
{
    let properties = put_if(alloc, MAXIMUM_PACKET_SIZE, longest, connack.properties)?;
    let properties = put_if(alloc, SESSION_EXPIRY_INTERVAL, expiry, properties)?;
    Ok(Connack {
        session_present: connack.session_present,
        reason: connack.reason,
        properties,
    })
}

fn suback_mended(alloc: Global, codes: &[Option<u8>], suback: Reasons) -> Result<Reasons, NoMemory>
    ensures { IfOk result (λ s. s ≡ suback_mended codes.now suback) }
{
    let all = merged(alloc, codes, suback.reasons.as_slice())?;
    Ok(Reasons {
        identifier: suback.identifier,
        properties: suback.properties,
        reasons: Bytes::new(all),
    })
}

/// What goes out in place of a packet that answers a client, if anything does.
pub fn mended(alloc: Global, mend: &Mend, packet: Packet) -> Result<Option<Packet>, NoMemory>
    ensures { IfOk result (λ p. p ≡ mended mend.now packet) }
{
    match mend {
        Mend::Nothing => Ok(None),
        Mend::Connack(longest, expiry) => match packet {
            Packet::Connack(connack) => {
                let connack = connack_mended(alloc, *longest, *expiry, connack)?;
                Ok(Some(Packet::Connack(connack)))
            }
            _ => Ok(None),
        },
        Mend::Suback(identifier, codes) => match packet {
            Packet::Suback(suback) => {
                if suback.identifier != *identifier {
                    return Ok(None);
                }
                let suback = suback_mended(alloc, codes.as_slice(), suback)?;
                Ok(Some(Packet::Suback(suback)))
            }
            _ => Ok(None),
        },
        Mend::Disconnect(reason) => match packet {
            Packet::Disconnect(ended) => Ok(Some(Packet::Disconnect(Ended {
                reason: *reason,
                properties: ended.properties,
            }))),
            _ => Ok(None),
        },
    }
}
