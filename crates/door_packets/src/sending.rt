//! What goes out of that which the handler inside gives.

ghost use Rattle.std.specs.Prelude.{◌≡◌, ◌≤◌, IfOk, drop, length};
ghost use Rattle.mqtt_packets.specs.declared.publish.Publish.{Publish};
ghost use Rattle.door_packets.specs.Going.{may_go};
ghost use Rattle.door_packets.specs.Sending.{IsSpelled, is_readable, may_receive, mended, mended_by, readable_by};

use crate::access::{Access, Login};
use crate::bytes::suback;
use crate::codes::Awaited;
use crate::front::front_packet;
use crate::publish_view::publish_in;
use mqtt_bounds::{Front, front_of};
use mqtt_fields::NoMemory;
use mqtt_packets::{Packet, write_packet};
use std::alloc::Global;

/// The most bytes of a packet (MQTT 5.0, 2.1.4).
const LONGEST: usize = 268_435_460;

/// The bytes of a packet; none of one that has no spelling.
#[tactic(auto, using(crate::proofs::Sent::is_spelled, crate::proofs::Sent::not_spelled))]
pub fn spelled(alloc: Global, packet: &Packet) -> Result<Vec<u8>, NoMemory>
    ensures { IfOk result (λ bytes. IsSpelled packet.now bytes.items) }
{
    let mut bytes = Vec::new(alloc);
    if packet.is_sound() {
        write_packet(alloc, packet, &mut bytes)?;
    }
    Ok(bytes)
}

/// The same where this packet stands in front, and what follows it.
fn mended_by(
    alloc: Global,
    awaited: &Awaited,
    bytes: Vec<u8>,
    packet: Packet,
    used: usize,
) -> Result<Vec<u8>, NoMemory>
    requires { used ≤ length bytes.items }
    ensures { IfOk result (λ x. x.items ≡ mended_by awaited.now bytes.items packet (drop used bytes.items)) }
{
    match packet {
        Packet::Suback(given) => {
            if given.identifier != awaited.identifier {
                return Ok(bytes);
            }
            let codes = awaited.codes.merged(alloc, given.reasons.as_slice())?;
            let mut put = suback(alloc, given.identifier, &codes)?;
            put.extend_from_slice(&bytes[used..])?;
            Ok(put)
        }
        _ => Ok(bytes),
    }
}

/// Bytes that answer a client. The SUBACK in front of them has all codes, where it is the one that is to come.
#[tactic(auto, using(crate::proofs::Sent::mended_none, crate::proofs::Sent::mended_front))]
pub fn mended(alloc: Global, awaited: &Option<Awaited>, bytes: Vec<u8>) -> Result<Vec<u8>, NoMemory>
    ensures { IfOk result (λ x. x.items ≡ mended awaited.now bytes.items) }
{
    match awaited {
        None => Ok(bytes),
        Some(awaited) => match front_packet(alloc, &bytes)? {
            Some((packet, used)) => mended_by(alloc, awaited, bytes, packet, used),
            None => Ok(bytes),
        },
    }
}

/// Whether this client may receive messages of this topic.
fn may_receive<A: Access>(access: &A, login: &Option<Login>, topic: &str) -> bool
    ensures { (p : Publish) → p.topic ≡ topic.now → result ≡ may_receive (A.rights access.now) login.now p }
{
    match login {
        None => false,
        Some(login) => access.may_read(login, topic),
    }
}

/// Whether a packet is no PUBLISH, or one that this client may receive.
fn is_for<A: Access>(access: &A, login: &Option<Login>, packet: &Packet) -> bool
    ensures { result ≡ readable_by (A.rights access.now) login.now packet.now }
{
    match packet {
        Packet::Publish(publish) => may_receive(access, login, publish.topic.as_str()),
        _ => true,
    }
}

/// Whether a packet, whose bytes these are, is so.
#[tactic(auto, using(crate::proofs::Sent::readable_publish, crate::proofs::Sent::readable_some, crate::proofs::Sent::readable_none))]
fn is_readable<A: Access>(
    alloc: Global,
    access: &A,
    login: &Option<Login>,
    bytes: &[u8],
) -> Result<bool, NoMemory>
    ensures { IfOk result (λ b. b ≡ is_readable (A.rights access.now) login.now bytes.now) }
{
    if let Some(view) = publish_in(alloc, bytes) {
        return Ok(may_receive(access, login, view.topic));
    }
    match front_packet(alloc, bytes)? {
        None => Ok(false),
        Some((packet, _)) => Ok(is_for(access, login, &packet)),
    }
}

/// Whether bytes may be sent to this client: they are whole packets, each of which is so.
#[tactic(auto, using(crate::proofs::Sent::goes_not, crate::proofs::Sent::goes_whole, crate::proofs::Sent::ends_waiting, crate::proofs::Sent::ends_long, crate::proofs::Sent::ends_broken))]
pub fn may_go<A: Access>(
    alloc: Global,
    access: &A,
    login: &Option<Login>,
    bytes: &[u8],
) -> Result<bool, NoMemory>
    ensures { IfOk result (λ b. b ≡ may_go (A.rights access.now) login.now bytes.now) }
{
    let mut rest = bytes;
    loop {
        match front_of(LONGEST, rest) {
            Front::Whole(used) => {
                let (packet, behind) = rest.split_at(used);
                if !is_readable(alloc, access, login, packet)? {
                    return Ok(false);
                }
                rest = behind;
            }
            Front::Waits => return Ok(rest.is_empty()),
            Front::TooLong => return Ok(rest.is_empty()),
            Front::Broken => return Ok(rest.is_empty()),
        }
    }
}
