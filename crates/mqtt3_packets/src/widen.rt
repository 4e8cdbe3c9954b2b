//! A PUBLISH of a client with an empty property block put in, by where its parts stand.

ghost use Rattle.std.specs.Prelude.{◌≡◌, ◌<◌, ◌+◌, ◌^◌, ◌++◌, length, IfOk, MatchOption, OnOk};
ghost use Rattle.mqtt_packets.specs.Reading.{Gives};
ghost use Rattle.mqtt3_packets.specs.Widen.{IsWideOf, IsWidened, is_valid_before, wide_body, wide_bytes, widened_at};

use crate::front::{body_at, take_identifier, take_topic};
use crate::publish::PublishFlags;
use mqtt_fields::{NoMemory, Qos, Vbi, vbi_len};
use mqtt_packets::PacketFault;

/// The length of the longest body (MQTT 5.0, 2.1.4).
const LONGEST_BODY: usize = 268_435_455;

/// A client's PUBLISH in front of some bytes.
#[derive(Clone, Copy, Debug, PartialEq, Eq)]
pub struct FrontPublish {
    /// How many of the bytes it takes.
    pub used: usize,
    pub qos: Qos,
    /// 0 at QoS 0, where none is sent.
    pub identifier: u16,
}

/// Whether a client's PUBLISH may have these fields.
fn is_valid(flags: PublishFlags, topic: &[u8], identifier: u16) -> bool
    ensures { result ≡ is_valid_before flags topic.now identifier }
{
    (!flags.has_identifier() || identifier != 0) && !topic.is_empty()
}

/// What stands before the payload of a PUBLISH with these flags of which this is the body, its identifier, and its payload.
#[tactic(auto, unfolding(crate::specs::Widen::widened_at))]
fn parts_of(flags: PublishFlags, bytes: &[u8]) -> Result<(&[u8], u16, &[u8]), PacketFault>
    ensures exact { Gives (λ x. (x.0.now, x.1, x.2.now)) result (widened_at flags bytes.now) }
    ensures whole { IfOk result (λ x. length x.0.now + length x.2.now ≡ length bytes.now) }
{
    let (topic, rest) = take_topic(bytes)?;
    let (identifier, payload) = take_identifier(flags, rest)?;
    if !is_valid(flags, topic, identifier) {
        return Err(PacketFault::ProtocolError);
    }
    let front = &bytes[..bytes.len() - payload.len()];
    Ok((front, identifier, payload))
}

/// The same parts, of which what is told is made.
fn wide_of(flags: PublishFlags, bytes: &[u8]) -> Result<(&[u8], u16, &[u8]), PacketFault>
    ensures wide { IfOk result (λ x. IsWideOf flags bytes.now x.0.now x.1 x.2.now) }
    ensures whole { IfOk result (λ x. length x.0.now + length x.2.now ≡ length bytes.now) }
{
    match parts_of(flags, bytes) {
        Ok((front, identifier, payload)) => Ok((front, identifier, payload)),
        Err(fault) => Err(fault),
    }
}

/// Appends a packet whose body is these bytes, an empty property block, and then those.
fn put_wide(first: u8, front: &[u8], payload: &[u8], out: &mut Vec<u8>) -> Result<(), NoMemory>
    requires { length front.now + 1 + length payload.now < 2 ^ 28 }
    ensures { OnOk result (out.new.items ≡ out.old.items ++ wide_bytes first (wide_body front.now payload.now)) }
{
    let len = front.len() + 1 + payload.len();
    out.reserve(1 + vbi_len(len as u32) + len)?;
    out.push(first)?;
    Vbi::write(len as u32, out)?;
    out.extend_from_slice(front)?;
    out.push(0)?;
    out.extend_from_slice(payload)?;
    Ok(())
}

/// Appends the PUBLISH of MQTT 5.0 that tells what the client's PUBLISH in front of these bytes tells, and answers what that one is. Its topic and its
/// payload are copied once, and it has no properties.
///
/// `None`, and nothing is appended, where another packet stands there, none that is whole and right, or one whose whole length is above the limit.
pub fn widen_publish_at(
    limit: usize,
    bytes: &[u8],
    out: &mut Vec<u8>,
) -> Result<Option<FrontPublish>, NoMemory>
    ensures { IfOk result (λ o. MatchOption o (out.new ≡ out.old) (λ x. IsWidened limit bytes.now x out.old.items out.new.items)) }
{
    let Some((flags, body, rest)) = body_at(bytes) else {
        return Ok(None);
    };
    let used = bytes.len() - rest.len();
    if used > limit || body.len() >= LONGEST_BODY {
        return Ok(None);
    }
    match wide_of(flags, body) {
        Ok((front, identifier, payload)) => {
            put_wide(flags.byte(), front, payload, out)?;
            Ok(Some(FrontPublish {
                used,
                qos: flags.qos,
                identifier,
            }))
        }
        Err(_) => Ok(None),
    }
}
