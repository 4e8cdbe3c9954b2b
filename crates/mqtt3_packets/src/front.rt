//! A PUBLISH in front of some bytes, by where its parts stand: what is the same in MQTT 5.0 and before.

ghost use Rattle.std.specs.Prelude.{◌≡◌, ◌≤◌, length, IfOk, IfSome, Some};
ghost use Rattle.mqtt_fields.specs.Numbers.{is_text, text};
ghost use Rattle.mqtt_packets.specs.declared.packet.Packet.TheVariants as packets;
ghost use Rattle.mqtt_packets.specs.Head.{head_at};
ghost use Rattle.mqtt_packets.specs.Packet.{head_of};
ghost use Rattle.mqtt_packets.specs.Reading.{Gives, field_at};
ghost use Rattle.mqtt3_packets.specs.Cut.{HasBody, begun, has_no_zero, identifier_at};
ghost use Rattle.mqtt3_packets.specs.Widen.{HasPublish, IsPublishHead};

use crate::publish::PublishFlags;
use mqtt_fields::vbi_at;
use mqtt_packets::PacketFault;

fn has_no_zero(bytes: &[u8]) -> bool
    ensures { result ≡ has_no_zero bytes.now }
{
    bytes.iter().all(|b| *b != 0)
}

/// Whether the bytes are those of a string (MQTT 5.0, 1.5.4).
#[tactic(auto, using(mqtt_fields::proofs::TextLaws::texts))]
fn is_text(bytes: &[u8]) -> bool
    ensures { result ≡ is_text bytes.now }
{
    match str::from_utf8(bytes) {
        Ok(_) => has_no_zero(bytes),
        Err(_) => false,
    }
}

/// The string at the front, where it lies, and the bytes after it.
pub(crate) fn take_topic(bytes: &[u8]) -> Result<(&[u8], &[u8]), PacketFault>
    ensures exact { Gives (λ x. (x.0.now, x.1.now)) result (field_at text bytes.now) }
    ensures rest { IfOk result (λ x. length x.1.now ≤ length bytes.now) }
{
    if bytes.len() < 2 {
        return Err(PacketFault::Malformed);
    }
    let (front, rest) = bytes.split_at(2);
    let len = u16::from_be_bytes([front[0], front[1]]) as usize;
    if rest.len() < len {
        return Err(PacketFault::Malformed);
    }
    let (topic, rest) = rest.split_at(len);
    if !is_text(topic) {
        return Err(PacketFault::Malformed);
    }
    Ok((topic, rest))
}

/// The identifier at the front, if one stands there, and the bytes after it.
pub(crate) fn take_identifier(
    flags: PublishFlags,
    bytes: &[u8],
) -> Result<(u16, &[u8]), PacketFault>
    ensures exact { Gives (λ x. (x.0, x.1.now)) result (identifier_at flags bytes.now) }
    ensures rest { IfOk result (λ x. length x.1.now ≤ length bytes.now) }
{
    if !flags.has_identifier() {
        return Ok((0, bytes));
    }
    if bytes.len() < 2 {
        return Err(PacketFault::Malformed);
    }
    let (front, rest) = bytes.split_at(2);
    Ok((u16::from_be_bytes([front[0], front[1]]), rest))
}

/// What the first byte of a PUBLISH says; `None` where no PUBLISH begins so.
#[tactic(auto, using(crate::proofs::CutLaws::flags_are, crate::proofs::WidenLaws::heads_are), unfolding(mqtt_packets::specs::Head::head_at))]
fn flags_of(first: u8) -> Option<PublishFlags>
    ensures five { IfSome result (λ flags. head_at first ≡ Some (head_of (packets.Publish (begun flags)))) }
    ensures earlier { IfSome result (λ flags. IsPublishHead first flags) }
{
    if first / 16 != 3 {
        return None;
    }
    PublishFlags::of(first % 16)
}

/// What the first byte of a PUBLISH in front says, its body, and what follows it; `None` where no whole one stands there.
pub(crate) fn body_at(bytes: &[u8]) -> Option<(PublishFlags, &[u8], &[u8])>
    ensures earlier { IfSome result (λ x. HasPublish bytes.now x.0 x.1.now x.2.now) }
    ensures body { IfSome result (λ x. HasBody bytes.now x.0 x.1.now x.2.now) }
    ensures rest { IfSome result (λ x. length x.2.now ≤ length bytes.now) }
{
    match bytes {
        [] => None,
        [first, rest @ ..] => {
            let flags = flags_of(*first)?;
            let Ok((len, rest)) = vbi_at(rest) else {
                return None;
            };
            let len = len as usize;
            if rest.len() < len {
                return None;
            }
            let (body, rest) = rest.split_at(len);
            Some((flags, body, rest))
        }
    }
}
