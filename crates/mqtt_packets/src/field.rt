//! A field at the front of some bytes, and the bytes after it; and fields that are written.

ghost use Rattle.std.specs.Prelude.{◌≡◌, ◌++◌, IfOk, OnOk, IsErrOf, IsOk, OnErr, vec_len, vec_capacity, length, ◌+◌, ◌<◌, ◌≤◌};
ghost use Rattle.std.specs.Int.{w8, w16};
ghost use Rattle.mqtt_fields.specs.Field.{variant_bytes};
ghost use Rattle.mqtt_fields.specs.Numbers.{number, text, blob};
ghost use Rattle.mqtt_fields.specs.Block.{properties, first_property};
ghost use Rattle.mqtt_packets.specs.Optional.{maybe};
ghost use Rattle.mqtt_packets.specs.Reading.{Gives, in_packet, field_at};

use crate::fault::PacketFault;
use mqtt_fields::{Blob, NoMemory, Place, Properties, Text, read_properties, write_properties};
use std::alloc::Global;

pub(crate) fn take_u8(bytes: &[u8]) -> Result<(u8, &[u8]), PacketFault>
    ensures exact { Gives (λ x. (x.0, x.1.now)) result (field_at (number w8) bytes.now) }
    ensures no_memory { IsErrOf result PacketFault.NoMemory → ⊥ }
{
    match bytes {
        [] => Err(PacketFault::Malformed),
        [first, rest @ ..] => Ok((*first, rest)),
    }
}

pub(crate) fn take_u16(bytes: &[u8]) -> Result<(u16, &[u8]), PacketFault>
    ensures exact { Gives (λ x. (x.0, x.1.now)) result (field_at (number w16) bytes.now) }
    ensures no_memory { IsErrOf result PacketFault.NoMemory → ⊥ }
{
    if bytes.len() < 2 {
        return Err(PacketFault::Malformed);
    }
    let (front, rest) = bytes.split_at(2);
    Ok((u16::from_be_bytes([front[0], front[1]]), rest))
}

#[tactic(auto, using(crate::proofs::Lifts::lifted, crate::proofs::Lifts::lifted_ok, crate::proofs::Lifts::ran_out))]
pub(crate) fn take_text(alloc: Global, bytes: &[u8]) -> Result<(Text, &[u8]), PacketFault>
    ensures exact { Gives (λ x. (x.0, x.1.now)) result (field_at text bytes.now) }
    ensures no_memory { IsErrOf result PacketFault.NoMemory → IsOk (field_at text bytes.now) }
{
    let (text, used) = Text::read(alloc, bytes)?;
    Ok((text, &bytes[used..]))
}

#[tactic(auto, using(crate::proofs::Lifts::lifted, crate::proofs::Lifts::lifted_ok, crate::proofs::Lifts::ran_out))]
pub(crate) fn take_blob(alloc: Global, bytes: &[u8]) -> Result<(Blob, &[u8]), PacketFault>
    ensures exact { Gives (λ x. (x.0, x.1.now)) result (field_at blob bytes.now) }
    ensures no_memory { IsErrOf result PacketFault.NoMemory → IsOk (field_at blob bytes.now) }
{
    let (blob, used) = Blob::read(alloc, bytes)?;
    Ok((blob, &bytes[used..]))
}

#[tactic(auto, using(crate::proofs::Lifts::lifted, crate::proofs::Lifts::lifted_ok, crate::proofs::Lifts::ran_out))]
pub(crate) fn take_properties(
    alloc: Global,
    place: Place,
    bytes: &[u8],
) -> Result<(Properties, &[u8]), PacketFault>
    ensures exact { Gives (λ x. (x.0, x.1.now)) result (field_at (properties place) bytes.now) }
    ensures no_memory { IsErrOf result PacketFault.NoMemory → IsOk (in_packet (first_property place bytes.now)) }
{
    let (properties, used) = read_properties(alloc, place, bytes)?;
    Ok((properties, &bytes[used..]))
}

/// A text where one stands there.
pub(crate) fn take_text_if(
    alloc: Global,
    stands: bool,
    bytes: &[u8],
) -> Result<(Option<Text>, &[u8]), PacketFault>
    ensures exact { Gives (λ x. (x.0, x.1.now)) result (field_at (maybe stands text) bytes.now) }
    ensures no_memory { IsErrOf result PacketFault.NoMemory → IsOk (field_at (maybe stands text) bytes.now) }
{
    if !stands {
        return Ok((None, bytes));
    }
    let (text, rest) = take_text(alloc, bytes)?;
    Ok((Some(text), rest))
}

/// Binary data where it stands there.
pub(crate) fn take_blob_if(
    alloc: Global,
    stands: bool,
    bytes: &[u8],
) -> Result<(Option<Blob>, &[u8]), PacketFault>
    ensures exact { Gives (λ x. (x.0, x.1.now)) result (field_at (maybe stands blob) bytes.now) }
    ensures no_memory { IsErrOf result PacketFault.NoMemory → IsOk (field_at (maybe stands blob) bytes.now) }
{
    if !stands {
        return Ok((None, bytes));
    }
    let (blob, rest) = take_blob(alloc, bytes)?;
    Ok((Some(blob), rest))
}

/// Appends a property block that may stand there.
#[tactic(auto, using(mqtt_fields::proofs::BlockLaws::has_spelling))]
pub(crate) fn put_properties(
    place: Place,
    ps: &Properties,
    out: &mut Vec<u8>,
) -> Result<(), NoMemory>
    requires { (properties place).Fits ps.now }
    ensures ok { OnOk result (out.new.items ≡ out.old.items ++ (properties place).bytes ps.now) }
    ensures full { OnErr result (vec_capacity out.old < vec_len out.old + length ((properties place).bytes ps.now)) }
    ensures capacity { vec_capacity out.old ≤ vec_capacity out.new }
{
    write_properties(ps, out)
}

/// Appends a text where one stands there.
pub(crate) fn put_text_if(t: &Option<Text>, out: &mut Vec<u8>) -> Result<(), NoMemory>
    ensures ok { OnOk result (out.new.items ≡ out.old.items ++ variant_bytes text t.now) }
    ensures full { OnErr result (vec_capacity out.old < vec_len out.old + length (variant_bytes text t.now)) }
    ensures capacity { vec_capacity out.old ≤ vec_capacity out.new }
{
    match t {
        None => Ok(()),
        Some(t) => t.write(out),
    }
}

/// Appends binary data where it stands there.
pub(crate) fn put_blob_if(b: &Option<Blob>, out: &mut Vec<u8>) -> Result<(), NoMemory>
    ensures ok { OnOk result (out.new.items ≡ out.old.items ++ variant_bytes blob b.now) }
    ensures full { OnErr result (vec_capacity out.old < vec_len out.old + length (variant_bytes blob b.now)) }
    ensures capacity { vec_capacity out.old ≤ vec_capacity out.new }
{
    match b {
        None => Ok(()),
        Some(b) => b.write(out),
    }
}

pub(crate) fn copy_text_if(alloc: Global, t: &Option<Text>) -> Result<Option<Text>, NoMemory>
    ensures { IfOk result (λ x. x ≡ t.now) }
{
    match t {
        None => Ok(None),
        Some(t) => Ok(Some(t.copy(alloc)?)),
    }
}

pub(crate) fn copy_blob_if(alloc: Global, b: &Option<Blob>) -> Result<Option<Blob>, NoMemory>
    ensures { IfOk result (λ x. x ≡ b.now) }
{
    match b {
        None => Ok(None),
        Some(b) => Ok(Some(b.copy(alloc)?)),
    }
}
