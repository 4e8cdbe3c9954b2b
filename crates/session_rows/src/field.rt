//! Readers and writers of the parts of rows.

ghost use Rattle.std.specs.Prelude.{◌≡◌, ◌<◌, ◌≤◌, ◌+◌, ◌++◌, true, length, take, vec_capacity, vec_len, IsErrOf, IsOk, OnErr, OnOk};
ghost use Rattle.std.specs.Int.{w16};
ghost use Rattle.mqtt_fields.specs.Reading.{Gives};
ghost use Rattle.mqtt_fields.specs.Numbers.{number};
ghost use Rattle.mqtt_message.specs.Parts.{qos};
ghost use Rattle.mqtt_message.specs.Spelling.{values_at};
ghost use Rattle.qos_handshakes.specs.Incoming.{rise};
ghost use Rattle.session_rows.specs.Fields as fields;
ghost use Rattle.session_rows.specs.Reading.{CountsSome};

use mqtt_fields::{
    Blob, FieldFault, LONGEST_STRING, NoMemory, Qos, long_at, put_u16, put_u32, put_u64, u8_at,
    u16_at, u32_at, u64_at,
};
use mqtt_message::{flag_at, put_flag};
use std::alloc::Global;

pub(crate) fn qos_at(bytes: &[u8]) -> Result<(Qos, &[u8]), FieldFault>
    ensures exact { Gives (λ x. (x.0, x.1.now)) result (qos.at bytes.now) }
    ensures no_memory { IsErrOf result FieldFault.NoMemory → ⊥ }
{
    let (n, rest) = u8_at(bytes)?;
    match Qos::of(n) {
        Some(level) => Ok((level, rest)),
        None => Err(FieldFault::Malformed),
    }
}

/// Bytes after their length in four bytes, of which there are fewer than 65,536.
pub(crate) fn payload_at(alloc: Global, bytes: &[u8]) -> Result<(Blob, &[u8]), FieldFault>
    ensures exact { Gives (λ x. (x.0, x.1.now)) result (fields.payload.at bytes.now) }
    ensures no_memory { IsErrOf result FieldFault.NoMemory → IsOk (fields.payload.at bytes.now) }
{
    let (run, rest) = long_at(bytes)?;
    if run.len() > LONGEST_STRING {
        return Err(FieldFault::Malformed);
    }
    let blob = Blob::new(alloc, run)?;
    Ok((blob, rest))
}

/// Since when a session is closed, if it is.
pub(crate) fn closed_at(bytes: &[u8]) -> Result<(Option<u64>, &[u8]), FieldFault>
    ensures exact { Gives (λ x. (x.0, x.1.now)) result (fields.closed.at bytes.now) }
    ensures no_memory { IsErrOf result FieldFault.NoMemory → ⊥ }
{
    let (is_closed, rest) = flag_at(bytes)?;
    let (moment, rest) = u64_at(rest)?;
    if is_closed {
        return Ok((Some(moment), rest));
    }
    if moment == 0 {
        return Ok((None, rest));
    }
    Err(FieldFault::Malformed)
}

pub(crate) fn put_closed(closed: Option<u64>, out: &mut Vec<u8>) -> Result<(), NoMemory>
    ensures ok { OnOk result (out.new.items ≡ out.old.items ++ fields.closed.bytes closed) }
    ensures begins { take (length out.old.items) out.new.items ≡ out.old.items }
    ensures full { OnErr result (vec_capacity out.old < vec_len out.old + length (fields.closed.bytes closed)) }
    ensures capacity { vec_capacity out.old ≤ vec_capacity out.new }
{
    put_flag(closed.is_some(), out)?;
    put_u64(closed.unwrap_or(0), out)
}

fn numbers_at(alloc: Global, count: u32, bytes: &[u8]) -> Result<(Vec<u16>, &[u8]), FieldFault>
    ensures exact { Gives (λ x. (x.0.items, x.1.now)) result (values_at (number w16) count bytes.now) }
    ensures no_memory { IsErrOf result FieldFault.NoMemory → 1 ≤ count }
{
    let mut numbers = Vec::new(alloc);
    let mut rest = bytes;
    for i in 0..count {
        let (n, after) = u16_at(rest)?;
        numbers.push(n)?;
        rest = after;
    }
    Ok((numbers, rest))
}

/// Identifiers, with their number before them in four bytes.
pub(crate) fn identifiers_at(alloc: Global, bytes: &[u8]) -> Result<(Vec<u16>, &[u8]), FieldFault>
    ensures exact { Gives (λ x. (x.0.items, x.1.now)) result ((fields.many (number w16)).at bytes.now) }
    ensures no_memory { IsErrOf result FieldFault.NoMemory → CountsSome bytes.now }
{
    let (count, rest) = u32_at(bytes)?;
    numbers_at(alloc, count, rest)
}

/// Appends identifiers, with their number before them in four bytes, or the beginning where memory runs out.
pub(crate) fn put_identifiers(ids: &[u16], out: &mut Vec<u8>) -> Result<(), NoMemory>
    requires { rise ids.now ≡ true }
    ensures ok { OnOk result (out.new.items ≡ out.old.items ++ (fields.many (number w16)).bytes ids.now) }
    ensures begins { take (length out.old.items) out.new.items ≡ out.old.items }
    ensures full { OnErr result (vec_capacity out.old < vec_len out.old + length ((fields.many (number w16)).bytes ids.now)) }
    ensures capacity { vec_capacity out.old ≤ vec_capacity out.new }
{
    put_u32(ids.len() as u32, out)?;
    for id in ids {
        put_u16(*id, out)?;
    }
    Ok(())
}
