//! Integers, highest byte first (MQTT 5.0, 1.5.2 and 1.5.3), of eight bytes too, and runs of bytes.

ghost use Rattle.std.specs.Prelude.{◌≡◌, ◌+◌, ◌<◌, ◌≤◌, ◌^◌, ◌↔◌, ◌++◌, length, take, drop, vec_len, vec_capacity, IsNone, IfOk, IfSome, IsErrOf, OnOk, OnErr};
ghost use Rattle.std.specs.Int.{w8, w16, w32, w64, from_be_bytes, to_be_bytes};
ghost use Rattle.mqtt_fields.specs.Reading.{Gives};
ghost use Rattle.mqtt_fields.specs.Numbers.{number, run_of, long};

use crate::fault::{FieldFault, NoMemory};
use byteorder::{BigEndian, ByteOrder};

/// The byte at the front, and the bytes after it. Short where there is none.
pub fn u8_at(bytes: &[u8]) -> Result<(u8, &[u8]), FieldFault>
    ensures exact { Gives (λ x. (x.0, x.1.now)) result ((number w8).at bytes.now) }
    ensures no_memory { IsErrOf result FieldFault.NoMemory → ⊥ }
{
    match bytes {
        [] => Err(FieldFault::Short),
        [first, rest @ ..] => Ok((*first, rest)),
    }
}

/// The Two Byte Integer at the front, and the bytes after it. Short where fewer than two are left.
#[tactic(auto, using(crate::proofs::BigEndianLaws::big_numbers))]
pub fn u16_at(bytes: &[u8]) -> Result<(u16, &[u8]), FieldFault>
    ensures exact { Gives (λ x. (x.0, x.1.now)) result ((number w16).at bytes.now) }
    ensures no_memory { IsErrOf result FieldFault.NoMemory → ⊥ }
{
    if bytes.len() < 2 {
        return Err(FieldFault::Short);
    }
    let (front, rest) = bytes.split_at(2);
    Ok((BigEndian::read_u16(front), rest))
}

/// The Four Byte Integer at the front, and the bytes after it. Short where fewer than four are
/// left.
#[tactic(auto, using(crate::proofs::BigEndianLaws::big_numbers))]
pub fn u32_at(bytes: &[u8]) -> Result<(u32, &[u8]), FieldFault>
    ensures exact { Gives (λ x. (x.0, x.1.now)) result ((number w32).at bytes.now) }
    ensures no_memory { IsErrOf result FieldFault.NoMemory → ⊥ }
{
    if bytes.len() < 4 {
        return Err(FieldFault::Short);
    }
    let (front, rest) = bytes.split_at(4);
    Ok((BigEndian::read_u32(front), rest))
}

/// The integer of eight bytes at the front, and the bytes after it. Short where fewer are left.
#[tactic(auto, using(crate::proofs::BigEndianLaws::big_numbers))]
pub fn u64_at(bytes: &[u8]) -> Result<(u64, &[u8]), FieldFault>
    ensures exact { Gives (λ x. (x.0, x.1.now)) result ((number w64).at bytes.now) }
    ensures no_memory { IsErrOf result FieldFault.NoMemory → ⊥ }
{
    if bytes.len() < 8 {
        return Err(FieldFault::Short);
    }
    let (front, rest) = bytes.split_at(8);
    Ok((BigEndian::read_u64(front), rest))
}

/// So many bytes at the front, and the bytes after them. Short where fewer are left.
pub fn run_at(len: usize, bytes: &[u8]) -> Result<(&[u8], &[u8]), FieldFault>
    ensures exact { Gives (λ x. (x.0.now, x.1.now)) result ((run_of len).at bytes.now) }
    ensures no_memory { IsErrOf result FieldFault.NoMemory → ⊥ }
{
    if bytes.len() < len {
        return Err(FieldFault::Short);
    }
    Ok(bytes.split_at(len))
}

/// A length in four bytes and that many bytes, and the bytes after them. Short where fewer are
/// left.
pub fn long_at(bytes: &[u8]) -> Result<(&[u8], &[u8]), FieldFault>
    ensures exact { Gives (λ x. (x.0.now, x.1.now)) result (long.at bytes.now) }
    ensures no_memory { IsErrOf result FieldFault.NoMemory → ⊥ }
{
    let (len, rest) = u32_at(bytes)?;
    run_at(len as usize, rest)
}
