//! Integers and runs at the front of some bytes, and how many bytes they take.

ghost use Rattle.std.specs.Prelude.{◌≡◌, ◌+◌, ◌≤◌, length, drop, Ok, Err, MatchOption, IfSome};
ghost use Rattle.std.specs.Int.{w8, w16, w32, w64};
ghost use Rattle.mqtt_fields.specs.declared.fault.FieldFault.TheVariants as faults;
ghost use Rattle.mqtt_fields.specs.Numbers.{number, long};

use crate::number::{long_at, u8_at, u16_at, u32_at, u64_at};

/// The byte at the front, and 1. None where fewer bytes are left.
pub fn take_u8(bytes: &[u8]) -> Option<(u8, usize)>
    ensures exact { let read = (number w8).at bytes.now in
        MatchOption result (read ≡ Err faults.Short) (λ x. read ≡ Ok (x.0, drop x.1 bytes.now)) }
    ensures used { IfSome result (λ x. (x.1 ≡ 1) × (x.1 ≤ length bytes.now)) }
{
    match u8_at(bytes) {
        Ok((n, _)) => Some((n, 1)),
        Err(_) => None,
    }
}

/// The Two Byte Integer at the front, and 2. None where fewer bytes are left.
pub fn take_u16(bytes: &[u8]) -> Option<(u16, usize)>
    ensures exact { let read = (number w16).at bytes.now in
        MatchOption result (read ≡ Err faults.Short) (λ x. read ≡ Ok (x.0, drop x.1 bytes.now)) }
    ensures used { IfSome result (λ x. (x.1 ≡ 2) × (x.1 ≤ length bytes.now)) }
{
    match u16_at(bytes) {
        Ok((n, _)) => Some((n, 2)),
        Err(_) => None,
    }
}

/// The Four Byte Integer at the front, and 4. None where fewer bytes are left.
pub fn take_u32(bytes: &[u8]) -> Option<(u32, usize)>
    ensures exact { let read = (number w32).at bytes.now in
        MatchOption result (read ≡ Err faults.Short) (λ x. read ≡ Ok (x.0, drop x.1 bytes.now)) }
    ensures used { IfSome result (λ x. (x.1 ≡ 4) × (x.1 ≤ length bytes.now)) }
{
    match u32_at(bytes) {
        Ok((n, _)) => Some((n, 4)),
        Err(_) => None,
    }
}

/// The integer of eight bytes at the front, and 8. None where fewer bytes are left.
pub fn take_u64(bytes: &[u8]) -> Option<(u64, usize)>
    ensures exact { let read = (number w64).at bytes.now in
        MatchOption result (read ≡ Err faults.Short) (λ x. read ≡ Ok (x.0, drop x.1 bytes.now)) }
    ensures used { IfSome result (λ x. (x.1 ≡ 8) × (x.1 ≤ length bytes.now)) }
{
    match u64_at(bytes) {
        Ok((n, _)) => Some((n, 8)),
        Err(_) => None,
    }
}

/// The bytes at the front that a length in four bytes stands before, and how many bytes both take.
/// None where fewer are left.
pub fn take_long(bytes: &[u8]) -> Option<(&[u8], usize)>
    ensures exact { let read = long.at bytes.now in
        MatchOption result (read ≡ Err faults.Short) (λ x. read ≡ Ok (x.0.now, drop x.1 bytes.now)) }
    ensures used { IfSome result (λ x. (x.1 ≡ 4 + length x.0.now) × (x.1 ≤ length bytes.now)) }
{
    match long_at(bytes) {
        Ok((run, _)) => Some((run, 4 + run.len())),
        Err(_) => None,
    }
}
