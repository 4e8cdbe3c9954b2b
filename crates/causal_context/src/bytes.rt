//! The bytes of a context: how many ranges it has, in four bytes, and of each range its node in
//! two bytes and its first and last number in eight, highest byte first.
ghost use Rattle.std.specs.Prelude.{◌≡◌, ◌+◌, ◌<◌, ◌≤◌, ◌^◌, ◌++◌, length, vec_len, vec_capacity, OnOk, OnErr, IsErrOf};
ghost use Rattle.mqtt_fields.specs.Reading.{Gives};
ghost use Rattle.causal_context.specs.Spelling as spec;

use crate::ranges::Range;
use mqtt_fields::{
    FieldFault, NUMBERS_END, NoMemory, put_u16, put_u32, put_u64, u16_at, u32_at, u64_at,
};
use std::alloc::Global;

// The range at the front, and the bytes after it. Short where they end inside it.
fn range_at(bytes: &[u8]) -> Result<(Range, &[u8]), FieldFault>
    ensures exact { Gives (λ x. (x.0, x.1.now)) result (spec.range.at bytes.now) }
    ensures no_memory { IsErrOf result FieldFault.NoMemory → ⊥ }
{
    let (node, rest) = u16_at(bytes)?;
    let (first, rest) = u64_at(rest)?;
    let (last, rest) = u64_at(rest)?;
    Ok((Range { node, first, last }, rest))
}

fn has_dots(range: Range) -> bool
    ensures { result ≡ spec.is_of_dots range }
{
    range.first >= 1 && (range.first <= range.last && range.last < NUMBERS_END)
}

// Whether the first stands before the second, with a gap between them.
fn stands_apart(a: Range, b: Range) -> bool
    ensures { result ≡ spec.stands_before a b }
{
    a.node < b.node || a.node == b.node && a.last < b.first.saturating_sub(1)
}

fn may_come_next(before: Option<Range>, range: Range) -> bool
    ensures { result ≡ spec.may_follow before range }
{
    match before {
        None => has_dots(range),
        Some(before) => has_dots(range) && stands_apart(before, range),
    }
}

// So many ranges at the front, and the bytes after them.
fn ranges_from(alloc: Global, count: u32, bytes: &[u8]) -> Result<(Vec<Range>, &[u8]), FieldFault>
    ensures exact { Gives (λ x. (x.0.items, x.1.now)) result (spec.ranges_at count None bytes.now) }
    ensures no_memory { IsErrOf result FieldFault.NoMemory → spec.HasFirst count bytes.now }
{
    let mut rest = bytes;
    let mut ranges = Vec::new(alloc);
    let mut before = None;
    for _ in 0..count {
        let (range, after) = range_at(rest)?;
        if !may_come_next(before, range) {
            return Err(FieldFault::Malformed);
        }
        ranges.push(range)?;
        before = Some(range);
        rest = after;
    }
    Ok((ranges, rest))
}

/// The ranges at the front, and the bytes after them.
///
/// Short where the bytes end inside them; Malformed where a range is empty, has a number that no
/// dot has, or doesn't stand after the one before it with a gap between them.
#[tactic(auto, unfolding(crate::specs::Spelling::ranges))]
pub fn ranges_at(alloc: Global, bytes: &[u8]) -> Result<(Vec<Range>, &[u8]), FieldFault>
    ensures exact { Gives (λ x. (x.0.items, x.1.now)) result (spec.ranges.at bytes.now) }
    ensures no_memory { IsErrOf result FieldFault.NoMemory → spec.WantsMemory bytes.now }
{
    let (count, rest) = u32_at(bytes)?;
    ranges_from(alloc, count, rest)
}

// Appends a range, where there is room for it.
fn put_range(range: Range, out: &mut Vec<u8>)
    requires { vec_len out.old + 18 ≤ vec_capacity out.old }
    ensures items { out.new.items ≡ out.old.items ++ spec.range.bytes range }
    ensures len { vec_len out.new ≡ vec_len out.old + 18 }
    ensures capacity { vec_capacity out.old ≤ vec_capacity out.new }
{
    put_u16(range.node, out).unwrap();
    put_u64(range.first, out).unwrap();
    put_u64(range.last, out).unwrap();
}

/// Appends the bytes of the ranges.
pub fn write_ranges(ranges: &[Range], out: &mut Vec<u8>) -> Result<(), NoMemory>
    requires { length ranges.now < 2 ^ 32 }
    ensures ok { OnOk result (out.new.items ≡ out.old.items ++ spec.ranges_bytes ranges.now) }
    ensures err { OnErr result (out.new.items ≡ out.old.items) }
    ensures full { OnErr result
        (vec_capacity out.old < vec_len out.old + length (spec.ranges_bytes ranges.now)) }
    ensures capacity { vec_capacity out.old ≤ vec_capacity out.new }
{
    out.reserve(4 + 18 * ranges.len())?;
    put_u32(ranges.len() as u32, out).unwrap();
    for range in ranges {
        put_range(*range, out);
    }
    Ok(())
}
