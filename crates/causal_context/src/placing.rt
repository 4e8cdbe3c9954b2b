//! Ranges put in among sorted ones, in place, where there is room.
ghost use Rattle.std.specs.Prelude.{◌≡◌, ◌+◌, ◌-◌, ◌≤◌, ◌<◌, [], ◌∷◌, length, vec_len, vec_capacity};
ghost use Rattle.std.specs.List.{remove_range};
ghost use Rattle.causal_context.specs.Ranges.{IsFine, IsSound};
ghost use Rattle.causal_context.specs.RangeSteps.{IsUnion, AreTouched};

use crate::insertion::reaches_at;
use crate::ranges::{Range, started};

// The ranges that this one overlaps or touches: from the first place to the second.
fn touched(ranges: &[Range], range: Range) -> (usize, usize)
    requires sound { IsSound ranges.now }
    requires fine { IsFine range }
    ensures { AreTouched ranges.now range result.0 result.1 }
{
    let next = started(ranges, range.node, range.first);
    let end = started(ranges, range.node, range.last + 1);
    if reaches_at(ranges, next, range.node, range.first) {
        (next - 1, end)
    } else {
        (next, end)
    }
}

// Takes out the ranges from the first place to before the second.
fn take_out(ranges: &mut Vec<Range>, start: usize, end: usize)
    requires order { start ≤ end }
    requires in_range { end ≤ vec_len ranges.old }
    ensures items { ranges.new.items ≡ remove_range ranges.old.items start end }
    ensures len { vec_len ranges.new + (end - start) ≡ vec_len ranges.old }
    ensures capacity { vec_capacity ranges.new ≡ vec_capacity ranges.old }
{
    ranges.drain(start..end);
}

// Puts the range in: among those that it touches not, or in the place of those that it touches.
fn put_range(ranges: &mut Vec<Range>, range: Range)
    requires sound { IsSound ranges.old.items }
    requires fine { IsFine range }
    requires room { vec_len ranges.old < vec_capacity ranges.old }
    ensures union { IsUnion ranges.old.items (range ∷ []) ranges.new.items }
    ensures len { vec_len ranges.new ≤ vec_len ranges.old + 1 }
    ensures capacity { vec_capacity ranges.old ≤ vec_capacity ranges.new }
{
    let (start, end) = touched(ranges, range);
    if start == end {
        ranges.insert(start, range).unwrap();
        return;
    }
    let front = ranges[start];
    let back = ranges[end - 1];
    ranges[start] = Range {
        node: range.node,
        first: front.first.min(range.first),
        last: back.last.max(range.last),
    };
    take_out(ranges, start + 1, end);
}

/// Puts the ranges in, for which there is room.
pub fn put_ranges(ranges: &mut Vec<Range>, more: &[Range])
    requires sound { IsSound ranges.old.items }
    requires more { IsSound more.now }
    requires room { vec_len ranges.old + length more.now ≤ vec_capacity ranges.old }
    ensures union { IsUnion ranges.old.items more.now ranges.new.items }
    ensures len { vec_len ranges.new ≤ vec_len ranges.old + length more.now }
{
    for range in more {
        put_range(ranges, *range);
    }
}
