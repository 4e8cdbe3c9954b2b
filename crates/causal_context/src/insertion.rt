//! One more dot among sorted ranges, in place.
ghost use Rattle.std.specs.Prelude.{◌≡◌, ℕ, ◌+◌, ◌≤◌, ◌<◌, ◌^◌, ◌↔◌, OnOk, OnErr, IsOk, IsTrue, true, [], ◌∷◌, length};
ghost use Rattle.causal_context.specs.Ranges.{covered, IsSound, IsContext};
ghost use Rattle.causal_context.specs.RangeSteps.{one_number, IsUnion, ReachesAt, FollowsAt};

use crate::ranges::{MOST_RANGES, Range, started};
use mqtt_fields::NoMemory;

// Whether the range before the place has the number before this one, or a later one.
pub fn reaches_at(ranges: &[Range], place: usize, node: u16, number: u64) -> bool
    requires sound { IsSound ranges.now }
    requires place { place ≤ length ranges.now }
    ensures { IsTrue result ↔ ReachesAt ranges.now place (record { node = node; number = number }) }
{
    if place == 0 {
        return false;
    }
    let range = ranges[place - 1];
    range.node == node && number <= range.last + 1
}

// Whether the range at the place begins with the number after this one.
fn follows_at(ranges: &[Range], place: usize, node: u16, number: u64) -> bool
    requires { number < 2 ^ 62 }
    ensures { IsTrue result ↔ FollowsAt ranges.now place (record { node = node; number = number }) }
{
    if place >= ranges.len() {
        return false;
    }
    let range = ranges[place];
    range.node == node && range.first == number + 1
}

/// Puts the dot in among the ranges. Where memory runs out they stay as they were.
pub fn put(ranges: &mut Vec<Range>, node: u16, number: u64) -> Result<(), NoMemory>
    requires context { IsContext ranges.old.items }
    requires from { 1 ≤ number }
    requires below { number < 2 ^ 62 }
    ensures ok { OnOk result
        (IsUnion ranges.old.items (one_number node number ∷ []) ranges.new.items) }
    ensures err { OnErr result (ranges.new.items ≡ ranges.old.items) }
    ensures there { covered (record { node = node; number = number }) ranges.old.items ≡ true
        → IsOk result }
    ensures beside { (m : ℕ) → m ≤ number + 1 → number ≤ m + 1
        → covered (record { node = node; number = m }) ranges.old.items ≡ true → IsOk result }
    ensures few { length ranges.new.items < 2 ^ 32 }
{
    let next = started(ranges, node, number);
    let follows = follows_at(ranges, next, node, number);
    if !reaches_at(ranges, next, node, number) {
        if follows {
            ranges[next].first = number;
            return Ok(());
        }
        if ranges.len() == MOST_RANGES {
            return Err(NoMemory);
        }
        let one = Range {
            node,
            first: number,
            last: number,
        };
        ranges.insert(next, one)?;
        return Ok(());
    }
    let before = ranges[next - 1];
    if number <= before.last {
        return Ok(());
    }
    if follows {
        let last = ranges[next].last;
        ranges[next - 1] = Range { last, ..before };
        ranges.remove(next);
        return Ok(());
    }
    ranges[next - 1] = Range {
        last: number,
        ..before
    };
    Ok(())
}
