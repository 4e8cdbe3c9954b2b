//! The dots of two lists of sorted ranges.
ghost use Rattle.std.specs.Prelude.{◌≡◌, ◌+◌, ◌≤◌, ◌<◌, ◌^◌, ◌↔◌, OnOk, OnErr, IfOk, IsTrue, length};
ghost use Rattle.causal_context.specs.Ranges.{IsFine, IsSound};
ghost use Rattle.causal_context.specs.RangeSteps.{AllStartUpTo, StartsUpTo, IsJoined, IsUnion};

use crate::ranges::Range;
use mqtt_fields::NoMemory;
use std::alloc::Global;

// Adds a range that starts no earlier than any of these: to the last one, where they touch.
fn push(out: &mut Vec<Range>, range: Range) -> Result<(), NoMemory>
    requires sound { IsSound out.old.items }
    requires fine { IsFine range }
    requires after { AllStartUpTo out.old.items range }
    ensures ok { OnOk result (IsJoined out.old.items range out.new.items) }
{
    let count = out.len();
    if count == 0 {
        out.push(range)?;
        return Ok(());
    }
    let last = out[count - 1];
    if last.node < range.node || last.last + 1 < range.first {
        out.push(range)?;
        return Ok(());
    }
    if range.last <= last.last {
        return Ok(());
    }
    out[count - 1] = Range {
        node: last.node,
        first: last.first,
        last: range.last,
    };
    Ok(())
}

// Adds a range that may be empty.
pub fn push_some(out: &mut Vec<Range>, range: Range) -> Result<(), NoMemory>
    requires sound { IsSound out.old.items }
    requires node { range.node < 2 ^ 16 }
    requires from { 1 ≤ range.first }
    requires below { range.last < 2 ^ 62 }
    requires after { AllStartUpTo out.old.items range }
    ensures ok { OnOk result (IsJoined out.old.items range out.new.items) }
    ensures memory { OnErr result (range.first ≤ range.last) }
{
    if range.first > range.last {
        return Ok(());
    }
    push(out, range)
}

fn starts_up_to(a: Range, b: Range) -> bool
    ensures { IsTrue result ↔ StartsUpTo a b }
{
    a.node < b.node || a.node == b.node && a.first <= b.first
}

/// The ranges of the dots of both, in one pass over both. No ranges take no memory.
pub fn merged(alloc: Global, a: &[Range], b: &[Range]) -> Result<Vec<Range>, NoMemory>
    requires a { IsSound a.now }
    requires b { IsSound b.now }
    ensures union { IfOk result (λ out. IsUnion a.now b.now out.items) }
    ensures memory { OnErr result (0 < length a.now + length b.now) }
{
    let mut out = Vec::new(alloc);
    let mut i = 0;
    let mut j = 0;
    while i < a.len() || j < b.len() {
        if j == b.len() || i < a.len() && starts_up_to(a[i], b[j]) {
            push(&mut out, a[i])?;
            i += 1;
        } else {
            push(&mut out, b[j])?;
            j += 1;
        }
    }
    Ok(out)
}
