//! Dots that are counted.

ghost use Rattle.std.specs.Prelude.{◌≡◌, ◌+◌, ◌-◌, ◌^◌, IfOk, min};
ghost use Rattle.std.specs.FinSet as set;
ghost use Rattle.causal_context.specs.Ranges.{IsFine, IsSound, set_of};
ghost use Rattle.node_figures.specs.Counts.{lacking};

use causal_context::{Context, Range};
use mqtt_fields::NoMemory;

/// How many dots a range has.
fn size_of(range: &Range) -> u64
    requires { IsFine range.now }
    ensures { result ≡ range.now.last + 1 - range.now.first }
{
    range.last - range.first + 1
}

/// How many dots ranges have, up to the greatest number that there is.
fn count_dots(ranges: &[Range]) -> u64
    requires { IsSound ranges.now }
    ensures { result ≡ min (set.len (set_of ranges.now)) (2 ^ 64 - 1) }
{
    let mut count: u64 = 0;
    for range in ranges {
        count = count.saturating_add(size_of(range));
    }
    count
}

/// How many dots the first set has that the second lacks, up to the greatest number that there is.
pub fn count_lacking(taken: &Context, known: &Context) -> Result<u64, NoMemory>
    ensures { IfOk result (λ count. count ≡ lacking taken.now known.now) }
{
    let left = taken.minus(known)?;
    Ok(count_dots(left.ranges()))
}
