//! Ranges of dots, and where a dot is among sorted ones.
ghost use Rattle.std.specs.Prelude.{◌≡◌, ◌↔◌, IsTrue};
ghost use Rattle.causal_context.specs.Ranges.{covers, covered, IsSound};
ghost use Rattle.causal_context.specs.RangeSteps.{IsStarted, IsLastOf, StartsBy, EndsBefore};

/// As many ranges as four bytes can count.
pub const MOST_RANGES: usize = u32::MAX as usize;

/// As many ranges as are looked for one by one rather than in one pass over all.
pub const FEW: usize = 8;

/// The dots of one node from the first number to the last.
#[derive(Clone, Copy, Debug, PartialEq, Eq)]
pub struct Range {
    pub node: u16,
    pub first: u64,
    pub last: u64,
}

// Whether the range starts at the dot or before it.
pub fn starts_by(range: Range, node: u16, number: u64) -> bool
    ensures { IsTrue result ↔ StartsBy (record { node = node; number = number }) range }
{
    range.node < node || range.node == node && range.first <= number
}

// Whether the range ends before the dot.
pub fn ends_before(range: Range, node: u16, number: u64) -> bool
    ensures { IsTrue result ↔ EndsBefore (record { node = node; number = number }) range }
{
    range.node < node || range.node == node && range.last < number
}

// Whether the dot is in the range.
fn is_in(range: Range, node: u16, number: u64) -> bool
    ensures { result ≡ covers (record { node = node; number = number }) range }
{
    range.node == node && (range.first <= number && number <= range.last)
}

// How many of the ranges start at the dot or before it.
pub fn started(ranges: &[Range], node: u16, number: u64) -> usize
    requires { IsSound ranges.now }
    ensures { IsStarted ranges.now (record { node = node; number = number }) result }
{
    ranges.partition_point(|r| r.node < node || r.node == node && r.first <= number)
}

// Whether the dot is in one of the ranges.
pub fn has(ranges: &[Range], node: u16, number: u64) -> bool
    requires { IsSound ranges.now }
    ensures { result ≡ covered (record { node = node; number = number }) ranges.now }
{
    let count = started(ranges, node, number);
    if count == 0 {
        return false;
    }
    is_in(ranges[count - 1], node, number)
}

// The greatest number of the node in the ranges, or 0.
pub fn last_of(ranges: &[Range], node: u16) -> u64
    requires { IsSound ranges.now }
    ensures { IsLastOf ranges.now node result }
{
    let count = started(ranges, node, u64::MAX);
    if count == 0 {
        return 0;
    }
    let range = ranges[count - 1];
    if range.node == node {
        return range.last;
    }
    0
}
