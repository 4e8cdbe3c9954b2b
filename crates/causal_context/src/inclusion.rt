//! Whether the dots of sorted ranges are among those of others.
ghost use Rattle.std.specs.Prelude.{[], ◌∷◌, ◌↔◌, IsTrue};
ghost use Rattle.causal_context.specs.Ranges.{IsFine, IsSound, AreBelow};
ghost use Rattle.causal_context.specs.RangeSteps.{LiesIn};

use crate::ranges::{FEW, Range, ends_before, started};

fn lies_in(a: Range, b: Range) -> bool
    ensures { IsTrue result ↔ LiesIn a b }
{
    a.node == b.node && b.first <= a.first && a.last <= b.last
}

// Whether each dot of the range is one of the others.
fn is_within(range: Range, others: &[Range]) -> bool
    requires fine { IsFine range }
    requires others { IsSound others.now }
    ensures { IsTrue result ↔ AreBelow (range ∷ []) others.now }
{
    let count = started(others, range.node, range.first);
    if count == 0 {
        return false;
    }
    lies_in(range, others[count - 1])
}

// Whether each dot of the first is one of the second, where each range is looked for.
fn are_within(a: &[Range], b: &[Range]) -> bool
    requires a { IsSound a.now }
    requires b { IsSound b.now }
    ensures { IsTrue result ↔ AreBelow a.now b.now }
{
    for range in a {
        if !is_within(*range, b) {
            return false;
        }
    }
    true
}

// Whether each dot of the first is one of the second, in one pass over both.
fn are_passed(a: &[Range], b: &[Range]) -> bool
    requires a { IsSound a.now }
    requires b { IsSound b.now }
    ensures { IsTrue result ↔ AreBelow a.now b.now }
{
    let mut i = 0;
    let mut j = 0;
    while i < a.len() {
        if j == b.len() {
            return false;
        }
        if ends_before(b[j], a[i].node, a[i].first) {
            j += 1;
        } else if lies_in(a[i], b[j]) {
            i += 1;
        } else {
            return false;
        }
    }
    true
}

/// Whether each dot of the first is one of the second: a few ranges are looked for, more are found in
/// one pass over both.
pub fn are_below(a: &[Range], b: &[Range]) -> bool
    requires a { IsSound a.now }
    requires b { IsSound b.now }
    ensures { IsTrue result ↔ AreBelow a.now b.now }
{
    if a.len() <= FEW {
        are_within(a, b)
    } else {
        are_passed(a, b)
    }
}
