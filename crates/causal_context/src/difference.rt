//! The dots of sorted ranges that others lack.
ghost use Rattle.std.specs.Prelude.{[], ◌∷◌, IfOk, OnErr, IsOk};
ghost use Rattle.causal_context.specs.Ranges.{IsFine, IsSound, AreBelow};
ghost use Rattle.causal_context.specs.RangeSteps.{AllStartUpTo, ArePassed, IsCutBy, AreCut};

use crate::ranges::{Range, ends_before, starts_by};
use crate::union::push_some;
use mqtt_fields::NoMemory;
use std::alloc::Global;

// Adds what the cuts leave of a range, where those before the place end before it.
// Answers the place of the first cut that may reach past the range.
fn push_cut(
    out: &mut Vec<Range>,
    range: Range,
    cuts: &[Range],
    from: usize,
) -> Result<usize, NoMemory>
    requires sound { IsSound out.old.items }
    requires fine { IsFine range }
    requires after { AllStartUpTo out.old.items range }
    requires cuts { IsSound cuts.now }
    requires passed { ArePassed cuts.now from (record { node = range.node; number = range.first }) }
    ensures cut { IfOk result (λ place. IsCutBy out.old.items range cuts.now place out.new.items) }
    ensures memory { OnErr result (AreBelow (range ∷ []) cuts.now → ⊥) }
{
    let mut place = from;
    let mut first = range.first;
    while place < cuts.len() && starts_by(cuts[place], range.node, range.last) {
        let cut = cuts[place];
        if !ends_before(cut, range.node, first) {
            let left = Range {
                node: range.node,
                first,
                last: cut.first - 1,
            };
            push_some(out, left)?;
            if cut.last >= range.last {
                return Ok(place);
            }
            first = cut.last + 1;
        }
        place += 1;
    }
    push_some(out, Range { first, ..range })?;
    Ok(place)
}

/// The ranges without the dots of the cuts, in one pass over both. Only dots that are left take memory.
pub fn without(alloc: Global, ranges: &[Range], cuts: &[Range]) -> Result<Vec<Range>, NoMemory>
    requires ranges { IsSound ranges.now }
    requires cuts { IsSound cuts.now }
    ensures cut { IfOk result (λ out. AreCut ranges.now cuts.now out.items) }
    ensures below { AreBelow ranges.now cuts.now → IsOk result }
{
    let mut out = Vec::new(alloc);
    let mut place = 0;
    for range in ranges {
        place = push_cut(&mut out, *range, cuts, place)?;
    }
    Ok(out)
}
