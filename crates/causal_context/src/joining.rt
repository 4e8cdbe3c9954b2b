//! A merge that needs no more memory.
ghost use Rattle.std.specs.Prelude.{◌≡◌, ◌+◌, ◌<◌, ◌^◌, true, length, IfOk, vec_len, vec_capacity};
ghost use Rattle.std.specs.FinSet as set;
ghost use Rattle.causal_context.specs.Joining.{after, HasRoom};
ghost use Rattle.causal_context.specs.Ranges.{IsContext, set_of};

use crate::context::Context;
use crate::dot::Dot;
use crate::placing::put_ranges;
use crate::ranges::{FEW, MOST_RANGES, Range, has};
use crate::union::merged;
use mqtt_fields::NoMemory;
use std::marker::Model;

/// Whether the other ranges are to go in one by one.
pub fn goes_in_place(own: usize, others: usize) -> bool
    ensures { result ≡ true → own + others < 2 ^ 32 }
{
    others <= FEW && own <= MOST_RANGES - FEW
}

/// What a merge needs beside its own ranges: the others, with room for them where they go in place, or the
/// ranges of both. The ranges stay.
pub fn more_of(
    ranges: &mut Vec<Range>,
    others: &[Range],
    in_place: bool,
) -> Result<Vec<Range>, NoMemory>
    requires own { IsContext ranges.old.items }
    requires others { IsContext others.now }
    requires few { in_place ≡ true → vec_len ranges.old + length others.now < 2 ^ 32 }
    ensures items { ranges.new.items ≡ ranges.old.items }
    ensures more { IfOk result (λ more. IsContext more.items) }
    ensures after { IfOk result (λ more. after in_place ranges.old.items more.items
        ≡ set.union (set_of ranges.old.items) (set_of others.now)) }
    ensures room { IfOk result (λ more.
        HasRoom in_place (vec_len ranges.new) (vec_len more) (vec_capacity ranges.new)) }
{
    let alloc = *ranges.allocator();
    if in_place {
        ranges.reserve(others.len())?;
        let more = Vec::from_slice(alloc, others)?;
        return Ok(more);
    }
    let more = merged(alloc, ranges, others)?;
    if more.len() > MOST_RANGES {
        return Err(NoMemory);
    }
    Ok(more)
}

/// A set, and what it becomes with the dots of another: memory for it is there.
#[derive(Drop)]
pub struct Joining {
    pub(crate) ranges: Vec<Range>,
    pub(crate) more: Vec<Range>,
    pub(crate) in_place: bool,
}

impl Model for Joining {
    ghost use Rattle.std.specs.Prelude.{vec_len, vec_capacity};
    ghost use Rattle.std.specs.Coded.{coded×};
    ghost use Rattle.std.specs.FinSet as set;
    ghost use Rattle.causal_context.specs.Dots.{Dots, coded_dot};
    ghost use Rattle.causal_context.specs.Ranges.{IsContext, set_of};
    ghost use Rattle.causal_context.specs.Joining.{after, HasRoom};

    ghost Value = { Dots × Dots };

    ghost coded = { coded× (set.code coded_dot) (set.code coded_dot) };

    ghost view = { λ j. (set_of j.ranges.items, after j.in_place j.ranges.items j.more.items) };

    ghost invariant = { λ j. IsContext j.ranges.items × IsContext j.more.items × HasRoom j.in_place (vec_len j.ranges) (vec_len j.more) (vec_capacity j.ranges) };
}

impl Joining {
    /// Whether the dot was in the set before. It takes no memory.
    pub fn had(&self, dot: Dot) -> bool
        ensures { result ≡ set.contains self.now.0 dot }
    {
        has(&self.ranges, dot.node(), dot.number())
    }

    /// The set as it is to be.
    pub fn commit(self) -> Context
        ensures { result ≡ self.1 }
    {
        let Joining {
            mut ranges,
            more,
            in_place,
        } = self;
        if !in_place {
            return Context { ranges: more };
        }
        put_ranges(&mut ranges, &more);
        Context { ranges }
    }

    /// The set as it was.
    pub fn abandon(self) -> Context
        ensures { result ≡ self.0 }
    {
        Context {
            ranges: self.ranges,
        }
    }
}
