//! Sets of dots that grow.

use causal_context::{Context, Dot, Lattice};
use std::alloc::Global;
use trial_refusals::{Changing, Fault, Trial, try_changing};

/// The dot of this number at node 1.
fn dot(number: u64) -> Result<Dot, Fault> {
    Dot::new(1, number).ok_or(Fault::Other)
}

/// Whether the set has the dot of this number at node 1.
fn has(context: &Context, number: u64) -> bool {
    Dot::new(1, number).is_some_and(|dot| context.contains(dot))
}

/// Of the dots 1, 3, 5 and so on the last.
const LAST: u64 = 39;

/// Every second dot is inserted.
#[derive(Drop)]
struct Insertion {
    context: Context,
    /// The next number.
    next: u64,
}

impl Insertion {
    /// Whether just the dots before the next one are there.
    fn is_so_far(&self) -> bool {
        for number in 1..=LAST {
            let is_there = number % 2 == 1 && number < self.next;
            if has(&self.context, number) != is_there {
                return false;
            }
        }
        true
    }
}

impl Changing for Insertion {
    fn make(&mut self, _alloc: Global) -> Result<(), Fault> {
        for number in self.next..=LAST {
            if number % 2 == 1 {
                let dot = dot(number)?;
                self.context.insert(dot)?;
                self.next = number.saturating_add(2);
            }
        }
        Ok(())
    }

    fn is_as_before(&mut self) -> bool {
        self.is_so_far()
    }

    fn is_made(&mut self) -> bool {
        self.next > LAST && self.is_so_far()
    }
}

/// Tries to insert dots.
pub fn try_insertion(alloc: Global, number: usize) -> Trial {
    let context = Context::new(alloc);
    try_changing(alloc, number, &mut Insertion { context, next: 1 })
}

/// The dots of every fourth number from one to another.
fn fourth(alloc: Global, from: u64, to: u64) -> Result<Context, Fault> {
    let mut context = Context::new(alloc);
    for number in from..=to {
        if number % 4 == from % 4 {
            let dot = dot(number)?;
            context.insert(dot)?;
        }
    }
    Ok(context)
}

/// A set takes in another.
#[derive(Drop)]
struct Union {
    own: Context,
    before: Context,
    other: Context,
}

impl Changing for Union {
    fn make(&mut self, _alloc: Global) -> Result<(), Fault> {
        self.own.join(&self.other)?;
        Ok(())
    }

    fn is_as_before(&mut self) -> bool {
        self.own.same(&self.before)
    }

    fn is_made(&mut self) -> bool {
        for number in 1..=LAST {
            if has(&self.own, number) != (has(&self.before, number) || has(&self.other, number)) {
                return false;
            }
        }
        true
    }
}

/// Tries to join a set of dots up to the first number with one up to the second.
fn try_union(alloc: Global, number: usize, own_to: u64, other_to: u64) -> Trial {
    let own = fourth(alloc, 1, own_to)?;
    let before = fourth(alloc, 1, own_to)?;
    let other = fourth(alloc, 3, other_to)?;
    try_changing(alloc, number, &mut Union { own, before, other })
}

/// Tries to join a large set with a small one, which goes in place.
pub fn try_small_union(alloc: Global, number: usize) -> Trial {
    try_union(alloc, number, LAST, 3)
}

/// Tries to join two sets of one size.
pub fn try_even_union(alloc: Global, number: usize) -> Trial {
    try_union(alloc, number, LAST, LAST)
}
