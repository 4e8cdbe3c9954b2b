//! Sets of dots that take a dot out without memory.
ghost use Rattle.std.specs.Prelude.{◌≡◌, [], ◌∷◌, IfSome, IfOk, IsOk, OnOk, OnErr, true};
ghost use Rattle.std.specs.FinSet as set;
ghost use Rattle.std.specs.List.Sorted.{IsStrictlySortedBy};
ghost use Rattle.std.specs.Ordering.{eq_by_cmp};
ghost use Rattle.causal_context.specs.Dots.{dot_cmp};
ghost use Rattle.subscription_set.specs.Filing.{IsEmptiness};

use crate::dot_iter::Iter;
use causal_context::{Context, Dot};
use mqtt_fields::NoMemory;
use std::alloc::Global;
use std::cmp::Ordering;
use std::collections::BTreeSet;
use std::marker::Model;

/// A set of dots, in their order. One dot lies in place: a tree's smallest block has room for fifteen.
pub struct DotSet {
    alloc: Global,
    dots: Placed,
}

// Where dots lie. The empty tree has no block.
#[derive(Drop)]
enum Placed {
    One(Dot),
    Many(BTreeSet<Dot>),
}

impl Drop for DotSet {
    fn drop(self) {
        let DotSet {
            alloc: _alloc,
            dots: _dots,
        } = self;
    }
}

impl Model for DotSet {
    ghost use Rattle.std.specs.FinSet as set;
    ghost use Rattle.causal_context.specs.Dots.{Dots, coded_dot};

    ghost Value = { Dots };

    ghost coded = { set.code coded_dot };

    ghost use Rattle.subscription_set.specs.Placing.{dots_placed};

    ghost view = { λ d. set.from_list (dots_placed d.dots) };
}

// Whether the dots are the same.
fn is_same(a: Dot, b: Dot) -> bool
    ensures { result ≡ eq_by_cmp dot_cmp a b }
{
    a.cmp(&b) == Ordering::Equal
}

// Both dots.
fn both(alloc: Global, first: Dot, second: Dot) -> Result<BTreeSet<Dot>, NoMemory>
    ensures { IfOk result (λ dots. set.from_list {R = dot_cmp} dots.keys
        ≡ set.insert (set.from_list (first ∷ [])) second) }
{
    let mut dots = BTreeSet::new(alloc);
    dots.insert(first)?;
    dots.insert(second)?;
    Ok(dots)
}

// The dot of a tree that has one.
fn single(dots: &BTreeSet<Dot>) -> Option<Dot>
    ensures { IfSome result (λ dot. dots.now.keys ≡ dot ∷ []) }
{
    if dots.len() != 1 {
        return None;
    }
    dots.first().copied()
}

impl DotSet {
    /// The empty set.
    pub fn new(alloc: Global) -> DotSet
        ensures { result ≡ set.empty }
    {
        DotSet {
            alloc,
            dots: Placed::Many(BTreeSet::new(alloc)),
        }
    }

    /// The set of one dot. It takes no memory.
    pub fn one(alloc: Global, dot: Dot) -> DotSet
        ensures { result ≡ set.insert set.empty dot }
    {
        DotSet {
            alloc,
            dots: Placed::One(dot),
        }
    }

    /// Puts the dot in. The first one takes no memory, nor does one that is there.
    pub fn insert(&mut self, dot: Dot) -> Result<(), NoMemory>
        ensures ok { OnOk result (self.new ≡ set.insert self.old dot) }
        ensures err { OnErr result (self.new ≡ self.old) }
        ensures first { self.old ≡ set.empty → IsOk result }
        ensures there { set.contains self.old dot ≡ true → IsOk result }
    {
        match &mut self.dots {
            Placed::One(first) => {
                if is_same(*first, dot) {
                    return Ok(());
                }
                self.dots = Placed::Many(both(self.alloc, *first, dot)?);
            }
            Placed::Many(dots) => {
                if dots.is_empty() {
                    self.dots = Placed::One(dot);
                } else {
                    dots.insert(dot)?;
                }
            }
        }
        Ok(())
    }

    /// Takes the dot out.
    pub fn remove(&mut self, dot: Dot)
        ensures { self.new ≡ set.remove self.old dot }
    {
        match &mut self.dots {
            Placed::One(first) => {
                if is_same(*first, dot) {
                    self.dots = Placed::Many(BTreeSet::new(self.alloc));
                }
            }
            Placed::Many(dots) => {
                dots.remove(&dot);
                if let Some(left) = single(dots) {
                    self.dots = Placed::One(left);
                }
            }
        }
    }

    /// Whether the set has no dot.
    pub fn is_empty(&self) -> bool
        ensures { IsEmptiness self.now result }
    {
        match &self.dots {
            Placed::One(_) => false,
            Placed::Many(dots) => dots.is_empty(),
        }
    }

    /// The dots, rising.
    pub fn iter(&self) -> Iter<'_>
        ensures same { set.from_list result ≡ self.now }
        ensures rises { IsStrictlySortedBy dot_cmp result }
    {
        match &self.dots {
            Placed::One(dot) => Iter::single(dot),
            Placed::Many(dots) => Iter::tree(dots.iter()),
        }
    }

    /// The set as a context. Of no dots it takes no memory.
    pub fn context(&self, alloc: Global) -> Result<Context, NoMemory>
        ensures dots { IfOk result (λ dots. dots ≡ self.now) }
        ensures none { self.now ≡ set.empty → IsOk result }
    {
        let mut context = Context::new(alloc);
        for dot in self.iter() {
            context.insert(*dot)?;
        }
        Ok(context)
    }
}
