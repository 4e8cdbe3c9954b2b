//! The dots of a set, one after the other.
ghost use Rattle.std.specs.Prelude.{◌≡◌, [], ◌∷◌, length};
ghost use Rattle.std.specs.Iterator.{at_most};
ghost use Rattle.std.specs.Map.Iter.{TakesFirst, deref};

use causal_context::Dot;
use std::collections::btree_set;
use std::marker::Model;

/// The dots of a set that are left.
#[derive(Drop)]
pub struct Iter<'a> {
    left: Left<'a>,
}

#[derive(Drop)]
enum Left<'a> {
    Single(Option<&'a Dot>),
    Tree(btree_set::Iter<'a, Dot>),
}

impl<'a> Model for Iter<'a> {
    ghost use Rattle.std.specs.Prelude.{List};
    ghost use Rattle.causal_context.specs.Dots.{Dot as DotValue};

    ghost Value = { List DotValue };

    ghost use Rattle.subscription_set.specs.Placing.{dots_left};

    ghost view = { λ i. dots_left i.left };
}

impl<'a> Iter<'a> {
    /// One dot.
    pub fn single(dot: &'a Dot) -> Iter<'a>
        ensures { result ≡ dot.now ∷ [] }
    {
        Iter {
            left: Left::Single(Some(dot)),
        }
    }

    /// The dots of a tree.
    pub fn tree(dots: btree_set::Iter<'a, Dot>) -> Iter<'a>
        ensures { result ≡ dots.entry }
    {
        Iter {
            left: Left::Tree(dots),
        }
    }
}

impl<'a> Iterator for Iter<'a> {
    type Item = &'a Dot;

    ghost next_gives = { TakesFirst deref };

    ghost remaining = { λ s. at_most (length s) };

    fn next(&mut self) -> Option<&'a Dot> {
        match &mut self.left {
            Left::Single(dot) => dot.take(),
            Left::Tree(dots) => dots.next(),
        }
    }
}
