//! What goes over entries under their dots: one entry where it lies, or those of a tree.
ghost use Rattle.std.specs.Prelude.{◌≡◌, [], ◌∷◌, length};
ghost use Rattle.std.specs.Iterator.{at_most};
ghost use Rattle.std.specs.Map.Iter.{TakesFirst, deref_pair};

use crate::entry::Entry;
use causal_context::Dot;
use std::collections::btree_map::{Iter, Range};
use std::marker::Model;

// One entry or none, or what an iterator over a tree has left.
#[derive(Drop)]
enum Left<'a> {
    One(Option<(&'a Dot, &'a Entry)>),
    Tree(Iter<'a, Dot, Entry>),
}

/// The entries, rising by their dots.
pub struct EntryIter<'a> {
    left: Left<'a>,
}

impl Drop for EntryIter<'_> {
    fn drop(self) {
        let EntryIter { left: _left } = self;
    }
}

impl<'a> Model for EntryIter<'a> {
    ghost use Rattle.subscription_set.specs.Standing.{Entries};
    ghost use Rattle.subscription_set.specs.Leftovers.{entries_left};

    ghost Value = { Entries };

    ghost view = { λ i. entries_left i.left };
}

impl<'a> EntryIter<'a> {
    pub(crate) fn none() -> EntryIter<'a>
        ensures { result ≡ [] }
    {
        EntryIter {
            left: Left::One(None),
        }
    }

    pub(crate) fn one(dot: &'a Dot, entry: &'a Entry) -> EntryIter<'a>
        ensures { result ≡ (dot.now, entry.now) ∷ [] }
    {
        EntryIter {
            left: Left::One(Some((dot, entry))),
        }
    }

    pub(crate) fn tree(entries: Iter<'a, Dot, Entry>) -> EntryIter<'a>
        ensures { result ≡ entries.entry }
    {
        EntryIter {
            left: Left::Tree(entries),
        }
    }
}

impl<'a> Iterator for EntryIter<'a> {
    type Item = (&'a Dot, &'a Entry);

    ghost next_gives = { TakesFirst deref_pair };

    ghost remaining = { λ s. at_most (length s) };

    fn next(&mut self) -> Option<(&'a Dot, &'a Entry)> {
        match &mut self.left {
            Left::One(pair) => pair.take(),
            Left::Tree(entries) => entries.next(),
        }
    }

    fn size_hint(&self) -> (usize, Option<usize>) {
        let len = self.len();
        (len, Some(len))
    }
}

impl ExactSizeIterator for EntryIter<'_> {
    fn len(&self) -> usize {
        match &self.left {
            Left::One(None) => 0,
            Left::One(Some(_)) => 1,
            Left::Tree(entries) => entries.len(),
        }
    }
}

// One entry or none, or what is left of a part of a tree.
#[derive(Drop)]
enum PartLeft<'a> {
    One(Option<(&'a Dot, &'a Entry)>),
    Tree(Range<'a, Dot, Entry>),
}

/// The entries of a range of dots, rising.
pub struct RangeIter<'a> {
    left: PartLeft<'a>,
}

impl Drop for RangeIter<'_> {
    fn drop(self) {
        let RangeIter { left: _left } = self;
    }
}

impl<'a> Model for RangeIter<'a> {
    ghost use Rattle.subscription_set.specs.Standing.{Entries};
    ghost use Rattle.subscription_set.specs.Leftovers.{part_left};

    ghost Value = { Entries };

    ghost view = { λ i. part_left i.left };
}

impl<'a> RangeIter<'a> {
    pub fn none() -> RangeIter<'a>
        ensures { result ≡ [] }
    {
        RangeIter {
            left: PartLeft::One(None),
        }
    }

    pub fn one(dot: &'a Dot, entry: &'a Entry) -> RangeIter<'a>
        ensures { result ≡ (dot.now, entry.now) ∷ [] }
    {
        RangeIter {
            left: PartLeft::One(Some((dot, entry))),
        }
    }

    pub fn tree(entries: Range<'a, Dot, Entry>) -> RangeIter<'a>
        ensures { result ≡ entries.entry }
    {
        RangeIter {
            left: PartLeft::Tree(entries),
        }
    }
}

impl<'a> Iterator for RangeIter<'a> {
    type Item = (&'a Dot, &'a Entry);

    ghost next_gives = { TakesFirst deref_pair };

    ghost remaining = { λ s. at_most (length s) };

    fn next(&mut self) -> Option<(&'a Dot, &'a Entry)> {
        match &mut self.left {
            PartLeft::One(pair) => pair.take(),
            PartLeft::Tree(entries) => entries.next(),
        }
    }
}
