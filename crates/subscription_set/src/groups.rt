//! Dots under texts.
ghost use Rattle.std.specs.Prelude.{◌≡◌, MatchOption, OnOk, OnErr, false};
ghost use Rattle.std.specs.FinSet as set;
ghost use Rattle.causal_context.specs.Dots.{Dot as DotValue, dot_cmp};
ghost use Rattle.subscription_set.specs.Filing.{IsEmptiness, IsGroup, IsKeyCount, text_cmp};

use crate::dots::DotSet;
use causal_context::Dot;
use mqtt_fields::{NoMemory, Text};
use std::alloc::Global;
use std::collections::BTreeMap;
use std::marker::Model;

/// Pairs of a text and a dot, found by the text.
#[derive(Drop)]
pub struct Groups {
    alloc: Global,
    by_text: BTreeMap<Text, DotSet>,
}

impl Model for Groups {
    ghost use Rattle.std.specs.FinSet as set;
    ghost use Rattle.std.specs.FinMap as map;
    ghost use Rattle.std.specs.Coded.{coded×, coded_list, coded_ℕ};
    ghost use Rattle.causal_context.specs.Dots.{coded_dot};
    ghost use Rattle.subscription_set.specs.Filing.{Filed, IsFilled, spread, text_cmp};

    ghost Value = { Filed };

    ghost coded = { set.code (coded× (coded_list coded_ℕ) coded_dot) };

    ghost view = { λ g. spread (map.from_entries {R = text_cmp} g.by_text.entries) };

    ghost invariant = { λ g. IsFilled (map.from_entries {R = text_cmp} g.by_text.entries) };
}

impl Groups {
    /// No pairs.
    pub fn new(alloc: Global) -> Groups
        ensures { result ≡ set.empty }
    {
        Groups {
            alloc,
            by_text: BTreeMap::new(alloc),
        }
    }

    /// Puts the pair in.
    pub fn add(&mut self, text: &Text, dot: Dot) -> Result<(), NoMemory>
        ensures ok { OnOk result (self.new ≡ set.insert self.old (text.now, dot)) }
        ensures err { OnErr result (self.new ≡ self.old) }
    {
        if let Some(dots) = self.by_text.get_mut(text) {
            return dots.insert(dot);
        }
        let mut dots = DotSet::new(self.alloc);
        dots.insert(dot)?;
        let own = text.copy(self.alloc)?;
        self.by_text.insert(own, dots)?;
        Ok(())
    }

    /// Takes the pair out.
    pub fn remove(&mut self, text: &Text, dot: Dot)
        ensures { self.new ≡ set.remove self.old (text.now, dot) }
    {
        if let Some(dots) = self.by_text.get_mut(text) {
            dots.remove(dot);
            if dots.is_empty() {
                self.by_text.remove(text);
            }
        }
    }

    /// The dots under the text, if there are any.
    pub fn under(&self, text: &Text) -> Option<&DotSet>
        ensures { MatchOption result ((q : DotValue) → set.contains self.now (text.now, q) ≡ false)
            (λ dots. IsGroup text_cmp dot_cmp self.now text.now dots.now) }
    {
        self.by_text.get(text)
    }

    /// Whether there are no pairs.
    pub fn is_empty(&self) -> bool
        ensures { IsEmptiness self.now result }
    {
        self.by_text.is_empty()
    }

    /// How many texts have dots.
    pub fn len(&self) -> usize
        ensures { IsKeyCount text_cmp dot_cmp self.now result }
    {
        self.by_text.len()
    }
}
