//! The name of a change.
ghost use Rattle.std.specs.Prelude.{◌≡◌, ◌^◌, ◌≤◌, ◌<◌};
ghost use Rattle.causal_context.specs.Dots.{dot_of};

use mqtt_fields::NUMBERS_END;
use std::marker::Model;

/// A node and the number of a change there, from 1 to 2^62 - 1.
#[derive(Debug, PartialEq, Eq, PartialOrd, Ord, Clone, Copy)]
pub struct Dot {
    node: u16,
    number: u64,
}

impl Model for Dot {
    ghost use Rattle.std.specs.Prelude.{◌<◌, ◌≤◌, ◌^◌};
    ghost use Rattle.causal_context.specs.Dots.{Dot as DotValue, coded_dot};

    ghost Value = { DotValue };

    ghost coded = { coded_dot };

    ghost view = { λ d. record { node = d.node; number = d.number } };

    ghost invariant = { λ d. (1 ≤ d.number) × (d.number < 2 ^ 62) };

    ghost inverse = { λ v. record { node = v.node; number = v.number } };
}

impl Dot {
    /// The dot of the node and the number, or `None` where the number is 0 or at least 2^62.
    pub fn new(node: u16, number: u64) -> Option<Dot>
        ensures { result ≡ dot_of node number }
    {
        if number < 1 || number >= NUMBERS_END {
            return None;
        }
        Some(Dot { node, number })
    }

    /// The node that made the change.
    pub fn node(self) -> u16
        ensures { result ≡ self.node }
    {
        self.node
    }

    /// The number of the change at its node.
    pub fn number(self) -> u64
        ensures same { result ≡ self.number }
        ensures from { 1 ≤ result }
        ensures below { result < 2 ^ 62 }
    {
        self.number
    }
}
