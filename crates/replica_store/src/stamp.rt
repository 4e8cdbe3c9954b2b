//! The times of retained messages.
ghost use Rattle.std.specs.Prelude.{◌≡◌, ◌^◌, ◌≤◌, ◌<◌};
ghost use Rattle.replica_store.specs.Stamps.{stamp_cmp, stamp_of};

use mqtt_fields::NUMBERS_END;
use std::cmp::Ordering;
use std::marker::Model;

/// The time of a retained message: a count, from 1 to 2^62 - 1, and the node that gave it.
#[derive(Clone, Copy, Debug)]
pub struct Stamp {
    count: u64,
    node: u16,
}

impl Model for Stamp {
    ghost use Rattle.std.specs.Prelude.{◌<◌, ◌≤◌, ◌^◌};
    ghost use Rattle.replica_store.specs.Stamps.{Stamp as StampValue, coded_stamp};

    ghost Value = { StampValue };

    ghost coded = { coded_stamp };

    ghost view = { λ s. record { count = s.count; node = s.node } };

    ghost invariant = { λ s. (1 ≤ s.count) × (s.count < 2 ^ 62) };

    ghost inverse = { λ v. record { count = v.count; node = v.node } };
}

impl Stamp {
    /// The stamp of the count and the node, or `None` where the count is 0 or at least 2^62.
    pub fn new(count: u64, node: u16) -> Option<Stamp>
        ensures { result ≡ stamp_of count node }
    {
        if count < 1 || count >= NUMBERS_END {
            return None;
        }
        Some(Stamp { count, node })
    }

    /// The count.
    pub fn count(self) -> u64
        ensures same { result ≡ self.count }
        ensures from { 1 ≤ result }
        ensures below { result < 2 ^ 62 }
    {
        self.count
    }

    /// The node that gave it.
    pub fn node(self) -> u16
        ensures { result ≡ self.node }
    {
        self.node
    }

    /// By the count, and then by the node.
    pub(crate) fn compare(self, other: Stamp) -> Ordering
        ensures { result ≡ stamp_cmp self other }
    {
        self.count
            .cmp(&other.count)
            .then(self.node.cmp(&other.node))
    }
}
