//! Filters of shared subscriptions.
ghost use Rattle.std.specs.Prelude.{◌≡◌, IfOk, MatchOption};
ghost use Rattle.mqtt_fields.specs.Reading.{Gives};
ghost use Rattle.mqtt_topics.specs.Topics.{IsShared};
ghost use Rattle.bridge_frames.specs.Forwards.{shared_filter};

use mqtt_fields::{FieldFault, NoMemory};
use mqtt_topics::Filter;
use replica_bytes::filter_at;
use std::alloc::Global;
use std::marker::Model;

/// The whole filter of a shared subscription (MQTT 5.0, 4.8.2). Contracts see its text.
#[derive(Drop)]
pub struct SharedFilter {
    filter: Filter,
}

impl Model for SharedFilter {
    ghost use Rattle.std.specs.Prelude.{List, ℕ};
    ghost use Rattle.mqtt_topics.specs.Topics.{IsShared};

    ghost Value = { List ℕ };

    ghost view = { λ f. f.filter };

    ghost invariant = { λ f. IsShared f.filter };

    ghost inverse = { λ text. record { filter = text } };
}

impl SharedFilter {
    /// The filter, where it is that of a shared subscription.
    pub fn of(filter: Filter) -> Option<SharedFilter>
        ensures { MatchOption result (IsShared filter → ⊥) (λ f. (f ≡ filter) × IsShared filter) }
    {
        if filter.group().is_none() {
            return None;
        }
        Some(SharedFilter { filter })
    }

    /// The filter.
    pub fn as_filter(&self) -> &Filter
        ensures same { result.now ≡ self.now }
        ensures shared { IsShared self.now }
    {
        &self.filter
    }

    /// A shared filter at the front, and the bytes after it. A plain one is none.
    pub(crate) fn at(alloc: Global, bytes: &[u8]) -> Result<(SharedFilter, &[u8]), FieldFault>
        ensures { Gives (λ x. (x.0, x.1.now)) result (shared_filter.at bytes.now) }
    {
        let (filter, rest) = filter_at(alloc, bytes)?;
        match SharedFilter::of(filter) {
            Some(shared) => Ok((shared, rest)),
            None => Err(FieldFault::Malformed),
        }
    }

    /// An equal filter.
    pub fn copy(&self, alloc: Global) -> Result<SharedFilter, NoMemory>
        ensures { IfOk result (λ f. f ≡ self.now) }
    {
        let filter = self.filter.copy(alloc)?;
        Ok(SharedFilter { filter })
    }
}
