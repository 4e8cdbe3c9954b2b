//! The rules for clients of one user name, or for those without one.

ghost use Rattle.std.specs.Prelude.{◌≡◌, OnOk, Some, false};
ghost use Rattle.std.specs.List.{list_any};
ghost use Rattle.mqtt_topics.specs.Levels.{levels};
ghost use Rattle.mqtt_access.specs.Comparing.{covers, matches_topic, meets};
ghost use Rattle.mqtt_access.specs.Own.{IsAdded, own_forbids, own_gives};
ghost use Rattle.mqtt_access.specs.Rules.{Asked, asked_of};

use crate::compare::part_of;
use crate::probing::ProbedFilter;
use crate::rule::{Access, Request};
use mqtt_fields::NoMemory;
use mqtt_topics::Filter;
use std::alloc::Global;

/// Whether some of the filters matches a topic.
fn some_matches(filters: &[ProbedFilter], topic: &str) -> bool
    ensures { result ≡ list_any (λ f. matches_topic (levels f) topic.now) filters.now }
{
    filters.iter().any(|filter| filter.matches(topic))
}

/// Whether some of the filters matches each topic that this one matches, which isn't shared.
fn some_covers(filters: &[ProbedFilter], asked: &str) -> bool
    ensures { result ≡ list_any (λ f. covers (levels f) (levels asked.now)) filters.now }
{
    filters.iter().any(|filter| filter.covers(asked))
}

/// Whether some of the filters matches a topic that this one matches, which isn't shared.
fn some_meets(filters: &[ProbedFilter], asked: &str) -> bool
    ensures { result ≡ list_any (λ f. meets (levels f) (levels asked.now)) filters.now }
{
    filters.iter().any(|filter| filter.meets(asked))
}

/// The filters of rules for the same clients, which have no places for names, by what they give. So neither the kind of a rule nor its user is looked at
/// for a message.
#[derive(Debug, Drop)]
pub(crate) struct OwnRules {
    writing: Vec<ProbedFilter>,
    reading: Vec<ProbedFilter>,
    denying: Vec<ProbedFilter>,
}

impl OwnRules {
    /// No rules.
    pub(crate) fn new(alloc: Global) -> OwnRules
        ensures gives { (asked : Asked) → own_gives result asked ≡ false }
        ensures forbids { (asked : Asked) → own_forbids result asked ≡ false }
    {
        OwnRules {
            writing: Vec::new(alloc),
            reading: Vec::new(alloc),
            denying: Vec::new(alloc),
        }
    }

    /// Adds a rule.
    #[tactic(auto, using(crate::proofs::Owning::put_reading, crate::proofs::Owning::put_writing, crate::proofs::Owning::put_both, crate::proofs::Owning::put_denying))]
    pub(crate) fn add(
        &mut self,
        alloc: Global,
        access: Access,
        filter: Filter,
    ) -> Result<(), NoMemory>
        ensures { OnOk result (IsAdded access filter (Some self.old) (Some self.new)) }
    {
        match access {
            Access::Read => self.reading.push(ProbedFilter::new(filter))?,
            Access::Write => self.writing.push(ProbedFilter::new(filter))?,
            Access::ReadWrite => {
                let copy = filter.copy(alloc)?;
                self.writing.push(ProbedFilter::new(copy))?;
                self.reading.push(ProbedFilter::new(filter))?;
            }
            Access::Deny => self.denying.push(ProbedFilter::new(filter))?,
        }
        Ok(())
    }

    /// Whether some rule gives what is asked for.
    pub(crate) fn gives(&self, request: Request) -> bool
        ensures { result ≡ own_gives self.now (asked_of request.entry) }
    {
        match request {
            Request::Write(topic) => some_matches(&self.writing, topic),
            Request::Read(topic) => some_matches(&self.reading, topic),
            Request::Subscribe(filter) => some_covers(&self.reading, part_of(filter)),
        }
    }

    /// Whether some rule forbids some of what is asked for.
    pub(crate) fn forbids(&self, request: Request) -> bool
        ensures { result ≡ own_forbids self.now (asked_of request.entry) }
    {
        match request {
            Request::Write(topic) => some_matches(&self.denying, topic),
            Request::Read(topic) => some_matches(&self.denying, topic),
            Request::Subscribe(filter) => some_meets(&self.denying, part_of(filter)),
        }
    }
}
