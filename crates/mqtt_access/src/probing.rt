//! Filters with a byte by which most topics that they don't match are known.

ghost use Rattle.std.specs.Prelude.{◌≡◌, get_or, true};
ghost use Rattle.mqtt_topics.specs.Levels.{is_separator, levels};
ghost use Rattle.mqtt_access.specs.Comparing.{covers, matches_topic, meets};
ghost use Rattle.mqtt_access.specs.Probing.{is_probe_if, lacks, later_probe};

use crate::compare::is_wildcard;
use crate::filled::RuleFilter;
use mqtt_topics::Filter;
use std::marker::Model;

/// A byte that stands at a place of each topic that a filter matches.
#[derive(Clone, Copy, Debug)]
struct Probe {
    at: usize,
    byte: u8,
}

fn is_separator(byte: u8) -> bool
    ensures { result ≡ is_separator byte }
{
    byte == b'/'
}

/// What is known by, where this byte of a filter stands before its first wildcard.
fn later_probe(probe: Option<Probe>, at: usize, byte: u8) -> Option<Probe>
    ensures { result ≡ later_probe probe at byte }
{
    if is_separator(byte) {
        probe
    } else {
        Some(Probe { at, byte })
    }
}

/// The last byte before the first wildcard of a filter that is no separator, if there is one.
#[tactic(auto, using(crate::proofs::Probes::still_plain, crate::proofs::Probes::found))]
fn probe_of(filter: &str) -> Option<Probe>
    ensures { is_probe_if filter.now result ≡ true }
{
    let mut probe = None;
    for (at, byte) in filter.as_bytes().iter().enumerate() {
        if is_wildcard(*byte) {
            return probe;
        }
        probe = later_probe(probe, at, *byte);
    }
    probe
}

/// The byte at a place; 0 past the end.
fn byte_at(bytes: &[u8], at: usize) -> u8
    ensures { result ≡ get_or bytes.now at 0 }
{
    if at < bytes.len() { bytes[at] } else { 0 }
}

/// Whether a topic has another byte at the place.
fn lacks(topic: &str, probe: Option<Probe>) -> bool
    ensures { result ≡ lacks topic.now probe }
{
    match probe {
        None => false,
        Some(probe) => byte_at(topic.as_bytes(), probe.at) != probe.byte,
    }
}

/// A filter without places for names. Most topics that it doesn't match lack a byte that stands beside it, and its own bytes aren't looked at then.
#[derive(Debug, Drop)]
pub(crate) struct ProbedFilter {
    probe: Option<Probe>,
    filter: Filter,
}

impl Model for ProbedFilter {
    ghost use Rattle.std.specs.Prelude.{◌≡◌, ℕ, List, true};
    ghost use Rattle.mqtt_access.specs.Probing.{is_probe_if};

    ghost Value = { List ℕ };

    ghost view = { λ f. f.filter };

    ghost invariant = { λ f. is_probe_if f.filter f.probe ≡ true };
}

impl ProbedFilter {
    pub(crate) fn new(filter: Filter) -> ProbedFilter
        ensures { result ≡ filter }
    {
        ProbedFilter {
            probe: probe_of(filter.as_str()),
            filter,
        }
    }

    /// Whether it matches a topic.
    #[tactic(auto, using(crate::proofs::Probes::missed))]
    pub(crate) fn matches(&self, topic: &str) -> bool
        ensures { result ≡ matches_topic (levels self.now) topic.now }
    {
        if lacks(topic, self.probe) {
            return false;
        }
        RuleFilter::plain(&self.filter).matches(topic)
    }

    /// Whether it matches each topic that this filter matches, which isn't shared.
    pub(crate) fn covers(&self, asked: &str) -> bool
        ensures { result ≡ covers (levels self.now) (levels asked.now) }
    {
        RuleFilter::plain(&self.filter).covers(asked)
    }

    /// Whether it matches some topic that this filter matches, which isn't shared.
    pub(crate) fn meets(&self, asked: &str) -> bool
        ensures { result ≡ meets (levels self.now) (levels asked.now) }
    {
        RuleFilter::plain(&self.filter).meets(asked)
    }
}
