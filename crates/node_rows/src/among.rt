//! Which nodes a state names.
ghost use Rattle.std.specs.Prelude.{◌≡◌, ◌<◌, ◌↔◌, IsTrue};
ghost use Rattle.std.specs.FinMap as map;
ghost use Rattle.std.specs.List.{All, AllByRecursion};
ghost use Rattle.node_rows.specs.Naming as spec;
ghost use Rattle.node_rows.specs.Reading.{AreAmong, IsAmong};

use causal_context::{Context, Range};
use replica_store::{ReplicaStore, RetainedMap};

fn are_among(nodes: u16, ranges: &[Range]) -> bool
    ensures { IsTrue result ↔ All (λ r. r.node < nodes) ranges.now }
{
    ranges.iter().all(|range| range.node < nodes)
}

fn dots_among(nodes: u16, dots: &Context) -> bool
    ensures { IsTrue result ↔ AreAmong nodes dots.now }
{
    are_among(nodes, dots.ranges())
}

fn stamps_among(nodes: u16, retained: &RetainedMap) -> bool
    ensures { IsTrue result ↔ AllByRecursion (λ e. e.1.stamp.node < nodes) (map.entries retained.now) }
{
    for (_, kept) in retained.entries() {
        if kept.stamp.node() >= nodes {
            return false;
        }
    }
    true
}

/// Whether the state names none but nodes of a cluster of so many.
pub(crate) fn is_among(nodes: u16, store: &ReplicaStore) -> bool
    ensures { IsTrue result ↔ IsAmong nodes store.now }
{
    if !dots_among(nodes, store.taken()) {
        return false;
    }
    if !dots_among(nodes, store.subscriptions().seen()) {
        return false;
    }
    stamps_among(nodes, store.retained())
}

/// Whether the dots name none but nodes of a cluster of so many. It takes no memory.
pub fn are_dots_among(nodes: u16, dots: &Context) -> bool
    ensures { result ≡ spec.dots_among nodes dots.now }
{
    dots_among(nodes, dots)
}

/// Whether the state names none but nodes of a cluster of so many. It takes no memory.
pub fn is_state_among(nodes: u16, store: &ReplicaStore) -> bool
    ensures { result ≡ spec.state_among nodes store.now }
{
    is_among(nodes, store)
}
