//! What a node tells that it holds.
ghost use Rattle.law_runs.specs.Holdings.{HoldingsAreCounts};

/// The two numbers that `Cluster::holdings` tells of a running node are how many subscriptions are live, and how many topics keep a message,
/// by the operations that the node has taken.
pub fn holdings_are_counts()
    ensures { HoldingsAreCounts }
{}
