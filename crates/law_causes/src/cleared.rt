//! Retained messages that were taken away.
ghost use Rattle.law_causes.specs.Cleared.{ClearedStays};

/// Once a node has taken a Put of nothing for a topic, no message stands there, by what the node holds and by its rows, that was put under a
/// lesser stamp: in every later world, whether the node runs or is down, and in whatever order Puts come to it.
pub fn cleared_topics_stay()
    ensures { ClearedStays }
{}
