//! What an event is.
ghost use Rattle.law_sessions.specs.Outcomes.{EndsOrReacts, OneOutcome};
ghost use Rattle.law_sessions.specs.Runs.{CallsAreEvents};

/// Each call of a session that answers is an event; after one that has a fault there is no other.
pub fn calls_are_events()
    ensures { CallsAreEvents }
{}

/// Each event has one outcome: what a session holds and the event determine the reaction and what is left, and where a number
/// is at its end there is none.
pub fn one_outcome()
    ensures outcome { OneOutcome }
    ensures ends { EndsOrReacts }
{}
