//! Each event comes to something.
ghost use Rattle.law_deliveries.specs.Outcomes.{KeepsOutcome};

/// An event that may come has an outcome, or it needs a number that is at its end.
pub fn each_event_has_an_outcome()
    ensures { KeepsOutcome }
{}
