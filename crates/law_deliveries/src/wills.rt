//! Wills, and the ends of sessions (MQTT 5.0, 3.1.2.5, 3.1.2.11.2, 3.1.3.2.2 and 3.14).
ghost use Rattle.law_deliveries.specs.Overs.{KeepsOvers};
ghost use Rattle.law_deliveries.specs.Wills.{KeepsDue, KeepsWills};

/// A will is published at most once, not before its moment, and not after it was withdrawn or another CONNECT came; nothing else
/// that is due is passed on.
pub fn wills_are_published_once()
    ensures { KeepsWills }
{}

/// A session ends at its time alone, with no will left, or where the server ends it.
pub fn sessions_end_at_their_time()
    ensures { KeepsOvers }
{}

/// What is due comes by the next tick: the will, and then the end of the session.
pub fn what_is_due_comes()
    ensures { KeepsDue }
{}
