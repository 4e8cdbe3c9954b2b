//! What becomes of a copy at QoS 1 or 2.
ghost use Rattle.law_causes.specs.Copies.{CopyStays, SessionsOfRowsAreRuns};

use law_deliveries::copies::copies_go_by_the_rules;

/// What the rows of a node say of a session, also of a node that is down, is what lasts of what its calls and losses make of a new one. So
/// a copy at QoS 1 or 2 that a call of a session queues waits there or is unfinished in every later world, unless the call said that the
/// queue is full, a later call left it out or ended it by the delivery rules, or the session is over or began anew (MQTT 5.0, 4.1, 4.3
/// and 4.6).
pub fn copies_stay()
    ensures rows { SessionsOfRowsAreRuns }
    ensures copy { CopyStays }
{
    copies_go_by_the_rules();
}
