//! Who has a session at a node.
ghost use Rattle.law_steps.specs.Sessions.{SessionsAreAtHome, SessionsBeginAtHome, SessionsLastAtHome, SessionsStayAtHome};

/// In every run no node that has started has a session of a client whose home is elsewhere by the table that the node holds, whatever tables
/// it has taken, and a node that is down held none last; nor has one that hasn't started, unless it was once opened with another table than
/// it had. A session begins only for a client whose home is its node. So it is in every step: where a node has no such session it has none
/// afterwards, and one that was opened with another table than before has none once it has started (MQTT 5.0, 3.1.2.11.2 and 4.11).
pub fn sessions_are_at_home()
    ensures step { SessionsAreAtHome }
    ensures run { SessionsStayAtHome }
    ensures last { SessionsLastAtHome }
    ensures begins { SessionsBeginAtHome }
{}
