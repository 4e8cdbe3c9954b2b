//! Why sessions are over.
ghost use Rattle.law_steps.specs.Finishing.{SessionsFinishForReasons, SessionsOfRunsFinishForReasons};
ghost use Rattle.law_steps.specs.Overs.{SessionsEndForReasons};

/// In every step, whatever the node holds: where the session of a client is over, a call of it before that, in the same step, says so. Its end had
/// come at the node's moment; or it ended at once, since a CONNECT of that client with Clean Start has come, or its home is at another node by the
/// table with which the node starts, or by the one that it is handed. Nothing else ends a session.
pub fn sessions_end_for_reasons()
    ensures { SessionsEndForReasons }
{}

/// In every step, and so in every step of a run: a session is told to end at once, with its will, only where a CONNECT of its client with Clean Start has
/// come, or where the client's home is elsewhere by the table with which the node starts, or by the one that it is handed. So no will is published in this
/// way at any other moment (MQTT 5.0, 3.1.2.4, 3.1.2.5 and 4.11).
pub fn sessions_finish_for_reasons()
    ensures step { SessionsFinishForReasons }
    ensures run { SessionsOfRunsFinishForReasons }
{}
