//! What becomes of a message from another node.
ghost use Rattle.law_runs.specs.Handing.{HandedIsQueued};

/// The copies of a message that a node takes of a lane join their sessions directly after that, in the same step and before anything
/// else happens: each by one call of its client's session, in order, at the node's moment (MQTT 5.0, 3.3.4 and 4.8.2).
pub fn handed_is_queued()
    ensures { HandedIsQueued }
{}
