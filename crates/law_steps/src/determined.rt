//! What a node holds and the event determine its step.
ghost use Rattle.law_steps.specs.Determined.{NodesAreDetermined, StepsAreDetermined, StopsAreDetermined};

/// Two steps of a node that holds the same, at the same event, are one: the same acts, the same outputs, and the same left. A node that
/// takes an event so doesn't stop at a number. It speaks of each step of a node, whatever the node holds, and of nodes of one number in
/// any two worlds.
pub fn steps_are_determined()
    ensures steps { StepsAreDetermined }
    ensures stops { StopsAreDetermined }
    ensures nodes { NodesAreDetermined }
{}
