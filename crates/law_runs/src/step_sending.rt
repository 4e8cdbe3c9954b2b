//! What goes out to clients.
ghost use Rattle.law_runs.specs.StepSending.{SendsAreOfCalls};

/// Each packet that a step gives out is one of the reaction of a call of a session in that step, on the connection that its client
/// is on, or CONNACK or DISCONNECT: no other act answers a client (MQTT 5.0, 3.2 and 3.14).
pub fn sends_are_of_calls()
    ensures { SendsAreOfCalls }
{}
