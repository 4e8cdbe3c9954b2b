//! What goes out to clients.
ghost use Rattle.law_runs.specs.Sending.{OutputsAreOfCalls};

/// Each packet that a step gives out to a client is one of the reaction of a call of a session in that step, on the connection that
/// its client is on, or CONNACK or DISCONNECT: so the laws on calls tell of every PUBACK, PUBREC, SUBACK and UNSUBACK that goes out.
pub fn outputs_are_of_calls()
    ensures { OutputsAreOfCalls }
{}
