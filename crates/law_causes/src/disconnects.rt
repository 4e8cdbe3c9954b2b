//! That a DISCONNECT is the last packet of its connection.
ghost use Rattle.law_causes.specs.Disconnects.{DisconnectsAreLast, DisconnectsOfRunsAreLast};

/// Where a step gives out a DISCONNECT on a connection, the close of that connection goes out directly after it, in the same step, and nothing goes out
/// on it later. So it is in every step of a node whose sessions are on their own connections and whose connections are those of their sessions, as they are
/// in every run (MQTT 5.0, 3.14.4).
pub fn disconnects_are_last()
    ensures step { DisconnectsAreLast }
    ensures run { DisconnectsOfRunsAreLast }
{}
