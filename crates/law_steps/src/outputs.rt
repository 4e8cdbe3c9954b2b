//! To which connections a node sends, and why it closes one.
ghost use Rattle.law_steps.specs.Outputs.{OutputsGoRight, OutputsOfRunsGoRight, SessionsStayOnTheirs};

/// Each packet that a node gives out goes to a connection that is open: that of a call of a session to the connection of its client,
/// CONNACK of the node's own to one that has no client yet, and DISCONNECT of the node's own to one that has. A connection is closed that was
/// open, for one of six causes, each with its code: of a fault of its bytes, with CONNECT or after it, the code of just that fault. Unless
/// the client or the network closed it, a close goes out directly after, and none goes out elsewhere. So it is in every step of a node whose
/// sessions are on their own connections, as they are in every run (MQTT 5.0, 3.1.4, 3.2, 3.14, 4.11 and 4.13).
pub fn outputs_go_right()
    ensures step { OutputsGoRight }
    ensures sessions { SessionsStayOnTheirs }
    ensures run { OutputsOfRunsGoRight }
{}
