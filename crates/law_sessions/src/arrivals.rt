//! Messages of the client that come once (MQTT 5.0, 4.3.3).
ghost use Rattle.law_sessions.specs.Arrivals.{KeepsOnce};

/// From the PUBLISH that opens an incoming QoS 2 exchange to its PUBREL, over all connections, its message is passed on
/// once, where it is opened.
pub fn messages_are_passed_on_once()
    ensures { KeepsOnce }
{}
