//! Messages that come once (MQTT 5.0, 4.3.3).
ghost use Rattle.law_handshakes.specs.Incoming.{KeepsMaximum, KeepsOnce};

/// From the PUBLISH that opens an incoming exchange to its PUBREL, over all connections, its message is new exactly once.
pub fn messages_come_once()
    ensures { KeepsOnce }
{}

/// At most 100 exchanges are open that this connection opened.
pub fn maximum_is_kept()
    ensures { KeepsMaximum }
{}
