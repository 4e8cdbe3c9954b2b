//! PUBRELs (MQTT 5.0, 4.3.3 and 4.4).
ghost use Rattle.law_deliveries.specs.Released.{KeepsReleasesHeld, KeepsReleasesTold};

/// Where a PUBREL with Success is sent, the session holds its exchange as released after that event: it has not ended.
pub fn releases_are_of_exchanges()
    ensures { KeepsReleasesHeld }
{}

/// A connection that is accepted begins with one packet, then one PUBREL for each exchange that is released, then PUBLISHes. As the
/// packets tell it an exchange is released from the first PUBREC that a PUBREL with Success answers to its PUBCOMP, over all
/// connections, and the PUBRELs are in the order of these PUBRECs.
pub fn connections_begin_with_releases()
    ensures { KeepsReleasesTold }
{}
