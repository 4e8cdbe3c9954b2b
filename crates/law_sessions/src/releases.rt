//! PUBRELs (MQTT 5.0, 4.3.3 and 4.4).
ghost use Rattle.law_sessions.specs.Exchanges.{KeepsReleases};
ghost use Rattle.law_sessions.specs.Releases.{KeepsReleased, KeepsReleasesFirst};

/// A PUBREL with Success is sent only for an exchange whose PUBREC below 0x80 came.
pub fn release_follows_receipt()
    ensures { KeepsReleases }
{}

/// A connection begins with CONNACK, then one PUBREL for each exchange that was released before, then PUBLISHes. An
/// exchange is released from its first PUBREC below 0x80 to its PUBCOMP, over all connections, and the PUBRELs are in the
/// order of these PUBRECs.
pub fn releases_come_first()
    ensures first { KeepsReleasesFirst }
    ensures released { KeepsReleased }
{}
