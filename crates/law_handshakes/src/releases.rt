//! PUBRELs (MQTT 5.0, 4.3.3 and 4.4).
ghost use Rattle.law_handshakes.specs.Releases.{KeepsReleases, KeepsReleasesFirst};

/// A PUBREL is owed only where a PUBREC below 0x80 came.
pub fn release_follows_receipt()
    ensures { KeepsReleases }
{}

/// The PUBRELs at the beginning of a connection are of all exchanges that were released before it, in the order of their
/// first PUBRECs.
pub fn releases_come_first()
    ensures { KeepsReleasesFirst }
{}
