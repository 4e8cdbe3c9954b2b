//! Entries that are kept.
ghost use Rattle.law_handshakes.specs.Outbox.{KeptWhereTheyMakeASession};

/// A session is opened from what was kept of it, with the place of the next copy, exactly where these hold. The places rise from 1 and
/// are below the next, which is at most 2^62. Each QoS is 1 or 2, and what is released was sent at QoS 2. Where one waits, one waits at each
/// later place, and no more than 65,536 wait. The Packet Identifiers of exchanges are distinct and not 0, those in which it receives too;
/// orders of release are distinct, from 1, and below 2^62. None is of a connection.
pub fn entries_are_kept_where_they_make_a_session()
    ensures { KeptWhereTheyMakeASession }
{}
