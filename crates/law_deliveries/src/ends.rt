//! How connections end (MQTT 5.0, 3.14 and 4.13).
ghost use Rattle.law_deliveries.specs.Ends.{KeepsEndCodes, KeepsMute};

/// An event ends a connection with a Reason Code of its own, or not at all: a close, a queued delivery, the end of a session and a
/// crash never do.
pub fn ends_have_their_codes()
    ensures { KeepsEndCodes }
{}

/// Before the first connection, and from the end of each to the beginning of the next, nothing goes out, and no DISCONNECT.
pub fn nothing_goes_out_unconnected()
    ensures { KeepsMute }
{}
