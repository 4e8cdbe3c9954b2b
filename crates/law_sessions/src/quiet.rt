//! What isn't sent.
ghost use Rattle.law_sessions.specs.Silence.{KeepsNothingElse, KeepsSilence};
ghost use Rattle.law_sessions.specs.Sizes.{KeepsSizes};

/// After a close nothing is sent until the next connection begins.
pub fn closed_sessions_are_silent()
    ensures { KeepsSilence }
{}

/// No packet is longer than its client takes (MQTT 5.0, 3.1.2.11.4).
pub fn packets_are_short()
    ensures { KeepsSizes }
{}

/// Nothing else is sent: a delivery that is queued and room bring PUBLISHes alone; a close, what is due, the end of a session and a
/// crash bring no packet. What comes with a connection, a packet and codes is said by the laws on them.
pub fn nothing_else_is_sent()
    ensures { KeepsNothingElse }
{}
