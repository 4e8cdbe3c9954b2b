//! Answers to a client's packets.
ghost use Rattle.law_sessions.specs.Replies.{KeepsCodes, KeepsReplies, KeepsUnheard};

/// Each packet of a connected client has exactly its answer of one table, where its aliases stand for the topics that the packets
/// of its connection told, and where PUBACK, PUBREC or PUBCOMP has none the queue may go on. Without a connection a packet has no
/// answer, and changes nothing.
pub fn packets_are_answered()
    ensures connected { KeepsReplies }
    ensures unheard { KeepsUnheard }
{}

/// The codes that a SUBSCRIBE or UNSUBSCRIBE asked for last are answered by SUBACK or UNSUBACK (MQTT 5.0, 3.9 and 3.11).
pub fn codes_are_answered()
    ensures { KeepsCodes }
{}
