//! Answers to PUBLISH and PUBREL.
ghost use Rattle.law_deliveries.specs.Publishes.{KeepsPublishes, KeepsPubrels};

/// The PUBLISH of a connected client is answered as the packets before it say. It ends the connection for a topic alias that
/// is invalid, a topic that it lacks or may not have, or a Subscription Identifier; and at QoS 1 and 2 where 100 exchanges are
/// open that this connection opened, but for a repeat of one of these. At QoS 1 it is answered by Packet Identifier in use where an
/// exchange at QoS 2 is open under it. At QoS 2 a PUBLISH of an open exchange is received and not passed on. Any other is
/// answered by Quota exceeded where no room is left for a retained message, and is received and passed on else. At QoS 0 it
/// is passed on where there is room, and nothing is answered. What is passed on is its message, from its client, at that moment.
pub fn publishes_are_answered()
    ensures { KeepsPublishes }
{}

/// The PUBREL of a connected client is answered by PUBCOMP, with Success exactly where its exchange is open.
pub fn pubrels_are_answered()
    ensures { KeepsPubrels }
{}
