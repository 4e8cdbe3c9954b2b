//! The order of messages (MQTT 5.0, 4.6).
ghost use Rattle.law_sessions.specs.Order.{KeepsAtMostOnce, KeepsOrder};

/// What is sent first at QoS 1 and 2, followed by what waits, is what was queued, in order and unchanged, without what was
/// left out: queued while the queue was full, or taken from it when its deadline had passed or it was too long.
pub fn first_sends_are_in_order()
    ensures { KeepsOrder }
{}

/// A delivery at QoS 0 is sent by the call that queues it, where the client is connected and takes it, and by no other.
pub fn at_most_once_is_sent_at_once()
    ensures { KeepsAtMostOnce }
{}
