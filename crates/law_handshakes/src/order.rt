//! The order of messages (MQTT 5.0, 4.6).
ghost use Rattle.law_handshakes.specs.Order.{KeepsOrder};

/// What is sent first, followed by what waits, is what was offered, in order and unchanged, without what was left out:
/// offered to a full queue, taken with a passed deadline, or taken when too large.
pub fn first_sends_are_in_order()
    ensures { KeepsOrder }
{}
