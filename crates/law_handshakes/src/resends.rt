//! PUBLISHes that are sent again (MQTT 5.0, 4.4).
ghost use Rattle.law_handshakes.specs.Resends.{KeepsResendsFirst, KeepsResendsInOrder, KeepsResendsOpen};

/// What a connection sends again is what was sent before it began, in order and once, without what was answered since
/// or was too large.
pub fn resends_are_in_order()
    ensures { KeepsResendsInOrder }
{}

/// No resend comes after a first send of its connection.
pub fn resends_come_first()
    ensures { KeepsResendsFirst }
{}

/// A resend has the delivery that was sent first under its identifier, and neither PUBACK nor PUBREC came since.
pub fn resends_are_unanswered()
    ensures { KeepsResendsOpen }
{}
