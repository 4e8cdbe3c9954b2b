//! PUBLISHes that are sent again (MQTT 5.0, 4.4).
ghost use Rattle.law_sessions.specs.Exchanges.{KeepsResends};
ghost use Rattle.law_sessions.specs.Resends.{KeepsResendsContinued, KeepsResendsFirst, KeepsResendsInOrder};

/// What a connection sends again is what was sent before it began, in order and once, without what was answered since or
/// was too long.
pub fn resends_are_in_order()
    ensures { KeepsResendsInOrder }
{}

/// Nothing is sent again on a connection that doesn't continue the session.
pub fn resends_continue_a_session()
    ensures { KeepsResendsContinued }
{}

/// No resend comes after a first send of its connection.
pub fn resends_come_first()
    ensures { KeepsResendsFirst }
{}

/// A resend has the delivery that was sent first under its identifier, and neither its PUBACK nor its PUBREC came since.
pub fn resends_are_unanswered()
    ensures { KeepsResends }
{}
