//! PUBLISHes that are sent again (MQTT 5.0, 4.4).
ghost use Rattle.law_deliveries.specs.Again.{KeepsResendsOnce};
ghost use Rattle.law_deliveries.specs.Unanswered.{KeepsOpen, KeepsOwed};

/// A connection sends under an identifier at most one PUBLISH again.
pub fn resends_come_once()
    ensures { KeepsResendsOnce }
{}

/// What was sent first goes on, in order, until its own answer comes, PUBACK at QoS 1 and PUBREC at QoS 2, or it is too long when
/// it is to be sent again; and a connection has to send again just what went on when it began.
pub fn answers_end_their_own()
    ensures going { KeepsOpen }
    ensures owed { KeepsOwed }
{}
