//! What is told to a client that subscribes or unsubscribes.
ghost use Rattle.law_runs.specs.StepAsking.{SubackTells, UnsubackTells};

/// Before SUBACK goes out, each filter that it grants has its Subscribe, in the same step, in the order of the filters, and a filter
/// that it refuses has none (MQTT 5.0, 3.8.4 and 3.9.3).
pub fn granted_is_subscribed()
    ensures { SubackTells }
{}

/// Before UNSUBACK goes out, each filter that it answers by Success has its Remove, in the same step; one that it answers by No
/// subscription existed had no subscription of the client (3.10.4 and 3.11.3).
pub fn answered_is_removed()
    ensures { UnsubackTells }
{}
