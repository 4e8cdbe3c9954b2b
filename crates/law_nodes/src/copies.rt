//! What a node offers and passes on, amid its acts.
ghost use Rattle.law_nodes.specs.Amid.{AcknowledgedAreAnswers, PassedAreCopies};

/// A message is passed on as the copies for the subscriptions and the sessions that the node holds at that act (MQTT 5.0, 3.3.4
/// and 4.8.2).
pub fn passed_are_copies()
    ensures { PassedAreCopies }
{}

/// A SUBSCRIBE is offered the retained messages that the node holds at that act (3.3.1.3 and 3.8.4).
pub fn acknowledged_are_answers()
    ensures { AcknowledgedAreAnswers }
{}
