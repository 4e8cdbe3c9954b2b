//! Topic aliases of the client (MQTT 5.0, 3.3.2.3.4).
ghost use Rattle.law_sessions.specs.Aliases.{KeepsTopics};

/// A message that is passed on is of the topic of its PUBLISH, and with an empty topic of the one that its alias was given last
/// on this connection.
pub fn aliases_stand_for_the_last_topic()
    ensures { KeepsTopics }
{}
