//! What a Put gives its topic.
ghost use Rattle.std.specs.Prelude.{◌≡◌, IfOk};
ghost use Rattle.std.specs.Option.{option_copied};

use mqtt_fields::NoMemory;
use mqtt_message::SharedMessage;
use mqtt_topics::TopicName;
use std::alloc::Global;

/// What a Put gives its topic (MQTT 5.0, 3.3.1.3).
#[derive(Drop)]
pub enum Content {
    /// This message, whose topic it is.
    Set(SharedMessage),
    /// No message any more: a tombstone of the topic.
    Cleared(TopicName),
}

impl Content {
    ghost use Rattle.replica_store.specs.Contents.{topic_in, message_in};

    /// The topic.
    pub fn topic(&self) -> &TopicName
        ensures { result.now ≡ topic_in self.now }
    {
        match self {
            Content::Set(message) => &message.message().topic,
            Content::Cleared(topic) => topic,
        }
    }

    /// The message, or none of a tombstone.
    pub fn message(&self) -> Option<&SharedMessage>
        ensures { option_copied result ≡ message_in self.now }
    {
        match self {
            Content::Set(message) => Some(message),
            Content::Cleared(_) => None,
        }
    }

    /// The same once more. A message is shared.
    pub fn copy(&self, alloc: Global) -> Result<Content, NoMemory>
        ensures { IfOk result (λ copy. copy ≡ self.now) }
    {
        match self {
            Content::Set(message) => {
                let message = message.copy()?;
                Ok(Content::Set(message))
            }
            Content::Cleared(topic) => {
                let topic = topic.copy(alloc)?;
                Ok(Content::Cleared(topic))
            }
        }
    }
}
