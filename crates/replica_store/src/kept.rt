//! What is kept of a topic.
ghost use Rattle.std.specs.Prelude.{◌≡◌, IfOk, IsOk, MatchOption, Some, None};
ghost use Rattle.std.specs.Option.{option_copied};
ghost use Rattle.std.specs.Ordering.{is_lt};
ghost use Rattle.mqtt_message.specs.declared.message.Message.{Message as MessageValue};
ghost use Rattle.replica_store.specs.Contents.{topic_in, message_in};
ghost use Rattle.replica_store.specs.Retained.{kept_cmp, HasAlive};

use crate::content::Content;
use crate::message::compare_contents;
use crate::stamp::Stamp;
use mqtt_fields::NoMemory;
use mqtt_message::SharedMessage;
use mqtt_topics::TopicName;
use std::alloc::Global;
use std::cmp::Ordering;

/// What is kept of a topic: the message of the greatest stamp, or a tombstone.
#[derive(Drop)]
pub struct Kept {
    pub stamp: Stamp,
    pub message: Option<SharedMessage>,
}

// The message once more, if there is one.
fn copy_of(message: &Option<SharedMessage>) -> Result<Option<SharedMessage>, NoMemory>
    ensures copy { IfOk result (λ copy. copy ≡ message.now) }
    ensures none { message.now ≡ None → IsOk result }
{
    match message {
        None => Ok(None),
        Some(message) => Ok(Some(message.copy()?)),
    }
}

/// The topic of a Put, and what it gives it. A tombstone takes no memory.
pub fn entry_of(
    alloc: Global,
    stamp: Stamp,
    content: Content,
) -> Result<(TopicName, Kept), NoMemory>
    ensures topic { IfOk result (λ entry. entry.0 ≡ topic_in content) }
    ensures kept { IfOk result (λ entry.
        entry.1 ≡ record { stamp = stamp; message = message_in content }) }
    ensures none { message_in content ≡ None → IsOk result }
{
    match content {
        Content::Set(message) => {
            let topic = message.message().topic.copy(alloc)?;
            Ok((
                topic,
                Kept {
                    stamp,
                    message: Some(message),
                },
            ))
        }
        Content::Cleared(topic) => Ok((
            topic,
            Kept {
                stamp,
                message: None,
            },
        )),
    }
}

impl Kept {
    /// Whether the other is greater: by the stamp, and for equal stamps by the content.
    pub fn is_below(&self, other: &Kept) -> bool
        ensures { result ≡ is_lt (kept_cmp self.now other.now) }
    {
        self.gives_way(other.stamp, other.message.as_ref())
    }

    /// The same of another that has this stamp and this message, or none.
    pub(crate) fn gives_way(&self, stamp: Stamp, message: Option<&SharedMessage>) -> bool
        ensures { result ≡ is_lt (kept_cmp self.now (record { stamp = stamp; message = option_copied message.entry })) }
    {
        let by_stamp = self.stamp.compare(stamp);
        by_stamp.then(compare_contents(self.message.as_ref(), message)) == Ordering::Less
    }

    /// The message, if there is one and it is alive.
    pub(crate) fn alive(&self, now: u64) -> Option<&SharedMessage>
        ensures { MatchOption result
            ((m : MessageValue) → HasAlive (Some self.now) now m → ⊥)
            (λ m. HasAlive (Some self.now) now m.now) }
    {
        match &self.message {
            None => None,
            Some(message) => {
                if message.message().alive(now) {
                    Some(message)
                } else {
                    None
                }
            }
        }
    }

    /// The same once more. Its message is shared. A tombstone takes no memory.
    pub(crate) fn copy(&self) -> Result<Kept, NoMemory>
        ensures copy { IfOk result (λ copy. copy ≡ self.now) }
        ensures none { self.now.message ≡ None → IsOk result }
    {
        let message = copy_of(&self.message)?;
        Ok(Kept {
            stamp: self.stamp,
            message,
        })
    }
}
