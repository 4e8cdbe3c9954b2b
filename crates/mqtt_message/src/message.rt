//! Application messages.

ghost use Rattle.std.specs.Prelude.{◌≡◌, ◌+◌, ◌<◌, ◌≤◌, ◌^◌, ◌↔◌, ◌++◌, length, take, drop, vec_len, vec_capacity, IsOk, IsErrOf, IfOk, OnOk, OnErr, IsTrue};
ghost use Rattle.mqtt_fields.specs.Reading.{Gives};
ghost use Rattle.mqtt_fields.specs.Numbers.{text};
ghost use Rattle.mqtt_message.specs.Parts.{tail};
ghost use Rattle.mqtt_message.specs.Expiry.{IsBefore, interval_left};

use crate::expiry::{deadline_after, interval_left};
use crate::field::{has_spelling, name_at, payload_at, put_deadline, put_flag, put_qos, tail_at};
use crate::payload::Payload;
use crate::properties::MessageProperties;
use mqtt_fields::identifier::MESSAGE_EXPIRY_INTERVAL;
use mqtt_fields::{FieldFault, NoMemory, Qos, Text, put_long};
use mqtt_packets::{Publish, Will};
use mqtt_topics::TopicName;
use std::alloc::Global;

/// A message that a server has accepted.
#[derive(Drop)]
pub struct Message {
    pub topic: TopicName,
    pub payload: Payload,
    pub properties: MessageProperties,
    pub qos: Qos,
    pub retain: bool,
    /// The Client Identifier of its publisher.
    pub publisher: Text,
    /// The moment when it expires.
    pub deadline: Option<u64>,
}

impl Message {
    ghost use Rattle.mqtt_message.specs.Spellings.{message, message_tail};
    ghost use Rattle.mqtt_message.specs.Accepted.{IsAcceptable, accepted, IsPublishable, accepted_will};
    ghost use Rattle.mqtt_message.specs.Messages.{is_alive};

    /// The message of a PUBLISH that was accepted from this publisher now, under this topic.
    fn of_publish(
        alloc: Global,
        publish: &Publish,
        topic: TopicName,
        publisher: &Text,
        now: u64,
    ) -> Result<Message, NoMemory>
        requires moment { now < 2 ^ 62 }
        requires acceptable { IsAcceptable (record publish.now { topic = topic }) }
        ensures { IfOk result (λ m. m ≡ accepted (record publish.now { topic = topic }) publisher.now now) }
    {
        Ok(Message {
            topic,
            payload: Payload::from_slice(alloc, publish.payload.as_slice())?,
            properties: MessageProperties::of_publish(alloc, &publish.properties)?,
            qos: publish.qos,
            retain: publish.retain,
            publisher: publisher.copy(alloc)?,
            deadline: deadline_after(now, publish.properties.four(MESSAGE_EXPIRY_INTERVAL)),
        })
    }

    /// The message of a PUBLISH that was accepted from this publisher now.
    pub fn accept(
        alloc: Global,
        publish: &Publish,
        publisher: &Text,
        now: u64,
    ) -> Result<Message, NoMemory>
        requires moment { now < 2 ^ 62 }
        requires acceptable { IsAcceptable publish.now }
        ensures { IfOk result (λ m. m ≡ accepted publish.now publisher.now now) }
    {
        let Ok(topic) = TopicName::of_text(alloc, &publish.topic) else {
            return Err(NoMemory);
        };
        Message::of_publish(alloc, publish, topic, publisher, now)
    }

    /// The message of a PUBLISH that was accepted from this publisher now, under this topic in place of its own, as under the one
    /// that its alias stands for (MQTT 5.0, 3.3.2.3.4).
    pub fn accept_under(
        alloc: Global,
        publish: &Publish,
        topic: &TopicName,
        publisher: &Text,
        now: u64,
    ) -> Result<Message, NoMemory>
        requires moment { now < 2 ^ 62 }
        requires acceptable { IsAcceptable (record publish.now { topic = topic.now }) }
        ensures { IfOk result (λ m. m ≡ accepted (record publish.now { topic = topic.now }) publisher.now now) }
    {
        let topic = topic.copy(alloc)?;
        Message::of_publish(alloc, publish, topic, publisher, now)
    }

    /// The message of a will that is published now for this client.
    pub fn accept_will(
        alloc: Global,
        will: &Will,
        publisher: &Text,
        now: u64,
    ) -> Result<Message, NoMemory>
        requires moment { now < 2 ^ 62 }
        requires publishable { IsPublishable will.now }
        ensures { IfOk result (λ m. m ≡ accepted_will will.now publisher.now now) }
    {
        let Ok(topic) = TopicName::of_text(alloc, &will.topic) else {
            return Err(NoMemory);
        };
        Ok(Message {
            topic,
            payload: Payload::from_slice(alloc, will.payload.as_bytes())?,
            properties: MessageProperties::of_will(alloc, &will.properties)?,
            qos: will.qos,
            retain: will.retain,
            publisher: publisher.copy(alloc)?,
            deadline: deadline_after(now, will.properties.four(MESSAGE_EXPIRY_INTERVAL)),
        })
    }

    /// Whether the message hasn't expired.
    pub fn alive(&self, now: u64) -> bool
        ensures before { IsTrue result ↔ IsBefore now self.now.deadline }
        ensures alive { result ≡ is_alive self.now now }
    {
        self.deadline.is_none_or(|deadline| now < deadline)
    }

    /// The Message Expiry Interval to send it with: 0 where it has expired, none without a deadline.
    pub fn remaining(&self, now: u64) -> Option<u32>
        ensures { result ≡ interval_left now self.now.deadline }
    {
        interval_left(now, self.deadline)
    }

    /// A message at the front, and the bytes after it.
    #[tactic(auto, unfolding(crate::specs::Spellings::message))]
    pub(crate) fn at(alloc: Global, bytes: &[u8]) -> Result<(Message, &[u8]), FieldFault>
        ensures exact { Gives (λ x. (x.0, x.1.now)) result (message.at bytes.now) }
        ensures no_memory { IsErrOf result FieldFault.NoMemory → IsOk (text.at bytes.now) }
    {
        let (topic, rest) = name_at(alloc, bytes)?;
        let (payload, rest) = payload_at(alloc, rest)?;
        let (properties, rest) = MessageProperties::at(alloc, rest)?;
        let (tail, rest) = tail_at(alloc, rest)?;
        let message = Message {
            topic,
            payload,
            properties,
            qos: tail.qos,
            retain: tail.retain,
            publisher: tail.publisher,
            deadline: tail.deadline,
        };
        Ok((message, rest))
    }

    /// The message at the front, and how many bytes it takes.
    ///
    /// Short where the bytes end inside it, Malformed where they spell none. Only where a
    /// string stands in front, as a topic does, is memory asked for.
    pub fn read(alloc: Global, bytes: &[u8]) -> Result<(Message, usize), FieldFault>
        ensures exact { Gives (λ x. (x.0, drop x.1 bytes.now)) result (message.at bytes.now) }
        ensures used { IfOk result (λ x. x.1 ≤ length bytes.now) }
        ensures no_memory { IsErrOf result FieldFault.NoMemory → IsOk (text.at bytes.now) }
    {
        let (message, rest) = Message::at(alloc, bytes)?;
        Ok((message, bytes.len() - rest.len()))
    }

    #[tactic(auto, unfolding(crate::specs::Parts::tail))]
    fn append_tail(&self, out: &mut Vec<u8>) -> Result<(), NoMemory>
        ensures ok { OnOk result (out.new.items ≡ out.old.items ++ tail.bytes (message_tail self.now)) }
        ensures begins { take (length out.old.items) out.new.items ≡ out.old.items }
        ensures full { OnErr result (vec_capacity out.old
            < vec_len out.old + length (tail.bytes (message_tail self.now))) }
        ensures capacity { vec_capacity out.old ≤ vec_capacity out.new }
    {
        put_qos(self.qos, out)?;
        put_flag(self.retain, out)?;
        self.publisher.write(out)?;
        put_deadline(self.deadline, out)
    }

    /// Appends the message, or its beginning where memory runs out.
    #[tactic(auto, unfolding(crate::specs::Spellings::message))]
    pub(crate) fn append(&self, out: &mut Vec<u8>) -> Result<(), NoMemory>
        ensures ok { OnOk result (out.new.items ≡ out.old.items ++ message.bytes self.now) }
        ensures begins { take (length out.old.items) out.new.items ≡ out.old.items }
        ensures full { OnErr result (vec_capacity out.old
            < vec_len out.old + length (message.bytes self.now)) }
        ensures capacity { vec_capacity out.old ≤ vec_capacity out.new }
    {
        self.topic.as_text().write(out)?;
        put_long(self.payload.as_slice(), out)?;
        self.properties.write(out)?;
        self.append_tail(out)
    }

    /// Appends the message's bytes.
    pub fn write(&self, out: &mut Vec<u8>) -> Result<(), NoMemory>
        ensures ok { OnOk result (out.new.items ≡ out.old.items ++ message.bytes self.now) }
        ensures err { OnErr result (out.new.items ≡ out.old.items) }
        ensures full { OnErr result (vec_capacity out.old
            < vec_len out.old + length (message.bytes self.now)) }
        ensures capacity { vec_capacity out.old ≤ vec_capacity out.new }
    {
        let len = out.len();
        match self.append(out) {
            Ok(()) => Ok(()),
            Err(fault) => {
                out.truncate(len);
                Err(fault)
            }
        }
    }

    /// Each message has a spelling, so what is written is read again. This does nothing; its contract is a law.
    pub fn has_spelling(&self)
        ensures { message.Fits self.now }
    {
        let _topic = self.topic.as_str();
        let _payload = self.payload.as_slice();
        let _properties = self.properties.as_slice();
        let _publisher = self.publisher.as_str();
        has_spelling(self.deadline);
    }

    /// A message equal to this one.
    pub fn copy(&self, alloc: Global) -> Result<Message, NoMemory>
        ensures { IfOk result (λ m. m ≡ self.now) }
    {
        Ok(Message {
            topic: self.topic.copy(alloc)?,
            payload: self.payload.copy(alloc)?,
            properties: self.properties.copy(alloc)?,
            qos: self.qos,
            retain: self.retain,
            publisher: self.publisher.copy(alloc)?,
            deadline: self.deadline,
        })
    }
}
