//! What is kept of a topic in bytes.
ghost use Rattle.std.specs.Prelude.{◌≡◌, ◌+◌, ◌<◌, ◌≤◌, ◌++◌, length, take, vec_len, vec_capacity, OnOk, OnErr, IfOk, IsOk, IsTrue, IsErrOf};
ghost use Rattle.mqtt_fields.specs.declared.fault.FieldFault.TheVariants.{Malformed as IsMalformed};
ghost use Rattle.mqtt_fields.specs.Field.{tested};
ghost use Rattle.mqtt_fields.specs.Reading.{Gives};
ghost use Rattle.mqtt_fields.specs.Numbers.{text};
ghost use Rattle.mqtt_message.specs.Spelling.{optional};
ghost use Rattle.mqtt_message.specs.Spellings as messages;
ghost use Rattle.std.specs.Str.{bytes_eq};
ghost use Rattle.replica_bytes.specs.Memory.{HasText, MessageBegins, KeptWants};
ghost use Rattle.replica_bytes.specs.Values as spec;

use mqtt_fields::{FieldFault, NoMemory, put_u16, put_u64, u16_at, u64_at};
use mqtt_message::{Message, SharedMessage, flag_at, name_at, put_flag};
use mqtt_topics::TopicName;
use replica_store::{Kept, Stamp};
use std::alloc::Global;

fn is_of(message: &Message, topic: &TopicName) -> bool
    ensures { result ≡ bytes_eq message.now.topic topic.now }
{
    message.topic.as_str().as_bytes() == topic.as_str().as_bytes()
}

// A message at the front, and the bytes after it.
fn message_at(alloc: Global, bytes: &[u8]) -> Result<(Message, &[u8]), FieldFault>
    ensures exact { Gives (λ x. (x.0, x.1.now)) result (messages.message.at bytes.now) }
    ensures no_memory { IsErrOf result FieldFault.NoMemory → HasText bytes.now }
{
    let (message, used) = Message::read(alloc, bytes)?;
    Ok((message, &bytes[used..]))
}

// A flag, and where it is 1 a message of the topic at the front, and the bytes after it.
fn content_at<'a>(
    alloc: Global,
    topic: &TopicName,
    bytes: &'a [u8],
) -> Result<(Option<SharedMessage>, &'a [u8]), FieldFault>
    ensures exact { Gives (λ x. (x.0, x.1.now)) result
        ((tested (spec.has_topic topic.now) IsMalformed (optional messages.message)).at bytes.now) }
    ensures own { IfOk result (λ x. IsTrue (spec.has_topic topic.now x.0)) }
    ensures no_memory { IsErrOf result FieldFault.NoMemory → MessageBegins bytes.now }
{
    let (present, rest) = flag_at(bytes)?;
    if !present {
        return Ok((None, rest));
    }
    let (message, rest) = message_at(alloc, rest)?;
    if !is_of(&message, topic) {
        return Err(FieldFault::Malformed);
    }
    let shared = SharedMessage::new(alloc, message)?;
    Ok((Some(shared), rest))
}

fn stamp_of(count: u64, node: u16) -> Result<Stamp, FieldFault>
    ensures exact { Gives (λ s. s) result (spec.stamp_in count node) }
    ensures no_memory { IsErrOf result FieldFault.NoMemory → ⊥ }
{
    match Stamp::new(count, node) {
        None => Err(FieldFault::Malformed),
        Some(stamp) => Ok(stamp),
    }
}

/// What is kept of the topic at the front, and the bytes after it.
///
/// Short where the bytes end inside it; Malformed where they spell none, no stamp has the count, or the
/// message is of another topic. Memory is wanted only once the topic of a message has been read: a
/// tombstone wants none.
#[tactic(auto, unfolding(crate::specs::Values::kept))]
pub fn kept_at<'a>(
    alloc: Global,
    topic: &TopicName,
    bytes: &'a [u8],
) -> Result<(Kept, &'a [u8]), FieldFault>
    ensures exact { Gives (λ x. (x.0, x.1.now)) result ((spec.kept topic.now).at bytes.now) }
    ensures own { IfOk result (λ x. spec.IsOwn (topic.now, x.0)) }
    ensures no_memory { IsErrOf result FieldFault.NoMemory → KeptWants bytes.now }
{
    let (count, rest) = u64_at(bytes)?;
    let (node, rest) = u16_at(rest)?;
    let stamp = stamp_of(count, node)?;
    let (message, rest) = content_at(alloc, topic, rest)?;
    Ok((Kept { stamp, message }, rest))
}

/// A topic and what is kept of it at the front, and the bytes after it.
pub(crate) fn topic_entry_at(
    alloc: Global,
    bytes: &[u8],
) -> Result<((TopicName, Kept), &[u8]), FieldFault>
    ensures exact { Gives (λ x. (x.0, x.1.now)) result (spec.topic_entry.at bytes.now) }
    ensures own { IfOk result (λ x. spec.IsOwn x.0) }
    ensures no_memory { IsErrOf result FieldFault.NoMemory → IsOk (text.at bytes.now) }
{
    let (topic, rest) = name_at(alloc, bytes)?;
    let (kept, rest) = kept_at(alloc, &topic, rest)?;
    Ok(((topic, kept), rest))
}

fn append_message(message: &Option<SharedMessage>, out: &mut Vec<u8>) -> Result<(), NoMemory>
    ensures ok { OnOk result (out.new.items ≡ out.old.items
        ++ (optional messages.message).bytes message.now) }
    ensures begins { take (length out.old.items) out.new.items ≡ out.old.items }
    ensures full { OnErr result (vec_capacity out.old
        < vec_len out.old + length ((optional messages.message).bytes message.now)) }
    ensures capacity { vec_capacity out.old ≤ vec_capacity out.new }
{
    put_flag(message.is_some(), out)?;
    match message {
        None => Ok(()),
        Some(message) => message.message().write(out),
    }
}

#[tactic(auto, unfolding(crate::specs::Values::kept))]
pub(crate) fn append_kept(topic: &TopicName, kept: &Kept, out: &mut Vec<u8>) -> Result<(), NoMemory>
    ensures ok { OnOk result (out.new.items ≡ out.old.items
        ++ (spec.kept topic.now).bytes kept.now) }
    ensures begins { take (length out.old.items) out.new.items ≡ out.old.items }
    ensures full { OnErr result (vec_capacity out.old
        < vec_len out.old + length ((spec.kept topic.now).bytes kept.now)) }
    ensures capacity { vec_capacity out.old ≤ vec_capacity out.new }
{
    put_u64(kept.stamp.count(), out)?;
    put_u16(kept.stamp.node(), out)?;
    append_message(&kept.message, out)
}

/// Appends what is kept of the topic. Where memory runs out `out` stays as it was.
pub fn write_kept(topic: &TopicName, kept: &Kept, out: &mut Vec<u8>) -> Result<(), NoMemory>
    ensures ok { OnOk result (out.new.items ≡ out.old.items
        ++ (spec.kept topic.now).bytes kept.now) }
    ensures err { OnErr result (out.new.items ≡ out.old.items) }
    ensures full { OnErr result (vec_capacity out.old
        < vec_len out.old + length ((spec.kept topic.now).bytes kept.now)) }
    ensures capacity { vec_capacity out.old ≤ vec_capacity out.new }
{
    let len = out.len();
    match append_kept(topic, kept, out) {
        Ok(()) => Ok(()),
        Err(fault) => {
            out.truncate(len);
            Err(fault)
        }
    }
}

/// What is kept of a topic, if its message is the topic's own, has a spelling. This does nothing; its
/// contract is a law.
#[tactic(auto, unfolding(crate::specs::Values::kept), using(crate::proofs::Fits::fits))]
pub fn kept_fits(topic: &TopicName, kept: &Kept)
    requires { spec.IsOwn (topic.now, kept.now) }
    ensures { (spec.kept topic.now).Fits kept.now }
{
    let _count = kept.stamp.count();
    let _node = kept.stamp.node();
    if let Some(message) = &kept.message {
        message.message().has_spelling();
    }
}

/// Appends the topic and what is kept of it, or their beginning where memory runs out.
pub(crate) fn append_topic_entry(
    topic: &TopicName,
    kept: &Kept,
    out: &mut Vec<u8>,
) -> Result<(), NoMemory>
    requires { spec.IsOwn (topic.now, kept.now) }
    ensures spelling { spec.topic_entry.Fits (topic.now, kept.now) }
    ensures ok { OnOk result (out.new.items ≡ out.old.items
        ++ spec.topic_entry.bytes (topic.now, kept.now)) }
    ensures begins { take (length out.old.items) out.new.items ≡ out.old.items }
    ensures full { OnErr result (vec_capacity out.old
        < vec_len out.old + length (spec.topic_entry.bytes (topic.now, kept.now))) }
    ensures capacity { vec_capacity out.old ≤ vec_capacity out.new }
{
    kept_fits(topic, kept);
    let _topic = topic.as_str();
    topic.as_text().write(out)?;
    append_kept(topic, kept, out)
}
