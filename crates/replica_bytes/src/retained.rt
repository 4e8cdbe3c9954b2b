//! Retained messages of a store in bytes.
ghost use Rattle.std.specs.Prelude.{◌≡◌, ◌↔◌, ◌+◌, ◌<◌, ◌≤◌, ◌^◌, ◌++◌, length, take, flat_map, vec_len, vec_capacity, IfOk, IsTrue, OnOk, OnErr, IsErrOf};
ghost use Rattle.std.specs.FinMap as map;
ghost use Rattle.std.specs.List.{All, AllByRecursion};
ghost use Rattle.std.specs.Ordering.{is_lt};
ghost use Rattle.subscription_set.specs.Sorted.{Rises};
ghost use Rattle.mqtt_fields.specs.Reading.{Gives};
ghost use Rattle.mqtt_message.specs.Spelling.{values_at};
ghost use Rattle.replica_store.specs.Contents.{topic_in, message_in};
ghost use Rattle.replica_store.specs.Retained.{topic_cmp};
ghost use Rattle.replica_bytes.specs.Memory.{HasText, RetainedWants, WantsSome};
ghost use Rattle.replica_bytes.specs.Stores as spec;
ghost use Rattle.replica_bytes.specs.Values.{topic_entry, has_topic, IsOwn};

use crate::kept::{append_topic_entry, topic_entry_at};
use mqtt_fields::{FieldFault, NoMemory, put_u32, u32_at};
use mqtt_message::SharedMessage;
use mqtt_topics::TopicName;
use replica_store::{Content, Kept, RetainedMap};
use std::alloc::Global;
use std::cmp::Ordering;

// So many topics at the front, each with what is kept of it, and the bytes after them.
fn topics_at(
    alloc: Global,
    count: u32,
    bytes: &[u8],
) -> Result<(Vec<(TopicName, Kept)>, &[u8]), FieldFault>
    ensures exact { Gives (λ x. (x.0.items, x.1.now)) result (values_at topic_entry count bytes.now) }
    ensures own { IfOk result (λ x. All IsOwn x.0.items) }
    ensures no_memory { IsErrOf result FieldFault.NoMemory → WantsSome HasText count bytes.now }
{
    let mut entries = Vec::new(alloc);
    let mut rest = bytes;
    for i in 0..count {
        let (entry, after) = topic_entry_at(alloc, rest)?;
        entries.push(entry)?;
        rest = after;
    }
    Ok((entries, rest))
}

fn is_before(a: &TopicName, b: &TopicName) -> bool
    ensures { result ≡ is_lt (topic_cmp a.now b.now) }
{
    a.cmp(b) == Ordering::Less
}

// Whether each topic is above the one before it.
fn are_rising(entries: &[(TopicName, Kept)]) -> bool
    ensures { IsTrue result ↔ Rises topic_cmp entries.now }
{
    for i in 1..entries.len() {
        let (before, _) = &entries[i - 1];
        let (after, _) = &entries[i];
        if !is_before(before, after) {
            return false;
        }
    }
    true
}

/// What a Put gives the topic: the message, which is its own, or a tombstone where there is none.
pub fn content_of(topic: TopicName, message: Option<SharedMessage>) -> Content
    requires { IsTrue (has_topic topic message) }
    ensures topic { topic_in result ≡ topic }
    ensures message { message_in result ≡ message }
{
    match message {
        None => Content::Cleared(topic),
        Some(message) => Content::Set(message),
    }
}

// Puts the topics in, one after the other.
fn map_of(alloc: Global, entries: Vec<(TopicName, Kept)>) -> Result<RetainedMap, NoMemory>
    requires rising { Rises topic_cmp entries.items }
    requires own { All IsOwn entries.items }
    ensures made { IfOk result (λ m. m ≡ map.from_sorted entries.items) }
    ensures memory { OnErr result (0 < length entries.items) }
{
    let mut made = RetainedMap::new(alloc);
    for (topic, kept) in entries {
        made.put(kept.stamp, content_of(topic, kept.message))?;
    }
    Ok(made)
}

fn retained_of(alloc: Global, entries: Vec<(TopicName, Kept)>) -> Result<RetainedMap, FieldFault>
    requires { All IsOwn entries.items }
    ensures exact { Gives (λ m. m) result (spec.retained_in entries.items) }
    ensures no_memory { IsErrOf result FieldFault.NoMemory → 0 < length entries.items }
{
    if !are_rising(&entries) {
        return Err(FieldFault::Malformed);
    }
    let retained = map_of(alloc, entries)?;
    Ok(retained)
}

/// Retained messages at the front, and the bytes after them.
#[tactic(auto, unfolding(crate::specs::Stores::retained))]
pub(crate) fn retained_at(alloc: Global, bytes: &[u8]) -> Result<(RetainedMap, &[u8]), FieldFault>
    ensures exact { Gives (λ x. (x.0, x.1.now)) result (spec.retained.at bytes.now) }
    ensures no_memory { IsErrOf result FieldFault.NoMemory → RetainedWants bytes.now }
{
    let (count, rest) = u32_at(bytes)?;
    let (entries, rest) = topics_at(alloc, count, rest)?;
    let retained = retained_of(alloc, entries)?;
    Ok((retained, rest))
}

fn append_topics(retained: &RetainedMap, out: &mut Vec<u8>) -> Result<(), NoMemory>
    ensures spelling { OnOk result (AllByRecursion topic_entry.Fits (map.entries retained.now)) }
    ensures ok { OnOk result (out.new.items
        ≡ out.old.items ++ flat_map topic_entry.bytes (map.entries retained.now)) }
    ensures begins { take (length out.old.items) out.new.items ≡ out.old.items }
    ensures full { OnErr result (vec_capacity out.old
        < vec_len out.old + length (flat_map topic_entry.bytes (map.entries retained.now))) }
    ensures capacity { vec_capacity out.old ≤ vec_capacity out.new }
{
    for (topic, kept) in retained.entries() {
        append_topic_entry(topic, kept, out)?;
    }
    Ok(())
}

/// Appends retained messages, or their beginning where memory runs out or there are more topics than
/// four bytes can count.
#[tactic(auto, unfolding(crate::specs::Stores::retained))]
pub(crate) fn append_retained(retained: &RetainedMap, out: &mut Vec<u8>) -> Result<(), NoMemory>
    ensures ok { OnOk result (out.new.items ≡ out.old.items ++ spec.retained.bytes retained.now) }
    ensures spelling { OnOk result (spec.retained.Fits retained.now) }
    ensures begins { take (length out.old.items) out.new.items ≡ out.old.items }
    ensures full { OnErr result (map.len retained.now < 2 ^ 32
        → vec_capacity out.old < vec_len out.old + length (spec.retained.bytes retained.now)) }
    ensures capacity { vec_capacity out.old ≤ vec_capacity out.new }
{
    let Ok(count) = u32::try_from(retained.len()) else {
        return Err(NoMemory);
    };
    put_u32(count, out)?;
    append_topics(retained, out)
}
