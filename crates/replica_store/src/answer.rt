//! The retained messages that answer a new subscription.
ghost use Rattle.std.specs.Prelude.{◌≡◌, ◌⊎◌, ◌∷◌, ◌++◌, Some, IfOk, IsOk, OnOk, OnErr, [], map as map_list};
ghost use Rattle.mqtt_message.specs.declared.message.Message.{Message as MessageValue};
ghost use Rattle.replica_store.specs.Answers.{IsAnswer};
ghost use Rattle.replica_store.specs.Retained.{HasAlive};

use crate::kept::Kept;
use filter_trie::{Onward, past_name};
use mqtt_fields::NoMemory;
use mqtt_message::SharedMessage;
use mqtt_topics::{Filter, TopicName};
use std::alloc::Global;
use std::collections::BTreeMap;

// Puts the message after the others, where there is one that is alive.
fn keep_alive<'a>(
    out: &mut Vec<&'a SharedMessage>,
    kept: &'a Kept,
    now: u64,
) -> Result<(), NoMemory>
    ensures ok { OnOk result (((m : MessageValue) × HasAlive (Some kept.now) now m × (map_list (λ r. r.now) out.new.items ≡ map_list (λ r. r.now) out.old.items ++ m ∷ []))
        ⊎ (((m : MessageValue) → ¬ HasAlive (Some kept.now) now m) × (out.new ≡ out.old))) }
    ensures full { OnErr result ((m : MessageValue) × HasAlive (Some kept.now) now m) }
{
    if let Some(message) = kept.alive(now) {
        out.push(message)?;
    }
    Ok(())
}

/// The messages that answer, in the order of the topics, by a walk that passes by what can't match. It takes memory only where
/// one answers.
pub fn answers<'a>(
    alloc: Global,
    filter: &Filter,
    now: u64,
    topics: &'a BTreeMap<TopicName, Kept>,
) -> Result<Vec<&'a SharedMessage>, NoMemory>
    ensures answer { IfOk result (λ out.
        IsAnswer filter.now now topics.now.entries (map_list (λ r. r.now) out.items)) }
    ensures nothing { IsAnswer filter.now now topics.now.entries [] → IsOk result }
{
    let mut out = Vec::new(alloc);
    if filter.group().is_some() {
        return Ok(out);
    }
    let mut left = topics.range(..);
    while let Some((topic, kept)) = left.next() {
        if filter.matches(topic) {
            keep_alive(&mut out, kept, now)?;
            continue;
        }
        match past_name(alloc, filter, topic) {
            Onward::Next => {}
            Onward::From(bound) => left = topics.range(bound..),
            Onward::End => return Ok(out),
        }
    }
    Ok(out)
}
