//! Retained entries in the order of their topics.
ghost use Rattle.std.specs.Prelude.{◌≡◌, ◌+◌, ◌<◌, ◌^◌, ◌≤◌, OnOk, OnErr, IsSome, None, length, if◌then◌else◌};
ghost use Rattle.std.specs.Option.{option_copied};
ghost use Rattle.std.specs.FinMap as map;
ghost use Rattle.replica_store.specs.Retained.{with_message, holds_message};

use crate::kept::Kept;
use mqtt_fields::NoMemory;
use mqtt_topics::TopicName;
use std::alloc::Global;
use std::collections::BTreeMap;
use std::collections::btree_map::Iter;
use std::marker::Model;

/// The entries by their topics, and how many of them have a message.
#[derive(Drop)]
pub struct Topics {
    entries: BTreeMap<TopicName, Kept>,
    messages: usize,
}

impl Model for Topics {
    ghost use Rattle.std.specs.Prelude.{◌≡◌, length};
    ghost use Rattle.std.specs.FinMap as map;
    ghost use Rattle.subscription_set.specs.Sorted.{Rises};
    ghost use Rattle.replica_store.specs.Retained.{Retained, topic_cmp, coded_retained, with_message};

    ghost Value = { Retained };

    ghost coded = { coded_retained };

    ghost view = { λ t. map.from_sorted t.entries.entries };

    ghost invariant = { λ t. Rises topic_cmp t.entries.entries
        × (t.messages ≡ length (with_message t.entries.entries)) };
}

// A count after one was gained, and one was lost.
fn count_after(count: usize, gained: bool, lost: bool) -> usize
    requires most { count < 2 ^ 63 }
    requires least { (if lost then 1 else 0) ≤ count + (if gained then 1 else 0) }
    ensures { result + (if lost then 1 else 0) ≡ count + (if gained then 1 else 0) }
{
    let count = if gained { count + 1 } else { count };
    if lost { count - 1 } else { count }
}

// Whether there is an entry with a message.
fn has_message(entry: &Option<Kept>) -> bool
    ensures { result ≡ holds_message entry.now }
{
    match entry {
        None => false,
        Some(kept) => kept.message.is_some(),
    }
}

impl Topics {
    /// No entries.
    pub fn new(alloc: Global) -> Topics
        ensures { result ≡ map.empty }
    {
        Topics {
            entries: BTreeMap::new(alloc),
            messages: 0,
        }
    }

    /// The topics in the order of their bytes, each with its entry.
    pub fn iter(&self) -> Iter<'_, TopicName, Kept>
        ensures { result ≡ map.entries self.now }
    {
        self.entries.iter()
    }

    /// The entries as an ordered map, for a walk that passes some of them by.
    pub fn by_topic(&self) -> &BTreeMap<TopicName, Kept>
        ensures { result.now.entries ≡ map.entries self.now }
    {
        &self.entries
    }

    /// The entry of the topic.
    pub fn get(&self, topic: &TopicName) -> Option<&Kept>
        ensures { option_copied result ≡ map.get self.now topic.now }
    {
        self.entries.get(topic)
    }

    /// How many topics have an entry.
    pub fn len(&self) -> usize
        ensures { result ≡ map.len self.now }
    {
        self.entries.len()
    }

    /// How many have a message, alive or not.
    pub fn messages(&self) -> usize
        ensures { result ≡ length (with_message (map.entries self.now)) }
    {
        self.messages
    }

    /// Puts the entry in, in the place of the topic's.
    pub fn insert(&mut self, topic: TopicName, kept: Kept) -> Result<(), NoMemory>
        ensures ok { OnOk result (self.new ≡ map.insert self.old topic kept) }
        ensures err { OnErr result (self.new ≡ self.old) }
        ensures full { OnErr result (map.get self.old topic ≡ None) }
    {
        let _held = self.entries.len();
        let gained = kept.message.is_some();
        let Ok(old) = self.entries.insert(topic, kept) else {
            return Err(NoMemory);
        };
        let lost = has_message(&old);
        self.messages = count_after(self.messages, gained, lost);
        Ok(())
    }

    /// Puts the entry in the place of the topic's. It takes no memory.
    pub fn replace(&mut self, topic: TopicName, kept: Kept)
        requires { IsSome (map.get self.old topic) }
        ensures { self.new ≡ map.insert self.old topic kept }
    {
        let _done = self.insert(topic, kept);
    }

    /// Takes the entry of the topic out.
    pub fn remove(&mut self, topic: &TopicName)
        ensures { self.new ≡ map.remove self.old topic.now }
    {
        let _held = self.entries.len();
        let old = self.entries.remove(topic);
        let lost = has_message(&old);
        self.messages = count_after(self.messages, false, lost);
    }
}
