//! Retained messages.
ghost use Rattle.std.specs.Prelude.{◌≡◌, IfOk, IfSome, IsOk, MatchOption, OnOk, OnErr, length, false};
ghost use Rattle.std.specs.FinMap as map;
ghost use Rattle.std.specs.Option.{option_copied};
ghost use Rattle.causal_context.specs.Lattices.{lattice_from_join};
ghost use Rattle.mqtt_message.specs.declared.message.Message.{Message as MessageValue};
ghost use Rattle.replica_store.specs.Contents.{topic_in, message_in};
ghost use Rattle.replica_store.specs.Retained.{HaveOwnTopics, retained_join, RetainedBelow, one_put, HasAlive, with_message, greatest_count};
ghost use Rattle.replica_store.specs.Merging.{is_newer};
ghost use Rattle.replica_store.specs.RetainedLattice.{retained_lattice};

use crate::content::Content;
use crate::kept::{Kept, entry_of};
use crate::merge::{add_fresh, are_below, news_of, put_greater, wins};
use crate::stamp::Stamp;
use crate::topics::Topics;
use causal_context::Lattice;
use mqtt_fields::NoMemory;
use mqtt_message::SharedMessage;
use mqtt_topics::TopicName;
use std::alloc::Global;
use std::collections::BTreeMap;
use std::collections::btree_map::Iter;
use std::marker::Model;

/// Of each topic that was put, the message of the greatest stamp, or a tombstone: a map of
/// last-writer-wins registers, in the order of the topics. It grows by the allocator of its
/// constructor. A message is under its own topic.
pub struct RetainedMap {
    alloc: Global,
    topics: Topics,

    // The greatest count of a stamp, or 0.
    greatest: u64,
}

impl Drop for RetainedMap {
    fn drop(self) {
        let RetainedMap {
            alloc: _alloc,
            topics: _topics,
            greatest: _greatest,
        } = self;
    }
}

impl Model for RetainedMap {
    ghost use Rattle.std.specs.Prelude.{◌≡◌};
    ghost use Rattle.std.specs.FinMap as map;
    ghost use Rattle.replica_store.specs.Retained.{Retained, coded_retained, greatest_count, HaveOwnTopics};

    ghost Value = { Retained };

    ghost coded = { coded_retained };

    ghost view = { λ r. r.topics };

    ghost invariant = { λ r. HaveOwnTopics r.topics
        × (r.greatest ≡ greatest_count (map.entries r.topics)) };
}

impl RetainedMap {
    /// The map of no topics.
    pub fn new(alloc: Global) -> RetainedMap
        ensures { result ≡ map.empty }
    {
        RetainedMap {
            alloc,
            topics: Topics::new(alloc),
            greatest: 0,
        }
    }

    /// The topics in the order of their bytes, each with what is kept of it.
    pub fn entries(&self) -> Iter<'_, TopicName, Kept>
        ensures entries { result ≡ map.entries self.now }
        ensures topics { HaveOwnTopics self.now }
    {
        self.topics.iter()
    }

    /// The same as an ordered map.
    pub(crate) fn by_topic(&self) -> &BTreeMap<TopicName, Kept>
        ensures { result.now.entries ≡ map.entries self.now }
    {
        self.topics.by_topic()
    }

    /// Puts a message, or a tombstone, into its topic, unless what is there is no less, which takes no
    /// memory. Where memory runs out the map stays as it was.
    pub fn put(&mut self, stamp: Stamp, content: Content) -> Result<(), NoMemory>
        ensures ok { OnOk result (self.new ≡ retained_join self.old
            (one_put (topic_in content) (record { stamp = stamp; message = message_in content }))) }
        ensures err { OnErr result (self.new ≡ self.old) }
        ensures there { is_newer (map.get self.old (topic_in content))
            (record { stamp = stamp; message = message_in content }) ≡ false → IsOk result }
    {
        if !wins(self.topics.get(content.topic()), stamp, content.message()) {
            return Ok(());
        }
        let (topic, kept) = entry_of(self.alloc, stamp, content)?;
        self.topics.insert(topic, kept)?;
        self.greatest = self.greatest.max(stamp.count());
        Ok(())
    }

    /// The message of the topic, if there is one and it is alive.
    pub fn get(&self, topic: &TopicName, now: u64) -> Option<&SharedMessage>
        ensures message { MatchOption result
            ((m : MessageValue) → HasAlive (map.get self.now topic.now) now m → ⊥)
            (λ m. HasAlive (map.get self.now topic.now) now m.now) }
        ensures topic { IfSome result (λ m. m.now.topic ≡ topic.now) }
    {
        match self.topics.get(topic) {
            None => None,
            Some(kept) => kept.alive(now),
        }
    }

    /// What is kept of the topic, alive or not.
    pub fn kept(&self, topic: &TopicName) -> Option<&Kept>
        ensures kept { option_copied result ≡ map.get self.now topic.now }
        ensures topics { HaveOwnTopics self.now }
    {
        self.topics.get(topic)
    }

    /// Whether the topic has a message, alive or not, or a tombstone.
    pub fn holds(&self, topic: &TopicName) -> bool
        ensures { result ≡ map.contains_key self.now topic.now }
    {
        self.topics.get(topic).is_some()
    }

    /// How many topics are held, with a message or a tombstone.
    pub fn len(&self) -> usize
        ensures { result ≡ map.len self.now }
    {
        self.topics.len()
    }

    /// How many topics have a message, alive or not.
    pub fn messages(&self) -> usize
        ensures { result ≡ length (with_message (map.entries self.now)) }
    {
        self.topics.messages()
    }

    /// The greatest count of a stamp, or 0 where there is none.
    pub fn greatest_count(&self) -> u64
        ensures { result ≡ greatest_count (map.entries self.now) }
    {
        self.greatest
    }

    /// The same map once more. Its messages are shared. One of no topics takes no memory.
    pub fn copy(&self) -> Result<RetainedMap, NoMemory>
        ensures copy { IfOk result (λ copy. copy ≡ self.now) }
        ensures none { self.now ≡ map.empty → IsOk result }
    {
        let mut copy = RetainedMap::new(self.alloc);
        copy.join(self)?;
        Ok(copy)
    }
}

impl Lattice for RetainedMap {
    ghost joined = { retained_join };

    ghost Below = { RetainedBelow };

    ghost laws = { lattice_from_join retained_lattice };

    /// Takes in the other map. Where memory runs out it stays as it was; with one that is below it
    /// takes none.
    fn join(&mut self, other: &RetainedMap) -> Result<(), NoMemory>
        ensures ok { OnOk result (self.new ≡ retained_join self.old other.now) }
        ensures err { OnErr result (self.new ≡ self.old) }
        ensures below { RetainedBelow other.now self.old → IsOk result }
    {
        if other.is_below(self) {
            return Ok(());
        }
        let news = news_of(self.alloc, &self.topics, &other.topics)?;
        add_fresh(self.alloc, &mut self.topics, &news.fresh)?;
        put_greater(&mut self.topics, news.greater);
        self.greatest = self.greatest.max(other.greatest);
        Ok(())
    }

    fn is_below(&self, other: &RetainedMap) -> bool {
        are_below(&self.topics, &other.topics)
    }
}
