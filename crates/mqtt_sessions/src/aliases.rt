//! Topic aliases of a client (MQTT 5.0, 3.3.2.3.4).

ghost use Rattle.std.specs.Prelude.{◌≡◌, ◌∷◌, [], IfOk, OnOk};
ghost use Rattle.std.specs.BTreeMap.{insert_entry};
ghost use Rattle.std.specs.Option.{option_copied};
ghost use Rattle.std.specs.Ordering.{nat_cmp};
ghost use Rattle.mqtt_sessions.specs.Aliases as specs;

use mqtt_fields::NoMemory;
use mqtt_topics::TopicName;
use std::alloc::Global;
use std::collections::BTreeMap;
use std::marker::Model;

/// The greatest alias, which CONNACK announces (MQTT 5.0, 3.2.2.3.8).
pub(crate) const TOPIC_ALIAS_MAXIMUM: u16 = 16;

/// The topics that aliases stand for. While there are none they have no block: few clients set any.
#[derive(Drop)]
pub(crate) struct Aliases {
    alloc: Global,
    topics: Option<Box<BTreeMap<u16, TopicName>>>,
}

impl Model for Aliases {
    ghost use Rattle.std.specs.Prelude.{option_map};
    ghost use Rattle.mqtt_sessions.specs.Aliases as specs;

    ghost Value = { specs.Aliases };

    ghost view = { λ a. specs.aliases_in (option_map (λ t. t.value.entries) a.topics) };
}

/// Whether an alias is none of those that CONNACK announces.
pub(crate) fn is_beyond(alias: Option<u16>) -> bool
    ensures { result ≡ specs.is_beyond alias }
{
    match alias {
        Some(alias) => !(1 <= alias && alias <= TOPIC_ALIAS_MAXIMUM),
        None => false,
    }
}

/// The block of one alias.
fn first(
    alloc: Global,
    alias: u16,
    topic: TopicName,
) -> Result<Box<BTreeMap<u16, TopicName>>, NoMemory>
    ensures { IfOk result (λ t. t.value.entries ≡ (alias, topic) ∷ []) }
{
    let mut topics = BTreeMap::new(alloc);
    topics.insert(alias, topic)?;
    let Ok(block) = Box::new(alloc, topics) else {
        return Err(NoMemory);
    };
    Ok(block)
}

impl Aliases {
    /// Those of a new connection.
    pub(crate) fn new(alloc: Global) -> Aliases
        ensures { result ≡ [] }
    {
        Aliases {
            alloc,
            topics: None,
        }
    }

    /// The topic that an alias stands for.
    pub(crate) fn topic(&self, alias: u16) -> Option<&TopicName>
        ensures { option_copied result ≡ specs.topic_for alias self.now }
    {
        match &self.topics {
            Some(topics) => topics.get(&alias),
            None => None,
        }
    }

    /// An alias stands for a topic from now on.
    pub(crate) fn set(&mut self, alias: u16, topic: TopicName) -> Result<(), NoMemory>
        ensures { OnOk result (self.new ≡ insert_entry nat_cmp self.old alias topic) }
    {
        match &mut self.topics {
            Some(topics) => {
                topics.insert(alias, topic)?;
            }
            None => {
                self.topics = Some(first(self.alloc, alias, topic)?);
            }
        }
        Ok(())
    }
}
