//! Topic aliases whose topic may not be written.

ghost use Rattle.std.specs.Prelude.{◌≡◌, OnOk};
ghost use Rattle.std.specs.FinSet as set;
ghost use Rattle.door_packets.specs.Packets.{aliases_after, aliases_with};

use crate::publish_view::PublishView;
use mqtt_fields::NoMemory;
use mqtt_fields::identifier::TOPIC_ALIAS;
use std::alloc::Global;
use std::collections::BTreeSet;
use std::marker::Model;

/// The topic aliases (MQTT 5.0, 3.3.2.3.4) that the client gave last to a topic to which it may not publish. The handler inside doesn't know of that.
#[derive(Drop)]
pub struct Aliases {
    refused: BTreeSet<u16>,
}

impl Model for Aliases {
    ghost use Rattle.std.specs.Coded.{coded_ℕ};
    ghost use Rattle.std.specs.FinSet as set;
    ghost use Rattle.std.specs.Ordering.{nat_cmp};

    ghost Value = { set.FinSet nat_cmp };

    ghost coded = { set.code coded_ℕ };

    ghost view = { λ a. set.from_list a.refused.keys };
}

impl Aliases {
    /// None.
    pub fn new(alloc: Global) -> Aliases
        ensures { result ≡ set.empty }
    {
        Aliases {
            refused: BTreeSet::new(alloc),
        }
    }

    /// Whether its topic may not be written.
    pub fn contains(&self, alias: u16) -> bool
        ensures { result ≡ set.contains self.now alias }
    {
        self.refused.contains(&alias)
    }

    /// It is given to a topic that may be written.
    fn allow(&mut self, alias: u16)
        ensures { self.new ≡ set.remove self.old alias }
    {
        self.refused.remove(&alias);
    }

    /// It is given to one that may not be written.
    fn refuse(&mut self, alias: u16) -> Result<(), NoMemory>
        ensures { OnOk result (self.new ≡ set.insert self.old alias) }
    {
        self.refused.insert(alias)?;
        Ok(())
    }

    /// It is given to a topic that may be written, or that may not.
    fn give(&mut self, allowed: bool, alias: u16) -> Result<(), NoMemory>
        ensures { OnOk result (self.new ≡ aliases_with allowed alias self.old) }
    {
        if allowed {
            self.allow(alias);
            return Ok(());
        }
        self.refuse(alias)
    }

    /// A PUBLISH that is allowed, or isn't, may give one to its topic.
    pub(crate) fn note(&mut self, allowed: bool, publish: &PublishView<'_>) -> Result<(), NoMemory>
        ensures { OnOk result (self.new ≡ aliases_after allowed publish.now self.old) }
    {
        if publish.topic.is_empty() {
            return Ok(());
        }
        match publish.properties.two(TOPIC_ALIAS) {
            None => Ok(()),
            Some(alias) => self.give(allowed, alias),
        }
    }
}
