//! The connections of clients that are open, and how far each has come.

ghost use Rattle.std.specs.Prelude.{◌≡◌, OnOk};
ghost use Rattle.std.specs.Option.{option_copied};
ghost use Rattle.std.specs.FinMap as map;

use mqtt_fields::{NoMemory, Text};
use mqtt_packets::Bytes;
use std::alloc::Global;
use std::collections::BTreeMap;
use std::marker::Model;

/// How far a client's connection has come.
#[derive(Drop)]
pub(crate) enum Stage {
    /// Its CONNECT wasn't answered yet. This came on it, of which the first 1,048,576 bytes are kept.
    Coming(Bytes),
    /// Its client was accepted under this identifier.
    Accepted(Text),
}

/// The connections that are open, by their numbers.
#[derive(Drop)]
pub(crate) struct Clients {
    stages: BTreeMap<u64, Stage>,
}

impl Model for Clients {
    ghost use Rattle.door_log.specs.Stages.{Stages, coded_stages};
    ghost use Rattle.std.specs.FinMap as map;

    ghost Value = { Stages };

    ghost coded = { coded_stages };

    ghost view = { λ c. map.from_entries c.stages.entries };
}

impl Clients {
    /// None is open.
    pub(crate) fn new(alloc: Global) -> Clients
        ensures { result ≡ map.empty }
    {
        Clients {
            stages: BTreeMap::new(alloc),
        }
    }

    /// How far a connection has come, if it is open.
    pub(crate) fn get(&self, connection: u64) -> Option<&Stage>
        ensures { option_copied result ≡ map.get self.now connection }
    {
        self.stages.get(&connection)
    }

    /// A connection has come so far.
    pub(crate) fn put(&mut self, connection: u64, stage: Stage) -> Result<(), NoMemory>
        ensures { OnOk result (self.new ≡ map.insert self.old connection stage) }
    {
        self.stages.insert(connection, stage)?;
        Ok(())
    }

    /// Takes a connection out.
    pub(crate) fn take(&mut self, connection: u64) -> Option<Stage>
        ensures found { result ≡ map.get self.old connection }
        ensures left { self.new ≡ map.remove self.old connection }
    {
        self.stages.remove(&connection)
    }
}
