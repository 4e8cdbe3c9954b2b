//! The connections of clients that aren't of MQTT 5.0, or of which that isn't known yet.

ghost use Rattle.std.specs.Prelude.{◌≡◌, ℕ, None, Some, [], is_some, IfOk, OnOk};
ghost use Rattle.mqtt3_packets.specs.Version.{version_of};
ghost use Rattle.door_mqtt3.specs.Client.{AreSpelled, limit};
ghost use Rattle.door_mqtt3.specs.Knowing.{IsCome, IsComing, IsGot, client_of};
ghost use Rattle.door_mqtt3.specs.Stages.{IsBut, begun, comes, goes_on, got, has_ended, stage_of};
ghost use Rattle.door_mqtt3.specs.declared.clients.Stage.TheVariants as stages;

use crate::client::Client;
use crate::taken::Taken;
use mqtt_fields::{LONGEST_PACKET, NoMemory};
use mqtt_packets::Bytes;
use mqtt3_packets::{Level, Version, version_of};
use std::alloc::Global;
use std::collections::BTreeMap;

/// What is known of a client's connection.
#[derive(Drop)]
pub(crate) enum Stage {
    /// This came, which doesn't tell a version.
    Coming(Bytes),
    /// Its client is of a version before 5.
    Known(Client),
}

/// Connections by their numbers. One that isn't among them is of MQTT 5.0.
#[derive(Drop)]
pub(crate) struct Clients {
    stages: BTreeMap<u64, Stage>,
}

/// The client of a connection whose first bytes tell this version, if it is one before 5.
fn client_of(alloc: Global, version: Version) -> Option<Client>
    ensures { result ≡ client_of version }
{
    match version {
        Version::Five => None,
        Version::Before(level, bridge) => Some(Client::new(alloc, level, bridge, true)),
        Version::Unserved => Some(Client::new(alloc, Level::Four, false, false)),
    }
}

/// What is told inside where this came, and how far its connection has come then.
fn begin(alloc: Global, bytes: Vec<u8>) -> Result<(Taken, Option<Stage>), NoMemory>
    ensures { IfOk result (λ x. IsCome (begun bytes.items (version_of limit bytes.items)) x.0 x.1) }
{
    match version_of(LONGEST_PACKET, &bytes) {
        None => Ok((Taken::none(alloc), Some(Stage::Coming(Bytes::new(bytes))))),
        Some(version) => match client_of(alloc, version) {
            None => Ok((Taken::of(alloc, bytes), None)),
            Some(mut client) => {
                let taken = client.come(alloc, bytes)?;
                Ok((taken, Some(Stage::Known(client))))
            }
        },
    }
}

/// What is told inside where this came, and how far its connection has come then.
fn told_by(alloc: Global, stage: Stage, piece: Vec<u8>) -> Result<(Taken, Option<Stage>), NoMemory>
    ensures { IfOk result (λ x. IsCome (comes (Some stage) piece.items) x.0 x.1) }
{
    match stage {
        Stage::Known(mut client) => {
            let taken = client.come(alloc, piece)?;
            Ok((taken, Some(Stage::Known(client))))
        }
        Stage::Coming(held) => {
            let mut bytes = held.into_vec();
            bytes.extend_from_slice(&piece)?;
            begin(alloc, bytes)
        }
    }
}

/// What is told inside of what was held back, and how far its connection has come then.
fn told_on(alloc: Global, stage: Stage) -> Result<(Vec<u8>, Stage), NoMemory>
    ensures told { IfOk result (λ x. AreSpelled (goes_on (Some stage)).told x.0.items) }
    ensures stage { IfOk result (λ x. Some x.1 ≡ (goes_on (Some stage)).stage) }
{
    match stage {
        Stage::Coming(held) => Ok((Vec::new(alloc), Stage::Coming(held))),
        Stage::Known(mut client) => {
            let told = client.go_on(alloc)?;
            Ok((told, Stage::Known(client)))
        }
    }
}

/// What is sent where the handler inside gives these packets, whether the connection has to end, and how far it has come then.
fn sent_by(alloc: Global, stage: Stage, bytes: &[u8]) -> Result<((Vec<u8>, bool), Stage), NoMemory>
    ensures sent { IfOk result (λ x. x.0.0.items ≡ (got stage bytes.now).sent) }
    ensures stage { IfOk result (λ x. x.1 ≡ (got stage bytes.now).stage) }
{
    match stage {
        Stage::Coming(held) => Ok(((Vec::new(alloc), false), Stage::Coming(held))),
        Stage::Known(mut client) => {
            let sent = client.get(alloc, bytes)?;
            Ok((sent, Stage::Known(client)))
        }
    }
}

impl Clients {
    /// None is among them.
    pub(crate) fn new(alloc: Global) -> Clients
        ensures { (q : ℕ) → stage_of result q ≡ None }
    {
        Clients {
            stages: BTreeMap::new(alloc),
        }
    }

    /// Whether it is among them.
    pub(crate) fn contains(&self, connection: u64) -> bool
        ensures { result ≡ is_some (stage_of self.now connection) }
    {
        self.stages.contains_key(&connection)
    }

    /// Whether its client's packets aren't looked at any more.
    pub(crate) fn has_ended(&self, connection: u64) -> bool
        ensures { result ≡ has_ended (stage_of self.now connection) }
    {
        match self.stages.get(&connection) {
            Some(Stage::Known(client)) => client.ended,
            _ => false,
        }
    }

    /// It has come so far.
    fn put(&mut self, connection: u64, stage: Stage) -> Result<(), NoMemory>
        ensures { OnOk result (IsBut connection (Some stage) self.old self.new) }
    {
        self.stages.insert(connection, stage)?;
        Ok(())
    }

    /// It is opened.
    pub(crate) fn opens(&mut self, alloc: Global, connection: u64) -> Result<(), NoMemory>
        ensures { OnOk result (IsBut connection (Some (stages.Coming [])) self.old self.new) }
    {
        self.put(connection, Stage::Coming(Bytes::new(Vec::new(alloc))))
    }

    /// Takes it out.
    pub(crate) fn take(&mut self, connection: u64) -> Option<Stage>
        ensures found { result ≡ stage_of self.old connection }
        ensures left { IsBut connection None self.old self.new }
    {
        self.stages.remove(&connection)
    }

    /// What is told inside where this came on it, and what is sent on it before all else.
    pub(crate) fn come(
        &mut self,
        alloc: Global,
        connection: u64,
        piece: Vec<u8>,
    ) -> Result<Taken, NoMemory>
        ensures { IfOk result (λ taken. IsComing connection piece.items taken self.old self.new) }
    {
        match self.take(connection) {
            None => Ok(Taken::of(alloc, piece)),
            Some(stage) => {
                let (taken, stage) = told_by(alloc, stage, piece)?;
                if let Some(stage) = stage {
                    self.put(connection, stage)?;
                }
                Ok(taken)
            }
        }
    }

    /// What is told inside of packets that were held back, as far as there is room now.
    pub(crate) fn go_on(&mut self, alloc: Global, connection: u64) -> Result<Vec<u8>, NoMemory>
        ensures told { IfOk result (λ told. AreSpelled (goes_on (stage_of self.old connection)).told told.items) }
        ensures stage { OnOk result (IsBut connection (goes_on (stage_of self.old connection)).stage self.old self.new) }
    {
        match self.take(connection) {
            None => Ok(Vec::new(alloc)),
            Some(stage) => {
                let (told, stage) = told_on(alloc, stage)?;
                self.put(connection, stage)?;
                Ok(told)
            }
        }
    }

    /// What is sent on it where the handler inside gives these packets, and whether it has to end.
    pub(crate) fn get(
        &mut self,
        alloc: Global,
        connection: u64,
        bytes: &[u8],
    ) -> Result<(Vec<u8>, bool), NoMemory>
        ensures { IfOk result (λ x. IsGot (stage_of self.old connection) connection bytes.now x.0.items self.old self.new) }
    {
        match self.take(connection) {
            None => Ok((Vec::new(alloc), false)),
            Some(stage) => {
                let (sent, stage) = sent_by(alloc, stage, bytes)?;
                self.put(connection, stage)?;
                Ok(sent)
            }
        }
    }
}
