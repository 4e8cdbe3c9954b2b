//! What is known of a client's connection.

ghost use Rattle.std.specs.Prelude.{◌≡◌};
ghost use Rattle.door_packets.specs.Walk.{fresh, is_leaving, left};

use crate::Login;
use crate::aliases::Aliases;
use mqtt_packets::Bytes;
use std::alloc::Global;

/// How far a connection has come.
#[derive(Clone, Copy, Debug, PartialEq, Eq)]
pub enum Stage {
    /// The handler inside isn't told of it yet. So much room is to be told.
    Waiting(Option<u64>),
    /// Its packets are looked at, one after another.
    Open,
    /// Its packets aren't looked at any more, since the handler inside ends it.
    Over,
    /// Its end went out, and the handler inside isn't told of that yet.
    Leaving,
}

/// What is known of a client's connection.
#[derive(Drop)]
pub struct Client {
    /// What came and isn't a whole packet yet.
    pub partial: Bytes,
    pub stage: Stage,
    /// Who was let in.
    pub login: Option<Login>,
    pub aliases: Aliases,
}

impl Client {
    /// A client of which nothing came.
    pub fn new(alloc: Global) -> Client
        ensures { result ≡ fresh }
    {
        Client {
            partial: Bytes::new(Vec::new(alloc)),
            stage: Stage::Waiting(None),
            login: None,
            aliases: Aliases::new(alloc),
        }
    }

    /// Whether its end went out.
    pub fn is_leaving(&self) -> bool
        ensures { result ≡ is_leaving self.now }
    {
        self.stage == Stage::Leaving
    }
}
