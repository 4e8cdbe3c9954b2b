//! The connections of clients that are open.

ghost use Rattle.std.specs.Prelude.{◌≡◌, ℕ, None, Some, is_some, OnOk};
ghost use Rattle.door_bounds.specs.Clients.{AreNoted, IsBut, IsNoted, client_of};

use crate::client::Client;
use broker_sockets::Output;
use mqtt_fields::NoMemory;
use std::alloc::Global;
use std::collections::BTreeMap;

/// What is known of each connection that is open.
#[derive(Drop)]
pub(crate) struct Clients {
    clients: BTreeMap<u64, Client>,
}

impl Clients {
    /// None is open.
    pub(crate) fn new(alloc: Global) -> Clients
        ensures { (q : ℕ) → client_of result q ≡ None }
    {
        Clients {
            clients: BTreeMap::new(alloc),
        }
    }

    /// Whether it is open.
    pub(crate) fn contains(&self, connection: u64) -> bool
        ensures { result ≡ is_some (client_of self.now connection) }
    {
        self.clients.contains_key(&connection)
    }

    /// It is open, and this is known of it.
    pub(crate) fn put(&mut self, connection: u64, client: Client) -> Result<(), NoMemory>
        ensures { OnOk result (IsBut connection (Some client) self.old self.new) }
    {
        self.clients.insert(connection, client)?;
        Ok(())
    }

    /// Takes it out.
    pub(crate) fn take(&mut self, connection: u64) -> Option<Client>
        ensures found { result ≡ client_of self.old connection }
        ensures left { IsBut connection None self.old self.new }
    {
        self.clients.remove(&connection)
    }

    /// This is given out: a connection that is closed isn't open any more.
    fn note_one(&mut self, output: &Output)
        ensures { IsNoted output.now self.old self.new }
    {
        match output {
            Output::Send {
                connection: _,
                bytes: _,
            } => {}
            Output::Close { connection } => {
                self.take(*connection);
            }
        }
    }

    /// These are given out.
    pub(crate) fn note(&mut self, outputs: &[Output])
        ensures { AreNoted outputs.now self.old self.new }
    {
        for output in outputs {
            self.note_one(output);
        }
    }
}
