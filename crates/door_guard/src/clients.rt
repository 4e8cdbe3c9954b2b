//! The connections of clients that are open.

ghost use Rattle.std.specs.Prelude.{◌≡◌, ℕ, None, Some, IfOk, OnOk, option_map};
ghost use Rattle.std.specs.Option.{option_copied};
ghost use Rattle.door_guard.specs.Clients.{IsBut, client_of, is_leaving_of, is_live, is_told_of, login_at, restaged};

use door_packets::{Client, Login, Stage};
use mqtt_fields::NoMemory;
use std::alloc::Global;
use std::collections::BTreeMap;

/// What is known of each connection that is open.
#[derive(Drop)]
pub(crate) struct Clients {
    clients: BTreeMap<u64, Client>,
}

impl Clients {
    /// None is open.
    pub(crate) fn new(alloc: Global) -> Clients
        ensures { (q : ℕ) → client_of result q ≡ None }
    {
        Clients {
            clients: BTreeMap::new(alloc),
        }
    }

    /// What is known of it, if it is open.
    pub(crate) fn get(&self, connection: u64) -> Option<&Client>
        ensures { option_copied result ≡ client_of self.now connection }
    {
        self.clients.get(&connection)
    }

    /// How far it has come, if it is open.
    pub(crate) fn stage(&self, connection: u64) -> Option<Stage>
        ensures { result ≡ option_map (λ c. c.stage) (client_of self.now connection) }
    {
        match self.get(connection) {
            None => None,
            Some(client) => Some(client.stage),
        }
    }

    /// Whether it is open, and its end didn't go out.
    pub(crate) fn is_live(&self, connection: u64) -> bool
        ensures { result ≡ is_live (client_of self.now connection) }
    {
        match self.get(connection) {
            None => false,
            Some(client) => !client.is_leaving(),
        }
    }

    /// Whether the handler inside was told that it is open.
    pub(crate) fn is_told(&self, connection: u64) -> bool
        ensures { result ≡ is_told_of (client_of self.now connection) }
    {
        match self.stage(connection) {
            None => false,
            Some(Stage::Waiting(_)) => false,
            Some(Stage::Open) => true,
            Some(Stage::Over) => true,
            Some(Stage::Leaving) => true,
        }
    }

    /// Whether it is open, and its end went out.
    pub(crate) fn is_leaving(&self, connection: u64) -> bool
        ensures { result ≡ is_leaving_of (client_of self.now connection) }
    {
        match self.get(connection) {
            None => false,
            Some(client) => client.is_leaving(),
        }
    }

    /// Who was let in on it.
    pub(crate) fn login(&self, alloc: Global, connection: u64) -> Result<Option<Login>, NoMemory>
        ensures { IfOk result (λ l. l ≡ login_at (client_of self.now connection)) }
    {
        let Some(client) = self.get(connection) else {
            return Ok(None);
        };
        match &client.login {
            None => Ok(None),
            Some(login) => Ok(Some(login.copy(alloc)?)),
        }
    }

    /// It is open, and this is known of it.
    pub(crate) fn put(&mut self, connection: u64, client: Client) -> Result<(), NoMemory>
        ensures { OnOk result (IsBut connection (Some client) self.old self.new) }
    {
        self.clients.insert(connection, client)?;
        Ok(())
    }

    /// Takes it out.
    pub(crate) fn take(&mut self, connection: u64) -> Option<Client>
        ensures found { result ≡ client_of self.old connection }
        ensures left { IsBut connection None self.old self.new }
    {
        self.clients.remove(&connection)
    }

    /// It has come so far, if it is open.
    #[tactic(auto, using(crate::proofs::Restaging::restage_none, crate::proofs::Restaging::restage_some))]
    pub(crate) fn restage(&mut self, connection: u64, stage: Stage) -> Result<(), NoMemory>
        ensures { OnOk result (IsBut connection (restaged stage (client_of self.old connection)) self.old self.new) }
    {
        match self.take(connection) {
            None => Ok(()),
            Some(client) => {
                let Client {
                    partial,
                    stage: _,
                    login,
                    aliases,
                } = client;
                let client = Client {
                    partial,
                    stage,
                    login,
                    aliases,
                };
                self.put(connection, client)
            }
        }
    }
}
