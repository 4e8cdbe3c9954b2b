//! Clients whose sessions have to end.

ghost use Rattle.std.specs.Prelude.{◌≡◌, ◌||◌, ◌&&◌, List, ℕ, OnOk, not, false};
ghost use Rattle.door_packets.specs.Marks.{is_marked, same_text};

use mqtt_fields::{NoMemory, Text};
use std::alloc::Global;
use std::collections::BTreeMap;

/// Client identifiers whose next CONNECT begins a new session.
#[derive(Drop)]
pub struct Marks {
    clients: BTreeMap<Text, ()>,
}

impl Marks {
    /// None.
    pub fn new(alloc: Global) -> Marks
        ensures { (c : List ℕ) → is_marked result c ≡ false }
    {
        Marks {
            clients: BTreeMap::new(alloc),
        }
    }

    /// Whether its next CONNECT does.
    pub fn contains(&self, client: &Text) -> bool
        ensures { result ≡ is_marked self.now client.now }
    {
        self.clients.contains_key(client)
    }

    /// Its next CONNECT does.
    pub fn add(&mut self, client: Text) -> Result<(), NoMemory>
        ensures { OnOk result ((c : List ℕ) → is_marked self.new c ≡ (same_text client c || is_marked self.old c)) }
    {
        self.clients.insert(client, ())?;
        Ok(())
    }

    /// Its next CONNECT came.
    pub fn remove(&mut self, client: &Text)
        ensures { (c : List ℕ) → is_marked self.new c ≡ (not (same_text client.now c) && is_marked self.old c) }
    {
        self.clients.remove(client);
    }
}
