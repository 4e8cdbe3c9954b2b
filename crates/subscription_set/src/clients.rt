//! Clients in the order of their bytes, found by their place.
ghost use Rattle.std.specs.Prelude.{◌≡◌, ◌%◌, OnOk, OnErr, length, slice_get};
ghost use Rattle.std.specs.FinSet as set;
ghost use Rattle.std.specs.List.Sorted.{IsStrictlySortedBy};
ghost use Rattle.std.specs.Option.{option_copied};
ghost use Rattle.subscription_set.specs.Filing.{IsEmptiness, text_cmp};
ghost use Rattle.subscription_set.specs.Members.{IsTaken};

use mqtt_fields::{NoMemory, Text};
use std::alloc::Global;
use std::marker::Model;

/// A set of clients, in the order of their bytes.
#[derive(Drop)]
pub struct Clients {
    alloc: Global,
    clients: Vec<Text>,
}

impl Model for Clients {
    ghost use Rattle.std.specs.Coded.{coded_list, coded_ℕ};
    ghost use Rattle.std.specs.FinSet as set;
    ghost use Rattle.std.specs.List.Sorted.{IsStrictlySortedBy};
    ghost use Rattle.subscription_set.specs.Filing.{text_cmp};
    ghost use Rattle.subscription_set.specs.Members.{Clients as ClientSet};

    ghost Value = { ClientSet };

    ghost coded = { set.code (coded_list coded_ℕ) };

    ghost view = { λ c. set.from_list c.clients.items };

    ghost invariant = { λ c. IsStrictlySortedBy text_cmp c.clients.items };
}

// Puts a client in its place. One that is there takes no memory.
fn put_in(alloc: Global, clients: &mut Vec<Text>, client: &Text) -> Result<(), NoMemory>
    requires { IsStrictlySortedBy text_cmp clients.old.items }
    ensures order { IsStrictlySortedBy text_cmp clients.new.items }
    ensures ok { OnOk result (set.from_list {R = text_cmp} clients.new.items
        ≡ set.insert (set.from_list clients.old.items) client.now) }
    ensures err { OnErr result (clients.new.items ≡ clients.old.items) }
{
    match clients.as_slice().binary_search(client) {
        Ok(_) => Ok(()),
        Err(place) => {
            let own = client.copy(alloc)?;
            clients.insert(place, own)?;
            Ok(())
        }
    }
}

// Takes a client out.
fn take_out(clients: &mut Vec<Text>, client: &Text)
    requires { IsStrictlySortedBy text_cmp clients.old.items }
    ensures order { IsStrictlySortedBy text_cmp clients.new.items }
    ensures left { set.from_list {R = text_cmp} clients.new.items
        ≡ set.remove (set.from_list clients.old.items) client.now }
{
    if let Ok(place) = clients.as_slice().binary_search(client) {
        clients.remove(place);
    }
}

// The one in the place `turn` modulo their number, if there is one.
fn in_turn(clients: &[Text], turn: u64) -> Option<&Text>
    ensures { option_copied result ≡ slice_get clients.now (turn % length clients.now) }
{
    if clients.is_empty() {
        return None;
    }
    let place = turn % clients.len() as u64;
    clients.get(place as usize)
}

impl Clients {
    /// No clients.
    pub fn new(alloc: Global) -> Clients
        ensures { result ≡ set.empty }
    {
        Clients {
            alloc,
            clients: Vec::new(alloc),
        }
    }

    /// Puts the client in.
    pub fn insert(&mut self, client: &Text) -> Result<(), NoMemory>
        ensures ok { OnOk result (self.new ≡ set.insert self.old client.now) }
        ensures err { OnErr result (self.new ≡ self.old) }
    {
        put_in(self.alloc, &mut self.clients, client)
    }

    /// Takes the client out.
    pub fn remove(&mut self, client: &Text)
        ensures { self.new ≡ set.remove self.old client.now }
    {
        take_out(&mut self.clients, client)
    }

    /// Whether there are no clients.
    pub fn is_empty(&self) -> bool
        ensures { IsEmptiness self.now result }
    {
        self.clients.as_slice().is_empty()
    }

    /// The client in the place `turn` modulo their number, if there is one: in the order of their bytes.
    pub fn in_turn(&self, turn: u64) -> Option<&Text>
        ensures { IsTaken self.now turn (option_copied result) }
    {
        in_turn(self.clients.as_slice(), turn)
    }
}
