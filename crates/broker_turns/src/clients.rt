//! Connected clients, what outputs make of them, for which of them something is due, and how much their connections take.
ghost use Rattle.std.specs.Prelude.{◌≡◌, ◌∷◌, ◌&&◌, [], ℕ, IfOk, None, OnOk, Some, false, is_some, true};
ghost use Rattle.slab.specs.Slab.{Updates, get, slab_len};
ghost use Rattle.broker_turns.specs.Clients.{AreDue, AreMinded, AreNamed, Released, RoomTaken, fresh, is_due, is_due_at, is_noted, is_noted_at, room_of, sent, takes_more, takes_more_at};
ghost use Rattle.broker_turns.specs.Numbers.{AreThose, is_among};

use crate::numbers::{note_if, rising};
use broker_sockets::{Output, Unsent};
use slab::Slab;
use std::alloc::{AllocError, Global};

/// A connection for which fewer bytes wait takes more.
const LOW: usize = 262144;

/// So many bytes may wait for a connection of what it takes.
const ROOM: usize = 1048576;

/// One connection: its stream, what waits to be written on it, whether it closes after that, and whether bytes were sent to it since the
/// handler was told how much it takes, or it wasn't told yet. The small parts stand side by side, since each client that is there takes
/// this room.
#[derive(Drop)]
pub struct Client<T: Drop> {
    pub stream: T,
    pub closing: bool,
    pub untold: bool,
    pub unsent: Unsent,
}

impl<T: Drop> Client<T> {
    fn send(&mut self, bytes: Vec<u8>) -> Result<(), AllocError>
        ensures ok { OnOk result (self.new ≡ sent bytes.items self.old) }
        ensures told { self.new.untold ≡ false → self.new ≡ self.old }
    {
        if self.closing {
            return Ok(());
        }
        self.untold = true;
        self.unsent.push(bytes)
    }

    /// Whether something waits for it, or it closes.
    fn is_due(&self) -> bool
        ensures { result ≡ is_due self.now }
    {
        self.closing || self.unsent.len() != 0
    }

    /// Whether it is due, or the handler may have to be told how much it takes.
    fn is_noted(&self) -> bool
        ensures { result ≡ is_noted self.now }
    {
        self.untold || self.is_due()
    }

    /// Whether its connection takes more than the handler was told.
    fn takes_more(&self) -> bool
        ensures { result ≡ takes_more self.now }
    {
        self.untold && !self.closing && self.unsent.len() < LOW
    }

    /// How much its connection takes.
    fn room(&self) -> u64
        ensures { result ≡ room_of self.now }
    {
        ROOM.saturating_sub(self.unsent.len()) as u64
    }
}

/// The clients by connection, and the numbers of those that are due or of which the handler may have to be told how much they take, and
/// perhaps of others.
#[derive(Drop)]
pub struct Clients<T: Drop> {
    pub slab: Slab<Client<T>>,
    noted: Vec<usize>,
    ghost named: { AreNamed slab noted.items },
    ghost minded: { AreMinded slab },
}

/// Whether the client of a connection is there and due.
fn is_due_at<T: Drop>(slab: &Slab<Client<T>>, key: usize) -> bool
    ensures { result ≡ is_due_at (get slab.now key) }
{
    match slab.get(key) {
        Some(client) => client.is_due(),
        None => false,
    }
}

/// Whether the client of a connection is there and noted.
fn is_noted_at<T: Drop>(slab: &Slab<Client<T>>, key: usize) -> bool
    ensures { result ≡ is_noted_at (get slab.now key) }
{
    match slab.get(key) {
        Some(client) => client.is_noted(),
        None => false,
    }
}

/// Whether the client of a connection is there and takes more.
fn takes_more_at<T: Drop>(slab: &Slab<Client<T>>, key: usize) -> bool
    ensures { result ≡ takes_more_at (get slab.now key) }
{
    match slab.get(key) {
        Some(client) => client.takes_more(),
        None => false,
    }
}

/// Of these numbers, those of clients that are due.
fn still_due<T: Drop>(
    alloc: Global,
    slab: &Slab<Client<T>>,
    keys: &[usize],
) -> Result<Vec<usize>, AllocError>
    ensures { IfOk result (λ due. (key : ℕ) → is_among due.items key ≡ (is_among keys.now key && is_due_at (get slab.now key))) }
{
    let mut due = Vec::new(alloc);
    for key in keys {
        note_if(&mut due, *key, is_due_at(slab, *key))?;
    }
    Ok(due)
}

/// Of these numbers, those of clients that are noted.
fn still_noted<T: Drop>(
    alloc: Global,
    slab: &Slab<Client<T>>,
    keys: &[usize],
) -> Result<Vec<usize>, AllocError>
    ensures { IfOk result (λ noted. (key : ℕ) → is_among noted.items key ≡ (is_among keys.now key && is_noted_at (get slab.now key))) }
{
    let mut noted = Vec::new(alloc);
    for key in keys {
        note_if(&mut noted, *key, is_noted_at(slab, *key))?;
    }
    Ok(noted)
}

/// Of these numbers, those of clients that take more.
fn that_take_more<T: Drop>(
    alloc: Global,
    slab: &Slab<Client<T>>,
    keys: &[usize],
) -> Result<Vec<usize>, AllocError>
    ensures { IfOk result (λ takers. (key : ℕ) → is_among takers.items key ≡ (is_among keys.now key && takes_more_at (get slab.now key))) }
{
    let mut takers = Vec::new(alloc);
    for key in keys {
        note_if(&mut takers, *key, takes_more_at(slab, *key))?;
    }
    Ok(takers)
}

impl<T: Drop> Clients<T> {
    /// No clients.
    pub fn new(alloc: Global) -> Self
        ensures { (key : ℕ) → get result.slab key ≡ None }
    {
        Clients {
            slab: Slab::new(alloc),
            noted: Vec::new(alloc),
        }
    }

    /// How many there are.
    pub fn len(&self) -> usize
        ensures { result ≡ slab_len self.now.slab }
    {
        self.slab.len()
    }

    /// The number of the next connection.
    pub fn next_key(&self) -> usize
        ensures key { result ≡ self.now.slab.vacant_key }
        ensures free { get self.now.slab result ≡ None }
    {
        self.slab.vacant_key()
    }

    /// A new client, under the number of the next connection.
    pub fn insert(&mut self, alloc: Global, stream: T) -> Result<usize, AllocError>
        ensures key { IfOk result (λ key. key ≡ self.old.slab.vacant_key) }
        ensures free { IfOk result (λ key. get self.old.slab key ≡ None) }
        ensures added { IfOk result (λ key. Updates self.old.slab self.new.slab key (Some (fresh stream))) }
    {
        let client = Client {
            stream,
            unsent: Unsent::new(alloc),
            closing: false,
            untold: true,
        };
        self.noted.push(self.slab.vacant_key())?;
        match self.slab.insert(client) {
            Ok(key) => Ok(key),
            Err(_) => Err(AllocError),
        }
    }

    /// The connection's socket is closed.
    pub fn remove(&mut self, key: usize)
        ensures { Updates self.old.slab self.new.slab key None }
    {
        let _ = self.slab.try_remove(key);
    }

    /// Notes a client that is there.
    fn note(&mut self, key: usize) -> Result<(), AllocError>
        ensures slab { self.new.slab ≡ self.old.slab }
        ensures named { OnOk result (is_some (get self.new.slab key) ≡ true → is_among self.new.noted.items key ≡ true) }
    {
        if self.slab.contains(key) && !is_noted_at(&self.slab, key) {
            self.noted.push(key)?;
        }
        Ok(())
    }

    /// Gives bytes to a client, if it is connected.
    fn send(&mut self, key: usize, bytes: Vec<u8>) -> Result<(), AllocError>
        ensures { OnOk result (Released (Output.Send key bytes ∷ []) self.old.slab self.new.slab) }
    {
        self.note(key)?;
        if let Some(client) = self.slab.get_mut(key) {
            client.send(bytes)?;
        }
        Ok(())
    }

    /// Closes a client's connection, if it is connected.
    fn close(&mut self, key: usize) -> Result<(), AllocError>
        ensures { OnOk result (Released (Output.Close key ∷ []) self.old.slab self.new.slab) }
    {
        self.note(key)?;
        if let Some(client) = self.slab.get_mut(key) {
            client.closing = true;
        }
        Ok(())
    }

    /// The numbers of those that are due, rising.
    pub fn due(&mut self, alloc: Global) -> Result<Vec<usize>, AllocError>
        ensures slab { self.new.slab ≡ self.old.slab }
        ensures due { IfOk result (λ keys. AreDue self.new.slab keys.items) }
    {
        let due = still_due(alloc, &self.slab, &self.noted)?;
        self.noted = rising(still_noted(alloc, &self.slab, &self.noted)?);
        Ok(rising(due))
    }

    /// The numbers of those that take more, rising.
    pub fn takers(&self, alloc: Global) -> Result<Vec<usize>, AllocError>
        ensures { IfOk result (λ keys. AreThose (λ key. takes_more_at (get self.now.slab key)) keys.items) }
    {
        let takers = that_take_more(alloc, &self.slab, &self.noted)?;
        Ok(rising(takers))
    }

    /// How much the connection of a client takes, where that is more than the handler was told. It is told from now on.
    pub fn take_room(&mut self, key: usize) -> Option<u64>
        ensures { RoomTaken key self.old.slab result self.new.slab }
    {
        let Some(client) = self.slab.get_mut(key) else {
            return None;
        };
        if !client.takes_more() {
            return None;
        }
        client.untold = false;
        Some(client.room())
    }
}

/// Gives one output to its client, if that is connected.
fn release_one<T: Drop>(clients: &mut Clients<T>, output: Output) -> Result<(), AllocError>
    ensures { OnOk result (Released (output ∷ []) clients.old.slab clients.new.slab) }
{
    match output {
        Output::Send { connection, bytes } => clients.send(connection as usize, bytes),
        Output::Close { connection } => clients.close(connection as usize),
    }
}

/// Gives outputs to their clients, in order.
pub fn release<T: Drop>(clients: &mut Clients<T>, outputs: Vec<Output>) -> Result<(), AllocError>
    ensures { OnOk result (Released outputs.items clients.old.slab clients.new.slab) }
{
    for output in outputs {
        release_one(clients, output)?;
    }
    Ok(())
}
