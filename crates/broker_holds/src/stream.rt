//! A stream on which somebody may be held back.
ghost use Rattle.std.specs.Prelude.{◌≡◌};
ghost use Rattle.broker_holds.specs.Holding.{held_by, held_until};

use crate::packets::Packets;
use crate::patience::{SHORTEST, patience_in};
use crate::strain::Strained;
use broker_sockets::Watched;
use std::cell::Cell;

/// The fewest bytes that are read at once while too much waits.
const LEAST: usize = 512;

/// A stream, and what is known of the client that sends on it.
#[derive(Drop)]
pub struct HeldStream<T> {
    pub(crate) stream: T,
    /// What it is watched as, once it is.
    name: Cell<Option<Watched>>,
    packets: Packets,
    /// Whether bytes have come.
    begun: bool,
    /// How long it is held back at most, in milliseconds.
    patience: u16,
    /// When a PUBLISH of it came last while too much waited.
    published: u64,
}

impl<T> HeldStream<T> {
    /// A stream on which nothing came.
    pub(crate) fn new(stream: T) -> HeldStream<T>
        ensures { result.stream ≡ stream }
    {
        HeldStream {
            stream,
            name: Cell::new(None),
            packets: Packets::new(),
            begun: false,
            patience: SHORTEST,
            published: 0,
        }
    }

    /// The number of the client's connection, once it is watched as one.
    pub(crate) fn client(&self) -> Option<usize> {
        match self.name.get() {
            Some(Watched::Client(client)) => Some(client),
            _ => None,
        }
    }

    /// The number of the node to which it is the link, once it is watched as one.
    pub(crate) fn peer(&self) -> Option<usize> {
        match self.name.get() {
            Some(Watched::Peer(peer)) => Some(peer),
            _ => None,
        }
    }

    /// It is watched as this.
    pub(crate) fn name(&self, name: Watched) {
        self.name.set(Some(name));
    }

    /// Until when the client is held back, while too much waits: where it has published since that is so, for as long as it is held back at most.
    fn held_until(&self, strained: &Strained) -> Option<u64>
        ensures { result ≡ held_until self.now strained.now }
    {
        let until = self.published.saturating_add(u64::from(self.patience));
        if self.published >= strained.since && strained.at < until {
            Some(until)
        } else {
            None
        }
    }

    /// Until when the client is held back, where too much waits.
    pub(crate) fn held_by(&self, strained: &Option<Strained>) -> Option<u64>
        ensures { result ≡ held_by self.now strained.now }
    {
        match strained {
            Some(strained) => self.held_until(strained),
            None => None,
        }
    }

    /// How many bytes are read at once while too much waits, and soon after: the packet that has begun to its end, and 512 bytes at least.
    pub(crate) fn most(&self) -> usize {
        LEAST.max(self.packets.left() as usize)
    }

    /// Bytes came, while too much waits or not.
    pub(crate) fn take(&mut self, bytes: &[u8], strained: Option<Strained>)
        ensures { self.new.stream ≡ self.old.stream }
    {
        if !self.begun {
            self.begun = true;
            self.patience = patience_in(bytes);
        }
        let ended = self.packets.take(bytes);
        if let Some(strained) = strained {
            if ended {
                self.published = strained.at;
            }
        }
    }
}
