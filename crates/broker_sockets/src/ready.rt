//! Which sockets may have something.

use crate::network::Sockets;
use std::alloc::{AllocError, Global};

/// A stream, as a hub names it.
#[derive(Clone, Copy, Debug, PartialEq, Eq)]
pub enum Watched {
    /// That of a client, by the number of its connection.
    Client(usize),
    /// A link that another node has begun, by its number.
    Link(usize),
    /// The link to a peer, by the peer's number in the cluster.
    Peer(usize),
}

/// What may have something to be read or accepted.
#[derive(Drop)]
pub struct Ready {
    /// Whether one of the listeners has.
    pub listeners: bool,
    /// The connections of clients that have.
    pub clients: Vec<usize>,
    /// The links that other nodes have begun and that have.
    pub links: Vec<usize>,
    /// The peers on whose links something has come.
    pub peers: Vec<usize>,
}

impl Ready {
    ghost use Rattle.std.specs.Prelude.{◌≡◌, []};

    /// No stream, and the listeners as told.
    pub fn of_listeners(alloc: Global, listeners: bool) -> Self
        ensures listeners { result.listeners ≡ listeners }
        ensures clients { result.clients.items ≡ [] }
        ensures links { result.links.items ≡ [] }
        ensures peers { result.peers.items ≡ [] }
    {
        Ready {
            listeners,
            clients: Vec::new(alloc),
            links: Vec::new(alloc),
            peers: Vec::new(alloc),
        }
    }
}

/// Sockets that tell which of them may have something.
///
/// `watches` and `finds` relate a network before a call to what it answers and to the network after it, where an
/// implementation knows that; of the system's sockets they say nothing.
pub trait Readiness: Sockets {
    ghost use Rattle.std.specs.Prelude.{◌≡◌, Bool, IfOk};
    ghost use Rattle.broker_sockets.specs.declared.ready.Ready.{Ready};
    ghost use Rattle.broker_sockets.specs.declared.ready.Watched.{Watched};

    ghost watches: { Self → Self.Stream → Watched → Bool → Self → Type 0 };

    ghost finds: { Self → Ready → Self → Type 0 };

    /// From now on it is told under this name that the stream may have something. `false`: it can't be watched.
    fn watch(&mut self, stream: &mut Self::Stream, name: Watched) -> bool
        ensures kept { stream.new ≡ stream.old }
        ensures watched { watches self.old stream.old name result self.new };

    /// What may have something: each listener on which somebody has come, and each stream that is watched and to which bytes
    /// or an end have come, since they were told last. Where no call has carried anything since the last one it may wait for
    /// some milliseconds.
    fn ready(&mut self, alloc: Global) -> Result<Ready, AllocError>
        ensures { IfOk result (λ found. finds self.old found self.new) };
}
