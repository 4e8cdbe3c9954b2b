//! What a turn tells a handler of other nodes, and what the handler gives out then.

use crate::events::{Handler, Output};
use std::alloc::Global;

/// Something that other nodes bring about, at a moment in milliseconds.
#[derive(Debug, Drop)]
pub struct PeerEvent {
    pub at: u64,
    pub kind: PeerEventKind,
}

/// What other nodes bring about. A peer is named by its number in the cluster.
#[derive(Debug, Drop)]
pub enum PeerEventKind {
    /// A link to a peer was begun, on which nothing waits yet.
    Linked { peer: u16 },
    /// A frame came, whole, with its length.
    Frame { bytes: Vec<u8> },
    /// All that was given for a peer is written on its link: more may be given, from the first that the peer may lack on.
    Ship { peer: u16 },
    /// A peer takes more: messages with numbers above this one, which is that of the last message that was given for its link.
    More { peer: u16, after: u64 },
}

/// A frame for a peer.
#[derive(Debug, Drop)]
pub struct PeerFrame {
    pub peer: u16,
    pub bytes: Vec<u8>,
}

/// What a handler gives out for clients and for peers, each in order.
#[derive(Debug, Drop)]
pub struct Given {
    pub outputs: Vec<Output>,
    pub frames: Vec<PeerFrame>,
}

/// What stands behind sockets of clients and of other nodes, as a node of a cluster.
///
/// `hears` relates the handler before an event to what it gives out and to the handler after it, and `declines` to a
/// fault in its place.
pub trait BridgeHandler: Handler {
    ghost use Rattle.std.specs.Prelude.{IfOk, IfErr};
    ghost use Rattle.broker_sockets.specs.declared.bridge.PeerEvent.{PeerEvent};
    ghost use Rattle.broker_sockets.specs.declared.bridge.Given.{Given};

    ghost hears: { Self → PeerEvent → Given → Self → Type 0 };

    ghost declines: { Self → PeerEvent → Self.Fault → Self → Type 0 };

    /// Decides one event of other nodes.
    fn hear(&mut self, event: PeerEvent) -> Result<Given, Self::Fault>
        ensures ok { IfOk result (λ given. hears self.old event given self.new) }
        ensures fault { IfErr result (λ fault. declines self.old event fault self.new) };
}
