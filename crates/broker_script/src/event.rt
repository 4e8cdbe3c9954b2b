//! What happens at one node.

ghost use Rattle.std.specs.Prelude.{◌↔◌, IsTrue, Some};
ghost use Rattle.std.specs.List.{join_with_byte};
ghost use Rattle.broker_script.specs.Line.{event_words, event_spelling};
ghost use Rattle.broker_script.specs.Script.{FitsAll};

use hex_text::HexText;
use std::fmt;

/// An event of a script, which one node takes. Moments are whole milliseconds.
#[derive(Debug, PartialEq, Eq, Drop)]
pub enum NodeEvent {
    /// `start NODE MOMENT`: the node starts.
    Start {
        node: u16,
        moment: u64,
    },
    /// `open NODE CONN MOMENT`: a client opens a connection to the node.
    Open {
        node: u16,
        connection: u64,
        moment: u64,
    },
    /// `bytes NODE CONN MOMENT HEX`: bytes arrive at the node on a connection.
    Bytes {
        node: u16,
        connection: u64,
        moment: u64,
        bytes: Vec<u8>,
    },
    /// `close NODE CONN MOMENT`: the client has closed its connection.
    Close {
        node: u16,
        connection: u64,
        moment: u64,
    },
    /// `ship NODE PEER MOMENT`: the node sends its peer what it isn't known to have taken.
    Ship {
        node: u16,
        peer: u16,
        moment: u64,
    },
    /// `link NODE PEER MOMENT`: the node's connection to its peer is there.
    Link {
        node: u16,
        peer: u16,
        moment: u64,
    },
    /// `tick NODE MOMENT`: the node does what is due.
    Tick {
        node: u16,
        moment: u64,
    },
    /// `evict NODE CLIENT MOMENT`: the node removes the subscriptions of a client. CLIENT is its
    /// client identifier, of 1 to 256 bytes, each from 33 to 126.
    Evict {
        node: u16,
        client: String,
        moment: u64,
    },
    /// `move NODE VERSION PREFIX HOME MOMENT`: the node is handed another table of homes, the script's with
    /// this version, in which the home of the client identifiers that begin with the prefix is the node HOME.
    /// PREFIX has 1 to 255 bytes, each from 33 to 126.
    Move {
        node: u16,
        version: u32,
        prefix: String,
        home: u16,
        moment: u64,
    },
}

impl NodeEvent {
    /// Whether each node of the event is below N.
    pub(crate) fn fits(&self, nodes: u16) -> bool
        ensures { IsTrue result ↔ FitsAll nodes (event_words self.now) }
    {
        match self {
            NodeEvent::Start { node, .. } => *node < nodes,
            NodeEvent::Open { node, .. } => *node < nodes,
            NodeEvent::Bytes { node, .. } => *node < nodes,
            NodeEvent::Close { node, .. } => *node < nodes,
            NodeEvent::Tick { node, .. } => *node < nodes,
            NodeEvent::Ship { node, peer, .. } => *node < nodes && *peer < nodes,
            NodeEvent::Link { node, peer, .. } => *node < nodes && *peer < nodes,
            NodeEvent::Evict { node, .. } => *node < nodes,
            NodeEvent::Move { node, home, .. } => *node < nodes && *home < nodes,
        }
    }
}

impl fmt::Display for NodeEvent {
    ghost output = { λ event. Some (join_with_byte 32 (event_spelling event)) };

    fn fmt<W: fmt::Write>(&self, f: &mut fmt::Formatter<W>) -> fmt::Result {
        match self {
            NodeEvent::Start { node, moment } => write!(f, "start {node} {moment}"),
            NodeEvent::Open {
                node,
                connection,
                moment,
            } => { write!(f, "open {node} {connection} {moment}") }
            NodeEvent::Bytes {
                node,
                connection,
                moment,
                bytes,
            } => {
                let bytes = HexText(bytes.as_slice());
                write!(f, "bytes {node} {connection} {moment} {bytes}")
            }
            NodeEvent::Close {
                node,
                connection,
                moment,
            } => { write!(f, "close {node} {connection} {moment}") }
            NodeEvent::Tick { node, moment } => write!(f, "tick {node} {moment}"),
            NodeEvent::Ship { node, peer, moment } => write!(f, "ship {node} {peer} {moment}"),
            NodeEvent::Link { node, peer, moment } => write!(f, "link {node} {peer} {moment}"),
            NodeEvent::Evict {
                node,
                client,
                moment,
            } => { write!(f, "evict {node} {client} {moment}") }
            NodeEvent::Move {
                node,
                version,
                prefix,
                home,
                moment,
            } => { write!(f, "move {node} {version} {prefix} {home} {moment}") }
        }
    }
}
