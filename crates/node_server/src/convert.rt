//! Events of the sockets as those of a node, and its outputs as theirs. No bytes are copied.

ghost use Rattle.std.specs.Prelude.{◌≡◌, ◌++◌, [], map, IfOk, IsOk, OnOk};
ghost use Rattle.node_server.specs.Events.{event_of, kind_of, peer_event_of, peer_kind_of};
ghost use Rattle.node_server.specs.Outputs.{AreForClients, AreForPeers, seen, seen_frame, to_client, to_peer};

use broker_node::{Event, EventKind};
use broker_sockets::{
    Event as Told, EventKind as ToldKind, Given, Output as Handed, PeerEvent, PeerEventKind,
    PeerFrame,
};
use mqtt_packets::Bytes;
use node_work::Output;
use std::alloc::{AllocError, Global};

fn kind_of(kind: ToldKind) -> EventKind
    ensures { result ≡ kind_of kind }
{
    match kind {
        ToldKind::Started => EventKind::Started,
        ToldKind::Opened { connection } => EventKind::Opened { connection },
        ToldKind::Piece { connection, bytes } => EventKind::Piece {
            connection,
            bytes: Bytes::new(bytes),
        },
        ToldKind::Room { connection, bytes } => EventKind::Room { connection, bytes },
        ToldKind::Closed { connection } => EventKind::Closed { connection },
        ToldKind::Tick => EventKind::Tick,
    }
}

/// What the sockets tell of clients, as an event of the node.
pub(crate) fn event_of(told: Told) -> Event
    ensures { result ≡ event_of told }
{
    Event {
        at: told.at,
        kind: kind_of(told.kind),
    }
}

fn peer_kind_of(kind: PeerEventKind) -> EventKind
    ensures { result ≡ peer_kind_of kind }
{
    match kind {
        PeerEventKind::Linked { peer } => EventKind::Linked { peer },
        PeerEventKind::Frame { bytes } => EventKind::Frame {
            bytes: Bytes::new(bytes),
        },
        PeerEventKind::Ship { peer } => EventKind::Ship { peer },
        PeerEventKind::More { peer, after } => EventKind::More { peer, after },
    }
}

/// What the sockets tell of other nodes, as an event of the node.
pub(crate) fn peer_event_of(told: PeerEvent) -> Event
    ensures { result ≡ peer_event_of told }
{
    Event {
        at: told.at,
        kind: peer_kind_of(told.kind),
    }
}

/// Hands over an output that is for a client.
fn hand(handed: &mut Vec<Handed>, output: Output) -> Result<(), AllocError>
    ensures { OnOk result (map seen handed.new.items ≡ map seen handed.old.items ++ to_client output) }
{
    match output {
        Output::Send { connection, bytes } => {
            let bytes = bytes.into_vec();
            handed.push(Handed::Send { connection, bytes })?;
        }
        Output::Close { connection } => handed.push(Handed::Close { connection })?,
        Output::Frame { frame: _ } => {}
    }
    Ok(())
}

/// What of the outputs is for clients, in order.
pub(crate) fn for_clients(alloc: Global, outputs: Vec<Output>) -> Result<Vec<Handed>, AllocError>
    ensures ok { IfOk result (λ handed. AreForClients outputs.items handed.items) }
    ensures none { outputs.items ≡ [] → IsOk result }
{
    let mut handed = Vec::new(alloc);
    if outputs.is_empty() {
        return Ok(handed);
    }
    for output in outputs {
        hand(&mut handed, output)?;
    }
    Ok(handed)
}

/// Hands over an output to clients or to another node.
fn give(given: &mut Given, output: Output) -> Result<(), AllocError>
    ensures clients { OnOk result (map seen given.new.outputs.items ≡ map seen given.old.outputs.items ++ to_client output) }
    ensures peers { OnOk result (map seen_frame given.new.frames.items ≡ map seen_frame given.old.frames.items ++ to_peer output) }
{
    match output {
        Output::Send { connection, bytes } => {
            let bytes = bytes.into_vec();
            given.outputs.push(Handed::Send { connection, bytes })?;
        }
        Output::Close { connection } => given.outputs.push(Handed::Close { connection })?,
        Output::Frame { frame } => {
            let peer = frame.to;
            let bytes = frame.bytes.into_vec();
            given.frames.push(PeerFrame { peer, bytes })?;
        }
    }
    Ok(())
}

/// What of the outputs is for clients and what for other nodes, each in order.
pub(crate) fn for_all(alloc: Global, outputs: Vec<Output>) -> Result<Given, AllocError>
    ensures clients { IfOk result (λ given. AreForClients outputs.items given.outputs.items) }
    ensures peers { IfOk result (λ given. AreForPeers outputs.items given.frames.items) }
    ensures none { outputs.items ≡ [] → IsOk result }
{
    let mut given = Given {
        outputs: Vec::new(alloc),
        frames: Vec::new(alloc),
    };
    if outputs.is_empty() {
        return Ok(given);
    }
    for output in outputs {
        give(&mut given, output)?;
    }
    Ok(given)
}
