//! The steps that a script's lines stand for.

use crate::homes::{Home, moved_table};
use broker_node::{Event, EventKind};
use broker_script::{Command, NodeEvent};
use cli_stops::{RunFault, Stop};
use cluster_play::Step;
use mqtt_fields::Text;
use mqtt_packets::Bytes;
use std::alloc::Global;

/// What a script says before its steps: how many nodes there are, and the homes of prefixes.
#[derive(Drop)]
pub struct Scene {
    nodes: u16,
    homes: Vec<Home>,
}

impl Scene {
    /// So many nodes, and no home of a prefix yet.
    pub fn new(alloc: Global, nodes: u16) -> Scene {
        Scene {
            nodes,
            homes: Vec::new(alloc),
        }
    }

    /// The step that a command stands for; none for the number of nodes, and for a home, which is kept.
    pub fn step_of(&mut self, alloc: Global, command: Command) -> Result<Option<Step>, Stop> {
        let step = match command {
            Command::Nodes { nodes: _ } => return Ok(None),
            Command::Home { prefix, node } => {
                self.homes.push(Home { prefix, node })?;
                return Ok(None);
            }
            Command::Event(event) => {
                let (node, event) = self.event_of(alloc, event)?;
                Step::Event { node, event }
            }
            Command::CrashBefore(event) => {
                let (node, event) = self.event_of(alloc, event)?;
                Step::CrashBefore { node, event }
            }
            Command::CrashAfter(event) => {
                let (node, event) = self.event_of(alloc, event)?;
                Step::CrashAfter { node, event }
            }
            Command::Restart { node } => Step::Restart { node },
            Command::Deliver { frame, moment } => Step::Deliver { frame, at: moment },
        };
        Ok(Some(step))
    }

    /// The node of an event, and what it is handed.
    fn event_of(&self, alloc: Global, event: NodeEvent) -> Result<(u16, Event), Stop> {
        let (node, at, kind) = match event {
            NodeEvent::Start { node, moment } => (node, moment, EventKind::Started),
            NodeEvent::Open {
                node,
                connection,
                moment,
            } => (node, moment, EventKind::Opened { connection }),
            NodeEvent::Bytes {
                node,
                connection,
                moment,
                bytes,
            } => {
                let bytes = Bytes::new(bytes);
                (node, moment, EventKind::Piece { connection, bytes })
            }
            NodeEvent::Close {
                node,
                connection,
                moment,
            } => (node, moment, EventKind::Closed { connection }),
            NodeEvent::Tick { node, moment } => (node, moment, EventKind::Tick),
            NodeEvent::Ship { node, peer, moment } => (node, moment, EventKind::Ship { peer }),
            NodeEvent::Link { node, peer, moment } => (node, moment, EventKind::Linked { peer }),
            NodeEvent::Evict {
                node,
                client,
                moment,
            } => {
                let client = client_of(alloc, client.as_str())?;
                (node, moment, EventKind::Evict { client })
            }
            NodeEvent::Move {
                node,
                version,
                prefix,
                home,
                moment,
            } => {
                let moved = Home { prefix, node: home };
                let homes = moved_table(alloc, self.nodes, &self.homes, version, &moved)?;
                (node, moment, EventKind::Table { homes })
            }
        };
        Ok((node, Event { at, kind }))
    }
}

/// A client that a script names; such a word is always a text.
fn client_of(alloc: Global, word: &str) -> Result<Text, Stop> {
    match Text::new(alloc, word) {
        Ok(client) => Ok(client),
        Err(_) => Err(Stop::Run(RunFault::NoMemory)),
    }
}
