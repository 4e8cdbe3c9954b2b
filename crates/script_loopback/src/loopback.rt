//! A cluster whose clients' bytes and frames pass through sockets.

use crate::Wires;
use crate::faults::of_wires;
use broker_node::{Event, EventKind};
use broker_sockets::Sockets;
use cli_stops::RunFault;
use cluster_play::{Cluster, Line, Step, Trace};
use mqtt_packets::Bytes;
use script_runs::{Player, of_step};
use std::alloc::Global;
use std::mem;

/// From where a frame goes, and to where.
#[derive(Clone, Copy)]
struct Route {
    from: u16,
    to: u16,
}

/// The node of a step, with the connection that may have been opened or closed there, and whether the node was restarted.
#[derive(Clone, Copy)]
struct Touched {
    node: u16,
    connection: Option<u64>,
    restarted: bool,
}

/// A cluster and its sockets. An open connection of a client has a pair of them, and so has each link over which a frame has
/// passed.
#[derive(Drop)]
pub struct Loopback<'a, S: Sockets> {
    alloc: Global,
    cluster: Cluster,
    sockets: &'a mut S,
    wires: Wires<S::Listener, S::Stream>,
    /// Of each frame, in the order of their numbers.
    routes: Vec<Route>,
}

/// What a step touches; a frame that isn't delivered touches nothing.
fn touched_by(step: &Step) -> Option<Touched> {
    match step {
        Step::Event { node, event } => Some(Touched {
            node: *node,
            connection: connection_of(event),
            restarted: false,
        }),
        Step::Deliver { frame: _, at: _ } => None,
        Step::CrashBefore { node, event: _ } | Step::CrashAfter { node, event: _ } => Some(
            Touched {
                node: *node,
                connection: None,
                restarted: false,
            },
        ),
        Step::Restart { node } => Some(Touched {
            node: *node,
            connection: None,
            restarted: true,
        }),
    }
}

/// The connection that an event opens or closes.
fn connection_of(event: &Event) -> Option<u64> {
    match &event.kind {
        EventKind::Opened { connection } | EventKind::Closed { connection } => Some(*connection),
        _ => None,
    }
}

impl<'a, S: Sockets> Loopback<'a, S> {
    /// A new cluster of so many nodes, with a listener for each.
    pub fn new(
        alloc: Global,
        cluster: Cluster,
        nodes: u16,
        sockets: &'a mut S,
    ) -> Result<Loopback<'a, S>, RunFault> {
        let wires = Wires::new(alloc, sockets, nodes).map_err(of_wires)?;
        Ok(Loopback {
            alloc,
            cluster,
            sockets,
            wires,
            routes: Vec::new(alloc),
        })
    }

    /// What comes of an event at its node: a piece passes through the connection's sockets.
    fn event(&mut self, node: u16, event: Event) -> Result<Event, RunFault> {
        let at = event.at;
        match event.kind {
            EventKind::Piece { connection, bytes } => {
                let bytes = self.piece(node, connection, bytes)?;
                let kind = EventKind::Piece { connection, bytes };
                Ok(Event { at, kind })
            }
            kind => Ok(Event { at, kind }),
        }
    }

    /// What comes at a node of bytes from a client; the bytes themselves where the connection isn't open.
    fn piece(&mut self, node: u16, connection: u64, bytes: Bytes) -> Result<Bytes, RunFault> {
        if !self.cluster.is_open(node, connection) {
            return Ok(bytes);
        }
        let sent = bytes.into_vec();
        match self.wires.to_node(self.sockets, node, connection, sent) {
            Ok(came) => Ok(Bytes::new(came)),
            Err(fault) => Err(of_wires(fault)),
        }
    }

    /// The route of a frame whose receiver is up.
    fn route(&self, number: u64) -> Option<Route> {
        let place = number.checked_sub(1)?;
        let route = *self.routes.get(place as usize)?;
        match self.cluster.taken(route.to) {
            Some(_) => Some(route),
            None => None,
        }
    }

    /// What comes of a frame at the other end of its link; nothing where no frame has that number.
    fn over_link(&mut self, number: u64, route: Route) -> Result<Option<Bytes>, RunFault> {
        let Some(bytes) = self.cluster.frame(number) else {
            return Ok(None);
        };
        match self.wires.frame(self.sockets, route.from, route.to, bytes) {
            Ok(came) => Ok(Some(Bytes::new(came))),
            Err(fault) => Err(of_wires(fault)),
        }
    }

    /// The step by which a frame reaches its receiver: where that is up, the frame passes over the link first.
    fn frame(&mut self, number: u64, at: u64) -> Result<Step, RunFault> {
        let Some(route) = self.route(number) else {
            return Ok(Step::Deliver { frame: number, at });
        };
        match self.over_link(number, route)? {
            Some(bytes) => {
                let kind = EventKind::Frame { bytes };
                let event = Event { at, kind };
                Ok(Step::Event {
                    node: route.to,
                    event,
                })
            }
            None => Ok(Step::Deliver { frame: number, at }),
        }
    }

    /// A step as it comes out of the sockets.
    fn carried(&mut self, step: Step) -> Result<Step, RunFault> {
        match step {
            Step::Event { node, event } => {
                let event = self.event(node, event)?;
                Ok(Step::Event { node, event })
            }
            Step::CrashAfter { node, event } => {
                let event = self.event(node, event)?;
                Ok(Step::CrashAfter { node, event })
            }
            Step::Deliver { frame, at } => self.frame(frame, at),
            step => Ok(step),
        }
    }

    /// A packet passes to its client; it is told as it came.
    fn sent(&mut self, node: u16, connection: u64, bytes: &mut Bytes) -> Result<(), RunFault> {
        let empty = Bytes::new(Vec::new(self.alloc));
        let sent = mem::replace(bytes, empty).into_vec();
        *bytes = self.to_client(node, connection, sent)?;
        Ok(())
    }

    /// What comes at a client of bytes that a node sends it.
    fn to_client(&mut self, node: u16, connection: u64, bytes: Vec<u8>) -> Result<Bytes, RunFault> {
        match self.wires.to_client(self.sockets, node, connection, bytes) {
            Ok(came) => Ok(Bytes::new(came)),
            Err(fault) => Err(of_wires(fault)),
        }
    }

    /// Keeps from where a frame goes, and to where.
    fn released(&mut self, from: u16, to: u16) -> Result<(), RunFault> {
        match self.routes.push(Route { from, to }) {
            Ok(()) => Ok(()),
            Err(_) => Err(RunFault::NoMemory),
        }
    }

    /// A packet passes to its client; a close ends its pair, and a node that goes down has its sockets closed.
    fn told(&mut self, line: &mut Line) -> Result<(), RunFault> {
        match line {
            Line::Sent {
                node,
                connection,
                bytes,
            } => return self.sent(*node, *connection, bytes),
            Line::Closed { node, connection } => self.wires.close(*node, *connection),
            Line::Frame {
                number: _,
                from,
                to,
                kind: _,
            } => return self.released(*from, *to),
            Line::Fault { node, fault: _ } | Line::Crash { node } => self.wires.close_node(*node),
            Line::Down { node: _ } => {}
        }
        Ok(())
    }

    /// Sockets are as what a step touched: those of a node that is down or was restarted are closed, and a connection has a
    /// pair exactly where it is open.
    fn settle(&mut self, touched: Touched) -> Result<(), RunFault> {
        let node = touched.node;
        if touched.restarted || self.cluster.taken(node).is_none() {
            self.wires.close_node(node);
            return Ok(());
        }
        let Some(connection) = touched.connection else {
            return Ok(());
        };
        if !self.cluster.is_open(node, connection) {
            self.wires.close(node, connection);
            return Ok(());
        }
        let opened = self.wires.open(self.sockets, node, connection);
        opened.map_err(of_wires)
    }
}

impl<'a, S: Sockets> Player for Loopback<'a, S> {
    fn step(&mut self, step: Step) -> Result<Trace, RunFault> {
        let step = self.carried(step)?;
        let touched = touched_by(&step);
        let mut trace = match self.cluster.play(&[step]) {
            Ok(trace) => trace,
            Err(fault) => return Err(of_step(fault)),
        };
        for line in trace.lines.iter_mut() {
            self.told(line)?;
        }
        if let Some(touched) = touched {
            self.settle(touched)?;
        }
        Ok(trace)
    }

    fn cluster(&self) -> &Cluster {
        &self.cluster
    }
}
