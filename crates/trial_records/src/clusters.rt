//! A cluster, as runs play it of which an allocation is refused.

use crate::failure::Failure;
use crate::notes::Notes;
use crate::run::Run;
use crate::trial::{Came, Played, came_of};
use broker_node::{Event, EventKind};
use cluster_play::{Cluster, Line, PlayFault, Step, Trace};
use home_table::HomeTable;
use std::alloc::Global;
use std::{mem, slice};

/// A cluster, or the tables of the one that isn't there yet.
#[derive(Drop)]
pub struct Together {
    alloc: Global,
    tables: Vec<HomeTable>,
    cluster: Option<Cluster>,
}

fn tables(alloc: Global, homes: &HomeTable) -> Option<Vec<HomeTable>> {
    let mut tables = Vec::new(alloc);
    for _ in 0..homes.nodes() {
        let copy = homes.copy().ok()?;
        tables.push(copy).ok()?;
    }
    Some(tables)
}

/// Plays a step; a cluster that isn't there is spent.
fn play(cluster: &mut Option<Cluster>, step: &Step) -> Result<Trace, PlayFault> {
    match cluster {
        Some(cluster) => cluster.play(slice::from_ref(step)),
        None => Err(PlayFault::Spent),
    }
}

/// Notes what a line tells, and what comes of it.
fn note_line(line: &Line, told: &mut Notes) -> Came {
    match line {
        Line::Sent {
            node,
            connection,
            bytes,
        } => told.add(b'b', *node, *connection, bytes.as_slice()),
        Line::Closed { node, connection } => told.add(b'c', *node, *connection, &[]),
        Line::Frame {
            number,
            from,
            to,
            ..
        } => told.add(b'f', *from, *number, &to.to_be_bytes()),
        Line::Fault { node, fault } => return came_of(*node, *fault, told),
        Line::Crash { .. } => {}
        Line::Down { node } => told.add(b'd', *node, 0, &[]),
    }
    Came::Done
}

fn note_lines(trace: &Trace, told: &mut Notes) -> Came {
    for line in trace.lines.iter() {
        let came = note_line(line, told);
        if came != Came::Done {
            return came;
        }
    }
    Came::Done
}

/// What comes of a step that was played; a frame that isn't there reaches nobody.
fn outcome(trace: Result<Trace, PlayFault>, told: &mut Notes) -> Came {
    match trace {
        Ok(trace) => note_lines(&trace, told),
        Err(PlayFault::NoMemory) => Came::Spends,
        Err(PlayFault::Spent) => Came::Spent,
        Err(_) => Came::Done,
    }
}

fn tick() -> Event {
    let kind = EventKind::Tick;
    Event { at: 0, kind }
}

/// Whether the only line says that the node is down.
fn is_down(trace: &Trace, node: u16) -> bool {
    match trace.lines.as_slice() {
        [Line::Down { node: down }] => *down == node,
        _ => false,
    }
}

impl Played for Together {
    fn new(alloc: Global, run: &Run) -> Result<Together, Failure> {
        match tables(alloc, &run.homes) {
            Some(tables) => Ok(Together {
                alloc,
                tables,
                cluster: None,
            }),
            None => Err(Failure::Unready),
        }
    }

    fn open(&mut self) -> Came {
        let tables = mem::replace(&mut self.tables, Vec::new(self.alloc));
        match Cluster::new(self.alloc, tables) {
            Ok(cluster) => {
                self.cluster = Some(cluster);
                Came::Done
            }
            Err(PlayFault::NoMemory) => Came::Spends,
            Err(_) => Came::Spent,
        }
    }

    fn take(&mut self, step: &Step, told: &mut Notes) -> Came {
        let trace = play(&mut self.cluster, step);
        outcome(trace, told)
    }

    fn has_stopped(&mut self, node: u16) -> bool {
        let event = tick();
        let step = Step::Event { node, event };
        let is_down = match play(&mut self.cluster, &step) {
            Ok(trace) => is_down(&trace, node),
            Err(_) => false,
        };
        drop(step);
        is_down
    }

    fn crash(&mut self, node: u16) {
        let event = tick();
        let step = Step::CrashBefore { node, event };
        let _ = play(&mut self.cluster, &step);
        drop(step);
    }

    fn reopen(&mut self, node: u16, held: &mut Notes) -> Option<usize> {
        let step = Step::Restart { node };
        let played = play(&mut self.cluster, &step);
        drop(step);
        let Ok(trace) = played else {
            return None;
        };
        let is_quiet = trace.lines.is_empty();
        drop(trace);
        let (subscriptions, messages) = match &self.cluster {
            Some(cluster) => cluster.holdings(node)?,
            None => return None,
        };
        held.add(b's', node, subscriptions, &[]);
        held.add(b'm', node, messages, &[]);
        is_quiet.then_some(0)
    }
}
