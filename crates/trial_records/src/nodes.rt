//! Nodes with their rows, and the frames that they have given out.

use crate::failure::Failure;
use crate::notes::Notes;
use crate::run::Run;
use crate::trial::{Came, Played, came_of, wants_memory};
use broker_node::{Event, EventKind, Frame, Output};
use cluster_play::Step;
use home_table::HomeTable;
use node_keeper::{Keeper, KeeperFault};
use row_store::{MemoryRows, Row, RowStore};
use std::alloc::Global;
use std::mem;

/// A store of rows that is made without rows, and opened again where a node is.
pub trait Rows: RowStore {
    /// No rows; none where they can't be had.
    fn none(alloc: Global) -> Option<Self>;

    /// Opens the store again, from what it has stored. Whether it is open.
    fn open_again(&mut self) -> bool;
}

impl Rows for MemoryRows {
    fn none(alloc: Global) -> Option<MemoryRows> {
        Some(MemoryRows::new(alloc))
    }

    fn open_again(&mut self) -> bool {
        true
    }
}

/// The place of a node.
#[derive(Drop)]
enum Place<R> {
    Empty,
    /// The rows of a node that isn't opened.
    Rows(R),
    Node(Keeper<R>),
}

/// A frame as the event that it is where it comes.
#[derive(Drop)]
struct Sent {
    to: u16,
    event: Event,
}

/// Nodes with their rows, and the frames that they have given out.
#[derive(Drop)]
pub struct Nodes<R> {
    alloc: Global,
    homes: HomeTable,
    places: Vec<Place<R>>,
    frames: Vec<Sent>,
    goes_on: bool,
}

/// More frames than a run has.
const FRAMES: usize = 256;

/// Opens a node from these rows.
fn opened<R: RowStore>(
    alloc: Global,
    rows: R,
    homes: &HomeTable,
    id: u16,
) -> Result<Keeper<R>, (KeeperFault, R)> {
    let Ok(homes) = homes.copy() else {
        return Err((KeeperFault::NoMemory, rows));
    };
    if id >= homes.nodes() {
        return Err((KeeperFault::Stopped, rows));
    }
    Keeper::open(alloc, rows, homes, id)
}

/// Opens the node of a place from its rows; a node stays as it is. The fault, where it isn't opened.
fn open_place<R: RowStore + Drop>(
    alloc: Global,
    place: &mut Place<R>,
    homes: &HomeTable,
    id: u16,
) -> Option<KeeperFault> {
    match mem::replace(place, Place::Empty) {
        Place::Rows(rows) => match opened(alloc, rows, homes, id) {
            Ok(keeper) => {
                *place = Place::Node(keeper);
                None
            }
            Err((fault, rows)) => {
                *place = Place::Rows(rows);
                Some(fault)
            }
        },
        other => {
            *place = other;
            None
        }
    }
}

/// Of a node its rows stay.
fn lay_down<R: RowStore + Drop>(place: &mut Place<R>) {
    match mem::replace(place, Place::Empty) {
        Place::Node(keeper) => *place = Place::Rows(keeper.into_rows()),
        other => *place = other,
    }
}

/// Opens the store again whose rows are at a place. Whether it is open.
fn open_again<R: Rows>(place: &mut Place<R>) -> bool {
    match place {
        Place::Rows(rows) => rows.open_again(),
        _ => false,
    }
}

fn note_row(row: &Row, node: u16, held: &mut Notes) {
    held.add(row.kind, node, 0, row.owner.as_slice());
    held.add(row.kind, node, 1, row.place.as_slice());
    held.add(row.kind, node, 2, row.value.as_slice());
}

/// Notes the rows of a node that isn't opened. How many they are.
fn note_rows<R: RowStore>(place: &mut Place<R>, node: u16, held: &mut Notes) -> Option<usize> {
    let Place::Rows(rows) = place else {
        return None;
    };
    let rows = rows.load().ok()?;
    for row in rows.iter() {
        note_row(row, node, held);
    }
    Some(rows.len())
}

/// Notes how many subscriptions and retained messages a node has.
fn note_holdings<R: RowStore>(place: &Place<R>, node: u16, held: &mut Notes) {
    if let Place::Node(keeper) = place {
        let store = keeper.node().store();
        let subscriptions = store.subscriptions().live_count() as u64;
        let messages = store.retained().messages() as u64;
        held.add(b's', node, subscriptions, &[]);
        held.add(b'm', node, messages, &[]);
    }
}

/// Hands a node an event.
fn handled<R: RowStore>(
    places: &mut [Place<R>],
    node: u16,
    event: &Event,
    goes_on: bool,
) -> Result<Vec<Output>, KeeperFault> {
    let Some(Place::Node(keeper)) = places.get_mut(node as usize) else {
        return Err(KeeperFault::Stopped);
    };
    let answer = keeper.handle(event);
    if goes_on && answer.is_err() {
        let _ = keeper.reopen();
    }
    answer
}

fn keep(frames: &mut Vec<Sent>, frame: Frame, told: &mut Notes) {
    let Frame { to, bytes, .. } = frame;
    let kind = EventKind::Frame { bytes };
    let event = Event { at: 0, kind };
    if frames.push(Sent { to, event }).is_err() {
        told.spoil();
    }
}

/// Notes what a node gives out, and keeps a frame.
fn give_out(frames: &mut Vec<Sent>, node: u16, output: Output, told: &mut Notes) {
    match output {
        Output::Send { connection, bytes } => told.add(b'b', node, connection, bytes.as_slice()),
        Output::Close { connection } => told.add(b'c', node, connection, &[]),
        Output::Frame { frame } => {
            told.add(b'f', node, frame.to as u64, frame.bytes.as_slice());
            keep(frames, frame, told);
        }
    }
}

/// What the answer of a node comes to.
fn answered(
    frames: &mut Vec<Sent>,
    node: u16,
    answer: Result<Vec<Output>, KeeperFault>,
    told: &mut Notes,
) -> Came {
    match answer {
        Ok(outputs) => {
            for output in outputs {
                give_out(frames, node, output, told);
            }
            Came::Done
        }
        Err(fault) => came_of(node, fault, told),
    }
}

/// A frame of this number comes; one that isn't there, since a node that was opened again gives out others, reaches nobody.
fn deliver<R: RowStore>(nodes: &mut Nodes<R>, number: u64, at: u64, told: &mut Notes) -> Came {
    let place = number.wrapping_sub(1) as usize;
    let Some(sent) = nodes.frames.get_mut(place) else {
        return Came::Done;
    };
    sent.event.at = at;
    let node = sent.to;
    let answer = handled(&mut nodes.places, node, &sent.event, nodes.goes_on);
    answered(&mut nodes.frames, node, answer, told)
}

/// An event comes.
fn happen<R: RowStore>(nodes: &mut Nodes<R>, node: u16, event: &Event, told: &mut Notes) -> Came {
    let answer = handled(&mut nodes.places, node, event, nodes.goes_on);
    answered(&mut nodes.frames, node, answer, told)
}

fn crash<R: RowStore>(nodes: &mut Nodes<R>, node: u16) {
    if let Some(Place::Node(keeper)) = nodes.places.get_mut(node as usize) {
        keeper.crash();
    }
}

/// An event comes, and a crash takes the node before anything is given out.
fn crash_after<R: RowStore>(
    nodes: &mut Nodes<R>,
    node: u16,
    event: &Event,
    told: &mut Notes,
) -> Came {
    match handled(&mut nodes.places, node, event, nodes.goes_on) {
        Ok(_lost) => {
            crash(nodes, node);
            Came::Done
        }
        Err(fault) => came_of(node, fault, told),
    }
}

fn restart<R: RowStore>(nodes: &mut Nodes<R>, node: u16, told: &mut Notes) -> Came {
    let Some(Place::Node(keeper)) = nodes.places.get_mut(node as usize) else {
        return Came::Done;
    };
    match keeper.reopen() {
        Ok(()) => Came::Done,
        Err(fault) => came_of(node, fault, told),
    }
}

fn places<R: Rows + Drop>(alloc: Global, nodes: u16) -> Option<Vec<Place<R>>> {
    let mut places = Vec::new(alloc);
    for _ in 0..nodes {
        let rows = R::none(alloc)?;
        places.push(Place::Rows(rows)).ok()?;
    }
    Some(places)
}

impl<R: Rows + Drop> Nodes<R> {
    /// The nodes of a run, which aren't opened.
    fn make(alloc: Global, run: &Run) -> Option<Nodes<R>> {
        let homes = run.homes.copy().ok()?;
        let places = places(alloc, run.homes.nodes())?;
        let frames = Vec::with_capacity(alloc, FRAMES).ok()?;
        Some(Nodes {
            alloc,
            homes,
            places,
            frames,
            goes_on: run.goes_on,
        })
    }

    /// The fault of the first node that isn't opened.
    fn open_all(&mut self) -> Option<(u16, KeeperFault)> {
        for node in 0..self.homes.nodes() {
            let place = self.places.get_mut(node as usize)?;
            if let Some(fault) = open_place(self.alloc, place, &self.homes, node) {
                return Some((node, fault));
            }
        }
        None
    }
}

impl<R: Rows + Drop> Played for Nodes<R> {
    fn new(alloc: Global, run: &Run) -> Result<Nodes<R>, Failure> {
        match Nodes::make(alloc, run) {
            Some(nodes) => Ok(nodes),
            None => Err(Failure::Unready),
        }
    }

    fn open(&mut self) -> Came {
        match self.open_all() {
            None => Came::Done,
            Some((node, fault)) if wants_memory(fault) => Came::Refused { node },
            Some(_) => Came::Spent,
        }
    }

    fn take(&mut self, step: &Step, told: &mut Notes) -> Came {
        match step {
            Step::Event { node, event } => happen(self, *node, event, told),
            Step::Deliver { frame, at } => deliver(self, *frame, *at, told),
            Step::CrashBefore { node, event: _ } => {
                crash(self, *node);
                Came::Done
            }
            Step::CrashAfter { node, event } => crash_after(self, *node, event, told),
            Step::Restart { node } => restart(self, *node, told),
        }
    }

    fn has_stopped(&mut self, node: u16) -> bool {
        let kind = EventKind::Tick;
        let event = Event { at: 0, kind };
        let answer = handled(&mut self.places, node, &event, false);
        drop(event);
        let is_up = match self.places.get(node as usize) {
            Some(Place::Node(keeper)) => keeper.is_up(),
            _ => true,
        };
        !is_up && answer.err() == Some(KeeperFault::Stopped)
    }

    fn crash(&mut self, node: u16) {
        crash(self, node);
    }

    fn reopen(&mut self, node: u16, held: &mut Notes) -> Option<usize> {
        let place = self.places.get_mut(node as usize)?;
        lay_down(place);
        if !open_again(place) {
            return None;
        }
        let count = note_rows(place, node, held)?;
        if open_place(self.alloc, place, &self.homes, node).is_some() {
            return None;
        }
        note_holdings(place, node, held);
        Some(count)
    }
}
