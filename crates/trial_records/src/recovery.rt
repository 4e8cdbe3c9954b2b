//! What comes again at a node that was opened again: it starts where it had, and its clients connect.

use crate::failure::{Failure, ensure};
use crate::notes::Notes;
use crate::run::Run;
use crate::trial::{Came, Played};
use broker_node::{Event, EventKind};
use cluster_play::Step;
use mqtt_packets::Bytes;
use std::alloc::Global;

/// What a step is for a node.
#[derive(Clone, Copy, PartialEq, Eq)]
enum Part {
    /// It starts.
    Start,
    Open { connection: u64, at: u64 },
    Close { connection: u64 },
    /// It goes down, or is opened again.
    Fall,
    /// Anything else.
    Other,
}

fn part_of_event(event: &Event) -> Part {
    let at = event.at;
    match &event.kind {
        EventKind::Started => Part::Start,
        EventKind::Opened { connection } => Part::Open {
            connection: *connection,
            at,
        },
        EventKind::Closed { connection } => Part::Close {
            connection: *connection,
        },
        _ => Part::Other,
    }
}

/// What a step is for this node.
fn part_of(step: &Step, node: u16) -> Part {
    match step {
        Step::Event { node: of, event } if *of == node => part_of_event(event),
        Step::CrashBefore { node: of, event: _ }
        | Step::CrashAfter { node: of, event: _ }
        | Step::Restart { node: of }
            if *of == node => { Part::Fall }
        _ => Part::Other,
    }
}

/// What comes of a client by a step.
fn piece_of(step: &Step, node: u16, client: u64) -> &[u8] {
    if let Step::Event { node: of, event } = step
        && *of == node
        && let EventKind::Piece { connection, bytes } = &event.kind
        && *connection == client
    {
        return bytes.as_slice();
    }
    &[]
}

/// The first of the steps since which the node hasn't gone down.
fn since(steps: &[Step], node: u16) -> usize {
    let mut first = 0;
    for (at, step) in steps.iter().enumerate() {
        if part_of(step, node) == Part::Fall {
            first = at.saturating_add(1);
        }
    }
    first
}

/// Whether a connection is closed in one of these steps.
fn is_closed(steps: &[Step], node: u16, connection: u64) -> bool {
    for step in steps {
        if part_of(step, node) == (Part::Close { connection }) {
            return true;
        }
    }
    false
}

/// The first packet of those that come on a connection in these steps, as far as it comes. Its length has one byte.
fn first_packet(
    alloc: Global,
    steps: &[Step],
    node: u16,
    connection: u64,
) -> Result<Vec<u8>, Failure> {
    let mut bytes = Vec::new(alloc);
    for step in steps {
        if bytes
            .extend_from_slice(piece_of(step, node, connection))
            .is_err()
        {
            return Err(Failure::Unready);
        }
    }
    let length = bytes.get(1).copied().unwrap_or(0);
    bytes.truncate(2 + length as usize);
    Ok(bytes)
}

fn take<P: Played>(played: &mut P, step: &Step, told: &mut Notes) -> Result<(), Failure> {
    let came = played.take(step, told);
    ensure(came == Came::Done, Failure::Onward)
}

/// These bytes come on a connection.
fn send<P: Played>(
    played: &mut P,
    (node, connection, at): (u16, u64, u64),
    bytes: Vec<u8>,
    told: &mut Notes,
) -> Result<(), Failure> {
    if bytes.is_empty() {
        return Ok(());
    }
    let bytes = Bytes::new(bytes);
    let kind = EventKind::Piece { connection, bytes };
    let event = Event { at, kind };
    let step = Step::Event { node, event };
    let taken = take(played, &step, told);
    drop(step);
    taken
}

/// What is played again of the first of these steps, after which the node goes down.
fn repeat<P: Played>(
    alloc: Global,
    played: &mut P,
    (step, later): (&Step, &[Step]),
    node: u16,
    told: &mut Notes,
) -> Result<(), Failure> {
    match part_of(step, node) {
        Part::Start => take(played, step, told),
        Part::Open { connection, at } if !is_closed(later, node, connection) => {
            take(played, step, told)?;
            let bytes = first_packet(alloc, later, node, connection)?;
            send(played, (node, connection, at), bytes, told)
        }
        _ => Ok(()),
    }
}

/// The node, which was opened again where it went down before a step, starts where it had, and each client whose connection
/// the run hasn't closed connects again.
pub fn recover<P: Played>(
    alloc: Global,
    played: &mut P,
    run: &Run,
    (at, node): (usize, u16),
    told: &mut Notes,
) -> Result<(), Failure> {
    let steps = &run.steps[..at.min(run.steps.len())];
    for place in since(steps, node)..steps.len() {
        repeat(
            alloc,
            played,
            (&steps[place], &steps[place + 1..]),
            node,
            told,
        )?;
    }
    Ok(())
}
