//! What a node's rows hold, in figures.

ghost use Rattle.std.specs.Prelude.{◌≡◌, ◌≢◌, ◌<◌, ◌^◌, length, count_by, map as map_list, slice_get, Some, IfOk, IfErr, IsErrOf, OnOk};
ghost use Rattle.row_store.specs.Rows.{entry_of};
ghost use Rattle.causal_context.specs.Dots.{greatest_of};
ghost use Rattle.node_rows.specs.Reading.{SayNothing};
ghost use Rattle.cli_reports.specs.Figures.{AreFigures, AreGreatest, AreWaiting, IsReported, is_for, is_message_for};
ghost use Rattle.cli_reports.specs.Flaws.{flaw_of};
ghost use Rattle.cli_reports.specs.declared.flaw.Flaw.TheVariants.{NoMemory as no_memory};

use crate::flaw::{Flaw, flaw_of};
use causal_context::Context;
use mqtt_fields::NoMemory;
use node_rows::{Opened, open};
use replica_store::newest_of;
use row_store::kinds::MESSAGE;
use row_store::{Row, RowFault};
use std::alloc::Global;

/// What a node's rows hold.
#[derive(Debug, PartialEq, Eq, Drop)]
pub struct Figures {
    /// How many clients have a session.
    pub sessions: u64,
    /// How many subscriptions stand.
    pub subscriptions: u64,
    /// How many topics have a message.
    pub retained: u64,
    /// How many messages wait for each node, by the numbers of the nodes.
    pub waiting: Vec<u64>,
    /// The number of the last operation of each node that was taken, by the numbers of the nodes.
    pub taken: Vec<u64>,
    /// The greatest version of the table of homes under which the node made a subscription that stands; 0 where it made none.
    pub newest: u32,
}

/// Whether two bytes are the number of a node.
fn is_for(owner: &[u8], node: u16) -> bool
    ensures { result ≡ is_for node owner.now }
{
    match owner {
        [high, low] => u32::from(*high) * 256 + u32::from(*low) == u32::from(node),
        _ => false,
    }
}

/// Whether the row is a message that waits for the node.
fn is_message_for(row: &Row, node: u16) -> bool
    ensures { result ≡ is_message_for node (entry_of row.now) }
{
    row.kind == MESSAGE && is_for(&row.owner, node)
}

/// How many of the rows are messages that wait for the node.
fn waiting_for(rows: &[Row], node: u16) -> u64
    ensures { result ≡ count_by (λ row. is_message_for node (entry_of row)) rows.now }
{
    rows.iter().filter(|row| is_message_for(row, node)).count() as u64
}

/// The same of each of so many nodes.
fn waiting_in(alloc: Global, rows: &[Row], nodes: u16) -> Result<Vec<u64>, NoMemory>
    ensures { IfOk result (λ counts. AreWaiting rows.now nodes counts.items) }
{
    let mut counts = Vec::new(alloc);
    for node in 0..nodes {
        counts.push(waiting_for(rows, node))?;
    }
    Ok(counts)
}

/// The greatest number of each of so many nodes among the dots.
fn greatest_in(alloc: Global, taken: &Context, nodes: u16) -> Result<Vec<u64>, NoMemory>
    ensures { IfOk result (λ numbers. AreGreatest taken.now nodes numbers.items) }
{
    let mut numbers = Vec::new(alloc);
    for node in 0..nodes {
        numbers.push(taken.greatest(node))?;
    }
    Ok(numbers)
}

/// The figures of what was opened from rows.
fn figures_in(
    alloc: Global,
    opened: &Opened,
    rows: &[Row],
    id: u16,
    nodes: u16,
) -> Result<Figures, NoMemory>
    ensures { IfOk result (AreFigures rows.now id nodes opened.now) }
{
    let store = &opened.store;
    Ok(Figures {
        sessions: opened.sessions.count() as u64,
        subscriptions: store.subscriptions().live_count() as u64,
        retained: store.retained().messages() as u64,
        waiting: waiting_in(alloc, rows, nodes)?,
        taken: greatest_in(alloc, store.taken(), nodes)?,
        newest: newest_of(store, id),
    })
}

/// What the rows of node `id` of a cluster of `nodes` nodes hold, in the order of their keys. A flaw other than want of memory
/// exactly where no such node has just these rows, and it tells what is wrong with the mark that they begin with, or else that what
/// follows is.
pub fn figures_of(alloc: Global, rows: &[Row], id: u16, nodes: u16) -> Result<Figures, Flaw>
    ensures figures { IfOk result (IsReported rows.now id nodes) }
    ensures bad { IfErr result (λ flaw. flaw ≢ no_memory → SayNothing rows.now id nodes) }
    ensures flaw { IfErr result (λ flaw. flaw ≢ no_memory → flaw ≡ flaw_of id (map_list entry_of rows.now)) }
{
    let opened = match open(alloc, rows, id, nodes) {
        Ok(opened) => opened,
        Err(RowFault::BadRow) => return Err(flaw_of(rows, id)),
        Err(_) => return Err(Flaw::NoMemory),
    };
    match figures_in(alloc, &opened, rows, id, nodes) {
        Ok(figures) => Ok(figures),
        Err(_) => Err(Flaw::NoMemory),
    }
}
