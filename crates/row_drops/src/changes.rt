//! The changes that make rows those of a node without what is dropped.

ghost use Rattle.std.specs.Prelude.{◌≡◌, ◌++◌, [], map, IfOk, OnOk};
ghost use Rattle.bridge_lanes.specs.Changes.{left_of};
ghost use Rattle.row_store.specs.Rows.{entry_of};
ghost use Rattle.row_drops.specs.Dropping.{AreDropped, IsInside, edit};
ghost use Rattle.row_drops.specs.Editing.{edits, with_left};

use crate::editing::edit;
use crate::target::Target;
use mqtt_fields::NoMemory;
use node_rows::{are_older, open};
use row_store::{Change, Row, RowFault};
use std::alloc::Global;

/// A change for a row, unless it stays.
fn push_edit(
    alloc: Global,
    target: &Target,
    row: &Row,
    changes: &mut Vec<Change>,
) -> Result<(), NoMemory>
    ensures { OnOk result (map left_of changes.new.items ≡ map left_of changes.old.items
        ++ with_left (entry_of row.now).0 (edit target.now (entry_of row.now).0 (entry_of row.now).1) []) }
{
    match edit(alloc, target, row)? {
        Some(change) => {
            changes.push(change)?;
            Ok(())
        }
        None => Ok(()),
    }
}

/// A change for each row that doesn't stay.
fn edit_all(alloc: Global, target: &Target, rows: &[Row]) -> Result<Vec<Change>, NoMemory>
    ensures { IfOk result (λ changes. map left_of changes.items ≡ edits (edit target.now) (map entry_of rows.now)) }
{
    let mut changes = Vec::new(alloc);
    for row in rows {
        push_edit(alloc, target, row, &mut changes)?;
    }
    Ok(changes)
}

/// The changes of the rows of node `id` of a cluster of `nodes` nodes, which stand in the order of their keys, that make them those of this node without what is
/// dropped; all else stays.
///
/// BadRow where no such node has just these rows, where there are none, and where they are of an older version.
pub fn changes_of(
    alloc: Global,
    rows: &[Row],
    id: u16,
    nodes: u16,
    target: &Target,
) -> Result<Vec<Change>, RowFault>
    requires { IsInside target.now nodes }
    ensures { IfOk result (λ changes. AreDropped rows.now id nodes target.now changes.items) }
{
    if rows.is_empty() {
        return Err(RowFault::BadRow);
    }
    if are_older(rows) {
        return Err(RowFault::BadRow);
    }
    open(alloc, rows, id, nodes)?;
    match edit_all(alloc, target, rows) {
        Ok(changes) => Ok(changes),
        Err(_) => Err(RowFault::NoMemory),
    }
}
