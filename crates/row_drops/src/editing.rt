//! What is left of a row.

ghost use Rattle.std.specs.Prelude.{◌≡◌, drop, Some, None, option_map, IfOk};
ghost use Rattle.bridge_lanes.specs.Changes.{left_of};
ghost use Rattle.bridge_lanes.specs.Rows.{owner};
ghost use Rattle.row_store.specs.Rows.{entry_of};
ghost use Rattle.row_drops.specs.Dropping.{edit, ended_value, is_waiting, lane_edit, nobody_value, queue_edit, session_edit};

use crate::target::Target;
use mqtt_fields::{NoMemory, put_u16};
use row_store::kinds::{COPY, MESSAGE, SESSION};
use row_store::{Change, Row};
use std::alloc::Global;

/// How a session's own row begins whose client left for good at the moment 0.
const ENDED: [u8; 13] = [0, 0, 0, 0, 1, 0, 0, 0, 0, 0, 0, 0, 0];

/// A message to another node that is for nobody there.
const NOBODY: [u8; 16] = [0, 0, 0, 0, 1, 45, 0, 0, 0, 0, 0, 0, 0, 0, 0, 0];

/// Whether a copy's row says that it waits.
fn is_waiting(value: &[u8]) -> bool
    ensures { result ≡ is_waiting value.now }
{
    match value {
        [_, _, stage, ..] => *stage == 0,
        _ => false,
    }
}

/// What follows in the value of a session's own row.
fn rest_of(value: &[u8]) -> &[u8]
    ensures { result.now ≡ drop 13 value.now }
{
    if value.len() > ENDED.len() {
        &value[ENDED.len()..]
    } else {
        &[]
    }
}

/// The value of a session's own row, where the session is over.
fn ended_value(alloc: Global, value: &[u8]) -> Result<Vec<u8>, NoMemory>
    ensures { IfOk result (λ ended. ended.items ≡ ended_value value.now) }
{
    let mut ended = Vec::from_slice(alloc, &ENDED)?;
    ended.extend_from_slice(rest_of(value))?;
    Ok(ended)
}

/// The removal of a row.
fn removal(row: &Row) -> Result<Change, NoMemory>
    ensures { IfOk result (λ change. left_of change ≡ ((entry_of row.now).0, None)) }
{
    let owner = row.owner.clone()?;
    let place = row.place.clone()?;
    Ok(Change::Remove(row.kind, owner, place))
}

/// A row with another value.
fn put(row: &Row, value: Vec<u8>) -> Result<Change, NoMemory>
    ensures { IfOk result (λ change. left_of change ≡ ((entry_of row.now).0, Some value.items)) }
{
    Ok(Change::Put(Row {
        kind: row.kind,
        owner: row.owner.clone()?,
        place: row.place.clone()?,
        value,
    }))
}

/// What becomes of a row without the session of a client.
fn session_edit(alloc: Global, client: &str, row: &Row) -> Result<Option<Change>, NoMemory>
    ensures { IfOk result (λ change. option_map left_of change ≡ option_map (λ left. ((entry_of row.now).0, left)) (session_edit client.now (entry_of row.now).0 (entry_of row.now).1)) }
{
    if row.kind == COPY && row.owner.as_slice() == client.as_bytes() {
        Ok(Some(removal(row)?))
    } else if row.kind == SESSION && row.owner.as_slice() == client.as_bytes() {
        let value = ended_value(alloc, &row.value)?;
        Ok(Some(put(row, value)?))
    } else {
        Ok(None)
    }
}

/// What becomes of a row without the queue of a client.
fn queue_edit(client: &str, row: &Row) -> Result<Option<Change>, NoMemory>
    ensures { IfOk result (λ change. option_map left_of change ≡ option_map (λ left. ((entry_of row.now).0, left)) (queue_edit client.now (entry_of row.now).0 (entry_of row.now).1)) }
{
    if row.kind == COPY && row.owner.as_slice() == client.as_bytes() && is_waiting(&row.value) {
        Ok(Some(removal(row)?))
    } else {
        Ok(None)
    }
}

/// What becomes of a row without what waits for a node.
fn lane_edit(alloc: Global, node: u16, row: &Row) -> Result<Option<Change>, NoMemory>
    ensures { IfOk result (λ change. option_map left_of change ≡ option_map (λ left. ((entry_of row.now).0, left)) (lane_edit node (entry_of row.now).0 (entry_of row.now).1)) }
{
    let mut owner = Vec::new(alloc);
    put_u16(node, &mut owner)?;
    if row.kind == MESSAGE && row.owner == owner {
        let value = Vec::from_slice(alloc, &NOBODY)?;
        Ok(Some(put(row, value)?))
    } else {
        Ok(None)
    }
}

/// What becomes of a row. None: it stays.
pub(crate) fn edit(alloc: Global, target: &Target, row: &Row) -> Result<Option<Change>, NoMemory>
    ensures { IfOk result (λ change. option_map left_of change ≡ option_map (λ left. ((entry_of row.now).0, left)) (edit target.now (entry_of row.now).0 (entry_of row.now).1)) }
{
    match target {
        Target::Session(client) => session_edit(alloc, client.as_str(), row),
        Target::Queue(client) => queue_edit(client.as_str(), row),
        Target::Lane(node) => lane_edit(alloc, *node, row),
    }
}
