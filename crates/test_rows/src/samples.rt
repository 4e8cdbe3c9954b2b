//! Rows and changes that the tests make, each in place of a line of a table.

use row_store::{Change, Row, RowFault, RowStore};
use std::alloc::Global;
use std::process::Abort;

/// A kind, an owner and the one byte of a value, or no value where the row is removed. The place is a number in
/// kind 3, and else empty.
pub type Sample = (u8, &'static str, Option<u8>);

fn place_of(kind: u8) -> &'static [u8] {
    if kind == 3 {
        b"\x00\x00\x00\x00\x00\x00\x00\x01"
    } else {
        b""
    }
}

fn change(rt: &impl Abort, alloc: Global, sample: &Sample) -> Change {
    let owner = Vec::from_slice(alloc, sample.1.as_bytes()).expect(rt, "memory");
    let place = Vec::from_slice(alloc, place_of(sample.0)).expect(rt, "memory");
    match sample.2 {
        Some(value) => {
            let value = Vec::from_slice(alloc, &[value]).expect(rt, "memory");
            Change::Put(Row {
                kind: sample.0,
                owner,
                place,
                value,
            })
        }
        None => Change::Remove(sample.0, owner, place),
    }
}

pub fn changes(rt: &impl Abort, alloc: Global, samples: &[Sample]) -> Vec<Change> {
    let mut changes = Vec::new(alloc);
    for sample in samples {
        changes
            .push(change(rt, alloc, sample))
            .ok()
            .expect(rt, "memory");
    }
    changes
}

/// Whether the row is that of the line.
fn is(row: &Row, sample: &Sample) -> bool {
    let has_value = match (row.value.as_slice(), sample.2) {
        ([value], Some(want)) => *value == want,
        _ => false,
    };
    row.kind == sample.0
        && row.owner.as_slice() == sample.1.as_bytes()
        && row.place.as_slice() == place_of(row.kind)
        && has_value
}

fn is_change(change: &Change, sample: &Sample) -> bool {
    match change {
        Change::Put(row) => is(row, sample),
        Change::Remove(kind, owner, place) => {
            *kind == sample.0
                && owner.as_slice() == sample.1.as_bytes()
                && place.as_slice() == place_of(*kind)
                && sample.2.is_none()
        }
    }
}

/// Whether these are the changes of the lines.
pub fn are_changes(changes: &[Change], samples: &[Sample]) -> bool {
    for (change, sample) in changes.iter().zip(samples) {
        if !is_change(change, sample) {
            return false;
        }
    }
    changes.len() == samples.len()
}

fn are(rows: &[Row], samples: &[Sample]) -> bool {
    for (row, sample) in rows.iter().zip(samples) {
        if !is(row, sample) {
            return false;
        }
    }
    rows.len() == samples.len()
}

// These have no clause, so that the proof of a test doesn't carry the content after each call.
pub fn apply<R: RowStore>(
    rt: &impl Abort,
    alloc: Global,
    rows: &mut R,
    samples: &[Sample],
) -> Result<(), RowFault> {
    let changes = changes(rt, alloc, samples);
    let applied = rows.apply(&changes);
    drop(changes);
    applied
}

/// Whether the rows are those of the lines.
pub fn holds<R: RowStore>(rows: &mut R, samples: &[Sample]) -> Result<bool, RowFault> {
    match rows.load() {
        Ok(found) => {
            let holds = are(&found, samples);
            drop(found);
            Ok(holds)
        }
        Err(fault) => Err(fault),
    }
}
