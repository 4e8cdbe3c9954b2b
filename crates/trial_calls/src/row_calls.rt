//! Rows that are changed, and changes that are gathered.

use row_store::{Change, MemoryRows, Row, RowStore, gather, last_of_each};
use std::alloc::Global;
use trial_refusals::{Changing, Fault, Trial, try_changing};

/// The kind of the rows.
const KIND: u8 = 5;

fn put(alloc: Global, owner: &[u8], value: u8) -> Result<Change, Fault> {
    Ok(Change::Put(Row {
        kind: KIND,
        owner: Vec::from_slice(alloc, owner)?,
        place: Vec::new(alloc),
        value: Vec::from_slice(alloc, &[value])?,
    }))
}

fn remove(alloc: Global, owner: &[u8]) -> Result<Change, Fault> {
    let owner = Vec::from_slice(alloc, owner)?;
    Ok(Change::Remove(KIND, owner, Vec::new(alloc)))
}

/// Whether the row has this owner and value.
fn is_row(row: &Row, owner: &[u8], value: u8) -> bool {
    row.kind == KIND
        && row.owner.as_slice() == owner
        && row.place.is_empty()
        && row.value.as_slice() == [value].as_slice()
}

/// Whether the change takes `t` away.
fn is_removal(change: &Change) -> bool {
    match change {
        Change::Remove(KIND, owner, place) => {
            owner.as_slice() == b"t".as_slice() && place.is_empty()
        }
        _ => false,
    }
}

/// Changes that leave `t` out, and put `u`.
fn changes(alloc: Global) -> Result<Vec<Change>, Fault> {
    let mut changes = Vec::new(alloc);
    let first = put(alloc, b"t", 2)?;
    changes.push(first)?;
    let second = put(alloc, b"u", 3)?;
    changes.push(second)?;
    let third = remove(alloc, b"t")?;
    changes.push(third)?;
    Ok(changes)
}

/// A store of rows is changed that has `t`.
#[derive(Drop)]
struct Application {
    rows: MemoryRows,
    changes: Vec<Change>,
}

impl Application {
    /// Whether the only row has this owner and value.
    fn has(&mut self, owner: &[u8], value: u8) -> bool {
        let Ok(rows) = self.rows.load() else {
            return false;
        };
        match rows.as_slice() {
            [row] => is_row(row, owner, value),
            _ => false,
        }
    }
}

impl Changing for Application {
    fn make(&mut self, _alloc: Global) -> Result<(), Fault> {
        self.rows.apply(&self.changes)?;
        Ok(())
    }

    fn is_as_before(&mut self) -> bool {
        self.has(b"t", 1)
    }

    fn is_made(&mut self) -> bool {
        self.has(b"u", 3)
    }
}

/// A store of rows with `t`.
fn rows(alloc: Global) -> Result<MemoryRows, Fault> {
    let mut rows = MemoryRows::new(alloc);
    let mut there = Vec::new(alloc);
    let row = put(alloc, b"t", 1)?;
    there.push(row)?;
    rows.apply(&there)?;
    Ok(rows)
}

/// Tries to change a store of rows in memory.
pub fn try_apply_rows(alloc: Global, number: usize) -> Trial {
    let rows = rows(alloc)?;
    let changes = changes(alloc)?;
    try_changing(alloc, number, &mut Application { rows, changes })
}

/// Changes are gathered.
#[derive(Drop)]
struct Gathering {
    /// Whether only the last ones are asked for.
    is_last_of_each: bool,
    /// The changes, as often as they may be needed.
    stock: Vec<Vec<Change>>,
    gathered: Vec<Change>,
}

impl Changing for Gathering {
    fn make(&mut self, alloc: Global) -> Result<(), Fault> {
        let changes = self.stock.pop().ok_or(Fault::Other)?;
        self.gathered = if self.is_last_of_each {
            last_of_each(alloc, changes)?
        } else {
            gather(alloc, changes, KIND)?
        };
        Ok(())
    }

    fn is_as_before(&mut self) -> bool {
        self.gathered.is_empty()
    }

    fn is_made(&mut self) -> bool {
        match self.gathered.as_slice() {
            [gone, Change::Put(row)] if self.is_last_of_each => {
                is_removal(gone) && is_row(row, b"u", 3)
            }
            // The first change of each says what was there, so `u` hasn't changed.
            [gone] => is_removal(gone) && !self.is_last_of_each,
            _ => false,
        }
    }
}

/// The changes twice.
fn stock(alloc: Global) -> Result<Vec<Vec<Change>>, Fault> {
    let mut stock = Vec::new(alloc);
    for _ in 0..2 {
        let changes = changes(alloc)?;
        stock.push(changes)?;
    }
    Ok(stock)
}

fn try_gathering(alloc: Global, number: usize, is_last_of_each: bool) -> Trial {
    let stock = stock(alloc)?;
    let gathered = Vec::new(alloc);
    try_changing(
        alloc,
        number,
        &mut Gathering {
            is_last_of_each,
            stock,
            gathered,
        },
    )
}

/// Tries to gather the last change of each row.
pub fn try_last_of_each(alloc: Global, number: usize) -> Trial {
    try_gathering(alloc, number, true)
}

/// Tries to gather the changes of each row.
pub fn try_gather(alloc: Global, number: usize) -> Trial {
    try_gathering(alloc, number, false)
}
