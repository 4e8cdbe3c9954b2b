//! Rows in memory, in the order of their keys.

ghost use Rattle.std.specs.Prelude.{◌≡◌, ℕ, ⊤, [], ◌∷◌, map, OnOk, IfOk, IsSome};
ghost use Rattle.std.specs.FinMap.{empty, entries};
ghost use Rattle.row_store.specs.Rows.{Content, Key, after_all, entry_of};
ghost use Rattle.row_store.specs.Cells.{plain_key, cell_at, shown, after_step, after_steps, IsReady, AreReady};

use crate::row::{Change, Row};
use crate::store::{RowFault, RowStore};
use std::alloc::{AllocError, Global};
use std::collections::BTreeMap;
use std::marker::Model;

/// The key of a row. Its derived order is that of the rows.
#[derive(Debug, PartialEq, Eq, PartialOrd, Ord, Drop)]
pub struct RowKey {
    pub kind: u8,
    pub owner: Vec<u8>,
    pub place: Vec<u8>,
}

/// A place for a row, which may be vacant.
type Cells = BTreeMap<RowKey, Option<Vec<u8>>>;

/// A change with memory of its own: the value that is put, or none.
#[derive(Debug, Drop)]
pub struct Step {
    pub key: RowKey,
    pub value: Option<Vec<u8>>,
}

fn own_key(alloc: Global, kind: u8, owner: &[u8], place: &[u8]) -> Result<RowKey, AllocError>
    ensures { IfOk result (λ key. plain_key key ≡ (kind, (owner.now, place.now))) }
{
    Ok(RowKey {
        kind,
        owner: Vec::from_slice(alloc, owner)?,
        place: Vec::from_slice(alloc, place)?,
    })
}

fn step_of(alloc: Global, change: &Change) -> Result<Step, AllocError>
    ensures { IfOk result (λ step. (c : Content) → after_step c step ≡ after_all c (change.now ∷ [])) }
{
    match change {
        Change::Put(row) => Ok(Step {
            key: own_key(alloc, row.kind, &row.owner, &row.place)?,
            value: Some(Vec::from_slice(alloc, &row.value)?),
        }),
        Change::Remove(kind, owner, place) => Ok(Step {
            key: own_key(alloc, *kind, owner, place)?,
            value: None,
        }),
    }
}

/// Copies the changes.
fn plan(alloc: Global, changes: &[Change]) -> Result<Vec<Step>, AllocError>
    ensures { IfOk result (λ steps. (c : Content) → after_steps c steps.items ≡ after_all c changes.now) }
{
    let mut steps = Vec::new(alloc);
    for change in changes {
        steps.push(step_of(alloc, change)?)?;
    }
    Ok(steps)
}

/// Makes a vacant place where there is none.
fn make_place(alloc: Global, cells: &mut Cells, key: &RowKey) -> Result<(), AllocError>
    ensures same { shown cells.new.entries ≡ shown cells.old.entries }
    ensures keeps { (q : Key) → IsSome (cell_at cells.old.entries q) → IsSome (cell_at cells.new.entries q) }
    ensures ready { OnOk result (IsSome (cell_at cells.new.entries (plain_key key.now))) }
{
    if !cells.contains_key(key) {
        let own = own_key(alloc, key.kind, &key.owner, &key.place)?;
        cells.insert(own, None)?;
    }
    Ok(())
}

/// Makes a place for each value. No row changes.
fn make_room(alloc: Global, cells: &mut Cells, steps: &[Step]) -> Result<(), AllocError>
    ensures same { shown cells.new.entries ≡ shown cells.old.entries }
    ensures ready { OnOk result (AreReady cells.new.entries steps.now) }
{
    for step in steps {
        if step.value.is_some() {
            make_place(alloc, cells, &step.key)?;
        }
    }
    Ok(())
}

/// Fills or vacates a place.
fn make_step(cells: &mut Cells, key: &RowKey, value: Option<Vec<u8>>)
    requires { IsSome value → IsSome (cell_at cells.old.entries (plain_key key.now)) }
    ensures changed { shown cells.new.entries ≡ after_step (shown cells.old.entries) (record { key = key.now; value = value }) }
    ensures keeps { (q : Key) → IsSome (cell_at cells.old.entries q) → IsSome (cell_at cells.new.entries q) }
{
    if let Some(cell) = cells.get_mut(key) {
        *cell = value;
    }
}

fn make_one(cells: &mut Cells, step: &mut Step)
    requires { IsReady cells.old.entries step.old }
    ensures changed { shown cells.new.entries ≡ after_step (shown cells.old.entries) step.old }
    ensures keeps { (q : Key) → IsSome (cell_at cells.old.entries q) → IsSome (cell_at cells.new.entries q) }
{
    let value = std::mem::replace(&mut step.value, None);
    make_step(cells, &step.key, value);
}

/// Makes the steps, whose values it takes.
fn make_steps(cells: &mut Cells, steps: &mut Vec<Step>)
    requires { AreReady cells.old.entries steps.old.items }
    ensures changed { shown cells.new.entries ≡ after_steps (shown cells.old.entries) steps.old.items }
{
    for i in 0..steps.len() {
        make_one(cells, &mut steps[i]);
    }
}

/// Takes a place out if it is vacant.
fn sweep_one(cells: &mut Cells, key: &RowKey)
    ensures { shown cells.new.entries ≡ shown cells.old.entries }
{
    if let Some(None) = cells.get(key) {
        cells.remove(key);
    }
}

/// Takes vacant places out. No row changes.
fn sweep(cells: &mut Cells, steps: &[Step])
    ensures { shown cells.new.entries ≡ shown cells.old.entries }
{
    for step in steps {
        sweep_one(cells, &step.key);
    }
}

fn row_of(alloc: Global, key: &RowKey, value: &Vec<u8>) -> Result<Row, AllocError>
    ensures { IfOk result (λ row. entry_of row ≡ (plain_key key.now, value.now.items)) }
{
    Ok(Row {
        kind: key.kind,
        owner: Vec::from_slice(alloc, &key.owner)?,
        place: Vec::from_slice(alloc, &key.place)?,
        value: Vec::from_slice(alloc, value)?,
    })
}

/// The rows, in order.
fn rows_of(alloc: Global, cells: &Cells) -> Result<Vec<Row>, AllocError>
    ensures { IfOk result (λ rows. map entry_of rows.items ≡ entries (shown cells.now.entries)) }
{
    let mut rows = Vec::new(alloc);
    for (key, cell) in cells.iter() {
        if let Some(value) = cell {
            rows.push(row_of(alloc, key, value)?)?;
        }
    }
    Ok(rows)
}

/// Rows in memory.
#[derive(Drop)]
pub struct MemoryRows {
    cells: Cells,
    alloc: Global,
}

impl Model for MemoryRows {
    ghost use Rattle.std.specs.FinMap as fin;
    ghost use Rattle.std.specs.Prelude.{ℕ};
    ghost use Rattle.std.specs.Coded.{coded×, coded_list, coded_ℕ};
    ghost use Rattle.row_store.specs.Rows.{Content};
    ghost use Rattle.row_store.specs.Cells.{shown};

    ghost Value = { Content };

    ghost coded = { fin.code (coded× coded_ℕ (coded× (coded_list coded_ℕ) (coded_list coded_ℕ))) (coded_list coded_ℕ) };

    ghost view = { λ r. shown r.cells.entries };
}

impl MemoryRows {
    pub fn new(alloc: Global) -> MemoryRows
        ensures { result ≡ empty }
    {
        MemoryRows {
            cells: BTreeMap::new(alloc),
            alloc,
        }
    }
}

impl RowStore for MemoryRows {
    ghost content = { λ r. r };

    ghost is_clean = { λ _. ⊤ };

    ghost is_open = { λ _. ⊤ };

    ghost may_leave = { λ r c. c ≡ r };

    ghost failed = { λ _. 0 };

    fn failures(&self) -> u64 {
        0
    }

    fn apply(&mut self, changes: &[Change]) -> Result<(), RowFault> {
        if changes.is_empty() {
            return Ok(());
        }
        let Ok(mut steps) = plan(self.alloc, changes) else {
            return Err(RowFault::NoMemory);
        };
        let made = make_room(self.alloc, &mut self.cells, &steps);
        if made.is_ok() {
            make_steps(&mut self.cells, &mut steps);
        }
        sweep(&mut self.cells, &steps);
        if made.is_ok() {
            Ok(())
        } else {
            Err(RowFault::NoMemory)
        }
    }

    fn load(&mut self) -> Result<Vec<Row>, RowFault> {
        match rows_of(self.alloc, &self.cells) {
            Ok(rows) => Ok(rows),
            Err(_) => Err(RowFault::NoMemory),
        }
    }

    ghost settled = { λ s c up left. left };
}
