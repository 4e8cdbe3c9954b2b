//! The rows of a store in the order of their keys.
ghost use Rattle.std.specs.Prelude.{◌≡◌, ◌<◌, IfOk, IsOk, OnOk, OnErr, length, map as map_list};
ghost use Rattle.std.specs.FinMap as map;
ghost use Rattle.replica_store.specs.States.{nothing};
ghost use Rattle.row_store.specs.Cells.{fill, plain_key, shown};
ghost use Rattle.row_store.specs.Rows.{after, after_all, entry_of};
ghost use Rattle.replica_rows.specs.Reading.{AreAllRowsOf};

use crate::changes::puts_of;
use causal_context::Lattice;
use mqtt_fields::NoMemory;
use replica_store::ReplicaStore;
use row_store::memory::RowKey;
use row_store::{Change, Row};
use std::alloc::Global;
use std::collections::BTreeMap;

/// Values by their keys; a key without one has no row.
type Cells = BTreeMap<RowKey, Option<Vec<u8>>>;

// Puts the value at the key, or that there is none.
fn put_at(cells: &mut Cells, key: RowKey, value: Option<Vec<u8>>) -> Result<(), NoMemory>
    ensures { OnOk result (shown cells.new.entries ≡ fill (shown cells.old.entries) (plain_key key) value) }
{
    cells.insert(key, value)?;
    Ok(())
}

// Makes the change, whose bytes it takes.
fn put_in(cells: &mut Cells, change: Change) -> Result<(), NoMemory>
    ensures { OnOk result (shown cells.new.entries ≡ after (shown cells.old.entries) change) }
{
    match change {
        Change::Put(
            Row {
                kind,
                owner,
                place,
                value,
            },
        ) => put_at(cells, RowKey { kind, owner, place }, Some(value)),
        Change::Remove(kind, owner, place) => put_at(cells, RowKey { kind, owner, place }, None),
    }
}

// What the changes make of no rows. No changes take no memory.
fn cells_of(alloc: Global, changes: Vec<Change>) -> Result<Cells, NoMemory>
    ensures cells { IfOk result (λ cells. shown cells.entries ≡ after_all map.empty changes.items) }
    ensures memory { OnErr result (0 < length changes.items) }
{
    let mut cells = BTreeMap::new(alloc);
    for change in changes {
        put_in(&mut cells, change)?;
    }
    Ok(cells)
}

// The rows, whose bytes it takes. Only these take memory.
fn rows_in(alloc: Global, cells: Cells) -> Result<Vec<Row>, NoMemory>
    ensures rows { IfOk result (λ rows. map_list entry_of rows.items ≡ map.entries (shown cells.entries)) }
    ensures memory { OnErr result (0 < length (map.entries (shown cells.entries))) }
{
    let mut rows = Vec::new(alloc);
    for (key, cell) in cells {
        if let Some(value) = cell {
            let RowKey { kind, owner, place } = key;
            rows.push(Row {
                kind,
                owner,
                place,
                value,
            })?;
        }
    }
    Ok(rows)
}

/// The rows of the store, in the order of their keys, each once. The store of no operation has none, which
/// takes no memory.
pub fn rows(alloc: Global, store: &ReplicaStore) -> Result<Vec<Row>, NoMemory>
    ensures rows { IfOk result (λ rows. AreAllRowsOf rows.items store.now) }
    ensures none { store.now ≡ nothing → IsOk result }
{
    let none = ReplicaStore::new(alloc);
    if store.is_below(&none) {
        return Ok(Vec::new(alloc));
    }
    let puts = puts_of(alloc, store)?;
    let cells = cells_of(alloc, puts)?;
    rows_in(alloc, cells)
}
