//! Rows, and changes of them.
ghost use Rattle.std.specs.Prelude.{◌≡◌, ◌↔◌, map, IfOk, T, IsTrue};
ghost use Rattle.std.specs.FinMap.{is_sorted};
ghost use Rattle.std.specs.declared.cmp.Ordering.TheVariants.{Less};
ghost use Rattle.row_store.specs.Rows.{Content, after, entry_of, key_cmp, key_of};

use std::alloc::{AllocError, Global};
use std::cmp::Ordering;

/// Bytes under a key, which is a kind, an owner and a place.
#[derive(Debug, PartialEq, Eq, Drop)]
pub struct Row {
    pub kind: u8,
    pub owner: Vec<u8>,
    pub place: Vec<u8>,
    pub value: Vec<u8>,
}

impl Row {
    /// By kind, then by the bytes of the owner, then by those of the place.
    pub fn compare_keys(&self, other: &Row) -> Ordering
        ensures { result ≡ key_cmp (key_of self.now) (key_of other.now) }
    {
        self.kind
            .cmp(&other.kind)
            .then(self.owner.cmp(&other.owner))
            .then(self.place.cmp(&other.place))
    }

    /// An equal row.
    pub fn copy(&self, alloc: Global) -> Result<Row, AllocError>
        ensures { IfOk result (λ copy. entry_of copy ≡ entry_of self.now) }
    {
        Ok(Row {
            kind: self.kind,
            owner: Vec::from_slice(alloc, &self.owner)?,
            place: Vec::from_slice(alloc, &self.place)?,
            value: Vec::from_slice(alloc, &self.value)?,
        })
    }
}

/// A change of one row.
#[derive(Debug, PartialEq, Eq, Drop)]
pub enum Change {
    /// The row takes the place of one with its key, if there is one.
    Put(Row),
    /// The row of this kind, owner and place goes, if there is one.
    Remove(u8, Vec<u8>, Vec<u8>),
}

impl Change {
    /// An equal change: it makes the same of each content.
    pub fn copy(&self, alloc: Global) -> Result<Change, AllocError>
        ensures { IfOk result (λ copy. (c : Content) → after c copy ≡ after c self.now) }
    {
        match self {
            Change::Put(row) => Ok(Change::Put(row.copy(alloc)?)),
            Change::Remove(kind, owner, place) => {
                let owner = Vec::from_slice(alloc, owner)?;
                let place = Vec::from_slice(alloc, place)?;
                Ok(Change::Remove(*kind, owner, place))
            }
        }
    }
}

fn is_below(low: &Row, high: &Row) -> bool
    ensures { IsTrue result ↔ (key_cmp (key_of low.now) (key_of high.now) ≡ Less) }
{
    low.compare_keys(high) == Ordering::Less
}

/// Whether each key is above the one before it.
pub fn are_rising(rows: &[Row]) -> bool
    ensures { IsTrue result ↔ T (is_sorted key_cmp (map entry_of rows.now)) }
{
    for i in 1..rows.len() {
        if !is_below(&rows[i - 1], &rows[i]) {
            return false;
        }
    }
    true
}
