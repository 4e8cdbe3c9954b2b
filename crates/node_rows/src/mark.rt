//! The row that marks a node.
ghost use Rattle.std.specs.Prelude.{◌≡◌, ◌<◌, ◌^◌, ◌↔◌, IfOk, IsErrOf, IsTrue, MatchOption, option_map};
ghost use Rattle.mqtt_fields.specs.Reading.{Gives};
ghost use Rattle.row_store.specs.Rows.{entry_of};
ghost use Rattle.session_rows.specs.Reading.{whole};
ghost use Rattle.node_rows.specs.Reading.{IsMark, NoMark};
ghost use Rattle.node_rows.specs.Rows.{mark, mark_key, marked};

use mqtt_fields::{FieldFault, NUMBERS_END, NoMemory, are_bytes, put_u16, put_u64, u16_at, u64_at};
use row_store::Row;
use row_store::kinds::MARK;
use std::alloc::Global;

/// The version of the rows.
pub(crate) const VERSION: u16 = 3;

/// The row that says which node it is, and the number of the last client identifier that it gave.
pub fn mark_row(alloc: Global, id: u16, named: u64) -> Result<Row, NoMemory>
    ensures { IfOk result (λ row. entry_of row ≡ (mark_key, mark id named)) }
{
    let mut value = Vec::new(alloc);
    put_u16(VERSION, &mut value)?;
    put_u16(id, &mut value)?;
    put_u64(named, &mut value)?;
    Ok(Row {
        kind: MARK,
        owner: Vec::new(alloc),
        place: Vec::new(alloc),
        value,
    })
}

// The version, the node and the number at the front of a mark, and the bytes after them.
fn marked_at(bytes: &[u8]) -> Result<((u16, u16, u64), &[u8]), FieldFault>
    ensures exact { Gives (λ x. ((x.0.0, (x.0.1, x.0.2)), x.1.now)) result (marked.at bytes.now) }
    ensures no_memory { IsErrOf result FieldFault.NoMemory → ⊥ }
{
    let (version, rest) = u16_at(bytes)?;
    let (node, rest) = u16_at(rest)?;
    let (named, rest) = u64_at(rest)?;
    Ok(((version, node, named), rest))
}

// What a mark says, where it is just these bytes.
pub(crate) fn whole_mark(bytes: &[u8]) -> Option<(u16, u16, u64)>
    ensures { option_map (λ x. (x.0, (x.1, x.2))) result ≡ whole marked bytes.now }
{
    match marked_at(bytes) {
        Ok((mark, [])) => Some(mark),
        Ok(_) => None,
        Err(_) => None,
    }
}

fn is_of(version: u16, node: u16, named: u64, id: u16) -> bool
    ensures { IsTrue result ↔ (version ≡ 3) × (node ≡ id) × (named < 2 ^ 62) }
{
    version == VERSION && node == id && named < NUMBERS_END
}

// The number in the value of the node's mark.
fn named_at(value: &[u8], id: u16) -> Option<u64>
    ensures { MatchOption result (NoMark id (mark_key, value.now)) (IsMark id (mark_key, value.now)) }
{
    are_bytes(value);
    let (version, node, named) = whole_mark(value)?;
    if is_of(version, node, named, id) {
        Some(named)
    } else {
        None
    }
}

/// The number of the last client identifier, where the row is the mark of the node.
pub(crate) fn named_in(row: &Row, id: u16) -> Option<u64>
    ensures { MatchOption result (NoMark id (entry_of row.now)) (IsMark id (entry_of row.now)) }
{
    if row.kind == MARK && row.owner.is_empty() && row.place.is_empty() {
        named_at(&row.value, id)
    } else {
        None
    }
}
