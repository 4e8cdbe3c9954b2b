//! The sessions of a node, read from their rows.
ghost use Rattle.std.specs.Prelude.{◌≡◌, ◌≤◌, ◌∷◌, T, length, take, drop, map as map_list, IfOk};
ghost use Rattle.std.specs.FinMap as map;
ghost use Rattle.std.specs.List.{AllByRecursion};
ghost use Rattle.row_store.specs.Rows.{entry_of, key_cmp};
ghost use Rattle.node_rows.specs.Reading.{Recovers};
ghost use Rattle.node_rows.specs.Sessions.{AreRead, IsOf, IsReopened, NoSession, NoSessions, StartsApart};

use mqtt_fields::{NoMemory, Text};
use mqtt_sessions::{Session, SessionFault};
use row_store::{Row, RowFault};
use session_rows::text_of;
use session_table::Sessions;
use std::alloc::Global;

// How many rows at the front are of the owner.
fn count_of(rows: &[Row], owner: &[u8]) -> usize
    ensures within { result ≤ length rows.now }
    ensures own { AllByRecursion (IsOf owner.now) (map_list entry_of (take result rows.now)) }
    ensures others { StartsApart owner.now (map_list entry_of (drop result rows.now)) }
{
    for i in 0..rows.len() {
        if rows[i].owner.as_slice() != owner {
            return i;
        }
    }
    rows.len()
}

// The row once more.
fn copy_of(row: &Row) -> Result<Row, NoMemory>
    ensures { IfOk result (λ copy. entry_of copy ≡ entry_of row.now) }
{
    Ok(Row {
        kind: row.kind,
        owner: row.owner.clone()?,
        place: row.place.clone()?,
        value: row.value.clone()?,
    })
}

// A session's own row, and then those of its copies.
fn rows_of(alloc: Global, own: &Row, copies: &[Row]) -> Result<Vec<Row>, NoMemory>
    ensures { IfOk result (λ rows. map_list entry_of rows.items ≡ entry_of own.now ∷ map_list entry_of copies.now) }
{
    let mut rows = Vec::new(alloc);
    rows.push(copy_of(own)?)?;
    for row in copies {
        rows.push(copy_of(row)?)?;
    }
    Ok(rows)
}

// The client and the session of which these are the rows.
fn read_one(alloc: Global, own: &Row, copies: &[Row]) -> Result<(Text, Session), RowFault>
    ensures { Recovers (λ x. IsReopened (entry_of own.now ∷ map_list entry_of copies.now) x.0 x.1)
        (NoSession (entry_of own.now ∷ map_list entry_of copies.now)) result }
{
    let Ok(rows) = rows_of(alloc, own, copies) else {
        return Err(RowFault::NoMemory);
    };
    let client = text_of(alloc, &own.owner)?;
    match Session::from_rows(alloc, &rows) {
        Ok(session) => Ok((client, session)),
        Err(SessionFault::BadRow) => Err(RowFault::BadRow),
        Err(_) => Err(RowFault::NoMemory),
    }
}

/// The sessions whose rows these are: their own in the order of their clients, and in the same order those of their copies.
pub(crate) fn read_sessions(
    alloc: Global,
    own: &[Row],
    copies: &[Row],
) -> Result<Sessions, RowFault>
    requires { T (map.is_sorted key_cmp (map_list entry_of own.now)) }
    ensures { Recovers (AreRead (map_list entry_of own.now) (map_list entry_of copies.now))
        (NoSessions (map_list entry_of own.now) (map_list entry_of copies.now)) result }
{
    let mut sessions = Sessions::new(alloc);
    let mut rest = copies;
    for row in own {
        let (mine, others) = rest.split_at(count_of(rest, &row.owner));
        let (client, session) = read_one(alloc, row, mine)?;
        let Ok(()) = sessions.insert(client, session) else {
            return Err(RowFault::NoMemory);
        };
        rest = others;
    }
    if !rest.is_empty() {
        return Err(RowFault::BadRow);
    }
    Ok(sessions)
}
