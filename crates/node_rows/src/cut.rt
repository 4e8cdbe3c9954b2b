//! The rows of a node behind its mark, cut by their kinds.
ghost use Rattle.std.specs.Prelude.{◌≤◌, ◌<◌, T, length, take, drop, map as map_list};
ghost use Rattle.std.specs.FinMap as map;
ghost use Rattle.std.specs.List.{AllByRecursion};
ghost use Rattle.row_store.specs.Rows.{entry_of, key_cmp};
ghost use Rattle.node_rows.specs.Reading.{IsCut};

use row_store::Row;
use row_store::kinds::{CONTEXT, COPY, SESSION};

// How many rows at the front are of kinds up to this one.
fn up_to(rows: &[Row], kind: u8) -> usize
    requires { T (map.is_sorted key_cmp (map_list entry_of rows.now)) }
    ensures within { result ≤ length rows.now }
    ensures low { AllByRecursion (λ e. e.0.0 ≤ kind) (map_list entry_of (take result rows.now)) }
    ensures high { AllByRecursion (λ e. kind < e.0.0) (map_list entry_of (drop result rows.now)) }
{
    for i in 0..rows.len() {
        if rows[i].kind > kind {
            return i;
        }
    }
    rows.len()
}

/// The sessions' own rows, those of their copies, those of the state and those of the lanes.
pub(crate) fn cut(rows: &[Row]) -> (&[Row], &[Row], &[Row], &[Row])
    requires { T (map.is_sorted key_cmp (map_list entry_of rows.now)) }
    ensures { IsCut (map_list entry_of rows.now) (map_list entry_of result.0.now) (map_list entry_of result.1.now)
        (map_list entry_of result.2.now) (map_list entry_of result.3.now) }
{
    let (own, later) = rows.split_at(up_to(rows, SESSION));
    let (copies, last) = later.split_at(up_to(later, COPY));
    let (state, lanes) = last.split_at(up_to(last, CONTEXT));
    (own, copies, state, lanes)
}
