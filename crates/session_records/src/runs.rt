//! Removals, and puts after them, which may be made in another order.

ghost use Rattle.std.specs.Prelude.{◌≡◌, ◌≤◌, length, take, IsTrue};
ghost use Rattle.std.specs.List.{list_all, list_any};
ghost use Rattle.std.specs.Ordering.{is_lt};
ghost use Rattle.row_store.specs.Rows.{key_cmp};
ghost use Rattle.session_records.specs.Apart.{AreApart, named};

use row_store::Change;

/// The bytes of a place that is a number, or begins with one.
pub const NUMBERED: usize = 8;

fn is_removal(change: &Change) -> bool {
    matches!(change, Change::Remove(..))
}

/// Whether it puts a row that is mostly new.
fn is_new_row(change: &Change) -> bool {
    match change {
        Change::Put(row) => row.place.len() >= NUMBERED,
        Change::Remove(..) => false,
    }
}

/// How many of the changes in front are removals.
pub fn removals_in(changes: &[Change]) -> usize
    ensures { result ≤ length changes.now }
{
    let other = changes.iter().position(|change| !is_removal(change));
    other.unwrap_or(changes.len())
}

/// How many of the changes in front put rows that are mostly new.
fn new_rows_in(changes: &[Change]) -> usize
    ensures { result ≤ length changes.now }
{
    let other = changes.iter().position(|change| !is_new_row(change));
    other.unwrap_or(changes.len())
}

/// The kind, the owner and the place that the change names.
fn key_in(change: &Change) -> (u8, &[u8], &[u8])
    ensures { (result.0, (result.1.now, result.2.now)) ≡ named change.now }
{
    match change {
        Change::Put(row) => (row.kind, &row.owner, &row.place),
        Change::Remove(kind, owner, place) => (*kind, owner, place),
    }
}

/// Whether the key that the change names is below that of the other one.
fn is_below(change: &Change, other: &Change) -> bool
    ensures { result ≡ is_lt (key_cmp (named change.now) (named other.now)) }
{
    let (kind, owner, place) = key_in(change);
    let (other_kind, other_owner, other_place) = key_in(other);
    let order = kind.cmp(&other_kind);
    order
        .then(owner.cmp(other_owner))
        .then(place.cmp(other_place))
        .is_lt()
}

fn are_below(changes: &[Change], bound: &Change) -> bool
    ensures { result ≡ list_all (λ c. is_lt (key_cmp (named c) (named bound.now))) changes.now }
{
    changes.iter().all(|change| is_below(change, bound))
}

fn is_one_below(changes: &[Change], bound: &Change) -> bool
    ensures { result ≡ list_any (λ c. is_lt (key_cmp (named c) (named bound.now))) changes.now }
{
    changes.iter().any(|change| is_below(change, bound))
}

/// Whether these name keys below that of the first of those, and those name none that is below it.
fn are_parted(these: &[Change], those: &[Change]) -> bool
    ensures { IsTrue result → AreApart these.now those.now }
{
    match those.first() {
        Some(bound) => are_below(these, bound) && !is_one_below(those, bound),
        None => true,
    }
}

/// How many changes in front of the second list put rows that are mostly new, and may be made in any order with those of the first one:
/// at keys that it doesn't name.
pub fn puts_in(first: &[Change], second: &[Change]) -> usize
    ensures within { result ≤ length second.now }
    ensures apart { AreApart first.now (take result second.now) }
{
    let count = new_rows_in(second);
    if are_parted(first, &second[..count]) {
        count
    } else {
        0
    }
}
