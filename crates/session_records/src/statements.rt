//! The statements that a store of rows runs.
ghost use Rattle.std.specs.Prelude.{◌≡◌, ◌≤◌, ◌<◌, ◌↔◌, [], false, true, length, map, take, T, IsTrue, None, IfOk, IfErr, OnOk, OnErr};
ghost use Rattle.std.specs.FinMap.{empty, insert, remove, is_sorted};
ghost use Rattle.std.specs.List.{All};
ghost use Rattle.std.specs.List.Sorted.{IsPermutation};
ghost use Rattle.sqlite.specs.Given.{IsPlain};
ghost use Rattle.sqlite.specs.Held.{state};
ghost use Rattle.sqlite.specs.Listing.{understood};
ghost use Rattle.sqlite.specs.State.{FailsToQuery, HasCleanDisk, KeepsCommit, Shown, Survives};
ghost use Rattle.sqlite.specs.View.{doubt};
ghost use Rattle.session_records.specs.Apart.{AreApart, after_at};
ghost use Rattle.session_records.specs.Connections.{Becomes, Commits, GoesOn, HasMoved, HasUpdated, IsBegun, IsExcused, IsSameAs, Stays, StaysOrEnds};
ghost use Rattle.row_store.specs.Rows.{after, after_all, key_cmp, key_of};
ghost use Rattle.session_records.specs.Stored.{AreTyped, IsFormed, IsShown, entry_in, entry_shown, held};
ghost use Rattle.session_records.specs.Table.{no_schema, rows_schema};

use crate::found::are_rows;
use crate::runs::{NUMBERED, puts_in, removals_in};
use row_store::{Change, Row};
use sqlite::{Alter, Connection, Constraint, Error, ErrorCode, Row as Found, Transaction, params};

fn erase_row<S: Alter>(
    tx: &mut Transaction<'_, S>,
    kind: u8,
    owner: &[u8],
    place: &[u8],
) -> Result<usize, Error>
    ensures same_reference { tx.new.conn.ghost_name ≡ tx.old.conn.ghost_name }
    ensures goes { HasCleanDisk (state S.Store tx.new.conn.now) → IsFormed (state S.Store tx.old.conn.now).now
        → OnOk result (GoesOn (state S.Store tx.old.conn.now) (state S.Store tx.new.conn.now) (remove (held (state S.Store tx.old.conn.now).now) (kind, (owner.now, place.now)))) }
    ensures begun { OnOk result (IsTrue (state S.Store tx.old.conn.now).in_transaction) }
    ensures kept { HasCleanDisk (state S.Store tx.new.conn.now) → KeepsCommit (state S.Store tx.old.conn.now) (state S.Store tx.new.conn.now) }
    ensures survives { Survives (state S.Store tx.old.conn.now) (state S.Store tx.new.conn.now) (λ _. ⊥) }
{
    tx.execute(
        "DELETE FROM rows WHERE kind = ?1 AND owner = ?2 AND place = ?3",
        params![u32::from(kind), owner, place],
    )
}

/// Answers one, or is refused where a row is at the key.
fn insert_row<S: Alter>(
    tx: &mut Transaction<'_, S>,
    kind: u8,
    owner: &[u8],
    place: &[u8],
    value: &[u8],
) -> Result<usize, Error>
    ensures same_reference { tx.new.conn.ghost_name ≡ tx.old.conn.ghost_name }
    ensures goes { HasCleanDisk (state S.Store tx.new.conn.now) → IsFormed (state S.Store tx.old.conn.now).now
        → OnOk result (GoesOn (state S.Store tx.old.conn.now) (state S.Store tx.new.conn.now) (insert (held (state S.Store tx.old.conn.now).now) (kind, (owner.now, place.now)) value.now)) }
    ensures refused { HasCleanDisk (state S.Store tx.new.conn.now) → OnErr result (StaysOrEnds (state S.Store tx.old.conn.now) (state S.Store tx.new.conn.now)) }
    ensures kept { HasCleanDisk (state S.Store tx.new.conn.now) → KeepsCommit (state S.Store tx.old.conn.now) (state S.Store tx.new.conn.now) }
    ensures survives { Survives (state S.Store tx.old.conn.now) (state S.Store tx.new.conn.now) (λ _. ⊥) }
{
    tx.execute(
        "INSERT INTO rows (kind, owner, place, value) VALUES (?1, ?2, ?3, ?4)",
        params![u32::from(kind), owner, place, value],
    )
}

/// How many rows were at the first key: one, which is at the second one now, with the value, or none. It is refused where another row
/// is at the second key.
fn move_row<S: Alter>(
    tx: &mut Transaction<'_, S>,
    kind: u8,
    owner: &[u8],
    place: &[u8],
    new_kind: u8,
    new_owner: &[u8],
    new_place: &[u8],
    value: &[u8],
) -> Result<usize, Error>
    ensures same_reference { tx.new.conn.ghost_name ≡ tx.old.conn.ghost_name }
    ensures goes { HasCleanDisk (state S.Store tx.new.conn.now) → IsFormed (state S.Store tx.old.conn.now).now
        → IfOk result (HasMoved (state S.Store tx.old.conn.now) (state S.Store tx.new.conn.now) (kind, (owner.now, place.now)) (new_kind, (new_owner.now, new_place.now)) value.now) }
    ensures begun { OnOk result (IsTrue (state S.Store tx.old.conn.now).in_transaction) }
    ensures refused { HasCleanDisk (state S.Store tx.new.conn.now) → OnErr result (StaysOrEnds (state S.Store tx.old.conn.now) (state S.Store tx.new.conn.now)) }
    ensures kept { HasCleanDisk (state S.Store tx.new.conn.now) → KeepsCommit (state S.Store tx.old.conn.now) (state S.Store tx.new.conn.now) }
    ensures survives { Survives (state S.Store tx.old.conn.now) (state S.Store tx.new.conn.now) (λ _. ⊥) }
{
    tx.execute(
        "UPDATE rows SET kind = ?4, owner = ?5, place = ?6, value = ?7 WHERE kind = ?1 AND owner = ?2 AND place = ?3",
        params![
            u32::from(kind),
            owner,
            place,
            u32::from(new_kind),
            new_owner,
            new_place,
            value
        ],
    )
}

/// How many rows were at the key: one, which has the value now, or none.
fn update_row<S: Alter>(
    tx: &mut Transaction<'_, S>,
    kind: u8,
    owner: &[u8],
    place: &[u8],
    value: &[u8],
) -> Result<usize, Error>
    ensures same_reference { tx.new.conn.ghost_name ≡ tx.old.conn.ghost_name }
    ensures goes { HasCleanDisk (state S.Store tx.new.conn.now) → IsFormed (state S.Store tx.old.conn.now).now
        → IfOk result (HasUpdated (state S.Store tx.old.conn.now) (state S.Store tx.new.conn.now) (kind, (owner.now, place.now)) value.now) }
    ensures begun { OnOk result (IsTrue (state S.Store tx.old.conn.now).in_transaction) }
    ensures kept { HasCleanDisk (state S.Store tx.new.conn.now) → KeepsCommit (state S.Store tx.old.conn.now) (state S.Store tx.new.conn.now) }
    ensures survives { Survives (state S.Store tx.old.conn.now) (state S.Store tx.new.conn.now) (λ _. ⊥) }
{
    move_row(tx, kind, owner, place, kind, owner, place, value)
}

/// Whether a row is at the key of the one that was to be put in.
fn is_taken(error: &Error) -> bool {
    *error == Error::SqliteFailure(ErrorCode::ConstraintViolation(Constraint::Unique))
}

/// Puts a row at a key that is mostly new: an INSERT and, where that is refused, an UPDATE.
fn put_new<S: Alter>(
    tx: &mut Transaction<'_, S>,
    kind: u8,
    owner: &[u8],
    place: &[u8],
    value: &[u8],
) -> Result<(), Error>
    ensures same_reference { tx.new.conn.ghost_name ≡ tx.old.conn.ghost_name }
    ensures goes { HasCleanDisk (state S.Store tx.new.conn.now) → IsFormed (state S.Store tx.old.conn.now).now
        → OnOk result (GoesOn (state S.Store tx.old.conn.now) (state S.Store tx.new.conn.now) (insert (held (state S.Store tx.old.conn.now).now) (kind, (owner.now, place.now)) value.now)) }
    ensures kept { HasCleanDisk (state S.Store tx.new.conn.now) → KeepsCommit (state S.Store tx.old.conn.now) (state S.Store tx.new.conn.now) }
    ensures survives { Survives (state S.Store tx.old.conn.now) (state S.Store tx.new.conn.now) (λ _. ⊥) }
{
    let Err(refusal) = insert_row(tx, kind, owner, place, value) else {
        return Ok(());
    };
    if !is_taken(&refusal) || update_row(tx, kind, owner, place, value)? == 0 {
        return Err(refusal);
    }
    Ok(())
}

/// Puts a row at a key that mostly has one: an UPDATE and, where that finds none, an INSERT.
fn put_again<S: Alter>(
    tx: &mut Transaction<'_, S>,
    kind: u8,
    owner: &[u8],
    place: &[u8],
    value: &[u8],
) -> Result<(), Error>
    ensures same_reference { tx.new.conn.ghost_name ≡ tx.old.conn.ghost_name }
    ensures goes { HasCleanDisk (state S.Store tx.new.conn.now) → IsFormed (state S.Store tx.old.conn.now).now
        → OnOk result (GoesOn (state S.Store tx.old.conn.now) (state S.Store tx.new.conn.now) (insert (held (state S.Store tx.old.conn.now).now) (kind, (owner.now, place.now)) value.now)) }
    ensures kept { HasCleanDisk (state S.Store tx.new.conn.now) → KeepsCommit (state S.Store tx.old.conn.now) (state S.Store tx.new.conn.now) }
    ensures survives { Survives (state S.Store tx.old.conn.now) (state S.Store tx.new.conn.now) (λ _. ⊥) }
{
    if update_row(tx, kind, owner, place, value)? == 0 {
        insert_row(tx, kind, owner, place, value)?;
    }
    Ok(())
}

/// The row takes the place of the one at its key, if there is one. A row whose place is a number is mostly new, and any other mostly there.
fn put_row<S: Alter>(tx: &mut Transaction<'_, S>, row: &Row) -> Result<(), Error>
    ensures same_reference { tx.new.conn.ghost_name ≡ tx.old.conn.ghost_name }
    ensures goes { HasCleanDisk (state S.Store tx.new.conn.now) → IsFormed (state S.Store tx.old.conn.now).now
        → OnOk result (GoesOn (state S.Store tx.old.conn.now) (state S.Store tx.new.conn.now) (insert (held (state S.Store tx.old.conn.now).now) (key_of row.now) row.now.value.items)) }
    ensures kept { HasCleanDisk (state S.Store tx.new.conn.now) → KeepsCommit (state S.Store tx.old.conn.now) (state S.Store tx.new.conn.now) }
    ensures survives { Survives (state S.Store tx.old.conn.now) (state S.Store tx.new.conn.now) (λ _. ⊥) }
{
    if row.place.len() < NUMBERED {
        put_again(tx, row.kind, &row.owner, &row.place, &row.value)
    } else {
        put_new(tx, row.kind, &row.owner, &row.place, &row.value)
    }
}

fn make_change<S: Alter>(tx: &mut Transaction<'_, S>, change: &Change) -> Result<(), Error>
    ensures same_reference { tx.new.conn.ghost_name ≡ tx.old.conn.ghost_name }
    ensures goes { HasCleanDisk (state S.Store tx.new.conn.now) → IsFormed (state S.Store tx.old.conn.now).now
        → OnOk result (GoesOn (state S.Store tx.old.conn.now) (state S.Store tx.new.conn.now) (after (held (state S.Store tx.old.conn.now).now) change.now)) }
    ensures kept { HasCleanDisk (state S.Store tx.new.conn.now) → KeepsCommit (state S.Store tx.old.conn.now) (state S.Store tx.new.conn.now) }
    ensures survives { Survives (state S.Store tx.old.conn.now) (state S.Store tx.new.conn.now) (λ _. ⊥) }
{
    match change {
        Change::Put(row) => put_row(tx, row),
        Change::Remove(kind, owner, place) => {
            erase_row(tx, *kind, owner, place)?;
            Ok(())
        }
    }
}

/// Takes the row at a key out, and puts one in. Where a row is at the first key and none at the other one it is one UPDATE, which changes
/// a page of the table and one of its index once, and not twice.
fn replace_row<S: Alter>(
    tx: &mut Transaction<'_, S>,
    kind: u8,
    owner: &[u8],
    place: &[u8],
    row: &Row,
) -> Result<(), Error>
    ensures same_reference { tx.new.conn.ghost_name ≡ tx.old.conn.ghost_name }
    ensures goes { HasCleanDisk (state S.Store tx.new.conn.now) → IsFormed (state S.Store tx.old.conn.now).now
        → OnOk result (GoesOn (state S.Store tx.old.conn.now) (state S.Store tx.new.conn.now) (insert (remove (held (state S.Store tx.old.conn.now).now) (kind, (owner.now, place.now))) (key_of row.now) row.now.value.items)) }
    ensures kept { HasCleanDisk (state S.Store tx.new.conn.now) → KeepsCommit (state S.Store tx.old.conn.now) (state S.Store tx.new.conn.now) }
    ensures survives { Survives (state S.Store tx.old.conn.now) (state S.Store tx.new.conn.now) (λ _. ⊥) }
{
    match move_row(
        tx, kind, owner, place, row.kind, &row.owner, &row.place, &row.value,
    ) {
        Ok(0) => {}
        Ok(_) => return Ok(()),
        Err(error) => {
            if !is_taken(&error) {
                return Err(error);
            }
        }
    }
    erase_row(tx, kind, owner, place)?;
    put_row(tx, row)
}

/// Makes two changes, which are one UPDATE where a row goes and one comes that is mostly new.
fn make_pair<S: Alter>(
    tx: &mut Transaction<'_, S>,
    change: &Change,
    next: &Change,
) -> Result<(), Error>
    ensures same_reference { tx.new.conn.ghost_name ≡ tx.old.conn.ghost_name }
    ensures goes { HasCleanDisk (state S.Store tx.new.conn.now) → IsFormed (state S.Store tx.old.conn.now).now
        → OnOk result (GoesOn (state S.Store tx.old.conn.now) (state S.Store tx.new.conn.now) (after (after (held (state S.Store tx.old.conn.now).now) change.now) next.now)) }
    ensures kept { HasCleanDisk (state S.Store tx.new.conn.now) → KeepsCommit (state S.Store tx.old.conn.now) (state S.Store tx.new.conn.now) }
    ensures survives { Survives (state S.Store tx.old.conn.now) (state S.Store tx.new.conn.now) (λ _. ⊥) }
{
    match (change, next) {
        (Change::Remove(kind, owner, place), Change::Put(row)) => {
            replace_row(tx, *kind, owner, place, row)
        }
        _ => {
            make_change(tx, change)?;
            make_change(tx, next)
        }
    }
}

/// Makes the change at a place of the first list, and then the one at that place of the second, if there is one.
fn make_at<S: Alter>(
    tx: &mut Transaction<'_, S>,
    first: &[Change],
    second: &[Change],
    place: usize,
) -> Result<(), Error>
    requires { place < length first.now }
    ensures same_reference { tx.new.conn.ghost_name ≡ tx.old.conn.ghost_name }
    ensures goes { HasCleanDisk (state S.Store tx.new.conn.now) → IsFormed (state S.Store tx.old.conn.now).now
        → OnOk result (GoesOn (state S.Store tx.old.conn.now) (state S.Store tx.new.conn.now) (after_at (after_at (held (state S.Store tx.old.conn.now).now) first.now place) second.now place)) }
    ensures kept { HasCleanDisk (state S.Store tx.new.conn.now) → KeepsCommit (state S.Store tx.old.conn.now) (state S.Store tx.new.conn.now) }
    ensures survives { Survives (state S.Store tx.old.conn.now) (state S.Store tx.new.conn.now) (λ _. ⊥) }
{
    let change = &first[place];
    if place < second.len() {
        make_pair(tx, change, &second[place])
    } else {
        make_change(tx, change)
    }
}

/// Makes the changes of two lists that have no key in common. They are made in pairs, one of each list, and leave what the second list
/// leaves after the first.
fn make_both<S: Alter>(
    tx: &mut Transaction<'_, S>,
    first: &[Change],
    second: &[Change],
) -> Result<(), Error>
    requires few { length second.now ≤ length first.now }
    requires apart { AreApart first.now second.now }
    ensures same_reference { tx.new.conn.ghost_name ≡ tx.old.conn.ghost_name }
    ensures goes { HasCleanDisk (state S.Store tx.new.conn.now) → IsBegun (state S.Store tx.old.conn.now) → IsFormed (state S.Store tx.old.conn.now).now
        → OnOk result (GoesOn (state S.Store tx.old.conn.now) (state S.Store tx.new.conn.now) (after_all (after_all (held (state S.Store tx.old.conn.now).now) first.now) second.now)) }
    ensures kept { HasCleanDisk (state S.Store tx.new.conn.now) → KeepsCommit (state S.Store tx.old.conn.now) (state S.Store tx.new.conn.now) }
    ensures survives { Survives (state S.Store tx.old.conn.now) (state S.Store tx.new.conn.now) (λ _. ⊥) }
{
    for i in 0..first.len() {
        make_at(tx, first, second, i)?;
    }
    Ok(())
}

/// Makes the changes of two lists that have no key in common, and leaves what the second list leaves after the first. The last of the
/// second list are made in pairs with those of the first. Where the keys of puts rise, the last ones are the likeliest to be new.
fn make_run<S: Alter>(
    tx: &mut Transaction<'_, S>,
    first: &[Change],
    second: &[Change],
) -> Result<(), Error>
    requires { AreApart first.now second.now }
    ensures same_reference { tx.new.conn.ghost_name ≡ tx.old.conn.ghost_name }
    ensures goes { HasCleanDisk (state S.Store tx.new.conn.now) → IsBegun (state S.Store tx.old.conn.now) → IsFormed (state S.Store tx.old.conn.now).now
        → OnOk result (GoesOn (state S.Store tx.old.conn.now) (state S.Store tx.new.conn.now) (after_all (after_all (held (state S.Store tx.old.conn.now).now) first.now) second.now)) }
    ensures kept { HasCleanDisk (state S.Store tx.new.conn.now) → KeepsCommit (state S.Store tx.old.conn.now) (state S.Store tx.new.conn.now) }
    ensures survives { Survives (state S.Store tx.old.conn.now) (state S.Store tx.new.conn.now) (λ _. ⊥) }
{
    let (alone, paired) = second.split_at(second.len().saturating_sub(first.len()));
    make_both(tx, alone, &[])?;
    make_both(tx, first, paired)
}

/// Makes the first change, or the removals in front together with puts right after them. How many changes it made.
fn make_first<S: Alter>(tx: &mut Transaction<'_, S>, changes: &[Change]) -> Result<usize, Error>
    requires { 0 < length changes.now }
    ensures made { IfOk result (λ made. (0 < made) × (made ≤ length changes.now)) }
    ensures same_reference { tx.new.conn.ghost_name ≡ tx.old.conn.ghost_name }
    ensures goes { HasCleanDisk (state S.Store tx.new.conn.now) → IsBegun (state S.Store tx.old.conn.now) → IsFormed (state S.Store tx.old.conn.now).now
        → IfOk result (λ made. GoesOn (state S.Store tx.old.conn.now) (state S.Store tx.new.conn.now) (after_all (held (state S.Store tx.old.conn.now).now) (take made changes.now))) }
    ensures kept { HasCleanDisk (state S.Store tx.new.conn.now) → KeepsCommit (state S.Store tx.old.conn.now) (state S.Store tx.new.conn.now) }
    ensures survives { Survives (state S.Store tx.old.conn.now) (state S.Store tx.new.conn.now) (λ _. ⊥) }
{
    let removals = removals_in(changes);
    if removals == 0 {
        make_change(tx, &changes[0])?;
        return Ok(1);
    }
    let (gone, rest) = changes.split_at(removals);
    let puts = &rest[..puts_in(gone, rest)];
    make_run(tx, gone, puts)?;
    Ok(gone.len() + puts.len())
}

fn make_changes<S: Alter>(tx: &mut Transaction<'_, S>, changes: &[Change]) -> Result<(), Error>
    ensures same_reference { tx.new.conn.ghost_name ≡ tx.old.conn.ghost_name }
    ensures goes { HasCleanDisk (state S.Store tx.new.conn.now) → IsBegun (state S.Store tx.old.conn.now) → IsFormed (state S.Store tx.old.conn.now).now
        → OnOk result (GoesOn (state S.Store tx.old.conn.now) (state S.Store tx.new.conn.now) (after_all (held (state S.Store tx.old.conn.now).now) changes.now)) }
    ensures kept { HasCleanDisk (state S.Store tx.new.conn.now) → KeepsCommit (state S.Store tx.old.conn.now) (state S.Store tx.new.conn.now) }
    ensures survives { Survives (state S.Store tx.old.conn.now) (state S.Store tx.new.conn.now) (λ _. ⊥) }
{
    let mut made = 0;
    while made < changes.len() {
        made += make_first(tx, &changes[made..])?;
    }
    Ok(())
}

/// Makes all the changes in one transaction, or none.
pub fn commit_changes<S: Alter>(conn: &mut Connection<S>, changes: &[Change]) -> Result<(), Error>
    requires { conn.old.in_transaction ≡ false }
    ensures ended { conn.new.in_transaction ≡ false }
    ensures clean { doubt (state S.Store conn.old).is_clean ≤ doubt (state S.Store conn.new).is_clean }
    ensures was_open { HasCleanDisk (state S.Store conn.new) → IsTrue (state S.Store conn.new).is_open → IsTrue (state S.Store conn.old).is_open }
    ensures ok { HasCleanDisk (state S.Store conn.new) → IsTrue (state S.Store conn.old).is_open → IsFormed (state S.Store conn.old).now
        → OnOk result (Becomes (state S.Store conn.new) (after_all (held (state S.Store conn.old).now) changes.now)) }
    ensures err { HasCleanDisk (state S.Store conn.new) → IsTrue (state S.Store conn.new).is_open → IsTrue (state S.Store conn.old).is_open → IsFormed (state S.Store conn.old).now
        → OnErr result (((state S.Store conn.new).now ≡ (state S.Store conn.old).committed) × ((state S.Store conn.new).committed ≡ (state S.Store conn.old).committed)) }
    ensures survives { IsTrue (state S.Store conn.old).is_open → IsFormed (state S.Store conn.old).now
        → Survives (state S.Store conn.old) (state S.Store conn.new) (Commits (after_all (held (state S.Store conn.old).now) changes.now)) }
{
    let mut tx = conn.transaction();
    make_changes(&mut tx, changes)?;
    tx.commit()
}

fn create_table<S: Alter>(tx: &mut Transaction<'_, S>) -> Result<usize, Error>
    ensures same_reference { tx.new.conn.ghost_name ≡ tx.old.conn.ghost_name }
    ensures goes { HasCleanDisk (state S.Store tx.new.conn.now) → (state S.Store tx.old.conn.now).now.schema ≡ no_schema
        → OnOk result (GoesOn (state S.Store tx.old.conn.now) (state S.Store tx.new.conn.now) empty) }
    ensures cause { HasCleanDisk (state S.Store tx.new.conn.now) → (state S.Store tx.old.conn.now).now.schema ≡ no_schema → IsTrue (state S.Store tx.old.conn.now).in_transaction
        → IfErr result (IsExcused (state S.Store tx.old.conn.now) (state S.Store tx.new.conn.now)) }
    ensures kept { HasCleanDisk (state S.Store tx.new.conn.now) → KeepsCommit (state S.Store tx.old.conn.now) (state S.Store tx.new.conn.now) }
    ensures survives { Survives (state S.Store tx.old.conn.now) (state S.Store tx.new.conn.now) (λ _. ⊥) }
{
    tx.execute(
        "CREATE TABLE rows (kind INTEGER NOT NULL, owner BLOB NOT NULL, place BLOB NOT NULL, value BLOB NOT NULL, PRIMARY KEY (kind, owner, place)) STRICT",
        &[],
    )
}

/// Makes the table in a database that has none.
pub fn make_table<S: Alter>(conn: &mut Connection<S>) -> Result<(), Error>
    requires { conn.old.in_transaction ≡ false }
    ensures ended { conn.new.in_transaction ≡ false }
    ensures clean { doubt (state S.Store conn.old).is_clean ≤ doubt (state S.Store conn.new).is_clean }
    ensures was_open { HasCleanDisk (state S.Store conn.new) → IsTrue (state S.Store conn.new).is_open → IsTrue (state S.Store conn.old).is_open }
    ensures ok { HasCleanDisk (state S.Store conn.new) → (state S.Store conn.old).now.schema ≡ no_schema
        → OnOk result (Becomes (state S.Store conn.new) empty) }
    ensures cause { HasCleanDisk (state S.Store conn.new) → (state S.Store conn.old).now.schema ≡ no_schema
        → IfErr result (IsExcused (state S.Store conn.old) (state S.Store conn.new)) }
    ensures err { HasCleanDisk (state S.Store conn.new) → IsTrue (state S.Store conn.new).is_open → IsTrue (state S.Store conn.old).is_open → (state S.Store conn.old).now.schema ≡ no_schema
        → OnErr result (((state S.Store conn.new).now ≡ (state S.Store conn.old).committed) × ((state S.Store conn.new).committed ≡ (state S.Store conn.old).committed)) }
    ensures survives { (state S.Store conn.old).now.schema ≡ no_schema → Survives (state S.Store conn.old) (state S.Store conn.new) (Commits empty) }
{
    let mut tx = conn.transaction();
    create_table(&mut tx)?;
    tx.commit()
}

/// All rows that a text shows which only reads, and has no parameters.
fn ask<S: Alter>(conn: &mut Connection<S>, sql: &str) -> Result<Vec<Found>, Error>
    requires { conn.old.in_transaction ≡ false }
    ensures mode { conn.new.in_transaction ≡ false }
    ensures shown { HasCleanDisk (state S.Store conn.new) → IfOk result (λ rows. Shown sql.now [] (state S.Store conn.old) (state S.Store conn.new) rows.items) }
    ensures fails { HasCleanDisk (state S.Store conn.new) → IfErr result (FailsToQuery sql.now [] (state S.Store conn.old) (state S.Store conn.new)) }
    ensures limit { conn.new.step_limit ≡ conn.old.step_limit }
    ensures same { HasCleanDisk (state S.Store conn.new) → IsPlain (understood (state S.Store conn.old).now.schema sql.now)
        → OnOk result (IsSameAs (state S.Store conn.old) (state S.Store conn.new)) }
    ensures stays { HasCleanDisk (state S.Store conn.new) → IsPlain (understood (state S.Store conn.old).now.schema sql.now)
        → Stays (state S.Store conn.old) (state S.Store conn.new) }
    ensures was_open { HasCleanDisk (state S.Store conn.new) → IsTrue (state S.Store conn.new).is_open → IsTrue (state S.Store conn.old).is_open }
    ensures clean { doubt (state S.Store conn.old).is_clean ≤ doubt (state S.Store conn.new).is_clean }
    ensures survives { IsPlain (understood (state S.Store conn.old).now.schema sql.now) → Survives (state S.Store conn.old) (state S.Store conn.new) (λ _. ⊥) }
{
    conn.query_all(sql, &[])
}

/// The rows of the table as the database has them, in the order of their keys.
pub fn query_rows<S: Alter>(conn: &mut Connection<S>) -> Result<Vec<Found>, Error>
    requires { conn.old.in_transaction ≡ false }
    ensures mode { conn.new.in_transaction ≡ false }
    ensures rows { HasCleanDisk (state S.Store conn.new) → (state S.Store conn.old).now.schema ≡ rows_schema
        → IfOk result (λ rows. IsPermutation (map entry_in ((state S.Store conn.old).now.trees 0)) (map entry_shown rows.items)) }
    ensures formed { HasCleanDisk (state S.Store conn.new) → IsFormed (state S.Store conn.old).now
        → IfOk result (λ rows. All IsShown rows.items × T (is_sorted key_cmp (map entry_shown rows.items))) }
    ensures cause { HasCleanDisk (state S.Store conn.new) → (state S.Store conn.old).now.schema ≡ rows_schema → conn.old.step_limit ≡ None
        → IfErr result (IsExcused (state S.Store conn.old) (state S.Store conn.new)) }
    ensures limit { conn.new.step_limit ≡ conn.old.step_limit }
    ensures same { HasCleanDisk (state S.Store conn.new) → (state S.Store conn.old).now.schema ≡ rows_schema
        → OnOk result (IsSameAs (state S.Store conn.old) (state S.Store conn.new)) }
    ensures stays { HasCleanDisk (state S.Store conn.new) → (state S.Store conn.old).now.schema ≡ rows_schema
        → Stays (state S.Store conn.old) (state S.Store conn.new) }
    ensures was_open { HasCleanDisk (state S.Store conn.new) → IsTrue (state S.Store conn.new).is_open → IsTrue (state S.Store conn.old).is_open }
    ensures clean { doubt (state S.Store conn.old).is_clean ≤ doubt (state S.Store conn.new).is_clean }
    ensures survives { (state S.Store conn.old).now.schema ≡ rows_schema → Survives (state S.Store conn.old) (state S.Store conn.new) (λ _. ⊥) }
{
    ask(
        conn,
        "SELECT kind, owner, place, value FROM rows ORDER BY kind, owner, place",
    )
}

/// Whether each row of the table has the form, and no rowid comes twice.
pub fn has_form<S: Alter>(conn: &mut Connection<S>) -> Result<bool, Error>
    requires { conn.old.in_transaction ≡ false }
    ensures mode { conn.new.in_transaction ≡ false }
    ensures typed { HasCleanDisk (state S.Store conn.new) → (state S.Store conn.old).now.schema ≡ rows_schema
        → IfOk result (λ has. IsTrue has ↔ AreTyped ((state S.Store conn.old).now.trees 0)) }
    ensures cause { HasCleanDisk (state S.Store conn.new) → (state S.Store conn.old).now.schema ≡ rows_schema → conn.old.step_limit ≡ None
        → IfErr result (IsExcused (state S.Store conn.old) (state S.Store conn.new)) }
    ensures limit { conn.new.step_limit ≡ conn.old.step_limit }
    ensures same { HasCleanDisk (state S.Store conn.new) → (state S.Store conn.old).now.schema ≡ rows_schema
        → OnOk result (IsSameAs (state S.Store conn.old) (state S.Store conn.new)) }
    ensures stays { HasCleanDisk (state S.Store conn.new) → (state S.Store conn.old).now.schema ≡ rows_schema
        → Stays (state S.Store conn.old) (state S.Store conn.new) }
    ensures was_open { HasCleanDisk (state S.Store conn.new) → IsTrue (state S.Store conn.new).is_open → IsTrue (state S.Store conn.old).is_open }
    ensures clean { doubt (state S.Store conn.old).is_clean ≤ doubt (state S.Store conn.new).is_clean }
    ensures survives { (state S.Store conn.old).now.schema ≡ rows_schema → Survives (state S.Store conn.old) (state S.Store conn.new) (λ _. ⊥) }
{
    let found = ask(
        conn,
        "SELECT rowid, kind, owner, place, value FROM rows ORDER BY rowid",
    )?;
    Ok(are_rows(&found))
}
