//! A journal is read from the rows of a store.

ghost use Rattle.std.specs.Prelude.{◌≡◌, ◌≢◌, ◌<◌, ◌≤◌, ◌+◌, ◌^◌, ◌++◌, ◌∷◌, ◌↔◌, ℕ, List, [], Err, length, map, IfOk, IsTrue, OnErr, OnOk};
ghost use Rattle.std.specs.FinMap.{entries};
ghost use Rattle.std.specs.Int.{w64};
ghost use Rattle.mqtt_fields.specs.Numbers.{number};
ghost use Rattle.mqtt_fields.specs.Reading.{Finds};
ghost use Rattle.row_store.specs.Noted.{Pair, pair_of};
ghost use Rattle.row_store.specs.Rows.{Content, Plain, entry_of, key_of};
ghost use Rattle.row_journal.specs.Journal.{AreOthers, IsJournaled, entry_key};
ghost use Rattle.row_journal.specs.Tops.{IsKept};
ghost use Rattle.row_journal.specs.Reading.{AreTurns, IsEntry, IsRead, IsSpelled};

use crate::items::turn_at;
use crate::journal::{Journal, are_plain, total_len};
use crate::tops::take_rows;
use mqtt_fields::{FieldFault, are_bytes, u64_at};
use row_store::kinds::JOURNAL;
use row_store::{Change, Row, RowFault, RowStore};
use std::alloc::Global;
use std::collections::BTreeMap;

/// The changes that the bytes are, and nothing else.
fn whole_turn(alloc: Global, bytes: &[u8]) -> Result<Vec<Change>, FieldFault>
    ensures { Finds (λ turn. map pair_of turn.items) (IsSpelled bytes.now) result }
{
    are_bytes(bytes);
    match turn_at(alloc, bytes) {
        Ok((turn, [])) => Ok(turn),
        Ok(_) => Err(FieldFault::Malformed),
        Err(fault) => Err(fault),
    }
}

fn is_place(bytes: &[u8], n: u64) -> bool
    ensures { IsTrue result ↔ (bytes.now ≡ (number w64).bytes n) }
{
    are_bytes(bytes);
    match u64_at(bytes) {
        Ok((m, [])) => m == n,
        _ => false,
    }
}

/// Whether it is under the key of the journal's row of this number.
fn is_numbered(row: &Row, number: u64) -> bool
    ensures { IsTrue result ↔ (key_of row.now ≡ entry_key number) }
{
    row.kind == JOURNAL && row.owner.is_empty() && is_place(&row.place, number)
}

/// The changes, unless one of them names a row of the journal's kind.
fn plain_turn(turn: Vec<Change>) -> Result<Vec<Change>, RowFault>
    ensures read { IfOk result (λ plain. (plain ≡ turn) × AreOthers (map pair_of turn.items)) }
    ensures bad { OnErr result (¬ (AreOthers (map pair_of turn.items))) }
    ensures never { result ≢ Err RowFault.Device }
{
    if are_plain(&turn) {
        Ok(turn)
    } else {
        Err(RowFault::BadRow)
    }
}

/// The changes of the journal's row of this number.
fn turn_of(alloc: Global, row: &Row, number: u64) -> Result<Vec<Change>, RowFault>
    ensures read { IfOk result (λ turn. IsEntry (entry_of row.now) number (map pair_of turn.items)) }
    ensures bad { result ≡ Err RowFault.BadRow → (changes : List Pair) → ¬ (IsEntry (entry_of row.now) number changes) }
    ensures never { result ≢ Err RowFault.Device }
{
    if !is_numbered(row, number) {
        return Err(RowFault::BadRow);
    }
    match whole_turn(alloc, &row.value) {
        Ok(turn) => plain_turn(turn),
        Err(FieldFault::NoMemory) => Err(RowFault::NoMemory),
        Err(_) => Err(RowFault::BadRow),
    }
}

/// Reads the journal's next row.
fn read_entry(alloc: Global, row: &Row, journal: &mut Journal) -> Result<(), RowFault>
    requires { journal.old.count + 1 < 2 ^ 64 }
    ensures read { OnOk result ((changes : List Pair) × IsEntry (entry_of row.now) journal.old.count changes
        × (map pair_of journal.new.noted.items ≡ map pair_of journal.old.noted.items ++ changes)) }
    ensures count { OnOk result (journal.new.count ≡ journal.old.count + 1) }
    ensures bad { result ≡ Err RowFault.BadRow → (changes : List Pair) → ¬ (IsEntry (entry_of row.now) journal.old.count changes) }
    ensures never { result ≢ Err RowFault.Device }
{
    let mut turn = turn_of(alloc, row, journal.count)?;
    journal.held = journal.held.saturating_add(total_len(&turn));
    journal.noted.append(&mut turn)?;
    journal.count += 1;
    journal.bytes = journal.bytes.saturating_add(row.value.len());
    Ok(())
}

/// Reads the next row, which may be of another kind.
fn read_row(alloc: Global, row: &Row, journal: &mut Journal) -> Result<(), RowFault>
    requires { journal.old.count + 1 < 2 ^ 64 }
    ensures read { OnOk result ((rows : List Plain) → IsRead rows journal.old.noted.items journal.old.count
        → IsRead (rows ++ entry_of row.now ∷ []) journal.new.noted.items journal.new.count) }
    ensures few { OnOk result (journal.new.count ≤ journal.old.count + 1) }
    ensures bad { result ≡ Err RowFault.BadRow → (rows rest : List Plain) → IsRead rows journal.old.noted.items journal.old.count
        → ¬ (AreTurns ((rows ++ entry_of row.now ∷ []) ++ rest)) }
    ensures never { result ≢ Err RowFault.Device }
{
    if row.kind == JOURNAL {
        read_entry(alloc, row, journal)
    } else {
        Ok(())
    }
}

/// The journal among these rows, which are in the order of their keys. `BadRow` is answered where the rows of its kind aren't one.
fn read_journal(alloc: Global, rows: &[Row]) -> Result<Journal, RowFault>
    ensures read { IfOk result (λ journal. IsRead (map entry_of rows.now) journal.noted.items journal.count) }
    ensures few { IfOk result (λ journal. journal.count < 2 ^ 64) }
    ensures bad { AreTurns (map entry_of rows.now) → result ≢ Err RowFault.BadRow }
    ensures never { result ≢ Err RowFault.Device }
{
    let mut journal = Journal {
        noted: Vec::new(alloc),
        held: 0,
        folding: None,
        count: 0,
        bytes: 0,
        tops: BTreeMap::new(alloc),
    };
    for row in rows {
        read_row(alloc, row, &mut journal)?;
    }
    Ok(journal)
}

/// The journal among these rows, which are all rows of a store, in the order of their keys, and what is known of the others.
fn journal_of(alloc: Global, rows: &[Row]) -> Result<Journal, RowFault>
    ensures kept { (c : Content) → map entry_of rows.now ≡ entries c → IfOk result (λ journal. IsKept c journal.noted.items journal.count journal.tops.entries) }
    ensures bad { (c : Content) → map entry_of rows.now ≡ entries c → IsJournaled c → result ≢ Err RowFault.BadRow }
{
    let mut journal = read_journal(alloc, rows)?;
    take_rows(alloc, &mut journal.tops, rows)?;
    Ok(journal)
}

/// The journal in a store, all rows of which are loaded. `BadRow` is answered where its rows of the journal's kind aren't one.
pub(crate) fn journal_in<R: RowStore>(alloc: Global, rows: &mut R) -> Result<Journal, RowFault>
    ensures noted { R.is_clean rows.new → R.is_open rows.old → IfOk result (λ journal. IsKept (R.content rows.old) journal.noted.items journal.count journal.tops.entries) }
    ensures same { R.is_clean rows.new → R.is_open rows.new → R.content rows.new ≡ R.content rows.old }
    ensures crash { R.is_clean rows.new → R.is_open rows.old → (c : Content) → R.may_leave rows.new c → c ≡ R.content rows.old }
    ensures bad { R.is_clean rows.new → R.is_open rows.old → IsJournaled (R.content rows.old) → result ≢ Err RowFault.BadRow }
    ensures opens { R.is_clean rows.new → R.is_open rows.old → OnOk result (R.is_open rows.new) }
    ensures was_clean { R.is_clean rows.new → R.is_clean rows.old }
    ensures was_open { R.is_clean rows.new → R.is_open rows.new → R.is_open rows.old }
{
    match rows.load() {
        Ok(found) => journal_of(alloc, &found),
        Err(fault) => Err(fault),
    }
}
