//! Rows in a table of a SQL database.
ghost use Rattle.std.specs.Prelude.{◌≡◌, ◌≢◌, ◌⊎◌, ◌↔◌, ◌≤◌, ◌<◌, ◌^◌, ◌-◌, false, Err, None, map, T, IsTrue, IsOk, IfOk, IfErr, IsErrAnd, OnOk, OnErr};
ghost use Rattle.std.specs.FinMap.{empty, is_sorted};
ghost use Rattle.std.specs.List.Sorted.{IsPermutation};
ghost use Rattle.std.proofs.Common.{ap, ◌∙◌};
ghost use Rattle.sqlite.specs.Held.{state};
ghost use Rattle.sqlite.specs.State.{HasCleanDisk, Survives};
ghost use Rattle.sqlite.specs.View.{doubt};
ghost use Rattle.session_records.specs.Connections.{Adopts, HasDiskFailed, IsForeign, IsSameAs, Leaves, Stays};
ghost use Rattle.row_store.specs.Rows.{Content, entry_of, key_cmp};
ghost use Rattle.session_records.specs.Stored.{IsFormed, content_in, entry_in, held};
ghost use Rattle.session_records.specs.Table.{no_schema, rows_schema};

use crate::found::read_rows;
use crate::schema::{is_blank, is_ours};
use crate::statements::{commit_changes, has_form, make_table, query_rows};
use row_store::{Change, Row, RowFault, RowStore, are_rising};
use sqlite::{Alter, Connection, Error, ErrorCode};
use std::marker::Model;

/// Rows in a table of a SQL database. Each `apply` is one transaction.
#[derive(Drop)]
pub struct SqlRows<S: Alter> {
    conn: Connection<S>,
    failures: u64,
}

impl<S: Alter> Model for SqlRows<S> {
    ghost use Rattle.std.specs.Prelude.{ℕ, false, ◌≡◌};
    ghost use Rattle.std.specs.Coded.{coded×, coded_ℕ};
    ghost use Rattle.sqlite.specs.Held.{Held, held_code, state};
    ghost use Rattle.session_records.specs.Connections.{IsKept};

    ghost Value = { Held S × ℕ };

    ghost coded = { coded× (held_code S.code) coded_ℕ };

    ghost view = { λ r. (r.conn, r.failures) };

    ghost invariant = { λ r. (r.conn.in_transaction ≡ false) × IsKept (state S.Store r.conn) };
}

fn fault_of(error: &Error, failures: &mut u64) -> RowFault
    ensures counts { result ≢ RowFault.Device → failures.new ≡ failures.old }
    ensures device { result ≡ RowFault.Device → (failures.old < failures.new) ⊎ (failures.new ≡ 2 ^ 64 - 1) }
    ensures never { result ≢ RowFault.BadRow }
    ensures memory { (result ≡ RowFault.NoMemory) ↔ (error.now ≡ Error.SqliteFailure ErrorCode.OutOfMemory) }
{
    match error {
        Error::SqliteFailure(ErrorCode::OutOfMemory) => RowFault::NoMemory,
        _ => {
            *failures = failures.saturating_add(1);
            RowFault::Device
        }
    }
}

/// All rows, in the order of their keys, with a failure counted.
fn all_rows<S: Alter>(conn: &mut Connection<S>, failures: &mut u64) -> Result<Vec<Row>, RowFault>
    requires { conn.old.in_transaction ≡ false }
    ensures mode { conn.new.in_transaction ≡ false }
    ensures rows { HasCleanDisk (state S.Store conn.new) → (state S.Store conn.old).now.schema ≡ rows_schema
        → IfOk result (λ rows. IsPermutation (map entry_in ((state S.Store conn.old).now.trees 0)) (map entry_of rows.items) × T (is_sorted key_cmp (map entry_of rows.items))) }
    ensures formed { HasCleanDisk (state S.Store conn.new) → IsFormed (state S.Store conn.old).now → result ≢ Err RowFault.BadRow }
    ensures same { HasCleanDisk (state S.Store conn.new) → (state S.Store conn.old).now.schema ≡ rows_schema
        → (result ≡ Err RowFault.BadRow) ⊎ IsOk result → IsSameAs (state S.Store conn.old) (state S.Store conn.new) }
    ensures stays { HasCleanDisk (state S.Store conn.new) → (state S.Store conn.old).now.schema ≡ rows_schema
        → Stays (state S.Store conn.old) (state S.Store conn.new) }
    ensures cause { HasCleanDisk (state S.Store conn.new) → (state S.Store conn.old).now.schema ≡ rows_schema → conn.old.step_limit ≡ None
        → result ≡ Err RowFault.Device → HasDiskFailed (state S.Store conn.old) (state S.Store conn.new) }
    ensures was_open { HasCleanDisk (state S.Store conn.new) → IsTrue (state S.Store conn.new).is_open → IsTrue (state S.Store conn.old).is_open }
    ensures clean { doubt (state S.Store conn.old).is_clean ≤ doubt (state S.Store conn.new).is_clean }
    ensures survives { (state S.Store conn.old).now.schema ≡ rows_schema → Survives (state S.Store conn.old) (state S.Store conn.new) (λ _. ⊥) }
    ensures device { result ≡ Err RowFault.Device → (failures.old < failures.new) ⊎ (failures.new ≡ 2 ^ 64 - 1) }
    ensures counts { result ≢ Err RowFault.Device → failures.new ≡ failures.old }
{
    let found = match query_rows(conn) {
        Ok(found) => found,
        Err(error) => return Err(fault_of(&error, failures)),
    };
    match read_rows(*found.allocator(), &found) {
        Ok(rows) if are_rising(&rows) => Ok(rows),
        Ok(_) => Err(RowFault::BadRow),
        Err(fault) => Err(fault),
    }
}

impl<S: Alter> RowStore for SqlRows<S> {
    ghost content = { λ r. held (state S.Store r.0).committed };

    ghost is_clean = { λ r. HasCleanDisk (state S.Store r.0) };

    ghost is_open = { λ r. IsTrue (state S.Store r.0).is_open };

    ghost may_leave = { λ r. Leaves (state S.Store r.0) };

    ghost failed = { λ r. r.1 };

    fn failures(&self) -> u64 {
        self.failures
    }

    fn apply(&mut self, changes: &[Change]) -> Result<(), RowFault> {
        if changes.is_empty() {
            return Ok(());
        }
        match commit_changes(&mut self.conn, changes) {
            Ok(()) => Ok(()),
            Err(error) => Err(fault_of(&error, &mut self.failures)),
        }
    }

    fn load(&mut self) -> Result<Vec<Row>, RowFault> {
        all_rows(&mut self.conn, &mut self.failures)
    }

    ghost settled = { λ s c up left. left.2 ∙ ap (λ trees. content_in (trees 0)) (S.Store.settled s.0.store left.0 up left.1) };
}

/// Makes the table where there is nothing, and tests it where it is.
fn take_table<S: Alter>(conn: &mut Connection<S>, failures: &mut u64) -> Result<(), RowFault>
    requires { conn.old.in_transaction ≡ false }
    ensures mode { conn.new.in_transaction ≡ false }
    ensures clean { doubt (state S.Store conn.old).is_clean ≤ doubt (state S.Store conn.new).is_clean }
    ensures ok { HasCleanDisk (state S.Store conn.new)
        → OnOk result (IsTrue (state S.Store conn.new).is_open × IsFormed (state S.Store conn.new).now × ((state S.Store conn.new).committed ≡ (state S.Store conn.new).now) × Adopts (state S.Store conn.old) (state S.Store conn.new)) }
    ensures err { HasCleanDisk (state S.Store conn.new) → IsTrue (state S.Store conn.new).is_open
        → OnErr result (IsSameAs (state S.Store conn.old) (state S.Store conn.new)) }
    ensures bad { HasCleanDisk (state S.Store conn.new) → result ≡ Err RowFault.BadRow
        → (IsTrue (state S.Store conn.old).is_open → IsTrue (state S.Store conn.new).is_open) × IsForeign (state S.Store conn.old).now }
    ensures other { (state S.Store conn.old).now.schema ≢ no_schema → (state S.Store conn.old).now.schema ≢ rows_schema → result ≡ Err RowFault.BadRow }
    ensures cause { HasCleanDisk (state S.Store conn.new) → conn.old.step_limit ≡ None
        → result ≡ Err RowFault.Device → HasDiskFailed (state S.Store conn.old) (state S.Store conn.new) }
    ensures crash { HasCleanDisk (state S.Store conn.new) → (c : Content) → Leaves (state S.Store conn.new) c → Leaves (state S.Store conn.old) c ⊎ (c ≡ empty) }
{
    if !conn.is_autocommit() {
        return Err(RowFault::Device);
    }
    if is_blank(conn.schema()) {
        return match make_table(conn) {
            Ok(()) => Ok(()),
            Err(error) => Err(fault_of(&error, failures)),
        };
    }
    if !is_ours(conn.schema()) {
        return Err(RowFault::BadRow);
    }
    match has_form(conn) {
        Ok(true) => {
            all_rows(conn, failures)?;
            Ok(())
        }
        Ok(false) => Err(RowFault::BadRow),
        Err(error) => Err(fault_of(&error, failures)),
    }
}

impl<S: Alter> SqlRows<S> {
    /// Takes a database that is empty, in which it makes the table, or one that has the table and
    /// nothing else. `BadRow` is answered for any other, which is left as it was. `Device` is answered
    /// only where the connection was shut, or its disk has failed.
    pub fn adopt(mut conn: Connection<S>) -> Result<SqlRows<S>, (RowFault, Connection<S>)>
        requires { conn.in_transaction ≡ false }
        ensures ok { IfOk result (λ r. HasCleanDisk (state S.Store r.0) → IsTrue (state S.Store r.0).is_open × Adopts (state S.Store conn) (state S.Store r.0)) }
        // What is clean was so before.
        ensures was_clean { IfOk result (λ r. HasCleanDisk (state S.Store r.0) → HasCleanDisk (state S.Store conn)) }
        ensures fresh { IfOk result (λ r. r.1 ≡ 0) }
        ensures err { IfErr result (λ e. HasCleanDisk (state S.Store e.1) → IsTrue (state S.Store e.1).is_open → IsSameAs (state S.Store conn) (state S.Store e.1)) }
        ensures bad { IfErr result (λ e. HasCleanDisk (state S.Store e.1) → e.0 ≡ RowFault.BadRow
            → (IsTrue (state S.Store conn).is_open → IsTrue (state S.Store e.1).is_open) × IsForeign (state S.Store conn).now) }
        // Where it has anything but the table of rows it's a bad row, and the disk is to blame only where it has failed.
        ensures other { (state S.Store conn).now.schema ≢ no_schema → (state S.Store conn).now.schema ≢ rows_schema → IsErrAnd result (λ e. e.0 ≡ RowFault.BadRow) }
        ensures device { IfErr result (λ e. HasCleanDisk (state S.Store e.1) → e.0 ≡ RowFault.Device → HasDiskFailed (state S.Store conn) (state S.Store e.1)) }
        ensures crash { IfOk result (λ r. HasCleanDisk (state S.Store r.0) → (c : Content) → Leaves (state S.Store r.0) c → Leaves (state S.Store conn) c ⊎ (c ≡ empty)) }
        ensures crash_err { IfErr result (λ e. HasCleanDisk (state S.Store e.1) → (c : Content) → Leaves (state S.Store e.1) c → Leaves (state S.Store conn) c ⊎ (c ≡ empty)) }
    {
        conn.set_step_limit(None);
        let mut failures = 0;
        match take_table(&mut conn, &mut failures) {
            Ok(()) => Ok(SqlRows { conn, failures: 0 }),
            Err(fault) => Err((fault, conn)),
        }
    }

    /// The connection, as it is. It takes no memory.
    pub fn into_connection(self) -> Connection<S>
        ensures { result ≡ self.0 }
    {
        let SqlRows { conn, failures: _ } = self;
        conn
    }
}
