//! The rows of a database, read from copies of its files.

ghost use Rattle.std.specs.Prelude.{◌≡◌, ◌≢◌, Err, map, IfOk};
ghost use Rattle.std.specs.FinMap.{entries};
ghost use Rattle.row_store.specs.Rows.{entry_of};
ghost use Rattle.sqlite.specs.Files.{file_state, image_of};
ghost use Rattle.sqlite_disk.specs.Memory.{memory_bytes};
ghost use Rattle.row_database.specs.Copied.{AreForeign, IsAnswer, IsHonest, IsOther, Show, ShowRowsOf};

use crate::fault::{OpenFault, fault_of_error, fault_of_rows};
use crate::{BOUNDS, adopt};
use row_journal::JournaledRows;
use row_store::{Row, RowStore};
use sqlite::{Connection, FileStore, Files, Options};
use sqlite_disk::{Disk, Memory};
use std::alloc::Global;
use std::io;

/// A file in memory with these bytes.
fn file_of(alloc: Global, bytes: &[u8]) -> io::Result<Memory>
    ensures { IfOk result (λ file. memory_bytes file ≡ bytes.now) }
{
    let mut file = Memory::new(alloc);
    file.write_at(0, bytes)?;
    if file.may_be_used() {
        file.sync()?;
    }
    Ok(file)
}

fn files_of(alloc: Global, database: &[u8], log: &[u8]) -> io::Result<Files<Memory>>
    ensures { IfOk result (λ files. (memory_bytes files.log ≡ log.now) × (memory_bytes files.db ≡ database.now)) }
{
    Ok(Files {
        log: file_of(alloc, log)?,
        db: file_of(alloc, database)?,
    })
}

/// The rows of a store.
fn rows_in<R: RowStore + Drop>(mut rows: R) -> Result<Vec<Row>, OpenFault>
    ensures loaded { ((r : R) → R.RowStore.is_clean r) → R.RowStore.is_open rows
        → IfOk result (λ loaded. map entry_of loaded.items ≡ entries (R.RowStore.content rows)) }
    ensures formed { ((r : R) → R.RowStore.is_clean r) → R.RowStore.is_open rows → result ≢ Err OpenFault.Foreign }
    ensures named { IsAnswer result }
{
    match rows.load() {
        Ok(loaded) => Ok(loaded),
        Err(fault) => Err(fault_of_rows(fault)),
    }
}

/// The rows of a database on these files.
fn rows_on<D: Disk + Drop>(alloc: Global, files: Files<D>) -> Result<Vec<Row>, OpenFault>
    ensures rows { IsHonest D.Disk → IfOk result (λ rows. Show (image_of D.Disk files) rows.items) }
    ensures foreign { IsHonest D.Disk → result ≡ Err OpenFault.Foreign → AreForeign (image_of D.Disk files) }
    ensures named { IsHonest D.Disk → IsAnswer result }
{
    if !files.may_be_used() {
        return Err(OpenFault::Device);
    }
    match Connection::open_files(alloc, files, Options::new(0)) {
        Ok(conn) => rows_over(alloc, conn),
        Err((error, _)) => Err(fault_of_error(&error)),
    }
}

/// The rows of a connection that is in no transaction.
fn rows_over<D: Disk + Drop>(
    alloc: Global,
    conn: Connection<FileStore<D>>,
) -> Result<Vec<Row>, OpenFault>
    ensures rows { IsHonest D.Disk → IfOk result (λ rows. ShowRowsOf (file_state conn).now rows.items) }
    ensures foreign { IsHonest D.Disk → result ≡ Err OpenFault.Foreign → IsOther (file_state conn).now }
    ensures named { IsAnswer result }
{
    match adopt(conn) {
        Ok(rows) => match JournaledRows::open(alloc, rows, BOUNDS) {
            Ok(rows) => rows_in(rows),
            Err((fault, _)) => Err(fault_of_rows(fault)),
        },
        Err(fault) => Err(fault_of_rows(fault)),
    }
}

/// The rows that a database shows whose file and log have these bytes, in the order of their keys. It is opened on copies in memory, so
/// nothing is written anywhere.
///
/// `Foreign` is answered only where they hold a database with anything but the table of rows, or with rows of the journal's kind that are no journal. `Locked` and
/// `Refused` are never answered.
pub fn copied_rows(alloc: Global, database: &[u8], log: &[u8]) -> Result<Vec<Row>, OpenFault>
    ensures rows { IfOk result (λ rows. Show (record { log = log.now; db = database.now }) rows.items) }
    ensures foreign { result ≡ Err OpenFault.Foreign → AreForeign (record { log = log.now; db = database.now }) }
    ensures named { IsAnswer result }
{
    match files_of(alloc, database, log) {
        Ok(files) => rows_on(alloc, files),
        Err(_) => Err(OpenFault::NoMemory),
    }
}
