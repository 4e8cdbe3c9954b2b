//! Rows of version 1 or 2 in a database file and its log, either of which stops, or refuses a call, while a node is opened from them and
//! evicts a client: opened again, the database has those rows, or all of version 3, or all that the eviction leaves, and a node is opened from
//! it.

use crate::versions::{Version, put_older, version_in};
use broker_node::{Event, EventKind};
use home_table::homes_of;
use mqtt_fields::Text;
use node_keeper::{Keeper, KeeperFault};
use row_store::{RowFault, RowStore};
use sqlite::{Alter, Connection, Files};
use sqlite_disk::Disk;
use std::alloc::Global;
use std::process::Abort;
use trial_files::{
    Left, StoppingFile, Trouble, adopted, calls_of, files_of, leavings, left, opened,
    stopping_files,
};

// More calls of a file than a run makes.
const MOST_CALLS: u64 = 1000;

/// What is done with the rows of a database.
#[derive(Clone, Copy)]
enum Task {
    /// Puts rows of an older version, and closes it.
    Put(Version),
    /// Opens a node from rows of an older version, which evicts a client, and closes it where that is done.
    Evict,
    /// Finds rows that a run leaves which came so far, of this version at first, and opens a node from them.
    Look(Version, Reached),
}

/// How far a run came.
#[derive(Clone, Copy, PartialEq, Eq)]
enum Reached {
    Nothing,
    /// The node was opened, and has stopped at its event.
    Opened,
    /// All is done.
    Done,
}

/// Opens node 1 from the rows: how many subscriptions stand, or the fault; and the rows.
fn node_of<R: RowStore + Drop>(
    rt: &impl Abort,
    alloc: Global,
    rows: R,
) -> (Result<usize, KeeperFault>, R) {
    let homes = homes_of(alloc, 2).expect(rt, "a table");
    match Keeper::open(alloc, rows, homes, 1) {
        Ok(keeper) => {
            let stand = keeper.node().store().subscriptions().live_count();
            (Ok(stand), keeper.into_rows())
        }
        Err((fault, rows)) => (Err(fault), rows),
    }
}

/// The fault of an event, if it has one.
fn fault_at<R: RowStore>(keeper: &mut Keeper<R>, kind: EventKind) -> Option<KeeperFault> {
    let event = Event { at: 0, kind };
    let fault = keeper.handle(&event).err();
    drop(event);
    fault
}

// How far a node comes that evicts its client; none where it doesn't stop at a fault of the disk, or has another one.
fn evicted<R: RowStore>(rt: &impl Abort, alloc: Global, keeper: &mut Keeper<R>) -> Option<Reached> {
    let client = Text::new(alloc, "a").ok().expect(rt, "memory");
    let started = fault_at(keeper, EventKind::Started);
    match fault_at(keeper, EventKind::Evict { client }) {
        None => started.is_none().then_some(Reached::Done),
        Some(KeeperFault::Rows(RowFault::Device)) => {
            let answer = fault_at(keeper, EventKind::Tick);
            (started.is_none() && answer == Some(KeeperFault::Stopped)).then_some(Reached::Opened)
        }
        Some(_) => None,
    }
}

// How far the node of these rows comes; none where it has another fault than that of the disk.
fn served<R: RowStore + Drop>(rt: &impl Abort, alloc: Global, rows: R) -> (R, Option<Reached>) {
    let homes = homes_of(alloc, 2).expect(rt, "a table");
    match Keeper::open(alloc, rows, homes, 1) {
        Ok(mut keeper) => {
            let reached = evicted(rt, alloc, &mut keeper);
            (keeper.into_rows(), reached)
        }
        Err((KeeperFault::Rows(RowFault::Device), rows)) => (rows, Some(Reached::Nothing)),
        Err((_, rows)) => (rows, None),
    }
}

// Whether these are the rows of a run that came so far.
fn are_left(found: Version, from: Version, reached: Reached) -> bool {
    match reached {
        Reached::Nothing => found == from || found == Version::Third,
        Reached::Opened => found == Version::Third || found == Version::Evicted,
        Reached::Done => found == Version::Evicted,
    }
}

// Whether a node is opened from the rows, which are of version 3 then: with the one subscription, or evicted with none.
fn goes_on<R: RowStore + Drop>(
    rt: &impl Abort,
    alloc: Global,
    rows: R,
    found: Version,
) -> (R, bool) {
    let (stand, mut rows) = node_of(rt, alloc, rows);
    let version = version_in(&mut rows).expect(rt, "rows");
    let goes_on = if found == Version::Evicted {
        stand == Ok(0) && version == Version::Evicted
    } else {
        stand == Ok(1) && version == Version::Third
    };
    (rows, goes_on)
}

// How far a task comes, or none where it doesn't come to what it must.
fn done<R: RowStore + Drop>(
    rt: &impl Abort,
    alloc: Global,
    mut rows: R,
    task: Task,
) -> (R, Option<Reached>) {
    match task {
        Task::Put(version) => {
            put_older(rt, alloc, &mut rows, version);
            (rows, Some(Reached::Done))
        }
        Task::Evict => served(rt, alloc, rows),
        Task::Look(from, reached) => {
            let found = version_in(&mut rows).expect(rt, "rows");
            let (rows, goes_on) = goes_on(rt, alloc, rows, found);
            let is_right = goes_on && are_left(found, from, reached);
            (rows, is_right.then_some(Reached::Done))
        }
    }
}

// The same where a database can't be opened, or isn't adopted.
fn undone(task: Task, fault: RowFault) -> Option<Reached> {
    match task {
        Task::Evict if fault == RowFault::Device => Some(Reached::Nothing),
        _ => None,
    }
}

fn closes(task: Task, reached: Option<Reached>) -> bool {
    match task {
        Task::Put(_) => true,
        Task::Evict => reached == Some(Reached::Done),
        Task::Look(_, _) => false,
    }
}

fn done_in<S: Alter + Drop>(
    rt: &impl Abort,
    alloc: Global,
    conn: Connection<S>,
    task: Task,
) -> (Left<S>, Option<Reached>) {
    match adopted(conn) {
        Ok(rows) => {
            let (rows, reached) = done(rt, alloc, rows, task);
            let left = left(rows.into_connection(), closes(task, reached));
            (left, reached)
        }
        Err((fault, conn)) => (left(conn, false), undone(task, fault)),
    }
}

fn done_with<D: Disk + Drop>(
    rt: &impl Abort,
    alloc: Global,
    files: Files<D>,
    seed: u64,
    task: Task,
) -> (Files<D>, Option<Reached>) {
    match opened(alloc, files, seed) {
        Ok(conn) => {
            let (left, reached) = done_in(rt, alloc, conn, task);
            (files_of(left), reached)
        }
        Err((fault, files)) => (files, undone(task, fault)),
    }
}

// The one call at these files, since each such call is long to prove.
fn run(
    rt: &impl Abort,
    alloc: Global,
    files: Files<StoppingFile>,
    seed: u64,
    task: Task,
) -> (Files<StoppingFile>, Option<Reached>) {
    done_with(rt, alloc, files, seed, task)
}

fn let_go(files: Files<StoppingFile>) {
    drop(files);
}

/// The bytes of a log and of a database file.
#[derive(Drop)]
struct Image {
    log: Vec<u8>,
    db: Vec<u8>,
}

// What was written of both files.
fn image_of(rt: &impl Abort, alloc: Global, files: &Files<StoppingFile>) -> Image {
    let log = Vec::from_slice(alloc, files.log.inner().inner().bytes()).expect(rt, "memory");
    let db = Vec::from_slice(alloc, files.db.inner().inner().bytes()).expect(rt, "memory");
    Image { log, db }
}

// A database that was closed with rows of an older version.
fn older_image(rt: &impl Abort, alloc: Global, version: Version) -> Image {
    let files = stopping_files(alloc, (&[], &[]), None).expect(rt, "memory");
    let (files, is_put) = run(rt, alloc, files, 1, Task::Put(version));
    assert!(rt; is_put.is_some(), "the rows can't be put");
    let image = image_of(rt, alloc, &files);
    let_go(files);
    image
}

// Whether files with these bytes have what a run leaves.
fn is_there(rt: &impl Abort, alloc: Global, log: &[u8], db: &[u8], look: Task) -> bool {
    let files = stopping_files(alloc, (log, db), None).expect(rt, "memory");
    let (files, found) = run(rt, alloc, files, 3, look);
    let_go(files);
    found.is_some()
}

fn are_there(
    rt: &impl Abort,
    alloc: Global,
    logs: &[Vec<u8>],
    dbs: &[Vec<u8>],
    look: Task,
) -> bool {
    for log in logs {
        for db in dbs {
            if !is_there(rt, alloc, log, db, look) {
                return false;
            }
        }
    }
    true
}

// Whether the files of a run can be opened again, whichever of them lost what was not synced.
fn is_left(rt: &impl Abort, alloc: Global, files: &mut Files<StoppingFile>, look: Task) -> bool {
    let logs = leavings(alloc, &mut files.log).expect(rt, "memory");
    let dbs = leavings(alloc, &mut files.db).expect(rt, "memory");
    let is_left = are_there(rt, alloc, &logs, &dbs, look);
    drop((logs, dbs));
    is_left
}

// Whether a run meets its trouble.
fn meets(
    rt: &impl Abort,
    alloc: Global,
    older: &Image,
    version: Version,
    trouble: Trouble,
) -> bool {
    let bytes = (older.log.as_slice(), older.db.as_slice());
    let files = stopping_files(alloc, bytes, Some(trouble)).expect(rt, "memory");
    let (mut files, reached) = run(rt, alloc, files, 2, Task::Evict);
    let reached = reached.expect(rt, "another answer than the disk's fault");
    let (log, db) = calls_of(&files);
    let is_left = is_left(rt, alloc, &mut files, Task::Look(version, reached));
    let_go(files);
    assert!(rt; is_left, "after {} calls", trouble.calls);
    let calls = if trouble.is_of_log { log } else { db };
    assert!(rt;
        calls > trouble.calls || reached == Reached::Done,
        "a fault without trouble"
    );
    calls > trouble.calls
}

// How many runs have trouble before one ends without any.
fn troubled_runs(
    rt: &impl Abort,
    alloc: Global,
    older: &Image,
    version: Version,
    is_of_log: bool,
    is_stop: bool,
) -> u64 {
    for calls in 0..MOST_CALLS {
        let trouble = Trouble {
            is_of_log,
            is_stop,
            calls,
        };
        if !meets(rt, alloc, older, version, trouble) {
            return calls;
        }
    }
    MOST_CALLS
}

// Each stop and refusal leaves the rows of this version, or those of version 3, with the client or without it.
fn leaves_either(rt: &impl Abort, alloc: Global, version: Version) {
    let older = older_image(rt, alloc, version);
    for (is_of_log, is_stop) in [(true, true), (true, false), (false, true), (false, false)] {
        let runs = troubled_runs(rt, alloc, &older, version, is_of_log, is_stop);
        assert!(rt;
            runs > 0 && runs < MOST_CALLS,
            "log {is_of_log}, stop {is_stop}"
        );
    }
    drop(older);
}

#[test]
fn each_stop_and_refusal_leaves_version_1_or_version_3(rt: HostRuntime) {
    leaves_either(&rt, rt.alloc(), Version::First);
}

#[test]
fn each_stop_and_refusal_leaves_version_2_or_version_3(rt: HostRuntime) {
    leaves_either(&rt, rt.alloc(), Version::Second);
}
