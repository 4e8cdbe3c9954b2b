//! A store of rows is filled and loaded.

use bench_clock::{Failure, Stopwatch, ensure};
use row_store::{Change, Row, RowStore};
use std::alloc::Global;
use std::time::Instant;

/// How many rows there are in the end.
const ROWS: u64 = 20_000;

/// How many rows a large step puts.
const STEP: u64 = 1_000;

/// Turns of a broker: how many clients take part in each, how many copies come for each of them, whether those of the turn before go, and how many
/// turns there are.
#[derive(Clone, Copy)]
pub struct Turns {
    clients: u64,
    copies: u64,
    go: bool,
    count: u64,
}

/// Turns of a hundred clients with one copy each.
pub const SINGLE: Turns = Turns {
    clients: 100,
    copies: 1,
    go: true,
    count: 50,
};

/// Turns of ten clients with sixteen copies each.
pub const RUNS: Turns = Turns {
    clients: 10,
    copies: 16,
    go: true,
    count: 32,
};

/// 30,000 copies that join the queue of one client, 32 in a turn.
pub const JOINING: Turns = Turns {
    clients: 1,
    copies: 32,
    go: false,
    count: 938,
};

/// The same, but that each copy goes in the turn after its own.
pub const PASSING: Turns = Turns {
    clients: 1,
    copies: 32,
    go: true,
    count: 938,
};

/// The bytes of a value.
const VALUE: [u8; 64] = [0x78; 64];

/// The row at a place of one owner is put.
fn put(alloc: Global, place: u64) -> Result<Change, Failure> {
    Ok(Change::Put(Row {
        kind: 3,
        owner: Vec::from_slice(alloc, b"client")?,
        place: Vec::from_slice(alloc, &place.to_be_bytes())?,
        value: Vec::from_slice(alloc, &VALUE)?,
    }))
}

/// The rows of so many places are put, from this one on.
fn step(alloc: Global, first: u64, count: u64) -> Result<Vec<Change>, Failure> {
    let mut changes = Vec::new(alloc);
    for n in 0..count {
        changes.push(put(alloc, first.saturating_add(n))?)?;
    }
    Ok(changes)
}

/// One step is made.
fn apply<R: RowStore>(alloc: Global, rows: &mut R, first: u64, count: u64) -> Result<(), Failure> {
    let changes = step(alloc, first, count)?;
    ensure(rows.apply(&changes).is_ok())
}

/// So many rows are put, in steps of so many.
fn fill<R: RowStore>(alloc: Global, rows: &mut R, count: u64, each: u64) -> Result<(), Failure> {
    for i in 0..count / each.max(1) {
        apply(alloc, rows, i.saturating_mul(each), each)?;
    }
    Ok(())
}

/// How many rows are loaded.
fn loaded<R: RowStore>(rows: &mut R) -> Result<u64, Failure> {
    match rows.load() {
        Ok(rows) => Ok(rows.len() as u64),
        Err(_) => Err(Failure::Answer),
    }
}

/// Loads all rows.
pub fn load_again<R: RowStore>(rt: &HostRuntime, rows: &mut R) -> Result<(), Failure> {
    let watch = Stopwatch::start(rt)?;
    ensure(loaded(rows)? == ROWS)?;
    watch.print(rt, "rows loaded", ROWS)?;
    Ok(())
}

/// Puts so many rows one by one, then all of them a thousand at once, and loads them.
pub fn fill_and_load<R: RowStore>(
    rt: &HostRuntime,
    rows: &mut R,
    single: u64,
) -> Result<(), Failure> {
    let watch = Stopwatch::start(rt)?;
    fill(rt.alloc(), rows, single, 1)?;
    watch.print(rt, "rows put one by one", single)?;
    let watch = Stopwatch::start(rt)?;
    fill(rt.alloc(), rows, ROWS, STEP)?;
    watch.print(rt, "rows put a thousand at once", ROWS)?;
    load_again(rt, rows)
}

/// A row of a client at a place.
fn row_of(alloc: Global, kind: u8, client: u64, place: &[u8]) -> Result<Row, Failure> {
    Ok(Row {
        kind,
        owner: Vec::from_slice(alloc, &client.to_be_bytes())?,
        place: Vec::from_slice(alloc, place)?,
        value: Vec::from_slice(alloc, &VALUE)?,
    })
}

/// What a turn makes of a client: the copies that it had go, if they do, and as many come after them.
fn copies(
    changes: &mut Vec<Change>,
    alloc: Global,
    client: u64,
    turn: u64,
    turns: Turns,
) -> Result<(), Failure> {
    let count = turns.copies;
    let next = turn.saturating_mul(count);
    let gone = if turns.go { count } else { 0 };
    for place in next.saturating_sub(gone)..next {
        let gone = row_of(alloc, 3, client, &place.to_be_bytes())?;
        changes.push(Change::Remove(gone.kind, gone.owner, gone.place))?;
    }
    for place in next..next.saturating_add(count) {
        changes.push(Change::Put(row_of(alloc, 3, client, &place.to_be_bytes())?))?;
    }
    Ok(())
}

/// The changes of a turn, in the order of their keys: each client's session is put again, and its copies follow.
fn turn_of(alloc: Global, turns: Turns, turn: u64) -> Result<Vec<Change>, Failure> {
    let mut changes = Vec::new(alloc);
    for client in 0..turns.clients {
        changes.push(Change::Put(row_of(alloc, 2, client, &[])?))?;
    }
    for client in 0..turns.clients {
        copies(&mut changes, alloc, client, turn, turns)?;
    }
    Ok(changes)
}

/// Makes a turn, and gives the microseconds that it took.
fn make_turn<R: RowStore>(
    rt: &HostRuntime,
    rows: &mut R,
    turns: Turns,
    turn: u64,
) -> Result<u64, Failure> {
    let changes = turn_of(rt.alloc(), turns, turn)?;
    let start = Instant::now(rt)?;
    ensure(rows.apply(&changes).is_ok())?;
    Ok(u64::try_from(start.elapsed(rt)?.as_micros()).unwrap_or(u64::MAX))
}

/// Prints how long the turns took, of which the times are these: half of them, 99 of 100, and the longest.
fn print_times(rt: &HostRuntime, mut times: Vec<u64>) -> Result<(), Failure> {
    times.sort()?;
    let count = times.len();
    let at = |n: usize| times.get(n).copied().unwrap_or(0);
    let (half, most, longest) = (
        at(count / 2),
        at(count - count / 100),
        at(count.saturating_sub(1)),
    );
    println!(rt; "half of the turns: {half} us, 99 of 100: {most} us, the longest: {longest} us")?;
    Ok(())
}

/// Makes the turns, with a message for each copy that comes.
pub fn make_turns<R: RowStore>(
    rt: &HostRuntime,
    rows: &mut R,
    turns: Turns,
) -> Result<(), Failure> {
    let watch = Stopwatch::start(rt)?;
    let mut times = Vec::new(rt.alloc());
    for turn in 0..turns.count {
        times.push(make_turn(rt, rows, turns, turn)?)?;
    }
    let each = turns.clients.saturating_mul(turns.copies);
    watch.print(rt, "messages in turns", turns.count.saturating_mul(each))?;
    print_times(rt, times)
}
