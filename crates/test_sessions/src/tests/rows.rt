//! Rows and changes of a session, as text.

use mqtt_sessions::Session;
use row_store::{Change, Row};
use std::alloc::Global;
use std::process::Abort;

fn row_text(rt: &impl Abort, alloc: Global, row: &Row) -> String {
    let owner = hex::encode(alloc, &row.owner).expect(rt, "memory");
    let place = hex::encode(alloc, &row.place).expect(rt, "memory");
    let value = hex::encode(alloc, &row.value).expect(rt, "memory");
    format!(in alloc; "{} {owner} {place} {value};", row.kind).expect(rt, "memory")
}

fn change_text(rt: &impl Abort, alloc: Global, change: &Change) -> String {
    match change {
        Change::Put(row) => {
            let row = row_text(rt, alloc, row);
            format!(in alloc; "put {row}").expect(rt, "memory")
        }
        Change::Remove(kind, owner, place) => {
            let owner = hex::encode(alloc, owner).expect(rt, "memory");
            let place = hex::encode(alloc, place).expect(rt, "memory");
            format!(in alloc; "remove {kind} {owner} {place};").expect(rt, "memory")
        }
    }
}

/// The changes of its rows, and before them what was told last of its own row where they name it.
pub fn changes(rt: &impl Abort, alloc: Global, session: &mut Session) -> String {
    let mut changes = Vec::new(alloc);
    let mut own = session.changes(&mut changes).ok().expect(rt, "no fault");
    changes.append(&mut own).expect(rt, "memory");
    let mut text = String::new(alloc);
    for change in &changes {
        let one = change_text(rt, alloc, change);
        text.push_str(one.as_str()).expect(rt, "memory");
    }
    text
}

/// Its rows.
pub fn rows(rt: &impl Abort, alloc: Global, session: &Session) -> String {
    let rows = session.rows().ok().expect(rt, "no fault");
    let mut text = String::new(alloc);
    for row in &rows {
        let one = row_text(rt, alloc, row);
        text.push_str(one.as_str()).expect(rt, "memory");
    }
    text
}

/// The session that is opened from its rows.
pub fn reopened(rt: &impl Abort, alloc: Global, session: &Session) -> Session {
    let rows = session.rows().ok().expect(rt, "no fault");
    Session::from_rows(alloc, &rows)
        .ok()
        .expect(rt, "a session")
}
