//! The text of what was dropped.

ghost use Rattle.std.specs.Prelude.{◌≡◌, count_by, not, string_bytes, IfOk};
ghost use Rattle.cli_reports.specs.Dropped.{is_of_session, told};

use mqtt_fields::NoMemory;
use row_store::Change;
use row_store::kinds::SESSION;
use std::alloc::Global;

/// Whether a change is of a session's own row.
fn is_of_session(change: &Change) -> bool
    ensures { result ≡ is_of_session change.now }
{
    match change {
        Change::Put(row) => row.kind == SESSION,
        Change::Remove(kind, _, _) => *kind == SESSION,
    }
}

/// How many of the changes are of sessions' own rows.
fn sessions_in(changes: &[Change]) -> usize
    ensures { result ≡ count_by is_of_session changes.now }
{
    changes
        .iter()
        .filter(|change| is_of_session(change))
        .count()
}

/// How many of the changes are of messages.
fn messages_in(changes: &[Change]) -> usize
    ensures { result ≡ count_by (λ change. not (is_of_session change)) changes.now }
{
    changes
        .iter()
        .filter(|change| !is_of_session(change))
        .count()
}

/// What was dropped, line by line: how many sessions and messages.
pub fn dropped_text(alloc: Global, changes: &[Change]) -> Result<String, NoMemory>
    ensures { IfOk result (λ text. string_bytes text ≡ told changes.now) }
{
    let mut text = String::new(alloc);
    let sessions = sessions_in(changes);
    let messages = messages_in(changes);
    writeln!(&mut text, "sessions {sessions}")?;
    writeln!(&mut text, "messages {messages}")?;
    Ok(text)
}
