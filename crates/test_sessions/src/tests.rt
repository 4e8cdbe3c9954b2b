//! Worked examples: calls, and what each comes to.

mod copies;
mod handshakes;
mod kept_rows;
mod rows;
mod session_calls;
mod session_scripts;
mod slots;
mod table_calls;
mod table_script;
mod told;
mod words;

use crate::tests::session_calls::fresh;
use session_table::Sessions;
use std::alloc::Global;
use std::process::Abort;

/// A call, and what it comes to.
pub type Line = (&'static str, &'static str);

/// Plays lines to a session.
fn play(rt: &impl Abort, alloc: Global, lines: &[Line]) {
    let mut session = fresh(rt, alloc, "a");
    for (call, wanted) in lines {
        let text = session_calls::answered(rt, alloc, &mut session, call);
        assert_eq!(rt; text.as_str(), *wanted, "{call}");
    }
    drop(session);
}

#[test]
fn sessions_answer_their_calls(rt: HostRuntime) {
    for lines in session_scripts::ALL {
        play(&rt, rt.alloc(), lines);
    }
}

#[test]
fn a_full_queue_is_told(rt: HostRuntime) {
    play(&rt, rt.alloc(), &session_scripts::QUEUE);
}

/// Plays lines to a table of sessions.
fn play_table(rt: &impl Abort, alloc: Global, lines: &[Line]) {
    let mut sessions = Sessions::new(alloc);
    for (call, wanted) in lines {
        let text = table_calls::answered(rt, alloc, &mut sessions, call);
        assert_eq!(rt; text.as_str(), *wanted, "{call}");
    }
    drop(sessions);
}

#[test]
fn a_table_answers_its_calls(rt: HostRuntime) {
    play_table(&rt, rt.alloc(), &table_script::LINES);
}
