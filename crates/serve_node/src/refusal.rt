//! What is told where nobody can be accepted, where clients are held back, and where a link of another node is closed.

ghost use Rattle.std.specs.Prelude.{OnOk};
ghost use Rattle.std.specs.Io.KnownBytes.{Appends};
ghost use Rattle.std.specs.IoError.{error_kind, raw_os_error};
ghost use Rattle.cli_stops.specs.Answers.{answer_in};
ghost use Rattle.serve_node.specs.Refusals.{held_line, refusal_line, stranger_line};

use cli_stops::{Answer, answer_of};
use std::io::{self, Write};

/// Writes why nobody can be accepted, as a line.
pub(crate) fn tell_refusal<E: Write>(error: &mut E, failure: &io::Error) -> io::Result<()>
    ensures { OnOk result (Appends (E.contents error.old) (E.contents error.new) (refusal_line (answer_in (error_kind failure.now) (raw_os_error failure.now)))) }
{
    match answer_of(failure) {
        Answer::Number(23 | 24) => {
            writeln!(error, "broker: accepting clients: too many open files")
        }
        answer => writeln!(error, "broker: accepting clients: {answer}"),
    }
}

/// Writes that clients are held back, as a line.
pub(crate) fn tell_held<E: Write>(error: &mut E) -> io::Result<()>
    ensures { OnOk result (Appends (E.contents error.old) (E.contents error.new) held_line) }
{
    writeln!(
        error,
        "broker: more than 4096 messages wait for another node: clients that publish are held back"
    )
}

/// Writes that a link from an address was closed, as a line.
#[tactic(auto, unfolding(crate::specs::Refusals::stranger_line))]
pub(crate) fn tell_stranger<E: Write>(error: &mut E, address: &str) -> io::Result<()>
    ensures { OnOk result (Appends (E.contents error.old) (E.contents error.new) (stranger_line address.now)) }
{
    writeln!(
        error,
        "broker: a link from {address} was closed: no bridge of the table of homes has that address (--bridge-from-anywhere takes it)"
    )
}
