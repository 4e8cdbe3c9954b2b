//! How the program ends before its end, with what lies behind it.

ghost use Rattle.std.specs.Prelude.{◌≡◌, Some, None, MatchBool};
ghost use Rattle.cli_stops.specs.Stops.{status_of, is_help};
ghost use Rattle.cli_stops.specs.Causes.{ending_text};

use crate::Stop;
use crate::cause::Cause;
use std::fmt;
use std::io::Write;

/// How the program ends before its end, and what lies behind it, where that is told. Its `Display` is the text that it leaves: the line
/// of its end, and then one of its cause. It has no newline at its end.
#[derive(Debug, PartialEq, Eq, Drop)]
pub struct Ending {
    pub stop: Stop,
    pub cause: Option<Cause>,
}

impl Ending {
    /// Writes the text as lines, help to `out` and any other to `err`, and answers the exit status. A refused write changes nothing
    /// of it.
    pub fn tell<O: Write, E: Write>(&self, out: &mut O, err: &mut E) -> u8
        ensures status { result ≡ status_of self.now.stop }
        ensures one { MatchBool (is_help self.now.stop) (err.new ≡ err.old) (out.new ≡ out.old) }
    {
        let _ = match &self.stop {
            Stop::Help(_) => writeln!(out, "{self}"),
            _ => writeln!(err, "{self}"),
        };
        self.stop.status()
    }
}

impl fmt::Display for Ending {
    ghost output = { λ ending. Some (ending_text ending) };

    fn fmt<W: fmt::Write>(&self, f: &mut fmt::Formatter<W>) -> fmt::Result {
        let stop = &self.stop;
        match &self.cause {
            Some(cause) => write!(f, "{stop}\nbroker: {cause}"),
            None => write!(f, "{stop}"),
        }
    }
}

/// An end of which nothing more is told.
impl From<Stop> for Ending {
    ghost from_gives = { λ stop ending. ending ≡ record { stop = stop; cause = None } };

    fn from(stop: Stop) -> Ending {
        Ending { stop, cause: None }
    }
}
