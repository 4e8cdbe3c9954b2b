//! How much memory the program holds, and what is told where nobody can tell.

ghost use Rattle.std.specs.Prelude.{OnOk};
ghost use Rattle.std.specs.Io.KnownBytes.{Appends};
ghost use Rattle.serve_node.specs.Refusals.{unread_line};

use door_bounds::Gauge;
use std::io::{self, Write};

/// A gauge that writes that it can't tell how much is held: once, and again only after it could.
#[derive(Drop)]
pub(crate) struct TellingGauge<G, E> {
    gauge: G,
    error: E,
    /// Whether it was told since the gauge could tell last.
    told: bool,
}

impl<G, E> TellingGauge<G, E> {
    /// This gauge, with a writer for what it tells.
    pub(crate) fn new(gauge: G, error: E) -> Self {
        TellingGauge {
            gauge,
            error,
            told: false,
        }
    }
}

/// Writes that nobody can tell how much memory is held, as a line.
fn tell_unread<E: Write>(error: &mut E) -> io::Result<()>
    ensures { OnOk result (Appends (E.contents error.old) (E.contents error.new) unread_line) }
{
    writeln!(
        error,
        "broker: reading /proc/self/statm: it can not be read, so --most-memory limits nothing"
    )
}

impl<G: Gauge, E: Write> Gauge for TellingGauge<G, E> {
    /// What the gauge tells. A write that fails changes nothing of it.
    fn held(&mut self) -> Option<u64> {
        let held = self.gauge.held();
        if held.is_some() {
            self.told = false;
        } else if !self.told {
            self.told = true;
            let _ = tell_unread(&mut self.error);
        }
        held
    }
}
