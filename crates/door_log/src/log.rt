//! What a log knows, and where its lines are written.

ghost use Rattle.door_log.specs.Writing.{IsNew, IsWritten};

use crate::lines::write_lines;
use crate::notes::Notes;
use std::alloc::Global;
use std::io::Write;

/// What a log knows, where its lines are written, and whether the last write failed.
#[derive(Drop)]
pub(crate) struct Log<W> {
    pub(crate) notes: Notes,
    pub(crate) error: W,
    pub(crate) broken: bool,
}

impl<W> Log<W> {
    /// A log that knows nothing yet.
    pub(crate) fn new(alloc: Global, error: W) -> Log<W>
        ensures { IsNew error result }
    {
        Log {
            notes: Notes::new(alloc),
            error,
            broken: false,
        }
    }
}

impl<W: Write> Log<W> {
    /// Writes the lines that are due, at once. Where that fails they are gone.
    pub(crate) fn write(&mut self)
        ensures { IsWritten W.contents self.old self.new }
    {
        if self.notes.due.is_empty() {
            return;
        }
        let entries = self.notes.due.take();
        let alloc = self.notes.alloc;
        self.broken = !write_lines(alloc, &mut self.error, self.broken, &entries);
    }
}
