//! Lines that are due, and how they are written.

ghost use Rattle.std.specs.Prelude.{◌≡◌, ◌++◌, ◌∷◌, [], IfOk, OnOk, ◌==◌, length, string_bytes, true};
ghost use Rattle.std.specs.Io.KnownBytes.{Appends};
ghost use Rattle.door_log.specs.Lines.{log_text};
ghost use Rattle.door_log.specs.Writing.{mended};

use crate::LogEntry;
use mqtt_fields::NoMemory;
use std::alloc::Global;
use std::io::Write;
use std::marker::Model;
use std::mem;

/// Lines in their order.
#[derive(Drop)]
pub(crate) struct Lines {
    alloc: Global,
    entries: Vec<LogEntry>,
}

impl Model for Lines {
    ghost use Rattle.std.specs.Prelude.{List};
    ghost use Rattle.door_log.specs.declared.line.LogEntry.{LogEntry};

    ghost Value = { List LogEntry };

    ghost view = { λ l. l.entries.items };
}

impl Lines {
    /// No lines.
    pub(crate) fn new(alloc: Global) -> Lines
        ensures { result ≡ [] }
    {
        Lines {
            alloc,
            entries: Vec::new(alloc),
        }
    }

    /// Whether there are none.
    pub(crate) fn is_empty(&self) -> bool
        ensures { result ≡ (length self.now == 0) }
    {
        self.entries.is_empty()
    }

    /// One more line.
    pub(crate) fn push(&mut self, entry: LogEntry) -> Result<(), NoMemory>
        ensures { OnOk result (self.new ≡ self.old ++ entry ∷ []) }
    {
        self.entries.push(entry)?;
        Ok(())
    }

    /// Hands the lines over; none are left.
    pub(crate) fn take(&mut self) -> Vec<LogEntry>
        ensures taken { result.items ≡ self.old }
        ensures left { self.new ≡ [] }
    {
        mem::replace(&mut self.entries, Vec::new(self.alloc))
    }
}

/// What stands before lines: a newline where the write before them failed, which may have written a part of a line.
fn beginning(alloc: Global, broken: bool) -> Result<String, NoMemory>
    ensures { IfOk result (λ text. string_bytes text ≡ mended broken) }
{
    let mut text = String::new(alloc);
    if broken {
        text.push_str("\n")?;
    }
    Ok(text)
}

/// The text of lines.
fn text_of(alloc: Global, broken: bool, entries: &[LogEntry]) -> Result<String, NoMemory>
    ensures { IfOk result (λ text. string_bytes text ≡ mended broken ++ log_text entries.now) }
{
    let mut text = beginning(alloc, broken)?;
    for entry in entries {
        writeln!(&mut text, "{entry}")?;
    }
    Ok(text)
}

/// Writes lines at once, and tells whether that was done.
pub(crate) fn write_lines<W: Write>(
    alloc: Global,
    error: &mut W,
    broken: bool,
    entries: &[LogEntry],
) -> bool
    ensures { result ≡ true → Appends (W.contents error.old) (W.contents error.new) (mended broken ++ log_text entries.now) }
{
    match text_of(alloc, broken, entries) {
        Ok(text) => error.write_all(text.as_bytes()).is_ok(),
        Err(_) => false,
    }
}
