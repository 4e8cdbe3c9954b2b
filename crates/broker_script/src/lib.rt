//! Scripts: plain texts, one command a line, that say what is done to a cluster.
//!
//! `parse_script` reads a whole script before anything runs, exactly in both directions: it
//! answers the commands that the text spells, or the first line that can't go on. A command is
//! spelled in one way only, and its `Display` writes that spelling.
//!
//! The grammar is the tables `event_words` and `line_words` in `specs/Line.antt`, one case a line. To
//! add an event, which crash lines then name too, add its case to `event_words`, a variant to
//! `NodeEvent` with its `fits` and `Display` (`event.rt`), and an arm to `parse_plain` (`line.rt`); and
//! for the proof its cases and a lemma beside `no_start` (`proofs/Commands.antt`), which the answer for
//! the new arm names, and its case in `event_has_no_prefix` (`proofs/Scripts.antt`). To add another
//! line, add its case to `line_words`, a variant to `Command` (`command.rt`), a function beside
//! `parse_restart` and its arm in `parse_line`; and for the proof its cases in `same_words`, `no_other`
//! and `no_home`. A word of another kind is a constructor of `Word` with its text and its range there,
//! a function that reads it (`word.rt`), and its case in `same_word` (`proofs/Words.antt`).
//!
//! For a caller: the lemmas of `proofs/Nodes.antt` give the bounds of the nodes of a script that was
//! read, where node numbers are used as indices.
#![tactic(auto)]

mod command;
mod event;
mod fault;
mod laws;
mod line;
mod script;
mod word;

pub use command::Command;
pub use event::NodeEvent;
pub use fault::ScriptFault;
pub use laws::{fault_excludes_script, first_fault_is_unique, script_is_read_once};
pub use script::{LONGEST_FILE, parse_script};
