//! How the program ends before its end.

ghost use Rattle.std.specs.Prelude.{◌≡◌, Some, MatchBool};
ghost use Rattle.cli_stops.specs.Stops.{status_of, stop_text, table_name, is_help};
ghost use Rattle.cli_stops.specs.declared.run_fault.RunFault.TheVariants as runs;
ghost use Rattle.cli_stops.specs.declared.stop.Stop.TheVariants.{Script, Run, Configuration};

use crate::run_fault::RunFault;
use broker_script::ScriptFault;
use home_table::TableFault;
use mqtt_fields::NoMemory;
use std::alloc::{AllocError, AllocFailed};
use std::fmt;
use std::io::Write;
use thiserror::Error;

/// Why the program ends before its end. Its `Display` is the text that it leaves, without a newline at
/// its end.
#[derive(Debug, PartialEq, Eq, Drop, Error)]
pub enum Stop {
    /// Help was asked for: its text.
    Help(String),
    /// The command line can't be read: why.
    CommandLine(String),
    /// The script can't be read.
    Script(ScriptFault),
    /// The configuration can't be read, or doesn't name the node.
    Configuration(TableFault),
    /// The run ended.
    Run(RunFault),
}

impl Stop {
    /// The exit status: 0 where help was asked for, 1 for a run, 2 for the command line, 3 for a script
    /// or a configuration. Want of memory while a script is read ends a run.
    pub fn status(&self) -> u8
        ensures { result ≡ status_of self.now }
    {
        match self {
            Stop::Help(_) => 0,
            Stop::Run(_) | Stop::Script(ScriptFault::NoMemory) => 1,
            Stop::CommandLine(_) => 2,
            Stop::Script(_) | Stop::Configuration(_) => 3,
        }
    }

    /// Writes the text as a line, help to `out` and any other to `err`, and answers the exit status.
    /// A refused write changes nothing of it.
    pub fn tell<O: Write, E: Write>(&self, out: &mut O, err: &mut E) -> u8
        ensures status { result ≡ status_of self.now }
        ensures one { MatchBool (is_help self.now) (err.new ≡ err.old) (out.new ≡ out.old) }
    {
        let _ = match self {
            Stop::Help(_) => writeln!(out, "{self}"),
            _ => writeln!(err, "{self}"),
        };
        self.status()
    }
}

impl fmt::Display for Stop {
    ghost output = { λ stop. Some (stop_text stop) };

    fn fmt<W: fmt::Write>(&self, f: &mut fmt::Formatter<W>) -> fmt::Result {
        match self {
            Stop::Help(text) | Stop::CommandLine(text) => write!(f, "{text}"),
            Stop::Script(fault) => write!(f, "{fault}"),
            Stop::Configuration(fault) => {
                let name = table_name(*fault);
                write!(f, "broker: configuration: {name}")
            }
            Stop::Run(fault) => write!(f, "broker: run: {fault}"),
        }
    }
}

/// The name of a fault of a configuration.
fn table_name(fault: TableFault) -> &'static str
    ensures { result.now ≡ table_name fault }
{
    match fault {
        TableFault::Syntax => "Syntax",
        TableFault::NoNodes => "NoNodes",
        TableFault::TwiceNamed => "TwiceNamed",
        TableFault::UnknownNode => "UnknownNode",
        TableFault::NoMemory => "NoMemory",
    }
}

impl From<RunFault> for Stop {
    ghost from_gives = { λ fault stop. stop ≡ Run fault };

    fn from(fault: RunFault) -> Stop {
        Stop::Run(fault)
    }
}

impl From<ScriptFault> for Stop {
    ghost from_gives = { λ fault stop. stop ≡ Script fault };

    fn from(fault: ScriptFault) -> Stop {
        Stop::Script(fault)
    }
}

/// A fault of the configuration.
impl From<TableFault> for Stop {
    ghost from_gives = { λ fault stop. stop ≡ Configuration fault };

    fn from(fault: TableFault) -> Stop {
        Stop::Configuration(fault)
    }
}

/// Want of memory in a run.
impl From<NoMemory> for Stop {
    ghost from_gives = { λ _ stop. stop ≡ Run runs.NoMemory };

    fn from(_error: NoMemory) -> Stop {
        Stop::Run(RunFault::NoMemory)
    }
}

/// Want of memory in a run.
impl From<AllocError> for Stop {
    ghost from_gives = { λ _ stop. stop ≡ Run runs.NoMemory };

    fn from(_error: AllocError) -> Stop {
        Stop::from(NoMemory)
    }
}

/// Want of memory in a run.
impl<T: Drop> From<AllocFailed<T>> for Stop {
    ghost from_gives = { λ _ stop. stop ≡ Run runs.NoMemory };

    fn from(_error: AllocFailed<T>) -> Stop {
        Stop::from(NoMemory)
    }
}
