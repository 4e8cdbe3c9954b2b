//! What ends the program where a file or rows can't be had: want of memory goes by its own name.

ghost use Rattle.std.specs.Prelude.{◌≡◌};
ghost use Rattle.cli_stops.specs.Faults.{script_fault, table_fault, rows_fault};

use crate::RunFault;
use crate::answer::Answer;
use crate::cause::Found;
use broker_script::ScriptFault;
use home_table::TableFault;

/// The fault of a script whose file isn't read.
pub fn script_fault(answer: Answer) -> ScriptFault
    ensures { result ≡ script_fault answer }
{
    match answer {
        Answer::NoMemory => ScriptFault::NoMemory,
        _ => ScriptFault::NotText,
    }
}

/// The fault of a configuration whose file isn't read.
pub fn table_fault(answer: Answer) -> TableFault
    ensures { result ≡ table_fault answer }
{
    match answer {
        Answer::NoMemory => TableFault::NoMemory,
        _ => TableFault::Syntax,
    }
}

/// The fault of a run whose rows aren't had.
pub fn rows_fault(found: &Found) -> RunFault
    ensures { result ≡ rows_fault found.now }
{
    match found {
        Found::NoMemory | Found::Answered(Answer::NoMemory) => RunFault::NoMemory,
        _ => RunFault::Rows,
    }
}
