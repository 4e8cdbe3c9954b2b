//! What ends a run.

ghost use Rattle.std.specs.Prelude.{◌≡◌};
ghost use Rattle.script_runs.specs.Faults.{played};

use cli_stops::RunFault;
use cluster_play::PlayFault;

/// A step that is refused.
pub fn of_step(fault: PlayFault) -> RunFault
    ensures { result ≡ played fault }
{
    match fault {
        PlayFault::BadTables => RunFault::BadTables,
        PlayFault::UnknownNode => RunFault::UnknownNode,
        PlayFault::UnknownFrame => RunFault::UnknownFrame,
        PlayFault::NoMemory => RunFault::NoMemory,
        PlayFault::Spent => RunFault::Spent,
    }
}
