//! What ends a run.

ghost use Rattle.std.specs.Prelude.{◌≡◌};
ghost use Rattle.script_loopback.specs.Faults.{wired};

use crate::WireFault;
use cli_stops::RunFault;

/// Bytes that don't pass.
pub fn of_wires(fault: WireFault) -> RunFault
    ensures { result ≡ wired fault }
{
    match fault {
        WireFault::NoMemory => RunFault::NoMemory,
        WireFault::Socket => RunFault::Socket,
        WireFault::Turns => RunFault::Turns,
    }
}
