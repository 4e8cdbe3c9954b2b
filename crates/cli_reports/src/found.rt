//! What is found where a database isn't opened, or its rows are no node's.

ghost use Rattle.std.specs.Prelude.{◌≡◌};
ghost use Rattle.cli_reports.specs.Finding.{found_of_flaw, found_of_open};

use crate::Flaw;
use cli_stops::Found;
use row_database::OpenFault;

/// What is found by a fault of opening; `refused` is what the system says of the path.
pub fn found_of_open(fault: OpenFault, refused: Found) -> Found
    ensures { result ≡ found_of_open fault refused }
{
    match fault {
        OpenFault::NoMemory => Found::NoMemory,
        OpenFault::Locked => Found::Locked,
        OpenFault::Refused => refused,
        OpenFault::NoDatabase => Found::NoDatabase,
        OpenFault::Foreign => Found::Foreign,
        OpenFault::Device => Found::Failed,
    }
}

/// What is found of rows with a flaw.
pub fn found_of_flaw(flaw: Flaw) -> Found
    ensures { result ≡ found_of_flaw flaw }
{
    match flaw {
        Flaw::NoMemory => Found::NoMemory,
        Flaw::NoMark => Found::NoMark,
        Flaw::OtherVersion(version) => Found::OtherVersion(version),
        Flaw::OtherNode(node) => Found::OtherNode(node),
        Flaw::Unsound => Found::Unsound,
    }
}
