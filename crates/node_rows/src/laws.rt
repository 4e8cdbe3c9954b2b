//! Laws of the rows of nodes. Each function does nothing: its contract is the law.
ghost use Rattle.node_rows.specs.Naming.{DotsAreTested, StatesAreTested};
ghost use Rattle.node_rows.specs.Reading.{RowsTellAll, SayOneThing};

/// Rows say one thing at most of a node, and nodes with the same rows are the same in what lasts.
pub fn rows_say_one_thing()
    ensures rows { SayOneThing }
    ensures nodes { RowsTellAll }
{}

/// The tests whether dots, and a state, name none but nodes of a cluster answer so.
pub fn names_are_tested()
    ensures dots { DotsAreTested }
    ensures states { StatesAreTested }
{}
