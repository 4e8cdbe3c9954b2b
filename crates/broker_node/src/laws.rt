//! What holds of each step of a node. The function does nothing: its contract is the law.

ghost use Rattle.broker_node.specs.Changes.{ChangesDiffer};

/// A change of a row that a step tells leaves another row than was there before the step: what it puts wasn't there, and what it removes
/// was. Of a row that two acts of the step alter, unless it is a session's own, this isn't said.
pub fn changes_differ()
    ensures { ChangesDiffer }
{}
