//! What follows from the grammar alone: a script has one reading, and a fault excludes each.

ghost use Rattle.broker_script.specs.Laws.{ReadsOneWay, FaultExcludesScript, FirstFaultIsUnique};

/// A text spells one list of commands at most.
pub fn script_is_read_once()
    ensures { ReadsOneWay }
{}

/// A text with a fault at a line is no script.
pub fn fault_excludes_script()
    ensures { FaultExcludesScript }
{}

/// A text has a fault at one line at most: the first that can't go on.
pub fn first_fault_is_unique()
    ensures { FirstFaultIsUnique }
{}
