//! The rows of lanes.
ghost use Rattle.law_nodes.specs.Lanes.{ChangesAreOneList, ChangesAreThose, RowsAreOfLanes};

/// The rows of lanes are those of the messages that wait, and of the numbers that aren't both 0, and no others.
pub fn lane_rows_are()
    ensures { RowsAreOfLanes }
{}

/// Changes lead from the rows of lanes to those of others, name each key once, in the order of the keys, and none at which the rows are
/// the same, exactly where they are those of the keys at which the rows differ, each with the new row, or its removal. There is one
/// list of these at most.
pub fn lane_changes_are()
    ensures those { ChangesAreThose }
    ensures one { ChangesAreOneList }
{}
