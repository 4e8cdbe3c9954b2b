//! Laws of the count.
ghost use Rattle.node_figures.specs.Counts.{NoneLacksWhereAllAreKnown};

/// No dot is counted exactly where each of the first is one of the second.
pub fn none_lacks_where_all_are_known()
    ensures { NoneLacksWhereAllAreKnown }
{}
