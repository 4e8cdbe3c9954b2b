//! Laws of the rows of lanes. Each function does nothing: its contract is the law.
ghost use Rattle.bridge_lanes.specs.Laws.{RowsRise};

/// The rows of lanes stand in the order of their keys, each once.
pub fn rows_rise()
    ensures { RowsRise }
{}
