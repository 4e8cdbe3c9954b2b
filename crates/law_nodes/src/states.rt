//! The rows of a replicated state.
ghost use Rattle.law_nodes.specs.States.{RowsAreOfStates};

/// The rows of a state are those of the subscriptions that stand, of what is kept of topics, and of the dots that were taken and
/// seen where there are any, and no others.
pub fn state_rows_are()
    ensures { RowsAreOfStates }
{}
