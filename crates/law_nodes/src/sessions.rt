//! The sessions of a node, by its acts and its losses.
ghost use Rattle.law_nodes.specs.Lives.{FreshIsLived, MovesAreLives, SessionsOfMovesAreRuns};
ghost use Rattle.law_nodes.specs.Moves.{ActsAreMoves, MovesLeadToOne};

/// Acts of a node, one after the other, are moves of it.
pub fn acts_are_moves()
    ensures { ActsAreMoves }
{}

/// What a node holds after moves is determined by them.
pub fn moves_lead_to_one()
    ensures { MovesLeadToOne }
{}

/// Whatever acts a node may do and however often it loses what doesn't last and is opened again, each session that it then
/// holds is what the calls and losses since it last began have made of a new one.
pub fn moves_are_lives()
    ensures { MovesAreLives }
{}

/// A node that was just opened for the first time holds no session.
pub fn fresh_is_lived()
    ensures { FreshIsLived }
{}

/// So each session of a node comes of a run from a new session, by the node's moves since it was first opened; and what is
/// proved of every such run holds of it.
pub fn sessions_are_runs()
    ensures { SessionsOfMovesAreRuns }
{}
