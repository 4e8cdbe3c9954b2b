//! What holds of the changes of a session's rows, whatever session they are of.

ghost use Rattle.law_sessions.specs.Leading.{ChangesAreExact, ChangesAreMade, ChangesLead, FollowsOn};

/// The changes of a session lead from the rows that were told last to those of the session, whatever calls came between: as
/// each call's contract says of the copies that they follow, and as `calls_follow` puts together.
pub fn changes_lead()
    ensures { ChangesLead }
{}

/// The changes of a session name each row that differs once, and no other.
pub fn changes_are_exact()
    ensures { ChangesAreExact }
{}

/// A store of rows makes the changes one after the other.
pub fn changes_are_made()
    ensures { ChangesAreMade }
{}

/// What follows one call follows several.
pub fn calls_follow()
    ensures { FollowsOn }
{}
