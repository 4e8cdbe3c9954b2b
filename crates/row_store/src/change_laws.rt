//! What holds of changes of rows. The functions do nothing: their contracts are the laws.

ghost use Rattle.row_store.specs.ChangeLaws.{BeginOn, ChangesLeave, ContentFollows, LeadOn, LeadOnWithin, SecondIsLast, SettledLead};

/// After changes a store of rows has at each key what the last of them that names the key leaves, and elsewhere what it had.
pub fn changes_leave()
    ensures { ChangesLeave }
{}

/// Changes of which one list comes after the other leave what the second one does, and else what the first one does; where each
/// leads on from the rows that the one before led to, so do both together; and where each begins with what was there, so do both.
pub fn changes_compose()
    ensures left { SecondIsLast }
    ensures lead { LeadOn }
    ensures within { LeadOnWithin }
    ensures begin { BeginOn }
{}

/// A store that has the old rows has the new ones after changes that lead from the old to the new.
pub fn content_follows()
    ensures { ContentFollows }
{}

/// What settles changes that begin with what was there leads from and to the same rows, and names a row of the kind only where
/// it changes.
pub fn settled_changes_lead()
    ensures { SettledLead }
{}
