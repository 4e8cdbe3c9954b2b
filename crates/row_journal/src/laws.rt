//! What holds of journals. The functions do nothing: their contracts are the laws.

ghost use Rattle.mqtt_fields.specs.Field.{IsField};
ghost use Rattle.row_journal.specs.Laws.{AllIsShown, ChangesArePairs, FoldIsTurns, JournalIsOne, NamedAreHidden, TurnsAreShown};
ghost use Rattle.row_journal.specs.Spelling as spec;

/// A turn that is read is spelled so, and one that is spelled is read again, whatever follows.
#[tactic(auto, using(crate::proofs::TurnLaws::turn_is))]
pub fn turns_are_read()
    ensures { IsField spec.turn }
{}

/// Changes make of a content what their keys and values make of it.
#[tactic(auto, using(crate::proofs::RunLaws::changes_are_pairs))]
pub fn changes_are_pairs()
    ensures { ChangesArePairs }
{}

/// A store without rows of the journal's kind shows all its rows.
#[tactic(auto, using(crate::proofs::RunLaws::all_is_shown))]
pub fn all_is_shown()
    ensures { AllIsShown }
{}

/// After any turns in a new journal all their changes are shown, and nothing else has changed.
#[tactic(auto, using(crate::proofs::RunLaws::turns_are_shown))]
pub fn turns_are_shown()
    ensures { TurnsAreShown }
{}

/// A fold of any turns leaves in the rows just what their changes make, and no row of the journal.
#[tactic(auto, using(crate::proofs::RunLaws::fold_is_turns))]
pub fn fold_is_turns()
    ensures { FoldIsTurns }
{}

/// Rows that are put or removed under keys that turns of a journal name change nothing of what is shown.
#[tactic(auto, using(crate::proofs::RunLaws::named_are_hidden))]
pub fn named_are_hidden()
    ensures { NamedAreHidden }
{}

/// The rows of a store are one journal at most.
#[tactic(auto, using(crate::proofs::RunLaws::journal_is_one))]
pub fn journal_is_one()
    ensures { JournalIsOne }
{}
