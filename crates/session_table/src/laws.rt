//! What holds of the rows of one session. The function does nothing: its contract is the laws.

ghost use Rattle.session_table.specs.Rows.{BeginTells, CallTells, RemovalLeaves};

use law_sessions::{removals_leave_none, stays_since, told_changes_lead};

/// Changes that are told after each call lead from the rows before it to those after it; those told of a new session lead from
/// no rows; and the removals lead to none. Each is of the session's own rows. Where what was told last of the row of kind 2 goes
/// before them, they begin there with what was there.
pub(crate) fn tellings_lead()
    ensures call { CallTells }
    ensures begin { BeginTells }
    ensures removal { RemovalLeaves }
{
    stays_since();
    told_changes_lead();
    removals_leave_none();
}
