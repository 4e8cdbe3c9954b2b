//! What is told of a session's rows.

ghost use Rattle.std.specs.Prelude.{◌≡◌, ◌||◌, ◌&&◌, not, ℕ, List, ◌++◌, Err, IfOk, IfSome, OnOk, Some, is_some};
ghost use Rattle.mqtt_sessions.specs.Saved.{state_of};
ghost use Rattle.mqtt_sessions.specs.State.{new_session};
ghost use Rattle.session_table.specs.Calls.{Asks, GivesSpelled, IsTurned, MayTurn, event_of};
ghost use Rattle.session_table.specs.Wants.{WantsToTell};
ghost use Rattle.session_table.specs.Rows.{IsAllTold, OwnLeadsOn, TellsAgain, TellsOn, no_row, saved_row};

use crate::call::{Call, is_ending, is_queue, is_sound, keeps_rows, turn};
use crate::laws::tellings_lead;
use mqtt_fields::{NoMemory, Text};
use mqtt_sessions::{Reaction, Session, SessionFault};
use row_store::Change;
use std::alloc::Global;

/// Appends the changes of a session's rows since they were told last; where its own row is named, what was told of it goes before.
fn tell(session: &mut Session, changes: &mut Vec<Change>) -> Result<(), NoMemory>
    ensures { OnOk result (TellsOn session.old changes.old.items changes.new.items session.new) }
{
    let Ok(mut own) = session.changes(changes) else {
        return Err(NoMemory);
    };
    changes.append(&mut own)?;
    Ok(())
}

/// Whether no row of the session changes by a call, after it.
fn leaves_rows(keeps: bool, ends: bool, queues: bool, reaction: &Reaction) -> bool
    ensures { result ≡ (keeps || ((ends && not (is_some reaction.now.ask)) || (queues && reaction.now.full))) }
{
    keeps || (ends && reaction.ask.is_none()) || (queues && reaction.full)
}

/// One call of a session that isn't spent, and the changes of its rows. They aren't compared where the call leaves them as they are.
pub(crate) fn turn_and_tell(
    session: &mut Session,
    call: Call<'_>,
    changes: &mut Vec<Change>,
) -> Result<Reaction, SessionFault>
    requires asks { Asks call }
    requires may { MayTurn (event_of call) (state_of session.old) }
    ensures turned { IfSome (state_of session.old) (λ s. IsTurned (event_of call.entry) s result (state_of session.new)) }
    ensures spelled { IfOk result (GivesSpelled (event_of call.entry)) }
    ensures wants { result ≡ Err SessionFault.NoMemory → IfSome (state_of session.old) (WantsToTell (event_of call.entry)) }
    ensures tells { (client : List ℕ) → IsAllTold client session.old → OnOk result (TellsAgain client session.old changes.old.items changes.new.items session.new) }
{
    tellings_lead();
    is_sound(&call);
    let keeps = keeps_rows(&call, session);
    let ends = is_ending(&call);
    let queues = is_queue(&call);
    let reaction = turn(session, call)?;
    if leaves_rows(keeps, ends, queues, &reaction) {
        return Ok(reaction);
    }
    tell(session, changes)?;
    Ok(reaction)
}

/// A new session of which all is told: it has its own row from now on.
pub(crate) fn begin_told(
    alloc: Global,
    client: &Text,
    changes: &mut Vec<Change>,
) -> Result<Session, NoMemory>
    ensures state { IfOk result (λ s. state_of s ≡ Some (new_session client.now)) }
    ensures told { IfOk result (IsAllTold client.now) }
    ensures leads { IfOk result (λ s. OwnLeadsOn client.now no_row changes.old.items changes.new.items (saved_row s)) }
{
    tellings_lead();
    let _text = client.as_str();
    let mut session = Session::new(alloc, client.copy(alloc)?);
    tell(&mut session, changes)?;
    Ok(session)
}

/// Appends that the rows of a session go, and before that what was told of its own row.
pub(crate) fn leave(session: Session, changes: &mut Vec<Change>) -> Result<(), NoMemory>
    ensures { (client : List ℕ) → IsAllTold client session → OnOk result (OwnLeadsOn client (saved_row session) changes.old.items changes.new.items no_row) }
{
    tellings_lead();
    let Ok(mut gone) = session.removals(changes) else {
        return Err(NoMemory);
    };
    changes.append(&mut gone)?;
    Ok(())
}
