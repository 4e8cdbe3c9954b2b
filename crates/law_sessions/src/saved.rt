//! What holds of a session and the rows that were told of it, over every list of its calls and tellings: from its making on,
//! or from its rows on. The functions do nothing: their contracts are the laws.

ghost use Rattle.mqtt_sessions.specs.State.{IsPublishableIf};
ghost use Rattle.law_sessions.specs.Histories.{CallsAreMoves};
ghost use Rattle.law_sessions.specs.Sound.{DurableOpens, IsSoundConnect, StaysDurable};
ghost use Rattle.law_sessions.specs.Told.{RemovalsLeaveNone, StaysSince, StoresTold, ToldChangesLead};

use crate::changes::{calls_follow, changes_are_exact, changes_are_made, changes_lead};
use crate::events::calls_are_events;
use mqtt_packets::Connect;

/// Each call of a session that answers is a move.
pub fn calls_are_moves()
    ensures { CallsAreMoves }
{
    calls_are_events();
}

/// Whatever calls and tellings came, what is noted of a session's rows and of its copies goes on from what was told last.
pub fn stays_since()
    ensures { StaysSince }
{
    calls_follow();
}

/// The changes of each telling lead from the rows that were told last to those of the session, and name each row that
/// differs once, and no other.
pub fn told_changes_lead()
    ensures { ToldChangesLead }
{
    stays_since();
    changes_lead();
    changes_are_exact();
}

/// A store that makes the changes of each telling has the rows that were told last.
pub fn told_rows_are_stored()
    ensures { StoresTold }
{
    told_changes_lead();
    changes_are_made();
}

/// The removals of a session that is over leave none of the rows that were told last, and name each of these once, and no other.
pub fn removals_leave_none()
    ensures { RemovalsLeaveNone }
{
    calls_follow();
}

/// Whatever calls and tellings came, the rows of a session are rows that open one, and so are the rows that were told last: where
/// the calls came with what their contracts demand.
pub fn stays_durable()
    ensures { StaysDurable }
{}

/// From such rows `from_rows` makes just the session that they are of, or memory is wanting: it never finds them bad.
pub fn durable_rows_open()
    ensures { DurableOpens }
{}

/// A CONNECT whose will can be published comes as `stays_durable` asks for it: its type holds the rest.
pub fn connect_is_sound(connect: &Connect)
    requires { IsPublishableIf connect.now.will }
    ensures { IsSoundConnect connect.now }
{
    let _expiry = connect.properties.four(17);
    if let Some(will) = &connect.will {
        let _payload = will.payload.as_bytes();
    }
}
