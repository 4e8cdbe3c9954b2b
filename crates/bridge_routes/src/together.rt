//! Copies and picks at once, and the plain subscriptions that match.

ghost use Rattle.std.specs.Prelude.{[], IfOk, IsOk};
ghost use Rattle.subscription_set.specs.Standing.{live};
ghost use Rattle.bridge_routes.specs.Copies.{AreCopies, AreLive, IsFor, IsPlainFor};
ghost use Rattle.bridge_routes.specs.Picks.{ArePicks, AreShared};
ghost use Rattle.bridge_routes.specs.Tables.{referents};

use crate::groups::{GroupPick, picks_among};
use crate::plain::{PlainCopy, copies_among};
use crate::selected::{found_apart, plain_among};
use mqtt_fields::NoMemory;
use mqtt_message::SharedMessage;
use std::alloc::Global;
use subscription_set::{Entry, MatchingApart, SubscriptionSet};

/// Whom a message is for: the copies by plain subscriptions, the picks of shared groups, and the live plain subscriptions that
/// match, also those that No Local leaves out.
#[derive(Drop)]
pub struct CopiesAndPicks<'a> {
    pub copies: Vec<PlainCopy>,
    pub picks: Vec<GroupPick>,
    pub matching: Vec<&'a Entry>,
}

/// The copies that `copies` gives, and one pick for each shared group with a live subscription that matches the message, in
/// the order of the share names and then of the filters: of the group's clients, in the order of their bytes, the one in the
/// place `turn` modulo their number, with its copy by its own subscription (MQTT 5.0, 3.3.4 and 4.8.2). It takes memory only
/// where a live subscription matches; a copy with more than 65,535 identifiers counts as want of memory.
pub fn copies_and_picks<'a>(
    alloc: Global,
    subscriptions: &'a SubscriptionSet,
    message: &SharedMessage,
    turn: u64,
) -> Result<CopiesAndPicks<'a>, NoMemory>
    ensures copies { IfOk result (λ out. AreCopies (live subscriptions.now) message.now out.copies.items) }
    ensures picks { IfOk result (λ out. ArePicks turn (live subscriptions.now) message.now out.picks.items) }
    ensures shared { IfOk result (λ out. AreShared out.picks.items) }
    ensures matching { IfOk result (λ out. AreLive (IsPlainFor message.now) (live subscriptions.now) (referents out.matching.items)) }
    ensures none { AreLive (IsFor message.now) (live subscriptions.now) [] → IsOk result }
{
    let found = found_apart(subscriptions, message, turn)?;
    let MatchingApart { plain, in_turn } = found;
    let picks = picks_among(alloc, message, in_turn.as_slice(), turn)?;
    let matching = plain_among(alloc, plain.as_slice())?;
    let copies = copies_among(alloc, message, plain)?;
    Ok(CopiesAndPicks {
        copies,
        picks,
        matching,
    })
}
