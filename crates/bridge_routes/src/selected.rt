//! The live subscriptions that a message is for.

ghost use Rattle.std.specs.Prelude.{◌↔◌, ◌<◌, [], length, IfOk, IsOk, IsTrue, OnErr};
ghost use Rattle.filter_trie.specs.Selected.{IsSelected};
ghost use Rattle.bridge_routes.specs.Copies.{AreLive, IsFor, IsPlainFor, MayCount, entries_in};
ghost use Rattle.subscription_set.specs.Members.{AreInTurn};
ghost use Rattle.bridge_routes.specs.Tables.{referents};
ghost use Rattle.mqtt_topics.specs.Topics.{IsShared};
ghost use Rattle.subscription_set.specs.Standing.{live};

use mqtt_fields::NoMemory;
use mqtt_message::{Message, SharedMessage};
use std::alloc::Global;
use subscription_set::{Entry, MatchingApart, SubscriptionSet};

// Whether a subscription is plain, and No Local doesn't leave it out.
fn may_count(message: &Message, entry: &Entry) -> bool
    ensures { IsTrue result ↔ MayCount message.now entry.now }
{
    if is_shared(entry) {
        return false;
    }
    !(entry.options().no_local() && entry.has_client(&message.publisher))
}

fn is_shared(entry: &Entry) -> bool
    ensures { IsTrue result ↔ IsShared entry.now.filter }
{
    entry.filter().group().is_some()
}

fn is_plain(entry: &Entry) -> bool
    ensures { IsTrue result ↔ (IsShared entry.now.filter → ⊥) }
{
    !is_shared(entry)
}

/// The live subscriptions that match. Only these take memory.
pub fn found<'a>(
    subscriptions: &'a SubscriptionSet,
    message: &SharedMessage,
) -> Result<Vec<&'a Entry>, NoMemory>
    ensures found { IfOk result (λ out.
        AreLive (IsFor message.now) (live subscriptions.now) (referents out.items)) }
    ensures none { AreLive (IsFor message.now) (live subscriptions.now) [] → IsOk result }
{
    subscriptions.matching(&message.message().topic)
}

/// The live plain subscriptions that match, and of each shared filter that matches what is live of the client whose turn it is. Only
/// where something live matches it takes memory.
pub fn found_apart<'a>(
    subscriptions: &'a SubscriptionSet,
    message: &SharedMessage,
    turn: u64,
) -> Result<MatchingApart<'a>, NoMemory>
    ensures plain { IfOk result (λ out.
        AreLive (IsPlainFor message.now) (live subscriptions.now) (referents out.plain.items)) }
    ensures in_turn { IfOk result (λ out. AreInTurn turn message.now.topic
        (entries_in (live subscriptions.now)) (referents out.in_turn.items)) }
    ensures none { AreLive (IsFor message.now) (live subscriptions.now) [] → IsOk result }
{
    subscriptions.matching_apart(&message.message().topic, turn)
}

/// Those of the subscriptions that are plain and that No Local doesn't leave out.
pub fn counted_among<'a>(mut found: Vec<&'a Entry>, message: &Message) -> Vec<&'a Entry>
    ensures { IsSelected (MayCount message.now) (referents found.entry.items) (referents result.items) }
{
    found.retain(|entry| may_count(message, *entry));
    found
}

/// Those of the subscriptions that are plain.
pub fn plain_among<'a>(alloc: Global, found: &[&'a Entry]) -> Result<Vec<&'a Entry>, NoMemory>
    ensures selected { IfOk result (λ out.
        IsSelected (λ e. IsShared e.filter → ⊥) (referents found.now) (referents out.items)) }
    ensures memory { OnErr result (0 < length found.now) }
{
    let mut out = Vec::new(alloc);
    for entry in found {
        if is_plain(*entry) {
            out.push(*entry)?;
        }
    }
    Ok(out)
}
