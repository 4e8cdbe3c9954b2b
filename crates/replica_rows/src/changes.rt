//! The changes of rows that a merge makes.
ghost use Rattle.std.specs.Prelude.{◌≡◌, ◌≢◌, [], ◌∷◌, IfOk, IsOk, OnOk, OnErr, Some, None, true};
ghost use Rattle.std.specs.FinMap as map;
ghost use Rattle.std.specs.FinSet as set;
ghost use Rattle.subscription_set.specs.Joining.{is_leaving};
ghost use Rattle.replica_store.specs.Merging.{is_newer};
ghost use Rattle.replica_store.specs.States.{StateBelow, nothing, state_join};
ghost use Rattle.replica_bytes.specs.Values.{IsOwn, dot};
ghost use Rattle.row_store.specs.Rows.{after_all};
ghost use Rattle.replica_rows.specs.Changes.{AreChanges, LeadBetween};
ghost use Rattle.replica_rows.specs.Rows.{AreRowsOf};
ghost use Rattle.replica_rows.specs.Steps.{AddsContext, AddsDue, AddsLeaving, AddsRemovals, AddsSubscriptions, AddsTopics, Leaves};

use crate::row::{SEEN, TAKEN, context_row, place_of, retained_row, subscription_row};
use causal_context::{Context, Dot, Lattice};
use mqtt_fields::NoMemory;
use mqtt_topics::TopicName;
use replica_bytes::kept_fits;
use replica_store::{Kept, ReplicaStore};
use row_store::Change;
use row_store::kinds::SUBSCRIPTION;
use std::alloc::Global;
use subscription_set::Entry;

// A put of the subscription that the delta brings, where its dot is new here; else it takes no memory.
fn add_brought(
    alloc: Global,
    store: &ReplicaStore,
    delta: &ReplicaStore,
    at: Dot,
    entry: &Entry,
    out: &mut Vec<Change>,
) -> Result<(), NoMemory>
    requires { map.get delta.now.subscriptions at ≡ Some (Some entry.now) }
    ensures put { OnOk result (AddsDue store.now (state_join store.now delta.now)
        (map.get store.now.subscriptions at ≡ None) (4, (entry.now.client, dot.bytes at)) out.old.items out.new.items) }
    ensures memory { OnErr result (map.get store.now.subscriptions at ≡ None) }
{
    if store.subscriptions().seen().contains(at) {
        return Ok(());
    }
    let row = subscription_row(alloc, at, entry)?;
    out.push(Change::Put(row))?;
    Ok(())
}

// Puts of the subscriptions that the delta brings.
fn add_subscriptions(
    alloc: Global,
    store: &ReplicaStore,
    delta: &ReplicaStore,
    out: &mut Vec<Change>,
) -> Result<(), NoMemory>
    ensures { OnOk result (AddsSubscriptions store.now delta.now out.old.items out.new.items) }
{
    for (at, entry) in delta.subscriptions().entries() {
        add_brought(alloc, store, delta, *at, entry, out)?;
    }
    Ok(())
}

// A removal of the subscription that leaves.
fn add_removal(
    alloc: Global,
    store: &ReplicaStore,
    delta: &ReplicaStore,
    at: Dot,
    out: &mut Vec<Change>,
) -> Result<(), NoMemory>
    requires { Leaves store.now delta.now at }
    ensures { OnOk result (AddsLeaving store.now delta.now at out.old.items out.new.items) }
{
    let Some(entry) = store.subscriptions().entry(at) else {
        return Ok(());
    };
    let owner = Vec::from_slice(alloc, entry.client().as_str().as_bytes())?;
    let place = place_of(alloc, at)?;
    out.push(Change::Remove(SUBSCRIPTION, owner, place))?;
    Ok(())
}

// Removals of the subscriptions that leave.
fn add_removals(
    alloc: Global,
    store: &ReplicaStore,
    delta: &ReplicaStore,
    out: &mut Vec<Change>,
) -> Result<(), NoMemory>
    ensures { OnOk result (AddsRemovals store.now delta.now out.old.items out.new.items) }
{
    let dots = store.subscriptions().leaving(delta.subscriptions())?;
    for at in dots {
        add_removal(alloc, store, delta, at, out)?;
    }
    Ok(())
}

// A put of what the delta keeps of the topic, where it is greater; else it takes no memory.
fn add_topic(
    alloc: Global,
    store: &ReplicaStore,
    delta: &ReplicaStore,
    topic: &TopicName,
    kept: &Kept,
    out: &mut Vec<Change>,
) -> Result<(), NoMemory>
    requires there { map.get delta.now.retained topic.now ≡ Some kept.now }
    requires own { IsOwn (topic.now, kept.now) }
    ensures put { OnOk result (AddsDue store.now (state_join store.now delta.now)
        (is_newer (map.get store.now.retained topic.now) kept.now ≡ true) (5, (topic.now, [])) out.old.items out.new.items) }
    ensures memory { OnErr result (is_newer (map.get store.now.retained topic.now) kept.now ≡ true) }
{
    if let Some(own) = store.retained().kept(topic) {
        if !own.is_below(kept) {
            return Ok(());
        }
        kept_fits(topic, own);
    }
    kept_fits(topic, kept);
    let row = retained_row(alloc, topic, kept)?;
    out.push(Change::Put(row))?;
    Ok(())
}

// Puts of what the delta keeps of topics.
fn add_topics(
    alloc: Global,
    store: &ReplicaStore,
    delta: &ReplicaStore,
    out: &mut Vec<Change>,
) -> Result<(), NoMemory>
    ensures { OnOk result (AddsTopics store.now delta.now out.old.items out.new.items) }
{
    for (topic, kept) in delta.retained().entries() {
        add_topic(alloc, store, delta, topic, kept, out)?;
    }
    Ok(())
}

// A put of the dots at the place, where the other has more; else it takes no memory.
fn add_context(
    alloc: Global,
    at: u8,
    own: &Context,
    other: &Context,
    out: &mut Vec<Change>,
) -> Result<(), NoMemory>
    ensures put { OnOk result (AddsContext at own.now other.now out.old.items out.new.items) }
    ensures memory { OnErr result (set.union own.now other.now ≢ own.now) }
{
    if other.is_below(own) {
        return Ok(());
    }
    let _own = own.ranges();
    let joined = own.joined(other)?;
    let row = context_row(alloc, at, &joined)?;
    out.push(Change::Put(row))?;
    Ok(())
}

/// The changes that lead from the store's rows to those after its join with the delta, in a time that
/// goes by the delta: each is needed. A delta that is below makes none, and takes no memory.
pub fn changes_by(
    alloc: Global,
    store: &ReplicaStore,
    delta: &ReplicaStore,
) -> Result<Vec<Change>, NoMemory>
    ensures changes { IfOk result (λ out.
        AreChanges store.now (state_join store.now delta.now) out.items) }
    ensures lead { IfOk result (λ out.
        LeadBetween store.now (state_join store.now delta.now) out.items) }
    ensures below { StateBelow delta.now store.now → IsOk result }
{
    let mut out = Vec::new(alloc);
    if delta.is_below(store) {
        return Ok(out);
    }
    add_subscriptions(alloc, store, delta, &mut out)?;
    add_removals(alloc, store, delta, &mut out)?;
    add_topics(alloc, store, delta, &mut out)?;
    add_context(alloc, TAKEN, store.taken(), delta.taken(), &mut out)?;
    let seen = store.subscriptions().seen();
    add_context(alloc, SEEN, seen, delta.subscriptions().seen(), &mut out)?;
    Ok(out)
}

/// Puts of the rows of the store: they lead to them from no rows. The store of no operation has none, which
/// takes no memory.
pub fn puts_of(alloc: Global, store: &ReplicaStore) -> Result<Vec<Change>, NoMemory>
    ensures lead { IfOk result (λ out. AreRowsOf (after_all map.empty out.items) store.now) }
    ensures none { store.now ≡ nothing → IsOk result }
{
    let none = ReplicaStore::new(alloc);
    changes_by(alloc, &none, store)
}
