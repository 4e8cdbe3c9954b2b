//! The delta of an operation.
ghost use Rattle.std.specs.Prelude.{◌≡◌, IfOk, IfErr, IsOk, Some, true};
ghost use Rattle.std.specs.FinMap as map;
ghost use Rattle.std.specs.FinSet as set;
ghost use Rattle.subscription_set.specs.Statuses.{statuses_join};
ghost use Rattle.replica_store.specs.Contents.{topic_in, message_in};
ghost use Rattle.replica_store.specs.Retained.{one_put};
ghost use Rattle.replica_store.specs.StateOf.{removed, uncovered_entry, delta_of as delta};

use crate::content::Content;
use crate::fault::StoreFault;
use crate::operation::Operation;
use crate::retained::RetainedMap;
use crate::stamp::Stamp;
use crate::store::ReplicaStore;
use causal_context::{Context, Dot};
use mqtt_fields::NoMemory;
use std::alloc::Global;
use subscription_set::{Entry, SubscriptionSet};

// The set of the one dot.
fn one_dot(alloc: Global, dot: Dot) -> Result<Context, NoMemory>
    ensures { IfOk result (λ dots. dots ≡ set.insert set.empty dot) }
{
    let mut dots = Context::new(alloc);
    dots.insert(dot)?;
    Ok(dots)
}

// The set in which each of these dots is removed.
fn removed_by(alloc: Global, seen: Context) -> Result<SubscriptionSet, NoMemory>
    ensures { IfOk result (λ s. s ≡ removed seen) }
{
    let set = SubscriptionSet::new(seen, Vec::new(alloc))?;
    Ok(set.unwrap())
}

// The entry at the dot, or nothing where the cover has the dot, which takes no memory.
fn uncovered(
    alloc: Global,
    dot: Dot,
    entry: &Entry,
    cover: &Context,
) -> Result<Vec<(Dot, Entry)>, NoMemory>
    ensures entries { IfOk result (λ out. out.items ≡ uncovered_entry dot entry.now cover.now) }
    ensures covered { set.contains cover.now dot ≡ true → IsOk result }
{
    let mut entries = Vec::new(alloc);
    if !cover.contains(dot) {
        let copy = entry.copy(alloc)?;
        entries.push((dot, copy))?;
    }
    Ok(entries)
}

// The set in which the entry stands, and each dot of the cover is removed.
fn subscribed(
    alloc: Global,
    dot: Dot,
    entry: &Entry,
    cover: &Context,
) -> Result<SubscriptionSet, NoMemory>
    ensures { IfOk result (λ s. s
        ≡ statuses_join (removed cover.now) (map.insert map.empty dot (Some entry.now))) }
{
    let entries = uncovered(alloc, dot, entry, cover)?;
    let mut seen = cover.copy()?;
    seen.insert(dot)?;
    let set = SubscriptionSet::new(seen, entries)?;
    Ok(set.unwrap())
}

// The map of the one entry.
fn retained_by(alloc: Global, stamp: Stamp, content: &Content) -> Result<RetainedMap, NoMemory>
    ensures { IfOk result (λ r. r ≡ one_put (topic_in content.now)
        (record { stamp = stamp; message = message_in content.now })) }
{
    let mut retained = RetainedMap::new(alloc);
    let content = content.copy(alloc)?;
    retained.put(stamp, content)?;
    Ok(retained)
}

// The delta of an operation, where only memory may be wanting.
fn make_delta(alloc: Global, operation: &Operation) -> Result<ReplicaStore, NoMemory>
    ensures { IfOk result (λ s. s ≡ delta operation.now) }
{
    match operation {
        Operation::Subscribe { dot, entry, cover } => {
            let taken = one_dot(alloc, *dot)?;
            let subscriptions = subscribed(alloc, *dot, entry, cover)?;
            let retained = RetainedMap::new(alloc);
            Ok(ReplicaStore {
                alloc,
                taken,
                subscriptions,
                retained,
            })
        }
        Operation::Remove { dot, cover } => {
            let taken = one_dot(alloc, *dot)?;
            let mut seen = cover.copy()?;
            seen.insert(*dot)?;
            let subscriptions = removed_by(alloc, seen)?;
            let retained = RetainedMap::new(alloc);
            Ok(ReplicaStore {
                alloc,
                taken,
                subscriptions,
                retained,
            })
        }
        Operation::Put {
            dot,
            stamp,
            content,
        } => {
            let taken = one_dot(alloc, *dot)?;
            let seen = one_dot(alloc, *dot)?;
            let subscriptions = removed_by(alloc, seen)?;
            let retained = retained_by(alloc, *stamp, content)?;
            Ok(ReplicaStore {
                alloc,
                taken,
                subscriptions,
                retained,
            })
        }
    }
}

/// The delta of the operation: the state that holds it alone. (Almeida, Shoker, Baquero,
/// section 4.)
pub fn delta_of(alloc: Global, operation: &Operation) -> Result<ReplicaStore, StoreFault>
    ensures ok { IfOk result (λ s. s ≡ delta operation.now) }
    ensures fault { IfErr result (λ e. e ≡ StoreFault.NoMemory) }
{
    let store = make_delta(alloc, operation)?;
    Ok(store)
}
