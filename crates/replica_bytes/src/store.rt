//! A whole store in bytes.
ghost use Rattle.std.specs.Prelude.{◌≡◌, ◌+◌, ◌<◌, ◌≤◌, ◌++◌, length, take, drop, vec_len, vec_capacity, IfOk, OnOk, OnErr, IsErrOf, Ok};
ghost use Rattle.causal_context.specs.SetLattice.{IsSubset};
ghost use Rattle.mqtt_fields.specs.Reading.{Gives};
ghost use Rattle.subscription_set.specs.Standing.{seen_of};
ghost use Rattle.replica_bytes.specs.Memory.{SubscriptionsWant, WantsMemory};
ghost use Rattle.replica_bytes.specs.Stores as spec;
ghost use Rattle.replica_bytes.specs.Stores.{IsCounted};

use crate::retained::{append_retained, retained_at};
use crate::subscriptions::{append_subscriptions, subscriptions_at};
use causal_context::{Context, Lattice};
use mqtt_fields::{FieldFault, NoMemory};
use replica_store::ReplicaStore;
use std::alloc::Global;
use subscription_set::SubscriptionSet;

// Subscriptions at the front, where each dot that was taken was seen, and the bytes after them.
#[tactic(auto, unfolding(crate::specs::Stores::seeing))]
fn seeing_at<'a>(
    alloc: Global,
    taken: &Context,
    bytes: &'a [u8],
) -> Result<(SubscriptionSet, &'a [u8]), FieldFault>
    ensures exact { Gives (λ x. (x.0, x.1.now)) result ((spec.seeing taken.now).at bytes.now) }
    ensures read { IfOk result (λ x. spec.subscriptions.at bytes.now ≡ Ok (x.0, x.1.now)) }
    ensures seen { IfOk result (λ x. IsSubset taken.now (seen_of x.0)) }
    ensures no_memory { IsErrOf result FieldFault.NoMemory → SubscriptionsWant bytes.now }
{
    let (subscriptions, rest) = subscriptions_at(alloc, bytes)?;
    if !taken.is_below(subscriptions.seen()) {
        return Err(FieldFault::Malformed);
    }
    Ok((subscriptions, rest))
}

// A store at the front, and the bytes after it.
#[tactic(auto, unfolding(crate::specs::Stores::state))]
fn store_at(alloc: Global, bytes: &[u8]) -> Result<(ReplicaStore, &[u8]), FieldFault>
    ensures exact { Gives (λ x. (x.0, x.1.now)) result (spec.state.at bytes.now) }
    ensures no_memory { IsErrOf result FieldFault.NoMemory → WantsMemory bytes.now }
{
    let (taken, rest) = Context::at(alloc, bytes)?;
    let (subscriptions, rest) = seeing_at(alloc, &taken, rest)?;
    let (retained, rest) = retained_at(alloc, rest)?;
    let store = ReplicaStore::of_parts(alloc, taken, subscriptions, retained);
    Ok((store, rest))
}

/// The store at the front of the bytes, and how many bytes it takes.
///
/// Short where the bytes end inside it; Malformed where they aren't the one spelling of a store, as where a dot was taken and
/// not seen.
/// Memory is wanted only once a range of a set, a client or a topic has been read.
pub fn read_store(alloc: Global, bytes: &[u8]) -> Result<(ReplicaStore, usize), FieldFault>
    ensures exact { Gives (λ x. (x.0, drop x.1 bytes.now)) result (spec.state.at bytes.now) }
    ensures used { IfOk result (λ x. x.1 ≤ length bytes.now) }
    ensures no_memory { IsErrOf result FieldFault.NoMemory → WantsMemory bytes.now }
{
    let (store, rest) = store_at(alloc, bytes)?;
    Ok((store, bytes.len() - rest.len()))
}

#[tactic(auto, unfolding(crate::specs::Stores::state, crate::specs::Stores::seeing))]
fn append_store(store: &ReplicaStore, out: &mut Vec<u8>) -> Result<(), NoMemory>
    ensures ok { OnOk result (out.new.items ≡ out.old.items ++ spec.state.bytes store.now) }
    ensures spelling { OnOk result (spec.state.Fits store.now) }
    ensures counted { OnOk result (IsCounted store.now) }
    ensures begins { take (length out.old.items) out.new.items ≡ out.old.items }
    ensures full { OnErr result (IsCounted store.now
        → vec_capacity out.old < vec_len out.old + length (spec.state.bytes store.now)) }
    ensures capacity { vec_capacity out.old ≤ vec_capacity out.new }
{
    store.has_seen();
    store.taken().write(out)?;
    append_subscriptions(store.subscriptions(), out)?;
    append_retained(store.retained(), out)
}

/// Appends the store's bytes. Where memory runs out, or there are more subscriptions or topics than four bytes can count, `out` stays as it was.
pub fn write_store(store: &ReplicaStore, out: &mut Vec<u8>) -> Result<(), NoMemory>
    ensures ok { OnOk result (out.new.items ≡ out.old.items ++ spec.state.bytes store.now) }

    // They are the store's one spelling, so what is written is read again.
    ensures spelling { OnOk result (spec.state.Fits store.now) }
    ensures counted { OnOk result (IsCounted store.now) }
    ensures err { OnErr result (out.new.items ≡ out.old.items) }
    ensures full { OnErr result (IsCounted store.now
        → vec_capacity out.old < vec_len out.old + length (spec.state.bytes store.now)) }
    ensures capacity { vec_capacity out.old ≤ vec_capacity out.new }
{
    let len = out.len();
    match append_store(store, out) {
        Ok(()) => Ok(()),
        Err(fault) => {
            out.truncate(len);
            Err(fault)
        }
    }
}
