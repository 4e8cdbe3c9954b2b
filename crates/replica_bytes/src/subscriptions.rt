//! Subscriptions of a store in bytes.
ghost use Rattle.std.specs.Prelude.{MatchOption, ◌≡◌, ◌≢◌, ◌⊎◌, ◌+◌, ◌<◌, ◌≤◌, ◌^◌, ◌++◌, length, take, flat_map, vec_len, vec_capacity, OnOk, OnErr, IsErrOf};
ghost use Rattle.std.specs.List.{AllByRecursion};
ghost use Rattle.mqtt_fields.specs.Reading.{Gives};
ghost use Rattle.mqtt_message.specs.Spelling.{values_at};
ghost use Rattle.subscription_set.specs.Standing.{standing};
ghost use Rattle.replica_bytes.specs.Memory.{EntryWants, SubscriptionsWant, WantsSome};
ghost use Rattle.replica_bytes.specs.Stores as spec;
ghost use Rattle.replica_bytes.specs.Values.{dot_entry};

use crate::entry::{append_dot_entry, dot_entry_at};
use causal_context::{Context, Dot};
use mqtt_fields::{FieldFault, NoMemory, put_u32, u32_at};
use std::alloc::Global;
use subscription_set::{Entry, SubscriptionSet};

// So many entries after their dots at the front, and the bytes after them.
fn entries_at(
    alloc: Global,
    count: u32,
    bytes: &[u8],
) -> Result<(Vec<(Dot, Entry)>, &[u8]), FieldFault>
    ensures exact { Gives (λ x. (x.0.items, x.1.now)) result (values_at dot_entry count bytes.now) }
    ensures no_memory { IsErrOf result FieldFault.NoMemory → WantsSome EntryWants count bytes.now }
{
    let mut entries = Vec::new(alloc);
    let mut rest = bytes;
    for i in 0..count {
        let (entry, after) = dot_entry_at(alloc, rest)?;
        entries.push(entry)?;
        rest = after;
    }
    Ok((entries, rest))
}

fn set_of(seen: Context, entries: Vec<(Dot, Entry)>) -> Result<SubscriptionSet, FieldFault>
    ensures exact { Gives (λ s. s) result (spec.set_in seen entries.items) }
    ensures no_memory { IsErrOf result FieldFault.NoMemory → 0 < length entries.items }
{
    match SubscriptionSet::new(seen, entries)? {
        None => Err(FieldFault::Malformed),
        Some(set) => Ok(set),
    }
}

/// Subscriptions at the front, and the bytes after them.
#[tactic(auto, unfolding(crate::specs::Stores::subscriptions))]
pub(crate) fn subscriptions_at(
    alloc: Global,
    bytes: &[u8],
) -> Result<(SubscriptionSet, &[u8]), FieldFault>
    ensures exact { Gives (λ x. (x.0, x.1.now)) result (spec.subscriptions.at bytes.now) }
    ensures no_memory { IsErrOf result FieldFault.NoMemory → SubscriptionsWant bytes.now }
{
    let (seen, rest) = Context::at(alloc, bytes)?;
    let (count, rest) = u32_at(rest)?;
    let (entries, rest) = entries_at(alloc, count, rest)?;
    let set = set_of(seen, entries)?;
    Ok((set, rest))
}

fn append_entries(set: &SubscriptionSet, out: &mut Vec<u8>) -> Result<(), NoMemory>
    ensures spelling { OnOk result (AllByRecursion dot_entry.Fits (standing set.now)) }
    ensures ok { OnOk result (out.new.items
        ≡ out.old.items ++ flat_map dot_entry.bytes (standing set.now)) }
    ensures begins { take (length out.old.items) out.new.items ≡ out.old.items }
    ensures full { OnErr result (vec_capacity out.old
        < vec_len out.old + length (flat_map dot_entry.bytes (standing set.now))) }
    ensures capacity { vec_capacity out.old ≤ vec_capacity out.new }
{
    for (dot, entry) in set.entries() {
        append_dot_entry(*dot, entry, out)?;
    }
    Ok(())
}

/// How many entries there are, where four bytes can count them.
fn count_of(set: &SubscriptionSet) -> Option<u32>
    ensures { MatchOption result (length (standing set.now) < 2 ^ 32 → ⊥)
        (λ count. count ≡ length (standing set.now)) }
{
    u32::try_from(set.entries().len()).ok()
}

/// Appends subscriptions, or their beginning where memory runs out or there are more than four bytes
/// can count.
#[tactic(auto, unfolding(crate::specs::Stores::subscriptions))]
pub(crate) fn append_subscriptions(set: &SubscriptionSet, out: &mut Vec<u8>) -> Result<(), NoMemory>
    ensures ok { OnOk result (out.new.items ≡ out.old.items ++ spec.subscriptions.bytes set.now) }
    ensures counted { OnOk result (length (standing set.now) < 2 ^ 32) }
    ensures spelling { OnOk result (spec.subscriptions.Fits set.now) }
    ensures begins { take (length out.old.items) out.new.items ≡ out.old.items }
    ensures full { OnErr result (length (standing set.now) < 2 ^ 32
        → vec_capacity out.old < vec_len out.old + length (spec.subscriptions.bytes set.now)) }
    ensures capacity { vec_capacity out.old ≤ vec_capacity out.new }
{
    set.seen().write(out)?;
    let Some(count) = count_of(set) else {
        return Err(NoMemory);
    };
    put_u32(count, out)?;
    append_entries(set, out)
}
