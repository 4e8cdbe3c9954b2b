//! Subscriptions in bytes.
ghost use Rattle.std.specs.Prelude.{◌≡◌, ◌+◌, ◌<◌, ◌≤◌, ◌++◌, length, take, vec_len, vec_capacity, OnOk, OnErr, IsOk, IsErrOf};
ghost use Rattle.mqtt_fields.specs.Reading.{Gives};
ghost use Rattle.mqtt_fields.specs.Numbers.{text};
ghost use Rattle.replica_bytes.specs.Values as spec;
ghost use Rattle.replica_bytes.specs.Memory.{EntryWants, HasText};

use crate::values::{dot_of, filter_at, write_dot};
use causal_context::Dot;
use mqtt_fields::{
    FieldFault, NoMemory, SubscriptionOptions, Text, put_u8, put_u32, u8_at, u16_at, u32_at, u64_at,
};
use std::alloc::Global;
use subscription_set::Entry;

/// The subscription of the client whose filter, options, identifier and version are at the front, and
/// the bytes after them.
///
/// Short where the bytes end inside them; Malformed where the filter isn't one, or no SUBSCRIBE can
/// have the options and the identifier. Memory is wanted only once a string has been read.
pub fn entry_of(alloc: Global, client: Text, bytes: &[u8]) -> Result<(Entry, &[u8]), FieldFault>
    ensures exact { Gives (λ x. (x.0, x.1.now)) result
        ((spec.entry_of_client client).at bytes.now) }
    ensures no_memory { IsErrOf result FieldFault.NoMemory → HasText bytes.now }
{
    let (filter, rest) = filter_at(alloc, bytes)?;
    let (options, rest) = u8_at(rest)?;
    let (identifier, rest) = u32_at(rest)?;
    let (version, rest) = u32_at(rest)?;
    let options = SubscriptionOptions::of_byte(options);
    match Entry::new(client, filter, options, identifier, version) {
        None => Err(FieldFault::Malformed),
        Some(entry) => Ok((entry, rest)),
    }
}

#[tactic(auto, unfolding(crate::specs::Values::entry))]
fn entry_at(alloc: Global, bytes: &[u8]) -> Result<(Entry, &[u8]), FieldFault>
    ensures exact { Gives (λ x. (x.0, x.1.now)) result (spec.entry.at bytes.now) }
    ensures no_memory { IsErrOf result FieldFault.NoMemory → IsOk (text.at bytes.now) }
{
    let (client, rest) = Text::at(alloc, bytes)?;
    entry_of(alloc, client, rest)
}

/// A dot and the subscription at it at the front, and the bytes after them.
pub(crate) fn dot_entry_at(alloc: Global, bytes: &[u8]) -> Result<((Dot, Entry), &[u8]), FieldFault>
    ensures exact { Gives (λ x. (x.0, x.1.now)) result (spec.dot_entry.at bytes.now) }
    ensures no_memory { IsErrOf result FieldFault.NoMemory → EntryWants bytes.now }
{
    let (node, rest) = u16_at(bytes)?;
    let (number, rest) = u64_at(rest)?;
    let dot = dot_of(node, number)?;
    let (entry, rest) = entry_at(alloc, rest)?;
    Ok(((dot, entry), rest))
}

fn append_subscription(entry: &Entry, out: &mut Vec<u8>) -> Result<(), NoMemory>
    ensures ok { OnOk result (out.new.items ≡ out.old.items
        ++ spec.subscription.bytes (spec.subscription_in entry.now)) }
    ensures begins { take (length out.old.items) out.new.items ≡ out.old.items }
    ensures full { OnErr result (vec_capacity out.old < vec_len out.old
        + length (spec.subscription.bytes (spec.subscription_in entry.now))) }
    ensures capacity { vec_capacity out.old ≤ vec_capacity out.new }
{
    entry.filter().as_text().write(out)?;
    put_u8(entry.options().byte(), out)?;
    put_u32(entry.identifier(), out)?;
    put_u32(entry.version(), out)
}

/// Appends what follows the client of the subscription: its filter, options, identifier and version.
/// Where memory runs out `out` stays as it was.
pub fn write_subscription(entry: &Entry, out: &mut Vec<u8>) -> Result<(), NoMemory>
    ensures ok { OnOk result (out.new.items ≡ out.old.items
        ++ spec.subscription.bytes (spec.subscription_in entry.now)) }
    ensures err { OnErr result (out.new.items ≡ out.old.items) }
    ensures full { OnErr result (vec_capacity out.old < vec_len out.old
        + length (spec.subscription.bytes (spec.subscription_in entry.now))) }
    ensures capacity { vec_capacity out.old ≤ vec_capacity out.new }
{
    let len = out.len();
    match append_subscription(entry, out) {
        Ok(()) => Ok(()),
        Err(fault) => {
            out.truncate(len);
            Err(fault)
        }
    }
}

// Each subscription has a spelling.
#[tactic(auto, unfolding(crate::specs::Values::entry), using(crate::proofs::Fits::fits))]
fn entry_fits(entry: &Entry)
    ensures { spec.entry.Fits entry.now }
{
    let _client = entry.client().as_str();
    let _filter = entry.filter().as_str();
    let _options = entry.options().byte();
    let _identifier = entry.identifier();
    let _version = entry.version();
}

/// Appends the subscription, or its beginning where memory runs out.
#[tactic(auto, unfolding(crate::specs::Values::entry))]
fn append_entry(entry: &Entry, out: &mut Vec<u8>) -> Result<(), NoMemory>
    ensures ok { OnOk result (out.new.items ≡ out.old.items ++ spec.entry.bytes entry.now) }
    ensures begins { take (length out.old.items) out.new.items ≡ out.old.items }
    ensures full { OnErr result (vec_capacity out.old < vec_len out.old + length (spec.entry.bytes entry.now)) }
    ensures capacity { vec_capacity out.old ≤ vec_capacity out.new }
{
    entry.client().write(out)?;
    append_subscription(entry, out)
}

/// Appends the dot and the subscription, or their beginning where memory runs out.
pub(crate) fn append_dot_entry(dot: Dot, entry: &Entry, out: &mut Vec<u8>) -> Result<(), NoMemory>
    ensures spelling { spec.dot_entry.Fits (dot, entry.now) }
    ensures ok { OnOk result (out.new.items ≡ out.old.items ++ spec.dot_entry.bytes (dot, entry.now)) }
    ensures begins { take (length out.old.items) out.new.items ≡ out.old.items }
    ensures full { OnErr result (vec_capacity out.old
        < vec_len out.old + length (spec.dot_entry.bytes (dot, entry.now))) }
    ensures capacity { vec_capacity out.old ≤ vec_capacity out.new }
{
    entry_fits(entry);
    let _number = dot.number();
    write_dot(dot, out)?;
    append_entry(entry, out)
}
