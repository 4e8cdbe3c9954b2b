//! Readers and writers of the values in a store.
ghost use Rattle.std.specs.Prelude.{◌≡◌, ◌+◌, ◌<◌, ◌≤◌, ◌++◌, length, vec_len, vec_capacity, OnOk, OnErr, IsErrOf};
ghost use Rattle.mqtt_fields.specs.Reading.{Gives};
ghost use Rattle.mqtt_topics.specs.Topics.{IsFilter};
ghost use Rattle.replica_bytes.specs.Memory.{HasText};
ghost use Rattle.replica_bytes.specs.Values as spec;
ghost use Rattle.replica_bytes.specs.Values.{filter_in};

use causal_context::Dot;
use mqtt_fields::{FieldFault, NoMemory, Text, put_u16, put_u64, u16_at, u64_at};
use mqtt_topics::{Filter, TopicFault};
use std::alloc::Global;

/// The dot at the front, and the bytes after it. Short where they end inside it, Malformed where
/// no dot has the number.
pub fn dot_at(bytes: &[u8]) -> Result<(Dot, &[u8]), FieldFault>
    ensures exact { Gives (λ x. (x.0, x.1.now)) result (spec.dot.at bytes.now) }
    ensures no_memory { IsErrOf result FieldFault.NoMemory → ⊥ }
{
    let (node, rest) = u16_at(bytes)?;
    let (number, rest) = u64_at(rest)?;
    match Dot::new(node, number) {
        None => Err(FieldFault::Malformed),
        Some(dot) => Ok((dot, rest)),
    }
}

pub(crate) fn dot_of(node: u16, number: u64) -> Result<Dot, FieldFault>
    ensures exact { Gives (λ d. d) result (spec.dot_in node number) }
    ensures no_memory { IsErrOf result FieldFault.NoMemory → ⊥ }
{
    match Dot::new(node, number) {
        None => Err(FieldFault::Malformed),
        Some(dot) => Ok(dot),
    }
}

/// Appends the dot: ten bytes. Where memory runs out `out` stays as it was.
pub fn write_dot(dot: Dot, out: &mut Vec<u8>) -> Result<(), NoMemory>
    ensures ok { OnOk result (out.new.items ≡ out.old.items ++ spec.dot.bytes dot) }
    ensures spelling { spec.dot.Fits dot }
    ensures err { OnErr result (out.new.items ≡ out.old.items) }
    ensures full { OnErr result (vec_capacity out.old < vec_len out.old + 10) }
    ensures capacity { vec_capacity out.old ≤ vec_capacity out.new }
{
    out.reserve(10)?;
    put_u16(dot.node(), out).unwrap();
    put_u64(dot.number(), out).unwrap();
    Ok(())
}

fn filter_of(alloc: Global, text: &Text) -> Result<Filter, FieldFault>
    ensures exact { Gives (λ f. f) result (filter_in text.now) }
    ensures no_memory { IsErrOf result FieldFault.NoMemory → IsFilter text.now }
{
    match Filter::parse(alloc, text.as_str()) {
        Ok(filter) => Ok(filter),
        Err(fault) => match fault {
            TopicFault::NoMemory => Err(FieldFault::NoMemory),
            _ => Err(FieldFault::Malformed),
        },
    }
}

/// A topic filter at the front, and the bytes after it. Only a string that is read wants memory.
pub fn filter_at(alloc: Global, bytes: &[u8]) -> Result<(Filter, &[u8]), FieldFault>
    ensures exact { Gives (λ x. (x.0, x.1.now)) result (spec.filter.at bytes.now) }
    ensures no_memory { IsErrOf result FieldFault.NoMemory → HasText bytes.now }
{
    let (text, rest) = Text::at(alloc, bytes)?;
    let filter = filter_of(alloc, &text)?;
    Ok((filter, rest))
}
