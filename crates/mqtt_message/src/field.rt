//! Readers and writers of the parts of messages and deliveries.

ghost use Rattle.std.specs.Prelude.{◌≡◌, ◌+◌, ◌<◌, ◌≤◌, ◌++◌, length, take, vec_len, vec_capacity, OnOk, OnErr, IsOk, IsErrOf};
ghost use Rattle.std.specs.Int.{w64};
ghost use Rattle.mqtt_fields.specs.Reading.{Gives};
ghost use Rattle.mqtt_fields.specs.Numbers.{number, text};
ghost use Rattle.mqtt_message.specs.Spelling.{flag, optional, OptionalFits, plain_fault};
ghost use Rattle.mqtt_message.specs.Parts.{name, name_in, payload, qos, tail, tail_parts};

use crate::payload::Payload;
use mqtt_fields::{FieldFault, NoMemory, Qos, Text, long_at, put_u8, put_u64, u8_at, u64_at};
use mqtt_topics::{TopicFault, TopicName};
use std::alloc::Global;

pub(crate) fn plain_fault(fault: FieldFault) -> FieldFault
    ensures { result ≡ plain_fault fault }
{
    match fault {
        FieldFault::Repeated | FieldFault::NotHere => FieldFault::Malformed,
        _ => fault,
    }
}

fn name_of(alloc: Global, text: &Text) -> Result<TopicName, FieldFault>
    ensures { Gives (λ n. n) result (name_in text.now) }
{
    match TopicName::of_text(alloc, text) {
        Ok(name) => Ok(name),
        Err(fault) => match fault {
            TopicFault::NoMemory => Err(FieldFault::NoMemory),
            _ => Err(FieldFault::Malformed),
        },
    }
}

/// A topic name at the front, and the bytes after it. Only a string that is read wants memory.
pub fn name_at(alloc: Global, bytes: &[u8]) -> Result<(TopicName, &[u8]), FieldFault>
    ensures exact { Gives (λ x. (x.0, x.1.now)) result (name.at bytes.now) }
    ensures no_memory { IsErrOf result FieldFault.NoMemory → IsOk (text.at bytes.now) }
{
    let (text, rest) = Text::at(alloc, bytes)?;
    let name = name_of(alloc, &text)?;
    Ok((name, rest))
}

pub(crate) fn payload_at(alloc: Global, bytes: &[u8]) -> Result<(Payload, &[u8]), FieldFault>
    ensures { Gives (λ x. (x.0, x.1.now)) result (payload.at bytes.now) }
{
    let (run, rest) = long_at(bytes)?;
    if run.len() > 268_435_455 {
        return Err(FieldFault::Malformed);
    }
    let payload = Payload::from_slice(alloc, run)?;
    Ok((payload, rest))
}

pub(crate) fn qos_at(bytes: &[u8]) -> Result<(Qos, &[u8]), FieldFault>
    ensures { Gives (λ x. (x.0, x.1.now)) result (qos.at bytes.now) }
{
    let (n, rest) = u8_at(bytes)?;
    match Qos::of(n) {
        Some(level) => Ok((level, rest)),
        None => Err(FieldFault::Malformed),
    }
}

/// The flag at the front, a byte 0 or 1, and the bytes after it. Short where there is none, Malformed
/// at another byte.
pub fn flag_at(bytes: &[u8]) -> Result<(bool, &[u8]), FieldFault>
    ensures exact { Gives (λ x. (x.0, x.1.now)) result (flag.at bytes.now) }
    ensures no_memory { IsErrOf result FieldFault.NoMemory → ⊥ }
{
    let (n, rest) = u8_at(bytes)?;
    match n {
        0 => Ok((false, rest)),
        1 => Ok((true, rest)),
        _ => Err(FieldFault::Malformed),
    }
}

pub(crate) fn deadline_at(bytes: &[u8]) -> Result<(Option<u64>, &[u8]), FieldFault>
    ensures { Gives (λ x. (x.0, x.1.now)) result ((optional (number w64)).at bytes.now) }
{
    let (present, rest) = flag_at(bytes)?;
    if !present {
        return Ok((None, rest));
    }
    let (deadline, rest) = u64_at(rest)?;
    Ok((Some(deadline), rest))
}

/// What stands after a message's properties.
#[derive(Drop)]
pub(crate) struct Tail {
    pub(crate) qos: Qos,
    pub(crate) retain: bool,
    pub(crate) publisher: Text,
    pub(crate) deadline: Option<u64>,
}

#[tactic(auto, unfolding(crate::specs::Parts::tail))]
pub(crate) fn tail_at(alloc: Global, bytes: &[u8]) -> Result<(Tail, &[u8]), FieldFault>
    ensures { Gives (λ x. (tail_parts x.0, x.1.now)) result (tail.at bytes.now) }
{
    let (qos, rest) = qos_at(bytes)?;
    let (retain, rest) = flag_at(rest)?;
    let (publisher, rest) = Text::at(alloc, rest)?;
    let (deadline, rest) = deadline_at(rest)?;
    let tail = Tail {
        qos,
        retain,
        publisher,
        deadline,
    };
    Ok((tail, rest))
}

pub(crate) fn put_qos(level: Qos, out: &mut Vec<u8>) -> Result<(), NoMemory>
    ensures ok { OnOk result (out.new.items ≡ out.old.items ++ qos.bytes level) }
    ensures err { OnErr result (out.new.items ≡ out.old.items) }
    ensures full { OnErr result (vec_capacity out.old < vec_len out.old + 1) }
    ensures capacity { vec_capacity out.old ≤ vec_capacity out.new }
{
    put_u8(level.number(), out)
}

/// Appends a flag: a byte 0 or 1.
pub fn put_flag(set: bool, out: &mut Vec<u8>) -> Result<(), NoMemory>
    ensures ok { OnOk result (out.new.items ≡ out.old.items ++ flag.bytes set) }
    ensures err { OnErr result (out.new.items ≡ out.old.items) }
    ensures full { OnErr result (vec_capacity out.old < vec_len out.old + 1) }
    ensures capacity { vec_capacity out.old ≤ vec_capacity out.new }
{
    put_u8(if set { 1 } else { 0 }, out)
}

/// Appends a deadline, or its beginning where memory runs out.
pub(crate) fn put_deadline(deadline: Option<u64>, out: &mut Vec<u8>) -> Result<(), NoMemory>
    ensures ok { OnOk result (out.new.items ≡ out.old.items ++ (optional (number w64)).bytes deadline) }
    ensures begins { take (length out.old.items) out.new.items ≡ out.old.items }
    ensures full { OnErr result (vec_capacity out.old
        < vec_len out.old + length ((optional (number w64)).bytes deadline)) }
    ensures capacity { vec_capacity out.old ≤ vec_capacity out.new }
{
    put_flag(deadline.is_some(), out)?;
    match deadline {
        None => Ok(()),
        Some(moment) => put_u64(moment, out),
    }
}

/// Each deadline has a spelling. This does nothing; its contract is a law.
pub(crate) fn has_spelling(deadline: Option<u64>)
    ensures { OptionalFits (number w64) deadline }
{
    if let Some(moment) = deadline {
        let _moment = moment;
    }
}
