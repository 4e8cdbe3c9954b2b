//! Properties and their values (MQTT 5.0, 2.2.2.2).

ghost use Rattle.std.specs.Prelude.{◌≡◌, ◌+◌, ◌<◌, ◌≤◌, ◌^◌, ◌++◌, length, IfOk, IsOk, IsErrOf, MatchOption, IfSome, IsSome, vec_len, vec_capacity};
ghost use Rattle.mqtt_fields.specs.Reading.{Gives};
ghost use Rattle.mqtt_fields.specs.Value.{value, value_bytes, kind_of, VbiFits};

use crate::blob::{Blob, blob_at};
use crate::fault::{FieldFault, NoMemory};
use crate::number::{u8_at, u16_at, u32_at};
use crate::table::ValueKind;
use crate::text::{Text, str_at};
use crate::vbi::{Vbi, put_vbi, vbi_at, vbi_len};
use std::alloc::Global;

/// A property's value, of one of the seven types.
#[derive(Debug, PartialEq, Eq, Drop)]
pub enum Value {
    /// A byte.
    Byte(u8),
    /// A Two Byte Integer.
    Two(u16),
    /// A Four Byte Integer.
    Four(u32),
    /// A Variable Byte Integer. It has a spelling below 2^28.
    Vbi(u32),
    /// A UTF-8 Encoded String.
    Text(Text),
    /// Binary Data.
    Blob(Blob),
    /// A UTF-8 String Pair: a name and a value.
    Pair(Text, Text),
}

/// A property: its identifier and its value.
#[derive(Debug, PartialEq, Eq, Drop)]
pub struct Property {
    pub id: u8,
    pub value: Value,
}

impl Value {
    /// The type.
    pub(crate) fn kind(&self) -> ValueKind
        ensures { result ≡ kind_of self.now }
    {
        match self {
            Value::Byte(_) => ValueKind::Byte,
            Value::Two(_) => ValueKind::Two,
            Value::Four(_) => ValueKind::Four,
            Value::Vbi(_) => ValueKind::Vbi,
            Value::Text(_) => ValueKind::Text,
            Value::Blob(_) => ValueKind::Blob,
            Value::Pair(_, _) => ValueKind::Pair,
        }
    }

    /// A value equal to this one.
    pub fn copy(&self, alloc: Global) -> Result<Value, NoMemory>
        ensures { IfOk result (λ v. v ≡ self.now) }
    {
        Ok(match self {
            Value::Byte(n) => Value::Byte(*n),
            Value::Two(n) => Value::Two(*n),
            Value::Four(n) => Value::Four(*n),
            Value::Vbi(n) => Value::Vbi(*n),
            Value::Text(t) => Value::Text(t.copy(alloc)?),
            Value::Blob(b) => Value::Blob(b.copy(alloc)?),
            Value::Pair(a, b) => Value::Pair(a.copy(alloc)?, b.copy(alloc)?),
        })
    }
}

impl Property {
    /// A property equal to this one.
    pub fn copy(&self, alloc: Global) -> Result<Property, NoMemory>
        ensures { IfOk result (λ p. p ≡ self.now) }
    {
        let value = self.value.copy(alloc)?;
        Ok(Property { id: self.id, value })
    }
}

/// A value of this type at the front, and the bytes after it. Only a value that is read wants
/// memory.
pub(crate) fn value_at(
    alloc: Global,
    kind: ValueKind,
    bytes: &[u8],
) -> Result<(Value, &[u8]), FieldFault>
    ensures exact { Gives (λ x. (x.0, x.1.now)) result ((value kind).at bytes.now) }
    ensures no_memory { IsErrOf result FieldFault.NoMemory → IsOk ((value kind).at bytes.now) }
{
    match kind {
        ValueKind::Byte => {
            let (n, rest) = u8_at(bytes)?;
            Ok((Value::Byte(n), rest))
        }
        ValueKind::Two => {
            let (n, rest) = u16_at(bytes)?;
            Ok((Value::Two(n), rest))
        }
        ValueKind::Four => {
            let (n, rest) = u32_at(bytes)?;
            Ok((Value::Four(n), rest))
        }
        ValueKind::Vbi => {
            let (n, rest) = vbi_at(bytes)?;
            Ok((Value::Vbi(n), rest))
        }
        ValueKind::Text => {
            let (s, rest) = str_at(bytes)?;
            let t = Text::of(alloc, s)?;
            Ok((Value::Text(t), rest))
        }
        ValueKind::Blob => {
            let (run, rest) = blob_at(bytes)?;
            let b = Blob::of(alloc, run)?;
            Ok((Value::Blob(b), rest))
        }
        ValueKind::Pair => {
            let (name, rest) = str_at(bytes)?;
            let (value, rest) = str_at(rest)?;
            let a = Text::of(alloc, name)?;
            let b = Text::of(alloc, value)?;
            Ok((Value::Pair(a, b), rest))
        }
    }
}

/// How many bytes a value takes, unless it has no spelling.
#[tactic(auto, using(crate::proofs::LengthLaws::lengths))]
pub(crate) fn value_len(v: &Value) -> Option<usize>
    ensures exact { MatchOption result (¬ ((value (kind_of v.now)).Fits v.now))
        (λ n. (value (kind_of v.now)).Fits v.now × (n ≡ length (value_bytes v.now))) }
    ensures some { VbiFits v.now → IsSome result }
    ensures small { IfSome result (λ n. n < 2 ^ 18) }
{
    match v {
        Value::Byte(n) => {
            let _n = *n;
            Some(1)
        }
        Value::Two(n) => {
            let _n = *n;
            Some(2)
        }
        Value::Four(n) => {
            let _n = *n;
            Some(4)
        }
        Value::Vbi(n) => {
            if *n <= Vbi::MAX {
                Some(vbi_len(*n))
            } else {
                None
            }
        }
        Value::Text(t) => Some(2 + t.as_str().len()),
        Value::Blob(b) => Some(2 + b.as_bytes().len()),
        Value::Pair(a, b) => Some(4 + a.as_str().len() + b.as_str().len()),
    }
}

/// Appends a value where there is room for it.
pub(crate) fn put_value(v: &Value, out: &mut Vec<u8>)
    requires fits { VbiFits v.now }
    requires room { vec_len out.old + length (value_bytes v.now) ≤ vec_capacity out.old }
    ensures items { out.new.items ≡ out.old.items ++ value_bytes v.now }
    ensures len { vec_len out.new ≡ vec_len out.old + length (value_bytes v.now) }
    ensures capacity { vec_capacity out.old ≤ vec_capacity out.new }
{
    match v {
        Value::Byte(n) => out.push_reserved(*n),
        Value::Two(n) => out.extend_from_slice(&n.to_be_bytes()).unwrap(),
        Value::Four(n) => out.extend_from_slice(&n.to_be_bytes()).unwrap(),
        Value::Vbi(n) => put_vbi(*n, out),
        Value::Text(t) => t.put(out),
        Value::Blob(b) => b.put(out),
        Value::Pair(a, b) => {
            a.put(out);
            b.put(out);
        }
    }
}
