//! The Subscription Identifiers of a delivery.

ghost use Rattle.std.specs.Prelude.{◌≡◌, ◌≢◌, ◌+◌, ◌<◌, ◌≤◌, ◌^◌, ◌++◌, List, [], ℕ, length, vec_len, vec_capacity, take, OnOk, OnErr, IsTrue, IfOk, MatchOption};
ghost use Rattle.std.specs.Int.{w32};
ghost use Rattle.mqtt_fields.specs.Reading.{Gives};
ghost use Rattle.mqtt_fields.specs.Numbers.{number};
ghost use Rattle.mqtt_message.specs.Spelling.{values_at};
ghost use Rattle.mqtt_message.specs.Parts.{identifiers};
ghost use Rattle.mqtt_message.specs.Identifiers.{are_identifiers, identifiers_of};

use mqtt_fields::{FieldFault, NoMemory, put_u16, put_u32, u16_at, u32_at};
use std::alloc::Global;
use std::marker::Model;

/// The greatest number that a Variable Byte Integer holds.
const GREATEST: u32 = 268_435_455;

/// Fewer than 65,536 Subscription Identifiers, ascending, repeats kept (MQTT 5.0, 3.3.2.3.8). Contracts
/// see the list.
#[derive(Drop)]
pub struct Identifiers {
    items: Vec<u32>,
}

impl Model for Identifiers {
    ghost Value = { List ℕ };

    ghost view = { λ i. i.items.items };

    ghost invariant = { λ i. (length i.items.items < 2 ^ 16) × IsTrue (are_identifiers i.items.items) };
}

fn are_identifiers(numbers: &[u32]) -> bool
    ensures { result ≡ are_identifiers numbers.now }
{
    let mut least = 1;
    for n in numbers {
        if *n < least || *n > GREATEST {
            return false;
        }
        least = *n;
    }
    true
}

fn numbers_at(alloc: Global, count: u16, bytes: &[u8]) -> Result<(Vec<u32>, &[u8]), FieldFault>
    ensures { Gives (λ x. (x.0.items, x.1.now)) result (values_at (number w32) count bytes.now) }
{
    let mut numbers = Vec::new(alloc);
    let mut rest = bytes;
    for i in 0..count {
        let (n, after) = u32_at(rest)?;
        numbers.push(n)?;
        rest = after;
    }
    Ok((numbers, rest))
}

impl Identifiers {
    /// The numbers as Subscription Identifiers. None where there are too many, one isn't from 1 to
    /// 268,435,455, or one is below the one before it.
    pub fn of(numbers: Vec<u32>) -> Option<Identifiers>
        ensures { MatchOption result
            ((length numbers.items < 2 ^ 16) × IsTrue (are_identifiers numbers.items) → ⊥)
            (λ i. (i ≡ numbers.items) × (length numbers.items < 2 ^ 16) × IsTrue (are_identifiers numbers.items)) }
    {
        if numbers.len() > 65535 || !are_identifiers(&numbers) {
            return None;
        }
        Some(Identifiers { items: numbers })
    }

    /// Those of one subscription, by its identifier; 0 stands for none, which takes no memory.
    pub fn of_subscription(alloc: Global, identifier: u32) -> Result<Identifiers, NoMemory>
        requires { identifier < 2 ^ 28 }
        ensures ok { IfOk result (λ i. i ≡ identifiers_of identifier) }
        ensures err { OnErr result (identifier ≢ 0) }
    {
        let mut items = Vec::new(alloc);
        if identifier == 0 {
            return Ok(Identifiers { items });
        }
        items.push(identifier)?;
        Ok(Identifiers { items })
    }

    /// The numbers.
    pub fn as_slice(&self) -> &[u32]
        ensures same { result.now ≡ self.now }
        ensures few { length self.now < 2 ^ 16 }
        ensures identifiers { IsTrue (are_identifiers self.now) }
    {
        self.items.as_slice()
    }

    /// Identifiers at the front, and the bytes after them.
    #[tactic(auto, unfolding(crate::specs::Parts::identifiers))]
    pub(crate) fn at(alloc: Global, bytes: &[u8]) -> Result<(Identifiers, &[u8]), FieldFault>
        ensures { Gives (λ x. (x.0, x.1.now)) result (identifiers.at bytes.now) }
    {
        let (count, rest) = u16_at(bytes)?;
        let (items, rest) = numbers_at(alloc, count, rest)?;
        if !are_identifiers(&items) {
            return Err(FieldFault::Malformed);
        }
        Ok((Identifiers { items }, rest))
    }

    /// Appends the identifiers, or their beginning where memory runs out.
    #[tactic(auto, unfolding(crate::specs::Parts::identifiers))]
    pub(crate) fn append(&self, out: &mut Vec<u8>) -> Result<(), NoMemory>
        ensures ok { OnOk result (out.new.items ≡ out.old.items ++ identifiers.bytes self.now) }
        ensures begins { take (length out.old.items) out.new.items ≡ out.old.items }
        ensures full { OnErr result (vec_capacity out.old
            < vec_len out.old + length (identifiers.bytes self.now)) }
        ensures capacity { vec_capacity out.old ≤ vec_capacity out.new }
    {
        put_u16(self.items.len() as u16, out)?;
        for n in &self.items {
            put_u32(*n, out)?;
        }
        Ok(())
    }

    /// Identifiers equal to these. None take no memory.
    pub fn copy(&self, alloc: Global) -> Result<Identifiers, NoMemory>
        ensures ok { IfOk result (λ i. i ≡ self.now) }
        ensures err { OnErr result (self.now ≢ []) }
    {
        if self.items.is_empty() {
            let items = Vec::new(alloc);
            return Ok(Identifiers { items });
        }
        let items = Vec::from_slice(alloc, self.items.as_slice())?;
        Ok(Identifiers { items })
    }
}
