//! Binary Data (MQTT 5.0, 1.5.6).

ghost use Rattle.std.specs.Prelude.{◌≡◌, ◌+◌, ◌<◌, ◌≤◌, ◌^◌, ◌++◌, ◌↔◌, ◌⊎◌, IsOk, IfErr, List, ℕ, length, drop, nat_eq, IfOk, OnOk, OnErr, IsErrOf, vec_len, vec_capacity, refl};
ghost use Rattle.std.proofs.Common.{rules};
ghost use Rattle.std.specs.Cmp.{partial_order_from_own_ties};
ghost use Rattle.std.specs.Cmp.Lexicographic.{pointwise, slice_cmp};
ghost use Rattle.std.specs.Cmp.Rules.{comparing};
ghost use Rattle.std.specs.Ordering.{nat_cmp, as_partial_cmp};
ghost use Rattle.mqtt_fields.specs.declared.fault.FieldFault.TheVariants as faults;
ghost use Rattle.mqtt_fields.specs.Reading.{Gives};
ghost use Rattle.mqtt_fields.specs.Numbers.{blob, IsBlob};

use crate::fault::{FieldFault, NoMemory};
use crate::limits::LONGEST_STRING;
use crate::number::{run_at, u16_at};
use std::alloc::Global;
use std::cmp::Ordering;
use std::marker::Model;

/// A length in two bytes and that many bytes, and the bytes after them.
pub(crate) fn blob_at(bytes: &[u8]) -> Result<(&[u8], &[u8]), FieldFault>
    ensures exact { Gives (λ x. (x.0.now, x.1.now)) result (blob.at bytes.now) }
    ensures short { IfOk result (λ x. length x.0.now < 2 ^ 16) }
    ensures no_memory { IsErrOf result FieldFault.NoMemory → ⊥ }
{
    let (len, rest) = u16_at(bytes)?;
    run_at(len as usize, rest)
}

/// Binary Data: at most 65,535 bytes. Contracts see the bytes.
#[derive(Debug, Drop)]
pub struct Blob {
    bytes: Vec<u8>,
}

impl Model for Blob {
    ghost Value = { List ℕ };

    ghost view = { λ b. b.bytes.items };

    ghost invariant = { λ b. IsBlob b.bytes.items };
}

impl Blob {
    /// The bytes. Malformed where there are more than 65,535.
    pub fn new(alloc: Global, bytes: &[u8]) -> Result<Blob, FieldFault>
        ensures ok { IfOk result (λ b. b ≡ bytes.now) }
        ensures fits { OnOk result (IsBlob bytes.now) }
        ensures malformed { IsErrOf result FieldFault.Malformed ↔ (2 ^ 16 ≤ length bytes.now) }
        ensures others { IfErr result (λ e. (e ≡ faults.Malformed) ⊎ (e ≡ faults.NoMemory)) }
    {
        if bytes.len() > LONGEST_STRING {
            return Err(FieldFault::Malformed);
        }
        let bytes = Vec::from_slice(alloc, bytes)?;
        Ok(Blob { bytes })
    }

    /// The bytes, which have a spelling.
    pub(crate) fn of(alloc: Global, bytes: &[u8]) -> Result<Blob, NoMemory>
        requires { IsBlob bytes.now }
        ensures { IfOk result (λ b. b ≡ bytes.now) }
    {
        let bytes = Vec::from_slice(alloc, bytes)?;
        Ok(Blob { bytes })
    }

    /// The bytes.
    pub fn as_bytes(&self) -> &[u8]
        ensures same { result.now ≡ self.now }
        ensures fits { IsBlob self.now }
    {
        self.bytes.as_slice()
    }

    /// The data at the front, and the bytes after it. Short where the bytes end inside it. Only
    /// data that is read wants memory.
    pub fn at(alloc: Global, bytes: &[u8]) -> Result<(Blob, &[u8]), FieldFault>
        ensures exact { Gives (λ x. (x.0, x.1.now)) result (blob.at bytes.now) }
        ensures no_memory { IsErrOf result FieldFault.NoMemory → IsOk (blob.at bytes.now) }
    {
        let (run, rest) = blob_at(bytes)?;
        let blob = Blob::of(alloc, run)?;
        Ok((blob, rest))
    }

    /// The data at the front, and how many bytes it takes. Short where the bytes end inside it.
    /// Only data that is read wants memory.
    pub fn read(alloc: Global, bytes: &[u8]) -> Result<(Blob, usize), FieldFault>
        ensures exact { Gives (λ x. (x.0, drop x.1 bytes.now)) result (blob.at bytes.now) }
        ensures used { IfOk result (λ x. x.1 ≤ length bytes.now) }
        ensures no_memory { IsErrOf result FieldFault.NoMemory → IsOk (blob.at bytes.now) }
    {
        let (b, rest) = Blob::at(alloc, bytes)?;
        Ok((b, bytes.len() - rest.len()))
    }

    /// Appends the data, with its length before it, where there is room for it.
    pub(crate) fn put(&self, out: &mut Vec<u8>)
        requires { vec_len out.old + length (blob.bytes self.now) ≤ vec_capacity out.old }
        ensures items { out.new.items ≡ out.old.items ++ blob.bytes self.now }
        ensures len { vec_len out.new ≡ vec_len out.old + length (blob.bytes self.now) }
        ensures capacity { vec_capacity out.old ≤ vec_capacity out.new }
    {
        out.extend_from_slice(&(self.bytes.len() as u16).to_be_bytes())
            .unwrap();
        out.extend_from_slice(&self.bytes).unwrap();
    }

    /// Appends the data, with its length before it.
    pub fn write(&self, out: &mut Vec<u8>) -> Result<(), NoMemory>
        ensures ok { OnOk result (out.new.items ≡ out.old.items ++ blob.bytes self.now) }
        ensures err { OnErr result (out.new.items ≡ out.old.items) }
        ensures full { OnErr result
            (vec_capacity out.old < vec_len out.old + length (blob.bytes self.now)) }
        ensures capacity { vec_capacity out.old ≤ vec_capacity out.new }
    {
        out.reserve(2 + self.bytes.len())?;
        self.put(out);
        Ok(())
    }

    /// Data equal to this.
    pub fn copy(&self, alloc: Global) -> Result<Blob, NoMemory>
        ensures { IfOk result (λ b. b ≡ self.now) }
    {
        let bytes = Vec::from_slice(alloc, &self.bytes)?;
        Ok(Blob { bytes })
    }
}

impl PartialEq for Blob {
    ghost eq = { pointwise nat_eq };

    ghost laws = { Prim.search (comparing, rules) };

    fn eq(&self, other: &Blob) -> bool {
        self.as_bytes() == other.as_bytes()
    }
}

impl Eq for Blob {
    ghost laws = { Prim.search (comparing, rules) };
}

impl PartialOrd for Blob {
    ghost partial_cmp = { as_partial_cmp (slice_cmp nat_cmp) };

    ghost laws = { partial_order_from_own_ties (Prim.search (comparing, rules)) (Prim.search (comparing, rules)) };

    fn partial_cmp(&self, other: &Blob) -> Option<Ordering> {
        Some(self.cmp(other))
    }
}

impl Ord for Blob {
    ghost cmp = { slice_cmp nat_cmp };

    ghost total = { Prim.search (comparing, rules) };

    ghost matches_partial_cmp = { λ x y. refl };

    ghost matches_eq = { Prim.search (comparing, rules) };

    fn cmp(&self, other: &Blob) -> Ordering {
        self.as_bytes().cmp(other.as_bytes())
    }
}
