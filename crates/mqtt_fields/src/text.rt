//! UTF-8 Encoded Strings (MQTT 5.0, 1.5.4).

ghost use Rattle.std.specs.Prelude.{◌≡◌, ◌+◌, ◌<◌, ◌≤◌, ◌^◌, ◌++◌, ◌==◌, ◌↔◌, Contains, IsOk, List, ℕ, length, drop, not, nat_eq, true, false, Some, IfOk, OnOk, OnErr, MatchOption, IsErrOf, IfErr, ◌⊎◌, vec_len, vec_capacity, refl};
ghost use Rattle.std.specs.Rc.{rc_str_bytes};
ghost use Rattle.std.specs.List.{list_all};
ghost use Rattle.std.proofs.Common.{rules};
ghost use Rattle.std.specs.Cmp.{partial_order_from_own_ties};
ghost use Rattle.std.specs.Cmp.Lexicographic.{pointwise, slice_cmp};
ghost use Rattle.std.specs.Cmp.Rules.{comparing};
ghost use Rattle.std.specs.Ordering.{nat_cmp, as_partial_cmp};
ghost use Rattle.mqtt_fields.specs.declared.fault.FieldFault.TheVariants as faults;
ghost use Rattle.mqtt_fields.specs.Reading.{Gives};
ghost use Rattle.mqtt_fields.specs.Numbers.{text, is_text, IsText};

use crate::blob::blob_at;
use crate::fault::{FieldFault, NoMemory};
use crate::limits::LONGEST_STRING;
use std::alloc::Global;
use std::cmp::Ordering;
use std::marker::Model;
use std::rc::RcStr;

/// Whether no byte is 0.
fn has_no_zero(bytes: &[u8]) -> bool
    ensures { result ≡ list_all (λ b. not (b == 0)) bytes.now }
{
    bytes.iter().all(|b| *b != 0)
}

/// The bytes as a text, if they are well-formed UTF-8 without U+0000.
#[tactic(auto, using(crate::proofs::TextLaws::texts))]
fn text_in(bytes: &[u8]) -> Option<&str>
    ensures { MatchOption result (is_text bytes.now ≡ false)
        (λ s. (s.now ≡ bytes.now) × (is_text bytes.now ≡ true)) }
{
    match str::from_utf8(bytes) {
        Ok(s) => { if has_no_zero(bytes) { Some(s) } else { None } }
        Err(_) => None,
    }
}

/// The string at the front, where it lies, and the bytes after it.
pub(crate) fn str_at(bytes: &[u8]) -> Result<(&str, &[u8]), FieldFault>
    ensures exact { Gives (λ x. (x.0.now, x.1.now)) result (text.at bytes.now) }
    ensures fits { IfOk result (λ x. IsText x.0.now) }
    ensures no_memory { IsErrOf result FieldFault.NoMemory → ⊥ }
{
    let (run, rest) = blob_at(bytes)?;
    match text_in(run) {
        None => Err(FieldFault::Malformed),
        Some(s) => Ok((s, rest)),
    }
}

/// A UTF-8 Encoded String: at most 65,535 bytes, without U+0000. Copies share its bytes. Contracts see these.
#[derive(Debug, Drop)]
pub struct Text {
    string: RcStr<Global>,
}

impl Model for Text {
    ghost Value = { List ℕ };

    ghost view = { λ t. rc_str_bytes t.string };

    ghost invariant = { λ t. IsText (rc_str_bytes t.string) };
}

impl Text {
    /// The text. Malformed where it is longer than 65,535 bytes or has U+0000.
    pub fn new(alloc: Global, s: &str) -> Result<Text, FieldFault>
        ensures ok { IfOk result (λ t. t ≡ s.now) }
        ensures fits { OnOk result (IsText s.now) }
        ensures malformed { IsErrOf result FieldFault.Malformed
            ↔ ((2 ^ 16 ≤ length s.now) ⊎ Contains s.now 0) }
        ensures others { IfErr result (λ e. (e ≡ faults.Malformed) ⊎ (e ≡ faults.NoMemory)) }
    {
        if s.len() > LONGEST_STRING {
            return Err(FieldFault::Malformed);
        }
        if !has_no_zero(s.as_bytes()) {
            return Err(FieldFault::Malformed);
        }
        let string = RcStr::from_str(alloc, s)?;
        Ok(Text { string })
    }

    /// The text, which has a spelling.
    pub(crate) fn of(alloc: Global, s: &str) -> Result<Text, NoMemory>
        requires { IsText s.now }
        ensures { IfOk result (λ t. t ≡ s.now) }
    {
        let string = RcStr::from_str(alloc, s)?;
        Ok(Text { string })
    }

    /// The text as a `&str`.
    pub fn as_str(&self) -> &str
        ensures same { result.now ≡ self.now }
        ensures fits { IsText self.now }
    {
        self.string.as_str()
    }

    /// The string at the front, and the bytes after it.
    ///
    /// Short where the bytes end inside it; Malformed where it isn't well-formed UTF-8 or has
    /// U+0000. Only a string that is read wants memory.
    pub fn at(alloc: Global, bytes: &[u8]) -> Result<(Text, &[u8]), FieldFault>
        ensures exact { Gives (λ x. (x.0, x.1.now)) result (text.at bytes.now) }
        ensures no_memory { IsErrOf result FieldFault.NoMemory → IsOk (text.at bytes.now) }
    {
        let (s, rest) = str_at(bytes)?;
        let text = Text::of(alloc, s)?;
        Ok((text, rest))
    }

    /// The string at the front, and how many bytes it takes.
    ///
    /// Short where the bytes end inside it; Malformed where it isn't well-formed UTF-8 or has
    /// U+0000. Only a string that is read wants memory.
    pub fn read(alloc: Global, bytes: &[u8]) -> Result<(Text, usize), FieldFault>
        ensures exact { Gives (λ x. (x.0, drop x.1 bytes.now)) result (text.at bytes.now) }
        ensures used { IfOk result (λ x. x.1 ≤ length bytes.now) }
        ensures no_memory { IsErrOf result FieldFault.NoMemory → IsOk (text.at bytes.now) }
    {
        let (t, rest) = Text::at(alloc, bytes)?;
        Ok((t, bytes.len() - rest.len()))
    }

    /// Appends the string, with its length before it, where there is room for it.
    pub(crate) fn put(&self, out: &mut Vec<u8>)
        requires { vec_len out.old + length (text.bytes self.now) ≤ vec_capacity out.old }
        ensures items { out.new.items ≡ out.old.items ++ text.bytes self.now }
        ensures len { vec_len out.new ≡ vec_len out.old + length (text.bytes self.now) }
        ensures capacity { vec_capacity out.old ≤ vec_capacity out.new }
    {
        let bytes = self.as_str().as_bytes();
        out.extend_from_slice(&(bytes.len() as u16).to_be_bytes())
            .unwrap();
        out.extend_from_slice(bytes).unwrap();
    }

    /// Appends the string, with its length before it.
    pub fn write(&self, out: &mut Vec<u8>) -> Result<(), NoMemory>
        ensures ok { OnOk result (out.new.items ≡ out.old.items ++ text.bytes self.now) }
        ensures err { OnErr result (out.new.items ≡ out.old.items) }
        ensures full { OnErr result
            (vec_capacity out.old < vec_len out.old + length (text.bytes self.now)) }
        ensures capacity { vec_capacity out.old ≤ vec_capacity out.new }
    {
        out.reserve(2 + self.string.len())?;
        self.put(out);
        Ok(())
    }

    /// The same text, with one more holder. This copies none of its bytes.
    pub fn copy(&self, _alloc: Global) -> Result<Text, NoMemory>
        ensures { IfOk result (λ t. t ≡ self.now) }
    {
        let string = self.string.clone()?;
        Ok(Text { string })
    }
}

impl PartialEq for Text {
    ghost eq = { pointwise nat_eq };

    ghost laws = { Prim.search (comparing, rules) };

    fn eq(&self, other: &Text) -> bool {
        self.as_str() == other.as_str()
    }
}

impl Eq for Text {
    ghost laws = { Prim.search (comparing, rules) };
}

impl PartialOrd for Text {
    ghost partial_cmp = { as_partial_cmp (slice_cmp nat_cmp) };

    ghost laws = { partial_order_from_own_ties (Prim.search (comparing, rules)) (Prim.search (comparing, rules)) };

    fn partial_cmp(&self, other: &Text) -> Option<Ordering> {
        Some(self.cmp(other))
    }
}

impl Ord for Text {
    ghost cmp = { slice_cmp nat_cmp };

    ghost total = { Prim.search (comparing, rules) };

    ghost matches_partial_cmp = { λ x y. refl };

    ghost matches_eq = { Prim.search (comparing, rules) };

    fn cmp(&self, other: &Text) -> Ordering {
        self.as_str().cmp(other.as_str())
    }
}
