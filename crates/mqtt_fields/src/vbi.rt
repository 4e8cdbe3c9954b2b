//! Variable Byte Integers (MQTT 5.0, 1.5.5).

ghost use Rattle.std.specs.Prelude.{◌≡◌, ◌+◌, ◌<◌, ◌≤◌, ◌^◌, ◌++◌, length, drop, vec_len, vec_capacity, IfOk, IsErrOf, OnOk, OnErr};
ghost use Rattle.mqtt_fields.specs.Reading.{Gives};
ghost use Rattle.mqtt_fields.specs.Numbers.{vbi};

use crate::fault::{FieldFault, NoMemory};

/// The Variable Byte Integer at the front, and the bytes after it.
///
/// Short where the bytes end before its last one; Malformed where it has more bytes than it needs,
/// or more than four.
pub fn vbi_at(bytes: &[u8]) -> Result<(u32, &[u8]), FieldFault>
    ensures exact { Gives (λ x. (x.0, x.1.now)) result (vbi.at bytes.now) }
    ensures no_memory { IsErrOf result FieldFault.NoMemory → ⊥ }
    ensures used { IfOk result (λ x. length x.1.now ≤ length bytes.now) }
{
    match bytes {
        [] => Err(FieldFault::Short),
        [a, rest @ ..] if *a < 128 => Ok((*a as u32, rest)),
        [_] => Err(FieldFault::Short),
        [_, 0, ..] => Err(FieldFault::Malformed),
        [a, b, rest @ ..] if *b < 128 => Ok((*a as u32 - 128 + 128 * *b as u32, rest)),
        [_, _] => Err(FieldFault::Short),
        [_, _, 0, ..] => Err(FieldFault::Malformed),
        [a, b, c, rest @ ..] if *c < 128 => {
            let high = *b as u32 - 128 + 128 * *c as u32;
            Ok((*a as u32 - 128 + 128 * high, rest))
        }
        [_, _, _] => Err(FieldFault::Short),
        [_, _, _, 0, ..] => Err(FieldFault::Malformed),
        [a, b, c, d, rest @ ..] if *d < 128 => {
            let high = *c as u32 - 128 + 128 * *d as u32;
            let middle = *b as u32 - 128 + 128 * high;
            Ok((*a as u32 - 128 + 128 * middle, rest))
        }
        _ => Err(FieldFault::Malformed),
    }
}

/// How many bytes a Variable Byte Integer takes: 1 to 4.
#[tactic(auto, using(crate::proofs::LengthLaws::vbi_lengths))]
pub fn vbi_len(n: u32) -> usize
    ensures exact { result ≡ length (vbi.bytes n) }
    ensures small { result ≤ 4 }
{
    if n < 128 {
        1
    } else if n / 128 < 128 {
        2
    } else if n / 128 / 128 < 128 {
        3
    } else {
        4
    }
}

/// Appends a Variable Byte Integer where there is room for it.
pub(crate) fn put_vbi(n: u32, out: &mut Vec<u8>)
    requires fits { n < 2 ^ 28 }
    requires room { vec_len out.old + length (vbi.bytes n) ≤ vec_capacity out.old }
    ensures items { out.new.items ≡ out.old.items ++ vbi.bytes n }
    ensures len { vec_len out.new ≡ vec_len out.old + length (vbi.bytes n) }
    ensures capacity { vec_capacity out.new ≡ vec_capacity out.old }
{
    if n < 128 {
        out.push_reserved(n as u8);
        return;
    }
    out.push_reserved((n % 128 + 128) as u8);
    let n = n / 128;
    if n < 128 {
        out.push_reserved(n as u8);
        return;
    }
    out.push_reserved((n % 128 + 128) as u8);
    let n = n / 128;
    if n < 128 {
        out.push_reserved(n as u8);
        return;
    }
    out.push_reserved((n % 128 + 128) as u8);
    out.push_reserved((n / 128) as u8);
}

/// Variable Byte Integers.
pub struct Vbi;

impl Vbi {
    /// The largest number that four bytes hold.
    pub const MAX: u32 = 268_435_455;

    /// The number at the front, and how many bytes it takes.
    ///
    /// Short where the bytes end before its last one; Malformed where it has more bytes than it
    /// needs, or more than four.
    pub fn read(bytes: &[u8]) -> Result<(u32, usize), FieldFault>
        ensures exact { Gives (λ x. (x.0, drop x.1 bytes.now)) result (vbi.at bytes.now) }
        ensures used { IfOk result (λ x. x.1 ≤ length bytes.now) }
        ensures no_memory { IsErrOf result FieldFault.NoMemory → ⊥ }
    {
        let (n, rest) = vbi_at(bytes)?;
        Ok((n, bytes.len() - rest.len()))
    }

    /// Appends the number's one spelling.
    pub fn write(n: u32, out: &mut Vec<u8>) -> Result<(), NoMemory>
        requires { n < 2 ^ 28 }
        ensures ok { OnOk result (out.new.items ≡ out.old.items ++ vbi.bytes n) }
        ensures err { OnErr result (out.new.items ≡ out.old.items) }
        ensures full { OnErr result
            (vec_capacity out.old < vec_len out.old + length (vbi.bytes n)) }
        ensures capacity { vec_capacity out.old ≤ vec_capacity out.new }
    {
        out.reserve(vbi_len(n))?;
        put_vbi(n, out);
        Ok(())
    }
}
