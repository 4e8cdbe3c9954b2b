//! The words of a line: where they end, and the numbers and bytes that they spell.

ghost use Rattle.std.specs.Prelude.{◌≡◌, ◌↔◌, ◌<◌, ◌^◌, ◌++◌, ℕ, List, map, length, string_bytes, IsTrue, IfOk, IfSome, IfNone, MatchOption};
ghost use Rattle.std.specs.List.{All};
ghost use Rattle.std.specs.Fmt.{decimal};
ghost use Rattle.hex.specs.Hex.{encode_lower, IsBytes};
ghost use Rattle.broker_script.specs.Line.{lines, words, IsPlain};

use hex::FromHexError;
use std::alloc::{AllocError, Global};

/// The sign that `str::parse` takes before a number, and a script doesn't.
const PLUS: u8 = b'+';

/// The digit that no number of two or more digits begins with.
const ZERO: u8 = b'0';

/// The parts of a text between line feeds.
pub(crate) fn lines_of<'a>(alloc: Global, text: &'a str) -> Result<Vec<&'a str>, AllocError>
    ensures { IfOk result (λ v. map (λ line. line.now) v.items ≡ lines text.now) }
{
    text.split('\n').collect(alloc)
}

/// The parts of a line between spaces.
pub(crate) fn words_of<'a>(alloc: Global, line: &'a str) -> Result<Vec<&'a str>, AllocError>
    ensures { IfOk result (λ v. map (λ word. word.now) v.items ≡ words line.now) }
{
    line.split(' ').collect(alloc)
}

/// The number that a word spells in decimal, without leading zeros.
pub(crate) fn parse_number(word: &str) -> Option<u64>
    ensures some { IfSome result (λ n. (n < 2 ^ 64) × (word.now ≡ decimal n)) }
    ensures none { IfNone result ((n : ℕ) → n < 2 ^ 64 → word.now ≡ decimal n → ⊥) }
{
    let bytes = word.as_bytes();
    if bytes.is_empty() || bytes[0] == PLUS {
        return None;
    }
    if bytes.len() > 1 && bytes[0] == ZERO {
        return None;
    }
    match word.parse::<u64>() {
        Ok(n) => Some(n),
        Err(_) => None,
    }
}

/// The number of a node, or the count of the nodes, that a word spells.
pub(crate) fn parse_node(word: &str) -> Option<u16>
    ensures some { IfSome result (λ n. (n < 2 ^ 16) × (word.now ≡ decimal n)) }
    ensures none { IfNone result ((n : ℕ) → n < 2 ^ 16 → word.now ≡ decimal n → ⊥) }
{
    let number = parse_number(word)?;
    if number > 0xffff {
        return None;
    }
    Some(number as u16)
}

/// The version of a table of homes that a word spells.
pub(crate) fn parse_version(word: &str) -> Option<u32>
    ensures some { IfSome result (λ n. (n < 2 ^ 32) × (word.now ≡ decimal n)) }
    ensures none { IfNone result ((n : ℕ) → n < 2 ^ 32 → word.now ≡ decimal n → ⊥) }
{
    let number = parse_number(word)?;
    if number > 0xffff_ffff {
        return None;
    }
    Some(number as u32)
}

/// The bytes, one at least, that a word spells in lower case hexadecimal.
pub(crate) fn parse_hex(alloc: Global, word: &str) -> Result<Option<Vec<u8>>, AllocError>
    ensures some { IfOk result (λ r. IfSome r (λ v.
        (0 < length v.items) × IsBytes v.items × (word.now ≡ encode_lower v.items))) }
    ensures none { IfOk result (λ r. IfNone r ((bytes : List ℕ) →
        IsBytes bytes → 0 < length bytes → word.now ≡ encode_lower bytes → ⊥)) }
{
    let bytes = match hex::decode(alloc, word) {
        Ok(bytes) => bytes,
        Err(error) => {
            return match error {
                FromHexError::OutOfMemory => Err(AllocError),
                _ => Ok(None),
            };
        }
    };
    let text = hex::encode(alloc, bytes.as_slice())?;
    if bytes.is_empty() || text.as_str() != word {
        return Ok(None);
    }
    Ok(Some(bytes))
}

/// Whether a word may be a name of so many bytes at most.
fn is_name(most: usize, word: &str) -> bool
    ensures { IsTrue result ↔ IsPlain most word.now }
{
    !word.is_empty() && word.len() <= most && word.bytes().all(|b| matches!(b, b'!'..=b'~'))
}

/// The client identifier, or the prefix of one, that a word spells in so many bytes at most.
pub(crate) fn parse_name(
    alloc: Global,
    most: usize,
    word: &str,
) -> Result<Option<String>, AllocError>
    ensures some { IfOk result (λ r. IfSome r (λ name.
        IsPlain most (string_bytes name) × (word.now ≡ string_bytes name))) }
    ensures none { IfOk result (λ r. IfNone r (¬ IsPlain most word.now)) }
{
    if is_name(most, word) {
        Ok(Some(String::from_str(alloc, word)?))
    } else {
        Ok(None)
    }
}

/// The numbers that words spell, one each.
pub(crate) fn parse_numbers<const N: usize>(words: &[&str]) -> Option<[u64; N]>
    ensures some { IfSome result (λ ns.
        All (λ n. n < 2 ^ 64) ns × (map (λ word. word.now) words.now ≡ map decimal ns)) }
    ensures none { IfNone result ((ns : List ℕ) → length ns ≡ N → All (λ n. n < 2 ^ 64) ns →
        map (λ word. word.now) words.now ≡ map decimal ns → ⊥) }
{
    if words.len() != N {
        return None;
    }
    let mut numbers = [0; N];
    for (i, word) in words.iter().enumerate() {
        numbers[i] = parse_number(word)?;
    }
    Some(numbers)
}

/// The nodes that words spell, one each.
pub(crate) fn parse_nodes<const N: usize>(words: &[&str]) -> Option<[u16; N]>
    ensures some { IfSome result (λ ns.
        All (λ n. n < 2 ^ 16) ns × (map (λ word. word.now) words.now ≡ map decimal ns)) }
    ensures none { IfNone result ((ns : List ℕ) → length ns ≡ N → All (λ n. n < 2 ^ 16) ns →
        map (λ word. word.now) words.now ≡ map decimal ns → ⊥) }
{
    if words.len() != N {
        return None;
    }
    let mut nodes = [0; N];
    for (i, word) in words.iter().enumerate() {
        nodes[i] = parse_node(word)?;
    }
    Some(nodes)
}

/// The nodes, and after them the numbers, that words spell.
pub(crate) fn parse_fields<const K: usize, const N: usize>(
    words: &[&str],
) -> Option<([u16; K], [u64; N])>
    ensures some { IfSome result (λ r. All (λ n. n < 2 ^ 16) r.0 × All (λ n. n < 2 ^ 64) r.1
        × (map (λ word. word.now) words.now ≡ map decimal r.0 ++ map decimal r.1)) }
    ensures none { IfNone result ((ks ns : List ℕ) → length ks ≡ K →
        All (λ n. n < 2 ^ 16) ks → length ns ≡ N → All (λ n. n < 2 ^ 64) ns →
        map (λ word. word.now) words.now ≡ map decimal ks ++ map decimal ns → ⊥) }
{
    if words.len() < K {
        return None;
    }
    let (front, back) = words.split_at(K);
    let nodes = parse_nodes::<K>(front)?;
    let numbers = parse_numbers::<N>(back)?;
    Some((nodes, numbers))
}
