//! Bits in a row of words, from the lowest of the first word on.
ghost use Rattle.std.specs.Prelude.{◌≡◌, ◌≢◌, ◌+◌, ◌*◌, ◌<◌, ◌≤◌, ℕ, length, slice_index, OnOk};
ghost use Rattle.std.specs.Int.{bit_at};
ghost use Rattle.qos_handshakes.specs.Noted.{bit, number};

use mqtt_fields::NoMemory;

/// A word with a bit set, or cleared.
pub(crate) fn with_bit(word: u64, i: usize, on: bool) -> u64
    requires { i < 64 }
    ensures same { bit_at result i ≡ number on }
    ensures others { (k : ℕ) → k < 64 → k ≢ i → bit_at result k ≡ bit_at word k }
{
    let mask = 1u64 << i;
    if on { word | mask } else { word & !mask }
}

/// The first clear bit of a word, counted from the first word on.
pub(crate) fn clear_in(words: &[u64], word: usize) -> usize
    requires short { length words.now ≤ 1024 }
    requires within { word < length words.now }
    requires open { slice_index words.now word ≢ 18446744073709551615 }
    ensures within { result < 64 * (word + 1) }
    ensures clear { bit words.now result ≡ 0 }
    ensures least { (k : ℕ) → 64 * word ≤ k → k < result → bit words.now k ≡ 1 }
{
    64 * word + words[word].trailing_ones() as usize
}

/// The first bit that is clear, or how many there are.
pub(crate) fn first_clear(words: &[u64]) -> usize
    requires { length words.now ≤ 1024 }
    ensures within { result ≤ 64 * length words.now }
    ensures clear { result < 64 * length words.now → bit words.now result ≡ 0 }
    ensures least { (k : ℕ) → k < result → bit words.now k ≡ 1 }
{
    let mut i = 0;
    while i < words.len() {
        if words[i] != u64::MAX {
            return clear_in(words, i);
        }
        i += 1;
    }
    64 * i
}

/// Adds a word with all bits clear, unless there is a bit for one slot more.
pub(crate) fn lengthen(words: &mut Vec<u64>, slots: usize) -> Result<(), NoMemory>
    requires small { slots < 65536 }
    requires room { slots ≤ 64 * length words.old.items }
    requires words { length words.old.items ≤ 1024 }
    ensures room { OnOk result (slots < 64 * length words.new.items) }
    ensures longer { length words.old.items ≤ length words.new.items }
    ensures one { length words.new.items ≤ length words.old.items + 1 }
    ensures words { length words.new.items ≤ 1024 }
    ensures same { (w : ℕ) → slice_index words.new.items w ≡ slice_index words.old.items w }
{
    if slots < 64 * words.len() {
        return Ok(());
    }
    words.push(0)?;
    Ok(())
}
