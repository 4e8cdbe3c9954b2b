//! Words of examples: numbers, and bytes in hexadecimal.

use mqtt_fields::NoMemory;
use std::alloc::Global;

/// From how many on the last bytes, where all are the same one, are told as a number of it.
const MANY: usize = 64;

/// The first word, and the words after it.
pub fn halves(words: &str) -> (&str, &str) {
    words.split_once(' ').unwrap_or((words, ""))
}

/// The bytes of a word: parts joined by `+`, in two digits a byte; `N*` before a part says how often it comes.
pub fn bytes_of(alloc: Global, word: &str) -> Option<Vec<u8>> {
    let mut bytes = Vec::new(alloc);
    for part in word.split('+') {
        append(alloc, part, &mut bytes)?;
    }
    Some(bytes)
}

/// Appends the bytes of a part.
fn append(alloc: Global, part: &str, out: &mut Vec<u8>) -> Option<()> {
    let (times, digits) = match part.split_once('*') {
        Some((times, digits)) => (times.parse::<u32>().ok()?, digits),
        None => (1, part),
    };
    let bytes = hex::decode(alloc, digits).ok()?;
    for _ in 0..times {
        out.extend_from_slice(&bytes).ok()?;
    }
    Some(())
}

/// The last byte, and how many bytes at the end are that one.
fn run_of(bytes: &[u8]) -> (u8, usize) {
    let last = bytes.last().copied().unwrap_or(0);
    let mut count: usize = 0;
    for byte in bytes {
        count = if *byte == last {
            count.saturating_add(1)
        } else {
            0
        };
    }
    (last, count)
}

/// The word of the bytes.
pub fn word_of(alloc: Global, bytes: &[u8]) -> Result<String, NoMemory> {
    let (last, count) = run_of(bytes);
    if count < MANY {
        return Ok(hex::encode(alloc, bytes)?);
    }
    let (front, _) = bytes.split_at(bytes.len().saturating_sub(count));
    let digits = hex::encode(alloc, front)?;
    let joint = if front.is_empty() { "" } else { "+" };
    Ok(format!(in alloc; "{digits}{joint}{count}*{last:02x}")?)
}

/// An answer in words.
pub fn said(alloc: Global, words: &str) -> Result<String, NoMemory> {
    Ok(String::from_str(alloc, words)?)
}
