//! Examples of fields (MQTT 5.0, 1.5), of QoS levels (4.3) and of Subscription Options (3.8.3.1).

use crate::words::{said, word_of};
use mqtt_fields::{
    Blob, NoMemory, Qos, SubscriptionOptions, Text, Vbi, put_long, put_u8, put_u16, put_u32,
    put_u64, take_long, take_u8, take_u16, take_u32, take_u64,
};
use std::alloc::Global;

/// The Variable Byte Integer at the beginning of the bytes and its length, or the name of the fault.
pub fn number(alloc: Global, bytes: &[u8]) -> Result<String, NoMemory> {
    match Vbi::read(bytes) {
        Ok((number, used)) => Ok(format!(in alloc; "{number} {used}")?),
        Err(fault) => Ok(format!(in alloc; "{fault:?}")?),
    }
}

/// The Variable Byte Integers that spell the numbers, one after another, or `none`.
pub fn encoded(alloc: Global, words: &str) -> Result<String, NoMemory> {
    let mut out = Vec::new(alloc);
    for word in words.split(' ') {
        let number = word.parse::<u32>().unwrap_or(u32::MAX);
        if number > Vbi::MAX {
            return said(alloc, "none");
        }
        Vbi::write(number, &mut out)?;
    }
    word_of(alloc, &out)
}

/// A value and its length, where so many bytes at the beginning are what was put behind the bytes for it.
fn told(
    alloc: Global,
    bytes: &[u8],
    value: &str,
    used: usize,
    put: &[u8],
) -> Result<String, NoMemory> {
    match put.strip_prefix(bytes) {
        Some(own) if own.len() == used && bytes.starts_with(own) => {
            Ok(format!(in alloc; "{value} {used}")?)
        }
        _ => Ok(format!(in alloc; "{value} {used}, put otherwise")?),
    }
}

/// The byte at the beginning and its length, or `Short`.
pub fn byte(alloc: Global, bytes: &[u8]) -> Result<String, NoMemory> {
    let Some((number, used)) = take_u8(bytes) else {
        return said(alloc, "Short");
    };
    let mut put = Vec::from_slice(alloc, bytes)?;
    put_u8(number, &mut put)?;
    let value = format!(in alloc; "{number}")?;
    told(alloc, bytes, value.as_str(), used, &put)
}

/// The Two Byte Integer at the beginning and its length, or `Short`.
pub fn two(alloc: Global, bytes: &[u8]) -> Result<String, NoMemory> {
    let Some((number, used)) = take_u16(bytes) else {
        return said(alloc, "Short");
    };
    let mut put = Vec::from_slice(alloc, bytes)?;
    put_u16(number, &mut put)?;
    let value = format!(in alloc; "{number}")?;
    told(alloc, bytes, value.as_str(), used, &put)
}

/// The Four Byte Integer at the beginning and its length, or `Short`.
pub fn four(alloc: Global, bytes: &[u8]) -> Result<String, NoMemory> {
    let Some((number, used)) = take_u32(bytes) else {
        return said(alloc, "Short");
    };
    let mut put = Vec::from_slice(alloc, bytes)?;
    put_u32(number, &mut put)?;
    let value = format!(in alloc; "{number}")?;
    told(alloc, bytes, value.as_str(), used, &put)
}

/// The integer of eight bytes at the beginning and its length, or `Short`.
pub fn eight(alloc: Global, bytes: &[u8]) -> Result<String, NoMemory> {
    let Some((number, used)) = take_u64(bytes) else {
        return said(alloc, "Short");
    };
    let mut put = Vec::from_slice(alloc, bytes)?;
    put_u64(number, &mut put)?;
    let value = format!(in alloc; "{number}")?;
    told(alloc, bytes, value.as_str(), used, &put)
}

/// The bytes at the beginning that their number in four bytes stands before, and the length of both; or
/// `Short`.
pub fn long(alloc: Global, bytes: &[u8]) -> Result<String, NoMemory> {
    let Some((run, used)) = take_long(bytes) else {
        return said(alloc, "Short");
    };
    if run.len() > 1_048_576 {
        return said(alloc, "too long an example");
    }
    let mut put = Vec::from_slice(alloc, bytes)?;
    put_long(run, &mut put)?;
    let value = word_of(alloc, run)?;
    told(alloc, bytes, value.as_str(), used, &put)
}

/// The string at the beginning of the bytes and its length there, or the name of the fault.
pub fn text(alloc: Global, bytes: &[u8]) -> Result<String, NoMemory> {
    match Text::read(alloc, bytes) {
        Ok((text, used)) => {
            let text = text.as_str();
            Ok(format!(in alloc; "{text} {used}")?)
        }
        Err(fault) => Ok(format!(in alloc; "{fault:?}")?),
    }
}

/// The binary data at the beginning of the bytes and its length there, or the name of the fault.
pub fn binary(alloc: Global, bytes: &[u8]) -> Result<String, NoMemory> {
    match Blob::read(alloc, bytes) {
        Ok((blob, used)) => {
            let word = word_of(alloc, blob.as_bytes())?;
            Ok(format!(in alloc; "{word} {used}")?)
        }
        Err(fault) => Ok(format!(in alloc; "{fault:?}")?),
    }
}

/// The spelling of a copy of the string, where that is read as the string.
fn spelled_text(alloc: Global, text: &Text) -> Result<String, NoMemory> {
    let mut out = Vec::new(alloc);
    text.copy(alloc)?.write(&mut out)?;
    match Text::read(alloc, &out) {
        Ok((again, used)) if used == out.len() && again == *text => word_of(alloc, &out),
        _ => said(alloc, "read otherwise"),
    }
}

/// The spelling of the string with these bytes, or the name of the fault.
pub fn string(alloc: Global, bytes: &[u8]) -> Result<String, NoMemory> {
    let Ok(text) = str::from_utf8(bytes) else {
        return said(alloc, "not UTF-8");
    };
    match Text::new(alloc, text) {
        Ok(text) => spelled_text(alloc, &text),
        Err(fault) => Ok(format!(in alloc; "{fault:?}")?),
    }
}

/// The spelling of a copy of the data, where that is read as the data.
fn spelled_blob(alloc: Global, blob: &Blob) -> Result<String, NoMemory> {
    let mut out = Vec::new(alloc);
    blob.copy(alloc)?.write(&mut out)?;
    match Blob::read(alloc, &out) {
        Ok((again, used)) if used == out.len() && again == *blob => word_of(alloc, &out),
        _ => said(alloc, "read otherwise"),
    }
}

/// The spelling of the binary data with these bytes, or the name of the fault.
pub fn data(alloc: Global, bytes: &[u8]) -> Result<String, NoMemory> {
    match Blob::new(alloc, bytes) {
        Ok(blob) => spelled_blob(alloc, &blob),
        Err(fault) => Ok(format!(in alloc; "{fault:?}")?),
    }
}

/// The QoS level of a number and its number, or `none`.
pub fn qos(alloc: Global, word: &str) -> Result<String, NoMemory> {
    let Some(level) = Qos::of(word.parse::<u8>().unwrap_or(u8::MAX)) else {
        return said(alloc, "none");
    };
    let number = level.number();
    Ok(format!(in alloc; "{level:?} {number}")?)
}

/// The options of a byte, and what they say.
pub fn options(alloc: Global, bytes: &[u8]) -> Result<String, NoMemory> {
    let options = SubscriptionOptions::of_byte(bytes.first().copied().unwrap_or(0));
    let byte = options.byte();
    let qos = options.qos();
    let no_local = if options.no_local() { ", No Local" } else { "" };
    let published = if options.retain_as_published() {
        ", Retain As Published"
    } else {
        ""
    };
    let handling = options.retain_handling();
    Ok(format!(in alloc; "{byte:02x} QoS {qos}{no_local}{published}, Retain Handling {handling}")?)
}
