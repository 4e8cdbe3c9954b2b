//! Examples of properties (MQTT 5.0, 2.2.2.2).

use crate::words::{bytes_of, halves, said, word_of};
use mqtt_fields::{
    FieldFault, NoMemory, Place, Properties, Value, properties_len, read_properties,
    write_properties,
};
use std::alloc::Global;

/// The kinds of packets that have properties, and the will.
const PLACES: &str =
    "Connect Connack Publish Puback Pubrec Pubrel Pubcomp Subscribe Suback Unsubscribe Unsuback Disconnect Auth Will";

/// The length of a block with one property and the bytes of a value, for each type a value that no other
/// type reads.
const VALUES: &str = "02:01 03:ffff 05:ffffffff 03:ff01 04:000161 04:0001ff 07:000161000162";

fn place_of(name: &str) -> Option<Place> {
    Some(match name {
        "Connect" => Place::Connect,
        "Connack" => Place::Connack,
        "Publish" => Place::Publish,
        "Puback" => Place::Puback,
        "Pubrec" => Place::Pubrec,
        "Pubrel" => Place::Pubrel,
        "Pubcomp" => Place::Pubcomp,
        "Subscribe" => Place::Subscribe,
        "Suback" => Place::Suback,
        "Unsubscribe" => Place::Unsubscribe,
        "Unsuback" => Place::Unsuback,
        "Disconnect" => Place::Disconnect,
        "Auth" => Place::Auth,
        "Will" => Place::Will,
        _ => return None,
    })
}

/// The name of the value's type.
fn type_of(value: &Value) -> &'static str {
    match value {
        Value::Byte(_) => "byte",
        Value::Two(_) => "two",
        Value::Four(_) => "four",
        Value::Vbi(_) => "number",
        Value::Text(_) => "string",
        Value::Blob(_) => "binary",
        Value::Pair(_, _) => "pair",
    }
}

/// What is read of a block at the beginning of the bytes, in a place: the bytes of the block that is written again and how many were read, or
/// the name of the fault.
pub fn block(alloc: Global, words: &str) -> Result<String, NoMemory> {
    let (place, word) = halves(words);
    let (Some(place), Some(bytes)) = (place_of(place), bytes_of(alloc, word)) else {
        return said(alloc, "not a place and bytes");
    };
    match read_properties(alloc, place, &bytes) {
        Ok((properties, used)) => {
            let mut out = Vec::new(alloc);
            write_properties(&properties, &mut out)?;
            let word = word_of(alloc, &out)?;
            Ok(format!(in alloc; "{word} {used}")?)
        }
        Err(fault) => Ok(format!(in alloc; "{fault:?}")?),
    }
}

/// How many bytes the properties of a block take in a place, the first word, or `none`; then the place
/// of the block and its bytes.
pub fn length(alloc: Global, words: &str) -> Result<String, NoMemory> {
    let (other, words) = halves(words);
    let (place, word) = halves(words);
    let (Some(other), Some(place), Some(bytes)) = (
        place_of(other),
        place_of(place),
        bytes_of(alloc, word),
    ) else {
        return said(alloc, "not two places and bytes");
    };
    match read_properties(alloc, place, &bytes) {
        Ok((properties, _)) => match properties_len(other, properties.as_slice()) {
            Some(len) => Ok(format!(in alloc; "{len}")?),
            None => said(alloc, "none"),
        },
        Err(fault) => Ok(format!(in alloc; "{fault:?}")?),
    }
}

/// The properties, put one by one into a list.
fn listed(alloc: Global, properties: &Properties) -> Result<Properties, NoMemory> {
    let mut list = Properties::new(alloc);
    for property in properties.as_slice() {
        list.push(property.copy(alloc)?)?;
    }
    Ok(list)
}

/// The first value with this identifier, by its type, if that is an integer.
fn integer(alloc: Global, list: &Properties, id: u8) -> Result<Option<String>, NoMemory> {
    if let Some(number) = list.byte(id) {
        return Ok(Some(format!(in alloc; "byte {number}")?));
    }
    if let Some(number) = list.two(id) {
        return Ok(Some(format!(in alloc; "two {number}")?));
    }
    if let Some(number) = list.four(id) {
        return Ok(Some(format!(in alloc; "four {number}")?));
    }
    match list.vbi(id) {
        Some(number) => Ok(Some(format!(in alloc; "number {number}")?)),
        None => Ok(None),
    }
}

/// The first value with this identifier, by its type, if that isn't an integer.
fn other(alloc: Global, list: &Properties, id: u8) -> Result<Option<String>, NoMemory> {
    if let Some(text) = list.text(id) {
        let text = text.as_str();
        return Ok(Some(format!(in alloc; "string {text}")?));
    }
    if let Some(blob) = list.blob(id) {
        let word = word_of(alloc, blob.as_bytes())?;
        return Ok(Some(format!(in alloc; "binary {word}")?));
    }
    match list.value(id) {
        Some(Value::Pair(name, value)) => {
            let name = name.as_str();
            let value = value.as_str();
            Ok(Some(format!(in alloc; "pair {name} {value}")?))
        }
        _ => Ok(None),
    }
}

/// The identifier, in hexadecimal, and the first value with it.
fn value(alloc: Global, list: &Properties, id: u8) -> Result<String, NoMemory> {
    let integer = integer(alloc, list, id)?;
    let other = other(alloc, list, id)?;
    match (integer, other) {
        (Some(value), None) | (None, Some(value)) => Ok(format!(in alloc; ", {id:02x} {value}")?),
        _ => Ok(format!(in alloc; ", {id:02x} of no type")?),
    }
}

/// How many properties there are, and each value.
fn told(alloc: Global, list: &Properties) -> Result<String, NoMemory> {
    if list.is_empty() {
        return said(alloc, "none");
    }
    let len = list.len();
    let mut answer = format!(in alloc; "{len}")?;
    for id in 0..=255 {
        if list.value(id).is_some() {
            let value = value(alloc, list, id)?;
            answer.push_str(value.as_str())?;
        }
    }
    Ok(answer)
}

/// The values of a block, a place and its bytes, when its properties stand in a copied list: how many
/// there are, and the first with each identifier; or `none`, or the name of the fault.
pub fn values(alloc: Global, words: &str) -> Result<String, NoMemory> {
    let (place, word) = halves(words);
    let (Some(place), Some(bytes)) = (place_of(place), bytes_of(alloc, word)) else {
        return said(alloc, "not a place and bytes");
    };
    match read_properties(alloc, place, &bytes) {
        Ok((properties, _)) => {
            let copied = listed(alloc, &properties)?.copy(alloc)?;
            told(alloc, &copied)
        }
        Err(fault) => Ok(format!(in alloc; "{fault:?}")?),
    }
}

/// What the one property of a block is read as in a place: the type of its value, or its fault.
fn kind_in(alloc: Global, place: &str, digits: &str) -> Result<&'static str, FieldFault> {
    let (Some(place), Some(bytes)) = (place_of(place), bytes_of(alloc, digits)) else {
        return Err(FieldFault::NoMemory);
    };
    match read_properties(alloc, place, &bytes) {
        Ok((properties, _)) => match properties.as_slice().first() {
            Some(property) => Ok(type_of(&property.value)),
            None => Ok("nothing"),
        },
        Err(fault) => Err(fault),
    }
}

/// The type of the value with which the property is read in a place, or its fault where there is none.
fn read_in(
    alloc: Global,
    place: &str,
    identifier: &str,
) -> Result<Result<&'static str, FieldFault>, NoMemory> {
    let mut read = Err(FieldFault::Short);
    for value in VALUES.split(' ') {
        let (length, value) = value.split_once(':').unwrap_or(("", ""));
        let digits = format!(in alloc; "{length}{identifier}{value}")?;
        if read.is_err() {
            read = kind_in(alloc, place, digits.as_str());
        }
    }
    Ok(read)
}

/// Appends a place, after the type of the value where it is the first one.
fn append_place(kind: &str, place: &str, answer: &mut String) -> Result<(), NoMemory> {
    if answer.is_empty() {
        answer.push_str(kind)?;
    }
    answer.push(' ')?;
    answer.push_str(place)?;
    Ok(())
}

/// The type of a property's value and where it may stand, or `nowhere`, and the fault that it is everywhere else; by its
/// identifier in hexadecimal.
pub fn places_of(alloc: Global, identifier: &str) -> Result<String, NoMemory> {
    let mut answer = String::new(alloc);
    let mut other = None;
    let mut one = true;
    for place in PLACES.split(' ') {
        match read_in(alloc, place, identifier)? {
            Ok(kind) => append_place(kind, place, &mut answer)?,
            Err(fault) => {
                one = one && (other == None || other == Some(fault));
                other = Some(fault);
            }
        }
    }
    if answer.is_empty() {
        answer.push_str("nowhere")?;
    }
    match other {
        Some(fault) if one => Ok(format!(in alloc; "{answer}, else {fault:?}")?),
        Some(_) => Ok(format!(in alloc; "{answer}, else faults")?),
        None => Ok(answer),
    }
}
