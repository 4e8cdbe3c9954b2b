//! Property blocks (MQTT 5.0, 2.2.2).

ghost use Rattle.std.specs.Prelude.{◌≡◌, ◌<◌, ◌≤◌, ◌+◌, ◌==◌, ◌++◌, [], length, drop, IfOk, IsOk, IsErrOf, OnOk, OnErr, vec_len, vec_capacity};
ghost use Rattle.std.specs.List.{list_any};
ghost use Rattle.mqtt_fields.specs.declared.fault.FieldFault.TheVariants.{NoMemory, Malformed};
ghost use Rattle.mqtt_fields.specs.Reading.{Gives, Fails};
ghost use Rattle.mqtt_fields.specs.Table.{entry_of};
ghost use Rattle.mqtt_fields.specs.Value.{value_bytes, VbiFits};
ghost use Rattle.mqtt_fields.specs.declared.table.Place.{Place};
ghost use Rattle.mqtt_fields.specs.Block.{property_bytes, properties_bytes, HasSpelling, kind_in, is_new, is_multiple, identifier, property, in_block_fault, in_block, properties_at, properties, first_property};

use crate::fault::{FieldFault, NoMemory};
use crate::identifier::{SUBSCRIPTION_IDENTIFIER, USER_PROPERTY};
use crate::number::{run_at, u8_at};
use crate::properties::Properties;
use crate::table::{Place, ValueKind, entry_of, is_here};
use crate::value::{Property, put_value, value_at, value_len};
use crate::vbi::{put_vbi, vbi_at, vbi_len};
use std::alloc::Global;

/// Whether a property of this identifier stands among these.
fn stands(before: &[Property], id: u8) -> bool
    ensures { result ≡ list_any (λ p. p.id == id) before.now }
{
    before.iter().any(|p| p.id == id)
}

/// Whether a property of this identifier may stand more than once.
#[tactic(auto, unfolding(crate::specs::Block::is_multiple))]
fn is_multiple(place: Place, id: u8) -> bool
    ensures { result ≡ is_multiple place id }
{
    match place {
        Place::Publish => id == USER_PROPERTY || id == SUBSCRIPTION_IDENTIFIER,
        _ => id == USER_PROPERTY,
    }
}

/// Whether a property of this identifier may follow these.
#[tactic(auto, unfolding(crate::specs::Block::is_new))]
pub(crate) fn is_new(place: Place, before: &[Property], id: u8) -> bool
    ensures { result ≡ is_new place before.now id }
{
    is_multiple(place, id) || !stands(before, id)
}

/// The identifier at the front of a property that may follow these, and its type.
fn identifier_at<'a>(
    place: Place,
    before: &[Property],
    bytes: &'a [u8],
) -> Result<((u8, ValueKind), &'a [u8]), FieldFault>
    ensures exact { Gives (λ x. (x.0.0, x.1.now)) result
        ((identifier place before.now).at bytes.now) }
    ensures kind { IfOk result (λ x. x.0.1 ≡ kind_in (entry_of x.0.0)) }
    ensures no_memory { IsErrOf result FieldFault.NoMemory → ⊥ }
{
    let (id, rest) = u8_at(bytes)?;
    match entry_of(id) {
        None => Err(FieldFault::Malformed),
        Some(entry) => {
            if !is_here(entry, place) {
                Err(FieldFault::NotHere)
            } else if !is_new(place, before, id) {
                Err(FieldFault::Repeated)
            } else {
                Ok(((id, entry.kind), rest))
            }
        }
    }
}

/// The property at the front, which may follow these. Only one that is read wants memory.
#[tactic(auto, unfolding(crate::specs::Block::property))]
fn property_at<'a>(
    alloc: Global,
    place: Place,
    before: &[Property],
    bytes: &'a [u8],
) -> Result<(Property, &'a [u8]), FieldFault>
    ensures exact { Gives (λ x. (x.0, x.1.now)) result ((property place before.now).at bytes.now) }
    ensures no_memory { IsErrOf result FieldFault.NoMemory
        → IsOk ((property place before.now).at bytes.now) }
{
    let ((id, kind), rest) = identifier_at(place, before, bytes)?;
    let (value, rest) = value_at(alloc, kind, rest)?;
    Ok((Property { id, value }, rest))
}

/// A fault of a property, as one of its block.
fn in_block(fault: FieldFault) -> FieldFault
    ensures { result ≡ in_block_fault fault }
{
    match fault {
        FieldFault::Short => FieldFault::Malformed,
        _ => fault,
    }
}

/// The properties that take all of a block. Only once one is read is memory wanted.
fn properties_in(alloc: Global, place: Place, block: &[u8]) -> Result<Vec<Property>, FieldFault>
    ensures exact { Gives (λ x. x.items) result (properties_at place (length block.now) [] block.now) }
    ensures no_memory { IsErrOf result FieldFault.NoMemory
        → IsOk ((property place []).at block.now) }
{
    let mut items = Vec::new(alloc);
    let mut rest = block;
    while !rest.is_empty() {
        match property_at(alloc, place, items.as_slice(), rest) {
            Ok((p, after)) => {
                items.push(p)?;
                rest = after;
            }
            Err(e) => return Err(in_block(e)),
        }
    }
    Ok(items)
}

/// The property block at the front, and the bytes after it. Its faults are those of
/// `read_properties`.
#[tactic(auto, unfolding(crate::specs::Block::properties))]
pub fn properties_of(
    alloc: Global,
    place: Place,
    bytes: &[u8],
) -> Result<(Properties, &[u8]), FieldFault>
    ensures exact { Gives (λ x. (x.0, x.1.now)) result ((properties place).at bytes.now) }
    ensures no_memory { IsErrOf result FieldFault.NoMemory
        → IsOk (first_property place bytes.now) }
{
    let (len, rest) = vbi_at(bytes)?;
    let (block, rest) = run_at(len as usize, rest)?;
    let items = properties_in(alloc, place, block)?;
    Ok((Properties { items }, rest))
}

/// The property block at the front, and how many bytes it takes.
///
/// Short where the bytes end inside it; Malformed where its length or a value is, where an identifier
/// isn't known, or where a property passes the block's end; NotHere where a property may not stand in
/// this place; Repeated where one stands again that may stand once. The first from the left is
/// answered, and the last two are found before the value is read. Memory is wanted only once a
/// property has been read.
pub fn read_properties(
    alloc: Global,
    place: Place,
    bytes: &[u8],
) -> Result<(Properties, usize), FieldFault>
    ensures exact { Gives (λ x. (x.0, drop x.1 bytes.now)) result
        ((properties place).at bytes.now) }
    ensures used { IfOk result (λ x. x.1 ≤ length bytes.now) }
    ensures spelled { IfOk result (λ x. HasSpelling x.0) }
    ensures no_memory { IsErrOf result FieldFault.NoMemory
        → IsOk (first_property place bytes.now) }
{
    let (ps, rest) = properties_of(alloc, place, bytes)?;
    Ok((ps, bytes.len() - rest.len()))
}

/// How many bytes the properties take.
fn block_len(ps: &[Property]) -> usize
    requires { HasSpelling ps.now }
    ensures { result ≡ length (properties_bytes ps.now) }
{
    let mut total = 0;
    for p in ps {
        total += 1 + value_len(&p.value).unwrap();
    }
    total
}

/// Appends properties where there is room for them.
fn put_properties(ps: &[Property], out: &mut Vec<u8>)
    requires fits { HasSpelling ps.now }
    requires room { vec_len out.old + length (properties_bytes ps.now) ≤ vec_capacity out.old }
    ensures items { out.new.items ≡ out.old.items ++ properties_bytes ps.now }
    ensures len { vec_len out.new ≡ vec_len out.old + length (properties_bytes ps.now) }
    ensures capacity { vec_capacity out.old ≤ vec_capacity out.new }
{
    for p in ps {
        out.push_reserved(p.id);
        put_value(&p.value, out);
    }
}

/// Appends the property block: the length of the properties, and these.
#[tactic(auto, unfolding(crate::specs::Block::properties))]
pub fn write_properties(ps: &Properties, out: &mut Vec<u8>) -> Result<(), NoMemory>
    requires { HasSpelling ps.now }
    ensures ok { (place : Place) → OnOk result
        (out.new.items ≡ out.old.items ++ (properties place).bytes ps.now) }
    ensures err { OnErr result (out.new.items ≡ out.old.items) }
    ensures full { (place : Place) → OnErr result
        (vec_capacity out.old < vec_len out.old + length ((properties place).bytes ps.now)) }
    ensures capacity { vec_capacity out.old ≤ vec_capacity out.new }
{
    let len = block_len(ps.as_slice());
    out.reserve(vbi_len(len as u32) + len)?;
    put_vbi(len as u32, out);
    put_properties(ps.as_slice(), out);
    Ok(())
}
