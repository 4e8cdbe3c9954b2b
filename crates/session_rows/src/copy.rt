//! A session's copies as values of rows.

ghost use Rattle.std.specs.Prelude.{◌≡◌, ◌<◌, ◌≤◌, ◌+◌, ◌++◌, length, take, vec_capacity, vec_len, OnErr, OnOk};
ghost use Rattle.mqtt_fields.specs.Reading.{Gives};
ghost use Rattle.session_rows.specs.Fields as fields;
ghost use Rattle.session_rows.specs.Fields.{copy_of, entry_of};
ghost use Rattle.session_rows.specs.Reading.{Opens, whole};
ghost use Rattle.std.specs.Prelude.{option_map};

use mqtt_fields::{FieldFault, NoMemory, put_u8, put_u16, put_u64, u8_at, u16_at, u64_at};
use mqtt_message::Delivery;
use qos_handshakes::{Entry, Stage};
use row_store::RowFault;
use std::alloc::Global;

fn stage_of(id: u16, state: u8, order: u64) -> Option<Stage>
    ensures { result ≡ fields.stage_by state id order }
{
    match state {
        0 => {
            if id == 0 && order == 0 {
                Some(Stage::Waiting)
            } else {
                None
            }
        }
        1 => {
            if order == 0 {
                Some(Stage::Published(id))
            } else {
                None
            }
        }
        2 => Some(Stage::Released(id, order)),
        _ => None,
    }
}

fn stage_at(bytes: &[u8]) -> Result<(Stage, &[u8]), FieldFault>
    ensures { Gives (λ x. (x.0, x.1.now)) result (fields.stage.at bytes.now) }
{
    let (id, rest) = u16_at(bytes)?;
    let (state, rest) = u8_at(rest)?;
    let (order, rest) = u64_at(rest)?;
    match stage_of(id, state, order) {
        Some(stage) => Ok((stage, rest)),
        None => Err(FieldFault::Malformed),
    }
}

#[tactic(auto, unfolding(crate::specs::Fields::copy))]
fn copy_at(alloc: Global, bytes: &[u8]) -> Result<((Stage, Delivery), &[u8]), FieldFault>
    ensures { Gives (λ x. ((x.0.0, x.0.1), x.1.now)) result (fields.copy.at bytes.now) }
{
    let (stage, rest) = stage_at(bytes)?;
    let (delivery, used) = Delivery::read(alloc, rest)?;
    Ok(((stage, delivery), &rest[used..]))
}

/// The copy that a row's value says; nothing was sent on a connection.
pub(crate) fn read_copy(alloc: Global, bytes: &[u8]) -> Result<Entry, RowFault>
    ensures { Opens (λ x. x) result (option_map entry_of (whole fields.copy bytes.now)) }
{
    match copy_at(alloc, bytes) {
        Ok(((stage, delivery), [])) => Ok(Entry {
            stage,
            here: false,
            delivery,
        }),
        Ok(_) => Err(RowFault::BadRow),
        Err(FieldFault::NoMemory) => Err(RowFault::NoMemory),
        Err(_) => Err(RowFault::BadRow),
    }
}

fn put_parts(id: u16, state: u8, order: u64, out: &mut Vec<u8>) -> Result<(), NoMemory>
    ensures ok { OnOk result (out.new.items ≡ out.old.items ++ fields.parts.bytes (id, (state, order))) }
    ensures begins { take (length out.old.items) out.new.items ≡ out.old.items }
    ensures full { OnErr result (vec_capacity out.old < vec_len out.old + length (fields.parts.bytes (id, (state, order)))) }
    ensures capacity { vec_capacity out.old ≤ vec_capacity out.new }
{
    put_u16(id, out)?;
    put_u8(state, out)?;
    put_u64(order, out)
}

fn put_stage(stage: Stage, out: &mut Vec<u8>) -> Result<(), NoMemory>
    ensures ok { OnOk result (out.new.items ≡ out.old.items ++ fields.stage.bytes stage) }
    ensures begins { take (length out.old.items) out.new.items ≡ out.old.items }
    ensures full { OnErr result (vec_capacity out.old < vec_len out.old + length (fields.stage.bytes stage)) }
    ensures capacity { vec_capacity out.old ≤ vec_capacity out.new }
{
    match stage {
        Stage::Waiting => put_parts(0, 0, 0, out),
        Stage::Published(id) => put_parts(id, 1, 0, out),
        Stage::Released(id, order) => put_parts(id, 2, order, out),
    }
}

/// Appends the value of a copy's row, or its beginning where memory runs out.
#[tactic(auto, unfolding(crate::specs::Fields::copy))]
pub fn write_copy(entry: &Entry, out: &mut Vec<u8>) -> Result<(), NoMemory>
    ensures ok { OnOk result (out.new.items ≡ out.old.items ++ fields.copy.bytes (copy_of entry.now)) }
    ensures begins { take (length out.old.items) out.new.items ≡ out.old.items }
    ensures full { OnErr result (vec_capacity out.old < vec_len out.old + length (fields.copy.bytes (copy_of entry.now))) }
    ensures capacity { vec_capacity out.old ≤ vec_capacity out.new }
{
    put_stage(entry.stage, out)?;
    entry.delivery.write(out)
}
