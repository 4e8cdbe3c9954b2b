//! The rows of a lane, and changes of them.
ghost use Rattle.std.specs.Prelude.{◌≡◌, ◌+◌, ◌<◌, ◌≤◌, ◌^◌, ◌++◌, ◌==◌, ◌&&◌, suc, [], ◌∷◌, take, drop, length, map, Some, None, IfOk, IsOk, OnOk, OnErr, if◌then◌else◌};
ghost use Rattle.std.specs.Int.{w64};
ghost use Rattle.mqtt_fields.specs.Numbers.{number};
ghost use Rattle.row_store.specs.Rows.{entry_of};
ghost use Rattle.bridge_lanes.specs.Changes.{left_of, put, removals};
ghost use Rattle.bridge_frames.specs.Forwards.{forward};
ghost use Rattle.bridge_lanes.specs.Rows as spec;

use bridge_frames::Forward;
use mqtt_fields::{NoMemory, put_u16, put_u64};
use row_store::kinds::{MESSAGE, NUMBERS};
use row_store::{Change, Row};
use std::alloc::Global;
use std::collections::VecDeque;

fn owner_of(alloc: Global, peer: u16) -> Result<Vec<u8>, NoMemory>
    ensures { IfOk result (λ bytes. bytes.items ≡ spec.owner peer) }
{
    let mut bytes = Vec::new(alloc);
    put_u16(peer, &mut bytes)?;
    Ok(bytes)
}

fn place_of(alloc: Global, n: u64) -> Result<Vec<u8>, NoMemory>
    ensures { IfOk result (λ bytes. bytes.items ≡ (number w64).bytes n) }
{
    let mut bytes = Vec::new(alloc);
    put_u64(n, &mut bytes)?;
    Ok(bytes)
}

fn value_of(alloc: Global, message: &Forward) -> Result<Vec<u8>, NoMemory>
    ensures { IfOk result (λ bytes. bytes.items ≡ forward.bytes message.now) }
{
    let mut bytes = Vec::new(alloc);
    message.append(&mut bytes)?;
    Ok(bytes)
}

fn message_row(alloc: Global, peer: u16, n: u64, message: &Forward) -> Result<Row, NoMemory>
    ensures { IfOk result (λ row. entry_of row ≡ spec.message_row peer n message.now) }
{
    Ok(Row {
        kind: MESSAGE,
        owner: owner_of(alloc, peer)?,
        place: place_of(alloc, n)?,
        value: value_of(alloc, message)?,
    })
}

fn numbers_row(alloc: Global, peer: u16, last_put: u64, took: u64) -> Result<Row, NoMemory>
    ensures { IfOk result (λ row. entry_of row ≡ (spec.numbers_key peer, spec.numbers_value last_put took)) }
{
    let mut value = Vec::new(alloc);
    put_u64(last_put, &mut value)?;
    put_u64(took, &mut value)?;
    Ok(Row {
        kind: NUMBERS,
        owner: owner_of(alloc, peer)?,
        place: Vec::new(alloc),
        value,
    })
}

/// Appends the rows of the messages for the peer from a place on, or the first of them where memory runs out; `base` is the number
/// before that of the first message. Where there is none it takes no memory.
pub fn append_rows(
    alloc: Global,
    peer: u16,
    base: u64,
    messages: &VecDeque<Forward>,
    from: usize,
    out: &mut Vec<Row>,
) -> Result<(), NoMemory>
    requires there { from ≤ length messages.now.items }
    requires below { base + length messages.now.items < 2 ^ 62 }
    ensures ok { OnOk result (map entry_of out.new.items ≡ map entry_of out.old.items
        ++ spec.message_rows peer (suc (base + from)) (drop from messages.now.items)) }
    ensures begins { take (length out.old.items) out.new.items ≡ out.old.items }
    ensures memory { OnErr result (from < length messages.now.items) }
{
    let end = messages.len();
    for i in from..end {
        let row = message_row(alloc, peer, base + i as u64 + 1, &messages[i])?;
        out.push(row)?;
    }
    Ok(())
}

/// Appends puts of the rows of the messages for the peer from a place on, or the first of them where memory runs out; `base` is the
/// number before that of the first message. Where there is none it takes no memory.
pub fn append_puts(
    alloc: Global,
    peer: u16,
    base: u64,
    messages: &VecDeque<Forward>,
    from: usize,
    out: &mut Vec<Change>,
) -> Result<(), NoMemory>
    requires there { from ≤ length messages.now.items }
    requires below { base + length messages.now.items < 2 ^ 62 }
    ensures ok { OnOk result (map left_of out.new.items ≡ map left_of out.old.items
        ++ map put (spec.message_rows peer (suc (base + from)) (drop from messages.now.items))) }
    ensures begins { take (length out.old.items) out.new.items ≡ out.old.items }
    ensures memory { OnErr result (from < length messages.now.items) }
{
    for i in from..messages.len() {
        let message = message_row(alloc, peer, base + i as u64 + 1, &messages[i])?;
        out.push(Change::Put(message))?;
    }
    Ok(())
}

fn removal(alloc: Global, peer: u16, n: u64) -> Result<Change, NoMemory>
    ensures { IfOk result (λ change. left_of change ≡ (spec.message_key peer n, None)) }
{
    Ok(Change::Remove(MESSAGE, owner_of(alloc, peer)?, place_of(alloc, n)?))
}

/// Appends removals of the rows of so many messages for the peer, or the first of them where memory runs out; `base` is the number
/// before that of the first one. Of none it takes no memory.
pub fn append_removals(
    alloc: Global,
    peer: u16,
    base: u64,
    count: usize,
    out: &mut Vec<Change>,
) -> Result<(), NoMemory>
    requires { base + count < 2 ^ 62 }
    ensures ok { OnOk result (map left_of out.new.items ≡ map left_of out.old.items ++ removals peer (suc base) count) }
    ensures begins { take (length out.old.items) out.new.items ≡ out.old.items }
    ensures memory { OnErr result (0 < count) }
{
    for i in 0..count {
        let change = removal(alloc, peer, base + i as u64 + 1)?;
        out.push(change)?;
    }
    Ok(())
}

fn are_equal(told: (u64, u64), now: (u64, u64)) -> bool
    ensures { result ≡ ((told.0 == now.0) && (told.1 == now.1)) }
{
    told.0 == now.0 && told.1 == now.1
}

/// Appends the row of the numbers of the peer's lanes, unless both are 0, which takes no memory: that of the last message that was put
/// in, and of the last that was taken. Where memory runs out `out` stays as it was.
pub fn append_numbers(
    alloc: Global,
    peer: u16,
    last_put: u64,
    took: u64,
    out: &mut Vec<Row>,
) -> Result<(), NoMemory>
    ensures ok { OnOk result (map entry_of out.new.items ≡ map entry_of out.old.items ++ spec.numbers_rows peer last_put took) }
    ensures err { OnErr result (out.new.items ≡ out.old.items) }
    ensures none { spec.numbers_rows peer last_put took ≡ [] → IsOk result }
{
    if are_equal((last_put, took), (0, 0)) {
        return Ok(());
    }
    let row = numbers_row(alloc, peer, last_put, took)?;
    out.push(row)?;
    Ok(())
}

/// Appends a put of the row of the numbers of the peer's lanes, unless they were told so, which takes no memory. Where memory runs out
/// `out` stays as it was.
pub fn append_numbers_change(
    alloc: Global,
    peer: u16,
    told: (u64, u64),
    now: (u64, u64),
    out: &mut Vec<Change>,
) -> Result<(), NoMemory>
    ensures err { OnErr result (out.new.items ≡ out.old.items) }
    ensures same { told.0 ≡ now.0 → told.1 ≡ now.1 → IsOk result }
    ensures ok { OnOk result (map left_of out.new.items ≡ map left_of out.old.items
        ++ (if (told.0 == now.0) && (told.1 == now.1) then [] else (spec.numbers_key peer, Some (spec.numbers_value now.0 now.1)) ∷ [])) }
{
    if are_equal(told, now) {
        return Ok(());
    }
    let row = numbers_row(alloc, peer, now.0, now.1)?;
    out.push(Change::Put(row))?;
    Ok(())
}
