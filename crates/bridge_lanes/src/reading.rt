//! Lanes that are read from their rows.
ghost use Rattle.std.specs.Prelude.{◌≡◌, ◌≢◌, ◌+◌, ◌<◌, ◌≤◌, ◌^◌, ◌↔◌, ℕ, suc, length, take, drop, map, IsTrue, IsErrOf, MatchOption};
ghost use Rattle.std.specs.Int.{w64};
ghost use Rattle.std.specs.List.{AllByRecursion};
ghost use Rattle.mqtt_fields.specs.Numbers.{number};
ghost use Rattle.bridge_frames.specs.Forwards.{forward};
ghost use Rattle.bridge_frames.specs.Memory.{ForwardWants};
ghost use Rattle.row_store.specs.Rows.{entry_of, key_of};
ghost use Rattle.mqtt_fields.specs.Reading.{Finds};
ghost use Rattle.bridge_lanes.specs.Reading.{AreLanesOf, AreMessages, AreNumbers, AreParts, IsLaneOf, IsMessage, IsMessageRow, IsPeers, StartsApart, lane_in};
ghost use Rattle.bridge_lanes.specs.Rows.{message_key, numbers_key, numbers_value, owner};

use bridge_frames::Forward;
use mqtt_fields::{FieldFault, NUMBERS_END, are_bytes, u16_at, u64_at};
use row_store::Row;
use row_store::kinds::{MESSAGE, NUMBERS};
use std::alloc::Global;
use std::collections::VecDeque;

/// As many messages as may wait in a lane.
pub const LANE_ROOM: usize = 65_536;

/// The lanes to and from one other node as their rows say: how many messages that were put in are gone, those that wait, and
/// the number of the last one that was taken.
#[derive(Drop)]
pub struct ReadLane {
    pub gone: u64,
    pub messages: VecDeque<Forward>,
    pub took: u64,
}

fn is_owner(bytes: &[u8], peer: u16) -> bool
    ensures { IsTrue result ↔ (bytes.now ≡ owner peer) }
{
    are_bytes(bytes);
    match u16_at(bytes) {
        Ok((n, [])) => n == peer,
        _ => false,
    }
}

fn is_place(bytes: &[u8], n: u64) -> bool
    ensures { IsTrue result ↔ (bytes.now ≡ (number w64).bytes n) }
{
    are_bytes(bytes);
    match u64_at(bytes) {
        Ok((m, [])) => m == n,
        _ => false,
    }
}

fn is_message_at(row: &Row, peer: u16, n: u64) -> bool
    ensures { IsTrue result ↔ (key_of row.now ≡ message_key peer n) }
{
    row.kind == MESSAGE && is_owner(&row.owner, peer) && is_place(&row.place, n)
}

fn is_numbers_at(row: &Row, peer: u16) -> bool
    ensures { IsTrue result ↔ (key_of row.now ≡ numbers_key peer) }
{
    row.kind == NUMBERS && is_owner(&row.owner, peer) && row.place.is_empty()
}

// The message whose spelling the bytes are.
fn forward_of(alloc: Global, bytes: &[u8]) -> Result<Forward, FieldFault>
    ensures finds { Finds (λ m. m) (λ m. (bytes.now ≡ forward.bytes m) × forward.Fits m) result }
    ensures no_memory { IsErrOf result FieldFault.NoMemory → ForwardWants bytes.now }
{
    are_bytes(bytes);
    match Forward::at(alloc, bytes) {
        Ok((message, [])) => Ok(message),
        Ok(_) => Err(FieldFault::Malformed),
        Err(fault) => Err(fault),
    }
}

fn read_message(alloc: Global, peer: u16, n: u64, row: &Row) -> Result<Forward, FieldFault>
    ensures finds { Finds (λ m. m) (IsMessage peer n (entry_of row.now)) result }
    ensures no_memory { IsErrOf result FieldFault.NoMemory → key_of row.now ≡ message_key peer n }
{
    if !is_message_at(row, peer, n) {
        return Err(FieldFault::Malformed);
    }
    forward_of(alloc, &row.value)
}

// The messages whose rows these are, under the numbers after `base`.
fn read_messages(
    alloc: Global,
    peer: u16,
    base: u64,
    rows: &[Row],
) -> Result<VecDeque<Forward>, FieldFault>
    requires { base + length rows.now < 2 ^ 62 }
    ensures finds { Finds (λ ms. ms.items) (AreMessages peer (suc base) (map entry_of rows.now)) result }
    ensures no_memory { IsErrOf result FieldFault.NoMemory → 0 < length rows.now }
{
    let mut messages = VecDeque::new(alloc);
    for i in 0..rows.len() {
        let message = read_message(alloc, peer, base + i as u64 + 1, &rows[i])?;
        messages.push_back(message)?;
    }
    Ok(messages)
}

fn two_numbers_at(bytes: &[u8]) -> Option<(u64, u64)>
    ensures { MatchOption result ((x : ℕ × ℕ) → x.0 < 2 ^ 64 → x.1 < 2 ^ 64 → bytes.now ≢ numbers_value x.0 x.1)
        (λ x. bytes.now ≡ numbers_value x.0 x.1) }
{
    are_bytes(bytes);
    let Ok((last_put, rest)) = u64_at(bytes) else {
        return None;
    };
    match u64_at(rest) {
        Ok((took, [])) => Some((last_put, took)),
        _ => None,
    }
}

// The numbers of the peer's lanes, of which there is this row, or none.
fn read_numbers(peer: u16, rows: &[Row]) -> Option<(u64, u64)>
    ensures { MatchOption result ((x : ℕ × ℕ) → AreNumbers peer (map entry_of rows.now) x → ⊥)
        (AreNumbers peer (map entry_of rows.now)) }
{
    match rows {
        [] => Some((0, 0)),
        [row] => {
            if !is_numbers_at(row, peer) {
                return None;
            }
            match two_numbers_at(&row.value) {
                Some((0, 0)) => None,
                numbers => numbers,
            }
        }
        _ => None,
    }
}

// Whether so many may wait, of which the last has the number, and so many may have been taken.
fn can_be(count: usize, last_put: u64, took: u64) -> bool
    ensures { IsTrue result ↔ (count ≤ 65536) × (last_put < 2 ^ 62) × (count ≤ last_put) × (took < 2 ^ 62) }
{
    let may_wait = count <= LANE_ROOM && last_put < NUMBERS_END && count as u64 <= last_put;
    may_wait && took < NUMBERS_END
}

// The lanes of the peer, whose rows these are.
fn read_lane(
    alloc: Global,
    peer: u16,
    messages: &[Row],
    numbers: &[Row],
) -> Result<ReadLane, FieldFault>
    ensures finds { Finds lane_in (IsLaneOf peer (map entry_of messages.now) (map entry_of numbers.now)) result }
    ensures no_memory { IsErrOf result FieldFault.NoMemory → 0 < length messages.now }
{
    let Some((last_put, took)) = read_numbers(peer, numbers) else {
        return Err(FieldFault::Malformed);
    };
    if !can_be(messages.len(), last_put, took) {
        return Err(FieldFault::Malformed);
    }
    let gone = last_put - messages.len() as u64;
    let messages = read_messages(alloc, peer, gone, messages)?;
    Ok(ReadLane {
        gone,
        messages,
        took,
    })
}

// How many rows at the front are of messages.
fn count_messages(rows: &[Row]) -> usize
    ensures within { result ≤ length rows.now }
    ensures own { AllByRecursion IsMessageRow (map entry_of (take result rows.now)) }
    ensures others { StartsApart IsMessageRow (map entry_of (drop result rows.now)) }
{
    for i in 0..rows.len() {
        if rows[i].kind != MESSAGE {
            return i;
        }
    }
    rows.len()
}

// How many rows at the front are of the peer.
fn count_of(rows: &[Row], peer: u16) -> usize
    ensures within { result ≤ length rows.now }
    ensures own { AllByRecursion (IsPeers peer) (map entry_of (take result rows.now)) }
    ensures others { StartsApart (IsPeers peer) (map entry_of (drop result rows.now)) }
{
    for i in 0..rows.len() {
        if !is_owner(&rows[i].owner, peer) {
            return i;
        }
    }
    rows.len()
}

// The lanes whose rows these are: those of messages, and those of numbers.
fn read_each(
    alloc: Global,
    nodes: u16,
    messages: &[Row],
    numbers: &[Row],
) -> Result<Vec<ReadLane>, FieldFault>
    ensures finds { Finds (λ lanes. map lane_in lanes.items)
        (AreParts nodes (map entry_of messages.now) (map entry_of numbers.now)) result }
    ensures no_memory { IsErrOf result FieldFault.NoMemory → 0 < nodes }
{
    let mut lanes = Vec::new(alloc);
    let mut left = messages;
    let mut last = numbers;
    for peer in 0..nodes {
        let (mine, others) = left.split_at(count_of(left, peer));
        let (own, later) = last.split_at(count_of(last, peer));
        let lane = read_lane(alloc, peer, mine, own)?;
        lanes.push(lane)?;
        left = others;
        last = later;
    }
    if left.is_empty() && last.is_empty() {
        Ok(lanes)
    } else {
        Err(FieldFault::Malformed)
    }
}

/// The lanes, in a cluster of so many nodes, whose rows these are, in the order of their keys.
///
/// A fault other than want of memory says that no lanes have just these rows. Of no nodes it takes no memory.
pub fn read_lanes(alloc: Global, nodes: u16, rows: &[Row]) -> Result<Vec<ReadLane>, FieldFault>
    ensures finds { Finds (λ lanes. map lane_in lanes.items) (AreLanesOf nodes (map entry_of rows.now)) result }
    ensures no_memory { IsErrOf result FieldFault.NoMemory → 0 < nodes }
{
    let (messages, numbers) = rows.split_at(count_messages(rows));
    read_each(alloc, nodes, messages, numbers)
}
