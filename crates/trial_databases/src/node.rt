//! A node with a client, which writes rows.

use broker_node::{Event, EventKind};
use home_table::homes_of;
use mqtt_packets::Bytes;
use node_keeper::Keeper;
use row_store::RowStore;
use std::alloc::Global;

/// CONNECT of `a`, whose session stays for 100 s; SUBSCRIBE to `t`; and PUBLISH of `on` to `t` with RETAIN.
pub const PACKETS: [&[u8]; 3] = [
    b"\x10\x13\x00\x04MQTT\x05\x02\x00\x3c\x05\x11\x00\x00\x00\x64\x00\x01a",
    b"\x82\x07\x00\x01\x00\x00\x01t\x00",
    b"\x31\x06\x00\x01t\x00on",
];

/// Hands the node an event, and answers how many outputs it comes to, or none where the node has a fault.
fn outputs<R: RowStore>(keeper: &mut Keeper<R>, kind: EventKind) -> Option<usize> {
    let event = Event { at: 0, kind };
    match keeper.handle(&event) {
        Ok(outputs) => Some(outputs.len()),
        Err(_) => None,
    }
}

/// Has a client connect and send these packets, and answers whether each of them comes to one output.
fn are_answered<R: RowStore>(
    alloc: Global,
    keeper: &mut Keeper<R>,
    packets: &[&[u8]],
) -> Option<bool> {
    let connection = 1;
    let started = outputs(keeper, EventKind::Started)?;
    let opened = outputs(keeper, EventKind::Opened { connection })?;
    let mut are_answered = started == 0 && opened == 0;
    for packet in packets {
        let bytes = Bytes::from_slice(alloc, packet).ok()?;
        let answers = outputs(keeper, EventKind::Piece { connection, bytes })?;
        are_answered = are_answered && answers == 1;
    }
    Some(are_answered)
}

/// What `held` tells of a node that is opened.
fn held_by<R: RowStore + Drop>(
    alloc: Global,
    mut keeper: Keeper<R>,
    packets: &[&[u8]],
) -> Option<(usize, usize)> {
    if are_answered(alloc, &mut keeper, packets) != Some(true) {
        return None;
    }
    let store = keeper.node().store();
    let subscriptions = store.subscriptions().live_count();
    let messages = store.retained().messages();
    drop(keeper);
    Some((subscriptions, messages))
}

/// How many subscriptions stand at a node of these rows, and how many topics have a message, once its client has sent these
/// packets. None where the node isn't opened, has a fault, or comes to more or less than one output at a packet.
pub fn held<R: RowStore + Drop>(
    alloc: Global,
    rows: R,
    packets: &[&[u8]],
) -> Option<(usize, usize)> {
    let homes = homes_of(alloc, 2)?;
    match Keeper::open(alloc, rows, homes, 1) {
        Ok(keeper) => held_by(alloc, keeper, packets),
        Err(_) => None,
    }
}
