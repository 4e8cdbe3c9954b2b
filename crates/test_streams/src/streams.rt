//! Streams of clients, at a connection that is new and at one whose client is accepted: packets in part, and with a byte changed.

use crate::answers::are_answers;
use crate::changes::changed;
use crate::heard::read_stream;
use std::alloc::Global;
use std::process::Abort;
use trial_streams::{PACKETS, Said, Stage, Told};

/// The connection on which the streams come, one after another.
pub const CLIENT: u64 = 2;

/// CONNECT of `a`, whose home is node 1.
const CONNECT: &[u8] = b"\x10\x0e\x00\x04MQTT\x05\x02\x00\x3c\x00\x00\x01a";

/// CONNACK of success.
const ACCEPTED: [Said; 1] = [Said::Packet { kind: 2, code: 0 }];

const PINGREQ: &[u8] = b"\xc0\x00";

/// What goes out on the connection of the client, which is all that goes out.
fn said_of(rt: &impl Abort, alloc: Global, told: &[Told]) -> Vec<Said> {
    let mut said = Vec::new(alloc);
    for each in told {
        assert!(rt; each.connection == CLIENT);
        said.push(each.said).expect(rt, "memory");
    }
    said
}

fn taken(rt: &impl Abort, alloc: Global, stage: &mut Stage, bytes: &[u8]) -> Vec<Said> {
    let told = stage.take(CLIENT, bytes).expect(rt, "a node that goes on");
    said_of(rt, alloc, &told)
}

/// A connection is opened, and its client accepted if it is to be.
pub fn connect(rt: &impl Abort, alloc: Global, stage: &mut Stage, accepted: bool) {
    stage.open_connection(CLIENT).expect(rt, "nothing goes out");
    if accepted {
        let said = taken(rt, alloc, stage, CONNECT);
        assert!(rt; said.as_slice() == ACCEPTED.as_slice());
    }
}

/// Nothing goes out after a close; a client that wasn't closed goes, and nothing goes out either.
pub fn leave(rt: &impl Abort, alloc: Global, stage: &mut Stage, is_closed: bool) {
    if is_closed {
        assert!(rt; taken(rt, alloc, stage, PINGREQ).is_empty());
    } else {
        let told = stage
            .close_connection(CLIENT)
            .expect(rt, "a node that goes on");
        assert!(rt; told.is_empty());
    }
}

/// A stream comes on a connection of its own, is answered by the table, and the witness is served after it.
fn is_borne(
    rt: &impl Abort,
    alloc: Global,
    stage: &mut Stage,
    accepted: bool,
    bytes: &[u8],
) -> bool {
    connect(rt, alloc, stage, accepted);
    let said = taken(rt, alloc, stage, bytes);
    leave(rt, alloc, stage, said.last() == Some(&Said::Close));
    let stream = read_stream(alloc, bytes).expect(rt, "memory");
    stage.look().is_ok() && are_answers(&stream, accepted, &said)
}

fn is_borne_twice(rt: &impl Abort, alloc: Global, stage: &mut Stage, bytes: &[u8]) -> bool {
    is_borne(rt, alloc, stage, false, bytes) && is_borne(rt, alloc, stage, true, bytes)
}

fn parts(rt: &impl Abort, alloc: Global, stage: &mut Stage, bytes: &[u8]) {
    for end in 0..=bytes.len() {
        let part = &bytes[..end];
        assert!(rt; is_borne_twice(rt, alloc, stage, part), "{part:?}");
    }
}

/// The stream with each byte at a place of it.
fn changes_at(rt: &impl Abort, alloc: Global, stage: &mut Stage, bytes: &[u8], place: usize) {
    for byte in 0..=255 {
        let stream = changed(rt, alloc, bytes, place, byte);
        assert!(rt; is_borne_twice(rt, alloc, stage, &stream), "{stream:?}");
    }
}

fn changes(rt: &impl Abort, alloc: Global, stage: &mut Stage, bytes: &[u8]) {
    for place in 0..bytes.len() {
        changes_at(rt, alloc, stage, bytes, place);
    }
}

/// How many of the packets the first of the two tests takes.
const FIRST: usize = 30;

fn sweep(rt: &impl Abort, alloc: Global, packets: &[&str]) {
    for packet in packets {
        let bytes = hex::decode(alloc, packet).expect(rt, "hexadecimal");
        let mut stage = Stage::open(alloc, 1).expect(rt, "a node");
        parts(rt, alloc, &mut stage, &bytes);
        changes(rt, alloc, &mut stage, &bytes);
        drop(stage);
    }
}

#[test]
fn a_stream_is_answered_by_the_table_and_others_are_served(rt: HostRuntime) {
    sweep(&rt, rt.alloc(), &PACKETS[..FIRST]);
}

#[test]
fn so_are_the_streams_of_the_other_packets(rt: HostRuntime) {
    sweep(&rt, rt.alloc(), &PACKETS[FIRST..]);
}
