//! A message for clients of another node that is a byte, or a pick, too long for a frame, and one that goes.

use crate::nodes::{answer, confirm, connect, first_shipped, last_shipped, started, take};
use crate::packets::CONNECT;
use broker_node::Node;
use std::alloc::Global;
use std::io::Write;
use std::process::Abort;

/// CONNECT of `b`, whose home of two nodes is node 0.
pub const CONNECT_B: &[u8] = b"\x10\x0e\0\x04MQTT\x05\x02\0\x3c\0\0\x01b";

/// PUBLISH of `x` to `t` at QoS 1.
pub const PUBLISH: &[u8] = b"\x32\x07\0\x01t\0\x07\0x";

/// In how many groups `b` is a member, and the length of each filter but the last: the longest that a string has.
const LONG: usize = 32;

const LONGEST: usize = 65_535;

/// The length of the last filter with which a frame for all these picks has 2,097,152 bytes after its length: 31 besides the picks, and
/// for each its filter, its client of one byte, and the length of both in two each.
const LAST: usize = 2_097_152 - 31 - 31 * (LONGEST + 5) - 5;

/// A frame that has so many.
const FULL: usize = 2_097_156;

/// How many clients are members of groups, and of how many each: one group more than a message has picks.
const CLIENTS: usize = 128;

const EACH: usize = 512;

/// A frame with as many picks as a message has: 31 bytes and its length in four, and for each pick 28.
const MANY: usize = 35 + 65_535 * 28;

/// CONNECT of a client whose identifier has ten characters, without these.
const CONNECT_TEN: &[u8] = b"\x10\x17\0\x04MQTT\x05\x02\0\x3c\0\0\x0a";

/// UNSUBSCRIBE from the first group's filter.
const UNSUBSCRIBE: &[u8] = b"\xa2\x13\0\x02\0\0\x0e$share/00000/t";

/// How long a filter of a group is whose name has five characters.
const SHORT: usize = 14;

/// A packet of this kind with its rest, of 128 bytes or more.
pub fn packet(rt: &impl Abort, alloc: Global, first: u8, rest: &[u8]) -> Vec<u8> {
    let length = rest.len();
    let mut bytes = Vec::from_slice(alloc, &[first]).expect(rt, "memory");
    let low = [(length % 128 + 128) as u8, (length / 128 % 128) as u8];
    if length < 16_384 {
        bytes.extend_from_slice(&low).expect(rt, "memory");
    } else {
        let three = [low[0], low[1] | 0x80, (length / 16_384 % 128) as u8];
        bytes.extend_from_slice(&three).expect(rt, "memory");
    }
    bytes.extend_from_slice(rest).expect(rt, "memory");
    bytes
}

/// Adds a filter of so many bytes to `t`, of the group whose name begins with this number, and its options, which are a QoS.
fn add_group(
    rt: &impl Abort,
    alloc: Global,
    rest: &mut Vec<u8>,
    name: usize,
    length: usize,
    qos: u8,
) {
    let high = (length / 256 % 256) as u8;
    let low = (length % 256) as u8;
    rest.extend_from_slice(&[high, low]).expect(rt, "memory");
    let fill = "g".repeat(alloc, length.saturating_sub(SHORT));
    let fill = fill.expect(rt, "memory");
    write!(rest, "$share/{:05}{fill}/t", name % 100_000).expect(rt, "memory");
    rest.push(qos).expect(rt, "memory");
    drop(fill);
}

/// `b` at node 0 is a member of all its groups, the last of which has a filter of this length.
fn member(rt: &impl Abort, alloc: Global, last: usize) -> Node {
    let mut node = started(rt, alloc, 0);
    connect(rt, alloc, &mut node, 1, CONNECT_B);
    for group in 1..LONG + 1 {
        let length = if group == LONG { last } else { LONGEST };
        let mut rest = Vec::from_slice(alloc, b"\0\x01\0").expect(rt, "memory");
        add_group(rt, alloc, &mut rest, group, length, 1);
        let bytes = packet(rt, alloc, 0x82, &rest);
        drop(rest);
        answer(rt, alloc, &mut node, 1, &bytes);
    }
    node
}

/// Node 1, whose client `a` is connected.
pub fn publisher(rt: &impl Abort, alloc: Global) -> Node {
    let mut node = started(rt, alloc, 1);
    connect(rt, alloc, &mut node, 1, CONNECT);
    node
}

/// Node 1 takes what node 0 ships, which then knows that, and a message of `a`: how many wait for node 0, and how many were left out.
fn passed(rt: &impl Abort, alloc: Global, from: &mut Node, to: &mut Node) -> (usize, u64) {
    let (state, _) = first_shipped(rt, from, 1);
    let known = confirm(rt, to, state);
    assert_eq!(rt; take(rt, from, known), 0);
    answer(rt, alloc, to, 1, PUBLISH);
    (to.waiting(0), to.counts().lane_full)
}

#[test]
fn a_message_that_is_too_long_for_a_frame_is_left_out_and_counted(rt: HostRuntime) {
    let alloc = rt.alloc();
    let mut home = member(&rt, alloc, LAST + 1);
    let mut node = publisher(&rt, alloc);
    assert_eq!(rt; passed(&rt, alloc, &mut home, &mut node), (0, 1));
    drop((home, node));
}

#[test]
fn a_message_that_fills_a_frame_reaches_all_its_members(rt: HostRuntime) {
    let alloc = rt.alloc();
    let mut home = member(&rt, alloc, LAST);
    let mut node = publisher(&rt, alloc);
    assert_eq!(rt; passed(&rt, alloc, &mut home, &mut node), (1, 0));
    let forward = last_shipped(&rt, &mut node, 0);
    assert_eq!(rt; forward.bytes.as_slice().len(), FULL);
    // a PUBLISH for each pick, and Got
    assert_eq!(rt; take(&rt, &mut home, forward), LONG + 1);
    drop((home, node));
}

/// A client of node 0 connects, and is a member of so many groups.
fn join(rt: &impl Abort, alloc: Global, node: &mut Node, client: usize) {
    let connection = client as u64;
    let mut bytes = Vec::from_slice(alloc, CONNECT_TEN).expect(rt, "memory");
    write!(&mut bytes, "auto-0-{:03}", client % 900 + 100).expect(rt, "memory");
    connect(rt, alloc, node, connection, &bytes);
    let mut rest = Vec::from_slice(alloc, b"\0\x01\0").expect(rt, "memory");
    for group in 0..EACH {
        let name = client.saturating_mul(EACH).saturating_add(group);
        add_group(rt, alloc, &mut rest, name, SHORT, 0);
    }
    let bytes = packet(rt, alloc, 0x82, &rest);
    drop(rest);
    answer(rt, alloc, node, connection, &bytes);
}

#[test]
fn a_message_with_a_pick_too_many_is_left_out_and_counted(rt: HostRuntime) {
    let alloc = rt.alloc();
    let mut home = started(&rt, alloc, 0);
    for client in 0..CLIENTS {
        join(&rt, alloc, &mut home, client);
    }
    let mut node = publisher(&rt, alloc);
    assert_eq!(rt; passed(&rt, alloc, &mut home, &mut node), (0, 1));
    answer(&rt, alloc, &mut home, 0, UNSUBSCRIBE);
    assert_eq!(rt; passed(&rt, alloc, &mut home, &mut node), (1, 1));
    let forward = last_shipped(&rt, &mut node, 0);
    assert_eq!(rt; forward.bytes.as_slice().len(), MANY);
    drop((home, node, forward));
}
