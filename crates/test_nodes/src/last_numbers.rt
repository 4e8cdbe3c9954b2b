//! A node one of whose numbers is one below the last: the last one is given, and what needs the number after it stops the node.

use crate::keepers::{fault, frame, opened, outputs, piece, sent};
use crate::numbers::{Plain, rows_of};
use crate::packets::{AGAIN, CONNECT, SUBSCRIBE};
use broker_node::EventKind;
use node_keeper::{Keeper, KeeperFault};
use row_store::MemoryRows;
use std::alloc::Global;
use std::process::Abort;

/// A packet on a connection, and what is sent then.
type Taken = (u64, &'static [u8], &'static [u8]);

/// Rows of node 1, packets that are taken, the last of which has the last number, and one that lacks a number.
struct Case {
    name: &'static str,
    rows: &'static [Plain],
    taken: &'static [Taken],
    lacking: (u64, &'static [u8]),
}

/// The mark of node 1, which has given no identifier; and one whose last identifier had the number 2^62 - 2.
const MARK: Plain = (1, b"", b"", b"\0\x03\0\x01\0\0\0\0\0\0\0\0");

const NAMED: Plain = (1, b"", b"", b"\0\x03\0\x01\x3f\xff\xff\xff\xff\xff\xff\xfe");

/// That the dot (1, 2^62 - 2) was taken, and that it was seen.
const TAKEN: Plain = (
    6,
    b"",
    b"\x01",
    b"\0\0\0\x01\0\x01\x3f\xff\xff\xff\xff\xff\xff\xfe\x3f\xff\xff\xff\xff\xff\xff\xfe",
);

const SEEN: Plain = (
    6,
    b"",
    b"\x02",
    b"\0\0\0\x01\0\x01\x3f\xff\xff\xff\xff\xff\xff\xfe\x3f\xff\xff\xff\xff\xff\xff\xfe",
);

/// A topic whose message was taken away under the count 2^62 - 2.
const CLEARED: Plain = (5, b"t", b"", b"\x3f\xff\xff\xff\xff\xff\xff\xfe\0\x01\0");

/// Sessions of `a` that stay for 100 s: the next place is 2^62 - 1, and 2.
const PLACED: Plain = (
    2,
    b"a",
    b"",
    b"\0\0\0\x64\0\0\0\0\0\0\0\0\0\0\0\0\0\0\x3f\xff\xff\xff\xff\xff\xff\xff",
);

const BEGUN: Plain = (
    2,
    b"a",
    b"",
    b"\0\0\0\x64\0\0\0\0\0\0\0\0\0\0\0\0\0\0\0\0\0\0\0\0\0\x02",
);

/// A copy for `a` at QoS 2 under 1, whose release has the order 2^62 - 2.
const RELEASED: Plain = (
    3,
    b"a",
    b"\0\0\0\0\0\0\0\x01",
    b"\0\x01\x02\x3f\xff\xff\xff\xff\xff\xff\xfe\0\x01t\0\0\0\x01x\0\x02\0\0\x01c\0\x02\0\0\0",
);

/// A subscription of `b`, whose home is node 0, to `t` at QoS 1 as (0, 1), and the set of that dot, taken and seen.
const SUBSCRIBED: Plain = (
    4,
    b"b",
    b"\0\0\0\0\0\0\0\0\0\x01",
    b"\0\x01t\x01\0\0\0\0\0\0\0\0",
);

const DOTS: &[u8] = b"\0\0\0\x01\0\0\0\0\0\0\0\0\0\x01\0\0\0\0\0\0\0\x01";

/// That 2^62 - 2 messages were put in the lane to node 0, or taken of the one from there.
const PUT_IN: Plain = (
    8,
    b"\0\0",
    b"",
    b"\x3f\xff\xff\xff\xff\xff\xff\xfe\0\0\0\0\0\0\0\0",
);

const TAKEN_FROM: Plain = (
    8,
    b"\0\0",
    b"",
    b"\0\0\0\0\0\0\0\0\x3f\xff\xff\xff\xff\xff\xff\xfe",
);

/// CONNACKs: of a new session, of one that goes on, and of one whose identifier has the last number.
const ACCEPTED: &[u8] = b"\x20\x0e\0\0\x0b\x21\0\x64\x22\0\x10\x27\0\x10\0\0";

const CONTINUED: &[u8] = b"\x20\x0e\x01\0\x0b\x21\0\x64\x22\0\x10\x27\0\x10\0\0";

const LAST_NAME: &[u8] =
    b"\x20\x2b\0\0\x28\x12\0\x1aauto-1-4611686018427387903\x21\0\x64\x22\0\x10\x27\0\x10\0\0";

/// CONNECT without an identifier.
const NAMELESS: &[u8] = b"\x10\x0d\0\x04MQTT\x05\x02\0\x3c\0\0\0";

/// SUBSCRIBE to `u` at QoS 0, and to `t` at QoS 2; UNSUBSCRIBE from `t`; PUBLISH of `x` to `t` and to `u` at QoS 1, and both with RETAIN.
const TO_U: &[u8] = b"\x82\x07\0\x01\0\0\x01u\0";

const TO_T: &[u8] = b"\x82\x07\0\x01\0\0\x01t\x02";

const FROM_T: &[u8] = b"\xa2\x06\0\x02\0\0\x01t";

const ON_T: &[u8] = b"\x32\x07\0\x01t\0\x07\0x";

const STAYS_AT_T: &[u8] = b"\x33\x07\0\x01t\0\x07\0x";

const STAYS_AT_U: &[u8] = b"\x33\x07\0\x01u\0\x07\0x";

/// What answers these: SUBACK at QoS 0 and 2, and PUBACK.
const GRANTED: &[u8] = b"\x90\x04\0\x01\0\0";

const GRANTED_2: &[u8] = b"\x90\x04\0\x01\0\x02";

const RECEIVED: &[u8] = b"\x40\x02\0\x07";

const CASES: [Case; 8] = [
    Case {
        name: "an operation, of a SUBSCRIBE",
        rows: &[MARK, TAKEN, SEEN],
        taken: &[(1, CONNECT, ACCEPTED), (1, SUBSCRIBE, GRANTED)],
        lacking: (1, TO_U),
    },
    Case {
        name: "an operation, of an UNSUBSCRIBE",
        rows: &[MARK, TAKEN, SEEN],
        taken: &[(1, CONNECT, ACCEPTED), (1, SUBSCRIBE, GRANTED)],
        lacking: (1, FROM_T),
    },
    Case {
        name: "an operation, of a message that stays",
        rows: &[MARK, TAKEN, SEEN],
        taken: &[
            (1, CONNECT, ACCEPTED),
            (1, STAYS_AT_T, RECEIVED),
            (1, ON_T, RECEIVED),
        ],
        lacking: (1, STAYS_AT_T),
    },
    Case {
        name: "a count of what stays",
        rows: &[MARK, CLEARED],
        taken: &[
            (1, CONNECT, ACCEPTED),
            (1, STAYS_AT_T, RECEIVED),
            (1, TO_U, GRANTED),
        ],
        lacking: (1, STAYS_AT_U),
    },
    Case {
        name: "an identifier that the node gives",
        rows: &[NAMED],
        taken: &[(2, NAMELESS, LAST_NAME), (1, CONNECT, ACCEPTED)],
        lacking: (3, NAMELESS),
    },
    Case {
        name: "a place in a queue",
        rows: &[MARK, PLACED],
        taken: &[
            (1, AGAIN, CONTINUED),
            (1, TO_T, GRANTED_2),
            (1, ON_T, b"\x40\x02\0\x07\x32\x07\0\x01t\0\x01\0x"),
        ],
        lacking: (1, ON_T),
    },
    Case {
        name: "an order of release",
        rows: &[MARK, BEGUN, RELEASED],
        taken: &[
            (
                1,
                AGAIN,
                b"\x20\x0e\x01\0\x0b\x21\0\x64\x22\0\x10\x27\0\x10\0\0\x62\x02\0\x01",
            ),
            (1, TO_T, GRANTED_2),
            (
                1,
                b"\x34\x07\0\x01t\0\x07\01",
                b"\x50\x02\0\x07\x34\x07\0\x01t\0\x02\01",
            ),
            (
                1,
                b"\x34\x07\0\x01t\0\x08\02",
                b"\x50\x02\0\x08\x34\x07\0\x01t\0\x03\02",
            ),
            (1, b"\x50\x02\0\x02", b"\x62\x02\0\x02"),
        ],
        lacking: (1, b"\x50\x02\0\x03"),
    },
    Case {
        name: "a message for another node",
        rows: &[
            MARK,
            SUBSCRIBED,
            (6, b"", b"\x01", DOTS),
            (6, b"", b"\x02", DOTS),
            PUT_IN,
        ],
        taken: &[(1, CONNECT, ACCEPTED), (1, ON_T, RECEIVED)],
        lacking: (1, ON_T),
    },
];

/// From node 0 to node 1 under the numbers 2^62 - 1 and 2^62: `x` to `t` at QoS 1 by `a`, for plain subscriptions.
const FORWARD: &[u8] =
    b"\0\0\0\x1f\x04\0\0\0\x01\x3f\xff\xff\xff\xff\xff\xff\xff\x01\0\0\0\x01t\0\0\0\x01x\0\x01\0\0\x01a\0";

const BEYOND: &[u8] =
    b"\0\0\0\x1f\x04\0\0\0\x01\x40\0\0\0\0\0\0\0\x01\0\0\0\x01t\0\0\0\x01x\0\x01\0\0\x01a\0";

/// Node 1 with these rows has started, and three connections are open.
fn begin(rt: &impl Abort, alloc: Global, rows: &[Plain]) -> Keeper<MemoryRows> {
    let mut keeper = opened(rt, alloc, rows_of(rt, alloc, rows), 1);
    assert_eq!(rt; outputs(rt, &mut keeper, EventKind::Started), 0);
    for connection in 1..4 {
        let opened = EventKind::Opened { connection };
        assert_eq!(rt; outputs(rt, &mut keeper, opened), 0);
    }
    keeper
}

/// The packets are taken, and the one that lacks a number stops the node.
fn check(rt: &impl Abort, alloc: Global, case: &Case) {
    let mut keeper = begin(rt, alloc, case.rows);
    for (connection, bytes, answer) in case.taken {
        let packet = piece(rt, alloc, *connection, bytes);
        let found = sent(rt, alloc, &mut keeper, packet);
        assert!(rt; found.as_slice() == *answer, "{}", case.name);
    }
    let (connection, bytes) = case.lacking;
    let found = fault(&mut keeper, piece(rt, alloc, connection, bytes));
    assert!(rt; found == Some(KeeperFault::NumbersAtEnd), "{}", case.name);
    let found = fault(&mut keeper, EventKind::Tick);
    assert!(rt; found == Some(KeeperFault::Stopped));
    drop(keeper);
}

fn check_all(rt: &impl Abort, alloc: Global, cases: &[Case]) {
    for case in cases {
        check(rt, alloc, case);
    }
}

#[test]
fn the_last_number_is_given_and_the_next_one_stops_the_node(rt: HostRuntime) {
    check_all(&rt, rt.alloc(), &CASES);
}

#[test]
fn the_last_message_of_a_lane_is_taken_and_none_has_the_next_number(rt: HostRuntime) {
    let alloc = rt.alloc();
    let mut keeper = begin(&rt, alloc, &[MARK, TAKEN_FROM]);
    for (bytes, given, count) in [(FORWARD, 1, 0), (BEYOND, 0, 1)] {
        let forward = frame(&rt, alloc, bytes);
        assert_eq!(rt; outputs(&rt, &mut keeper, forward), given);
        assert_eq!(rt; keeper.node().counts().bad_frames, count);
    }
    drop(keeper);
}
