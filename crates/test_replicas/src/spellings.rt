//! Frames between two nodes, field by field as docs/cluster.md spells them; whole, cut short, and with one
//! byte changed.

use bridge_frames::{BridgeFrame, LinkFault, frame_length};
use std::alloc::Global;
use std::process::Abort;

/// What frames say, and their bytes in hexadecimal.
const FRAMES: [(&str, &str); 14] = [
    (
        "a Hello of nothing",
        "0000001b 07 0000 0001 0001 0000000000000000 0000000000000000 00000000",
    ),
    (
        "a Hello where the messages up to 2 are gone, the one under 3 was taken, and (1, 1) and (1, 2)",
        "0000002d 07 0000 0001 0001 0000000000000002 0000000000000003 00000001 0001 0000000000000001 0000000000000002",
    ),
    ("a Know of no dot", "00000009 03 0001 0000 00000000"),
    (
        "a Know of (1, 1) and (1, 2)",
        "0000001b 03 0000 0001 00000001 0001 0000000000000001 0000000000000002",
    ),
    (
        "a Know of (0, 1) and (1, 1)",
        "0000002d 03 0001 0000 00000002 0000 0000000000000001 0000000000000001 0001 0000000000000001 0000000000000001",
    ),
    (
        "a Delta of the message on to t with RETAIN, by a, as (1, 1)",
        "00000057 06 0001 0000 00000001 0001 0000000000000001 0000000000000001 \
         00000001 0001 0000000000000001 0000000000000001 00000000 00000001 \
         0001 74 0000000000000001 0001 01 0001 74 00000002 6f6e 00 00 01 0001 61 00",
    ),
    (
        "a Delta of no message to t, as (1, 1)",
        "00000047 06 0001 0000 00000001 0001 0000000000000001 0000000000000001 \
         00000001 0001 0000000000000001 0000000000000001 00000000 00000001 \
         0001 74 0000000000000001 0001 00",
    ),
    (
        "a Delta of a subscription of b to t with QoS 1, as (0, 1)",
        "00000052 06 0000 0001 00000001 0000 0000000000000001 0000000000000001 \
         00000001 0000 0000000000000001 0000000000000001 \
         00000001 0000 0000000000000001 0001 62 0001 74 01 00000000 00000000 00000000",
    ),
    (
        "a Delta of a subscription of a to t in place of an older one, as (1, 2)",
        "00000052 06 0001 0000 00000001 0001 0000000000000001 0000000000000002 \
         00000001 0001 0000000000000001 0000000000000002 \
         00000001 0001 0000000000000002 0001 61 0001 74 00 00000000 00000000 00000000",
    ),
    (
        "a Delta of a subscription of a to t under the last version of the table of homes, as (1, 1)",
        "00000052 06 0001 0000 00000001 0001 0000000000000001 0000000000000001 \
         00000001 0001 0000000000000001 0000000000000001 \
         00000001 0001 0000000000000001 0001 61 0001 74 00 00000000 ffffffff 00000000",
    ),
    (
        "a Delta of a subscription, as (1, 1), that was removed, as (0, 1)",
        "0000005d 06 0000 0001 00000002 0000 0000000000000001 0000000000000001 0001 0000000000000001 0000000000000001 \
         00000002 0000 0000000000000001 0000000000000001 0001 0000000000000001 0000000000000001 00000000 00000000",
    ),
    (
        "a Forward under 1 of x to t with QoS 1, by a, for plain subscriptions",
        "0000001f 04 0001 0000 0000000000000001 01 0000 0001 74 00000001 78 00 01 00 0001 61 00",
    ),
    (
        "a Forward under 2 of it with a deadline, for b in $share/g/t",
        "00000036 04 0001 0000 0000000000000002 00 0001 0001 62 000a 2473686172652f672f74 \
         0001 74 00000001 78 00 01 00 0001 61 01 0000000000001770",
    ),
    ("a Got of 1", "0000000d 05 0000 0001 0000000000000001"),
];

fn bytes_of(rt: &impl Abort, alloc: Global, spelled: &str) -> Vec<u8> {
    let mut bytes = Vec::new(alloc);
    for field in spelled.split(' ') {
        let field = hex::decode(alloc, field).expect(rt, "hexadecimal");
        bytes.extend_from_slice(&field).expect(rt, "memory");
    }
    bytes
}

fn is_written(rt: &impl Abort, alloc: Global, frame: BridgeFrame, bytes: &[u8]) -> bool {
    let mut out = Vec::new(alloc);
    frame.write(alloc, &mut out).expect(rt, "a spelling");
    drop(frame);
    out.as_slice() == bytes
}

// Whether the frame that the bytes spell is written as they are.
fn is_read(rt: &impl Abort, alloc: Global, bytes: &[u8]) -> Result<bool, LinkFault> {
    let frame = BridgeFrame::read(alloc, bytes)?;
    Ok(is_written(rt, alloc, frame, bytes))
}

// A Delta of no message to t, as (1, 1), under the kind that Deltas without versions had.
const UNVERSIONED: &str = "00000047 02 0001 0000 00000001 0001 0000000000000001 0000000000000001 \
     00000001 0001 0000000000000001 0000000000000001 00000000 00000001 \
     0001 74 0000000000000001 0001 00";

#[test]
fn kind_2_is_no_frame(rt: HostRuntime) {
    let alloc = rt.alloc();
    let bytes = bytes_of(&rt, alloc, UNVERSIONED);
    assert_eq!(rt; is_read(&rt, alloc, &bytes), Err(LinkFault::BadFrame));
}

// Deltas of no message to t, as (1, 1), with these counts of its stamp, and whether they are frames.
const COUNTS: [(&str, bool); 4] = [
    (
        "00000047 06 0001 0000 00000001 0001 0000000000000001 0000000000000001 \
         00000001 0001 0000000000000001 0000000000000001 00000000 00000001 \
         0001 74 0000000000000001 0001 00",
        true,
    ),
    (
        "00000047 06 0001 0000 00000001 0001 0000000000000001 0000000000000001 \
         00000001 0001 0000000000000001 0000000000000001 00000000 00000001 \
         0001 74 3fffffffffffffff 0001 00",
        true,
    ),
    (
        "00000047 06 0001 0000 00000001 0001 0000000000000001 0000000000000001 \
         00000001 0001 0000000000000001 0000000000000001 00000000 00000001 \
         0001 74 0000000000000000 0001 00",
        false,
    ),
    (
        "00000047 06 0001 0000 00000001 0001 0000000000000001 0000000000000001 \
         00000001 0001 0000000000000001 0000000000000001 00000000 00000001 \
         0001 74 4000000000000000 0001 00",
        false,
    ),
];

#[test]
fn counts_are_from_one_below_the_end(rt: HostRuntime) {
    let alloc = rt.alloc();
    for (spelled, is_frame) in COUNTS {
        let bytes = bytes_of(&rt, alloc, spelled);
        let wanted = if is_frame {
            Ok(true)
        } else {
            Err(LinkFault::BadFrame)
        };
        assert_eq!(rt; is_read(&rt, alloc, &bytes), wanted, "{spelled}");
    }
}

// Deltas of a state of nothing but the dots that were taken, and those that were seen; and whether they are frames.
const DOTS: [(&str, bool); 4] = [
    (
        "00000027 06 0001 0000 00000001 0001 0000000000000001 0000000000000001 00000000 00000000 00000000",
        false,
    ),
    (
        "00000027 06 0001 0000 00000000 00000001 0001 0000000000000001 0000000000000001 00000000 00000000",
        true,
    ),
    (
        "00000039 06 0001 0000 00000001 0001 0000000000000001 0000000000000002 \
         00000001 0001 0000000000000001 0000000000000001 00000000 00000000",
        false,
    ),
    (
        "00000039 06 0001 0000 00000001 0001 0000000000000001 0000000000000002 \
         00000001 0001 0000000000000001 0000000000000003 00000000 00000000",
        true,
    ),
];

#[test]
fn what_was_taken_was_seen(rt: HostRuntime) {
    let alloc = rt.alloc();
    for (spelled, is_frame) in DOTS {
        let bytes = bytes_of(&rt, alloc, spelled);
        let wanted = if is_frame {
            Ok(true)
        } else {
            Err(LinkFault::BadFrame)
        };
        assert_eq!(rt; is_read(&rt, alloc, &bytes), wanted, "{spelled}");
    }
}

// Whether a frame is none while bytes lack, and tells its length by its first four.
fn is_whole_alone(rt: &impl Abort, alloc: Global, bytes: &[u8]) -> bool {
    for end in 0..bytes.len() {
        let cut = &bytes[..end];
        let length = if end < 4 { None } else { Some(bytes.len()) };
        if frame_length(cut) != Ok(length) || is_read(rt, alloc, cut) != Err(LinkFault::BadFrame) {
            return false;
        }
    }
    true
}

// Whether a frame with another byte at a place is none, or one that is written as it is; its first byte may make its length too large.
fn is_told(rt: &impl Abort, alloc: Global, bytes: &[u8], place: usize, byte: u8) -> bool {
    let mut changed = Vec::from_slice(alloc, bytes).expect(rt, "memory");
    if let Some(old) = changed.get_mut(place) {
        *old = byte;
    }
    match is_read(rt, alloc, &changed) {
        Ok(same) => same,
        Err(LinkFault::BadFrame) => true,
        Err(LinkFault::TooLarge) => place == 0,
        Err(LinkFault::NoMemory) => false,
    }
}

// The same for each byte at the place.
fn are_told_at(rt: &impl Abort, alloc: Global, bytes: &[u8], place: usize) -> bool {
    for byte in 0..=255 {
        if !is_told(rt, alloc, bytes, place, byte) {
            return false;
        }
    }
    true
}

// The same at each place.
fn are_told(rt: &impl Abort, alloc: Global, bytes: &[u8]) -> bool {
    for place in 0..bytes.len() {
        if !are_told_at(rt, alloc, bytes, place) {
            return false;
        }
    }
    true
}

#[test]
fn frames_are_read_whole_and_no_others(rt: HostRuntime) {
    let alloc = rt.alloc();
    for (what, spelled) in FRAMES {
        let bytes = bytes_of(&rt, alloc, spelled);
        assert_eq!(rt; is_read(&rt, alloc, &bytes), Ok(true), "{what}");
        assert!(rt; is_whole_alone(&rt, alloc, &bytes), "{what}");
        assert!(rt; are_told(&rt, alloc, &bytes), "{what}");
    }
}
