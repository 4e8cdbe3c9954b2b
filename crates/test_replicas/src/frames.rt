//! Worked examples of docs/cluster.md.

use bridge_frames::{BridgeFrame, Forward, FrameBody, LinkFault, frame_length};
use causal_context::{Context, Dot};
use std::alloc::Global;
use std::process::Abort;

/// A Hello of node 0 for node 1: the messages up to 2 are gone, the one under 3 was taken, and the dots (1, 1) and (1, 2).
const HELLO: [u8; 49] = [
    0, 0, 0, 45, 7, 0, 0, 0, 1, 0, 1, 0, 0, 0, 0, 0, 0, 0, 2, 0, 0, 0, 0, 0, 0, 0, 3, 0, 0, 0, 1,
    0, 1, 0, 0, 0, 0, 0, 0, 0, 1, 0, 0, 0, 0, 0, 0, 0, 2,
];

/// A message under number 1 from node 1 to node 0, for plain subscriptions and for `a` in `$share/g/t`: `x` under `t`, by `a`,
/// at QoS 1.
const FORWARD: [u8; 50] = [
    0, 0, 0, 46, 4, 0, 1, 0, 0, 0, 0, 0, 0, 0, 0, 0, 1, 1, 0, 1, 0, 1, 97, 0, 10, 36, 115, 104, 97,
    114, 101, 47, 103, 47, 116, 0, 1, 116, 0, 0, 0, 1, 120, 0, 1, 0, 0, 1, 97, 0,
];

#[test]
fn lengths(rt: HostRuntime) {
    let rows: [(&[u8], Result<Option<usize>, LinkFault>); 4] = [
        (&[0, 0, 0, 5], Ok(Some(9))),
        (&[0x10, 0, 0, 0], Ok(Some(268_435_460))),
        (&[0x10, 0, 0, 1], Err(LinkFault::TooLarge)),
        (&[0, 0, 0], Ok(None)),
    ];
    for (bytes, want) in rows {
        assert_eq!(rt; frame_length(bytes), want, "{bytes:?}");
    }
}

fn written(rt: &impl Abort, alloc: Global, frame: &BridgeFrame) -> Vec<u8> {
    let mut out = Vec::new(alloc);
    frame.write(alloc, &mut out).expect(rt, "a spelling");
    out
}

fn read(rt: &impl Abort, alloc: Global, bytes: &[u8]) -> BridgeFrame {
    BridgeFrame::read(alloc, bytes).expect(rt, "a frame")
}

/// Why the bytes can't be read, if they can't.
fn fault_of(alloc: Global, bytes: &[u8]) -> Option<LinkFault> {
    match BridgeFrame::read(alloc, bytes) {
        Ok(frame) => {
            drop(frame);
            None
        }
        Err(fault) => Some(fault),
    }
}

fn is_bad(alloc: Global, bytes: &[u8]) -> bool {
    fault_of(alloc, bytes) == Some(LinkFault::BadFrame)
}

#[test]
fn long_lengths_are_too_large(rt: HostRuntime) {
    let alloc = rt.alloc();
    let rows: [(&[u8], LinkFault); 3] = [
        (&[0x10, 0, 0, 1], LinkFault::TooLarge),
        (&[0xff, 0xff, 0xff, 0xff, 1], LinkFault::TooLarge),
        (&[0x10, 0, 0, 0], LinkFault::BadFrame),
    ];
    for (bytes, want) in rows {
        assert!(rt; fault_of(alloc, bytes) == Some(want), "{bytes:?}");
    }
}

// Got of the number 2^62 - 1 is read, and written alike; Got of 2^62 is no frame.
#[test]
fn got_is_below_the_end(rt: HostRuntime) {
    let alloc = rt.alloc();
    let bytes = [
        0, 0, 0, 13, 5, 0, 1, 0, 0, 63, 255, 255, 255, 255, 255, 255, 255,
    ];
    let frame = read(&rt, alloc, &bytes);
    let copy = frame.copy(alloc).expect(&rt, "memory");
    assert!(rt; written(&rt, alloc, &copy).as_slice() == bytes.as_slice());
    let end = [0, 0, 0, 13, 5, 0, 1, 0, 0, 64, 0, 0, 0, 0, 0, 0, 0];
    assert!(rt; is_bad(alloc, &end));
    drop((frame, copy));
}

/// Whether the dot of node 1 with this number is there.
fn has(dots: &Context, number: u64) -> bool {
    Dot::new(1, number).is_some_and(|dot| dots.contains(dot))
}

fn is_hello(frame: &BridgeFrame) -> bool {
    let FrameBody::Hello(greeting) = &frame.body else {
        return false;
    };
    let numbers = (greeting.gone.get(), greeting.took.get());
    let dots = has(&greeting.dots, 2) && !has(&greeting.dots, 3);
    frame.from == 0 && frame.to == 1 && numbers == (2, 3) && dots
}

#[test]
fn hello_both_ways(rt: HostRuntime) {
    let alloc = rt.alloc();
    let read = read(&rt, alloc, &HELLO);
    assert!(rt; is_hello(&read));
    let copy = read.copy(alloc).expect(&rt, "memory");
    assert!(rt; written(&rt, alloc, &copy).as_slice() == HELLO.as_slice());
    assert!(rt; is_bad(alloc, &HELLO[..48]));
    // in another format, and of the kind that Hello had without a body
    let mut other = HELLO;
    other[10] = 2;
    assert!(rt; is_bad(alloc, &other));
    assert!(rt; is_bad(alloc, &[0, 0, 0, 5, 1, 0, 0, 0, 1]));
    drop((read, copy));
}

/// The number and the message of a Forward.
fn forward_in(frame: &BridgeFrame) -> Option<(u64, &Forward)> {
    match &frame.body {
        FrameBody::Forward(number, forward) => Some((number.get(), forward)),
        _ => None,
    }
}

fn is_the_forward(forward: &Forward) -> bool {
    let [pick] = forward.picks.as_slice() else {
        return false;
    };
    forward.plain
        && forward.message.message().topic.as_str() == "t"
        && pick.client.as_str() == "a"
        && pick.filter.as_filter().as_str() == "$share/g/t"
}

#[test]
fn forward_both_ways(rt: HostRuntime) {
    let alloc = rt.alloc();
    let frame = read(&rt, alloc, &FORWARD);
    assert!(rt; written(&rt, alloc, &frame).as_slice() == FORWARD.as_slice());
    let (number, forward) = forward_in(&frame).expect(&rt, "a message");
    let copy = forward.copy(alloc).expect(&rt, "memory");
    assert!(rt; number == 1 && is_the_forward(&copy));
    drop(copy);
    drop(frame);
}

#[test]
fn numbers_are_from_one_below_the_end(rt: HostRuntime) {
    let mut none = FORWARD;
    none[16] = 0;
    assert!(rt; is_bad(rt.alloc(), &none));
    let mut end = FORWARD;
    end[9] = 64;
    assert!(rt; is_bad(rt.alloc(), &end));
}

// A pick of `share/g/t`, or of `a$hare/g/t`, is of no shared subscription.
#[test]
fn picks_are_of_shared_filters(rt: HostRuntime) {
    let mut plain = FORWARD;
    plain[25] = 97;
    assert!(rt; is_bad(rt.alloc(), &plain));
    let mut other = FORWARD;
    other[26] = 83;
    assert!(rt; is_bad(rt.alloc(), &other));
    let shared = read(&rt, rt.alloc(), &FORWARD);
    drop(shared);
}

#[test]
fn faults_by_name(rt: HostRuntime) {
    let alloc = rt.alloc();
    let names = format!(in alloc;
        "{} {} {}",
        LinkFault::BadFrame,
        LinkFault::TooLarge,
        LinkFault::NoMemory
    )
    .expect(&rt, "memory");
    assert!(rt; names.as_str() == "BadFrame TooLarge NoMemory");
}
