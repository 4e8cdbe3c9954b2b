//! What is told of losses.

use crate::paper::Paper;
use door_log::{Loss, LossLog};

#[test]
fn losses_are_told_when_they_begin(rt: HostRuntime) {
    let alloc = rt.alloc();
    let mut paper = Paper::new(alloc, false);
    let mut log = LossLog::new(alloc, &mut paper, 2).expect(&rt, "memory");
    for (at, full, bad) in [
        (1_000, 0, 0),
        (2_000, 3, 0),
        (3_000, 5, 1),
        (61_999, 7, 1),
        (62_000, 7, 1),
        (62_001, 7, 1),
        (200_000, 7, 1),
    ] {
        let losses = [(Loss::QueueFull, full), (Loss::BadFrames, bad)];
        assert!(rt; log.tell(at, &losses));
    }
    drop(log);
    let expected: &str =
        "2000 left out queue_full 3\n3000 left out bad_frames 1\n62000 left out queue_full 7\n";
    assert!(rt; paper.text.as_slice() == expected.as_bytes());
    drop(paper);
}
