//! What a node has left out, as what a log tells of.

ghost use Rattle.std.specs.Prelude.{◌≡◌};
ghost use Rattle.node_server.specs.Losses.{losses_of};

use door_log::Loss;
use node_work::Counts;

/// Each count, with what it counts.
pub(crate) fn losses_of(counts: &Counts) -> [(Loss, u64); 6]
    ensures { result ≡ losses_of counts.now }
{
    [
        (Loss::QueueFull, counts.queue_full),
        (Loss::RetainedFull, counts.retained_full),
        (Loss::PicksLost, counts.picks_lost),
        (Loss::LaneFull, counts.lane_full),
        (Loss::BadFrames, counts.bad_frames),
        (Loss::FramesTooLarge, counts.frames_too_large),
    ]
}
