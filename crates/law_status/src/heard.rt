//! The laws.
ghost use Rattle.law_status.specs.Hearing.{HeadsAreOfFrames};

/// What the door reads in the head of a frame is so of the frame: who sends it, and whether it is a Know or a Delta.
pub fn heads_are_of_frames()
    ensures { HeadsAreOfFrames }
{}
