//! Which frames each event gives out.
ghost use Rattle.law_steps.specs.Frames.{FramesAreOfEvents};
ghost use Rattle.law_steps.specs.Released.{FramesAreGiven};

/// Each event gives out exactly the frames that the bridge's rules name: Linked one Hello; Ship at most one Delta, of what the other node
/// may lack, and then a Forward for each of the first 64 messages that wait; More the same, but of the messages those with numbers above its
/// own, as many as go at once; a frame one Know or one Got, or none; and every other event, and any event before the node has started, none.
pub fn frames_are_of_events()
    ensures { FramesAreOfEvents }
{}

/// Each frame that was released was given out by an act of some step of the run, at the node that it names as its sender.
pub fn released_was_given()
    ensures { FramesAreGiven }
{}
