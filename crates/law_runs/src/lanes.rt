//! The laws of lanes, over every list of steps.
ghost use Rattle.law_runs.specs.Lanes.{CountsWhatItTook, ForwardFrames, GotFrames, HandedAsTaken, JoinsAsTaken, LanesGoOn, TakesInOrder, WaitsPastWhatIsTaken};

/// What a node took of the lane from another one is a beginning of what that put in: each message whole, in order, and once. It stays so.
pub fn lanes_keep_order()
    ensures order { TakesInOrder }
    ensures on { LanesGoOn }
{}

/// What waits for another node is all that was put in past some number that was taken there, by the rows of a node that runs or is down;
/// and they count what it took.
pub fn lanes_lose_nothing()
    ensures waits { WaitsPastWhatIsTaken }
    ensures counts { CountsWhatItTook }
{}

/// A Forward frame has a message under its number, and at least as many messages were taken as a Got frame says.
pub fn frames_tell_lanes()
    ensures forward { ForwardFrames }
    ensures got { GotFrames }
{}

/// A message that is taken of a lane makes exactly its copies and picks.
pub fn handed_as_taken()
    ensures { HandedAsTaken }
{}

/// The copies of a message that is taken of a lane join their sessions directly after that, in the same step and before anything else
/// happens, at the node's moment: each by one call of its client's session, in order.
pub fn joins_as_taken()
    ensures { JoinsAsTaken }
{}
