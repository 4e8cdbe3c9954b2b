//! Laws of what is sent to a peer. Each function does nothing: its contract is the law.
ghost use Rattle.bridge_deltas.specs.Laws.{MoreFollows, MoreGoesOn, ShippedIsOne, ShippedIsEnough};

/// One state is sent of a store, by what the peer is known to have taken, and it has each dot that the peer may lack.
pub fn shipped_is_enough()
    ensures one { ShippedIsOne }
    ensures enough { ShippedIsEnough }
{}

/// The frames after a number have the messages that wait under the numbers right after it, in order and each once, or else those after the last
/// one that is gone; and while a message waits behind it there is one.
pub fn more_follows()
    ensures follows { MoreFollows }
    ensures goes_on { MoreGoesOn }
{}
