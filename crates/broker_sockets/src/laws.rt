//! Laws of a steady clock, over any calls of it.
ghost use Rattle.broker_sockets.specs.Steady.{BeginsWithTheSystem, CatchesUp, ComesUp, GoesOn, HoldsOverCalls, IsNotAhead, IsNotFast, IsNotLater, Rises};

use crate::steady::Clocks;

/// Its moments begin with the system's, and never fall.
pub fn steady_clock_never_falls<C: Clocks>()
    ensures begins { BeginsWithTheSystem C.reads }
    ensures rises { HoldsOverCalls C.reads Rises }
{}

/// From one call to a later one they go on by at most five quarters of the time that counts, of each pause at most a second.
pub fn steady_clock_goes_evenly<C: Clocks>()
    ensures { HoldsOverCalls C.reads IsNotFast }
{}

/// They follow the system's clock. While that isn't set back no moment is ahead of it, and one that was ahead isn't any more once the system's
/// clock has come up to it. While it goes along with the monotonic clock a lag shrinks by a quarter of the time that passes, until the moments
/// are the system's.
pub fn steady_clock_follows_the_system<C: Clocks>()
    ensures behind { HoldsOverCalls C.reads IsNotAhead }
    ensures comes_up { ComesUp C.reads }
    ensures catches_up { HoldsOverCalls C.reads CatchesUp }
{}

/// While the system's clock is behind, since it was set back, moments go on as fast as the monotonic clock. And they are never later than what the
/// system's clock once told, with the time that counts since.
pub fn steady_clock_goes_on_where_set_back<C: Clocks>()
    ensures goes_on { HoldsOverCalls C.reads GoesOn }
    ensures later { HoldsOverCalls C.reads IsNotLater }
{}
