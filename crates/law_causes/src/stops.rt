//! The numbers at which a node stops.
ghost use Rattle.law_causes.specs.Stops.{StepsHaveNumbers, StopsHaveNumbers};

/// A node that stops with NumbersAtEnd was handed a moment of 2^62 or later, or one of its numbers has come to 2^62: of its operations, of
/// its stamps, of the messages that it has passed on, of the client identifiers that it gives, of a lane, or of a session. Where none of
/// them has, it doesn't stop so. It speaks of each step of a node, whatever the node holds.
pub fn stops_have_numbers()
    ensures { StopsHaveNumbers }
{}

/// No step does an act whose number would be 2^62 or more: a moment, the number of an operation, the count of a stamp, the turn of a
/// message that is passed on, the number of a client identifier that is given or of a message that joins a lane, a place in a session's
/// queue, an order of release. So where an event needs one of these that can't be had, it isn't done: the node stops at its numbers, or
/// for want of memory. It speaks of each step of a node, whatever the node holds.
pub fn steps_have_numbers()
    ensures { StepsHaveNumbers }
{}
