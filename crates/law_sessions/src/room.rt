//! Room for PUBLISHes at QoS 1 and 2.
ghost use Rattle.law_sessions.specs.Room.{KeepsLeft, KeepsRest, KeepsRoom, KeepsUntold, KeepsWaiting};

/// Where room is counted, the PUBLISHes at QoS 1 and 2 that are sent from when it was given on take together less than was given, the
/// last one aside. A session holds what was given less what they took. Where none is left an event sends no such PUBLISH.
pub fn room_is_kept()
    ensures sent { KeepsRoom }
    ensures left { KeepsLeft }
    ensures waits { KeepsWaiting }
{}

/// A connection that was never told a room is not counted.
pub fn untold_room_is_not_counted()
    ensures { KeepsUntold }
{}

/// Room changes nothing else of a session, and brings PUBLISHes alone.
pub fn room_only_sends()
    ensures { KeepsRest }
{}
