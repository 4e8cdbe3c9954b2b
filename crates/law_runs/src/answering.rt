//! What is answered to a PUBLISH with RETAIN.
ghost use Rattle.law_runs.specs.Rooms.{PassedHasRoom, QuotaIsExact, RoomIsExact};

/// PUBACK 0x97 and PUBREC 0x97 answer only a message with RETAIN for a new topic where the node holds 100,000, and such a message is
/// never passed on: where nothing before it in the order applies, it is answered so. With each PUBLISH, at QoS 0 too, its session is told
/// just whether there is room for its topic: its own, or the one that its alias stands for on the connection.
pub fn quota_is_exact()
    ensures quota { QuotaIsExact }
    ensures room { PassedHasRoom }
    ensures exact { RoomIsExact }
{}
