//! What is answered to the first CONNECT of a connection, and what comes of its room.
ghost use Rattle.law_runs.specs.ConnectionRooms.{RoomIsTold};
ghost use Rattle.law_runs.specs.Connects.{FirstConnectIsAnswered};

/// In each step of a node that has started, whatever it holds, to which a piece comes: after what is due, the first CONNECT of a connection is
/// refused with the first of 0x8C, 0x85, 0x9C and 0x90 that applies, by one CONNACK that fits and a close; or its client is accepted. Before
/// that an older connection of it gets 0x8E and is closed, and with Clean Start its session ends, and nothing else is done. The session is
/// continued where one is left, and gives CONNACK 0x00 first, with Session Present exactly then, unless that is too long.
pub fn first_connect_is_answered()
    ensures { FirstConnectIsAnswered }
{}

/// In each step of a node that has started, whatever it holds, where nothing is due and a connection is told its room: an open connection
/// without a client keeps it, the session of its client is called with it once, and nothing else is done.
pub fn room_is_told()
    ensures { RoomIsTold }
{}
