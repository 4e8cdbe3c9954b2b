//! The laws.
ghost use Rattle.law_doors.specs.Asking.{OthersAskForThemselves, SessionsAreAskedFor, SessionsAreBounded};
ghost use Rattle.law_doors.specs.Bounds.{BoundsOff, BoundsTell};
ghost use Rattle.law_doors.specs.Fives.{FivesGoThrough};
ghost use Rattle.law_doors.specs.Guards.{GuardsFollow, GuardsOff, GuardsStop, GuardsTell};
ghost use Rattle.law_doors.specs.Levels.{LevelsFollow, LevelsOff, LevelsTell};
ghost use Rattle.law_doors.specs.Limits.{LimitsOff, LimitsTell};
ghost use Rattle.law_doors.specs.Pieces.{AnyPieces};
ghost use Rattle.law_doors.specs.Refusing.{RefusalsAreOfPackets};
ghost use Rattle.law_doors.specs.Telling.{ConnacksAreTrue, GrantsAreTrue, PubacksAreTrue, PubcompsAreTrue, PubrecsAreTrue, SentIsWritten};
ghost use Rattle.law_doors.specs.Turns.{HeldBackInOrder, RoomIsUsed};
ghost use Rattle.door_packets.specs.Rights.{Rights};

use broker_sockets::{BridgeHandler, Handler};
use door_bounds::{Bounded, Gauge};
use door_guard::Guarded;
use door_limits::Limited;
use door_mqtt3::Mqtt3;
use door_packets::Access;

/// Whatever calls are made of a handler with limits on clients, they are these calls of the handler inside: each event, but those of a client that found no
/// room, and that a client is gone that waited too long. What goes out is what the handler inside gave out, and the closes of these two.
pub fn limits_tell<H: BridgeHandler>()
    ensures tells { LimitsTell H.handles H.hears H.settles
        ⟦<Limited<H> as Handler>⟧.handles ⟦<Limited<H> as BridgeHandler>⟧.hears ⟦<Limited<H> as Handler>⟧.settles }
    ensures off { LimitsOff }
{}

/// Whatever calls are made of a handler with limits on what clients send, they are these calls of the handler inside: each event, where bytes that come are
/// those of packets that break no limit, and packets that break one are answered in its place.
pub fn bounds_tell<H: BridgeHandler, G: Gauge>()
    ensures tells { BoundsTell H.handles H.hears H.settles
        ⟦<Bounded<H, G> as Handler>⟧.handles ⟦<Bounded<H, G> as BridgeHandler>⟧.hears ⟦<Bounded<H, G> as Handler>⟧.settles }
    ensures off { BoundsOff }
{}

/// Whatever calls are made of a handler with users, or without, they are these calls of the handler inside: each event, where of a client nothing comes before it
/// is let in, and then those packets alone that its user may send. Of each connection it is told that, in order, and what goes out is what it gave, as far as
/// the user may read that, and what answers the rest. Its counts are those of what was refused on these connections, and none without users. Where it stops with
/// a fault of the handler inside, that stopped so.
pub fn guards_tell<H: BridgeHandler, A: Access>()
    ensures tells { GuardsTell A.rights H.handles H.hears H.settles
        ⟦<Guarded<H, A> as Handler>⟧.handles ⟦<Guarded<H, A> as BridgeHandler>⟧.hears ⟦<Guarded<H, A> as Handler>⟧.settles }
    ensures follow { GuardsFollow A.rights }
    ensures off { GuardsOff A.rights }
    ensures stop { GuardsStop H.handles H.hears H.settles H.refuses H.declines H.stops
        ⟦<Guarded<H, A> as Handler>⟧.handles ⟦<Guarded<H, A> as BridgeHandler>⟧.hears ⟦<Guarded<H, A> as Handler>⟧.settles
        ⟦<Guarded<H, A> as Handler>⟧.refuses ⟦<Guarded<H, A> as BridgeHandler>⟧.declines ⟦<Guarded<H, A> as Handler>⟧.stops }
{}

/// What is counted for a packet of a client that was let in is one PUBLISH that it may not send, and each filter of a SUBSCRIBE to which it may not
/// subscribe.
pub fn refusals_are_of_packets()
    ensures { (r : Rights) → RefusalsAreOfPackets r }
{}

/// Whatever calls are made of a handler that translates, or doesn't, they are these calls of the handler inside: each event, where bytes of a client of a
/// version before 5 are its packets in MQTT 5.0. Of each connection it is told what came on it, translated, and what goes out is what it gave, translated.
pub fn levels_tell<H: BridgeHandler>()
    ensures tells { LevelsTell H.handles H.hears H.settles
        ⟦<Mqtt3<H> as Handler>⟧.handles ⟦<Mqtt3<H> as BridgeHandler>⟧.hears ⟦<Mqtt3<H> as Handler>⟧.settles }
    ensures follow { LevelsFollow }
    ensures off { LevelsOff }
{}

/// In whatever pieces the bytes of a client come, up to what ends its connection, the handler inside is told the same, and the same is known of the client.
pub fn any_pieces()
    ensures { AnyPieces }
{}

/// Whatever happens on a connection, the handler inside is told each packet of its client once. Those that overtake come in their order, and so do the
/// others, of which the last may be held back; while there is room none is.
pub fn held_back_comes_in_order()
    ensures order { HeldBackInOrder }
    ensures room { RoomIsUsed }
{}

/// A session with Clean Session 0 goes on and lasts without end, or as long as a limit says, one with Clean Session 1 is new and ends with its connection,
/// and the will, the name and the password are the client's. Packets other than CONNECT of a client that is no bridge ask for what they are.
pub fn sessions_are_asked_for()
    ensures asked { SessionsAreAskedFor }
    ensures bounded { SessionsAreBounded }
    ensures others { OthersAskForThemselves }
{}

/// What is sent to a client is what the handler inside gave for it, each packet written for its level, in order, up to one that can't be told.
pub fn sent_is_written()
    ensures { SentIsWritten }
{}

/// CONNACK with return code 0, PUBACK, PUBREC and PUBCOMP tell a client only what the handler inside gave, and no failure; a QoS that SUBACK grants is the
/// one that was granted.
pub fn acknowledgements_are_true()
    ensures connack { ConnacksAreTrue }
    ensures puback { PubacksAreTrue }
    ensures pubrec { PubrecsAreTrue }
    ensures pubcomp { PubcompsAreTrue }
    ensures suback { GrantsAreTrue }
{}

/// Behind a handler that translates, a client of MQTT 5.0 goes through byte for byte: whatever calls are made, the handler inside is told each byte that came of
/// it, in order, and no other, and what goes out is what the handler inside gave for it.
pub fn fives_go_through<H: BridgeHandler>()
    ensures { FivesGoThrough H.handles H.hears H.settles
        ⟦<Mqtt3<H> as Handler>⟧.handles ⟦<Mqtt3<H> as BridgeHandler>⟧.hears ⟦<Mqtt3<H> as Handler>⟧.settles }
{}
