//! Laws of turns.
ghost use Rattle.broker_turns.specs.Clients.{AreMinded};
ghost use Rattle.broker_turns.specs.Handling.{TurnSettles};
ghost use Rattle.broker_turns.specs.Order.{NoFrameIsLost, NothingIsLost, NothingIsToldEarly};
ghost use Rattle.broker_turns.specs.Pacing.{GrowsBack, ShrinksFast};
ghost use Rattle.broker_turns.specs.Rooms.{EveryoneIsTold, RoomFollowsOpened};

use crate::hub::Hub;
use broker_sockets::{BridgeHandler, Readiness};

/// Over a turn, whatever a client's stream takes and whatever the handler sends, what the stream has taken, followed
/// by what waits for it, begins with what it was before: nothing that waits is lost, repeated or moved while the
/// client is there.
pub fn nothing_is_lost<S: Readiness, H: BridgeHandler>()
    ensures { NothingIsLost S.accepts S.watches S.connects S.reads S.writes S.finds H.handles H.hears H.settles }
{}

/// The same of a link to a peer that is there after a turn: it was there before, and has lost nothing, or it was dialled in
/// the turn.
pub fn no_frame_is_lost<S: Readiness, H: BridgeHandler>()
    ensures { NoFrameIsLost S.accepts S.watches S.connects S.reads S.writes S.finds H.handles H.hears H.settles }
{}

/// Whoever is written to in a turn, client or peer, the handler has settled since it was last told of anything.
pub fn nothing_is_told_early<S: Readiness, H: BridgeHandler>()
    ensures { NothingIsToldEarly S.accepts S.watches S.connects S.reads S.writes S.finds H.handles H.hears H.settles }
{}

/// In a turn the handler is told all that came and was due, and settles; and then, of one client after another that is lost while it is
/// written to, it is told, and settles.
pub fn turn_settles<S: Readiness, H: BridgeHandler>()
    ensures { TurnSettles S.accepts S.watches S.connects S.reads S.writes S.finds H.handles H.hears H.settles }
{}

/// In a turn the handler is told of a client that is there, and next how much its connection takes, before all else that comes on it; unless it
/// closed the connection then, or gave 262,144 bytes for it. It is never told fewer than 786,433 bytes, nor more than 1,048,576.
pub fn room_follows_opened<S: Readiness, H: BridgeHandler>()
    ensures { RoomFollowsOpened S.accepts S.watches S.connects S.reads S.writes S.finds H.handles H.hears H.settles }
{}

/// Whoever takes more than the handler was told, of that one it is told how much in each turn, unless it has closed the connection by then, or
/// given so much for it that 262,144 bytes wait.
pub fn everyone_is_told<S: Readiness, H: BridgeHandler>()
    ensures { EveryoneIsTold S.accepts S.watches S.connects S.reads S.writes S.finds H.handles H.hears H.settles }
{}

/// Whatever turns a hub has made, a client for which 262,144 bytes wait isn't forgotten: the handler is told again how much it takes, once it
/// takes more.
pub fn nobody_is_forgotten<L: Drop, T: Drop>(_hub: &Hub<L, T>)
    ensures { AreMinded _hub.now.clients.slab }
{}

/// What a turn reads from a client's socket at most grows back to 65,536 bytes after turns of up to 100 milliseconds, by 512 with each, and after
/// seven longer ones it is 512.
pub fn reading_follows_the_turns()
    ensures grows { GrowsBack }
    ensures shrinks { ShrinksFast }
{}
