//! Laws of a handler that guards.
ghost use Rattle.door_guard.specs.Laws.{EachIsFollowed, NoUsersChangeNothing, NoUsersNoFaults, OnlyTheirs};
ghost use Rattle.door_packets.specs.Rights.{Rights};

use crate::guarded::Guarded;
use broker_sockets::{BridgeHandler, Handler};
use door_packets::Access;

/// Without users each event comes to just what the handler inside makes of it.
pub fn no_users_change_nothing<H: BridgeHandler, A: Access>()
    ensures calls { NoUsersChangeNothing H.handles H.hears H.settles
        ⟦<Guarded<H, A> as Handler>⟧.handles ⟦<Guarded<H, A> as BridgeHandler>⟧.hears ⟦<Guarded<H, A> as Handler>⟧.settles }
    ensures faults { NoUsersNoFaults H.refuses H.declines H.stops
        ⟦<Guarded<H, A> as Handler>⟧.refuses ⟦<Guarded<H, A> as BridgeHandler>⟧.declines ⟦<Guarded<H, A> as Handler>⟧.stops }
{}

/// Whatever calls are made of a handler with users, each connection goes through what may happen on one: of each it is determined what the handler inside
/// is told, and what goes out.
pub fn each_connection_is_followed<H: BridgeHandler, A: Access>()
    ensures { EachIsFollowed H.handles H.hears H.settles A.rights
        ⟦<Guarded<H, A> as Handler>⟧.handles ⟦<Guarded<H, A> as BridgeHandler>⟧.hears ⟦<Guarded<H, A> as Handler>⟧.settles }
{}

/// Whatever happens on a connection, nobody is let in who isn't admitted, the handler inside is told of no packet that this user may not send, and no
/// message goes out that it may not read. Who was let in stays that.
pub fn only_theirs()
    ensures { (r : Rights) → OnlyTheirs r }
{}
