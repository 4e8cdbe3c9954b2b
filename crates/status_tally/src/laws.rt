//! Laws of the door.
ghost use Rattle.status_tally.specs.Laws.{ChangesNothing, HeardWasThere, IdleChangesNothing};

use crate::tallied::Tallied;
use broker_sockets::{BridgeHandler, Handler};

/// Whatever calls are made of the door, the handler inside is told just these, and just what it gives out goes out.
pub fn tally_changes_nothing<H: BridgeHandler>()
    ensures { ChangesNothing H.handles H.hears H.settles
        ⟦<Tallied<H> as Handler>⟧.handles ⟦<Tallied<H> as BridgeHandler>⟧.hears ⟦<Tallied<H> as Handler>⟧.settles }
{}

/// A door that doesn't count makes of each event just what the handler inside does.
pub fn idle_door_changes_nothing<H: BridgeHandler>()
    ensures { IdleChangesNothing H.handles H.hears H.settles
        ⟦<Tallied<H> as Handler>⟧.handles ⟦<Tallied<H> as BridgeHandler>⟧.hears ⟦<Tallied<H> as Handler>⟧.settles }
{}

/// A peer is told as heard only where a frame of it came, in one of the calls since nothing was counted.
pub fn heard_was_there<H: BridgeHandler>()
    ensures { HeardWasThere ⟦<Tallied<H> as Handler>⟧.handles ⟦<Tallied<H> as BridgeHandler>⟧.hears ⟦<Tallied<H> as Handler>⟧.settles }
{}
