//! Laws of a door.
ghost use Rattle.door_limits.specs.Laws.{LimitsHold, NoLimitsChangeNothing, NoLimitsNoFaults};

use crate::limited::Limited;
use broker_sockets::{BridgeHandler, Handler};

/// Whatever calls are made of a door, of the clients that the handler inside is told of no more are connected at a time than the limit.
pub fn limits_hold<H: BridgeHandler>()
    ensures { LimitsHold H.handles H.hears H.settles
        ⟦<Limited<H> as Handler>⟧.handles ⟦<Limited<H> as BridgeHandler>⟧.hears ⟦<Limited<H> as Handler>⟧.settles }
{}

/// Without limits a door makes of each event just what the handler inside does.
pub fn no_limits_change_nothing<H: BridgeHandler>()
    ensures calls { NoLimitsChangeNothing H.handles H.hears H.settles
        ⟦<Limited<H> as Handler>⟧.handles ⟦<Limited<H> as BridgeHandler>⟧.hears ⟦<Limited<H> as Handler>⟧.settles }
    ensures faults { NoLimitsNoFaults H.refuses H.declines H.stops
        ⟦<Limited<H> as Handler>⟧.refuses ⟦<Limited<H> as BridgeHandler>⟧.declines ⟦<Limited<H> as Handler>⟧.stops }
{}
