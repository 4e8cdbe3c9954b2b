//! Laws of a handler with limits.
ghost use Rattle.door_bounds.specs.Answers.{RefusalsAreTold};
ghost use Rattle.door_bounds.specs.Laws.{AllGoOn, NoLimitsChangeNothing, NoLimitsNoFaults, OnlyWithinIsTold};

use crate::Gauge;
use crate::bounded::Bounded;
use broker_sockets::{BridgeHandler, Handler};

/// Without limits each event comes to just what the handler inside makes of it.
pub fn no_limits_change_nothing<H: BridgeHandler, G: Gauge>()
    ensures calls { NoLimitsChangeNothing H.handles H.hears H.settles
        ⟦<Bounded<H, G> as Handler>⟧.handles ⟦<Bounded<H, G> as BridgeHandler>⟧.hears ⟦<Bounded<H, G> as Handler>⟧.settles }
    ensures faults { NoLimitsNoFaults H.refuses H.declines H.stops
        ⟦<Bounded<H, G> as Handler>⟧.refuses ⟦<Bounded<H, G> as BridgeHandler>⟧.declines ⟦<Bounded<H, G> as Handler>⟧.stops }
{}

/// Whatever calls are made of a handler with limits, each of them is calls of the handler inside, of whose packets none breaks a limit; while too
/// much is held there is no PUBLISH among these packets, and no SUBSCRIBE.
pub fn only_within_is_told<H: BridgeHandler, G: Gauge>()
    ensures { OnlyWithinIsTold H.handles H.hears H.settles
        ⟦<Bounded<H, G> as Handler>⟧.handles ⟦<Bounded<H, G> as BridgeHandler>⟧.hears ⟦<Bounded<H, G> as Handler>⟧.settles }
{}

/// Packets that come and break no limit go on as they came and in their order, and nothing is answered in their place.
pub fn all_go_on()
    ensures { AllGoOn }
{}

/// Whatever calls were made of a handler with limits before: each packet of a client that is refused has its answer, in their order, unless the
/// connection was closed; a client that connects while too much is held is closed; and whether too much is held is seen at each tick.
pub fn refusals_are_told<H: BridgeHandler, G: Gauge>()
    ensures { RefusalsAreTold
        ⟦<Bounded<H, G> as Handler>⟧.handles ⟦<Bounded<H, G> as BridgeHandler>⟧.hears ⟦<Bounded<H, G> as Handler>⟧.settles }
{}
