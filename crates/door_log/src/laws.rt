//! Laws of a door.
ghost use Rattle.door_log.specs.Laws.{LogChangesNothing, NoLogChangesNothing, NoLogNoFaults};

use crate::logged::Logged;
use broker_sockets::{BridgeHandler, Handler};
use std::io::Write;

/// With a log or without, each call of a door is that call of the handler inside; and without one a door makes of each event just what the
/// handler inside does.
pub fn log_changes_nothing<H: BridgeHandler, W: Write>()
    ensures calls { LogChangesNothing H.handles H.hears H.settles
        ⟦<Logged<H, W> as Handler>⟧.handles ⟦<Logged<H, W> as BridgeHandler>⟧.hears ⟦<Logged<H, W> as Handler>⟧.settles }
    ensures silent { NoLogChangesNothing H.handles H.hears H.settles
        ⟦<Logged<H, W> as Handler>⟧.handles ⟦<Logged<H, W> as BridgeHandler>⟧.hears ⟦<Logged<H, W> as Handler>⟧.settles }
    ensures faults { NoLogNoFaults H.refuses H.declines H.stops
        ⟦<Logged<H, W> as Handler>⟧.refuses ⟦<Logged<H, W> as BridgeHandler>⟧.declines ⟦<Logged<H, W> as Handler>⟧.stops }
{}
