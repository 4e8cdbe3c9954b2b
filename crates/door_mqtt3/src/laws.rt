//! Laws of the handler that wraps another one.
ghost use Rattle.door_mqtt3.specs.Laws.{EachIsFollowed, OffChangesNothing, OffNoFaults};

use crate::handler::Mqtt3;
use broker_sockets::{BridgeHandler, Handler};

/// Without translation each event comes to just what the handler inside makes of it.
pub fn off_changes_nothing<H: BridgeHandler>()
    ensures calls { OffChangesNothing H.handles H.hears H.settles
        ⟦<Mqtt3<H> as Handler>⟧.handles ⟦<Mqtt3<H> as BridgeHandler>⟧.hears ⟦<Mqtt3<H> as Handler>⟧.settles }
    ensures faults { OffNoFaults H.refuses H.declines H.stops
        ⟦<Mqtt3<H> as Handler>⟧.refuses ⟦<Mqtt3<H> as BridgeHandler>⟧.declines ⟦<Mqtt3<H> as Handler>⟧.stops }
{}

/// Whatever calls are made of a handler that translates, of each connection the handler inside is told what came on it, translated, and what
/// goes out is what the handler inside gave for it, translated.
pub fn each_connection_is_followed<H: BridgeHandler>()
    ensures { EachIsFollowed H.handles H.hears H.settles
        ⟦<Mqtt3<H> as Handler>⟧.handles ⟦<Mqtt3<H> as BridgeHandler>⟧.hears ⟦<Mqtt3<H> as Handler>⟧.settles }
{}
