//! The laws.
ghost use Rattle.law_serving.specs.Opening.{OpeningIsARestart};
ghost use Rattle.law_serving.specs.Reaching.{ServedIsReached};
ghost use Rattle.law_serving.specs.Serving.{ServeIsARun};
ghost use Rattle.law_serving.specs.Stopping.{StoppedServeIsARun};

use broker_sockets::{BridgeHandler, Clock, Handler, Readiness};
use door_bounds::Gauge;
use door_mqtt3::Mqtt3;
use door_tables::Tables;
use node_server::{TalliedNode, ViewedNode, Viewer};
use row_store::RowStore;
use std::io::Write;

/// Whatever turns the program makes over sockets, they are a run of its node in the cluster. What the sockets bring, and the clock, comes to the node in
/// order, as the handlers before it say: with their flags off just as it came. The hub is given what the node gives out, the same way. After each turn all
/// is committed. Where a turn stops with a fault the turns before it are such a run, which goes on until the fault and ends there as in a crash.
pub fn serve_is_a_run<
    S: Readiness,
    R: RowStore,
    F: Tables,
    G: Gauge,
    E: Write,
    W: Viewer<TalliedNode<R, F, G, E>>,
    C: Clock,
>()
    ensures run { ServeIsARun S.accepts S.watches S.connects S.reads S.writes S.finds
        ⟦<Mqtt3<ViewedNode<R, F, G, E, W>> as Handler>⟧.handles
        ⟦<Mqtt3<ViewedNode<R, F, G, E, W>> as BridgeHandler>⟧.hears
        ⟦<Mqtt3<ViewedNode<R, F, G, E, W>> as Handler>⟧.settles
        C.tells R.is_clean R.is_open R.content }
    ensures stopped { StoppedServeIsARun S.accepts S.watches S.connects S.reads S.writes S.finds
        ⟦<Mqtt3<ViewedNode<R, F, G, E, W>> as Handler>⟧.handles
        ⟦<Mqtt3<ViewedNode<R, F, G, E, W>> as BridgeHandler>⟧.hears
        ⟦<Mqtt3<ViewedNode<R, F, G, E, W>> as Handler>⟧.settles
        ⟦<Mqtt3<ViewedNode<R, F, G, E, W>> as Handler>⟧.refuses
        ⟦<Mqtt3<ViewedNode<R, F, G, E, W>> as BridgeHandler>⟧.declines
        ⟦<Mqtt3<ViewedNode<R, F, G, E, W>> as Handler>⟧.stops
        C.tells R.is_clean R.is_open R.content R.may_leave }
{}

/// A node that is served among others, whose frames are all released before they come, is in a world that a run reaches: every law over runs holds of it.
pub fn served_is_reached<R: RowStore>()
    ensures { ServedIsReached R.is_open R.content }
{}

/// A node that is opened from the rows that a crash, a kill or a fault left, with a table of homes that is for as many nodes, is one of a run that is restarted with it,
/// and serves from there.
pub fn opening_is_a_restart<R: RowStore>()
    ensures { OpeningIsARestart R.is_open R.content }
{}
