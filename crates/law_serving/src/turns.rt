//! The laws.
ghost use Rattle.law_serving.specs.Flows.{StreamsTakeWhatIsGiven};
ghost use Rattle.law_serving.specs.Traces.{ServingIsATrace, TurnIsATrace};

use broker_sockets::{BridgeHandler, Clock, Readiness};

/// A turn is what passes at the two doors of a hub, in order. The handler is told just what the sockets bring, each thing once, in the order in which
/// they bring it; and each stream is offered just what the handler gives out for it.
pub fn turn_is_a_trace<S: Readiness, H: BridgeHandler>()
    ensures { TurnIsATrace S.accepts S.watches S.connects S.reads S.writes S.finds H.handles H.hears H.settles }
{}

/// So are turns one after another, after the start, each at the moment that the clock tells.
pub fn serving_is_a_trace<S: Readiness, H: BridgeHandler, C: Clock>()
    ensures { ServingIsATrace S.accepts S.watches S.connects S.reads S.writes S.finds H.handles H.hears H.settles C C.tells }
{}

/// Over any calls in which a stream stays open, what it takes, and then what waits for it, is what waited, and then all that was given out for it
/// until the handler closed it: whole, once, and in order.
pub fn streams_take_what_is_given<T>()
    ensures { StreamsTakeWhatIsGiven T }
{}
