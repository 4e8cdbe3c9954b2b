//! What a turn tells a handler, and what the handler gives out.
use std::alloc::Global;

/// Something that happens, at a moment in milliseconds.
#[derive(Debug, Drop)]
pub struct Event {
    pub at: u64,
    pub kind: EventKind,
}

/// What happens.
#[derive(Debug, Drop)]
pub enum EventKind {
    /// A node has started, which comes before all else.
    Started,
    /// A client has connected.
    Opened { connection: u64 },
    /// Bytes came on a connection, from 1 to 65,536.
    Piece { connection: u64, bytes: Vec<u8> },
    /// A connection takes so many bytes of PUBLISHes from now on, which replaces what was left before.
    Room { connection: u64, bytes: u64 },
    /// A connection that was open is gone.
    Closed { connection: u64 },
    /// Time has passed.
    Tick,
}

/// One thing that a handler gives out.
#[derive(Debug, Drop)]
pub enum Output {
    /// Bytes to a client.
    Send { connection: u64, bytes: Vec<u8> },
    /// The end of a connection, once all bytes that were sent on it are written.
    Close { connection: u64 },
}

/// What stands behind the sockets, as a node. It decides events one after another, and makes what it has decided last where it
/// settles; what it gives out is sent to nobody before that.
///
/// `handles` relates the handler before an event to its outputs, in order, and to the handler after it, and
/// `refuses` to a fault in their place. `settles` relates the handler before it settles to the handler after it, and `stops` to a
/// fault too.
pub trait Handler {
    type Fault: Drop;

    ghost use Rattle.std.specs.Prelude.{List, IfOk, IfErr, OnOk};
    ghost use Rattle.broker_sockets.specs.declared.events.Event.{Event};
    ghost use Rattle.broker_sockets.specs.declared.events.Output.{Output};

    ghost handles: { Self → Event → List Output → Self → Type 0 };

    ghost refuses: { Self → Event → Self.Fault → Self → Type 0 };

    ghost settles: { Self → Self → Type 0 };

    ghost stops: { Self → Self.Fault → Self → Type 0 };

    /// Decides one event.
    fn handle(&mut self, event: Event) -> Result<Vec<Output>, Self::Fault>
        ensures ok { IfOk result (λ outputs. handles self.old event outputs.items self.new) }
        ensures fault { IfErr result (λ fault. refuses self.old event fault self.new) };

    /// Makes all that it has decided since the last call last.
    fn settle(&mut self) -> Result<(), Self::Fault>
        ensures ok { OnOk result (settles self.old self.new) }
        ensures fault { IfErr result (λ fault. stops self.old fault self.new) };
}
