//! What is wrong with what comes of bytes.

use mqtt_fields::NoMemory;
use std::alloc::{AllocError, AllocFailed};

/// What is wrong with what comes of bytes.
#[derive(Clone, Copy, Debug, PartialEq, Eq)]
pub enum Failure {
    /// There is no such node, or no memory.
    Unready,
    /// The node has stopped.
    Stopped,
    /// A client is sent bytes that aren't one packet.
    NoPacket,
    /// Something goes out where nothing should.
    Unasked,
    /// A client that should be accepted isn't.
    Refused,
    /// The witness isn't served.
    Unserved,
    /// A connection is told of its end, and isn't closed.
    Unclosed,
    /// A connection is told of its end with a Reason Code that no node has.
    Uncoded,
    /// A framer gives other packets of a stream where that is cut.
    Uneven,
}

impl Failure {
    /// What is wrong, in words.
    pub fn text(self) -> &'static str {
        match self {
            Failure::Unready => "there is no node, or no memory",
            Failure::Stopped => "the node has stopped",
            Failure::NoPacket => "a client is sent what isn't a packet",
            Failure::Unasked => "something goes out where nothing should",
            Failure::Refused => "a client isn't accepted",
            Failure::Unserved => "the witness isn't served",
            Failure::Unclosed => "a connection isn't closed that was told so",
            Failure::Uncoded => "a connection ends with a Reason Code that no node has",
            Failure::Uneven => "a stream that is cut gives other packets",
        }
    }
}

impl From<AllocError> for Failure {
    fn from(_error: AllocError) -> Failure {
        Failure::Unready
    }
}

impl<T: Drop> From<AllocFailed<T>> for Failure {
    fn from(_error: AllocFailed<T>) -> Failure {
        Failure::Unready
    }
}

impl From<NoMemory> for Failure {
    fn from(_error: NoMemory) -> Failure {
        Failure::Unready
    }
}
