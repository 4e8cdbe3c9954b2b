//! What comes of an event.

ghost use Rattle.std.specs.Prelude.{◌≡◌, IfOk};

use crate::frame::Frame;
use mqtt_fields::NoMemory;
use mqtt_packets::Bytes;
use row_store::Change;
use std::alloc::Global;

/// One thing that a node gives out.
#[derive(Drop)]
pub enum Output {
    /// A packet to a client.
    Send { connection: u64, bytes: Bytes },
    /// The end of a connection.
    Close { connection: u64 },
    /// A frame to another node.
    Frame { frame: Frame },
}

impl Output {
    /// An equal output.
    pub fn copy(&self, alloc: Global) -> Result<Output, NoMemory>
        ensures { IfOk result (λ copy. copy ≡ self.now) }
    {
        match self {
            Output::Send { connection, bytes } => Ok(Output::Send {
                connection: *connection,
                bytes: bytes.copy(alloc)?,
            }),
            Output::Close { connection } => Ok(Output::Close {
                connection: *connection,
            }),
            Output::Frame { frame } => Ok(Output::Frame {
                frame: frame.copy(alloc)?,
            }),
        }
    }
}

/// What comes of an event: what is given out, in order, and the changes of the node's rows that go before it, in the order of
/// their keys, each of which is named once, a session's own row only where it changes, and another one only where a part of the work
/// on the event alters it.
#[derive(Drop)]
pub struct Outcome {
    pub outputs: Vec<Output>,
    pub changes: Vec<Change>,
}
