//! What stands behind the handler with limits, in these examples, and how much is held.

use broker_sockets::{Event, EventKind, Handler, Output};
use door_bounds::Gauge;
use std::alloc::Global;

/// Keeps what it is told, and counts the clients that come and go. It accepts a CONNECT, answers a SUBSCRIBE as packet 7 with two codes, and a repeat at
/// QoS 2 that is too large with a DISCONNECT and a close.
pub struct Recorder {
    alloc: Global,
    pub told: Vec<u8>,
    pub pieces: usize,
    pub opened: usize,
    pub closed: usize,
}

impl Drop for Recorder {
    fn drop(self) {
        let Recorder {
            alloc: _,
            told: _told,
            pieces: _,
            opened: _,
            closed: _,
        } = self;
    }
}

/// No memory.
#[derive(Debug, Drop, PartialEq, Eq)]
pub struct Refused;

/// CONNACK with Receive Maximum 100, Topic Alias Maximum 16 and Maximum Packet Size 1,048,576.
const CONNACK: &[u8] = b"\x20\x0e\x00\x00\x0b\x21\x00\x64\x22\x00\x10\x27\x00\x10\x00\x00";

/// SUBACK as packet 7, with two codes.
const SUBACK: &[u8] = b"\x90\x05\x00\x07\x00\x00\x01";

/// DISCONNECT with Packet too large.
const TOO_LARGE: &[u8] = b"\xe0\x01\x95";

impl Recorder {
    /// It was told nothing.
    pub fn new(alloc: Global) -> Recorder {
        Recorder {
            alloc,
            told: Vec::new(alloc),
            pieces: 0,
            opened: 0,
            closed: 0,
        }
    }

    /// Keeps a piece, and answers its first packet.
    fn answer(&mut self, connection: u64, bytes: &[u8]) -> Result<Vec<Output>, Refused> {
        self.told.extend_from_slice(bytes).map_err(|_| Refused)?;
        self.pieces = self.pieces.wrapping_add(1);
        let mut outputs = Vec::new(self.alloc);
        let output = match bytes {
            [0x10, ..] => Some(self.send(connection, CONNACK)?),
            [0x82, ..] => Some(self.send(connection, SUBACK)?),
            [0x3c, 0xff, ..] => {
                let last = self.send(connection, TOO_LARGE)?;
                outputs.push(last).map_err(|_| Refused)?;
                Some(Output::Close { connection })
            }
            _ => None,
        };
        if let Some(output) = output {
            outputs.push(output).map_err(|_| Refused)?;
        }
        Ok(outputs)
    }

    fn send(&self, connection: u64, bytes: &[u8]) -> Result<Output, Refused> {
        let bytes = Vec::from_slice(self.alloc, bytes).map_err(|_| Refused)?;
        Ok(Output::Send { connection, bytes })
    }
}

impl Handler for Recorder {
    type Fault = Refused;

    ghost use Rattle.std.specs.Prelude.{List};

    ghost handles = { λ _ _ _ _. Unit {0} };

    ghost refuses = { λ _ _ _ _. Unit {0} };

    ghost settles = { λ _ _. Unit {0} };

    ghost stops = { λ _ _ _. Unit {0} };

    fn handle(&mut self, event: Event) -> Result<Vec<Output>, Refused> {
        match event.kind {
            EventKind::Piece { connection, bytes } => self.answer(connection, &bytes),
            EventKind::Opened { connection: _ } => {
                self.opened = self.opened.wrapping_add(1);
                Ok(Vec::new(self.alloc))
            }
            EventKind::Closed { connection: _ } => {
                self.closed = self.closed.wrapping_add(1);
                Ok(Vec::new(self.alloc))
            }
            _ => Ok(Vec::new(self.alloc)),
        }
    }

    fn settle(&mut self) -> Result<(), Refused> {
        Ok(())
    }
}

/// Tells these amounts, the last one first, and then nothing.
#[derive(Drop)]
pub struct Amounts {
    pub left: Vec<u64>,
}

impl Gauge for Amounts {
    fn held(&mut self) -> Option<u64> {
        self.left.pop()
    }
}
