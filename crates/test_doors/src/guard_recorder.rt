//! What stands behind the handler that guards, in these examples.

use broker_sockets::{Event, EventKind, Handler, Output};
use std::alloc::Global;

/// Keeps what it is told: `O` for a connection that is open, `R` for room, `C` for one that is gone, and the bytes that come. It accepts a CONNECT, answers a
/// SUBSCRIBE as packet 7 with one code, and a PUBLISH at QoS 0 with one whose topic is its payload, of one letter.
pub struct Recorder {
    alloc: Global,
    pub told: Vec<u8>,
}

impl Drop for Recorder {
    fn drop(self) {
        let Recorder {
            alloc: _,
            told: _told,
        } = self;
    }
}

/// No memory.
#[derive(Debug, Drop, PartialEq, Eq)]
pub struct Refused;

/// CONNACK without properties.
const CONNACK: &[u8] = b"\x20\x03\x00\x00\x00";

/// SUBACK as packet 7, with one code.
const SUBACK: &[u8] = b"\x90\x04\x00\x07\x00\x01";

impl Recorder {
    /// It was told nothing.
    pub fn new(alloc: Global) -> Recorder {
        Recorder {
            alloc,
            told: Vec::new(alloc),
        }
    }

    fn note(&mut self, letter: u8) -> Result<Vec<Output>, Refused> {
        self.told.push(letter).map_err(|_| Refused)?;
        Ok(Vec::new(self.alloc))
    }

    /// Keeps a piece, and answers its packet.
    fn answer(&mut self, connection: u64, bytes: &[u8]) -> Result<Vec<Output>, Refused> {
        self.told.extend_from_slice(bytes).map_err(|_| Refused)?;
        let mut outputs = Vec::new(self.alloc);
        let output = match bytes {
            [0x10, ..] => Some(self.send(connection, CONNACK)?),
            [0x82, ..] => Some(self.send(connection, SUBACK)?),
            [0x30, .., letter] => { Some(self.send(connection, &[0x30, 4, 0, 1, *letter, 0])?) }
            _ => None,
        };
        if let Some(output) = output {
            outputs.push(output).map_err(|_| Refused)?;
        }
        Ok(outputs)
    }

    fn send(&self, connection: u64, bytes: &[u8]) -> Result<Output, Refused> {
        let bytes = Vec::from_slice(self.alloc, bytes).map_err(|_| Refused)?;
        Ok(Output::Send { connection, bytes })
    }
}

impl Handler for Recorder {
    type Fault = Refused;

    ghost use Rattle.std.specs.Prelude.{List};

    ghost handles = { λ _ _ _ _. Unit {0} };

    ghost refuses = { λ _ _ _ _. Unit {0} };

    ghost settles = { λ _ _. Unit {0} };

    ghost stops = { λ _ _ _. Unit {0} };

    fn handle(&mut self, event: Event) -> Result<Vec<Output>, Refused> {
        match event.kind {
            EventKind::Piece { connection, bytes } => self.answer(connection, &bytes),
            EventKind::Opened { connection: _ } => self.note(b'O'),
            EventKind::Room {
                connection: _,
                bytes: _,
            } => self.note(b'R'),
            EventKind::Closed { connection: _ } => self.note(b'C'),
            _ => Ok(Vec::new(self.alloc)),
        }
    }

    fn settle(&mut self) -> Result<(), Refused> {
        Ok(())
    }
}
