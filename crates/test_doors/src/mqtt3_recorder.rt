//! What stands behind the handler that translates, in these examples.

ghost use Rattle.std.specs.Prelude.{◌≤◌, length};

use broker_sockets::{BridgeHandler, Event, EventKind, Given, Handler, Output, PeerEvent};
use std::alloc::Global;

/// Keeps what it is told, and what it gives. It answers each packet as a node would that takes everything, and closes a connection on which DISCONNECT or 0 comes. A topic has
/// one byte there, a SUBSCRIBE one filter, and a packet less than 128 bytes. PUBLISH with identifier 255 is refused with reason code 0x97.
pub struct Recorder {
    alloc: Global,
    pub told: Vec<u8>,
    pub given: Vec<u8>,
    pub pieces: usize,
}

impl Drop for Recorder {
    fn drop(self) {
        let Recorder {
            alloc: _,
            told: _told,
            given: _given,
            pieces: _,
        } = self;
    }
}

/// How many of these bytes the first packet takes.
fn size_of(bytes: &[u8]) -> usize
    ensures { result ≤ length bytes.now }
{
    let size = match bytes {
        [_, length, ..] => 2 + usize::from(*length),
        _ => bytes.len(),
    };
    size.min(bytes.len())
}

/// No memory.
#[derive(Debug, Drop, PartialEq, Eq)]
pub struct Refused;

impl Recorder {
    /// It was told nothing.
    pub fn new(alloc: Global) -> Recorder {
        Recorder {
            alloc,
            told: Vec::new(alloc),
            given: Vec::new(alloc),
            pieces: 0,
        }
    }

    /// Keeps a piece, and answers its packets.
    fn answer(&mut self, connection: u64, bytes: &[u8]) -> Result<Vec<Output>, Refused> {
        self.told.extend_from_slice(bytes).map_err(|_| Refused)?;
        self.pieces = self.pieces.wrapping_add(1);
        let mut outputs = Vec::new(self.alloc);
        let mut rest = bytes;
        for _ in 0..bytes.len() {
            if rest.is_empty() {
                return Ok(outputs);
            }
            let (packet, more) = rest.split_at(size_of(rest));
            if let Some(output) = self.answer_to(connection, packet)? {
                self.keep(&output)?;
                outputs.push(output).map_err(|_| Refused)?;
            }
            rest = more;
        }
        Ok(outputs)
    }

    /// Keeps the bytes that it gives.
    fn keep(&mut self, output: &Output) -> Result<(), Refused> {
        if let Output::Send {
            connection: _,
            bytes,
        } = output
        {
            self.given.extend_from_slice(bytes).map_err(|_| Refused)?;
        }
        Ok(())
    }

    /// What answers one packet.
    fn answer_to(&self, connection: u64, packet: &[u8]) -> Result<Option<Output>, Refused> {
        let output = match packet {
            [0x10, ..] => self.send(connection, &[0x20, 3, 0, 0, 0])?,
            [0x32, _, 0, 1, _, high, low, ..] => self.acknowledge(connection, *high, *low)?,
            [0x34, _, 0, 1, _, high, low, ..] => self.send(connection, &[0x50, 2, *high, *low])?,
            [0x3c, _, 0, 1, _, high, low, ..] => self.send(connection, &[0x50, 2, *high, *low])?,
            [0x62, 2, high, low, ..] => self.send(connection, &[0x70, 2, *high, *low])?,
            [0x82, _, high, low, ..] => self.send(connection, &[0x90, 4, *high, *low, 0, 1])?,
            [0xa2, _, high, low, ..] => self.send(connection, &[0xb0, 4, *high, *low, 0, 0])?,
            [0xc0, ..] => self.send(connection, &[0xd0, 0])?,
            [0, ..] => Output::Close { connection },
            [0xe0, ..] => Output::Close { connection },
            _ => return Ok(None),
        };
        Ok(Some(output))
    }

    /// PUBACK; with 0x97 for identifier 255.
    fn acknowledge(&self, connection: u64, high: u8, low: u8) -> Result<Output, Refused> {
        if high == 0 && low == 255 {
            return self.send(connection, &[0x40, 3, 0, 255, 0x97]);
        }
        self.send(connection, &[0x40, 2, high, low])
    }

    fn send(&self, connection: u64, bytes: &[u8]) -> Result<Output, Refused> {
        let bytes = Vec::from_slice(self.alloc, bytes).map_err(|_| Refused)?;
        Ok(Output::Send { connection, bytes })
    }
}

impl Handler for Recorder {
    type Fault = Refused;

    ghost use Rattle.std.specs.Prelude.{List};

    ghost handles = { λ _ _ _ _. Unit {0} };

    ghost refuses = { λ _ _ _ _. Unit {0} };

    ghost settles = { λ _ _. Unit {0} };

    ghost stops = { λ _ _ _. Unit {0} };

    fn handle(&mut self, event: Event) -> Result<Vec<Output>, Refused> {
        match event.kind {
            EventKind::Piece { connection, bytes } => self.answer(connection, &bytes),
            _ => Ok(Vec::new(self.alloc)),
        }
    }

    fn settle(&mut self) -> Result<(), Refused> {
        Ok(())
    }
}

impl BridgeHandler for Recorder {
    ghost hears = { λ _ _ _ _. Unit {0} };

    ghost declines = { λ _ _ _ _. Unit {0} };

    fn hear(&mut self, _event: PeerEvent) -> Result<Given, Refused> {
        Ok(Given {
            outputs: Vec::new(self.alloc),
            frames: Vec::new(self.alloc),
        })
    }
}
