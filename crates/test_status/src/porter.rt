//! What stands behind the door in tests.

use broker_sockets::{BridgeHandler, Event, EventKind, Given, Handler, Output, PeerEvent};
use std::alloc::{AllocError, Global};

/// Answers the end of a CONNECT: connection 2 is refused with 0x87, connection 3 is given an identifier, connection 4 is closed, connections 6 and 7
/// are refused with 0x84, and any other is accepted. A piece of one byte ends a connection, with a DISCONNECT of this reason code unless it is 0.
pub struct Porter {
    alloc: Global,
}

impl Drop for Porter {
    fn drop(self) {
        let Porter { alloc: _ } = self;
    }
}

/// No memory.
#[derive(Debug, Drop, PartialEq, Eq)]
pub struct Refused;

impl From<AllocError> for Refused {
    fn from(_: AllocError) -> Refused {
        Refused
    }
}

/// CONNACK with an Assigned Client Identifier.
const ASSIGNED: [u8; 16] = [
    0x20, 14, 0, 0, 11, 18, 0, 8, b'a', b'u', b't', b'o', b'-', b'0', b'-', b'1',
];

/// Whether a CONNECT of less than 128 bytes isn't whole yet.
fn is_part(bytes: &[u8]) -> bool {
    match bytes {
        [0x10, length, rest @ ..] => rest.len() < usize::from(*length),
        _ => false,
    }
}

impl Porter {
    pub fn new(alloc: Global) -> Porter {
        Porter { alloc }
    }

    fn answer(&self, connection: u64) -> Result<Vec<Output>, Refused> {
        match connection {
            2 => self.give(connection, &[0x20, 3, 0, 0x87, 0], true),
            3 => self.give(connection, &ASSIGNED, false),
            4 => self.give(connection, &[], true),
            6 | 7 => self.give(connection, &[0x20, 3, 0, 0x84, 0], true),
            _ => self.give(connection, &[0x20, 3, 0, 0, 0], false),
        }
    }

    fn end(&self, connection: u64, code: u8) -> Result<Vec<Output>, Refused> {
        if code == 0 {
            self.give(connection, &[], true)
        } else {
            self.give(connection, &[0xE0, 1, code], true)
        }
    }

    fn give(&self, connection: u64, bytes: &[u8], closes: bool) -> Result<Vec<Output>, Refused> {
        let mut outputs = Vec::new(self.alloc);
        if !bytes.is_empty() {
            let bytes = Vec::from_slice(self.alloc, bytes)?;
            let sent = outputs.push(Output::Send { connection, bytes });
            sent.map_err(|_| Refused)?;
        }
        if closes {
            let closed = outputs.push(Output::Close { connection });
            closed.map_err(|_| Refused)?;
        }
        Ok(outputs)
    }
}

impl Handler for Porter {
    type Fault = Refused;

    ghost use Rattle.std.specs.Prelude.{List};

    ghost handles = { λ _ _ _ _. Unit {0} };

    ghost refuses = { λ _ _ _ _. Unit {0} };

    ghost settles = { λ _ _. Unit {0} };

    ghost stops = { λ _ _ _. Unit {0} };

    fn handle(&mut self, event: Event) -> Result<Vec<Output>, Refused> {
        match event.kind {
            EventKind::Piece { connection, bytes } => match bytes.as_slice() {
                [code] => self.end(connection, *code),
                bytes if is_part(bytes) => Ok(Vec::new(self.alloc)),
                _ => self.answer(connection),
            },
            _ => Ok(Vec::new(self.alloc)),
        }
    }

    fn settle(&mut self) -> Result<(), Refused> {
        Ok(())
    }
}

impl BridgeHandler for Porter {
    ghost hears = { λ _ _ _ _. Unit {0} };

    ghost declines = { λ _ _ _ _. Unit {0} };

    fn hear(&mut self, _event: PeerEvent) -> Result<Given, Refused> {
        Ok(Given {
            outputs: Vec::new(self.alloc),
            frames: Vec::new(self.alloc),
        })
    }
}
