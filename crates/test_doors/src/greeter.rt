//! What stands behind the door in tests.

use broker_sockets::{BridgeHandler, Event, EventKind, Given, Handler, Output, PeerEvent};
use std::alloc::Global;

/// Sends each piece back, and notes what it was told. A piece that begins with `q` closes its connection.
pub struct Greeter {
    alloc: Global,
    pub opened: Vec<u64>,
    pub closed: Vec<u64>,
}

impl Drop for Greeter {
    fn drop(self) {
        let Greeter {
            alloc: _,
            opened: _opened,
            closed: _closed,
        } = self;
    }
}

/// No memory.
#[derive(Debug, Drop, PartialEq, Eq)]
pub struct Refused;

impl Greeter {
    pub fn new(alloc: Global) -> Greeter {
        Greeter {
            alloc,
            opened: Vec::new(alloc),
            closed: Vec::new(alloc),
        }
    }

    fn answer(&mut self, connection: u64, bytes: Vec<u8>) -> Result<Vec<Output>, Refused> {
        let quits = bytes.first().map_or(b' ', |b| *b) == b'q';
        let mut outputs = Vec::new(self.alloc);
        let sent = outputs.push(Output::Send { connection, bytes });
        sent.map_err(|_| Refused)?;
        if quits {
            let closed = outputs.push(Output::Close { connection });
            closed.map_err(|_| Refused)?;
        }
        Ok(outputs)
    }
}

impl Handler for Greeter {
    type Fault = Refused;

    ghost use Rattle.std.specs.Prelude.{List};

    ghost handles = { λ _ _ _ _. Unit {0} };

    ghost refuses = { λ _ _ _ _. Unit {0} };

    ghost settles = { λ _ _. Unit {0} };

    ghost stops = { λ _ _ _. Unit {0} };

    fn handle(&mut self, event: Event) -> Result<Vec<Output>, Refused> {
        let nothing = Vec::new(self.alloc);
        match event.kind {
            EventKind::Started | EventKind::Room { .. } | EventKind::Tick => Ok(nothing),
            EventKind::Opened { connection } => {
                self.opened.push(connection).map_err(|_| Refused)?;
                Ok(nothing)
            }
            EventKind::Closed { connection } => {
                self.closed.push(connection).map_err(|_| Refused)?;
                Ok(nothing)
            }
            EventKind::Piece { connection, bytes } => self.answer(connection, bytes),
        }
    }

    fn settle(&mut self) -> Result<(), Refused> {
        Ok(())
    }
}

impl BridgeHandler for Greeter {
    ghost hears = { λ _ _ _ _. Unit {0} };

    ghost declines = { λ _ _ _ _. Unit {0} };

    fn hear(&mut self, _event: PeerEvent) -> Result<Given, Refused> {
        Ok(Given {
            outputs: Vec::new(self.alloc),
            frames: Vec::new(self.alloc),
        })
    }
}
