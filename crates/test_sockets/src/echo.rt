//! What stands behind sockets of clients, and a hub for it.

use broker_sockets::{
    BridgeHandler, Event, EventKind, Given, Handler, Output, PeerEvent, Readiness, Sockets,
};
use broker_turns::{Hub, Setting};
use std::alloc::Global;
use std::net::SocketAddr;
use std::process::Abort;

/// Sends each piece back, and notes what it was told. A piece that begins with `q` closes its connection, one
/// that begins with `m` is answered by so many bytes, and one that begins with `f` is a fault. When it starts it
/// sends `!` to the first connection.
pub struct Echo {
    alloc: Global,
    pub started: u64,
    pub opened: Vec<u64>,
    pub closed: Vec<u64>,
    pub ticks: u64,
    /// How often it has settled, which it does so often and then fails.
    pub settled: u32,
    pub settles: u32,
    pub many: usize,
    /// How much it was told that connections take.
    pub rooms: Vec<u64>,
}

impl Drop for Echo {
    fn drop(self) {
        let Echo {
            alloc: _,
            started: _,
            opened: _opened,
            closed: _closed,
            ticks: _,
            settled: _,
            settles: _,
            many: _,
            rooms: _rooms,
        } = self;
    }
}

/// A piece that begins with `f`, a failure to settle, or no memory.
#[derive(Debug, Drop, PartialEq, Eq)]
pub struct Refused;

impl Echo {
    pub fn new(alloc: Global) -> Echo {
        Echo {
            alloc,
            started: 0,
            opened: Vec::new(alloc),
            closed: Vec::new(alloc),
            ticks: 0,
            settled: 0,
            settles: u32::MAX,
            many: 0,
            rooms: Vec::new(alloc),
        }
    }

    fn answer(&mut self, connection: u64, bytes: Vec<u8>) -> Result<Vec<Output>, Refused> {
        let first = bytes.first().map_or(b' ', |b| *b);
        if first == b'f' {
            return Err(Refused);
        }
        let bytes = if first == b'm' {
            vec![in self.alloc; b'.'; self.many].map_err(|_| Refused)?
        } else {
            bytes
        };
        let mut outputs = Vec::new(self.alloc);
        let sent = outputs.push(Output::Send { connection, bytes });
        sent.map_err(|_| Refused)?;
        if first == b'q' {
            let closed = outputs.push(Output::Close { connection });
            closed.map_err(|_| Refused)?;
        }
        Ok(outputs)
    }
}

impl Handler for Echo {
    type Fault = Refused;

    ghost use Rattle.std.specs.Prelude.{List};

    ghost handles = { λ _ _ _ _. Unit {0} };

    ghost refuses = { λ _ _ _ _. Unit {0} };

    ghost settles = { λ _ _. Unit {0} };

    ghost stops = { λ _ _ _. Unit {0} };

    fn handle(&mut self, event: Event) -> Result<Vec<Output>, Refused> {
        let nothing = Vec::new(self.alloc);
        match event.kind {
            EventKind::Started => {
                self.started = event.at;
                let sign = Vec::from_slice(self.alloc, b"!").map_err(|_| Refused)?;
                self.answer(0, sign)
            }
            EventKind::Opened { connection } => {
                self.opened.push(connection).map_err(|_| Refused)?;
                Ok(nothing)
            }
            EventKind::Closed { connection } => {
                self.closed.push(connection).map_err(|_| Refused)?;
                Ok(nothing)
            }
            EventKind::Tick => {
                self.ticks = self.ticks.saturating_add(1);
                Ok(nothing)
            }
            EventKind::Room {
                connection: _,
                bytes,
            } => {
                self.rooms.push(bytes).map_err(|_| Refused)?;
                Ok(nothing)
            }
            EventKind::Piece { connection, bytes } => self.answer(connection, bytes),
        }
    }

    fn settle(&mut self) -> Result<(), Refused> {
        if self.settled >= self.settles {
            return Err(Refused);
        }
        self.settled = self.settled.saturating_add(1);
        Ok(())
    }
}

impl BridgeHandler for Echo {
    ghost hears = { λ _ _ _ _. Unit {0} };

    ghost declines = { λ _ _ _ _. Unit {0} };

    fn hear(&mut self, _event: PeerEvent) -> Result<Given, Refused> {
        Ok(Given {
            outputs: Vec::new(self.alloc),
            frames: Vec::new(self.alloc),
        })
    }
}

/// The hub of a node at two listeners, the first for clients, the second for other nodes.
pub fn hub_at<L: Drop, T: Drop>(
    rt: &impl Abort,
    alloc: Global,
    (listener, bridge): (L, L),
    peers: Vec<Option<SocketAddr>>,
) -> Hub<L, T> {
    assert!(rt; peers.len() < 65536);
    let setting = Setting {
        listener,
        bridge,
        peers,
    };
    Hub::new(alloc, setting).expect(rt, "memory")
}

/// Two listeners of a network.
pub fn listeners<S: Sockets>(rt: &impl Abort, sockets: &mut S) -> (S::Listener, S::Listener) {
    let free: SocketAddr = "127.0.0.1:0".parse().expect(rt, "an address");
    let listener = sockets.listen(free).expect(rt, "a port is free");
    (listener, sockets.listen(free).expect(rt, "a port is free"))
}

/// The hub of a node at two listeners of a network.
pub fn hub_of<S: Sockets>(
    rt: &impl Abort,
    alloc: Global,
    sockets: &mut S,
    peers: Vec<Option<SocketAddr>>,
) -> Hub<S::Listener, S::Stream> {
    let places = listeners(rt, sockets);
    hub_at(rt, alloc, places, peers)
}

/// Makes so many turns, each a millisecond after the one before, and tells how many clients there are then.
pub fn make<S: Readiness, H: BridgeHandler>(
    rt: &impl Abort,
    hub: &mut Hub<S::Listener, S::Stream>,
    sockets: &mut S,
    handler: &mut H,
    turns: u64,
) -> usize {
    for at in 0..turns {
        assert!(rt; hub.turn(sockets, handler, at).is_ok());
    }
    hub.clients()
}
