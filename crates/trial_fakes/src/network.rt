//! Streams in pairs, and which of them may have something.

use crate::end::End;
use broker_holds::Origins;
use broker_sockets::{Answer, Readiness, Ready, Sockets, Watched};
use std::alloc::{AllocError, Global};
use std::io::{self, ErrorKind};
use std::mem;
use std::net::{IpAddr, Ipv4Addr, SocketAddr};

/// How a network behaves.
#[derive(Clone, Copy, PartialEq, Eq)]
pub enum Manner {
    /// As it should.
    Sound,
    /// Nothing is ever given.
    Silent,
    /// Streams are gone when they are read.
    Gone,
    /// Nobody is accepted.
    Deaf,
    /// Nothing can be bound.
    Closed,
    /// Nothing can be watched.
    Unwatched,
    /// Nothing is told of streams until it is sound again.
    Untold,
}

/// Streams in pairs, of which the even end has connected and the odd one is accepted. Listeners are ports, from 1 on, in the
/// order in which they listened.
pub struct FakeSockets {
    alloc: Global,
    pub manner: Manner,
    /// So many bytes are taken or given at a time.
    pub piece: usize,
    /// So many calls to connect fail first.
    pub refused: u32,
    /// So many calls to read go before one that fails, which ends its stream.
    pub reads_left: u32,
    /// So many calls to write go before one that fails, which ends its stream.
    pub writes_left: u32,
    /// How often a listener was asked.
    pub accepts: u32,
    /// How often a stream was read.
    pub reads: u32,
    /// How often a stream was begun.
    pub connects: u32,
    /// How often nothing was ready.
    pub waits: u32,
    /// Which of several hubs asks now; each is told of its own sockets.
    pub hub: u8,
    /// From where all streams come, as far as is told.
    pub origin: Option<u128>,
    ports: Vec<u8>,
    ends: Vec<End>,
    waiting: Vec<(u16, usize)>,
    arrived: Vec<u16>,
    told: Vec<Watched>,
}

impl Drop for FakeSockets {
    fn drop(self) {
        let FakeSockets {
            alloc: _,
            manner: _,
            piece: _,
            refused: _,
            reads_left: _,
            writes_left: _,
            accepts: _,
            reads: _,
            connects: _,
            waits: _,
            hub: _,
            origin: _,
            ports: _ports,
            ends: _ends,
            waiting: _waiting,
            arrived: _arrived,
            told: _told,
        } = self;
    }
}

/// The other end.
fn across(end: usize) -> usize {
    if end % 2 == 0 {
        end.saturating_add(1)
    } else {
        end - 1
    }
}

/// Whether this call is the one that fails.
fn fails(calls: &mut u32) -> bool {
    let now = *calls == 0;
    *calls = calls.checked_sub(1).unwrap_or(u32::MAX);
    now
}

impl FakeSockets {
    pub fn new(alloc: Global) -> FakeSockets {
        FakeSockets {
            alloc,
            manner: Manner::Sound,
            piece: usize::MAX,
            refused: 0,
            reads_left: u32::MAX,
            writes_left: u32::MAX,
            accepts: 0,
            reads: 0,
            connects: 0,
            waits: 0,
            hub: 0,
            origin: None,
            ports: Vec::new(alloc),
            ends: Vec::new(alloc),
            waiting: Vec::new(alloc),
            arrived: Vec::new(alloc),
            told: Vec::new(alloc),
        }
    }

    /// How many streams have been made.
    pub fn streams(&self) -> usize {
        self.ends.len()
    }

    /// How many wait to be accepted.
    pub fn waiting(&self) -> usize {
        self.waiting.len()
    }

    /// A new pair of ends, of which the first has connected to a port.
    fn pair(&mut self, port: u16) -> Result<usize, AllocError> {
        let first = self.ends.len();
        self.ends.push(End::new(self.alloc))?;
        self.ends.push(End::new(self.alloc))?;
        self.waiting.push((port, across(first)))?;
        self.arrived.push(port)?;
        Ok(first)
    }

    /// Somebody connects to a port and sends these bytes, which are given so many at a time; of what is sent to it so many
    /// bytes are taken at a time. Its end.
    pub fn client(
        &mut self,
        port: u16,
        sends: &[u8],
        piece: usize,
        most: usize,
    ) -> Result<usize, AllocError> {
        let end = self.pair(port)?;
        if let Some(client) = self.ends.get_mut(end) {
            client.piece = piece;
            client.most = most;
        }
        self.send(end, sends)?;
        Ok(end)
    }

    /// An end sends bytes.
    pub fn send(&mut self, end: usize, bytes: &[u8]) -> Result<(), AllocError> {
        match self.ends.get_mut(across(end)) {
            Some(other) if !bytes.is_empty() => other.take(bytes),
            _ => Ok(()),
        }
    }

    /// Of what is sent to an end so many bytes are taken at a time.
    pub fn limit(&mut self, end: usize, most: usize) {
        if let Some(end) = self.ends.get_mut(end) {
            end.most = most;
        }
    }

    /// An end is closed: all that it has sent may still be read.
    pub fn close(&mut self, end: usize) {
        if let Some(other) = self.ends.get_mut(across(end)) {
            other.ended = true;
            other.untold = true;
        }
    }

    /// Nothing can be sent to an end any more.
    pub fn fail(&mut self, end: usize) {
        if let Some(end) = self.ends.get_mut(end) {
            end.fails = true;
        }
    }

    /// A stream fails: both ends are gone.
    fn cut(&mut self, end: usize) {
        for each in [end, across(end)] {
            self.close(each);
            self.fail(each);
        }
    }

    /// All that has come to an end.
    pub fn came(&self, end: usize) -> &[u8] {
        self.ends.get(end).map_or(&[][..], |end| end.came())
    }

    /// How often an end was asked to read.
    pub fn asked(&self, end: usize) -> u32 {
        self.ends.get(end).map_or(0, |end| end.asked)
    }

    /// The next call is told of this name, whether there is something or not.
    pub fn tell(&mut self, name: Watched) -> Result<(), AllocError> {
        self.told.push(name)?;
        Ok(())
    }

    /// The names of the ends to which something has come are told.
    fn tell_all(&mut self) -> Result<(), AllocError> {
        for end in self.ends.iter_mut() {
            if let Some((hub, name)) = end.name {
                if hub == self.hub && mem::replace(&mut end.untold, false) {
                    self.told.push(name)?;
                }
            }
        }
        Ok(())
    }

    /// Whether somebody has connected to a port of the hub that asks since it was told last.
    fn told_arrivals(&mut self) -> Result<bool, AllocError> {
        let mut others = Vec::new(self.alloc);
        let mut arrived = false;
        for port in mem::replace(&mut self.arrived, Vec::new(self.alloc)) {
            let place = usize::from(port).saturating_sub(1);
            if self.ports.get(place) == Some(&self.hub) {
                arrived = true;
            } else {
                others.push(port)?;
            }
        }
        self.arrived = others;
        Ok(arrived)
    }

    /// So many bytes an end takes or gives at a time.
    fn most(&self, end: usize, gives: bool) -> usize {
        let of_end = self
            .ends
            .get(end)
            .map_or(0, |end| { if gives { end.piece } else { end.most } });
        of_end.min(self.piece)
    }
}

impl Sockets for FakeSockets {
    type Listener = u16;

    type Stream = usize;

    ghost listens = { λ _ _ _ _. Unit {0} };

    ghost accepts = { λ _ _ _ _. Unit {0} };

    ghost connects = { λ _ _ _ _. Unit {0} };

    ghost reads = { λ _ _ _ _ _ _. Unit {0} };

    ghost writes = { λ _ _ _ _ _ _. Unit {0} };

    fn listen(&mut self, _address: SocketAddr) -> io::Result<u16> {
        if self.manner == Manner::Closed {
            return Err(io::Error::from(ErrorKind::Other));
        }
        self.ports.push(self.hub)?;
        Ok(u16::try_from(self.ports.len()).unwrap_or(u16::MAX))
    }

    fn address(&self, listener: &u16) -> Option<SocketAddr> {
        Some(SocketAddr::new(IpAddr::V4(Ipv4Addr::LOCALHOST), *listener))
    }

    fn accept(&mut self, listener: &u16) -> Option<usize> {
        self.accepts = self.accepts.saturating_add(1);
        if self.manner == Manner::Deaf {
            return None;
        }
        let place = self.waiting.iter().position(|w| w.0 == *listener)?;
        if place >= self.waiting.len() {
            return None;
        }
        let (_, end) = self.waiting.remove(place);
        Some(end)
    }

    fn connect(&mut self, address: SocketAddr) -> io::Result<usize> {
        self.connects = self.connects.saturating_add(1);
        if self.refused > 0 {
            self.refused -= 1;
            return Err(io::Error::from(ErrorKind::ConnectionRefused));
        }
        let end = self.pair(address.port())?;
        Ok(end)
    }

    fn read(&mut self, stream: &mut usize, buffer: &mut [u8]) -> Answer {
        self.reads = self.reads.saturating_add(1);
        if fails(&mut self.reads_left) {
            self.cut(*stream);
        }
        let most = self.most(across(*stream), true);
        let silent = self.manner == Manner::Silent;
        let gone = self.manner == Manner::Gone;
        let Some(end) = self.ends.get_mut(*stream) else {
            return Answer::Gone;
        };
        end.asked = end.asked.saturating_add(1);
        let count = if silent || gone {
            0
        } else {
            end.give(buffer, most)
        };
        if count > 0 {
            Answer::Bytes(count)
        } else if gone || end.ended {
            Answer::Gone
        } else {
            Answer::Later
        }
    }

    fn write(&mut self, stream: &mut usize, bytes: &[u8]) -> Answer {
        if fails(&mut self.writes_left) {
            self.cut(*stream);
        }
        let other = across(*stream);
        let count = bytes.len().min(self.most(other, false));
        let Some(end) = self.ends.get_mut(other) else {
            return Answer::Gone;
        };
        if end.fails {
            return Answer::Gone;
        }
        if count == 0 || end.take(&bytes[..count]).is_err() {
            return Answer::Later;
        }
        Answer::Bytes(count)
    }
}

impl Readiness for FakeSockets {
    ghost watches = { λ _ _ _ _ _. Unit {0} };

    ghost finds = { λ _ _ _. Unit {0} };

    fn watch(&mut self, stream: &mut usize, name: Watched) -> bool {
        match self.ends.get_mut(*stream) {
            Some(end) if self.manner != Manner::Unwatched => {
                end.name = Some((self.hub, name));
                true
            }
            _ => false,
        }
    }

    fn ready(&mut self, alloc: Global) -> Result<Ready, AllocError> {
        if self.manner != Manner::Untold {
            self.tell_all()?;
        }
        let arrived = self.told_arrivals()?;
        if !arrived && self.told.is_empty() {
            self.waits = self.waits.saturating_add(1);
        }
        let mut ready = Ready::of_listeners(alloc, arrived);
        for name in mem::replace(&mut self.told, Vec::new(alloc)) {
            match name {
                Watched::Client(key) => ready.clients.push(key)?,
                Watched::Link(key) => ready.links.push(key)?,
                Watched::Peer(number) => ready.peers.push(number)?,
            }
        }
        Ok(ready)
    }
}

impl Origins for FakeSockets {
    ghost comes_from = { λ _ _. Unit {0} };

    fn origin(&self, _stream: &usize) -> Option<u128> {
        self.origin
    }
}
