//! Sockets that are lent, so that what came over them can be looked at afterwards.
use broker_sockets::{Answer, Sockets};
use std::io;
use std::net::SocketAddr;
use trial_fakes::FakeSockets;

/// Sockets in memory that are lent.
#[derive(Drop)]
pub(crate) struct LentSockets<'a> {
    pub(crate) sockets: &'a mut FakeSockets,
}

impl Sockets for LentSockets<'_> {
    type Listener = u16;

    type Stream = usize;

    ghost listens = { λ _ _ _ _. Unit {0} };

    ghost accepts = { λ _ _ _ _. Unit {0} };

    ghost connects = { λ _ _ _ _. Unit {0} };

    ghost reads = { λ _ _ _ _ _ _. Unit {0} };

    ghost writes = { λ _ _ _ _ _ _. Unit {0} };

    fn listen(&mut self, address: SocketAddr) -> io::Result<u16> {
        self.sockets.listen(address)
    }

    fn address(&self, listener: &u16) -> Option<SocketAddr> {
        self.sockets.address(listener)
    }

    fn accept(&mut self, listener: &u16) -> Option<usize> {
        self.sockets.accept(listener)
    }

    fn connect(&mut self, address: SocketAddr) -> io::Result<usize> {
        self.sockets.connect(address)
    }

    fn read(&mut self, stream: &mut usize, buffer: &mut [u8]) -> Answer {
        self.sockets.read(stream, buffer)
    }

    fn write(&mut self, stream: &mut usize, bytes: &[u8]) -> Answer {
        self.sockets.write(stream, bytes)
    }
}
