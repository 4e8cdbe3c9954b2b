//! The sockets at which a node's status is asked for.

ghost use Rattle.std.specs.Prelude.{ℕ};

use crate::telling::Refused;
use broker_sockets::{Answer, RealSockets, Sockets};
use cli_stops::answer_of;
use mio::net::{TcpListener, TcpStream};
use std::io;
use std::net::SocketAddr;

/// The sockets of the system, which keep an address that it refuses with its answer.
#[derive(Drop)]
pub(crate) struct StatusSockets<'a> {
    sockets: RealSockets<'a, HostRuntime>,
    refused: &'a mut Option<Refused>,
}

impl<'a> StatusSockets<'a> {
    /// Sockets that the runtime gives leave to open; an address that is refused is kept here.
    pub(crate) fn new(rt: &'a HostRuntime, refused: &'a mut Option<Refused>) -> Self {
        StatusSockets {
            sockets: RealSockets::new(rt),
            refused,
        }
    }
}

impl Sockets for StatusSockets<'_> {
    type Listener = TcpListener;

    type Stream = TcpStream;

    ghost listens = { λ _ _ _ _. Unit {0} };

    ghost accepts = { λ _ _ _ _. Unit {0} };

    ghost connects = { λ _ _ _ _. Unit {0} };

    ghost reads = { λ _ _ _ _ _ _. Unit {0} };

    ghost writes = { λ _ _ _ _ _ _. Unit {0} };

    fn listen(&mut self, address: SocketAddr) -> io::Result<TcpListener> {
        let listener = self.sockets.listen(address);
        if let Err(error) = &listener {
            let answer = answer_of(error);
            *self.refused = Some(Refused { address, answer });
        }
        listener
    }

    fn address(&self, listener: &TcpListener) -> Option<SocketAddr> {
        self.sockets.address(listener)
    }

    fn accept(&mut self, listener: &TcpListener) -> Option<TcpStream> {
        self.sockets.accept(listener)
    }

    fn connect(&mut self, address: SocketAddr) -> io::Result<TcpStream> {
        self.sockets.connect(address)
    }

    fn read(&mut self, stream: &mut TcpStream, buffer: &mut [u8]) -> Answer {
        self.sockets.read(stream, buffer)
    }

    fn write(&mut self, stream: &mut TcpStream, bytes: &[u8]) -> Answer {
        self.sockets.write(stream, bytes)
    }
}
