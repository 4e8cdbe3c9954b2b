//! The sockets of the system.
ghost use Rattle.std.specs.Prelude.{ℕ};
ghost use Rattle.broker_sockets.specs.Answers.{CarriesSome, IsWithin};

use crate::network::{Answer, Sockets};
use mio::net::{TcpListener, TcpStream};
use std::io::{self, ErrorKind, Read, Write};
use std::net::{Net, SocketAddr};

/// TCP sockets of the system, which never wait and send small packets at once.
#[derive(Drop)]
pub struct RealSockets<'a, N: Net> {
    net: &'a N,
}

impl<'a, N: Net> RealSockets<'a, N> {
    /// The sockets that the runtime gives leave to open.
    pub fn new(net: &'a N) -> Self {
        RealSockets { net }
    }
}

/// How often a call is made that a signal interrupts.
const TRIES: u32 = 16;

/// Nothing came of a call: it would have to wait, or the socket has failed.
fn refused(error: &io::Error) -> Answer
    ensures within { (most : ℕ) → IsWithin result most }
    ensures some { CarriesSome result }
{
    match error.kind() {
        ErrorKind::WouldBlock => Answer::Later,
        _ => Answer::Gone,
    }
}

impl<'a, N: Net> Sockets for RealSockets<'a, N> {
    type Listener = TcpListener;

    type Stream = TcpStream;

    ghost listens = { λ _ _ _ _. Unit {0} };

    ghost accepts = { λ _ _ _ _. Unit {0} };

    ghost connects = { λ _ _ _ _. Unit {0} };

    ghost reads = { λ _ _ _ _ _ _. Unit {0} };

    ghost writes = { λ _ _ _ _ _ _. Unit {0} };

    fn listen(&mut self, address: SocketAddr) -> io::Result<TcpListener> {
        TcpListener::bind(self.net, address)
    }

    fn address(&self, listener: &TcpListener) -> Option<SocketAddr> {
        listener.local_addr().ok()
    }

    fn accept(&mut self, listener: &TcpListener) -> Option<TcpStream> {
        match listener.accept() {
            Ok((stream, _)) => {
                let _ = stream.set_nodelay(true);
                Some(stream)
            }
            Err(_) => None,
        }
    }

    fn connect(&mut self, address: SocketAddr) -> io::Result<TcpStream> {
        let stream = TcpStream::connect(self.net, address)?;
        let _ = stream.set_nodelay(true);
        Ok(stream)
    }

    fn read(&mut self, stream: &mut TcpStream, buffer: &mut [u8]) -> Answer {
        for _ in 0..TRIES {
            match stream.read(buffer) {
                Ok(0) => return Answer::Gone,
                Ok(count) => return Answer::Bytes(count),
                Err(error) if error.kind() == ErrorKind::Interrupted => {}
                Err(error) => return refused(&error),
            }
        }
        Answer::Gone
    }

    fn write(&mut self, stream: &mut TcpStream, bytes: &[u8]) -> Answer {
        for _ in 0..TRIES {
            match stream.write(bytes) {
                Ok(written) => return Answer::Bytes(written),
                Err(error) if error.kind() == ErrorKind::Interrupted => {}
                Err(error) => return refused(&error),
            }
        }
        Answer::Gone
    }
}
