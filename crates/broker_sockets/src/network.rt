//! What a turn asks of a network.
ghost use Rattle.broker_sockets.specs.Binding.{IsBound};

use std::io;
use std::net::SocketAddr;

/// What a socket answers when it is asked to read or to write.
#[derive(Clone, Copy, Debug, PartialEq, Eq)]
pub enum Answer {
    /// Nothing now: it would have to wait.
    Later,
    /// So many bytes were carried.
    Bytes(usize),
    /// The peer has ended, or the socket has failed.
    Gone,
}

/// Sockets that never wait.
///
/// `listens`, `accepts`, `connects`, `reads` and `writes` relate a network, and a stream, before a call to what it answers and
/// to them after it, where an implementation knows that; of the system's sockets they say nothing.
pub trait Sockets {
    type Listener: Drop;

    type Stream: Drop;

    ghost use Rattle.std.specs.Prelude.{ℕ, List, Option, length};
    ghost use Rattle.std.specs.Result.{result_ok};
    ghost use Rattle.std.specs.declared.net.socket_addr.SocketAddr.{SocketAddr};
    ghost use Rattle.broker_sockets.specs.declared.network.Answer.{Answer};
    ghost use Rattle.broker_sockets.specs.Answers.{CarriesSome, IsWithin, carried};

    ghost listens: { Self → SocketAddr → Option Self.Listener → Self → Type 0 };

    ghost accepts: { Self → Self.Listener → Option Self.Stream → Self → Type 0 };

    ghost connects: { Self → SocketAddr → Option Self.Stream → Self → Type 0 };

    ghost reads: { Self → Self.Stream → Answer → List ℕ → Self → Self.Stream → Type 0 };

    ghost writes: { Self → Self.Stream → List ℕ → Answer → Self → Self.Stream → Type 0 };

    /// Waits for connections at an address.
    fn listen(&mut self, address: SocketAddr) -> io::Result<Self::Listener>
        ensures { listens self.old address (result_ok result) self.new };

    /// Where a listener waits, where the system tells.
    fn address(&self, listener: &Self::Listener) -> Option<SocketAddr>;

    /// A connection that was made, if there is one.
    fn accept(&mut self, listener: &Self::Listener) -> Option<Self::Stream>
        ensures { accepts self.old listener.now result self.new };

    /// Begins to connect to an address. Until that is done the stream answers `Later`.
    fn connect(&mut self, address: SocketAddr) -> io::Result<Self::Stream>
        ensures { connects self.old address (result_ok result) self.new };

    /// Puts bytes that have come at the front of the buffer, at least one and as many as it holds.
    fn read(&mut self, stream: &mut Self::Stream, buffer: &mut [u8]) -> Answer
        ensures some { CarriesSome result }
        ensures within { IsWithin result (length buffer.new) }
        ensures carried { reads self.old stream.old result (carried result buffer.new) self.new stream.new };

    /// Takes bytes from the front.
    fn write(&mut self, stream: &mut Self::Stream, bytes: &[u8]) -> Answer
        ensures within { IsWithin result (length bytes.now) }
        ensures carried { writes self.old stream.old bytes.now result self.new stream.new };
}

/// Waits for connections at an address that is given as text: an IP address and a port, as `127.0.0.1:1883` or
/// `[::1]:1883`. `None`: the text is no such address, or the network doesn't listen there.
pub fn bind<S: Sockets>(sockets: &mut S, text: &str) -> Option<S::Listener>
    ensures { IsBound S.listens text.now sockets.old result sockets.new }
{
    match text.parse::<SocketAddr>() {
        Ok(address) => sockets.listen(address).ok(),
        Err(_) => None,
    }
}
