//! The sockets of the system, which tell which of them are ready.
ghost use Rattle.std.specs.Prelude.{◌≡◌, OnOk, IfSome, None};
ghost use Rattle.broker_sockets.specs.Ready.{IsTold, token_of};
ghost use Rattle.broker_sockets.specs.declared.ready.Watched.{Watched};

use crate::network::{Answer, Sockets};
use crate::ready::{Readiness, Ready, Watched};
use crate::real::RealSockets;
use mio::net::{TcpListener, TcpStream};
use mio::{Events, Interest, Poll, Token};
use std::alloc::{AllocError, Global};
use std::io::{self, ErrorKind};
use std::mem;
use std::net::{Net, SocketAddr};
use std::time::Duration;

/// Names all listeners.
const LISTENERS: Token = Token(3);

/// The most sockets that are told at once. The others are told by the next call.
const MOST: usize = 1024;

/// The longest wait, in milliseconds.
const WAIT: u64 = 10;

/// TCP sockets of the system, as `RealSockets`, which tell which of them are ready. A socket is told once for what has come.
pub struct PolledSockets<'a, N: Net> {
    sockets: RealSockets<'a, N>,
    poll: Poll,
    events: Events,
    /// Whether anything was carried since it was told last what is ready.
    busy: bool,
    /// Whether a listener has failed since then, on which somebody may still wait.
    failed: bool,
    /// Why a listener has failed last, where that wasn't taken yet.
    failure: Option<io::Error>,
}

impl<'a, N: Net> Drop for PolledSockets<'a, N> {
    fn drop(self) {
        let PolledSockets {
            sockets: _sockets,
            poll: _poll,
            events: _events,
            busy: _,
            failed: _,
            failure: _,
        } = self;
    }
}

/// The number under which a stream is told, if it has one.
fn token_of(name: Watched) -> Option<Token>
    ensures { IfSome result (λ token. token.0 ≡ token_of name) }
{
    let (key, kind) = match name {
        Watched::Client(key) => (key, 0),
        Watched::Link(key) => (key, 1),
        Watched::Peer(number) => (number, 2),
    };
    Some(Token(key.checked_mul(4)?.checked_add(kind)?))
}

/// What a number stands for is ready.
fn tell(ready: &mut Ready, token: Token) -> Result<(), AllocError>
    ensures { (name : Watched) → token.0 ≡ token_of name → OnOk result (IsTold name ready.old ready.new) }
{
    let key = token.0 / 4;
    match token.0 % 4 {
        0 => ready.clients.push(key)?,
        1 => ready.links.push(key)?,
        2 => ready.peers.push(key)?,
        _ => ready.listeners = true,
    }
    Ok(())
}

impl<'a, N: Net> PolledSockets<'a, N> {
    /// The sockets that the runtime gives leave to open.
    pub fn new(alloc: Global, net: &'a N) -> io::Result<Self> {
        Ok(PolledSockets {
            sockets: RealSockets::new(net),
            poll: Poll::new(net)?,
            events: Events::with_capacity(alloc, MOST)?,
            busy: true,
            failed: false,
            failure: None,
        })
    }

    /// Why nobody could be accepted, if that has happened since it was taken last. It is forgotten then.
    pub fn take_failure(&mut self) -> Option<io::Error>
        ensures given { result ≡ self.old.failure }
        ensures forgotten { self.new.failure ≡ None }
    {
        self.failure.take()
    }

    /// Notes whether a call has carried anything.
    fn note(&mut self, answer: Answer) -> Answer
        ensures { result ≡ answer }
    {
        self.busy = self.busy || answer != Answer::Later;
        answer
    }
}

impl<'a, N: Net> Sockets for PolledSockets<'a, N> {
    type Listener = TcpListener;

    type Stream = TcpStream;

    ghost listens = { λ _ _ _ _. Unit {0} };

    ghost accepts = { λ _ _ _ _. Unit {0} };

    ghost connects = { λ _ _ _ _. Unit {0} };

    ghost reads = { λ _ _ _ _ _ _. Unit {0} };

    ghost writes = { λ _ _ _ _ _ _. Unit {0} };

    fn listen(&mut self, address: SocketAddr) -> io::Result<TcpListener> {
        let mut listener = self.sockets.listen(address)?;
        let registry = self.poll.registry();
        registry.register(&mut listener, LISTENERS, Interest::READABLE)?;
        Ok(listener)
    }

    fn address(&self, listener: &TcpListener) -> Option<SocketAddr> {
        self.sockets.address(listener)
    }

    /// One that fails is told as ready again.
    fn accept(&mut self, listener: &TcpListener) -> Option<TcpStream> {
        match listener.accept() {
            Ok((stream, _)) => {
                let _ = stream.set_nodelay(true);
                self.busy = true;
                Some(stream)
            }
            Err(error) => {
                if error.kind() != ErrorKind::WouldBlock {
                    self.failed = true;
                    self.failure = Some(error);
                }
                None
            }
        }
    }

    fn connect(&mut self, address: SocketAddr) -> io::Result<TcpStream> {
        self.sockets.connect(address)
    }

    fn read(&mut self, stream: &mut TcpStream, buffer: &mut [u8]) -> Answer {
        let answer = self.sockets.read(stream, buffer);
        self.note(answer)
    }

    fn write(&mut self, stream: &mut TcpStream, bytes: &[u8]) -> Answer {
        let answer = self.sockets.write(stream, bytes);
        self.note(answer)
    }
}

impl<'a, N: Net> Readiness for PolledSockets<'a, N> {
    ghost watches = { λ _ _ _ _ _. Unit {0} };

    ghost finds = { λ _ _ _. Unit {0} };

    fn watch(&mut self, stream: &mut TcpStream, name: Watched) -> bool {
        let Some(token) = token_of(name) else {
            return false;
        };
        let both = Interest::READABLE | Interest::WRITABLE;
        self.poll.registry().register(stream, token, both).is_ok()
    }

    fn ready(&mut self, alloc: Global) -> Result<Ready, AllocError> {
        let wait = if self.busy { 0 } else { WAIT };
        self.busy = false;
        let most = Duration::from_millis(wait);
        let _ = self.poll.poll(&mut self.events, Some(most));
        if wait > 0 && self.events.is_empty() {
            // a signal may have ended the wait after a long stop, in which much has come
            let _ = self.poll.poll(&mut self.events, Some(Duration::ZERO));
        }
        let failed = mem::replace(&mut self.failed, false);
        let mut ready = Ready::of_listeners(alloc, failed);
        for event in self.events.iter() {
            tell(&mut ready, event.token())?;
        }
        Ok(ready)
    }
}
