//! One connection.

ghost use Rattle.std.specs.Prelude.{◌≡◌, ◌≤◌, ◌↔◌, ◌-◌, ◌<◌, length, None, IsTrue};
ghost use Rattle.http_server.specs.Connection.{history};
ghost use Rattle.status_sockets.specs.Desks.{asks};
ghost use Rattle.status_sockets.specs.Waiting.{IsInTime};

use broker_sockets::{Answer, Sockets};
use http_server::{Config, Connection};
use http1::Limits;
use status_figures::Figures;
use status_pages::Pages;
use std::alloc::Global;
use std::hash::RandomState;

/// The most bytes that one read takes.
pub(crate) const PIECE: usize = 4096;

/// For so many milliseconds a connection may be open without a whole request.
pub(crate) const PATIENCE: u64 = 10_000;

/// In so many milliseconds a request that was begun is to be there whole.
const HASTE: u64 = 2_000;

/// A head has 8 KiB at most, and nobody has to send a body.
const CONFIG: Config = Config {
    limits: Limits {
        max_head_len: 8192,
        max_extensions_len: 1024,
        max_trailers_len: 1024,
    },
    max_body_len: 0,
    max_pending: 65_536,
    read_size: 4096,
};

/// Somebody who is connected, since when there was no whole request, when one was begun that isn't there whole, and whether one was answered when this
/// was last looked to: then another one may wait behind it.
pub(crate) struct Visitor<T: Drop> {
    stream: T,
    connection: Connection,
    pub(crate) since: u64,
    pub(crate) begun: Option<u64>,
    pub(crate) answered: bool,
}

impl<T: Drop> Drop for Visitor<T> {
    fn drop(self) {
        let Visitor {
            stream: _stream,
            connection: _connection,
            since: _since,
            begun: _begun,
            answered: _answered,
        } = self;
    }
}

impl<T: Drop> Visitor<T> {
    /// Somebody who has connected at this moment.
    pub(crate) fn new(alloc: Global, keys: RandomState, stream: T, at: u64) -> Visitor<T>
        ensures since { result.since ≡ at }
        ensures begun { result.begun ≡ None }
    {
        Visitor {
            stream,
            connection: Connection::new(alloc, keys, CONFIG),
            since: at,
            begun: None,
            answered: false,
        }
    }

    /// Whether a request of it may be there.
    pub(crate) fn asks(&self) -> bool
        ensures { result ≡ asks self.now }
    {
        self.begun.is_some() || self.answered
    }

    /// Whether there was a whole request within ten seconds, and one that was begun isn't older than two.
    fn is_in_time(&self, at: u64) -> bool
        ensures { IsTrue result ↔ IsInTime at self.now.since self.now.begun }
    {
        if PATIENCE <= at.saturating_sub(self.since) {
            return false;
        }
        match self.begun {
            Some(begun) => at.saturating_sub(begun) < HASTE,
            None => true,
        }
    }

    /// A request is begun, where none was.
    fn begin(&mut self, at: u64)
        ensures { self.new.since ≡ self.old.since }
    {
        if self.begun.is_none() {
            self.begun = Some(at);
        }
    }

    /// Takes what has come, at most once. `false`: nothing more can come.
    pub(crate) fn read<S: Sockets<Stream = T>>(
        &mut self,
        sockets: &mut S,
        buffer: &mut [u8],
        at: u64,
    ) -> bool
        ensures { self.new.since ≡ self.old.since }
    {
        if !self.connection.wants_read() {
            return true;
        }
        match sockets.read(&mut self.stream, buffer) {
            Answer::Later => true,
            Answer::Gone => false,
            Answer::Bytes(count) => {
                self.begin(at);
                let mut piece = &buffer[..count];
                match self.connection.read_from(&mut piece) {
                    Ok(taken) => taken == count,
                    Err(_) => false,
                }
            }
        }
    }

    /// Answers what was asked, by these figures, of a node that may be asked by these names.
    fn answer(&mut self, alloc: Global, figures: &Figures, names: &str, at: u64) {
        let mut pages = Pages::new(alloc, figures, names);
        self.connection.advance(&mut pages);
        self.answered = pages.asked();
        if self.answered {
            self.since = at;
            self.begun = None;
        }
    }

    /// Writes what waits, at most once. `false`: nothing more can be written.
    fn write<S: Sockets<Stream = T>>(&mut self, sockets: &mut S) -> bool
        ensures { self.new.since ≡ self.old.since }
    {
        if !self.connection.wants_write() {
            return true;
        }
        match sockets.write(&mut self.stream, self.connection.output()) {
            Answer::Later => true,
            Answer::Gone => false,
            Answer::Bytes(count) => {
                self.connection.sent(count);
                true
            }
        }
    }

    /// Answers, where there are figures, and writes, at most once. `false`: the connection is done, gone, or late.
    pub(crate) fn attend<S: Sockets<Stream = T>>(
        &mut self,
        alloc: Global,
        sockets: &mut S,
        figures: Option<&Figures>,
        names: &str,
        at: u64,
    ) -> bool
        ensures { IsTrue result → IsInTime at self.new.since self.new.begun }
    {
        if let Some(figures) = figures {
            self.answer(alloc, figures, names, at);
        }
        self.write(sockets) && !self.connection.is_done() && self.is_in_time(at)
    }
}
