//! Many bytes that wait to be written, in order.
ghost use Rattle.std.specs.Prelude.{◌≡◌, ◌≤◌, ◌<◌, ◌++◌, [], length, OnOk, OnErr, IfOk};
ghost use Rattle.std.specs.List.{All};
ghost use Rattle.broker_sockets.specs.Buffers.{behind, HasBytes};
ghost use Rattle.broker_sockets.specs.Answers.{Offers};

use crate::network::{Answer, Sockets};
use std::alloc::{AllocError, Global};
use std::collections::VecDeque;
use std::marker::Model;
use std::mem;

/// The room of a buffer that small packets share.
pub(crate) const SHARED: usize = 16384;

/// Bytes in buffers that are never moved once they wait: the first, of which `start` bytes are written
/// already, those behind it, and the last, which small packets fill.
pub(crate) struct Queue {
    alloc: Global,
    first: Vec<u8>,
    start: usize,
    rest: VecDeque<Vec<u8>>,
    last: Vec<u8>,
    len: usize,
}

impl Drop for Queue {
    fn drop(self) {
        let Queue {
            alloc: _,
            first: _first,
            start: _,
            rest: _rest,
            last: _last,
            len: _,
        } = self;
    }
}

impl Model for Queue {
    ghost use Rattle.std.specs.Prelude.{List, ℕ};
    ghost use Rattle.std.specs.Coded.{coded_ℕ, coded_list};

    ghost Value = { List ℕ };

    ghost coded = { coded_list coded_ℕ };

    ghost use Rattle.broker_sockets.specs.Queued.{waiting, IsSound};

    ghost view = { waiting };

    ghost invariant = { IsSound };
}

/// Puts bytes behind the others: into the last buffer where they fit there, else into a new one.
fn append(
    alloc: Global,
    rest: &mut VecDeque<Vec<u8>>,
    last: &mut Vec<u8>,
    bytes: Vec<u8>,
) -> Result<(), AllocError>
    ensures ok { OnOk result (behind rest.new.items last.new ≡ behind rest.old.items last.old ++ bytes.items) }
    ensures err { OnErr result (behind rest.new.items last.new ≡ behind rest.old.items last.old) }
    ensures full { All HasBytes rest.old.items → All HasBytes rest.new.items }
{
    if bytes.len() <= last.capacity() - last.len() {
        return last.extend_from_slice(&bytes);
    }
    let fresh = buffer_of(alloc, bytes)?;
    if last.is_empty() {
        *last = fresh;
        return Ok(());
    }
    rest.reserve(1)?;
    let full = mem::replace(last, fresh);
    rest.push_back(full)?;
    Ok(())
}

/// A buffer that begins with these bytes, with room for more where they are few.
fn buffer_of(alloc: Global, bytes: Vec<u8>) -> Result<Vec<u8>, AllocError>
    ensures { IfOk result (λ buffer. buffer.items ≡ bytes.items) }
{
    if bytes.len() >= SHARED {
        return Ok(bytes);
    }
    let mut buffer = Vec::with_capacity(alloc, SHARED)?;
    buffer.extend_from_slice(&bytes)?;
    Ok(buffer)
}

/// The buffer whose turn it is to be written.
fn take_next(alloc: Global, rest: &mut VecDeque<Vec<u8>>, last: &mut Vec<u8>) -> Vec<u8>
    ensures next { behind rest.old.items last.old ≡ result.items ++ behind rest.new.items last.new }
    ensures full { All HasBytes rest.old.items → All HasBytes rest.new.items }
    ensures none { All HasBytes rest.old.items → length result.items ≡ 0 → length (behind rest.old.items last.old) ≡ 0 }
{
    match rest.pop_front() {
        Some(buffer) => buffer,
        None => mem::replace(last, Vec::new(alloc)),
    }
}

impl Queue {
    /// No bytes.
    pub(crate) fn new(alloc: Global) -> Self
        ensures { result ≡ [] }
    {
        Queue {
            alloc,
            first: Vec::new(alloc),
            start: 0,
            rest: VecDeque::new(alloc),
            last: Vec::new(alloc),
            len: 0,
        }
    }

    pub(crate) fn len(&self) -> usize
        ensures { result ≡ length self.now }
    {
        self.len
    }

    /// The first bytes, which aren't copied.
    pub(crate) fn begin(&mut self, bytes: Vec<u8>)
        requires { length self.old ≡ 0 }
        ensures { self.new ≡ bytes.items }
    {
        self.len = bytes.len();
        self.first = bytes;
        self.start = 0;
    }

    /// Bytes behind all others, which aren't copied where they are many.
    pub(crate) fn push(&mut self, bytes: Vec<u8>) -> Result<(), AllocError>
        requires { 0 < length self.old }
        ensures ok { OnOk result (self.new ≡ self.old ++ bytes.items) }
        ensures err { OnErr result (self.new ≡ self.old) }
    {
        let Some(len) = self.len.checked_add(bytes.len()) else {
            return Err(AllocError);
        };
        append(self.alloc, &mut self.rest, &mut self.last, bytes)?;
        self.len = len;
        Ok(())
    }

    /// Offers the first bytes to a stream, which may take some of them; the others stay.
    pub(crate) fn write_to<S: Sockets>(&mut self, sockets: &mut S, stream: &mut S::Stream) -> Answer
        requires { 0 < length self.old }
        ensures { Offers S.writes self.old sockets.old stream.old result self.new sockets.new stream.new }
    {
        let answer = sockets.write(stream, &self.first[self.start..]);
        if let Answer::Bytes(count) = answer {
            self.start += count;
            self.len -= count;
            if self.start == self.first.len() {
                self.first = take_next(self.alloc, &mut self.rest, &mut self.last);
                self.start = 0;
            }
        }
        answer
    }
}
