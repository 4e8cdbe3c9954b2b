//! Bytes that wait to be written to one peer, for which no memory is kept while there are none.
ghost use Rattle.std.specs.Prelude.{◌≡◌, ◌<◌, ◌++◌, [], length, vec_capacity, OnOk, OnErr, IfOk};
ghost use Rattle.broker_sockets.specs.Answers.{Offers};

use crate::network::{Answer, Sockets};
use crate::queue::{Queue, SHARED};
use std::alloc::{AllocError, Global};
use std::marker::Model;
use std::mem;

/// The bytes that wait, in order: none or few in one buffer, which is moved when a part of it is written, or
/// many in a block of their own.
#[derive(Drop)]
enum Waiting {
    Few(Vec<u8>),
    Many(Box<Queue>),
}

/// Bytes that wait to be written.
pub struct Unsent {
    alloc: Global,
    waiting: Waiting,
}

// a place of each client has one, which mostly has nothing
const _: () = prove!(size_of::<Unsent>() <= 32);

impl Drop for Unsent {
    fn drop(self) {
        let Unsent {
            alloc: _,
            waiting: _waiting,
        } = self;
    }
}

impl Model for Unsent {
    ghost use Rattle.std.specs.Prelude.{List, ℕ};
    ghost use Rattle.std.specs.Coded.{coded_ℕ, coded_list};

    ghost Value = { List ℕ };

    ghost coded = { coded_list coded_ℕ };

    ghost use Rattle.broker_sockets.specs.Unsent.{bytes_in, IsLean};

    ghost view = { λ u. bytes_in u.waiting };

    ghost invariant = { λ u. IsLean u.waiting };
}

/// Puts bytes behind the few that wait.
fn join(few: &mut Vec<u8>, bytes: Vec<u8>) -> Result<(), AllocError>
    requires { 0 < length bytes.items }
    ensures ok { OnOk result (few.new.items ≡ few.old.items ++ bytes.items) }
    ensures err { OnErr result (few.new.items ≡ few.old.items) }
    ensures some { 0 < length few.new.items }
{
    if few.is_empty() {
        *few = bytes;
        return Ok(());
    }
    few.extend_from_slice(&bytes)
}

/// Offers the few bytes to a stream, which may take some of them; the others stay.
fn write_few<S: Sockets>(
    alloc: Global,
    few: &mut Vec<u8>,
    sockets: &mut S,
    stream: &mut S::Stream,
) -> Answer
    requires { 0 < length few.old.items }
    ensures offers { Offers S.writes few.old.items sockets.old stream.old result few.new.items sockets.new stream.new }
    ensures lean { length few.new.items ≡ 0 → vec_capacity few.new ≡ 0 }
{
    let answer = sockets.write(stream, few);
    if let Answer::Bytes(count) = answer {
        if count < few.len() {
            few.rotate_left(count);
            few.truncate(few.len() - count);
        } else {
            *few = Vec::new(alloc);
        }
    }
    answer
}

impl Unsent {
    pub fn new(alloc: Global) -> Self
        ensures { result ≡ [] }
    {
        Unsent {
            alloc,
            waiting: Waiting::Few(Vec::new(alloc)),
        }
    }

    pub fn len(&self) -> usize
        ensures { result ≡ length self.now }
    {
        match &self.waiting {
            Waiting::Few(few) => few.len(),
            Waiting::Many(queue) => queue.len(),
        }
    }

    /// Bytes behind all others, which aren't copied where nothing waits or they are many.
    pub fn push(&mut self, bytes: Vec<u8>) -> Result<(), AllocError>
        ensures ok { OnOk result (self.new ≡ self.old ++ bytes.items) }
        ensures err { OnErr result (self.new ≡ self.old) }
    {
        if bytes.is_empty() {
            return Ok(());
        }
        match &mut self.waiting {
            Waiting::Many(queue) => queue.push(bytes),
            Waiting::Few(few) => {
                if bytes.len() < SHARED.saturating_sub(few.len()) {
                    return join(few, bytes);
                }
                let mut queue = Box::new(self.alloc, Queue::new(self.alloc))?;
                if few.is_empty() {
                    queue.begin(bytes);
                    self.waiting = Waiting::Many(queue);
                    return Ok(());
                }
                queue.begin(mem::replace(few, Vec::new(self.alloc)));
                let pushed = queue.push(bytes);
                self.waiting = Waiting::Many(queue);
                pushed
            }
        }
    }

    /// Offers the first bytes to a stream, which may take some of them; the others stay.
    pub fn write_to<S: Sockets>(&mut self, sockets: &mut S, stream: &mut S::Stream) -> Answer
        requires { 0 < length self.old }
        ensures { Offers S.writes self.old sockets.old stream.old result self.new sockets.new stream.new }
    {
        match &mut self.waiting {
            Waiting::Few(few) => write_few(self.alloc, few, sockets, stream),
            Waiting::Many(queue) => {
                let answer = queue.write_to(sockets, stream);
                if queue.len() == 0 {
                    self.waiting = Waiting::Few(Vec::new(self.alloc));
                }
                answer
            }
        }
    }
}
