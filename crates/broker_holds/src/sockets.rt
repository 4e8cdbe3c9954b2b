//! Sockets on which clients are held back.

ghost use Rattle.std.specs.Prelude.{◌≡◌, ◌==◌, ℕ, length, true, false, IfOk};
ghost use Rattle.std.specs.BTreeMap.{IsUnchanged, get};
ghost use Rattle.std.specs.Ordering.{nat_cmp};
ghost use Rattle.broker_holds.specs.Holding.{due_of, forgotten, forgotten_one, held_by, is_over, latest, link_told};
ghost use Rattle.broker_sockets.specs.Answers.{CarriesSome, IsWithin, carried};

use crate::strain::{Strain, Strained};
use crate::stream::HeldStream;
use broker_sockets::{Answer, Readiness, Ready, Sockets, Watched};
use std::alloc::{AllocError, Global};
use std::collections::BTreeMap;
use std::io;
use std::net::SocketAddr;
use std::rc::Rc;

/// Sockets over others, on which a client that publishes is held back while too much waits for another node. What it sends waits at the network, as if
/// that were slow: its stream answers `Later`, and is told as ready once less waits, or the client was held back as long as it may be.
///
/// A client is held back only from where a PUBLISH of it came while too much waited, and for half its Keep Alive at most: so its packets come in time.
/// Meanwhile, and for a second after that, little is read at once of each client.
///
/// A link that was dialled stands from when bytes are carried on it until it fails, or its peer is dialled again.
#[derive(Drop)]
pub struct HoldingSockets<S> {
    sockets: S,
    strain: Rc<Strain>,
    /// Who was held back since he was told as ready last, and until when.
    held: BTreeMap<usize, u64>,
}

/// Whether a link stands, where what a call on it answered tells that.
fn link_told(answer: Answer) -> Option<bool>
    ensures { result ≡ link_told answer }
{
    match answer {
        Answer::Later => None,
        Answer::Bytes(_) => Some(true),
        Answer::Gone => Some(false),
    }
}

/// Whether who was held back until a moment is told as ready.
fn is_over(strained: &Option<Strained>, until: u64) -> bool
    ensures { result ≡ is_over strained.now until }
{
    match strained {
        Some(strained) => until <= strained.at,
        None => true,
    }
}

impl<S> HoldingSockets<S> {
    /// Over these sockets, by what is told here.
    pub fn new(alloc: Global, sockets: S, strain: Rc<Strain>) -> HoldingSockets<S> {
        HoldingSockets {
            sockets,
            strain,
            held: BTreeMap::new(alloc),
        }
    }

    /// Hands out the sockets inside.
    pub fn into_inside(self) -> S
        ensures { result ≡ self.sockets }
    {
        let HoldingSockets {
            sockets,
            strain: _strain,
            held: _held,
        } = self;
        sockets
    }

    /// Holds a client back, where he is to be held back and that can be noted.
    fn holds<T>(
        &mut self,
        client: usize,
        stream: &HeldStream<T>,
        strained: &Option<Strained>,
    ) -> bool
        ensures sockets { self.new.sockets ≡ self.old.sockets }
        ensures held { result ≡ true → (held_by stream.now strained.now ≡ Some (latest stream.now)) × (get nat_cmp self.new.held client ≡ Some (latest stream.now)) }
        ensures others { result ≡ true → (other : ℕ) → (client == other) ≡ false → get nat_cmp self.new.held other ≡ get nat_cmp self.old.held other }
        ensures free { result ≡ false → IsUnchanged self.old.held self.new.held }
    {
        let Some(until) = stream.held_by(strained) else {
            return false;
        };
        match self.held.insert(client, until) {
            Ok(_) => true,
            Err(_) => false,
        }
    }

    /// Tells whether a link to another node stands, where what a call on its stream answered tells that.
    fn tell_link<T>(&self, stream: &HeldStream<T>, answer: Answer) {
        if let Some(peer) = stream.peer() {
            if let Some(stands) = link_told(answer) {
                self.strain.tell_link(peer, stands);
            }
        }
    }

    /// How many bytes are read at once.
    fn most<T>(&self, stream: &HeldStream<T>) -> usize {
        if self.strain.is_calm() {
            usize::MAX
        } else {
            stream.most()
        }
    }

    /// Who is told as ready now: of those who were held back all, where no more than may waits, and else those who were long enough.
    fn due(&self, alloc: Global, strained: &Option<Strained>) -> Result<Vec<usize>, AllocError>
        ensures { IfOk result (λ due. due.items ≡ due_of strained.now self.now.held.entries) }
    {
        let mut due = Vec::new(alloc);
        for (client, until) in self.held.iter() {
            if is_over(strained, *until) {
                due.push(*client)?;
            }
        }
        Ok(due)
    }
}

impl<S: Sockets> HoldingSockets<S> {
    /// This client isn't noted any more.
    fn remove(&mut self, client: usize)
        ensures sockets { self.new.sockets ≡ self.old.sockets }
        ensures at { get nat_cmp self.new.held client ≡ None }
        ensures others { (other : ℕ) → (client == other) ≡ false → get nat_cmp self.new.held other ≡ get nat_cmp self.old.held other }
    {
        self.held.remove(&client);
    }

    /// So it is with him, and with nobody else.
    fn forget_one(&mut self, client: usize)
        ensures sockets { self.new.sockets ≡ self.old.sockets }
        ensures held { (other : ℕ) → get nat_cmp self.new.held other ≡ forgotten_one other client (get nat_cmp self.old.held other) }
    {
        self.remove(client);
    }

    /// These aren't noted any more.
    fn forget(&mut self, due: &[usize])
        ensures sockets { self.new.sockets ≡ self.old.sockets }
        ensures held { (other : ℕ) → get nat_cmp self.new.held other ≡ forgotten other due.now (get nat_cmp self.old.held other) }
    {
        for client in due {
            self.forget_one(*client);
        }
    }

    /// Reads a client's stream that isn't held back, so many bytes at most.
    fn read_client(
        &mut self,
        stream: &mut HeldStream<S::Stream>,
        buffer: &mut [u8],
        strained: Option<Strained>,
    ) -> Answer
        ensures some { CarriesSome result }
        ensures within { IsWithin result (length buffer.new) }
        ensures carried { S.reads self.old.sockets stream.old.stream result (carried result buffer.new) self.new.sockets stream.new.stream }
        ensures held { self.new.held ≡ self.old.held }
    {
        let answer = self.sockets.read(&mut stream.stream, buffer);
        if let Answer::Bytes(count) = answer {
            stream.take(&buffer[..count], strained);
        }
        answer
    }
}

impl<S: Sockets> Sockets for HoldingSockets<S> {
    type Listener = S::Listener;

    type Stream = HeldStream<S::Stream>;

    ghost use Rattle.std.specs.BTreeMap.{IsUnchanged};
    ghost use Rattle.broker_holds.specs.Holding.{IsReadOrHeld};

    ghost listens = { λ n address listener n'. S.listens n.sockets address listener n'.sockets × IsUnchanged n.held n'.held };

    ghost accepts = { λ n _ _ n'. IsUnchanged n.held n'.held };

    ghost connects = { λ n _ _ n'. IsUnchanged n.held n'.held };

    ghost reads = { IsReadOrHeld S.reads };

    ghost writes = { λ n t offered answer n' t'. S.writes n.sockets t.stream offered answer n'.sockets t'.stream × IsUnchanged n.held n'.held };

    fn listen(&mut self, address: SocketAddr) -> io::Result<S::Listener> {
        self.sockets.listen(address)
    }

    fn address(&self, listener: &S::Listener) -> Option<SocketAddr> {
        self.sockets.address(listener)
    }

    fn accept(&mut self, listener: &S::Listener) -> Option<HeldStream<S::Stream>> {
        Some(HeldStream::new(self.sockets.accept(listener)?))
    }

    fn connect(&mut self, address: SocketAddr) -> io::Result<HeldStream<S::Stream>> {
        Ok(HeldStream::new(self.sockets.connect(address)?))
    }

    fn read(&mut self, stream: &mut HeldStream<S::Stream>, buffer: &mut [u8]) -> Answer {
        let Some(client) = stream.client() else {
            let answer = self.sockets.read(&mut stream.stream, buffer);
            self.tell_link(stream, answer);
            return answer;
        };
        let strained = self.strain.get();
        if self.holds(client, stream, &strained) {
            return Answer::Later;
        }
        let most = self.most(stream).min(buffer.len());
        self.read_client(stream, &mut buffer[..most], strained)
    }

    fn write(&mut self, stream: &mut HeldStream<S::Stream>, bytes: &[u8]) -> Answer {
        let answer = self.sockets.write(&mut stream.stream, bytes);
        self.tell_link(stream, answer);
        answer
    }
}

impl<S: Readiness> Readiness for HoldingSockets<S> {
    ghost use Rattle.std.specs.BTreeMap.{IsUnchanged};
    ghost use Rattle.broker_holds.specs.Holding.{AreFound};

    ghost watches = { λ n t name watched n'. S.watches n.sockets t.stream name watched n'.sockets × IsUnchanged n.held n'.held };

    ghost finds = { AreFound S.finds };

    fn watch(&mut self, stream: &mut HeldStream<S::Stream>, name: Watched) -> bool {
        stream.name(name);
        if let Watched::Peer(peer) = name {
            self.strain.tell_link(peer, false);
        }
        self.sockets.watch(&mut stream.stream, name)
    }

    fn ready(&mut self, alloc: Global) -> Result<Ready, AllocError> {
        let mut found = self.sockets.ready(alloc)?;
        let strained = self.strain.get();
        let due = self.due(alloc, &strained)?;
        found.clients.extend_from_slice(&due)?;
        self.forget(&due);
        Ok(found)
    }
}
