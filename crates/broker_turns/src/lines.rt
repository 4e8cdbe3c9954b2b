//! Links between nodes, and what is given out for them.
ghost use Rattle.std.specs.Prelude.{◌≡◌, ◌<◌, ◌^◌, ◌∷◌, [], length, option_map, slice_index_or, OnOk, OnErr, IfOk};
ghost use Rattle.broker_turns.specs.Lines.{Framed, Noted, again, asks_for, four_at, fresh_line, heard_from, is_due, is_of, is_rested, is_unanswered, link_of, marked, number_in, pushed, takes_more};
ghost use Rattle.broker_turns.specs.Bridging.{IsLineRead, IsLineWritten, Relinks};
ghost use Rattle.broker_turns.specs.Broken.{IsReadOnce};

use broker_sockets::{Answer, Held, PeerEventKind, PeerFrame, Sockets, Unsent};
use std::alloc::{AllocError, Global};

/// One socket between two nodes: what came of a frame that isn't whole yet, and what waits to be written; whether a frame of the peer came since the link began; when
/// more was asked for last, if frames came of that, or the peer answered last; whether its answer to a Delta is awaited; and the numbers of the last Forward that was
/// given for the link and of the last Got of the peer, 0 where there was none.
#[derive(Drop)]
pub struct Line<T: Drop> {
    pub stream: T,
    pub held: Held,
    pub unsent: Unsent,
    pub heard: bool,
    pub asked: Option<u64>,
    pub awaited: bool,
    pub sent: u64,
    pub got: u64,
}

/// A link with more unsent bytes than this is closed.
const MOST_UNSENT: usize = 536870912;

/// A peer that owes an answer for so many milliseconds is given again what it may lack.
const SILENCE: u64 = 1000;

/// More is asked for while fewer unsent bytes wait than these.
const ROOM: usize = 65536;

/// And while fewer messages are unconfirmed.
const MOST_UNCONFIRMED: u64 = 16384;

/// Where a frame has its kind, and the kinds of a Forward and of the Got that answers it, and of a Delta and of the Know that answers it.
const KIND: usize = 4;

const FORWARD: u8 = 4;

const GOT: u8 = 5;

const DELTA: u8 = 6;

const KNOW: u8 = 3;

/// Where a frame has the number of the node that sends it, in two bytes, the higher one first.
const SENDER: usize = 5;

/// Where a Forward and a Got have a number, in eight bytes, the highest one first.
const NUMBER: usize = 9;

/// What a read of a link brought: the frames that it made whole, in order, whether the link goes on, and whether it may have
/// more.
#[derive(Drop)]
pub struct Heard {
    pub frames: Vec<Vec<u8>>,
    pub goes_on: bool,
    pub more: bool,
}

/// Whether so many milliseconds have passed since a moment, if there was one. A clock that is set back doesn't make it longer.
pub fn is_rested(pause: u64, last: Option<u64>, at: u64) -> bool
    ensures { result ≡ is_rested pause at last }
{
    match last {
        Some(last) => at < last || at - last >= pause,
        None => true,
    }
}

/// Whether a frame is of a kind.
fn is_of(kind: u8, frame: &[u8]) -> bool
    ensures { result ≡ is_of kind frame.now }
{
    frame.len() > KIND && frame[KIND] == kind
}

/// The byte at a place of a frame, or 0 behind its end.
fn byte_at(place: usize, frame: &[u8]) -> u64
    ensures same { result ≡ slice_index_or frame.now place 0 }
    ensures small { result < 256 }
{
    match frame.get(place) {
        Some(byte) => u64::from(*byte),
        None => 0,
    }
}

/// The number in four bytes of a frame from a place on.
fn four_at(place: usize, frame: &[u8]) -> u64
    requires { place < 65536 }
    ensures same { result ≡ four_at place frame.now }
    ensures small { result < 4294967296 }
{
    let high = byte_at(place, frame) * 256 + byte_at(place + 1, frame);
    let low = byte_at(place + 2, frame) * 256 + byte_at(place + 3, frame);
    high * 65536 + low
}

/// The number of a Forward or of a Got.
fn number_in(frame: &[u8]) -> u64
    ensures { result ≡ number_in frame.now }
{
    four_at(NUMBER, frame) * 4294967296 + four_at(NUMBER + 4, frame)
}

/// A moment in place of another one, where there was one.
fn again(at: u64, last: Option<u64>) -> Option<u64>
    ensures { result ≡ again at last }
{
    match last {
        Some(_) => Some(at),
        None => None,
    }
}

impl<T: Drop> Line<T> {
    /// A link on which nothing has come and nothing waits.
    pub fn new(alloc: Global, stream: T) -> Self
        ensures { result ≡ fresh_line stream }
    {
        Line {
            stream,
            held: Held::new(alloc),
            unsent: Unsent::new(alloc),
            heard: false,
            asked: None,
            awaited: false,
            sent: 0,
            got: 0,
        }
    }

    /// Whether the peer owes an answer.
    fn is_unanswered(&self) -> bool
        ensures { result ≡ is_unanswered self.now }
    {
        self.awaited || self.got < self.sent
    }

    /// Whether all that the peer may lack is to be asked for at a moment, from the first on. Before the peer is heard it isn't known what it lacks: its Know tells that.
    fn is_due(&self, at: u64) -> bool
        ensures { result ≡ is_due at self.now }
    {
        self.heard
            && self.unsent.len() == 0
            && (self.asked.is_none()
                || (self.is_unanswered() && is_rested(SILENCE, self.asked, at)))
    }

    /// Whether more than was given may be asked for.
    fn takes_more(&self) -> bool
        ensures { result ≡ takes_more self.now }
    {
        self.asked.is_some()
            && self.unsent.len() < ROOM
            && !self.awaited
            && self.sent.saturating_sub(self.got) < MOST_UNCONFIRMED
    }

    /// What is to be asked for at a moment, on the link of a peer, if anything is.
    pub fn asks_for(&self, at: u64, peer: u16) -> Option<PeerEventKind>
        ensures { result ≡ asks_for at peer self.now }
    {
        if self.is_due(at) {
            Some(PeerEventKind::Ship { peer })
        } else if self.takes_more() {
            let after = self.sent;
            Some(PeerEventKind::More { peer, after })
        } else {
            None
        }
    }

    /// Gives a frame to the link.
    fn push(&mut self, bytes: Vec<u8>) -> Result<(), AllocError>
        ensures { OnOk result (self.new ≡ pushed bytes.items self.old) }
    {
        let is_delta = is_of(DELTA, &bytes);
        let is_forward = is_of(FORWARD, &bytes);
        let number = number_in(&bytes);
        self.unsent.push(bytes)?;
        self.awaited = self.awaited || is_delta;
        if is_forward {
            self.sent = number;
        }
        Ok(())
    }

    /// More was asked for at a moment.
    pub fn mark(&mut self, at: u64)
        ensures { self.new ≡ marked at self.old }
    {
        if self.unsent.len() > 0 {
            self.asked = Some(at);
        }
    }

    /// A frame of the peer came at a moment.
    fn hear(&mut self, at: u64, frame: &[u8])
        ensures { self.new ≡ heard_from at frame.now self.old }
    {
        self.heard = true;
        if is_of(GOT, frame) {
            self.asked = again(at, self.asked);
            self.got = number_in(frame);
        } else if is_of(KNOW, frame) {
            self.asked = again(at, self.asked);
            self.awaited = false;
        }
    }
}

/// Asks a link once for bytes.
pub fn read_line<S: Sockets>(
    alloc: Global,
    line: &mut Line<S::Stream>,
    buffer: &mut [u8],
    sockets: &mut S,
) -> Result<Heard, AllocError>
    requires { length buffer.old ≡ 65536 }
    ensures ok { IfOk result (λ heard. IsLineRead S.reads sockets.old line.old heard.frames.items heard.goes_on heard.more sockets.new line.new) }
    ensures fault { OnErr result (IsReadOnce S.reads sockets.old sockets.new) }
{
    match sockets.read(&mut line.stream, buffer) {
        Answer::Later => Ok(Heard {
            frames: Vec::new(alloc),
            goes_on: true,
            more: false,
        }),
        Answer::Bytes(count) => {
            let came = line.held.take(alloc, &buffer[..count])?;
            Ok(Heard {
                frames: came.frames,
                goes_on: came.goes_on,
                more: came.goes_on,
            })
        }
        Answer::Gone => Ok(Heard {
            frames: Vec::new(alloc),
            goes_on: false,
            more: false,
        }),
    }
}

/// Offers what waits to a link, and tells whether it goes on.
pub fn write_line<S: Sockets>(line: &mut Line<S::Stream>, sockets: &mut S) -> bool
    ensures { IsLineWritten S.writes sockets.old line.old result sockets.new line.new }
{
    if line.unsent.len() == 0 {
        return true;
    }
    match line.unsent.write_to(sockets, &mut line.stream) {
        Answer::Later => line.unsent.len() <= MOST_UNSENT,
        Answer::Bytes(_) => line.unsent.len() <= MOST_UNSENT,
        Answer::Gone => false,
    }
}

/// Notes on the link of a peer, if there is one, that a frame of it came at a moment.
fn note_frame<T: Drop>(links: &mut [Option<Line<T>>], at: u64, frame: &[u8], peer: usize)
    requires { peer < length links.old }
    ensures { Relinks links.old links.new peer (option_map (heard_from at frame.now) (link_of links.old peer)) }
{
    if let Some(line) = &mut links[peer] {
        line.hear(at, frame);
    }
}

/// Notes on the link of the node that sends a frame, if there is one, that it came at a moment.
pub fn note_sender<T: Drop>(links: &mut [Option<Line<T>>], at: u64, frame: &[u8])
    ensures { Noted at frame.now links.old links.new }
{
    if frame.len() <= SENDER + 1 {
        return;
    }
    let peer = usize::from(frame[SENDER]) * 256 + usize::from(frame[SENDER + 1]);
    if peer < links.len() {
        note_frame(links, at, frame, peer);
    }
}

/// Gives one frame to the link of its peer, if there is one.
fn give_one<T: Drop>(links: &mut [Option<Line<T>>], frame: PeerFrame) -> Result<(), AllocError>
    ensures ok { OnOk result (Framed (frame ∷ []) links.old links.new) }
    ensures len { OnOk result (length links.new ≡ length links.old) }
{
    let peer = usize::from(frame.peer);
    if peer < links.len() {
        if let Some(line) = &mut links[peer] {
            line.push(frame.bytes)?;
        }
    }
    Ok(())
}

/// Gives frames to the links of their peers, in order.
pub fn give<T: Drop>(
    links: &mut [Option<Line<T>>],
    frames: Vec<PeerFrame>,
) -> Result<(), AllocError>
    ensures ok { OnOk result (Framed frames.items links.old links.new) }
    ensures len { OnOk result (length links.new ≡ length links.old) }
{
    for frame in frames {
        give_one(links, frame)?;
    }
    Ok(())
}
