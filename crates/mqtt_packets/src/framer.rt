//! Packets of a stream that comes in pieces.

ghost use Rattle.std.specs.Prelude.{◌≡◌, ◌≤◌, ◌<◌, ◌↔◌, ◌++◌, [], true, false, length, take, drop, is_some, slice_get, IfOk, IfSome, IfErr, OnErr, IsErrOf, IsOk, Ok, Err, Some, None};
ghost use Rattle.mqtt_packets.specs.declared.fault.PacketFault.TheVariants as packet_faults;
ghost use Rattle.mqtt_packets.specs.declared.framer.FeedFault.TheVariants as faults;
ghost use Rattle.mqtt_packets.specs.Memory.{HasHeader, FaultWants, FeedWants};
ghost use Rattle.mqtt_packets.specs.Stream.{before, cut, step_at, kept, kept_of, held_rest};

use crate::fault::PacketFault;
use crate::packet::Packet;
use crate::stream::{header_of, step_of};
use std::alloc::{AllocError, AllocFailed, Global};
use std::marker::Model;

/// Why a piece was not taken.
#[derive(Clone, Copy, Debug, PartialEq, Eq)]
pub enum FeedFault {
    /// A fault came before.
    Failed,
    /// Memory ran out; the framer is as it was.
    NoMemory,
}

impl From<AllocError> for FeedFault {
    ghost from_gives = { λ _ e. e ≡ faults.NoMemory };

    fn from(_e: AllocError) -> FeedFault {
        FeedFault::NoMemory
    }
}

impl<T: Drop> From<AllocFailed<T>> for FeedFault {
    ghost from_gives = { λ _ e. e ≡ faults.NoMemory };

    fn from(_e: AllocFailed<T>) -> FeedFault {
        FeedFault::NoMemory
    }
}

/// The packets that a piece made whole, and the fault after them.
#[derive(Drop)]
pub struct Fed {
    pub packets: Vec<Packet>,
    pub fault: Option<PacketFault>,
}

/// Cuts packets off the front of the bytes, and adds them to those that are there.
#[tactic(auto, using(crate::proofs::MemoryLaws::wants_at))]
fn cut_after(
    alloc: Global,
    limit: usize,
    mut packets: Vec<Packet>,
    bytes: &[u8],
) -> Result<(Vec<Packet>, &[u8], Option<PacketFault>), FeedFault>
    ensures cut { IfOk result (λ x. before packets.items (cut limit bytes.now)
        ≡ record { packets = x.0.items; rest = x.1.now; fault = x.2 }) }
    ensures named { IfOk result (λ x. x.2 ≡ Some packet_faults.NoMemory → ⊥) }
    ensures at_fault { IfOk result (λ x. IfSome x.2 (λ _. 0 < length x.1.now)) }
    ensures memory { IfErr result (λ e. e ≡ faults.NoMemory) }
    ensures no_memory { OnErr result (FaultWants limit bytes.now) }
{
    let mut rest = bytes;
    loop {
        match step_of(alloc, limit, rest) {
            Ok(Some((packet, after))) => {
                packets.push(packet)?;
                rest = after;
            }
            Ok(None) => return Ok((packets, rest, None)),
            Err(fault) => match fault {
                PacketFault::NoMemory => return Err(FeedFault::NoMemory),
                _ => return Ok((packets, rest, Some(fault))),
            },
        }
    }
}

/// How many bytes the packets at the front take, with them.
fn cut_used(
    alloc: Global,
    limit: usize,
    bytes: &[u8],
) -> Result<(Vec<Packet>, usize, Option<PacketFault>), FeedFault>
    ensures cut { IfOk result (λ x. cut limit bytes.now
        ≡ record { packets = x.0.items; rest = drop x.1 bytes.now; fault = x.2 }) }
    ensures named { IfOk result (λ x. x.2 ≡ Some packet_faults.NoMemory → ⊥) }
    ensures used { IfOk result (λ x. x.1 ≤ length bytes.now) }
    ensures at_fault { IfOk result (λ x. IfSome x.2 (λ _. x.1 < length bytes.now)) }
    ensures memory { IfErr result (λ e. e ≡ faults.NoMemory) }
{
    let (packets, rest, fault) = cut_after(alloc, limit, Vec::new(alloc), bytes)?;
    Ok((packets, bytes.len() - rest.len(), fault))
}

/// The packet that takes all of the bytes, if there is one.
fn whole_of(alloc: Global, limit: usize, bytes: &[u8]) -> Result<Option<Packet>, FeedFault>
    ensures whole { IfOk result (λ o. IfSome o (λ p. step_at limit bytes.now ≡ Ok (Some (p, [])))) }
    ensures memory { IfErr result (λ e. e ≡ faults.NoMemory) }
{
    match step_of(alloc, limit, bytes) {
        Ok(Some((packet, after))) => {
            if after.is_empty() {
                Ok(Some(packet))
            } else {
                Ok(None)
            }
        }
        Ok(None) => Ok(None),
        Err(fault) => match fault {
            PacketFault::NoMemory => Err(FeedFault::NoMemory),
            _ => Ok(None),
        },
    }
}

/// What is kept of a rest: all of it, or of a packet at fault the first byte, which takes no memory.
fn keep(
    alloc: Global,
    rest: &[u8],
    fault: Option<PacketFault>,
) -> Result<(Vec<u8>, Option<u8>), FeedFault>
    requires { IfSome fault (λ _. 0 < length rest.now) }
    ensures rest { IfOk result (λ x. held_rest x.1 x.0.items ≡ kept_of fault rest.now) }
    ensures at_fault { IfOk result (λ x. is_some x.1 ≡ is_some fault) }
    ensures memory { IfErr result (λ e. e ≡ faults.NoMemory) }
    ensures no_memory { OnErr result (fault ≡ None) }
{
    if fault.is_some() {
        return Ok((Vec::new(alloc), rest.first().copied()));
    }
    let rest = Vec::from_slice(alloc, rest)?;
    Ok((rest, None))
}

/// The packets of a piece after others, and what is kept of it.
fn fed_after(
    alloc: Global,
    limit: usize,
    packets: Vec<Packet>,
    piece: &[u8],
) -> Result<(Fed, Vec<u8>, Option<u8>), FeedFault>
    ensures cut { IfOk result (λ x. kept (before packets.items (cut limit piece.now))
        ≡ record { packets = x.0.packets.items; rest = held_rest x.2 x.1.items; fault = x.0.fault }) }
    ensures named { IfOk result (λ x. x.0.fault ≡ Some packet_faults.NoMemory → ⊥) }
    ensures at_fault { IfOk result (λ x. is_some x.2 ≡ is_some x.0.fault) }
    ensures memory { IfErr result (λ e. e ≡ faults.NoMemory) }
    ensures no_memory { OnErr result (FaultWants limit piece.now) }
{
    let (packets, rest, fault) = cut_after(alloc, limit, packets, piece)?;
    let (rest, at_fault) = keep(alloc, rest, fault)?;
    Ok((Fed { packets, fault }, rest, at_fault))
}

/// The packets of a packet that is held and of a piece after it, and what is kept; `None` where no packet
/// takes all that is held.
fn fed_on(
    alloc: Global,
    limit: usize,
    held: &[u8],
    piece: &[u8],
) -> Result<Option<(Fed, Vec<u8>, Option<u8>)>, FeedFault>
    ensures cut { IfOk result (λ o. IfSome o (λ x. kept (cut limit (held.now ++ piece.now))
        ≡ record { packets = x.0.packets.items; rest = held_rest x.2 x.1.items; fault = x.0.fault })) }
    ensures named { IfOk result (λ o. IfSome o (λ x. x.0.fault ≡ Some packet_faults.NoMemory → ⊥)) }
    ensures at_fault { IfOk result (λ o. IfSome o (λ x. is_some x.2 ≡ is_some x.0.fault)) }
    ensures memory { IfErr result (λ e. e ≡ faults.NoMemory) }
{
    let Some(packet) = whole_of(alloc, limit, held)? else {
        return Ok(None);
    };
    let mut packets = Vec::new(alloc);
    packets.push(packet)?;
    let fed = fed_after(alloc, limit, packets, piece)?;
    Ok(Some(fed))
}

/// A byte of what is held and a piece after it.
fn byte_at(held: &[u8], piece: &[u8], place: usize) -> Option<u8>
    ensures { result ≡ slice_get (held.now ++ piece.now) place }
{
    if place < held.len() {
        return Some(held[place]);
    }
    piece.get(place - held.len()).copied()
}

/// The bytes at the front, as many as a packet's first byte and its length can have.
fn front_of(held: &[u8], piece: &[u8]) -> ([u8; 5], usize)
    ensures len { result.1 ≤ 5 }
    ensures front { take result.1 result.0 ≡ take 5 (held.now ++ piece.now) }
{
    let mut front = [0; 5];
    for place in 0..5 {
        let Some(byte) = byte_at(held, piece, place) else {
            return (front, place);
        };
        front[place] = byte;
    }
    (front, 5)
}

/// The length in all of the packet in front, once that has come, unless it can't be or is above the limit.
#[tactic(auto, unfolding(crate::specs::Stream::step_at))]
fn total_of(limit: usize, bytes: &[u8]) -> Result<Option<usize>, PacketFault>
    ensures fault { IfErr result (λ f. step_at limit bytes.now ≡ Err f) }
    ensures header { IfOk result (λ _. HasHeader limit bytes.now) }
    ensures named { IsErrOf result PacketFault.NoMemory → ⊥ }
{
    match header_of(bytes)? {
        None => Ok(None),
        Some((_, len, rest)) => {
            let total = bytes.len() - rest.len() + len as usize;
            if total > limit {
                return Err(PacketFault::TooLarge);
            }
            Ok(Some(total))
        }
    }
}

/// How many bytes of the piece end the packet that is held, unless its first byte or its length can't be, or
/// it is above the limit.
///
/// A framer is right with any number; with this one each byte is copied at most once before its packet is
/// read.
fn missing(limit: usize, held: &[u8], piece: &[u8]) -> Result<usize, PacketFault>
    ensures few { IfOk result (λ n. n ≤ length piece.now) }
    ensures fault { IfErr result (λ f. cut limit (held.now ++ piece.now)
        ≡ record { packets = []; rest = held.now ++ piece.now; fault = Some f }) }
    ensures header { IfOk result (λ _. HasHeader limit (held.now ++ piece.now)) }
    ensures named { IsErrOf result PacketFault.NoMemory → ⊥ }
{
    let (front, len) = front_of(held, piece);
    match total_of(limit, &front[..len]) {
        Ok(Some(total)) => Ok(total.saturating_sub(held.len()).min(piece.len())),
        Ok(None) => Ok(piece.len()),
        Err(fault) => Err(fault),
    }
}

/// Cuts a stream into packets.
#[derive(Drop)]
pub struct Framer {
    limit: usize,
    buffer: Vec<u8>,
    at_fault: Option<u8>,
}

impl Model for Framer {
    ghost use Rattle.std.specs.Prelude.{is_some};
    ghost use Rattle.mqtt_packets.specs.Stream.{Held, held_rest};

    ghost Value = { Held };

    ghost view = { λ f. record { limit = f.limit; rest = held_rest f.at_fault f.buffer.items; failed = is_some f.at_fault } };
}

impl Framer {
    /// A framer that takes packets of at most so many bytes in all.
    pub fn new(alloc: Global, limit: usize) -> Framer
        ensures { result ≡ record { limit = limit; rest = []; failed = false } }
    {
        Framer {
            limit,
            buffer: Vec::new(alloc),
            at_fault: None,
        }
    }

    /// The bytes that no packet took yet; after a fault only the first byte of the packet at fault.
    pub fn rest(&self) -> &[u8]
        ensures { result.now ≡ self.now.rest }
    {
        match &self.at_fault {
            Some(first) => std::slice::from_ref(first),
            None => self.buffer.as_slice(),
        }
    }

    /// The first byte of the rest, or of the packet at fault.
    pub fn first(&self) -> Option<u8>
        ensures { result ≡ slice_get self.now.rest 0 }
    {
        match self.at_fault {
            Some(first) => Some(first),
            None => self.buffer.first().copied(),
        }
    }

    /// Cuts what is held with a piece after it. For want of memory so many bytes are held on.
    fn cut_held(&mut self, start: usize, piece: &[u8]) -> Result<Fed, FeedFault>
        requires { self.old.failed ≡ false }
        ensures cut { IfOk result (λ fed. kept (cut self.old.limit (self.old.rest ++ piece.now))
            ≡ record { packets = fed.packets.items; rest = self.new.rest; fault = fed.fault }) }
        ensures named { IfOk result (λ fed. fed.fault ≡ Some packet_faults.NoMemory → ⊥) }
        ensures after { IfOk result (λ fed. (self.new.failed ≡ is_some fed.fault)
            × (self.new.limit ≡ self.old.limit)) }
        ensures memory { IfErr result (λ e. e ≡ faults.NoMemory) }
        ensures err { OnErr result (self.new ≡ record self.old { rest = take start self.old.rest }) }
    {
        let alloc = *self.buffer.allocator();
        let held = self.buffer.len();
        if self.buffer.extend_from_slice(piece).is_err() {
            self.buffer.truncate(start);
            return Err(FeedFault::NoMemory);
        }
        match cut_used(alloc, self.limit, &self.buffer) {
            Ok((packets, used, fault)) => {
                if fault.is_some() {
                    self.at_fault = Some(self.buffer[used]);
                    self.buffer = Vec::new(alloc);
                } else {
                    self.buffer.drain(..used);
                }
                Ok(Fed { packets, fault })
            }
            Err(e) => {
                self.buffer.truncate(held);
                self.buffer.truncate(start);
                Err(e)
            }
        }
    }

    /// Feeds a piece of which so many bytes end the packet that is held.
    fn feed_on(&mut self, missing: usize, piece: &[u8]) -> Result<Fed, FeedFault>
        requires sound { self.old.failed ≡ false }
        requires few { missing ≤ length piece.now }
        ensures cut { IfOk result (λ fed. kept (cut self.old.limit (self.old.rest ++ piece.now))
            ≡ record { packets = fed.packets.items; rest = self.new.rest; fault = fed.fault }) }
        ensures named { IfOk result (λ fed. fed.fault ≡ Some packet_faults.NoMemory → ⊥) }
        ensures after { IfOk result (λ fed. (self.new.failed ≡ is_some fed.fault)
            × (self.new.limit ≡ self.old.limit)) }
        ensures memory { IfErr result (λ e. e ≡ faults.NoMemory) }
        ensures err { OnErr result (self.new ≡ self.old) }
    {
        let alloc = *self.buffer.allocator();
        let start = self.buffer.len();
        let (end, piece) = piece.split_at(missing);
        self.buffer.extend_from_slice(end)?;
        match fed_on(alloc, self.limit, &self.buffer, piece) {
            Ok(Some((fed, rest, at_fault))) => {
                self.buffer = rest;
                self.at_fault = at_fault;
                Ok(fed)
            }
            Ok(None) => self.cut_held(start, piece),
            Err(e) => {
                self.buffer.truncate(start);
                Err(e)
            }
        }
    }

    /// Hands over the packets that are whole now, and the fault after them, which is for good.
    #[tactic(auto, using(crate::proofs::MemoryLaws::first_piece, crate::proofs::MemoryLaws::next_piece))]
    pub fn feed(&mut self, piece: &[u8]) -> Result<Fed, FeedFault>
        // Of a packet at fault the first byte alone is kept.
        ensures cut { IfOk result (λ fed. kept (cut self.old.limit (self.old.rest ++ piece.now))
            ≡ record { packets = fed.packets.items; rest = self.new.rest; fault = fed.fault }) }

        // Want of memory is no fault of the bytes.
        ensures named { IfOk result (λ fed. fed.fault ≡ Some packet_faults.NoMemory → ⊥) }
        ensures after { IfOk result (λ fed. (self.new.failed ≡ is_some fed.fault)
            × (self.new.limit ≡ self.old.limit) × (self.old.failed ≡ false)) }
        ensures failed { IsErrOf result FeedFault.Failed ↔ (self.old.failed ≡ true) }
        ensures err { OnErr result (self.new ≡ self.old) }

        // A fault that stands before anything has to grow is answered, whatever memory there is.
        ensures no_memory { IsErrOf result FeedFault.NoMemory
            → FeedWants self.old.limit self.old.rest piece.now }
    {
        if self.at_fault.is_some() {
            return Err(FeedFault::Failed);
        }
        let alloc = *self.buffer.allocator();
        if self.buffer.is_empty() {
            let (fed, rest, at_fault) = fed_after(alloc, self.limit, Vec::new(alloc), piece)?;
            self.buffer = rest;
            self.at_fault = at_fault;
            return Ok(fed);
        }
        match missing(self.limit, &self.buffer, piece) {
            Ok(missing) => self.feed_on(missing, piece),
            Err(fault) => {
                self.at_fault = Some(self.buffer[0]);
                self.buffer = Vec::new(alloc);
                Ok(Fed {
                    packets: Vec::new(alloc),
                    fault: Some(fault),
                })
            }
        }
    }
}
