//! A client of a version before 5, and what it sends.

ghost use Rattle.std.specs.Prelude.{◌≡◌, ◌≤◌, ◌++◌, [], ◌∷◌, IfOk, MatchOption, OnOk, length, drop, take};
ghost use Rattle.door_mqtt3.specs.Client.{come, come_on, done_with, fault_bytes, fresh, handed, halts, has_room, is_disconnect, opened_at, opened_by, opened_with, over, overrun, overtakes, received, rejected, waits, walk, went_on, withheld};
ghost use Rattle.door_mqtt3.specs.Client.Notice.{Asks, Faults};
ghost use Rattle.door_mqtt3.specs.Doing.{Appends, IsDone, IsOutcome, IsPassing, IsTaken, IsToldBy, IsUntouched, IsWalk};

use crate::asked::{asked, is_refused};
use crate::exchanges::OpenExchanges;
use crate::held::HeldBytes;
use crate::taken::Taken;
use mqtt_fields::{LONGEST_PACKET, MOST_EXCHANGES, NoMemory, Qos};
use mqtt_packets::{Bytes, Packet, PacketFault};
use mqtt3_packets::{Level, read_packet, widen_publish_at};
use std::alloc::Global;
use std::mem;

/// Bytes that begin no packet of MQTT 5.0.
const MALFORMED: [u8; 1] = [0];

/// The beginning of a packet that is too large.
const TOO_LARGE: [u8; 5] = [0x30, 0xff, 0xff, 0xff, 0x7f];

/// CONNACK with return code 2 (3.2.2.3).
const REJECTED: [u8; 4] = [0x20, 2, 0, 2];

/// A client whose version is known.
#[derive(Drop)]
pub(crate) struct Client {
    pub(crate) level: Level,
    pub(crate) bridge: bool,
    /// Whether its level is served. Where it isn't, what it sends is handed on as it is.
    pub(crate) served: bool,
    /// What came and isn't a whole packet yet.
    pub(crate) partial: Bytes,
    /// Whole packets that are held back, since too many exchanges are open.
    pub(crate) held: HeldBytes,
    pub(crate) exchanges: OpenExchanges,
    /// Its packets aren't looked at any more, since its connection ends.
    pub(crate) ended: bool,
    /// Nothing more is sent to it, since something couldn't be told to it.
    pub(crate) silenced: bool,
}

/// In which of two orders packets are gone through.
#[derive(Clone, Copy, Debug, PartialEq, Eq)]
pub(crate) enum Order {
    /// As they come.
    Coming,
    /// As they were held back.
    Waiting,
}

/// Whether a packet overtakes those that are held back.
fn overtakes(packet: &Packet) -> bool
    ensures { result ≡ overtakes packet.now }
{
    match packet {
        Packet::Puback(_)
        | Packet::Pubrec(_)
        | Packet::Pubrel(_)
        | Packet::Pubcomp(_)
        | Packet::Pingreq
        | Packet::Disconnect(_) => true,
        _ => false,
    }
}

fn is_disconnect(packet: &Packet) -> bool
    ensures { result ≡ is_disconnect packet.now }
{
    match packet {
        Packet::Disconnect(_) => true,
        _ => false,
    }
}

/// The identifier of the exchange at QoS 2 that a PUBLISH with this QoS and this identifier begins.
fn opened_at(qos: Qos, identifier: u16) -> Option<u16>
    ensures { result ≡ opened_at qos identifier }
{
    match qos {
        Qos::ExactlyOnce => Some(identifier),
        _ => None,
    }
}

/// The identifier of the exchange at QoS 2 that a packet begins.
fn opened_by(packet: &Packet) -> Option<u16>
    ensures { result ≡ opened_by packet.now }
{
    match packet {
        Packet::Publish(publish) => opened_at(publish.qos, publish.identifier),
        _ => None,
    }
}

/// Tells of a fault.
fn put_fault(fault: PacketFault, told: &mut Vec<u8>) -> Result<(), NoMemory>
    ensures { OnOk result (told.new.items ≡ told.old.items ++ fault_bytes fault) }
{
    match fault {
        PacketFault::TooLarge => told.extend_from_slice(&TOO_LARGE)?,
        _ => told.extend_from_slice(&MALFORMED)?,
    }
    Ok(())
}

/// Tells of a packet.
#[tactic(auto, using(crate::proofs::Paths::asks_spelled, crate::proofs::Paths::asks_unspelled))]
fn put_packet(alloc: Global, packet: &Packet, told: &mut Vec<u8>) -> Result<(), NoMemory>
    ensures { OnOk result (Appends (Asks packet.now ∷ []) told.old.items told.new.items) }
{
    if packet.is_sound() {
        mqtt_packets::write_packet(alloc, packet, told)?;
        return Ok(());
    }
    put_fault(PacketFault::Malformed, told)?;
    Ok(())
}

/// What comes after so many bytes.
pub(crate) fn after(bytes: &[u8], used: usize) -> &[u8]
    requires { used ≤ length bytes.now }
    ensures { result.now ≡ drop used bytes.now }
{
    &bytes[used..]
}

/// What is left of a stream, of which so many bytes are used.
fn rest_of(alloc: Global, stream: Vec<u8>, used: usize) -> Result<Bytes, NoMemory>
    requires { used ≤ length stream.items }
    ensures { IfOk result (λ rest. rest ≡ drop used stream.items) }
{
    if used == 0 {
        return Ok(Bytes::new(stream));
    }
    Bytes::from_slice(alloc, &stream[used..])
}

impl Client {
    /// A client of which nothing came.
    pub(crate) fn new(alloc: Global, level: Level, bridge: bool, served: bool) -> Client
        ensures { result ≡ fresh level bridge served }
    {
        Client {
            level,
            bridge,
            served,
            partial: Bytes::new(Vec::new(alloc)),
            held: HeldBytes::new(alloc),
            exchanges: OpenExchanges::new(alloc),
            ended: false,
            silenced: false,
        }
    }

    fn has_room(&self) -> bool
        ensures { result ≡ has_room self.now }
    {
        self.exchanges.len() < MOST_EXCHANGES
    }

    /// Whether a packet has to wait.
    fn waits(&self, packet: &Packet) -> bool
        ensures { result ≡ waits self.now packet.now }
    {
        if overtakes(packet) {
            false
        } else if self.held.len() == 0 {
            opened_by(packet).is_some() && !self.has_room()
        } else {
            true
        }
    }

    /// Notes an exchange that a packet begins.
    fn note(&mut self, opened: Option<u16>) -> Result<(), NoMemory>
        ensures { OnOk result (self.new ≡ opened_with opened self.old) }
    {
        if let Some(identifier) = opened {
            self.exchanges.begin(identifier)?;
        }
        Ok(())
    }

    /// Refuses a client for its missing identifier.
    fn refuse(&mut self, taken: &mut Taken) -> Result<(), NoMemory>
        ensures client { OnOk result (self.new ≡ over self.old) }
        ensures told { OnOk result (Appends (Faults PacketFault.ProtocolError ∷ []) taken.old.told.items taken.new.told.items) }
        ensures first { OnOk result (taken.new.first.items ≡ taken.old.first.items ++ rejected) }
    {
        self.ended = true;
        taken.first.extend_from_slice(&REJECTED)?;
        put_fault(PacketFault::ProtocolError, &mut taken.told)
    }

    /// Hands a packet on.
    #[tactic(auto, using(crate::proofs::Walking::hand_on))]
    fn hand(&mut self, alloc: Global, packet: Packet, taken: &mut Taken) -> Result<(), NoMemory>
        ensures { OnOk result (IsOutcome (handed self.old packet) self.new taken.old taken.new) }
    {
        if is_refused(self.level, &packet) {
            return self.refuse(taken);
        }
        let bridge = self.bridge;
        self.note(opened_by(&packet))?;
        let asking = asked(alloc, bridge, packet)?;
        put_packet(alloc, &asking, &mut taken.told)?;
        Ok(())
    }

    /// Hands on the first packet that is held back, and nothing after it.
    fn overrun(&mut self, alloc: Global, taken: &mut Taken) -> Result<(), NoMemory>
        ensures { OnOk result (IsOutcome (overrun self.old) self.new taken.old taken.new) }
    {
        match read_packet(alloc, self.level, LONGEST_PACKET, self.held.as_slice()) {
            Ok(Some((packet, _))) => self.hand(alloc, packet, taken)?,
            Ok(None) => {}
            Err(fault) => {
                if fault == PacketFault::NoMemory {
                    return Err(NoMemory);
                }
            }
        }
        self.ended = true;
        Ok(())
    }

    /// Holds back a packet, whose bytes these are.
    fn hold(&mut self, alloc: Global, bytes: &[u8], taken: &mut Taken) -> Result<(), NoMemory>
        ensures { OnOk result (IsOutcome (withheld self.old bytes.now) self.new taken.old taken.new) }
    {
        if bytes.len() > LONGEST_PACKET.saturating_sub(self.held.len()) {
            return self.overrun(alloc, taken);
        }
        self.held.push(bytes)
    }

    /// Takes a packet as it comes, whose bytes these are.
    fn take(
        &mut self,
        alloc: Global,
        packet: Packet,
        bytes: &[u8],
        taken: &mut Taken,
    ) -> Result<(), NoMemory>
        ensures { OnOk result (IsOutcome (received self.old packet bytes.now) self.new taken.old taken.new) }
    {
        if self.waits(&packet) {
            return self.hold(alloc, bytes, taken);
        }
        if is_disconnect(&packet) {
            self.held = HeldBytes::new(alloc);
        }
        self.hand(alloc, packet, taken)
    }

    fn halts(&self, order: Order) -> bool
        ensures { result ≡ halts order self.now }
    {
        match order {
            Order::Coming => self.ended,
            Order::Waiting => self.ended || !self.has_room(),
        }
    }

    /// Takes a packet, or hands it on.
    fn pass(
        &mut self,
        alloc: Global,
        order: Order,
        packet: Packet,
        bytes: &[u8],
        taken: &mut Taken,
    ) -> Result<(), NoMemory>
        ensures { OnOk result (IsOutcome (done_with order self.old packet bytes.now) self.new taken.old taken.new) }
    {
        match order {
            Order::Coming => self.take(alloc, packet, bytes, taken),
            Order::Waiting => self.hand(alloc, packet, taken),
        }
    }

    /// Hands on the PUBLISH in front of these bytes, which isn't read, and answers how many bytes it takes. `None`, and nothing is done, where no whole and
    /// right one stands there, and where a PUBLISH may have to wait.
    fn hand_publish(&mut self, bytes: &[u8], taken: &mut Taken) -> Result<Option<usize>, NoMemory>
        ensures { IfOk result (λ o. MatchOption o (IsUntouched self.old self.new taken.old taken.new) (λ used. (order : Order) → IsDone order bytes.now used self.old self.new taken.old taken.new)) }
    {
        if self.held.len() != 0 || !self.has_room() {
            return Ok(None);
        }
        match widen_publish_at(LONGEST_PACKET, bytes, &mut taken.told)? {
            None => Ok(None),
            Some(publish) => {
                self.note(opened_at(publish.qos, publish.identifier))?;
                Ok(Some(publish.used))
            }
        }
    }

    /// Reads the packet in front of these bytes, takes it or hands it on, and answers how many bytes it takes; `None` where no whole one stands there, or
    /// a fault, which is told.
    fn pass_read(
        &mut self,
        alloc: Global,
        order: Order,
        bytes: &[u8],
        taken: &mut Taken,
    ) -> Result<Option<usize>, NoMemory>
        ensures { IfOk result (λ o. IsPassing order bytes.now self.old self.new taken.old taken.new o) }
    {
        match read_packet(alloc, self.level, LONGEST_PACKET, bytes) {
            Ok(Some((packet, used))) => {
                self.pass(alloc, order, packet, &bytes[..used], taken)?;
                Ok(Some(used))
            }
            Ok(None) => Ok(None),
            Err(fault) => match fault {
                PacketFault::NoMemory => Err(NoMemory),
                _ => {
                    self.ended = true;
                    put_fault(fault, &mut taken.told)?;
                    Ok(None)
                }
            },
        }
    }

    /// Takes the packet in front of these bytes, or hands it on, and answers how many bytes it takes; `None` where no whole one stands there, or a fault,
    /// which is told.
    fn pass_next(
        &mut self,
        alloc: Global,
        order: Order,
        bytes: &[u8],
        taken: &mut Taken,
    ) -> Result<Option<usize>, NoMemory>
        ensures { IfOk result (λ o. IsPassing order bytes.now self.old self.new taken.old taken.new o) }
    {
        match self.hand_publish(bytes, taken)? {
            Some(used) => Ok(Some(used)),
            None => self.pass_read(alloc, order, bytes, taken),
        }
    }

    /// Goes through the whole packets of these bytes, and answers how many bytes they take.
    fn walk(
        &mut self,
        alloc: Global,
        order: Order,
        bytes: &[u8],
        taken: &mut Taken,
    ) -> Result<usize, NoMemory>
        ensures walk { IfOk result (λ used. IsWalk (walk order self.old bytes.now) (drop used bytes.now) self.new taken.old taken.new) }
        ensures used { IfOk result (λ used. used ≤ length bytes.now) }
    {
        let mut rest = bytes;
        for count in 0..bytes.len() {
            if self.halts(order) {
                return Ok(bytes.len() - rest.len());
            }
            match self.pass_next(alloc, order, rest, taken)? {
                Some(used) => rest = after(rest, used),
                None => return Ok(bytes.len() - rest.len()),
            }
        }
        Ok(bytes.len() - rest.len())
    }

    /// What came and isn't a whole packet yet, and these bytes behind it. Nothing is kept.
    fn stream(&mut self, alloc: Global, bytes: Vec<u8>) -> Result<Vec<u8>, NoMemory>
        ensures stream { IfOk result (λ stream. stream.items ≡ self.old.partial ++ bytes.items) }
        ensures left { OnOk result (self.new ≡ record self.old { partial = [] }) }
    {
        let partial = mem::replace(&mut self.partial, Bytes::new(Vec::new(alloc)));
        let mut stream = partial.into_vec();
        if stream.is_empty() {
            return Ok(bytes);
        }
        stream.extend_from_slice(&bytes)?;
        Ok(stream)
    }

    /// What comes of bytes that it has sent, where these are looked at.
    fn come_on(&mut self, alloc: Global, bytes: Vec<u8>) -> Result<Taken, NoMemory>
        ensures { IfOk result (λ t. IsTaken (come_on self.old bytes.items) self.new t) }
    {
        let mut taken = Taken::none(alloc);
        let stream = self.stream(alloc, bytes)?;
        let used = self.walk(alloc, Order::Coming, &stream, &mut taken)?;
        if !self.ended {
            self.partial = rest_of(alloc, stream, used)?;
        }
        Ok(taken)
    }

    /// What comes of bytes that it has sent.
    pub(crate) fn come(&mut self, alloc: Global, bytes: Vec<u8>) -> Result<Taken, NoMemory>
        ensures { IfOk result (λ t. IsTaken (come self.old bytes.items) self.new t) }
    {
        if !self.served {
            return Ok(Taken::of(alloc, bytes));
        }
        if self.ended {
            let mut taken = Taken::none(alloc);
            put_fault(PacketFault::Malformed, &mut taken.told)?;
            return Ok(taken);
        }
        self.come_on(alloc, bytes)
    }

    /// What the handler inside is told of what was held back, as far as there is room for it now.
    pub(crate) fn go_on(&mut self, alloc: Global) -> Result<Vec<u8>, NoMemory>
        ensures { IfOk result (λ told. IsToldBy (went_on self.old) self.new told.items) }
    {
        let mut taken = Taken::none(alloc);
        let mut held = mem::replace(&mut self.held, HeldBytes::new(alloc));
        let used = self.walk(alloc, Order::Waiting, held.as_slice(), &mut taken)?;
        held.skip(used);
        self.held = held;
        Ok(taken.told)
    }
}
