//! What a client of a version before 5 gets.

ghost use Rattle.std.specs.Prelude.{◌≡◌, [], IfOk, OnOk, true};
ghost use Rattle.door_mqtt3.specs.Sending.{IsNext, closed_by, gotten, sent_of, sent_then};

use crate::client::{Client, after};
use crate::exchanges::OpenExchanges;
use crate::held::HeldBytes;
use mqtt_fields::NoMemory;
use mqtt_packets::{Bytes, Packet, PacketFault};
use mqtt3_packets::{Level, ends, write_packet, write_publish_at};
use std::alloc::Global;

/// An exchange is over where the packet says so.
fn finish(exchanges: &mut OpenExchanges, packet: &Packet)
    ensures { exchanges.new ≡ closed_by packet.now exchanges.old }
{
    if let Packet::Pubcomp(ack) = packet {
        exchanges.end(ack.identifier);
    }
}

/// What the packet in front of some bytes comes to.
#[derive(Clone, Copy, Debug, PartialEq, Eq)]
enum Next {
    /// It takes so many of the bytes, and what tells of it is put.
    Put(usize),
    /// It can't be told, and the connection has to end.
    Ends,
    /// No packet stands there.
    Stops,
}

/// Appends what tells a client of a level of the packet in front, which is read and written.
fn put_read(
    alloc: Global,
    level: Level,
    exchanges: &mut OpenExchanges,
    bytes: &[u8],
    sent: &mut Vec<u8>,
) -> Result<Next, NoMemory>
    ensures { IfOk result (λ next. IsNext level bytes.now exchanges.old exchanges.new sent.old.items sent.new.items next) }
{
    match mqtt_packets::read_packet(alloc, bytes) {
        Ok(Some((packet, used))) => {
            if ends(level, &packet) {
                return Ok(Next::Ends);
            }
            finish(exchanges, &packet);
            write_packet(level, &packet, sent)?;
            Ok(Next::Put(used))
        }
        Ok(None) => Ok(Next::Stops),
        Err(fault) => match fault {
            PacketFault::NoMemory => Err(NoMemory),
            _ => Ok(Next::Stops),
        },
    }
}

/// Appends what tells a client of a level of the packet in front.
fn put_next(
    alloc: Global,
    level: Level,
    exchanges: &mut OpenExchanges,
    bytes: &[u8],
    sent: &mut Vec<u8>,
) -> Result<Next, NoMemory>
    ensures { IfOk result (λ next. IsNext level bytes.now exchanges.old exchanges.new sent.old.items sent.new.items next) }
{
    match write_publish_at(alloc, bytes, sent)? {
        Some(used) => Ok(Next::Put(used)),
        None => put_read(alloc, level, exchanges, bytes, sent),
    }
}

/// Appends what tells these packets to a client of a level, and answers whether the connection has to end behind that.
fn put_packets(
    alloc: Global,
    level: Level,
    exchanges: &mut OpenExchanges,
    bytes: &[u8],
    sent: &mut Vec<u8>,
) -> Result<bool, NoMemory>
    ensures { IfOk result (λ ended. record { bytes = sent.new.items; exchanges = exchanges.new; ends = ended } ≡ sent_then sent.old.items (sent_of level exchanges.old bytes.now)) }
{
    let mut rest = bytes;
    for count in 0..bytes.len() {
        match put_next(alloc, level, exchanges, rest, sent)? {
            Next::Put(used) => rest = after(rest, used),
            Next::Ends => return Ok(true),
            Next::Stops => return Ok(false),
        }
    }
    Ok(false)
}

impl Client {
    /// Its packets aren't looked at any more, and nothing more is sent to it.
    fn end(&mut self, alloc: Global)
        ensures { self.new ≡ record self.old { partial = []; held = []; ended = true; silenced = true } }
    {
        self.partial = Bytes::new(Vec::new(alloc));
        self.held = HeldBytes::new(alloc);
        self.ended = true;
        self.silenced = true;
    }

    /// What is sent to it where the handler inside gives these packets, and whether its connection has to end.
    pub(crate) fn get(&mut self, alloc: Global, bytes: &[u8]) -> Result<(Vec<u8>, bool), NoMemory>
        ensures sent { IfOk result (λ x. x.0.items ≡ (gotten self.old bytes.now).sent) }
        ensures ends { IfOk result (λ x. x.1 ≡ (gotten self.old bytes.now).ends) }
        ensures client { OnOk result (self.new ≡ (gotten self.old bytes.now).client) }
    {
        let mut sent = Vec::new(alloc);
        if self.silenced {
            return Ok((sent, false));
        }
        let ends = put_packets(alloc, self.level, &mut self.exchanges, bytes, &mut sent)?;
        if ends {
            self.end(alloc);
        }
        Ok((sent, ends))
    }
}
