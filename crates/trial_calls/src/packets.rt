//! A stream of packets that comes in pieces, and a PUBLISH of which a message is made.

use mqtt_fields::Text;
use mqtt_message::Message;
use mqtt_packets::{Framer, Packet, Publish, read_packet};
use std::alloc::Global;
use trial_refusals::{
    Asking, CONNECT, Changing, Fault, PUBLISH, Trial, bytes_of, ensure, try_asking, try_changing,
};

/// How long the pieces are.
const PIECE: usize = 7;

/// Two packets are fed in pieces.
#[derive(Drop)]
struct Feeding {
    framer: Framer,
    stream: Vec<u8>,
    /// Where the second packet begins.
    second: usize,
    /// How many bytes were fed.
    fed: usize,
    /// How many packets were handed over.
    packets: usize,
}

impl Feeding {
    /// Whether the packets before are handed over, and the bytes after them are held.
    fn is_so_far(&self) -> bool {
        let (packets, start) = if self.fed == self.stream.len() {
            (2, self.fed)
        } else if self.fed >= self.second {
            (1, self.second)
        } else {
            (0, 0)
        };
        self.packets == packets && self.stream.get(start..self.fed) == Some(self.framer.rest())
    }

    /// Feeds the next piece; whether there was one.
    fn feed_one(&mut self) -> Result<bool, Fault> {
        let end = self.fed.saturating_add(PIECE).min(self.stream.len());
        let Some(piece) = self.stream.get(self.fed..end) else {
            return Err(Fault::Other);
        };
        if piece.is_empty() {
            return Ok(false);
        }
        let fed = self.framer.feed(piece)?;
        self.fed = end;
        self.packets = self.packets.saturating_add(fed.packets.len());
        Ok(fed.fault.is_none())
    }
}

impl Changing for Feeding {
    fn make(&mut self, _alloc: Global) -> Result<(), Fault> {
        for _ in 0..self.stream.len() {
            if !self.feed_one()? {
                return Ok(());
            }
        }
        Err(Fault::Other)
    }

    fn is_as_before(&mut self) -> bool {
        self.is_so_far()
    }

    fn is_made(&mut self) -> bool {
        self.fed == self.stream.len() && self.is_so_far()
    }
}

/// Tries to feed a CONNECT and a PUBLISH.
pub fn try_feeding(alloc: Global, number: usize) -> Trial {
    let stream = stream(alloc)?;
    let second = bytes_of(alloc, CONNECT)?.len();
    let framer = Framer::new(alloc, 1_000);
    try_changing(
        alloc,
        number,
        &mut Feeding {
            framer,
            stream,
            second,
            fed: 0,
            packets: 0,
        },
    )
}

fn stream(alloc: Global) -> Result<Vec<u8>, Fault> {
    let mut stream = bytes_of(alloc, CONNECT)?;
    let publish = bytes_of(alloc, PUBLISH)?;
    stream.extend_from_slice(&publish)?;
    Ok(stream)
}

/// A PUBLISH of `a` is accepted.
#[derive(Clone, Copy)]
struct Accepting<'a> {
    publish: &'a Publish,
    publisher: &'a Text,
}

impl Asking for Accepting<'_> {
    fn ask(&self, alloc: Global) -> Result<(), Fault> {
        if !Message::can_accept(self.publish) {
            return Err(Fault::Other);
        }
        let message = Message::accept(alloc, self.publish, self.publisher, 1_000)?;
        let is_right = message.deadline == Some(6_000)
            && message.publisher.as_str() == "a"
            && message.topic.as_str() == "t";
        drop(message);
        ensure(is_right)
    }
}

/// Tries to accept the PUBLISH.
fn try_publish(alloc: Global, number: usize, packet: &Packet) -> Trial {
    let publisher = publisher(alloc)?;
    match packet {
        Packet::Publish(publish) => try_asking(
            alloc,
            number,
            &Accepting {
                publish,
                publisher: &publisher,
            },
        ),
        _ => Err(Fault::Other.into()),
    }
}

fn publisher(alloc: Global) -> Result<Text, Fault> {
    let publisher = Text::new(alloc, "a")?;
    Ok(publisher)
}

fn publish(alloc: Global) -> Result<Packet, Fault> {
    let bytes = bytes_of(alloc, PUBLISH)?;
    match read_packet(alloc, &bytes)? {
        Some((packet, _)) => Ok(packet),
        None => Err(Fault::Other),
    }
}

/// Tries to accept the PUBLISH of `x` to `t` of `a`, at 1,000.
pub fn try_accepting(alloc: Global, number: usize) -> Trial {
    let packet = publish(alloc)?;
    let tried = try_publish(alloc, number, &packet);
    drop(packet);
    tried
}
