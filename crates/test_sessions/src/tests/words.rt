//! Words of calls.

ghost use Rattle.std.specs.Prelude.{◌≡◌, ◌<◌, ◌^◌, IsTrue};
ghost use Rattle.mqtt_packets.specs.Written.{HasSpelling};
ghost use Rattle.mqtt_sessions.specs.State.{IsPublishableIf};

use mqtt_fields::{Qos, Text};
use mqtt_message::{Message, Will};
use mqtt_packets::{Connect, Packet, read_packet};
use std::alloc::Global;
use std::process::Abort;

/// The packet that hexadecimal digits spell.
pub fn packet(rt: &impl Abort, alloc: Global, digits: &str) -> Packet
    ensures { HasSpelling result }
{
    let bytes = hex::decode(alloc, digits).ok().expect(rt, "digits");
    let read = read_packet(alloc, &bytes).ok().expect(rt, "a packet");
    let (packet, _) = read.expect(rt, "a whole packet");
    assert!(rt; packet.is_sound(), "{digits}");
    packet
}

fn is_publishable(will: &Option<Will>) -> bool
    ensures { IsTrue result → IsPublishableIf will.now }
{
    match will {
        Some(will) => Message::can_accept_will(will),
        None => true,
    }
}

/// A CONNECT whose will can be published.
pub fn connect(rt: &impl Abort, alloc: Global, digits: &str) -> Connect
    ensures { IsPublishableIf result.will }
{
    let Packet::Connect(connect) = packet(rt, alloc, digits) else {
        panic!(rt; "{digits} is no CONNECT");
    };
    assert!(rt; is_publishable(&connect.will), "{digits}");
    connect
}

pub fn number(rt: &impl Abort, word: &str) -> u64 {
    word.parse::<u64>().ok().expect(rt, "a number")
}

/// A QoS.
pub fn level(rt: &impl Abort, word: &str) -> Qos {
    let level = word.parse::<u8>().ok().expect(rt, "a number");
    Qos::of(level).expect(rt, "a QoS")
}

/// A moment, or a connection.
pub fn moment(rt: &impl Abort, word: &str) -> u64
    ensures { result < 2 ^ 62 }
{
    let moment = number(rt, word);
    assert!(rt; moment < 1 << 62, "{word}");
    moment
}

pub fn text(rt: &impl Abort, alloc: Global, word: &str) -> Text
    ensures { result ≡ word.now }
{
    Text::new(alloc, word).ok().expect(rt, "a text")
}
