//! PUBLISH packets, read from a stream and written.

use bench_clock::{Failure, Stopwatch, ensure};
use mqtt_fields::identifier::{CONTENT_TYPE, MESSAGE_EXPIRY_INTERVAL};
use mqtt_fields::{Properties, Property, Qos, Text, Value};
use mqtt_packets::{Bytes, Framer, Packet, Publish, write_packet};
use std::alloc::Global;

/// How many bytes a read of the stream brings.
const PIECE: usize = 4096;

/// The longest packet that is read.
const LIMIT: usize = 1 << 20;

fn text(alloc: Global, s: &str) -> Result<Text, Failure> {
    Text::new(alloc, s).ok().ok_or(Failure::Answer)
}

// A Message Expiry Interval.
fn interval() -> Property {
    Property {
        id: MESSAGE_EXPIRY_INTERVAL,
        value: Value::Four(60),
    }
}

// A Content Type.
fn content_type(alloc: Global) -> Result<Property, Failure> {
    Ok(Property {
        id: CONTENT_TYPE,
        value: Value::Text(text(alloc, "text/plain")?),
    })
}

fn push(properties: &mut Properties, property: Property) -> Result<(), Failure> {
    Ok(properties.push(property)?)
}

// A Message Expiry Interval and a Content Type.
fn two_properties(alloc: Global, properties: &mut Properties) -> Result<(), Failure> {
    push(properties, interval())?;
    push(properties, content_type(alloc)?)
}

fn payload(alloc: Global, len: usize) -> Result<Bytes, Failure> {
    Ok(Bytes::new(vec![in alloc; 0x61; len]?))
}

fn publish(alloc: Global, len: usize, properties: Properties) -> Result<Packet, Failure> {
    let (Ok(topic), Ok(payload)) = (text(alloc, "sensors/12/temperature"), payload(alloc, len))
    else {
        return Err(Failure::Memory);
    };
    Ok(Packet::Publish(Publish {
        dup: false,
        qos: Qos::AtLeastOnce,
        retain: false,
        topic,
        identifier: 7,
        properties,
        payload,
    }))
}

fn write(alloc: Global, packet: &Packet, out: &mut Vec<u8>) -> Result<(), Failure> {
    if !packet.is_sound() {
        return Err(Failure::Answer);
    }
    Ok(write_packet(alloc, packet, out)?)
}

// So many packets in a row.
fn stream(alloc: Global, packet: &Packet, count: u64) -> Result<Vec<u8>, Failure> {
    let mut stream = Vec::new(alloc);
    for _ in 0..count {
        write(alloc, packet, &mut stream)?;
    }
    Ok(stream)
}

// How many packets the framer cuts off a piece.
fn fed(framer: &mut Framer, piece: &[u8]) -> Result<u64, Failure> {
    match framer.feed(piece) {
        Ok(fed) if fed.fault.is_none() => Ok(fed.packets.len() as u64),
        _ => Err(Failure::Answer),
    }
}

// How many packets the framer cuts off the stream.
fn feed(framer: &mut Framer, stream: &[u8]) -> Result<u64, Failure> {
    let mut count = 0u64;
    for piece in stream.chunks(PIECE) {
        count = count.saturating_add(fed(framer, piece)?);
    }
    Ok(count)
}

// How many packets the framer cuts off the stream, which it is fed so many times over.
fn feed_times(framer: &mut Framer, stream: &[u8], times: u64) -> Result<u64, Failure> {
    let mut packets = 0u64;
    for _ in 0..times {
        packets = packets.saturating_add(feed(framer, stream)?);
    }
    Ok(packets)
}

// Reads the packets of a stream, so many times over.
fn read(
    rt: &HostRuntime,
    name: &str,
    stream: &[u8],
    count: u64,
    times: u64,
) -> Result<(), Failure> {
    let mut framer = Framer::new(rt.alloc(), LIMIT);
    let watch = Stopwatch::start(rt);
    let packets = feed_times(&mut framer, stream, times);
    drop(framer);
    let packets = packets?;
    let bytes = times.saturating_mul(stream.len() as u64);
    watch?.print_bytes(rt, name, packets, bytes)?;
    ensure(packets == count.saturating_mul(times))
}

fn decode(rt: &HostRuntime, packet: &Packet, part: &Part) -> Result<(), Failure> {
    let stream = stream(rt.alloc(), packet, part.count)?;
    read(rt, part.decode, stream.as_slice(), part.count, part.times)
}

// Writes so many packets, of which the last ones stay, and answers how many bytes there were.
fn write_all(
    alloc: Global,
    packet: &Packet,
    count: u64,
    out: &mut Vec<u8>,
) -> Result<u64, Failure> {
    let mut bytes = 0u64;
    for _ in 0..count {
        if out.len() >= LIMIT {
            bytes = bytes.saturating_add(out.len() as u64);
            out.clear();
        }
        write(alloc, packet, out)?;
    }
    Ok(bytes.saturating_add(out.len() as u64))
}

fn encode(rt: &HostRuntime, name: &str, packet: &Packet, count: u64) -> Result<(), Failure> {
    let mut out = Vec::with_capacity(rt.alloc(), 2 * LIMIT)?;
    let watch = Stopwatch::start(rt)?;
    let bytes = write_all(rt.alloc(), packet, count, &mut out)?;
    Ok(watch.print_bytes(rt, name, count, bytes)?)
}

// What is timed of a packet.
#[derive(Clone, Copy)]
struct Part {
    decode: &'static str,
    /// How many packets the stream has, and how often it is read.
    count: u64,
    times: u64,
    encode: &'static str,
    /// How many packets are written.
    written: u64,
}

fn figures(rt: &HostRuntime, packet: &Packet, part: &Part) -> Result<(), Failure> {
    decode(rt, packet, part)?;
    encode(rt, part.encode, packet, part.written)
}

fn time(rt: &HostRuntime, packet: Packet, part: &Part) -> Result<(), Failure> {
    let told = figures(rt, &packet, part);
    drop(packet);
    told
}

fn plain(rt: &HostRuntime) -> Result<(), Failure> {
    let part = Part {
        decode: "decode of 64 bytes",
        count: 20_000,
        times: 10,
        encode: "encode of 64 bytes",
        written: 200_000,
    };
    let packet = publish(rt.alloc(), 64, Properties::new(rt.alloc()))?;
    time(rt, packet, &part)
}

fn with_properties(alloc: Global) -> Result<Packet, Failure> {
    let mut properties = Properties::new(alloc);
    two_properties(alloc, &mut properties)?;
    publish(alloc, 64, properties)
}

fn with_two(rt: &HostRuntime) -> Result<(), Failure> {
    let part = Part {
        decode: "decode of 64 bytes, two properties",
        count: 20_000,
        times: 10,
        encode: "encode of 64 bytes, two properties",
        written: 200_000,
    };
    let packet = with_properties(rt.alloc())?;
    time(rt, packet, &part)
}

fn long(rt: &HostRuntime) -> Result<(), Failure> {
    let part = Part {
        decode: "decode of 64 KiB",
        count: 100,
        times: 20,
        encode: "encode of 64 KiB",
        written: 2000,
    };
    let packet = publish(rt.alloc(), 65_536, Properties::new(rt.alloc()))?;
    time(rt, packet, &part)
}

/// The figures of packets.
pub fn run(rt: &HostRuntime) -> Result<(), Failure> {
    plain(rt)?;
    with_two(rt)?;
    long(rt)
}
