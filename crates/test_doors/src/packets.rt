//! Packets of a client, and what is written for it. The bytes are those of the figures of MQTT 3.1.1, chapter 3.

use mqtt_fields::{Properties, Qos};
use mqtt_packets::{Ack, Packet, PacketFault};
use mqtt3_packets::{
    FrontPublish, Level, Version, ends, read_packet, return_code, version_of, widen_publish_at,
    write_packet, write_publish_at,
};
use std::alloc::Global;
use std::process::Abort;

/// CONNECT of MQTT 3.1.1 with Clean Session, a Keep Alive of 10 seconds and the identifier "a".
const CONNECT: &[u8] = b"\x10\x0d\x00\x04MQTT\x04\x02\x00\x0a\x00\x01a";

#[test]
fn a_version_is_told_by_the_first_bytes(rt: HostRuntime) {
    let limit = 1_048_576;
    assert!(rt; version_of(limit, CONNECT) == Some(Version::Before(Level::Four, false)));
    assert!(rt; version_of(limit, &CONNECT[..8]) == None);
    assert!(rt; version_of(limit, b"\x10\x0d\x00\x04MQTT\x05") == Some(Version::Five));
    assert!(rt;
        version_of(limit, b"\x10\x0f\x00\x06MQIsdp\x83")
            == Some(Version::Before(Level::Three, true))
    );
    assert!(rt; version_of(limit, b"\x10\x0d\x00\x04MQTT\x03") == Some(Version::Unserved));
}

#[test]
fn a_packet_is_read(rt: HostRuntime) {
    let alloc = rt.alloc();
    let found = read_packet(alloc, Level::Four, 100, CONNECT).expect(&rt, "it is one");
    let (packet, used) = found.expect(&rt, "it is whole");
    assert_eq!(rt; used, 15);
    match packet {
        Packet::Connect(connect) => {
            assert!(rt;
                connect.clean_start && connect.keep_alive == 10 && connect.client.as_str() == "a"
            );
        }
        _ => assert!(rt; false),
    }
    let short = read_packet(alloc, Level::Four, 100, &CONNECT[..14]).expect(&rt, "it may be one");
    assert!(rt; short.is_none());
    // SUBSCRIBE with flags that are 0, which MQTT 3.1 doesn't look at
    let flags = b"\x80\x06\x00\x01\x00\x01a\x01";
    assert!(rt; read_packet(alloc, Level::Three, 100, flags).is_ok());
    match read_packet(alloc, Level::Four, 100, flags) {
        Err(fault) => assert!(rt; fault == PacketFault::Malformed),
        Ok(_) => assert!(rt; false),
    }
}

#[test]
fn a_packet_is_written(rt: HostRuntime) {
    let alloc = rt.alloc();
    let puback = |reason| {
        Packet::Puback(Ack {
            identifier: 258,
            reason,
            properties: Properties::new(alloc),
        })
    };
    let mut out = Vec::new(alloc);
    write_packet(Level::Four, &puback(0x10), &mut out).expect(&rt, "memory");
    assert!(rt; out.as_slice() == b"\x40\x02\x01\x02".as_slice());
    assert!(rt; !ends(Level::Four, &puback(0x10)) && ends(Level::Four, &puback(0x97)));
    assert!(rt; return_code(0x85) == Some(2) && return_code(0x97) == None);
}

#[test]
fn a_publish_is_cut(rt: HostRuntime) {
    let alloc = rt.alloc();
    // at QoS 1, with a User Property, and PINGRESP behind it
    let given: &[u8] = b"\x32\x11\x00\x03a/b\x00\x0a\x07\x26\x00\x01k\x00\x01vhi\xd0\x00";
    let mut out = Vec::new(alloc);
    let used = write_publish_at(alloc, given, &mut out).expect(&rt, "memory");
    assert!(rt; used == Some(19));
    assert!(rt; out.as_slice() == b"\x32\x09\x00\x03a/b\x00\x0ahi".as_slice());
    for other in [&given[..18], &given[19..]] {
        let used = write_publish_at(alloc, other, &mut out).expect(&rt, "memory");
        assert!(rt; used.is_none() && out.len() == 11);
    }
}

#[test]
fn a_publish_is_widened(rt: HostRuntime) {
    let alloc = rt.alloc();
    // at QoS 1, and PINGREQ behind it
    let sent: &[u8] = b"\x32\x09\x00\x03a/b\x00\x0ahi\xc0\x00";
    let mut out = Vec::new(alloc);
    let found = widen_publish_at(11, sent, &mut out).expect(&rt, "memory");
    let publish = FrontPublish {
        used: 11,
        qos: Qos::AtLeastOnce,
        identifier: 10,
    };
    assert!(rt; found == Some(publish));
    assert!(rt; out.as_slice() == b"\x32\x0a\x00\x03a/b\x00\x0a\x00hi".as_slice());
    // its end is missing, it isn't a PUBLISH, and it is longer than the limit
    for (limit, other) in [(100, &sent[..10]), (100, &sent[11..]), (10, sent)] {
        let found = widen_publish_at(limit, other, &mut out).expect(&rt, "memory");
        assert!(rt; found.is_none() && out.len() == 12);
    }
}

/// The fault of the packet in front, if there is one.
fn fault_of(alloc: Global, bytes: &[u8]) -> Option<PacketFault> {
    match read_packet(alloc, Level::Four, 100, bytes) {
        Err(fault) => Some(fault),
        Ok(_) => None,
    }
}

#[test]
fn a_publish_at_fault_is_not_widened(rt: HostRuntime) {
    let alloc = rt.alloc();
    let malformed = PacketFault::Malformed;
    let wrong = PacketFault::ProtocolError;
    let faulty: [(&[u8], PacketFault); 9] = [
        // QoS 3; DUP at QoS 0; a length of five bytes
        (b"\x36\x05\x00\x01a\x00\x01", malformed),
        (b"\x38\x03\x00\x01a", malformed),
        (b"\x30\x83\x80\x80\x80\x00\x00\x01a", malformed),
        // a topic that ends behind the packet, has U+0000, or isn't UTF-8
        (b"\x30\x03\x00\x02ab", malformed),
        (b"\x30\x04\x00\x02a\x00", malformed),
        (b"\x30\x04\x00\x02a\xff", malformed),
        // half an identifier; an empty topic; the identifier 0
        (b"\x32\x04\x00\x01a\x00", malformed),
        (b"\x30\x03\x00\x00x", wrong),
        (b"\x34\x05\x00\x01a\x00\x00", wrong),
    ];
    let mut out = Vec::new(alloc);
    for (bytes, fault) in faulty {
        let found = widen_publish_at(100, bytes, &mut out).expect(&rt, "memory");
        assert!(rt; found.is_none() && out.is_empty());
        assert!(rt; fault_of(alloc, bytes) == Some(fault));
    }
}
