//! Strangers and a user of files, by their bytes: whole, and one byte after another.

ghost use Rattle.std.specs.Prelude.{◌<◌};

use crate::guard_recorder::Recorder;
use crate::guards::{come, sent_at};
use broker_sockets::EventKind;
use door_guard::Guarded;
use door_users::{FileAccess, Users, read_permissions};
use std::alloc::Global;
use std::process::Abort;

/// Made by `mosquitto_passwd` for `alice` with `pass word`.
const USERS: &str =
    "alice:$7$101$tRAb0c6pUOAldhu2$XGI23gpjZeZ0BmctnmJBsPe+bN/rVllXKlHfH6HXUb05ve1imseVSIprFdMbVpriD4Tkj/bQ1XAWMqzL8XA/cw==\n";

/// What she may do.
const RULES: &str = "user alice\ntopic read a/#\ntopic write b/+\nclient alice-*\n";

/// CONNECT of hers, under the identifier `alice-1`.
const ALICE: &[u8] =
    b"\x10\x26\x00\x04MQTT\x05\xc0\x00\x0a\x00\x00\x07alice-1\x00\x05alice\x00\x09pass word";

/// A handler with these files, at which connection 1 is open.
fn opened(rt: &impl Abort, alloc: Global) -> Guarded<Recorder, FileAccess> {
    let users = Users::parse(alloc, USERS).expect(rt, "users");
    let rules = read_permissions(alloc, RULES).expect(rt, "rules");
    let access = FileAccess::new(alloc, users, Some(rules), false).expect(rt, "memory");
    let mut guard = Guarded::new(alloc, Some(access), Recorder::new(alloc));
    sent_at(rt, alloc, &mut guard, EventKind::Opened { connection: 1 });
    guard
}

/// What is sent where these bytes come in pieces of so many, and what the handler inside is told.
fn played(rt: &impl Abort, alloc: Global, bytes: &[u8], most: usize) -> (Vec<u8>, Vec<u8>)
    requires { 0 < most }
{
    let mut guard = opened(rt, alloc);
    let mut sent = Vec::new(alloc);
    for piece in bytes.chunks(most) {
        let answer = come(rt, alloc, &mut guard, piece);
        sent.extend_from_slice(&answer).expect(rt, "memory");
    }
    let told = Vec::from_slice(alloc, &guard.inside().told).expect(rt, "memory");
    drop(guard);
    (sent, told)
}

/// For these bytes this is sent, and this is told, in whatever pieces they come.
fn comes_to(rt: &impl Abort, alloc: Global, bytes: &[u8], sent: &[u8], told: &[u8]) {
    let (answer, known) = played(rt, alloc, bytes, 1);
    assert!(rt; answer.as_slice() == sent);
    assert!(rt; known.as_slice() == told);
    let (answer, known) = played(rt, alloc, bytes, 1_000);
    assert!(rt; answer.as_slice() == sent);
    assert!(rt; known.as_slice() == told);
}

#[test]
fn strangers_get_nothing(rt: HostRuntime) {
    let alloc = rt.alloc();
    let bad: &[u8] = b"\x20\x03\x00\x86\x00\x00";
    let barred: &[u8] = b"\x20\x03\x00\x87\x00\x00";
    let cases: [(&[u8], &[u8], &[u8]); 7] = [
        // no name
        (
            b"\x10\x0e\x00\x04MQTT\x05\x00\x00\x0a\x00\x00\x01c",
            barred,
            b"",
        ),
        // another password, and another name
        (
            b"\x10\x26\x00\x04MQTT\x05\xc0\x00\x0a\x00\x00\x07alice-1\x00\x05alice\x00\x09pass wore",
            bad,
            b"",
        ),
        (
            b"\x10\x26\x00\x04MQTT\x05\xc0\x00\x0a\x00\x00\x07alice-1\x00\x05carol\x00\x09pass word",
            bad,
            b"",
        ),
        // her name without a password
        (
            b"\x10\x1b\x00\x04MQTT\x05\x80\x00\x0a\x00\x00\x07alice-1\x00\x05alice",
            bad,
            b"",
        ),
        // another one's identifier, and a will where she may not write
        (
            b"\x10\x24\x00\x04MQTT\x05\xc0\x00\x0a\x00\x00\x05bob-1\x00\x05alice\x00\x09pass word",
            barred,
            b"",
        ),
        (
            b"\x10\x2d\x00\x04MQTT\x05\xc4\x00\x0a\x00\x00\x07alice-1\x00\x00\x01c\x00\x01x\x00\x05alice\x00\x09pass word",
            barred,
            b"",
        ),
        // PINGREQ, and a SUBSCRIBE to all behind it
        (
            b"\xc0\x00\x82\x07\x00\x07\x00\x00\x01#\x00",
            b"",
            b"O\xc0\x00",
        ),
    ];
    for (bytes, sent, told) in cases {
        comes_to(&rt, alloc, bytes, sent, told);
    }
}

#[test]
fn a_user_gets_what_is_hers(rt: HostRuntime) {
    let alloc = rt.alloc();
    let refused: &[u8] = b"\x90\x04\x00\x07\x00\x87";
    let granted: &[u8] = b"\x90\x04\x00\x07\x00\x01";
    let shared: &[u8] = b"\x82\x12\x00\x07\x00\x00\x0c$share/g/a/x\x00";
    let own: &[u8] = b"\x82\x09\x00\x07\x00\x00\x03a/#\x00";
    let message: &[u8] = b"\x32\x08\x00\x03b/x\x00\x09\x00";
    let cases: [(&[u8], &[u8], &[u8]); 7] = [
        (b"\x82\x07\x00\x07\x00\x00\x01#\x00", refused, b""),
        (b"\x82\x07\x00\x07\x00\x00\x01+\x00", refused, b""),
        (b"\x82\x10\x00\x07\x00\x00\x0a$share/g/#\x00", refused, b""),
        (shared, granted, shared),
        (own, granted, own),
        (
            b"\x32\x06\x00\x01c\x00\x09\x00",
            b"\x40\x03\x00\x09\x87",
            b"",
        ),
        (message, b"", message),
    ];
    for (bytes, sent, told) in cases {
        let mut all = Vec::from_slice(alloc, ALICE).expect(&rt, "memory");
        all.extend_from_slice(bytes).expect(&rt, "memory");
        let mut answers = Vec::from_slice(alloc, b"\x20\x03\x00\x00\x00").expect(&rt, "memory");
        answers.extend_from_slice(sent).expect(&rt, "memory");
        let mut known = Vec::from_slice(alloc, b"O").expect(&rt, "memory");
        known.extend_from_slice(ALICE).expect(&rt, "memory");
        known.extend_from_slice(told).expect(&rt, "memory");
        comes_to(&rt, alloc, &all, &answers, &known);
    }
}
