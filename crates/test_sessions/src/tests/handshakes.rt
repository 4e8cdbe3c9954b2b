//! Exchanges of one session over several connections, a full queue, entries put back, and what came.

ghost use Rattle.std.specs.Prelude.{◌≢◌};
ghost use Rattle.mqtt_fields.specs.declared.options.Qos.TheVariants.{AtMostOnce};

use crate::tests::copies::{self, copy_of};
use mqtt_fields::Qos;
use mqtt_message::SharedMessage;
use qos_handshakes::{Ack, Entry, In, Incoming, Offer, Outgoing, Rec, Stage};
use std::alloc::Global;
use std::process::Abort;

/// The length of the longest packet.
const LONGEST: u64 = 268_435_460;

/// A message that expires at 6,000.
fn message(rt: &impl Abort, alloc: Global) -> SharedMessage {
    copies::message(rt, alloc, "x", Qos::ExactlyOnce, Some(6000))
}

fn offer(
    rt: &impl Abort,
    alloc: Global,
    out: &mut Outgoing,
    message: &SharedMessage,
    qos: Qos,
) -> Offer
    requires { qos ≢ AtMostOnce }
{
    let offered = out.offer(copy_of(rt, alloc, message, qos));
    offered.ok().expect(rt, "memory")
}

/// What is sent, at most ten PUBLISHes: the identifiers, and whether it is sent again.
fn flush(rt: &impl Abort, alloc: Global, out: &mut Outgoing, now: u64) -> Vec<(u16, bool)> {
    let mut sent = Vec::new(alloc);
    for _ in 0..10 {
        let Some(sending) = out.next(now, LONGEST).expect(rt, "memory") else {
            return sent;
        };
        sent.push((sending.id, sending.dup)).expect(rt, "memory");
    }
    sent
}

fn touches(rt: &impl Abort, alloc: Global, out: &mut Outgoing, places: &[u64]) {
    let touched = out.touched(alloc).expect(rt, "memory");
    assert_eq!(rt; touched.as_slice(), places);
}

fn sends(rt: &impl Abort, alloc: Global, out: &mut Outgoing, wanted: &[(u16, bool)]) {
    let sent = flush(rt, alloc, out, 0);
    assert!(rt; sent.as_slice() == wanted);
}

fn releases(rt: &impl Abort, alloc: Global, out: &Outgoing, ids: &[u16]) {
    let owed = out.releases(alloc).expect(rt, "memory");
    assert_eq!(rt; owed.as_slice(), ids);
}

/// Two deliveries at QoS 2 and three at QoS 1 are queued.
fn queued(rt: &impl Abort, alloc: Global, out: &mut Outgoing) {
    let message = message(rt, alloc);
    for qos in [
        Qos::ExactlyOnce,
        Qos::ExactlyOnce,
        Qos::AtLeastOnce,
        Qos::AtLeastOnce,
        Qos::AtLeastOnce,
    ] {
        assert!(rt; matches!(offer(rt, alloc, out, &message, qos), Offer::Queued));
    }
    drop(message);
    touches(rt, alloc, out, &[1, 2, 3, 4, 5]);
}

/// Four are sent, and the client answers the first two.
fn first_connection(rt: &impl Abort, alloc: Global, out: &mut Outgoing) {
    out.resume(4);
    sends(
        rt,
        alloc,
        out,
        &[(1, false), (2, false), (3, false), (4, false)],
    );
    assert!(rt; matches!(out.received(2, 0), Rec::Release));
    assert!(rt; matches!(out.received(1, 0x10), Rec::Release));
    assert!(rt; matches!(out.received(3, 0), Rec::Unknown));
    touches(rt, alloc, out, &[1, 2, 3, 4]);
}

/// The others are sent again, and then the last, under the identifier that is free.
fn second_connection(rt: &impl Abort, alloc: Global, out: &mut Outgoing) {
    out.resume(2);
    releases(rt, alloc, out, &[2, 1]);
    sends(rt, alloc, out, &[(3, true), (4, true)]);
    assert!(rt; matches!(out.acknowledge(3), Ack::Done));
    touches(rt, alloc, out, &[3]);
    sends(rt, alloc, out, &[(3, false)]);
}

/// One exchange is over; the other is released still, after a crash too.
fn completed(rt: &impl Abort, alloc: Global, out: &mut Outgoing) {
    assert!(rt; matches!(out.complete(2), Ack::Done));
    assert!(rt; matches!(out.complete(2), Ack::Unknown));
    assert!(rt; matches!(out.received(1, 0x80), Rec::Release));
    out.lost();
    releases(rt, alloc, out, &[1]);
    sends(rt, alloc, out, &[]);
    touches(rt, alloc, out, &[2, 5]);
}

#[test]
fn later_connections_send_again(rt: HostRuntime) {
    let alloc = rt.alloc();
    let mut out = Outgoing::new(alloc);
    queued(&rt, alloc, &mut out);
    first_connection(&rt, alloc, &mut out);
    second_connection(&rt, alloc, &mut out);
    completed(&rt, alloc, &mut out);
    drop(out);
}

/// Copies of a message fill the queue, and one more is left out.
fn fill(rt: &impl Abort, alloc: Global, out: &mut Outgoing) {
    let message = message(rt, alloc);
    for _ in 0..65_536 {
        let offered = offer(rt, alloc, out, &message, Qos::AtLeastOnce);
        assert!(rt; matches!(offered, Offer::Queued));
    }
    let offered = offer(rt, alloc, out, &message, Qos::AtLeastOnce);
    assert!(rt; matches!(offered, Offer::Full));
    drop(message);
}

#[test]
fn queue_is_full_and_expires(rt: HostRuntime) {
    let alloc = rt.alloc();
    let mut out = Outgoing::new(alloc);
    fill(&rt, alloc, &mut out);
    out.resume(3);
    assert_eq!(rt; flush(&rt, alloc, &mut out, 5999).len(), 3);
    assert!(rt; matches!(out.acknowledge(2), Ack::Done));
    assert_eq!(rt; flush(&rt, alloc, &mut out, 6000).len(), 0);
    assert_eq!(rt; out.next_place(), 65_537);
    assert!(rt; out.entry_from(4).is_none());
    drop(out);
}

/// How many are sent before one has to wait.
fn count_sent(rt: &impl Abort, out: &mut Outgoing) -> usize {
    let mut count: usize = 0;
    for _ in 0..65_536 {
        if out.next(0, LONGEST).expect(rt, "memory").is_none() {
            return count;
        }
        count = count.saturating_add(1);
    }
    count
}

#[test]
fn as_many_as_65535_are_open(rt: HostRuntime) {
    let alloc = rt.alloc();
    let mut out = Outgoing::new(alloc);
    fill(&rt, alloc, &mut out);
    out.resume(65_535);
    assert_eq!(rt; count_sent(&rt, &mut out), 65_535);
    assert!(rt; matches!(out.acknowledge(65_535), Ack::Done));
    assert_eq!(rt; count_sent(&rt, &mut out), 1);
    drop(out);
}

/// An entry at QoS 2.
fn entry(rt: &impl Abort, alloc: Global, stage: Stage) -> Entry {
    Entry {
        stage,
        here: false,
        delivery: copy_of(rt, alloc, &message(rt, alloc), Qos::ExactlyOnce),
    }
}

/// What is made of two entries, where they agree, owes both.
fn owes_both(rt: &impl Abort, alloc: Global, out: &mut Outgoing) {
    out.resume(9);
    assert!(rt; matches!(out.entry_from(2), Some((3, _))));
    let releases = out.releases(alloc).expect(rt, "memory").len();
    let sent = flush(rt, alloc, out, 0).len();
    assert_eq!(rt; releases.saturating_add(sent), 2);
}

/// Two entries at these places are put back, where they agree.
fn put_back(
    rt: &impl Abort,
    alloc: Global,
    first: (u64, Stage),
    second: (u64, Stage),
    agree: bool,
) {
    let mut entries = Vec::new(alloc);
    entries
        .push((first.0, entry(rt, alloc, first.1)))
        .expect(rt, "memory");
    entries
        .push((second.0, entry(rt, alloc, second.1)))
        .expect(rt, "memory");
    let made = Outgoing::from_entries(alloc, entries, 4).expect(rt, "memory");
    assert_eq!(rt; made.is_some(), agree);
    if let Some(mut out) = made {
        owes_both(rt, alloc, &mut out);
        drop(out);
    }
}

#[test]
fn entries_are_put_back(rt: HostRuntime) {
    for (first, second, agree) in [
        ((1, Stage::Published(5)), (3, Stage::Waiting), true),
        ((1, Stage::Published(5)), (3, Stage::Published(5)), false),
        ((3, Stage::Published(5)), (3, Stage::Waiting), false),
        ((1, Stage::Waiting), (3, Stage::Waiting), false),
        (
            (1, Stage::Released(5, 1)),
            (3, Stage::Released(6, 1)),
            false,
        ),
        ((1, Stage::Released(5, 2)), (3, Stage::Released(6, 1)), true),
    ] {
        put_back(&rt, rt.alloc(), first, second, agree);
    }
}

fn publish2(rt: &impl Abort, came: &mut Incoming, id: u16) -> In {
    came.publish2(id).expect(rt, "memory")
}

#[test]
fn messages_come_once(rt: HostRuntime) {
    let mut came = Incoming::new(rt.alloc());
    for id in 1..101 {
        assert!(rt; publish2(&rt, &mut came, id) == In::New);
        assert!(rt; publish2(&rt, &mut came, id) == In::Repeat);
    }
    assert!(rt; publish2(&rt, &mut came, 101) == In::OverMaximum);
    assert!(rt; came.publish1(101) == In::OverMaximum);
    assert!(rt; came.release(7) == Ack::Done);
    assert!(rt; came.release(7) == Ack::Unknown);
    assert!(rt; came.publish1(8) == In::InUse);
    assert!(rt; came.publish1(7) == In::New);
    came.restart();
    assert!(rt; publish2(&rt, &mut came, 8) == In::Repeat);
    assert!(rt; came.in_use(8) && !came.in_use(7));
    drop(came);
}
