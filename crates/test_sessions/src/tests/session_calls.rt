//! Calls of a session.

ghost use Rattle.std.specs.Prelude.{◌≡◌, ◌<◌, ◌^◌, Some};
ghost use Rattle.mqtt_sessions.specs.Saved.{begun_session};

use crate::tests::copies::{copy_of, message};
use crate::tests::rows::{changes, reopened, rows};
use crate::tests::told::{self, told};
use crate::tests::words::{connect, level, moment, number, packet, text};
use mqtt_fields::Qos;
use mqtt_message::SharedMessage;
use mqtt_sessions::{Reaction, Session, SessionFault};
use std::alloc::Global;
use std::mem::replace;
use std::process::Abort;

/// CONNECT of a client that takes one PUBLISH at a time.
const CONNECT: &str = "101600044d5154540500003c081100000064210001000161";

/// A session before its first connection.
pub fn fresh(rt: &impl Abort, alloc: Global, client: &str) -> Session
    ensures { result ≡ Some (begun_session client.now) }
{
    Session::new(alloc, text(rt, alloc, client))
}

/// What a call came to, as text.
fn tell(
    rt: &impl Abort,
    alloc: Global,
    answered: Result<Reaction, SessionFault>,
    now: u64,
) -> String {
    let reaction = answered.ok().expect(rt, "no fault");
    let text = told(rt, alloc, &reaction, now);
    drop(reaction);
    text
}

/// A new session in place of the other one, and what its first CONNECT comes to.
fn begin(
    rt: &impl Abort,
    alloc: Global,
    session: &mut Session,
    client: &str,
    digits: &str,
) -> String {
    let connect = connect(rt, alloc, digits);
    drop(replace(session, fresh(rt, alloc, client)));
    let result = session.connect(&connect, false, None, 0);
    drop(connect);
    tell(rt, alloc, result, 0)
}

/// What a later CONNECT comes to, on a connection that takes so many bytes of PUBLISHes, where that is counted.
fn again(
    rt: &impl Abort,
    alloc: Global,
    session: &mut Session,
    digits: &str,
    room: Option<u64>,
    now: u64,
) -> String {
    let connect = connect(rt, alloc, digits);
    let result = session.connect(&connect, true, room, now);
    drop(connect);
    tell(rt, alloc, result, now)
}

/// What it comes to that the connection takes so many bytes from now on.
fn make_room(rt: &impl Abort, alloc: Global, session: &mut Session, bytes: u64) -> String {
    let result = session.make_room(bytes, 0);
    tell(rt, alloc, result, 0)
}

/// What a packet comes to.
fn take(rt: &impl Abort, alloc: Global, session: &mut Session, digits: &str, room: bool) -> String {
    let packet = packet(rt, alloc, digits);
    let result = session.packet(&packet, 0, room);
    drop(packet);
    tell(rt, alloc, result, 0)
}

/// What a copy of a message comes to.
fn queue(
    rt: &impl Abort,
    alloc: Global,
    session: &mut Session,
    message: &SharedMessage,
    qos: Qos,
) -> String {
    let result = session.queue(copy_of(rt, alloc, message, qos), 0);
    tell(rt, alloc, result, 0)
}

/// What a copy of a message with this payload comes to.
fn copy(rt: &impl Abort, alloc: Global, session: &mut Session, payload: &str, qos: Qos) -> String {
    let message = message(rt, alloc, payload, qos, None);
    let text = queue(rt, alloc, session, &message, qos);
    drop(message);
    text
}

/// Queues so many copies at QoS 1.
fn fill(rt: &impl Abort, alloc: Global, session: &mut Session, count: u64) -> String {
    let message = message(rt, alloc, "x", Qos::AtLeastOnce, None);
    let mut last = String::new(alloc);
    for _ in 0..count {
        last = queue(rt, alloc, session, &message, Qos::AtLeastOnce);
    }
    drop(message);
    last
}

/// What codes come to.
fn answer(rt: &impl Abort, alloc: Global, session: &mut Session, id: u64, codes: &str) -> String {
    let codes = hex::decode(alloc, codes).ok().expect(rt, "digits");
    assert!(rt; id > 0 && id < 65_536 && !codes.is_empty());
    let result = session.answer(id as u16, &codes);
    tell(rt, alloc, result, 0)
}

/// What a moment comes to.
fn at(rt: &impl Abort, alloc: Global, session: &mut Session, verb: &str, now: u64) -> String
    requires { now < 2 ^ 62 }
{
    let result = match verb {
        "closed" => session.closed(now),
        "tick" => session.tick(now),
        "finish" => session.finish(now),
        _ => panic!(rt; "{verb} is no call"),
    };
    tell(rt, alloc, result, now)
}

/// Whether the Keep Alive has run out, when the will and the end are due, and the longest packet.
fn due(rt: &impl Abort, alloc: Global, session: &Session, now: u64) -> String {
    let ran_out = session.run_out(now);
    let will = told::number(rt, alloc, session.will_due());
    let end = told::number(rt, alloc, session.end_due());
    let limit = told::number(rt, alloc, session.limit());
    format!(in alloc; "{ran_out} {will} {end} {limit}").expect(rt, "memory")
}

/// The topic of an alias.
fn alias(rt: &impl Abort, alloc: Global, session: &Session, alias: u64) -> String {
    assert!(rt; alias < 65_536);
    let topic = session.alias_topic(alias as u16).unwrap_or("none");
    String::from_str(alloc, topic).expect(rt, "memory")
}

/// Sets so many aliases, each to a letter.
fn aliases(rt: &impl Abort, alloc: Global, session: &mut Session, count: u64) -> String {
    let mut last = String::new(alloc);
    for n in 0..count {
        let digits = format!(in alloc;
            "30080001{:02x}032300{:02x}78",
            n % 16 + 97,
            n % 16 + 1
        ).expect(rt, "memory");
        last = take(rt, alloc, session, digits.as_str(), true);
    }
    last
}

/// Opens so many exchanges from the client.
fn open(rt: &impl Abort, alloc: Global, session: &mut Session, count: u64) -> String {
    let mut last = String::new(alloc);
    for id in 0..count {
        let digits = format!(in alloc; "340700017400{:02x}0078", id % 256 + 1).expect(rt, "memory");
        last = take(rt, alloc, session, digits.as_str(), true);
    }
    last
}

/// Leads a new session to a state: not connected; without an exchange; with exchange 1 to the client and 7 from it; with 1
/// released.
fn lead(rt: &impl Abort, alloc: Global, session: &mut Session, state: u64) {
    if state >= 1 {
        let _connected = begin(rt, alloc, session, "a", CONNECT);
    }
    if state >= 2 {
        let _sent = copy(rt, alloc, session, "x", Qos::ExactlyOnce);
        let _taken = take(rt, alloc, session, "340700017400070078", true);
    }
    if state >= 3 {
        let _released = take(rt, alloc, session, "50020001", true);
    }
}

/// What a packet comes to in a state.
fn kind(rt: &impl Abort, alloc: Global, state: u64, digits: &str) -> String {
    let mut session = fresh(rt, alloc, "a");
    lead(rt, alloc, &mut session, state);
    let text = take(rt, alloc, &mut session, digits, true);
    drop(session);
    text
}

/// What a packet comes to in each state.
fn kinds(rt: &impl Abort, alloc: Global, digits: &str) -> String {
    let mut all = String::new(alloc);
    for state in 0..4 {
        let text = kind(rt, alloc, state, digits);
        all.push('|').expect(rt, "memory");
        all.push_str(text.as_str()).expect(rt, "memory");
    }
    all
}

/// What a call of one word about it comes to.
fn of_word(
    rt: &impl Abort,
    alloc: Global,
    session: &mut Session,
    verb: &str,
    word: &str,
) -> String {
    match verb {
        "changes" => changes(rt, alloc, session),
        "rows" => rows(rt, alloc, session),
        "reopen" => {
            drop(replace(session, reopened(rt, alloc, session)));
            rows(rt, alloc, session)
        }
        "take" => take(rt, alloc, session, word, true),
        "refuse" => take(rt, alloc, session, word, false),
        "kinds" => kinds(rt, alloc, word),
        "room" => make_room(rt, alloc, session, number(rt, word)),
        "open" => open(rt, alloc, session, number(rt, word)),
        "alias" => alias(rt, alloc, session, number(rt, word)),
        "aliases" => aliases(rt, alloc, session, number(rt, word)),
        "fill" => fill(rt, alloc, session, number(rt, word)),
        "due" => due(rt, alloc, session, number(rt, word)),
        _ => at(rt, alloc, session, verb, moment(rt, word)),
    }
}

/// What a call of two words about it comes to.
fn of_words(
    rt: &impl Abort,
    alloc: Global,
    session: &mut Session,
    verb: &str,
    words: (&str, &str),
) -> String {
    let (first, second) = words;
    match verb {
        "new" => begin(rt, alloc, session, first, second),
        "again" => again(rt, alloc, session, first, None, number(rt, second)),
        "within" => again(rt, alloc, session, first, Some(number(rt, second)), 0),
        "copy" => copy(rt, alloc, session, first, level(rt, second)),
        "answer" => answer(rt, alloc, session, number(rt, first), second),
        _ => panic!(rt; "{verb} is no call"),
    }
}

/// What a call comes to: a verb, and one word or two about it.
pub fn answered(rt: &impl Abort, alloc: Global, session: &mut Session, call: &str) -> String {
    let (verb, about) = call.split_once(' ').unwrap_or((call, ""));
    match about.split_once(' ') {
        Some(words) => of_words(rt, alloc, session, verb, words),
        None => of_word(rt, alloc, session, verb, about),
    }
}
