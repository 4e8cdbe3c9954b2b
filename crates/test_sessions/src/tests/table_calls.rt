//! Calls of a table of sessions.

ghost use Rattle.std.specs.Prelude.{◌<◌, ◌^◌};

use crate::tests::told::{clients, counted, number, pairs};
use crate::tests::words::{connect, moment, packet, text};
use home_table::homes_of;
use mqtt_fields::{NoMemory, Text};
use mqtt_sessions::SessionFault;
use session_table::{Addressed, Sessions};
use std::alloc::Global;
use std::process::Abort;

/// What a call came to, as text.
fn tell(
    rt: &impl Abort,
    alloc: Global,
    answered: Result<Option<Addressed>, SessionFault>,
) -> String {
    let Some(answer) = answered.ok().expect(rt, "no fault") else {
        return String::from_str(alloc, "no session").expect(rt, "memory");
    };
    let text = counted(rt, alloc, &answer);
    drop(answer);
    text
}

/// What a client's CONNECT on a connection comes to.
fn open(
    rt: &impl Abort,
    alloc: Global,
    sessions: &mut Sessions,
    client: &Text,
    words: (&str, &str, &str),
) -> String {
    let (digits, connection, now) = words;
    let connect = connect(rt, alloc, digits);
    let (connection, now) = (moment(rt, connection), moment(rt, now));
    let mut changes = Vec::new(alloc);
    let result = sessions.connect(client, connection, &connect, true, None, now, &mut changes);
    drop((connect, changes));
    tell(rt, alloc, result)
}

/// What a client's packet comes to.
fn take(
    rt: &impl Abort,
    alloc: Global,
    sessions: &mut Sessions,
    client: &Text,
    digits: &str,
    now: u64,
) -> String
    requires { now < 2 ^ 62 }
{
    let packet = packet(rt, alloc, digits);
    let mut changes = Vec::new(alloc);
    let result = sessions.packet(client, &packet, now, true, &mut changes);
    drop((packet, changes));
    tell(rt, alloc, result)
}

/// What it comes to that a client's connection takes so many bytes from now on.
fn make_room(
    rt: &impl Abort,
    alloc: Global,
    sessions: &mut Sessions,
    client: &Text,
    bytes: u64,
    now: u64,
) -> String {
    let mut changes = Vec::new(alloc);
    let result = sessions.make_room(client, bytes, now, &mut changes);
    drop(changes);
    tell(rt, alloc, result)
}

/// What a moment comes to.
fn at(
    rt: &impl Abort,
    alloc: Global,
    sessions: &mut Sessions,
    verb: &str,
    client: &Text,
    now: u64,
) -> String
    requires { now < 2 ^ 62 }
{
    let mut changes = Vec::new(alloc);
    let result = match verb {
        "closed" => sessions.closed(client, now, &mut changes),
        "tick" => sessions.tick(client, now, &mut changes),
        "finish" => sessions.finish(client, now, &mut changes),
        _ => panic!(rt; "{verb} is no call"),
    };
    drop(changes);
    tell(rt, alloc, result)
}

/// What is due at a moment.
fn due(rt: &impl Abort, alloc: Global, sessions: &Sessions, verb: &str, now: u64) -> String {
    let due = match verb {
        "run_out" => sessions.run_out(alloc, now),
        "wills" => sessions.wills(alloc, now),
        "ends" => sessions.ends(alloc, now),
        _ => panic!(rt; "{verb} is no call"),
    };
    pairs(rt, alloc, &due.expect(rt, "memory"))
}

/// Begins a client's session.
fn begin(sessions: &mut Sessions, alloc: Global, client: Text) -> Result<(), NoMemory> {
    let mut changes = Vec::new(alloc);
    let begun = sessions.begin(client, &mut changes);
    drop(changes);
    begun
}

/// Takes a client's session out.
fn remove(sessions: &mut Sessions, alloc: Global, client: &Text) -> Result<(), NoMemory> {
    let mut changes = Vec::new(alloc);
    let removed = sessions.remove(client, &mut changes);
    drop(changes);
    removed
}

/// The clients whose home isn't at this one of two nodes.
fn elsewhere(rt: &impl Abort, alloc: Global, sessions: &Sessions, node: u64) -> String {
    let homes = homes_of(alloc, 2).expect(rt, "a table");
    let away = sessions
        .elsewhere(alloc, &homes, (node % 65_536) as u16)
        .expect(rt, "memory");
    drop(homes);
    clients(rt, alloc, &away)
}

fn count(rt: &impl Abort, alloc: Global, sessions: &Sessions) -> String {
    number(rt, alloc, Some(sessions.count() as u64))
}

/// What a call of one word about it, or of none, comes to: how many sessions there are, a number, or what is due.
fn of_word(
    rt: &impl Abort,
    alloc: Global,
    sessions: &mut Sessions,
    verb: &str,
    word: &str,
) -> String {
    match verb {
        "begin" => {
            begin(sessions, alloc, text(rt, alloc, word)).expect(rt, "memory");
            count(rt, alloc, sessions)
        }
        "remove" => {
            remove(sessions, alloc, &text(rt, alloc, word)).expect(rt, "memory");
            count(rt, alloc, sessions)
        }
        "connected" => clients(
            rt,
            alloc,
            &sessions.were_connected(alloc).expect(rt, "memory"),
        ),
        "elsewhere" => elsewhere(rt, alloc, sessions, moment(rt, word)),
        "connection" => number(rt, alloc, sessions.connection(&text(rt, alloc, word))),
        "limit" => number(rt, alloc, sessions.limit(&text(rt, alloc, word))),
        _ => due(rt, alloc, sessions, verb, moment(rt, word)),
    }
}

/// What a call about a client comes to, of these words.
fn of_client(
    rt: &impl Abort,
    alloc: Global,
    sessions: &mut Sessions,
    verb: &str,
    client: &Text,
    words: &str,
) -> String {
    let Some((digits, more)) = words.split_once(' ') else {
        return at(rt, alloc, sessions, verb, client, moment(rt, words));
    };
    match more.split_once(' ') {
        Some((connection, now)) => open(rt, alloc, sessions, client, (digits, connection, now)),
        None => match verb {
            "room" => {
                let (bytes, now) = (moment(rt, digits), moment(rt, more));
                make_room(rt, alloc, sessions, client, bytes, now)
            }
            _ => take(rt, alloc, sessions, client, digits, moment(rt, more)),
        },
    }
}

/// What a call comes to: a verb, and words about it.
pub fn answered(rt: &impl Abort, alloc: Global, sessions: &mut Sessions, call: &str) -> String {
    let (verb, about) = call.split_once(' ').unwrap_or((call, ""));
    let Some((word, words)) = about.split_once(' ') else {
        return of_word(rt, alloc, sessions, verb, about);
    };
    let client = text(rt, alloc, word);
    let text = of_client(rt, alloc, sessions, verb, &client, words);
    drop(client);
    text
}
