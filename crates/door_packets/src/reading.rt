//! What is done for bytes that came on a connection.

ghost use Rattle.std.specs.Prelude.{◌≡◌, IfOk, OnOk, map};
ghost use Rattle.mqtt_bounds.specs.Pieces.{cut};
ghost use Rattle.door_packets.specs.Marks.{is_marked};
ghost use Rattle.door_packets.specs.Walk.{seen, walked};
ghost use Rattle.door_packets.specs.Coming.{come, come_on, ended, finished, is_open, kept, limit, unread};

use crate::access::Access;
use crate::client::{Client, Stage};
use crate::marks::Marks;
use crate::step::Step;
use crate::walk::Walk;
use mqtt_bounds::{Cut, End, packets_of};
use mqtt_fields::{LONGEST_PACKET, NoMemory};
use mqtt_packets::Bytes;
use std::alloc::Global;

/// Takes these packets.
fn take_all<A: Access>(
    alloc: Global,
    access: &A,
    marks: &Marks,
    packets: &[&[u8]],
    walk: &mut Walk,
) -> Result<(), NoMemory>
    ensures { OnOk result (seen walk.new ≡ walked (A.rights access.now) (is_marked marks.now) (seen walk.old) (map (λ p. p.now) packets.now)) }
{
    for packet in packets {
        walk.take(alloc, access, marks, packet)?;
    }
    Ok(())
}

fn is_open(end: End) -> bool
    ensures { result ≡ is_open end }
{
    match end {
        End::Open => true,
        _ => false,
    }
}

/// What is kept of what is left: all of what isn't whole yet.
fn kept(alloc: Global, rest: &[u8], end: End) -> Result<Bytes, NoMemory>
    ensures { IfOk result (λ bytes. bytes ≡ kept end rest.now) }
{
    if is_open(end) {
        Bytes::from_slice(alloc, rest)
    } else {
        Ok(Bytes::new(Vec::new(alloc)))
    }
}

/// These bytes begin no packet: the handler inside is told of them, and of nothing else.
fn put_unread(alloc: Global, rest: &[u8], walk: &mut Walk) -> Result<(), NoMemory>
    ensures { OnOk result (seen walk.new ≡ unread (seen walk.old) rest.now) }
{
    match walk.client.stage {
        Stage::Waiting(room) => walk.tell_first(alloc, room, rest),
        Stage::Open => {
            walk.client.stage = Stage::Over;
            walk.steps
                .push(Step::Tells(Bytes::from_slice(alloc, rest)?))?;
            Ok(())
        }
        Stage::Over | Stage::Leaving => Ok(()),
    }
}

/// What is done for what is left at the end: nothing for what isn't whole yet.
fn put_end(alloc: Global, rest: &[u8], end: End, walk: &mut Walk) -> Result<(), NoMemory>
    ensures { OnOk result (seen walk.new ≡ ended end rest.now (seen walk.old)) }
{
    if is_open(end) {
        return Ok(());
    }
    put_unread(alloc, rest, walk)
}

/// What is done for packets and for what is left behind them.
fn finish<A: Access>(
    alloc: Global,
    access: &A,
    marks: &Marks,
    client: Client,
    cut: &Cut<'_>,
) -> Result<Walk, NoMemory>
    ensures { IfOk result (λ w. seen w ≡ finished (A.rights access.now) (is_marked marks.now) client
        (record { packets = map (λ p. p.now) cut.now.packets.items; rest = cut.now.rest.now; end = cut.now.end })) }
{
    let partial = kept(alloc, cut.rest, cut.end)?;
    let client = Client {
        partial,
        stage: client.stage,
        login: client.login,
        aliases: client.aliases,
    };
    let mut walk = Walk::new(alloc, client);
    take_all(alloc, access, marks, &cut.packets, &mut walk)?;
    put_end(alloc, cut.rest, cut.end, &mut walk)?;
    Ok(walk)
}

/// What is done for these bytes, which are all that isn't a whole packet yet and what came.
fn come_with<A: Access>(
    alloc: Global,
    access: &A,
    marks: &Marks,
    client: Client,
    bytes: &[u8],
) -> Result<Walk, NoMemory>
    ensures { IfOk result (λ w. seen w ≡ finished (A.rights access.now) (is_marked marks.now) client (cut limit bytes.now)) }
{
    let cut = packets_of(alloc, LONGEST_PACKET, bytes)?;
    finish(alloc, access, marks, client, &cut)
}

/// What is done for bytes that came, where they are looked at.
fn come_on<A: Access>(
    alloc: Global,
    access: &A,
    marks: &Marks,
    client: Client,
    bytes: &[u8],
) -> Result<Walk, NoMemory>
    ensures { IfOk result (λ w. seen w ≡ come_on (A.rights access.now) (is_marked marks.now) client bytes.now) }
{
    if client.partial.as_slice().is_empty() {
        return come_with(alloc, access, marks, client, bytes);
    }
    let Client {
        partial,
        stage,
        login,
        aliases,
    } = client;
    let mut stream = partial.into_vec();
    stream.extend_from_slice(bytes)?;
    let client = Client {
        partial: Bytes::new(Vec::new(alloc)),
        stage,
        login,
        aliases,
    };
    come_with(alloc, access, marks, client, &stream)
}

/// What is done for bytes that came, and what is known of the client then.
pub fn come<A: Access>(
    alloc: Global,
    access: &A,
    marks: &Marks,
    client: Client,
    bytes: &[u8],
) -> Result<Walk, NoMemory>
    ensures { IfOk result (λ w. seen w ≡ come (A.rights access.now) (is_marked marks.now) client bytes.now) }
{
    match client.stage {
        Stage::Waiting(_) | Stage::Open => come_on(alloc, access, marks, client, bytes),
        Stage::Over | Stage::Leaving => Ok(Walk::new(alloc, client)),
    }
}
