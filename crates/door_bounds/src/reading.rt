//! What is done for bytes that came on a connection.

ghost use Rattle.std.specs.Prelude.{◌≡◌, ◌++◌, IfOk, OnOk, map};
ghost use Rattle.door_bounds.specs.Walk.{IsCome, come, come_on, ended, finished, is_open, kept, seen, walked};

use crate::client::Client;
use crate::limits::limit_of;
use crate::step::Step;
use crate::walk::{Walk, put_too_large};
use mqtt_bounds::{Bounds, Cut, End, Mend, packets_of};
use mqtt_fields::NoMemory;
use mqtt_packets::Bytes;
use std::alloc::Global;

/// Takes these packets.
fn take_all(
    alloc: Global,
    bounds: &Bounds,
    full: bool,
    packets: &[&[u8]],
    walk: &mut Walk,
) -> Result<(), NoMemory>
    ensures { OnOk result (seen walk.new ≡ walked bounds.now full (seen walk.old) (map (λ p. p.now) packets.now)) }
{
    for packet in packets {
        walk.take(alloc, bounds, full, packet)?;
    }
    Ok(())
}

/// Tells what is left at the end: nothing of what isn't whole yet, and what can't be a packet as it is.
fn put_end(rest: &[u8], end: End, run: &mut Vec<u8>) -> Result<(), NoMemory>
    ensures { OnOk result (run.new.items ≡ run.old.items ++ ended end rest.now) }
{
    match end {
        End::Open => Ok(()),
        End::TooLong => put_too_large(rest, run),
        End::Broken => {
            run.extend_from_slice(rest)?;
            Ok(())
        }
    }
}

fn is_open(end: End) -> bool
    ensures { result ≡ is_open end }
{
    match end {
        End::Open => true,
        _ => false,
    }
}

/// What is kept of what is left: all of what isn't whole yet.
fn kept(alloc: Global, rest: &[u8], end: End) -> Result<Bytes, NoMemory>
    ensures { IfOk result (λ bytes. bytes ≡ kept end rest.now) }
{
    if is_open(end) {
        Bytes::from_slice(alloc, rest)
    } else {
        Ok(Bytes::new(Vec::new(alloc)))
    }
}

/// What is done for packets and for what is left behind them.
fn finish(
    alloc: Global,
    bounds: &Bounds,
    full: bool,
    greeted: bool,
    cut: &Cut<'_>,
) -> Result<(Vec<Step>, Client), NoMemory>
    ensures { IfOk result (λ x. IsCome (finished bounds.now full greeted (record { packets = map (λ p. p.now) cut.now.packets.items; rest = cut.now.rest.now; end = cut.now.end })) x.0 x.1) }
{
    let mut taken = Walk::new(alloc, greeted);
    take_all(alloc, bounds, full, &cut.packets, &mut taken)?;
    let Walk {
        greeted,
        mut steps,
        mut run,
    } = taken;
    put_end(cut.rest, cut.end, &mut run)?;
    steps.push(Step::Tells(Bytes::new(run), Mend::Nothing))?;
    let client = Client {
        partial: kept(alloc, cut.rest, cut.end)?,
        greeted,
        over: !is_open(cut.end),
    };
    Ok((steps, client))
}

/// What is done for bytes that came, where they are looked at.
fn come_on(
    alloc: Global,
    bounds: &Bounds,
    full: bool,
    client: Client,
    bytes: &[u8],
) -> Result<(Vec<Step>, Client), NoMemory>
    ensures { IfOk result (λ x. IsCome (come_on bounds.now full client bytes.now) x.0 x.1) }
{
    let mut stream = client.partial.into_vec();
    stream.extend_from_slice(bytes)?;
    let cut = packets_of(alloc, limit_of(bounds.longest_packet), &stream)?;
    finish(alloc, bounds, full, client.greeted, &cut)
}

/// What is done for bytes that came, and what is known of the client then.
pub(crate) fn come(
    alloc: Global,
    bounds: &Bounds,
    full: bool,
    client: Client,
    bytes: &[u8],
) -> Result<(Vec<Step>, Client), NoMemory>
    ensures { IfOk result (λ x. IsCome (come bounds.now full client bytes.now) x.0 x.1) }
{
    if client.over {
        return Ok((Vec::new(alloc), client));
    }
    come_on(alloc, bounds, full, client, bytes)
}
