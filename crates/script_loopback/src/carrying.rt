//! Bytes that are carried from one stream to another, in turns.
ghost use Rattle.std.specs.Prelude.{◌≡◌, ◌≤◌, ◌<◌, length, take, IfOk, IfErr};
ghost use Rattle.script_loopback.specs.Carrying.{Carries, CarriesInto, IsFilled, IsGone, IsOffered};
ghost use Rattle.broker_sockets.specs.declared.network.Answer.TheVariants as answers;
ghost use Rattle.script_loopback.specs.declared.fault.WireFault.TheVariants as faults;

use crate::fault::WireFault;
use broker_sockets::{Answer, Sockets};
use std::alloc::Global;

/// In so many turns bytes have to come, and a connection to be accepted.
pub const MOST_TURNS: u32 = 1000000;

/// Offers what isn't written yet to a stream, if there is any, and answers what isn't written then.
fn offer<'a, S: Sockets>(
    sockets: &mut S,
    near: &mut S::Stream,
    left: &'a [u8],
) -> Result<&'a [u8], WireFault>
    ensures ok { IfOk result (λ rest. IsOffered S.writes sockets.old near.old left.now sockets.new near.new rest.now) }
    ensures gone { IfErr result (λ fault. (fault ≡ faults.Socket)
        × S.writes sockets.old near.old left.now answers.Gone sockets.new near.new) }
{
    if left.is_empty() {
        return Ok(left);
    }
    match sockets.write(near, left) {
        Answer::Later => Ok(left),
        Answer::Bytes(count) => Ok(&left[count..]),
        Answer::Gone => Err(WireFault::Socket),
    }
}

/// Asks a stream for the bytes that haven't come, and answers how many have come then.
fn ask<S: Sockets>(
    sockets: &mut S,
    far: &mut S::Stream,
    came: &mut [u8],
    filled: usize,
) -> Result<usize, WireFault>
    requires { filled ≤ length came.old }
    ensures within { IfOk result (λ count. count ≤ length came.old) }
    ensures ok { IfOk result (λ count. IsFilled S.reads (length came.old) sockets.old far.old (take filled came.old) sockets.new far.new (take count came.new)) }
    ensures gone { IfErr result (λ fault. (fault ≡ faults.Socket) × IsGone S.reads sockets.old far.old sockets.new far.new) }
{
    match sockets.read(far, &mut came[filled..]) {
        Answer::Later => Ok(filled),
        Answer::Bytes(count) => Ok(filled + count),
        Answer::Gone => Err(WireFault::Socket),
    }
}

/// Carries bytes from one stream to another, and puts what comes there into a buffer of the same size. In each turn what isn't
/// written yet is offered to the first stream, and the second is asked for what hasn't come.
fn carry_into<S: Sockets>(
    sockets: &mut S,
    near: &mut S::Stream,
    far: &mut S::Stream,
    bytes: &[u8],
    came: &mut [u8],
) -> Result<(), WireFault>
    requires { length came.old ≡ length bytes.now }
    ensures { CarriesInto S.reads S.writes bytes.now (sockets.old, near.old, far.old) came.new result (sockets.new, near.new, far.new) }
{
    let mut filled = 0;
    let mut left = bytes;
    for _ in 0..MOST_TURNS {
        if filled == bytes.len() {
            return Ok(());
        }
        left = offer(sockets, near, left)?;
        filled = ask(sockets, far, came, filled)?;
    }
    if filled == bytes.len() {
        Ok(())
    } else {
        Err(WireFault::Turns)
    }
}

/// Carries bytes from one stream to another in at most 1,000,000 turns, and answers what came there, which is as many.
pub fn carry<S: Sockets>(
    alloc: Global,
    sockets: &mut S,
    near: &mut S::Stream,
    far: &mut S::Stream,
    bytes: &[u8],
) -> Result<Vec<u8>, WireFault>
    ensures { Carries S.reads S.writes bytes.now (sockets.old, near.old, far.old) result (sockets.new, near.new, far.new) }
{
    let mut came = vec![in alloc; 0; bytes.len()]?;
    match carry_into(sockets, near, far, bytes, &mut came) {
        Ok(()) => Ok(came),
        Err(fault) => Err(fault),
    }
}
