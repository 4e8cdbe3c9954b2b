//! Frames out of the bytes of a link, however they come.
ghost use Rattle.std.specs.Prelude.{◌≡◌, ◌≤◌, ◌<◌, ◌^◌, ◌++◌, ◌↔◌, ℕ, List, [], length, IfOk, IsSome, IfSome};
ghost use Rattle.broker_sockets.specs.Frames.{IsBegun, IsCut, IsFrame, IsHeld, IsTooLong, announced};
ghost use Rattle.broker_sockets.specs.declared.frames.Stage.TheVariants as stages;

use mqtt_fields::LONGEST_FRAME;
use std::alloc::{AllocError, Global};
use std::mem;

/// How far the bytes of a frame have come.
#[derive(Clone, Copy)]
enum Stage {
    /// More are to come.
    Begun,
    Whole,
    /// More would have to come than a frame may have.
    TooLong,
}

/// What bytes are cut into: whole frames, what is left, and whether that may become a frame.
#[derive(Drop)]
pub struct Parts {
    pub frames: Vec<Vec<u8>>,
    pub rest: Vec<u8>,
    pub sound: bool,
}

/// How many bytes follow the four that tell it.
fn announced(bytes: &[u8]) -> Option<usize>
    ensures value { result ≡ announced bytes.now }
    ensures there { IsSome result ↔ (4 ≤ length bytes.now) }
    ensures most { IfSome result (λ n. n < 2 ^ 32) }
{
    if bytes.len() < 4 {
        return None;
    }
    let high = usize::from(bytes[0]) * 256 + usize::from(bytes[1]);
    Some((high * 256 + usize::from(bytes[2])) * 256 + usize::from(bytes[3]))
}

/// How many bytes are wanted next, so that nothing behind a frame is taken with it.
fn wanted(held: &[u8]) -> usize
    requires { IsBegun held.now }
    ensures some { 0 < result }
    ensures most { (more : List ℕ) → length more ≤ result → IsHeld (held.now ++ more) }
{
    match announced(held) {
        None => 4 - held.len(),
        Some(length) => 4 + length - held.len(),
    }
}

fn stage_of(held: &[u8]) -> Stage
    requires { IsHeld held.now }
    ensures begun { result ≡ stages.Begun → IsBegun held.now }
    ensures whole { result ≡ stages.Whole → IsFrame held.now }
    ensures long { result ≡ stages.TooLong → IsTooLong held.now }
{
    match announced(held) {
        None => Stage::Begun,
        Some(length) => {
            if length > LONGEST_FRAME {
                Stage::TooLong
            } else if held.len() == 4 + length {
                Stage::Whole
            } else {
                Stage::Begun
            }
        }
    }
}

/// Cuts what is held of a frame, with the bytes that come behind it, into frames. No byte is moved twice, but where a
/// frame grows.
pub fn cut(alloc: Global, mut held: Vec<u8>, piece: &[u8]) -> Result<Parts, AllocError>
    requires { IsBegun held.items }
    ensures { IfOk result (λ c. IsCut (held.items ++ piece.now) c.frames.items c.rest.items c.sound) }
{
    let mut frames = Vec::new(alloc);
    let mut rest = piece;
    while !rest.is_empty() {
        let count = wanted(&held).min(rest.len());
        let (front, after) = rest.split_at(count);
        held.extend_from_slice(front)?;
        rest = after;
        match stage_of(&held) {
            Stage::Begun => {}
            Stage::Whole => frames.push(mem::replace(&mut held, Vec::new(alloc)))?,
            Stage::TooLong => {
                return Ok(Parts {
                    frames,
                    rest: Vec::new(alloc),
                    sound: false,
                });
            }
        }
    }
    Ok(Parts {
        frames,
        rest: held,
        sound: true,
    })
}
