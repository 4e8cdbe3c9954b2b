//! Bytes as whole packets, and what is left.

ghost use Rattle.std.specs.Prelude.{◌≡◌, ◌++◌, [], map, IfOk};
ghost use Rattle.mqtt_bounds.specs.Pieces.{before, cut};

use crate::front::{Front, front_of};
use std::alloc::{AllocError, Global};

/// What stands behind the last whole packet.
#[derive(Clone, Copy, Debug, PartialEq, Eq)]
pub enum End {
    /// The beginning of a packet, or nothing.
    Open,
    /// The beginning of a packet that is longer than the limit.
    TooLong,
    /// A Remaining Length that can't be.
    Broken,
}

/// Whole packets, each as its bytes came, and what is left.
#[derive(Drop)]
pub struct Cut<'a> {
    pub packets: Vec<&'a [u8]>,
    pub rest: &'a [u8],
    pub end: End,
}

/// Bytes as whole packets in their order, none of which is longer than the limit, and what is left.
#[tactic(auto, using(crate::proofs::Growing::more_cut, crate::proofs::Growing::waits_cut, crate::proofs::Growing::long_cut, crate::proofs::Growing::broken_cut))]
pub fn packets_of(alloc: Global, limit: usize, bytes: &[u8]) -> Result<Cut<'_>, AllocError>
    ensures { IfOk result (λ c. cut limit bytes.now ≡ record { packets = map (λ p. p.now) c.packets.items; rest = c.rest.now; end = c.end }) }
{
    let mut packets = Vec::new(alloc);
    let mut rest = bytes;
    loop {
        match front_of(limit, rest) {
            Front::Whole(used) => {
                let (packet, behind) = rest.split_at(used);
                packets.push(packet)?;
                rest = behind;
            }
            Front::Waits => {
                let end = End::Open;
                return Ok(Cut { packets, rest, end });
            }
            Front::TooLong => {
                let end = End::TooLong;
                return Ok(Cut { packets, rest, end });
            }
            Front::Broken => {
                let end = End::Broken;
                return Ok(Cut { packets, rest, end });
            }
        }
    }
}
