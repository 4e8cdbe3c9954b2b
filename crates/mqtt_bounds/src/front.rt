//! What stands in front of some bytes.

ghost use Rattle.std.specs.Prelude.{◌≡◌, ◌≤◌, length};
ghost use Rattle.mqtt_bounds.specs.Pieces.{IsUpTo, front_at, front_with};

use mqtt_fields::{FieldFault, Vbi};

/// What stands in front of some bytes.
#[derive(Clone, Copy, Debug, PartialEq, Eq)]
pub enum Front {
    /// A packet's beginning: more bytes have to come.
    Waits,
    /// A packet of so many bytes.
    Whole(usize),
    /// The beginning of a packet that is longer than the limit.
    TooLong,
    /// A Remaining Length that can't be (MQTT 5.0, 1.5.5).
    Broken,
}

/// Whether a packet of this length is there, where there are so many bytes.
fn front_with(limit: usize, there: usize, total: usize) -> Front
    requires { 1 ≤ total }
    ensures exact { result ≡ front_with limit there total }
    ensures used { IsUpTo result there }
{
    if limit < total {
        Front::TooLong
    } else if there < total {
        Front::Waits
    } else {
        Front::Whole(total)
    }
}

/// What stands in front of the bytes. A packet that is longer than the limit is found as soon as its length is there.
#[tactic(auto, using(crate::proofs::Growing::front_read), unfolding(crate::specs::Pieces::front_at))]
pub fn front_of(limit: usize, bytes: &[u8]) -> Front
    ensures exact { result ≡ front_at limit bytes.now }
    ensures used { IsUpTo result (length bytes.now) }
{
    match bytes {
        [] => Front::Waits,
        [_, rest @ ..] => match Vbi::read(rest) {
            Ok((len, used)) => front_with(limit, bytes.len(), 1 + used + len as usize),
            Err(fault) => match fault {
                FieldFault::Short => Front::Waits,
                _ => Front::Broken,
            },
        },
    }
}
