//! The numbers of messages in a lane.
ghost use Rattle.std.specs.Prelude.{◌≡◌, ◌<◌, ◌++◌, ◌^◌, IfOk, IsErrOf, OnErr, OnOk};
ghost use Rattle.mqtt_fields.specs.Reading.{Gives};
ghost use Rattle.bridge_frames.specs.Forwards.{got_number};

use mqtt_fields::{FieldFault, NUMBERS_END, NoMemory, put_u64, u64_at};
use std::marker::Model;

/// The number of a message in the lane from one node to another, or 0 for none: below 2^62. Contracts see the number.
#[derive(Clone, Copy, Debug, PartialEq, Eq)]
pub struct LaneNumber {
    number: u64,
}

impl Model for LaneNumber {
    ghost use Rattle.std.specs.Prelude.{ℕ, ◌<◌, ◌^◌};

    ghost Value = { ℕ };

    ghost view = { λ n. n.number };

    ghost invariant = { λ n. n.number < 2 ^ 62 };

    ghost inverse = { λ n. record { number = n } };
}

impl LaneNumber {
    /// A number that is below 2^62.
    pub fn of(number: u64) -> LaneNumber
        requires { number < 2 ^ 62 }
        ensures { result ≡ number }
    {
        LaneNumber { number }
    }

    /// The number.
    pub fn get(self) -> u64
        ensures same { result ≡ self }
        ensures below { result < 2 ^ 62 }
    {
        self.number
    }
}

/// A number below 2^62 at the front, and the bytes after it.
pub(crate) fn number_at(bytes: &[u8]) -> Result<(u64, &[u8]), FieldFault>
    ensures exact { Gives (λ x. (x.0, x.1.now)) result (got_number.at bytes.now) }
    ensures below { IfOk result (λ x. x.0 < 2 ^ 62) }
    ensures no_memory { IsErrOf result FieldFault.NoMemory → ⊥ }
{
    let (number, rest) = u64_at(bytes)?;
    if number >= NUMBERS_END {
        return Err(FieldFault::Malformed);
    }
    Ok((number, rest))
}

/// Appends a number.
pub(crate) fn put_number(number: LaneNumber, out: &mut Vec<u8>) -> Result<(), NoMemory>
    ensures ok { OnOk result (out.new.items ≡ out.old.items ++ got_number.bytes number) }
    ensures spelling { got_number.Fits number }
    ensures err { OnErr result (out.new.items ≡ out.old.items) }
{
    put_u64(number.get(), out)
}
