//! Bytes that print as hexadecimal text.
#![tactic(auto)]

ghost use Rattle.std.specs.Prelude.{◌≡◌, ◌<◌, ◌∷◌, [], Some, encode_utf8, slice_index};
ghost use Rattle.hex.specs.Hex.{encode_lower, lower_digits};

use std::fmt;

/// The hexadecimal digit of a number below 16, in lower case.
fn digit(number: u8) -> char
    requires { number < 16 }
    ensures { encode_utf8 result ≡ slice_index lower_digits number ∷ [] }
{
    match number {
        0 => '0',
        1 => '1',
        2 => '2',
        3 => '3',
        4 => '4',
        5 => '5',
        6 => '6',
        7 => '7',
        8 => '8',
        9 => '9',
        10 => 'a',
        11 => 'b',
        12 => 'c',
        13 => 'd',
        14 => 'e',
        _ => 'f',
    }
}

/// Bytes that print as two digits each, in lower case.
#[derive(Drop)]
pub struct HexText<'a>(pub &'a [u8]);

impl fmt::Display for HexText<'_> {
    ghost output = { λ t. Some (encode_lower t.0.now) };

    fn fmt<W: fmt::Write>(&self, f: &mut fmt::Formatter<W>) -> fmt::Result {
        for byte in self.0 {
            let high = digit(*byte / 16);
            let low = digit(*byte % 16);
            write!(f, "{high}{low}")?;
        }
        Ok(())
    }
}
