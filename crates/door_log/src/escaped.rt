//! Identifiers of clients and reason codes, as text.

ghost use Rattle.std.specs.Prelude.{◌≡◌, ◌<◌, ◌∷◌, [], Some, encode_utf8, slice_index, true};
ghost use Rattle.hex.specs.Hex.{upper_digits};
ghost use Rattle.door_log.specs.Escaping.{escaped, escaped_byte, is_plain, reason_text};

use std::fmt;

/// The hexadecimal digit of a number below 16, in upper case.
fn digit(number: u8) -> char
    requires { number < 16 }
    ensures { encode_utf8 result ≡ slice_index upper_digits number ∷ [] }
{
    match number {
        0 => '0',
        1 => '1',
        2 => '2',
        3 => '3',
        4 => '4',
        5 => '5',
        6 => '6',
        7 => '7',
        8 => '8',
        9 => '9',
        10 => 'A',
        11 => 'B',
        12 => 'C',
        13 => 'D',
        14 => 'E',
        _ => 'F',
    }
}

/// Whether a byte stands for itself: it is a visible character of ASCII, and no backslash.
fn is_plain(byte: u8) -> bool
    ensures { result ≡ is_plain byte }
{
    32 < byte && byte < 127 && byte != b'\\'
}

/// The character of a byte that stands for itself.
fn plain(byte: u8) -> char
    requires { is_plain byte ≡ true }
    ensures { encode_utf8 result ≡ byte ∷ [] }
{
    char::from(byte)
}

/// A byte of an identifier. Its `Display` is its character where it stands for itself, and else a backslash, an x and its two digits.
#[derive(Drop)]
struct EscapedByte(u8);

impl fmt::Display for EscapedByte {
    ghost output = { λ b. Some (escaped_byte b.0) };

    fn fmt<W: fmt::Write>(&self, f: &mut fmt::Formatter<W>) -> fmt::Result {
        let byte = self.0;
        if is_plain(byte) {
            let character = plain(byte);
            return write!(f, "{character}");
        }
        let high = digit(byte / 16);
        let low = digit(byte % 16);
        write!(f, "\\x{high}{low}")
    }
}

/// The bytes of an identifier. Its `Display` has a space, a newline, a backslash and whatever else is no visible character of ASCII as a
/// backslash, an x and two digits.
#[derive(Drop)]
pub struct Escaped<'a>(pub &'a [u8]);

impl fmt::Display for Escaped<'_> {
    ghost output = { λ t. Some (escaped t.0.now) };

    fn fmt<W: fmt::Write>(&self, f: &mut fmt::Formatter<W>) -> fmt::Result {
        for byte in self.0 {
            let byte = EscapedByte(*byte);
            write!(f, "{byte}")?;
        }
        Ok(())
    }
}

/// A reason code (MQTT 5.0, 2.4). Its `Display` is `0x` and its two digits.
#[derive(Drop)]
pub struct ReasonText(pub u8);

impl fmt::Display for ReasonText {
    ghost output = { λ code. Some (reason_text code.0) };

    fn fmt<W: fmt::Write>(&self, f: &mut fmt::Formatter<W>) -> fmt::Result {
        let high = digit(self.0 / 16);
        let low = digit(self.0 % 16);
        write!(f, "0x{high}{low}")
    }
}
