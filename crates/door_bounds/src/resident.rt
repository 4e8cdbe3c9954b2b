//! The text in which the system tells what a process holds.

ghost use Rattle.std.specs.Prelude.{◌≡◌, ◌*◌, IfSome};
ghost use Rattle.door_bounds.specs.Resident.{behind_space, is_digit, number_at, second};

/// The bytes of a page of memory.
const PAGE: u64 = 4096;

const SPACE: u8 = b' ';

const ZERO: u8 = b'0';

/// What follows the first space.
fn behind_space(text: &[u8]) -> &[u8]
    ensures { result.now ≡ behind_space text.now }
{
    match text {
        [] => text,
        [b, rest @ ..] => {
            if *b == SPACE {
                rest
            } else {
                behind_space(rest)
            }
        }
    }
}

fn is_digit(b: u8) -> bool
    ensures { result ≡ is_digit b }
{
    b >= ZERO && b < ZERO + 10
}

/// The number whose first digits were read, and whose others begin the text; none from 2^64 on.
fn number_at(read: u64, text: &[u8]) -> Option<u64>
    ensures { IfSome result (λ n. n ≡ number_at read text.now) }
{
    match text {
        [] => Some(read),
        [b, rest @ ..] => {
            if !is_digit(*b) {
                return Some(read);
            }
            let tens = read.checked_mul(10)?;
            number_at(tens.checked_add(u64::from(*b - ZERO))?, rest)
        }
    }
}

/// The bytes that are told: the text's second number counts pages of 4,096.
pub(crate) fn resident(text: &[u8]) -> Option<u64>
    ensures { IfSome result (λ n. n ≡ second text.now * 4096) }
{
    let pages = number_at(0, behind_space(text))?;
    pages.checked_mul(PAGE)
}
