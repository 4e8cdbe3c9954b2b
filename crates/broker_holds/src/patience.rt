//! How long a client may be held back.

ghost use Rattle.std.specs.Prelude.{◌≡◌};
ghost use Rattle.broker_holds.specs.Patience.{IsHalfAtMost, patience};

/// How long one is held back at most that has no Keep Alive, in milliseconds, or one of two minutes or more.
const LONGEST: u16 = 60_000;

/// How long one is held back at most whose Keep Alive isn't known.
pub(crate) const SHORTEST: u16 = 500;

/// Where the packet begins behind its length, if that is whole.
fn body_of(bytes: &[u8]) -> Option<usize> {
    let mut at = 1;
    while at < 5 {
        let byte = bytes.get(at)?;
        at += 1;
        if byte & 0x80 == 0 {
            return Some(at);
        }
    }
    None
}

/// The number that two bytes spell.
fn two_at(bytes: &[u8], at: usize) -> Option<u16> {
    let high = *bytes.get(at)?;
    let low = *bytes.get(at.checked_add(1)?)?;
    Some(u16::from(high) * 256 + u16::from(low))
}

/// The Keep Alive of the CONNECT that these bytes begin with, if they reach so far (MQTT 5.0, 3.1.2.10): it stands behind the name of the
/// protocol, its version, and the flags.
fn keep_alive_in(bytes: &[u8]) -> Option<u16> {
    let first = *bytes.first()?;
    if first >> 4 != 1 {
        return None;
    }
    let body = body_of(bytes)?;
    let name = two_at(bytes, body)?;
    let behind = body.checked_add(usize::from(name))?.checked_add(4)?;
    two_at(bytes, behind)
}

/// How long a client with this Keep Alive, in seconds, is held back at most, in milliseconds: half of it, and not more than a minute.
fn patience_of(keep_alive: u16) -> u16
    ensures { result ≡ patience keep_alive }
{
    if keep_alive == 0 || keep_alive >= 120 {
        LONGEST
    } else {
        keep_alive * 500
    }
}

/// How long the client is held back at most whose stream begins with these bytes, in milliseconds.
pub(crate) fn patience_in(bytes: &[u8]) -> u16 {
    match keep_alive_in(bytes) {
        Some(keep_alive) => patience_of(keep_alive),
        None => SHORTEST,
    }
}

/// A client is held back for half its Keep Alive at most, and for a minute at most.
pub fn half_at_most()
    ensures { IsHalfAtMost }
{}
