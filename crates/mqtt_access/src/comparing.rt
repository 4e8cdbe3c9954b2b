//! A comparison of secrets.

ghost use Rattle.std.specs.Prelude.{◌≡◌, ◌↔◌, IsTrue};

/// Whether two strings of bytes are the same. Each byte of strings of one length is looked at, wherever they differ.
pub fn same_bytes(a: &[u8], b: &[u8]) -> bool
    ensures { IsTrue result ↔ (a.now ≡ b.now) }
{
    if a.len() != b.len() {
        return false;
    }
    let mut differing = 0;
    for (i, byte) in a.iter().enumerate() {
        differing |= *byte ^ b[i];
    }
    differing == 0
}
