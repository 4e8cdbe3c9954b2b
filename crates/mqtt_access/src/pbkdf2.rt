//! PBKDF2 with HMAC-SHA-512 (RFC 8018, 5.2).

ghost use Rattle.std.specs.Prelude.{◌≡◌, ◌<◌};
ghost use Rattle.mqtt_access.specs.Pbkdf2.{derived_key};

use crate::hmac::{HmacKey, xor_into};

/// The number of the first block, in four bytes.
const FIRST_BLOCK: [u8; 4] = [0, 0, 0, 1];

/// The key of 64 bytes that a password and a salt give after so many iterations.
pub fn pbkdf2_hmac_sha512(password: &[u8], salt: &[u8], iterations: u32) -> [u8; 64]
    requires { 0 < iterations }
    ensures { result ≡ derived_key password.now salt.now iterations }
{
    let key = HmacKey::new(password);
    let mut last = key.hash(salt, &FIRST_BLOCK);
    let mut derived = last;
    for step in 1..iterations {
        last = key.hash(&last, &[]);
        xor_into(&mut derived, &last);
    }
    derived
}
