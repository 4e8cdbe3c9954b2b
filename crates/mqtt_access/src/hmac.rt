//! HMAC with SHA-512 (RFC 2104).

ghost use Rattle.std.specs.Prelude.{◌≡◌, ◌≤◌, ◌++◌, ℕ, List, length, replicate};
ghost use Rattle.sha2.specs.Hashers.{Holds512};
ghost use Rattle.mqtt_access.specs.Hmac.{filled, hmac, ipad, key_block, opad, xor};
ghost use Rattle.mqtt_access.specs.Keyed.{IsKeyed};

use sha2::{Digest, Sha512};

/// The bytes that a block of SHA-512 has.
const BLOCK: usize = 128;

/// The bytes that a key is XORed with.
const IPAD: u8 = 0x36;

const OPAD: u8 = 0x5C;

/// XORs bytes into as many others.
pub(crate) fn xor_into(bytes: &mut [u8], others: &[u8])
    requires { length bytes.old ≡ length others.now }
    ensures { bytes.new ≡ xor bytes.old others.now }
{
    for (i, byte) in bytes.iter_mut().enumerate() {
        *byte ^= others[i];
    }
}

/// Bytes with zeros after them, up to a block.
fn filled(bytes: &[u8]) -> [u8; BLOCK]
    requires { length bytes.now ≤ 128 }
    ensures { result ≡ filled bytes.now }
{
    let mut block = [0; BLOCK];
    for (i, byte) in bytes.iter().enumerate() {
        block[i] = *byte;
    }
    block
}

/// The block of a key: its bytes, or its hash where it is longer than a block.
fn key_block(key: &[u8]) -> [u8; BLOCK]
    ensures { result ≡ key_block key.now }
{
    if key.len() > BLOCK {
        let hash = Sha512::digest(key);
        return filled(&hash);
    }
    filled(key)
}

/// A hasher that has read the block of a key, XORed with this byte.
fn hasher_of(block: &[u8; BLOCK], pad: u8) -> Sha512
    ensures { Holds512 result (xor block.now (replicate 128 pad)) }
{
    let mut padded = *block;
    xor_into(&mut padded, &[pad; BLOCK]);
    Sha512::new_with_prefix(&padded)
}

/// A key under which any number of texts are hashed: the two hashers that each hash begins with.
#[derive(Drop)]
pub struct HmacKey {
    inner: Sha512,
    outer: Sha512,
}

impl HmacKey {
    /// A key of any length.
    pub fn new(key: &[u8]) -> HmacKey
        ensures { IsKeyed key.now result }
    {
        let block = key_block(key);
        HmacKey {
            inner: hasher_of(&block, IPAD),
            outer: hasher_of(&block, OPAD),
        }
    }

    /// The hash of a text in two parts.
    pub fn hash(&self, first: &[u8], second: &[u8]) -> [u8; 64]
        ensures { (key : List ℕ) → IsKeyed key self.now → result ≡ hmac key (first.now ++ second.now) }
    {
        let mut inner = self.inner.clone().unwrap();
        inner.update(first);
        inner.update(second);
        let mut outer = self.outer.clone().unwrap();
        outer.update(inner.finalize());
        outer.finalize()
    }
}

/// The hash of a text under a key.
pub fn hmac_sha512(key: &[u8], text: &[u8]) -> [u8; 64]
    ensures { result ≡ hmac key.now text.now }
{
    HmacKey::new(key).hash(text, &[])
}
