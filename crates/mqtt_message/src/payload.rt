//! The payload of a message.

ghost use Rattle.std.specs.Prelude.{◌≡◌, ◌≢◌, ◌<◌, ◌^◌, List, [], ℕ, length, IfOk, OnErr};

use mqtt_fields::NoMemory;
use mqtt_packets::Bytes;
use std::alloc::Global;
use std::marker::Model;

/// A payload that a packet has room for: fewer than 2^28 bytes (MQTT 5.0, 2.1.4). Contracts see the bytes.
#[derive(Drop)]
pub struct Payload {
    bytes: Bytes,
}

impl Model for Payload {
    ghost Value = { List ℕ };

    ghost view = { λ p. p.bytes };

    ghost invariant = { λ p. length p.bytes < 2 ^ 28 };
}

impl Payload {
    /// A copy of these bytes. None take no memory.
    pub fn from_slice(alloc: Global, bytes: &[u8]) -> Result<Payload, NoMemory>
        requires { length bytes.now < 2 ^ 28 }
        ensures ok { IfOk result (λ p. p ≡ bytes.now) }
        ensures err { OnErr result (bytes.now ≢ []) }
    {
        if bytes.is_empty() {
            let bytes = Bytes::new(Vec::new(alloc));
            return Ok(Payload { bytes });
        }
        let bytes = Bytes::from_slice(alloc, bytes)?;
        Ok(Payload { bytes })
    }

    /// The bytes.
    pub fn as_slice(&self) -> &[u8]
        ensures same { result.now ≡ self.now }
        ensures fits { length self.now < 2 ^ 28 }
    {
        self.bytes.as_slice()
    }

    /// A payload equal to this one. An empty one takes no memory.
    pub fn copy(&self, alloc: Global) -> Result<Payload, NoMemory>
        ensures ok { IfOk result (λ p. p ≡ self.now) }
        ensures err { OnErr result (self.now ≢ []) }
    {
        Payload::from_slice(alloc, self.as_slice())
    }
}
