//! How long spellings are, where there are any.

ghost use Rattle.std.specs.Prelude.{◌≡◌, ◌+◌, ◌<◌, ◌≤◌, ◌^◌, ℕ, length, is_some, IfSome, MatchOption};
ghost use Rattle.mqtt_fields.specs.Numbers.{text, blob, IsText, IsBlob};
ghost use Rattle.mqtt_fields.specs.Block.{properties};
ghost use Rattle.mqtt_packets.specs.Optional.{maybe};
ghost use Rattle.mqtt_packets.specs.Measure.{MeasuresField};

use mqtt_fields::{Blob, Place, Properties, Text, properties_len, vbi_len};

/// How many bytes a packet's body may have, and one more (MQTT 5.0, 2.1.4).
pub(crate) const BODY_LIMIT: usize = 268435456;

/// The length, if a body may be so long.
pub(crate) fn within(n: usize) -> Option<usize>
    ensures { MatchOption result (2 ^ 28 ≤ n) (λ m. (m ≡ n) × (n < 2 ^ 28)) }
{
    if n < BODY_LIMIT { Some(n) } else { None }
}

#[tactic(auto, using(crate::proofs::MeasureLaws::block_length, crate::proofs::MeasureLaws::block_short))]
pub(crate) fn block_len(place: Place, ps: &Properties) -> Option<usize>
    ensures exact { MeasuresField (properties place) ps.now result }
    ensures small { IfSome result (λ n. n < 2 ^ 28 + 4) }
{
    match properties_len(place, ps.as_slice()) {
        None => None,
        Some(n) => Some(vbi_len(n as u32) + n),
    }
}

pub(crate) fn text_len(t: &Text) -> usize
    ensures exact { result ≡ length (text.bytes t.now) }
    ensures fits { IsText t.now }
    ensures small { result < 2 ^ 17 }
{
    2 + t.as_str().len()
}

pub(crate) fn blob_len(b: &Blob) -> usize
    ensures exact { result ≡ length (blob.bytes b.now) }
    ensures fits { IsBlob b.now }
    ensures small { result < 2 ^ 17 }
{
    2 + b.as_bytes().len()
}

pub(crate) fn text_len_if(t: &Option<Text>) -> usize
    ensures exact { result ≡ length ((maybe (is_some t.now) text).bytes t.now) }
    ensures fits { (maybe (is_some t.now) text).Fits t.now }
    ensures small { result < 2 ^ 17 }
{
    match t {
        None => 0,
        Some(t) => text_len(t),
    }
}

pub(crate) fn blob_len_if(b: &Option<Blob>) -> usize
    ensures exact { result ≡ length ((maybe (is_some b.now) blob).bytes b.now) }
    ensures fits { (maybe (is_some b.now) blob).Fits b.now }
    ensures small { result < 2 ^ 17 }
{
    match b {
        None => 0,
        Some(b) => blob_len(b),
    }
}
