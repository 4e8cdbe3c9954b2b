//! What is asked.

ghost use Rattle.std.specs.Prelude.{◌≡◌, true};
ghost use Rattle.door_bounds.specs.Limits.{are_none, full_after, limit_of, limits_or, number_or};

use mqtt_bounds::Bounds;
use mqtt_fields::LONGEST_PACKET;

/// Limits on packets and on memory. Where there is none, nothing is asked.
#[derive(Clone, Copy, Debug, PartialEq, Eq)]
pub struct BoundLimits {
    /// Limits on packets.
    pub packets: Bounds,
    /// The most bytes that the process may hold.
    pub most_memory: Option<u64>,
}

/// Limits for a port that strangers reach.
pub const CAREFUL: BoundLimits = BoundLimits {
    packets: Bounds {
        longest_packet: Some(262_144),
        most_filters: Some(100),
        most_levels: Some(32),
        most_properties: Some(32),
        longest_expiry: Some(86_400),
    },
    most_memory: Some(1_000_000_000),
};

/// Whether too much is held. Where too much was, that ends once nine tenths are held or less.
pub(crate) fn full_after(most: Option<u64>, held: Option<u64>, full: bool) -> bool
    ensures { result ≡ full_after most held full }
{
    match (most, held) {
        (Some(most), Some(held)) => {
            if full {
                most - most / 10 < held
            } else {
                most < held
            }
        }
        _ => full,
    }
}

/// The most bytes that a packet may have.
pub(crate) fn limit_of(longest: Option<u32>) -> usize
    ensures { result ≡ limit_of longest }
{
    match longest {
        None => LONGEST_PACKET,
        Some(longest) => LONGEST_PACKET.min(longest as usize),
    }
}

/// A limit, or another one where it isn't given.
fn number_or(given: Option<u32>, other: Option<u32>) -> Option<u32>
    ensures { result ≡ number_or given other }
{
    match given {
        Some(number) => Some(number),
        None => other,
    }
}

impl BoundLimits {
    /// Each limit that is given here, and others in place of those that aren't.
    pub fn or(&self, others: &BoundLimits) -> BoundLimits
        ensures { result ≡ limits_or self.now others.now }
    {
        let given = &self.packets;
        let other = &others.packets;
        BoundLimits {
            packets: Bounds {
                longest_packet: number_or(given.longest_packet, other.longest_packet),
                most_filters: number_or(given.most_filters, other.most_filters),
                most_levels: number_or(given.most_levels, other.most_levels),
                most_properties: number_or(given.most_properties, other.most_properties),
                longest_expiry: number_or(given.longest_expiry, other.longest_expiry),
            },
            most_memory: match self.most_memory {
                Some(most) => Some(most),
                None => others.most_memory,
            },
        }
    }

    /// Nothing is asked.
    pub fn none() -> BoundLimits
        ensures { are_none result ≡ true }
    {
        BoundLimits {
            packets: Bounds {
                longest_packet: None,
                most_filters: None,
                most_levels: None,
                most_properties: None,
                longest_expiry: None,
            },
            most_memory: None,
        }
    }

    /// Whether nothing is asked.
    pub fn are_none(&self) -> bool
        ensures { result ≡ are_none self.now }
    {
        self.packets.longest_packet.is_none()
            && self.packets.most_filters.is_none()
            && self.packets.most_levels.is_none()
            && self.packets.most_properties.is_none()
            && self.packets.longest_expiry.is_none()
            && self.most_memory.is_none()
    }
}
