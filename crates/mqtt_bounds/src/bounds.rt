//! The limits.

ghost use Rattle.std.specs.Prelude.{◌≡◌};
ghost use Rattle.mqtt_bounds.specs.Bounds.{is_above, levels};

/// What a level of a topic ends with (MQTT 5.0, 4.7.1.1).
const SEPARATOR: u8 = b'/';

/// The most that packets of a client may have; any number where there is none.
#[derive(Clone, Copy, Debug, PartialEq, Eq)]
pub struct Bounds {
    /// The most bytes of a packet.
    pub longest_packet: Option<u32>,
    /// The most filters of a SUBSCRIBE.
    pub most_filters: Option<u32>,
    /// The most levels of a PUBLISH's topic, and of a filter of a SUBSCRIBE.
    pub most_levels: Option<u32>,
    /// The most user properties of a PUBLISH.
    pub most_properties: Option<u32>,
    /// The longest Session Expiry Interval of a CONNECT and of a DISCONNECT, in seconds.
    pub longest_expiry: Option<u32>,
}

/// Whether there are more than may be.
pub(crate) fn is_above(most: Option<u32>, count: usize) -> bool
    ensures { result ≡ is_above most count }
{
    match most {
        None => false,
        Some(most) => (most as usize) < count,
    }
}

/// How many levels a topic or a filter has.
pub(crate) fn levels(text: &[u8]) -> usize
    ensures { result ≡ levels text.now }
{
    text.iter().filter(|b| **b == SEPARATOR).count() + 1
}
