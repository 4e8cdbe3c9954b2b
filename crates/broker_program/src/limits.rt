//! The limits that a command line asks for.

use broker_command::AskedLimits;
use door_bounds::{BoundLimits, CAREFUL};
use mqtt_bounds::Bounds;

/// The bytes of a megabyte.
const MEGABYTE: u64 = 1_000_000;

/// The limits on what clients send that are given, and those for strangers where they are asked for and another one isn't given.
pub fn bounds_of(limits: &AskedLimits) -> BoundLimits {
    let given = BoundLimits {
        packets: Bounds {
            longest_packet: limits.longest_packet,
            most_filters: limits.most_filters,
            most_levels: limits.most_levels,
            most_properties: limits.most_properties,
            longest_expiry: limits.longest_expiry,
        },
        most_memory: limits
            .most_memory
            .map(|megabytes| u64::from(megabytes) * MEGABYTE),
    };
    if limits.careful {
        given.or(&CAREFUL)
    } else {
        given
    }
}
