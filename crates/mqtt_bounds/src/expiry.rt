//! Session Expiry Intervals, and properties that are replaced.

ghost use Rattle.std.specs.Prelude.{◌≡◌, IfOk};
ghost use Rattle.mqtt_bounds.specs.Bounded.{four_put, shorter};

use crate::bounds::Bounds;
use mqtt_fields::identifier::SESSION_EXPIRY_INTERVAL;
use mqtt_fields::{NoMemory, Properties, Property, Value};
use std::alloc::Global;

/// The interval in place of the one that the properties ask for, where that is longer than it may be.
pub(crate) fn shorter(bounds: &Bounds, properties: &Properties) -> Option<u32>
    ensures { result ≡ shorter bounds.now properties.now }
{
    let longest = bounds.longest_expiry?;
    let asked = properties.four(SESSION_EXPIRY_INTERVAL)?;
    if longest < asked { Some(longest) } else { None }
}

/// The properties, of which the only one with this identifier is this Four Byte Integer, the last of them.
pub(crate) fn with_four(
    alloc: Global,
    id: u8,
    number: u32,
    properties: &Properties,
) -> Result<Properties, NoMemory>
    ensures { IfOk result (λ p. p ≡ four_put id number properties.now) }
{
    let items = properties.as_slice();
    let mut put = Properties::new(alloc);
    for property in items {
        if property.id != id {
            put.push(property.copy(alloc)?)?;
        }
    }
    let value = Value::Four(number);
    put.push(Property { id, value })?;
    Ok(put)
}
