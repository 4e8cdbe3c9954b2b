//! Which values the standard allows, beside what their fields can hold.

ghost use Rattle.std.specs.Prelude.{◌≡◌, ◌==◌, not, ◌&&◌, ◌||◌};
ghost use Rattle.std.specs.List.{list_any, list_all};
ghost use Rattle.mqtt_packets.specs.Values.{has_no_wildcard, is_valid_property, has, are_valid};

use mqtt_fields::identifier::{
    AUTHENTICATION_DATA, AUTHENTICATION_METHOD, MAXIMUM_PACKET_SIZE, RECEIVE_MAXIMUM,
    RESPONSE_TOPIC, SUBSCRIPTION_IDENTIFIER,
};
use mqtt_fields::{Property, Value};

fn has_no_wildcard(text: &[u8]) -> bool
    ensures { result ≡ has_no_wildcard text.now }
{
    text.iter().all(|b| *b != b'+' && *b != b'#')
}

fn is_valid_property(p: &Property) -> bool
    ensures { result ≡ is_valid_property p.now }
{
    match &p.value {
        Value::Byte(n) => *n < 2,
        Value::Two(n) => !(p.id == RECEIVE_MAXIMUM && *n == 0),
        Value::Four(n) => !(p.id == MAXIMUM_PACKET_SIZE && *n == 0),
        Value::Vbi(n) => !(p.id == SUBSCRIPTION_IDENTIFIER && *n == 0),
        Value::Text(t) => p.id != RESPONSE_TOPIC || has_no_wildcard(t.as_str().as_bytes()),
        _ => true,
    }
}

/// Whether a property with this identifier stands there.
pub(crate) fn has(id: u8, ps: &[Property]) -> bool
    ensures { result ≡ has id ps.now }
{
    ps.iter().any(|p| p.id == id)
}

fn is_each_valid(ps: &[Property]) -> bool
    ensures { result ≡ list_all is_valid_property ps.now }
{
    ps.iter().all(|p| is_valid_property(p))
}

/// Whether the properties say nothing that the standard forbids.
pub fn are_valid(ps: &[Property]) -> bool
    ensures { result ≡ are_valid ps.now }
{
    is_each_valid(ps) && (has(AUTHENTICATION_METHOD, ps) || !has(AUTHENTICATION_DATA, ps))
}
