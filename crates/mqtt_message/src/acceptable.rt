//! Of which packets a message can be made.

ghost use Rattle.std.specs.Prelude.{◌≡◌, ◌↔◌, ◌&&◌, ◌||◌, ◌==◌, not, IsTrue};
ghost use Rattle.std.specs.List.{list_any, list_all};
ghost use Rattle.mqtt_fields.specs.Numbers.{IsText};
ghost use Rattle.mqtt_fields.specs.declared.table.Place.{Place};
ghost use Rattle.mqtt_packets.specs.Values.{is_valid_property, has, are_valid};
ghost use Rattle.mqtt_topics.specs.Levels.{is_wildcard};
ghost use Rattle.mqtt_topics.specs.Topics.{IsName};
ghost use Rattle.mqtt_message.specs.OwnProperties.{IsAllowed};

use crate::message::Message;
use crate::properties::is_valid;
use mqtt_fields::identifier::{AUTHENTICATION_DATA, AUTHENTICATION_METHOD};
use mqtt_fields::{Place, Property, Text, properties_len};
use mqtt_packets::{Publish, Will};

fn has(id: u8, properties: &[Property]) -> bool
    ensures { result ≡ has id properties.now }
{
    properties.iter().any(|p| p.id == id)
}

fn is_each_valid(properties: &[Property]) -> bool
    ensures { result ≡ list_all is_valid_property properties.now }
{
    properties.iter().all(|p| is_valid(p))
}

/// Whether the properties may stand together at this place.
fn are_allowed(place: Place, properties: &[Property]) -> bool
    ensures { IsTrue result ↔ IsAllowed place properties.now }
{
    let valid = is_each_valid(properties)
        && (has(AUTHENTICATION_METHOD, properties) || !has(AUTHENTICATION_DATA, properties));
    valid && properties_len(place, properties).is_some()
}

fn has_wildcard(text: &str) -> bool
    ensures { result ≡ list_any is_wildcard text.now }
{
    text.as_bytes().iter().any(|b| *b == b'#' || *b == b'+')
}

/// Whether the text is a topic name.
fn is_name(text: &Text) -> bool
    ensures { IsTrue result ↔ IsName text.now }
{
    let text = text.as_str();
    !text.is_empty() && !has_wildcard(text)
}

impl Message {
    ghost use Rattle.mqtt_message.specs.Accepted.{IsAcceptable, IsPublishable};

    /// Whether a message can be made of the PUBLISH: its topic is a name, its properties are
    /// allowed, and its payload is below 2^28 bytes.
    pub fn can_accept(publish: &Publish) -> bool
        ensures { IsTrue result ↔ IsAcceptable publish.now }
    {
        is_name(&publish.topic)
            && are_allowed(Place::Publish, publish.properties.as_slice())
            && publish.payload.as_slice().len() < 268_435_456
    }

    /// Whether a message can be made of the will: its topic is a name, and its properties are
    /// allowed.
    pub fn can_accept_will(will: &Will) -> bool
        ensures { IsTrue result ↔ IsPublishable will.now }
    {
        is_name(&will.topic) && are_allowed(Place::Will, will.properties.as_slice())
    }
}
