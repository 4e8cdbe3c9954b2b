//! PUBLISH.

ghost use Rattle.std.specs.Prelude.{◌≡◌, ◌==◌};
ghost use Rattle.mqtt_bounds.specs.Bounded.{ends_if_refused, is_repeat_at, publish_code, publish_verdict, refusal, sets_alias, user_properties};

use crate::bounds::{Bounds, is_above, levels};
use crate::verdict::{Mend, Verdict};
use mqtt_fields::identifier::{TOPIC_ALIAS, USER_PROPERTY};
use mqtt_fields::{Properties, Property, Qos};
use mqtt_packets::reason::{QUOTA_EXCEEDED, TOPIC_NAME_INVALID};
use mqtt_packets::{Ack, Packet, Publish};
use std::alloc::Global;

/// How many of the properties are a user's.
fn user_properties(properties: &[Property]) -> usize
    ensures { result ≡ user_properties properties.now }
{
    properties.iter().filter(|p| p.id == USER_PROPERTY).count()
}

/// The Reason Code with which a PUBLISH is refused, if it is.
fn publish_code(bounds: &Bounds, full: bool, publish: &Publish) -> Option<u8>
    ensures { result ≡ publish_code bounds.now full publish.now }
{
    if full
        || is_above(
            bounds.most_properties,
            user_properties(publish.properties.as_slice()),
        )
    {
        Some(QUOTA_EXCEEDED)
    } else if is_above(
        bounds.most_levels,
        levels(publish.topic.as_str().as_bytes()),
    ) {
        Some(TOPIC_NAME_INVALID)
    } else {
        None
    }
}

/// What answers a PUBLISH that is refused with this code.
fn refusal(alloc: Global, publish: &Publish, reason: u8) -> Option<Packet>
    ensures { result ≡ refusal publish.now reason }
{
    let ack = Ack {
        identifier: publish.identifier,
        reason,
        properties: Properties::new(alloc),
    };
    match publish.qos {
        Qos::AtMostOnce => None,
        Qos::AtLeastOnce => Some(Packet::Puback(ack)),
        Qos::ExactlyOnce => Some(Packet::Pubrec(ack)),
    }
}

/// Whether it comes again at QoS 2.
fn is_repeat(qos: Qos, dup: bool) -> bool
    ensures { result ≡ is_repeat_at qos dup }
{
    match qos {
        Qos::AtMostOnce => false,
        Qos::AtLeastOnce => false,
        Qos::ExactlyOnce => dup,
    }
}

/// Whether it gives a topic's name an alias.
fn sets_alias(publish: &Publish) -> bool
    ensures { result ≡ sets_alias publish.now }
{
    !publish.topic.as_str().is_empty() && publish.properties.two(TOPIC_ALIAS).is_some()
}

/// Whether the connection ends where a PUBLISH is refused: the node may hold an exchange that is open for it, or its client takes its topic to
/// have an alias from now on.
fn ends_if_refused(publish: &Publish) -> bool
    ensures { result ≡ ends_if_refused publish.now }
{
    is_repeat(publish.qos, publish.dup) || sets_alias(publish)
}

pub(crate) fn publish_verdict(
    alloc: Global,
    bounds: &Bounds,
    full: bool,
    publish: &Publish,
) -> Verdict
    ensures { result ≡ publish_verdict bounds.now full publish.now }
{
    match publish_code(bounds, full, publish) {
        None => Verdict::Goes(Mend::Nothing),
        Some(reason) => {
            if ends_if_refused(publish) {
                Verdict::Ends(reason)
            } else {
                Verdict::Refused(refusal(alloc, publish, reason))
            }
        }
    }
}
