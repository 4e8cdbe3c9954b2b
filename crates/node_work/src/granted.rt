//! What becomes of the filters of a SUBSCRIBE.

use mqtt_fields::SubscriptionOptions;
use mqtt_message::Identifiers;
use mqtt_topics::Filter;

/// A filter whose retained messages are to be sent, its options, and its Subscription Identifier, if it
/// has one.
#[derive(Drop)]
pub struct Asked {
    pub filter: Filter,
    pub options: SubscriptionOptions,
    pub identifiers: Identifiers,
}

/// What became of a filter in a SUBSCRIBE: its reason, and the filter where its retained messages
/// are to be sent.
#[derive(Drop)]
pub struct Granted {
    pub reason: u8,
    pub asked: Option<Asked>,
}
