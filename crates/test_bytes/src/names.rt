//! Examples of the numbers of properties (MQTT 5.0, 2.2.2.2) and reasons (2.4), by the standard's names.

use crate::words::said;
use mqtt_fields::{NoMemory, identifier};
use mqtt_packets::reason;
use std::alloc::Global;

const PROPERTIES: [(&str, u8); 27] = [
    (
        "Payload Format Indicator",
        identifier::PAYLOAD_FORMAT_INDICATOR,
    ),
    (
        "Message Expiry Interval",
        identifier::MESSAGE_EXPIRY_INTERVAL,
    ),
    ("Content Type", identifier::CONTENT_TYPE),
    ("Response Topic", identifier::RESPONSE_TOPIC),
    ("Correlation Data", identifier::CORRELATION_DATA),
    (
        "Subscription Identifier",
        identifier::SUBSCRIPTION_IDENTIFIER,
    ),
    (
        "Session Expiry Interval",
        identifier::SESSION_EXPIRY_INTERVAL,
    ),
    (
        "Assigned Client Identifier",
        identifier::ASSIGNED_CLIENT_IDENTIFIER,
    ),
    ("Server Keep Alive", identifier::SERVER_KEEP_ALIVE),
    ("Authentication Method", identifier::AUTHENTICATION_METHOD),
    ("Authentication Data", identifier::AUTHENTICATION_DATA),
    (
        "Request Problem Information",
        identifier::REQUEST_PROBLEM_INFORMATION,
    ),
    ("Will Delay Interval", identifier::WILL_DELAY_INTERVAL),
    (
        "Request Response Information",
        identifier::REQUEST_RESPONSE_INFORMATION,
    ),
    ("Response Information", identifier::RESPONSE_INFORMATION),
    ("Server Reference", identifier::SERVER_REFERENCE),
    ("Reason String", identifier::REASON_STRING),
    ("Receive Maximum", identifier::RECEIVE_MAXIMUM),
    ("Topic Alias Maximum", identifier::TOPIC_ALIAS_MAXIMUM),
    ("Topic Alias", identifier::TOPIC_ALIAS),
    ("Maximum QoS", identifier::MAXIMUM_QOS),
    ("Retain Available", identifier::RETAIN_AVAILABLE),
    ("User Property", identifier::USER_PROPERTY),
    ("Maximum Packet Size", identifier::MAXIMUM_PACKET_SIZE),
    (
        "Wildcard Subscription Available",
        identifier::WILDCARD_SUBSCRIPTION_AVAILABLE,
    ),
    (
        "Subscription Identifier Available",
        identifier::SUBSCRIPTION_IDENTIFIER_AVAILABLE,
    ),
    (
        "Shared Subscription Available",
        identifier::SHARED_SUBSCRIPTION_AVAILABLE,
    ),
];

const REASONS: [(&str, u8); 45] = [
    ("Success", reason::SUCCESS),
    ("Normal disconnection", reason::SUCCESS),
    ("Granted QoS 0", reason::SUCCESS),
    ("Granted QoS 1", reason::GRANTED_QOS_1),
    ("Granted QoS 2", reason::GRANTED_QOS_2),
    (
        "Disconnect with Will Message",
        reason::DISCONNECT_WITH_WILL_MESSAGE,
    ),
    ("No matching subscribers", reason::NO_MATCHING_SUBSCRIBERS),
    ("No subscription existed", reason::NO_SUBSCRIPTION_EXISTED),
    ("Continue authentication", reason::CONTINUE_AUTHENTICATION),
    ("Re-authenticate", reason::RE_AUTHENTICATE),
    ("Unspecified error", reason::UNSPECIFIED_ERROR),
    ("Malformed Packet", reason::MALFORMED_PACKET),
    ("Protocol Error", reason::PROTOCOL_ERROR),
    (
        "Implementation specific error",
        reason::IMPLEMENTATION_SPECIFIC_ERROR,
    ),
    (
        "Unsupported Protocol Version",
        reason::UNSUPPORTED_PROTOCOL_VERSION,
    ),
    (
        "Client Identifier not valid",
        reason::CLIENT_IDENTIFIER_NOT_VALID,
    ),
    (
        "Bad User Name or Password",
        reason::BAD_USER_NAME_OR_PASSWORD,
    ),
    ("Not authorized", reason::NOT_AUTHORIZED),
    ("Server unavailable", reason::SERVER_UNAVAILABLE),
    ("Server busy", reason::SERVER_BUSY),
    ("Banned", reason::BANNED),
    ("Server shutting down", reason::SERVER_SHUTTING_DOWN),
    (
        "Bad authentication method",
        reason::BAD_AUTHENTICATION_METHOD,
    ),
    ("Keep Alive timeout", reason::KEEP_ALIVE_TIMEOUT),
    ("Session taken over", reason::SESSION_TAKEN_OVER),
    ("Topic Filter invalid", reason::TOPIC_FILTER_INVALID),
    ("Topic Name invalid", reason::TOPIC_NAME_INVALID),
    ("Packet Identifier in use", reason::PACKET_IDENTIFIER_IN_USE),
    (
        "Packet Identifier not found",
        reason::PACKET_IDENTIFIER_NOT_FOUND,
    ),
    ("Receive Maximum exceeded", reason::RECEIVE_MAXIMUM_EXCEEDED),
    ("Topic Alias invalid", reason::TOPIC_ALIAS_INVALID),
    ("Packet too large", reason::PACKET_TOO_LARGE),
    ("Message rate too high", reason::MESSAGE_RATE_TOO_HIGH),
    ("Quota exceeded", reason::QUOTA_EXCEEDED),
    ("Administrative action", reason::ADMINISTRATIVE_ACTION),
    ("Payload format invalid", reason::PAYLOAD_FORMAT_INVALID),
    ("Retain not supported", reason::RETAIN_NOT_SUPPORTED),
    ("QoS not supported", reason::QOS_NOT_SUPPORTED),
    ("Use another server", reason::USE_ANOTHER_SERVER),
    ("Server moved", reason::SERVER_MOVED),
    (
        "Shared Subscriptions not supported",
        reason::SHARED_SUBSCRIPTIONS_NOT_SUPPORTED,
    ),
    ("Connection rate exceeded", reason::CONNECTION_RATE_EXCEEDED),
    ("Maximum connect time", reason::MAXIMUM_CONNECT_TIME),
    (
        "Subscription Identifiers not supported",
        reason::SUBSCRIPTION_IDENTIFIERS_NOT_SUPPORTED,
    ),
    (
        "Wildcard Subscriptions not supported",
        reason::WILDCARD_SUBSCRIPTIONS_NOT_SUPPORTED,
    ),
];

/// The number of a name in a table, in hexadecimal.
fn number_in(alloc: Global, table: &[(&str, u8)], name: &str) -> Result<String, NoMemory> {
    for (known, number) in table {
        if *known == name {
            return Ok(format!(in alloc; "{number:02x}")?);
        }
    }
    said(alloc, "no such name")
}

/// The identifier of a property, by its name.
pub fn identifier_of(alloc: Global, name: &str) -> Result<String, NoMemory> {
    number_in(alloc, &PROPERTIES, name)
}

/// The reason code of a name.
pub fn reason_of(alloc: Global, name: &str) -> Result<String, NoMemory> {
    number_in(alloc, &REASONS, name)
}
