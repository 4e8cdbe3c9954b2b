//! The identifiers of properties (MQTT 5.0, 2.2.2.2).

pub const PAYLOAD_FORMAT_INDICATOR: u8 = 1;

pub const MESSAGE_EXPIRY_INTERVAL: u8 = 2;

pub const CONTENT_TYPE: u8 = 3;

pub const RESPONSE_TOPIC: u8 = 8;

pub const CORRELATION_DATA: u8 = 9;

pub const SUBSCRIPTION_IDENTIFIER: u8 = 11;

pub const SESSION_EXPIRY_INTERVAL: u8 = 17;

pub const ASSIGNED_CLIENT_IDENTIFIER: u8 = 18;

pub const SERVER_KEEP_ALIVE: u8 = 19;

pub const AUTHENTICATION_METHOD: u8 = 21;

pub const AUTHENTICATION_DATA: u8 = 22;

pub const REQUEST_PROBLEM_INFORMATION: u8 = 23;

pub const WILL_DELAY_INTERVAL: u8 = 24;

pub const REQUEST_RESPONSE_INFORMATION: u8 = 25;

pub const RESPONSE_INFORMATION: u8 = 26;

pub const SERVER_REFERENCE: u8 = 28;

pub const REASON_STRING: u8 = 31;

pub const RECEIVE_MAXIMUM: u8 = 33;

pub const TOPIC_ALIAS_MAXIMUM: u8 = 34;

pub const TOPIC_ALIAS: u8 = 35;

pub const MAXIMUM_QOS: u8 = 36;

pub const RETAIN_AVAILABLE: u8 = 37;

pub const USER_PROPERTY: u8 = 38;

pub const MAXIMUM_PACKET_SIZE: u8 = 39;

pub const WILDCARD_SUBSCRIPTION_AVAILABLE: u8 = 40;

pub const SUBSCRIPTION_IDENTIFIER_AVAILABLE: u8 = 41;

pub const SHARED_SUBSCRIPTION_AVAILABLE: u8 = 42;
