//! Limits that several crates have.

/// Moments in milliseconds, and the numbers of operations, of messages in a lane, of places and of client identifiers, stay below.
pub const NUMBERS_END: u64 = 1 << 62;

/// The most bytes of a string, and of binary data (MQTT 5.0, 1.5.4 and 1.5.6).
pub const LONGEST_STRING: usize = 65_535;

/// The most bytes of a packet that a client may send.
pub const LONGEST_PACKET: usize = 1_048_576;

/// The most bytes of a client identifier that is accepted.
pub const LONGEST_CLIENT: usize = 256;

/// The most bytes of a value in a table of homes, and so of the prefix of a home.
pub const LONGEST_VALUE: usize = 255;

/// The most bytes that follow the length of a frame between nodes.
pub const LONGEST_FRAME: usize = 268_435_456;

/// How many exchanges at QoS 1 and 2 a client may have open on a connection.
pub const MOST_EXCHANGES: usize = 100;

/// A Session Expiry Interval at which a session never ends (MQTT 5.0, 3.1.2.11.2).
pub const NEVER_ENDS: u32 = 4_294_967_295;
