//! Counts by Reason Codes.

/// How often a Reason Code (MQTT 5.0, 2.4) was given.
#[derive(Clone, Copy, Debug, PartialEq, Eq)]
pub struct CodeCount {
    pub code: u8,
    pub count: u64,
}
